use decline::Decline;
use std::test::Fail;
use stock::count::Count;
use storage::load;

// Five Counts, all 0 but for the bytes of 1,000,000 at a place.
fn bad_at(place: usize) -> [u8; 40] {
    let mut file = [0; 40];
    if place < 5 {
        file[8 * place..8 * place + 3].copy_from_slice(&[64, 66, 15]);
    }
    file
}

#[test]
fn at_each_place(rt: HostRuntime) -> Result<(), Fail> {
    let seven = Count::new(7).ok_or("no such count")?;
    for place in 0..5 {
        let mut words = [seven; 5];
        assert!(rt; load(&bad_at(place), &mut words) == Err(Decline::Malformed(place)));
        assert!(rt; words == [seven; 5]);
    }
    Ok(())
}

#[test]
fn the_first_counts(rt: HostRuntime) -> Result<(), Fail> {
    let seven = Count::new(7).ok_or("no such count")?;
    let mut words = [seven; 5];
    let mut file = bad_at(3);
    file[15] = 1;
    assert!(rt; load(&file, &mut words) == Err(Decline::Malformed(1)));
    assert!(rt; words[0] == seven);
    Ok(())
}
