use std::test::Fail;
use stock::lot::Lot;
use storage::{load, store};

#[test]
fn lots(rt: HostRuntime) -> Result<(), Fail> {
    let largest = Lot::new(999_999, 999_999).ok_or("no such lot")?;
    let small = Lot::new(7, 3).ok_or("no such lot")?;
    let words = [largest, Lot::empty(), small];
    let mut file = [9u8; 24];
    assert!(rt; store(&words, &mut file) == Ok(()));
    assert!(rt; file[16] == 7);
    assert!(rt; file[20] == 3);
    let mut back = [small; 3];
    assert!(rt; load(&file, &mut back) == Ok(()));
    assert!(rt; back == words);
    Ok(())
}
