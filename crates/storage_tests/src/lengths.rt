use decline::Decline;
use std::test::Fail;
use stock::count::Count;
use storage::{load, store};

#[test]
fn no_words(rt: HostRuntime) {
    let mut words: [Count; 0] = [];
    let mut file: [u8; 0] = [];
    assert!(rt; store(&words, &mut file) == Err(Decline::WrongLength));
    assert!(rt; load(&file, &mut words) == Err(Decline::WrongLength));
}

#[test]
fn bytes_for_each_word(rt: HostRuntime) -> Result<(), Fail> {
    let seven = Count::new(7).ok_or("no such count")?;
    let mut words = [seven; 2];
    let mut file = [1u8; 17];
    assert!(rt; store(&words, &mut file) == Err(Decline::WrongLength));
    assert!(rt; store(&words, &mut file[0..15]) == Err(Decline::WrongLength));
    assert!(rt; file[0] == 1);
    assert!(rt; store(&words, &mut file[0..16]) == Ok(()));
    assert!(rt; file[8] == 7);
    assert!(rt; file[15] == 0);
    assert!(rt; file[16] == 1);
    assert!(rt; load(&file, &mut words) == Err(Decline::WrongLength));
    assert!(rt; load(&file[0..8], &mut words) == Err(Decline::WrongLength));
    assert!(rt; words[1] == seven);
    Ok(())
}

#[test]
fn most_words(rt: HostRuntime) -> Result<(), Fail> {
    let heap = rt.alloc();
    let seven = Count::new(7).ok_or("no such count")?;
    let words = vec![in heap; seven; 4097]?;
    let mut file = vec![in heap; 0u8; 32776]?;
    assert!(rt; words.len() == 4097);
    assert!(rt; file.len() == 32776);
    assert!(rt; store(words.as_slice(), file.as_mut_slice()) == Err(Decline::WrongLength));
    assert!(rt; store(&words[0..4096], &mut file[0..32768]) == Ok(()));
    assert!(rt; store(&words[0..1], &mut file[0..8]) == Ok(()));
    assert!(rt; file[32760] == 7);
    Ok(())
}
