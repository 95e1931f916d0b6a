use std::test::Fail;
use word_report::report::report;

#[test]
fn of_counts(rt: HostRuntime) -> Result<(), Fail> {
    let mut file = [0u8; 24];
    file[8] = 7;
    let text = report(rt.alloc(), &file)?;
    assert!(rt; text.as_str() == "1 1 7\n3 words, 1 filled, 7 in all\n");
    Ok(())
}

#[test]
fn with_a_bad_code(rt: HostRuntime) -> Result<(), Fail> {
    let mut file = [0u8; 24];
    file[23] = 1;
    let text = report(rt.alloc(), &file)?;
    assert!(rt; text.as_str() == "declined: 16 malformed at 2\n");
    Ok(())
}

#[test]
fn of_a_wrong_length(rt: HostRuntime) -> Result<(), Fail> {
    let text = report(rt.alloc(), &[0u8; 23])?;
    assert!(rt; text.as_str() == "declined: 2 wrong length at 0\n");
    Ok(())
}
