use decline::Decline;
use std::test::Fail;
use stock::fault::{AccessFault, StockFault};
use word_report::text::{ClosingLine, DeclinedLine, WordLine};

#[test]
fn word(rt: HostRuntime) -> Result<(), Fail> {
    let line = WordLine {
        word: 70,
        count: 999_999,
    };
    let text = line.to_string(rt.alloc())?;
    assert!(rt; text.as_str() == "70 6 999999\n");
    Ok(())
}

#[test]
fn closing(rt: HostRuntime) -> Result<(), Fail> {
    let line = ClosingLine {
        words: 128,
        filled: 2,
        total: 11,
    };
    let text = line.to_string(rt.alloc())?;
    assert!(rt; text.as_str() == "128 words, 2 filled, 11 in all\n");
    Ok(())
}

#[test]
fn declined(rt: HostRuntime) -> Result<(), Fail> {
    let fault = AccessFault {
        place: 3,
        fault: StockFault::Over,
    };
    let text = DeclinedLine(Decline::Stock(fault)).to_string(rt.alloc())?;
    assert!(rt; text.as_str() == "declined: 15 stock fault at 3\n");
    Ok(())
}
