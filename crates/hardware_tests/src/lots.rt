use crate::bench::run_checked;
use decline::Decline;
use hardware::path::HardwarePath;
use hardware::redo::RedoLog;
use hardware::undo::UndoLog;
use std::process::Abort;
use std::test::Fail;
use stock::access::Access;
use stock::fault::{AccessFault, StockFault};
use stock::lot::Lot;

// A lot goes in, is looked at, and the wrong batch is drawn: the words are as before, the look stands.
fn other_batch<P: HardwarePath>(rt: &impl Abort, path: &P, four: Lot, five: Lot) {
    let accesses = [
        Access {
            kind: 3,
            word: 1,
            value: four,
        },
        Access {
            kind: 0,
            word: 1,
            value: five,
        },
        Access {
            kind: 2,
            word: 1,
            value: five,
        },
    ];
    let mut words = [Lot::empty(); 2];
    let mut answers = [Lot::empty(); 3];
    let mut work = [Lot::empty(); 32];
    let outcome = run_checked(path, &mut words, &accesses, &mut answers, &mut work);
    let fault = AccessFault {
        place: 2,
        fault: StockFault::OtherBatch,
    };
    assert!(rt; outcome == Err(Decline::Stock(fault)));
    assert!(rt; words[1] == Lot::empty());
    assert!(rt; answers[1] == four);
}

#[test]
fn other_batches(rt: HostRuntime) -> Result<(), Fail> {
    let four = Lot::new(4, 9).ok_or("no lot")?;
    let five = Lot::new(5, 1).ok_or("no lot")?;
    other_batch(&rt, &RedoLog, four, five);
    other_batch(&rt, &UndoLog, four, five);
    Ok(())
}
