use crate::bench::{agree, by_meaning, by_path, count};
use decline::Decline;
use hardware::redo::RedoLog;
use stock::access::Access;
use stock::count::Count;
use stock::fault::{AccessFault, StockFault};

// Looks and stows in turn, each pair to the next word, and at one place a draw of more than there is.
fn broken_at(place: usize, one: Count, many: Count) -> [Access<Count>; 24] {
    let mut accesses = [Access {
        kind: 0,
        word: 0,
        value: one,
    }; 24];
    // The next word comes after a stow, and not after each access.
    let mut word = 0;
    for (i, access) in accesses.iter_mut().enumerate() {
        access.word = word;
        if i == place {
            access.kind = 2;
            access.value = many;
        } else if i % 2 == 1 {
            access.kind = 3;
            word = if word < 19 { word + 1 } else { 0 };
        }
    }
    accesses
}

#[test]
fn at_each_place(rt: HostRuntime) {
    let one = count(1);
    let many = count(999_999);
    for place in 0..24 {
        let accesses = broken_at(place, one, many);
        let fault = AccessFault {
            place,
            fault: StockFault::Short,
        };
        let run = by_path(&RedoLog, &accesses);
        assert!(rt; run.outcome == Err(Decline::Stock(fault)));
        assert!(rt; run.words == [one; 20]);
        assert!(rt; agree(&accesses));
    }
}

#[test]
fn looks_before_the_fault_stand(rt: HostRuntime) {
    let zero = count(0);
    let one = count(1);
    let many = count(999_999);
    let run = by_meaning(&broken_at(23, one, many));
    assert!(rt; run.answers[22] == one);
    assert!(rt; run.answers[1] == zero);
    assert!(rt; run.answers[23] == zero);
}

#[test]
fn a_look_sees_earlier_writes(rt: HostRuntime) {
    let zero = count(0);
    let one = count(1);
    let two = count(2);
    let accesses = [
        Access {
            kind: 3,
            word: 7,
            value: one,
        },
        Access {
            kind: 0,
            word: 7,
            value: zero,
        },
    ];
    let run = by_meaning(&accesses);
    assert!(rt; run.outcome == Ok(()));
    assert!(rt; run.answers[1] == two);
    assert!(rt; run.words[7] == two);
    assert!(rt; agree(&accesses));
}
