use crate::refusal::Refusal::{Fault, NoStock};
use crate::refusal::outcome;
use stock::count::Count;
use stock::value::Stock;

#[test]
fn draws(rt: HostRuntime) {
    let table = [
        (0, 0, Ok(0)),
        (0, 1, Err(Fault(1))),
        (7, 0, Ok(7)),
        (7, 6, Ok(1)),
        (7, 7, Ok(0)),
        (7, 8, Err(Fault(1))),
        (999_999, 1, Ok(999_998)),
        (999_999, 999_999, Ok(0)),
        (999_998, 999_999, Err(Fault(1))),
        (1_000_000, 0, Err(NoStock)),
    ];
    for (old, given, want) in table {
        let left = outcome(
            Count::new(old),
            Count::new(given),
            |old, given| old.draw(given),
        );
        assert!(rt; left.map(|count| count.value()) == want);
    }
}

#[test]
fn stows(rt: HostRuntime) {
    let table = [
        (0, 0, Ok(0)),
        (0, 999_999, Ok(999_999)),
        (999_999, 0, Ok(999_999)),
        (999_999, 1, Err(Fault(2))),
        (1, 999_999, Err(Fault(2))),
        (500_000, 499_999, Ok(999_999)),
        (500_000, 500_000, Err(Fault(2))),
        (0, 1_000_000, Err(NoStock)),
    ];
    for (old, given, want) in table {
        let sum = outcome(
            Count::new(old),
            Count::new(given),
            |old, given| old.stow(given),
        );
        assert!(rt; sum.map(|count| count.value()) == want);
    }
}

#[test]
fn codes(rt: HostRuntime) {
    for code in [0, 1, 999_999] {
        assert!(rt; Count::decode(code).map(|count| count.code()) == Some(code));
    }
    for code in [1_000_000, 4_294_967_296, 18_446_744_073_709_551_615] {
        assert!(rt; Count::decode(code).is_none());
    }
}
