use crate::refusal::Refusal::{Fault, NoStock};
use crate::refusal::outcome;
use stock::lot::Lot;
use stock::value::Stock;

fn lot((batch, count): (u32, u32)) -> Option<Lot> {
    Lot::new(batch, count)
}

fn parts(lot: Lot) -> (u32, u32) {
    (lot.batch(), lot.count())
}

#[test]
fn draws(rt: HostRuntime) {
    let table = [
        ((0, 0), (0, 0), Ok((0, 0))),
        ((4, 9), (0, 0), Ok((4, 9))),
        ((0, 0), (4, 1), Err(Fault(3))),
        ((4, 9), (5, 1), Err(Fault(3))),
        ((4, 9), (4, 8), Ok((4, 1))),
        ((4, 9), (4, 9), Ok((0, 0))),
        ((4, 9), (4, 10), Err(Fault(1))),
        ((999_999, 999_999), (999_999, 1), Ok((999_999, 999_998))),
        ((4, 0), (0, 0), Err(NoStock)),
        ((0, 4), (0, 0), Err(NoStock)),
    ];
    for (old, given, want) in table {
        let left = outcome(lot(old), lot(given), |old, given| old.draw(given));
        assert!(rt; left.map(parts) == want);
    }
}

#[test]
fn stows(rt: HostRuntime) {
    let table = [
        ((0, 0), (0, 0), Ok((0, 0))),
        ((0, 0), (4, 9), Ok((4, 9))),
        ((4, 9), (0, 0), Ok((4, 9))),
        ((4, 9), (5, 1), Err(Fault(3))),
        ((4, 9), (4, 1), Ok((4, 10))),
        ((4, 999_998), (4, 1), Ok((4, 999_999))),
        ((4, 999_999), (4, 1), Err(Fault(2))),
        ((4, 1), (5, 999_999), Err(Fault(3))),
        ((1_000_000, 1), (0, 0), Err(NoStock)),
        ((1, 1_000_000), (0, 0), Err(NoStock)),
    ];
    for (old, given, want) in table {
        let sum = outcome(lot(old), lot(given), |old, given| old.stow(given));
        assert!(rt; sum.map(parts) == want);
    }
}

#[test]
fn codes(rt: HostRuntime) {
    for code in [0, 4_294_967_297, 4_294_963_002_032_703] {
        assert!(rt; Lot::decode(code).map(|lot| lot.code()) == Some(code));
    }
    // A batch without a count, a count without a batch, and each past its limit.
    for code in [
        1,
        4_294_967_296,
        4_294_967_297 + 999_999,
        4_294_967_296_000_000 + 1,
    ] {
        assert!(rt; Lot::decode(code).is_none());
    }
}
