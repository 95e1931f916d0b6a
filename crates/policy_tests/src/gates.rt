// Both gates at every mode, with none and one under way, for looks and writing accesses.
use policy::gate::{ByCounter, ByRecord, Gate};
use policy::orec::Mode;

// What a gate says to a look and to a writing access, at a free record, one in read mode and one in write mode.
fn answers<G: Gate>(gate: &G, under_way: usize) -> [bool; 6] {
    [
        gate.admits(Mode::Free, under_way, false),
        gate.admits(Mode::Free, under_way, true),
        gate.admits(Mode::Read, under_way, false),
        gate.admits(Mode::Read, under_way, true),
        gate.admits(Mode::Write, under_way, false),
        gate.admits(Mode::Write, under_way, true),
    ]
}

#[test]
fn by_record(rt: HostRuntime) {
    for under_way in [0, 1] {
        assert_eq!(rt;
            answers(&ByRecord, under_way),
            [true, true, true, false, false, false]
        );
    }
}

#[test]
fn by_counter(rt: HostRuntime) {
    assert_eq!(rt; answers(&ByCounter, 0), [true; 6]);
    assert_eq!(rt; answers(&ByCounter, 1), [false; 6]);
}
