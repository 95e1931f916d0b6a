// Ownership records and modes, and their numbers.
use policy::orec::{LAST_VERSION, Mode, OwnershipRecord, UnknownMode};

const READ_BY_TWO: OwnershipRecord = OwnershipRecord {
    mode: Mode::Read,
    readers: 2,
    thread: 5,
    version: 35,
};

fn written(version: u32) -> OwnershipRecord {
    OwnershipRecord {
        mode: Mode::Write,
        readers: 0,
        thread: 1,
        version,
    }
}

#[test]
fn read_record(rt: HostRuntime) {
    assert_eq!(rt; READ_BY_TWO.pack(), 2_298_889);
    assert_eq!(rt; OwnershipRecord::unpack(2_298_889), Some(READ_BY_TWO));
}

#[test]
fn write_record(rt: HostRuntime) {
    assert_eq!(rt; written(35).pack(), 2_294_786);
    assert_eq!(rt; OwnershipRecord::unpack(2_294_786), Some(written(35)));
}

#[test]
fn new_record(rt: HostRuntime) {
    assert_eq!(rt; OwnershipRecord::new().pack(), 0);
    assert_eq!(rt; OwnershipRecord::unpack(0), Some(OwnershipRecord::new()));
}

#[test]
fn numbers_of_no_record(rt: HostRuntime) {
    for (number, why) in [
        (3, "no mode has the number 3"),
        (4, "a free record has no reader"),
        (69, "17 readers"),
    ] {
        assert_eq!(rt; OwnershipRecord::unpack(number), None, "{why}");
    }
}

#[test]
fn largest_version(rt: HostRuntime) {
    let last = written(LAST_VERSION);
    assert!(rt; last.is_well_formed());
    assert_eq!(rt; OwnershipRecord::unpack(last.pack()), Some(last));
    let past = written(LAST_VERSION + 1);
    assert!(rt; !past.is_well_formed());
    assert_eq!(rt; OwnershipRecord::unpack(past.pack()), None);
}

#[test]
fn mode_numbers(rt: HostRuntime) {
    for (mode, number) in [(Mode::Free, 0), (Mode::Read, 1), (Mode::Write, 2)] {
        assert_eq!(rt; u8::from(mode), number);
        assert_eq!(rt; Mode::try_from(number), Ok(mode));
    }
}

#[test]
fn number_of_no_mode(rt: HostRuntime) {
    assert_eq!(rt; Mode::try_from(3), Err(UnknownMode(3)));
}
