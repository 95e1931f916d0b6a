use crate::bench::{agree, by_path, count};
use decline::Decline;
use hardware::path::HardwarePath;
use hardware::redo::RedoLog;
use hardware::undo::UndoLog;
use stock::access::Access;
use stock::count::Count;
use stock::kind::AccessKind;

// Accesses of one kind to words 0, 1, .. up to the last, over and over.
fn round(kind: AccessKind, value: Count, last: u32) -> [Access<Count>; 64] {
    let mut accesses = [Access {
        kind: u8::from(kind),
        word: 0,
        value,
    }; 64];
    for (access, word) in accesses.iter_mut().zip((0..=last).cycle()) {
        access.word = word;
    }
    accesses
}

#[test]
fn different_words(rt: HostRuntime) {
    let one = count(1);
    let wide = round(AccessKind::Stow, one, 16);
    assert!(rt; RedoLog.fits(&wide[0..16]));
    assert!(rt; !RedoLog.fits(&wide[0..17]));
    assert!(rt; agree(&wide[0..16]));
    let narrow = round(AccessKind::Stow, one, 15);
    assert!(rt; RedoLog.fits(&narrow[0..64]));
    assert!(rt; agree(&narrow[0..32]));
}

#[test]
fn writing_accesses(rt: HostRuntime) {
    let one = count(1);
    let stows = round(AccessKind::Stow, one, 3);
    assert!(rt; UndoLog.fits(&stows[0..32]));
    assert!(rt; !UndoLog.fits(&stows[0..33]));
    assert!(rt; RedoLog.fits(&stows[0..33]));
    assert!(rt; agree(&stows[0..32]));
}

#[test]
fn gives_up_with_all_as_before(rt: HostRuntime) {
    let zero = count(0);
    let one = count(1);
    let wide = round(AccessKind::Stow, one, 16);
    let redo = by_path(&RedoLog, &wide[0..17]);
    assert!(rt; redo.outcome == Err(Decline::Unfit));
    assert!(rt; redo.words == [one; 20]);
    assert!(rt; redo.answers == [zero; 64]);
    let undo = by_path(&UndoLog, &wide[0..33]);
    assert!(rt; undo.outcome == Err(Decline::Unfit));
    assert!(rt; undo.words == [one; 20]);
}

#[test]
fn few_and_many(rt: HostRuntime) {
    let one = count(1);
    let looks = round(AccessKind::Look, one, 19);
    assert!(rt; agree(&looks[0..0]));
    assert!(rt; agree(&looks[0..1]));
    assert!(rt; agree(&looks[0..64]));
    let draws = round(AccessKind::Draw, one, 19);
    assert!(rt; agree(&draws[0..1]));
}
