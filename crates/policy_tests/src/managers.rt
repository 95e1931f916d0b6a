// Which of two transactions goes first.
use policy::contention::{ByClass, ByStart, ByThread, ContentionManager, Reversed};
use policy::priority::Priority;
use std::process::Abort;

const EARLY: Priority = Priority {
    class: 2,
    start: 7,
    thread: 3,
};

const LATE: Priority = Priority {
    class: 2,
    start: 8,
    thread: 1,
};

// As early as EARLY, of a lower class and a higher thread.
const URGENT: Priority = Priority {
    class: 1,
    start: 7,
    thread: 4,
};

// `one` goes first, and not the other.
fn first<C: ContentionManager>(
    rt: &impl Abort,
    manager: &C,
    one: Priority,
    other: Priority,
    why: &str,
) {
    assert!(rt; manager.precedes(one, other), "{why}");
    assert!(rt; !manager.precedes(other, one), "{why}");
    assert!(rt; !manager.precedes(one, one), "nothing precedes itself");
}

#[test]
fn by_start(rt: HostRuntime) {
    first(&rt, &ByStart, EARLY, LATE, "the earlier start");
    first(
        &rt,
        &ByStart,
        EARLY,
        URGENT,
        "one start, so the lower thread",
    );
}

#[test]
fn by_thread(rt: HostRuntime) {
    first(&rt, &ByThread, LATE, EARLY, "the lower thread");
    first(&rt, &ByThread, EARLY, URGENT, "the lower thread");
}

#[test]
fn by_class(rt: HostRuntime) {
    first(&rt, &ByClass(ByStart), URGENT, EARLY, "the lower class");
    first(
        &rt,
        &ByClass(ByStart),
        EARLY,
        LATE,
        "one class, so the lower start",
    );
}

#[test]
fn reversed(rt: HostRuntime) {
    first(&rt, &Reversed(ByThread), EARLY, LATE, "the higher thread");
    first(
        &rt,
        &Reversed(Reversed(ByThread)),
        LATE,
        EARLY,
        "twice reversed, so the lower thread",
    );
}

#[test]
fn class_over_reversed(rt: HostRuntime) {
    let manager = ByClass(Reversed(ByThread));
    first(&rt, &manager, URGENT, EARLY, "the lower class");
    first(
        &rt,
        &manager,
        EARLY,
        LATE,
        "one class, so the higher thread",
    );
}

#[test]
fn reversed_class(rt: HostRuntime) {
    let manager = Reversed(ByClass(ByStart));
    first(&rt, &manager, EARLY, URGENT, "the higher class");
    first(&rt, &manager, LATE, EARLY, "one class, so the later start");
}
