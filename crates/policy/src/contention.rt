// Which of two transactions in each other's way goes first.
ghost use Rattle.std.specs.Prelude.{◌≡◌, Bool, true, false, not, ◌≢◌};
ghost use Rattle.policy.specs.Precedence.{by_class, by_start, by_thread, reversed};
ghost use Rattle.policy.specs.Priority.{Possible};
ghost use Rattle.policy.specs.declared.priority.Priority.{Priority};
ghost use Rattle.std.proofs.Common.{rules};

use crate::priority::Priority;

pub trait ContentionManager {
    ghost ahead: { Self → Priority → Priority → Bool };

    fn precedes(&self, one: Priority, other: Priority) -> bool
        ensures { result ≡ ahead self.now one other };

    ghost irreflexive: { (m : Self) (p : Priority) → Possible p → ahead m p p ≡ false };

    ghost transitive: { (m : Self) (p q r : Priority) → Possible p → Possible q → Possible r →
        ahead m p q ≡ true → ahead m q r ≡ true → ahead m p r ≡ true };

    // Of two transactions of different threads exactly one precedes.
    ghost decided: { (m : Self) (p q : Priority) → Possible p → Possible q →
        (p.thread ≢ q.thread) → ahead m p q ≡ not (ahead m q p) };
}

// The one that started first.
#[derive(Clone, Copy)]
pub struct ByStart;

impl ContentionManager for ByStart {
    ghost ahead = { λ _ p q. by_start p q };

    ghost irreflexive = { Prim.search rules };

    ghost transitive = { Prim.search rules };

    ghost decided = { Prim.search rules };

    fn precedes(&self, one: Priority, other: Priority) -> bool {
        (one.start, one.thread) < (other.start, other.thread)
    }
}

// The one of the lower thread.
#[derive(Clone, Copy)]
pub struct ByThread;

impl ContentionManager for ByThread {
    ghost ahead = { λ _ p q. by_thread p q };

    ghost irreflexive = { Prim.search rules };

    ghost transitive = { Prim.search rules };

    ghost decided = { Prim.search rules };

    fn precedes(&self, one: Priority, other: Priority) -> bool {
        one.thread < other.thread
    }
}

// The one of the lower class, and within a class as the manager below says.
#[derive(Clone, Copy)]
pub struct ByClass<C>(pub C);

impl<C: ContentionManager> ContentionManager for ByClass<C> {
    ghost ahead = { λ m p q. by_class (C.ahead m.0) p q };

    ghost irreflexive = { Prim.search rules };

    ghost transitive = { Prim.search rules };

    ghost decided = { Prim.search rules };

    fn precedes(&self, one: Priority, other: Priority) -> bool {
        if one.class == other.class {
            self.0.precedes(one, other)
        } else {
            one.class < other.class
        }
    }
}

// The reverse of what the manager below says.
#[derive(Clone, Copy)]
pub struct Reversed<C>(pub C);

impl<C: ContentionManager> ContentionManager for Reversed<C> {
    ghost ahead = { λ m p q. reversed (C.ahead m.0) p q };

    ghost irreflexive = { Prim.search rules };

    ghost transitive = { Prim.search rules };

    ghost decided = { Prim.search rules };

    fn precedes(&self, one: Priority, other: Priority) -> bool {
        self.0.precedes(other, one)
    }
}
