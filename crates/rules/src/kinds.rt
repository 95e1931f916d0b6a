// The theorem over runs for kinds that stand today, so that nobody need take it on trust that some kinds meet the laws.
ghost use Rattle.std.specs.Prelude.{length, nat_le};
ghost use Rattle.stock.specs.Count.{count_arithmetic};
ghost use Rattle.stock.specs.Lot.{lot_arithmetic};
ghost use Rattle.policy.specs.Gates.{by_counter};
ghost use Rattle.policy.specs.Maps.{by_quotient, by_scatter};
ghost use Rattle.policy.specs.Precedence.{by_class, by_start, by_thread, reversed};
ghost use Rattle.hardware.specs.Limits.{write_count, written_words};
ghost use Rattle.rules.specs.DayPolicy.{day_policy};
ghost use Rattle.rules.specs.EveryRun.{EveryRun};
ghost use Rattle.rules.specs.Policy.{policy_of};

use crate::runs::kinds_suffice;
use hardware::redo::RedoLog;
use hardware::undo::UndoLog;
use policy::contention::{ByClass, ByStart, ByThread, Reversed};
use policy::gate::{ByCounter, ByRecord};
use policy::map::{Quotient, Remainder, Scatter};
use stock::count::Count;
use stock::lot::Lot;

// Three functions and no parameter: what they share is `kinds_suffice`, and each names kinds that stand.

// The day program's kinds.
pub fn day_runs()
    ensures { EveryRun day_policy }
{
    kinds_suffice::<Count, Remainder, ByStart, ByRecord, RedoLog>(
        &Remainder, &ByStart, &ByRecord, &RedoLog,
    );
}

pub fn lot_runs()
    ensures { EveryRun (policy_of lot_arithmetic by_scatter (by_class (reversed by_thread)) (λ mode n writing. by_counter n) (λ s. nat_le (write_count s) 32)) }
{
    kinds_suffice::<Lot, Scatter, ByClass<Reversed<ByThread>>, ByCounter, UndoLog>(
        &Scatter,
        &ByClass(Reversed(ByThread)),
        &ByCounter,
        &UndoLog,
    );
}

pub fn quotient_runs()
    ensures { EveryRun (policy_of count_arithmetic by_quotient (reversed by_start) (λ mode n writing. by_counter n) (λ s. nat_le (length (written_words s)) 16)) }
{
    kinds_suffice::<Count, Quotient, Reversed<ByStart>, ByCounter, RedoLog>(
        &Quotient,
        &Reversed(ByStart),
        &ByCounter,
        &RedoLog,
    );
}
