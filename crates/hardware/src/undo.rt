// The path that writes the words at once and saves what stood there, to put it back at a stock fault.
ghost use Rattle.std.specs.Prelude.{◌≡◌, nat_le};
ghost use Rattle.hardware.specs.Path.{shapes};
ghost use Rattle.hardware.specs.Limits.{write_count};
ghost use Rattle.hardware.specs.Folding.{count_fits};

use crate::path::HardwarePath;
use meaning::check::is_writing;
use meaning::undo::run_saving;
use stock::access::Access;
use stock::fault::AccessFault;
use stock::value::Stock;

// As many saved values as there are work values.
pub const MAX_WRITES: usize = 32;

#[tactic(auto, using(crate::specs::Folding::count_is))]
fn count_writes<V>(accesses: &[Access<V>]) -> usize
    ensures { result ≡ write_count (shapes accesses.now) }
{
    accesses.iter().filter(|access| is_writing(*access)).count()
}

#[derive(Clone, Copy)]
pub struct UndoLog;

impl HardwarePath for UndoLog {
    ghost holds = { λ _ s. nat_le (write_count s) 32 };

    ghost short = { λ p s h k. count_fits s h };

    fn fits<V>(&self, accesses: &[Access<V>]) -> bool {
        count_writes(accesses) <= MAX_WRITES
    }

    fn run_fitting<V: Stock + Copy>(
        &self,
        words: &mut [V],
        accesses: &[Access<V>],
        answers: &mut [V],
        work: &mut [V],
    ) -> Result<(), AccessFault> {
        run_saving(words, accesses, answers, work)
    }
}
