// The path that sets new values aside in the work values and copies them to their words at the end.
ghost use Rattle.std.specs.Prelude.{◌≡◌, ◌<◌, ◌≤◌, length, MatchResult, nat_le};
ghost use Rattle.arrayvec.specs.ArrayVec.{array_vec_len};
ghost use Rattle.hardware.specs.Path.{shapes};
ghost use Rattle.hardware.specs.Limits.{written_words};
ghost use Rattle.hardware.specs.Overlay.{with_word};
ghost use Rattle.hardware.specs.Folding.{words_fit};

use crate::overlay::step_aside;
use crate::path::HardwarePath;
use arrayvec::{ArrayVec, CapacityError};
use meaning::check::is_writing;
use meaning::log::Log;
use stock::access::Access;
use stock::fault::AccessFault;
use stock::value::Stock;

pub const MAX_WRITTEN: usize = 16;

// Notes the word of a writing access, if it is new; an error where there is no room for it.
fn note_word<V>(
    places: &mut ArrayVec<u32, MAX_WRITTEN>,
    access: &Access<V>,
) -> Result<(), CapacityError<u32>>
    ensures cases { MatchResult result (λ _. places.new.items ≡ with_word places.old.items access.now) (λ _. 16 < length (with_word places.old.items access.now)) }
    ensures fits { array_vec_len places.old ≤ 16 → array_vec_len places.new ≤ 16 }
{
    if is_writing(access) && !places.contains(&access.word) {
        places.try_push(access.word)?;
    }
    Ok(())
}

// At most 16 different words are written.
#[tactic(auto, using(crate::proofs::Listed::listed_next, crate::proofs::Listed::too_many, crate::proofs::Listed::few_enough))]
fn writes_few_words<V>(accesses: &[Access<V>]) -> bool
    ensures { result ≡ nat_le (length (written_words (shapes accesses.now))) 16 }
{
    let mut places = ArrayVec::<u32, MAX_WRITTEN>::new();
    for access in accesses {
        if note_word(&mut places, access).is_err() {
            return false;
        }
    }
    true
}

#[derive(Clone, Copy)]
pub struct RedoLog;

impl HardwarePath for RedoLog {
    ghost holds = { λ _ s. nat_le (length (written_words s)) 16 };

    ghost short = { λ p s h k. words_fit s h };

    fn fits<V>(&self, accesses: &[Access<V>]) -> bool {
        writes_few_words(accesses)
    }

    #[tactic(auto, using(crate::proofs::Listed::listed_few, crate::proofs::Listed::listed_inside, crate::proofs::Listed::listed_next, crate::proofs::Listed::listed_room, meaning::proofs::Passed::ready_word, meaning::proofs::Passed::ready_places, meaning::proofs::Laying::length_laid, meaning::proofs::Course::goes_on))]
    fn run_fitting<V: Stock + Copy>(
        &self,
        words: &mut [V],
        accesses: &[Access<V>],
        answers: &mut [V],
        work: &mut [V],
    ) -> Result<(), AccessFault> {
        let mut log = Log::<V, MAX_WRITTEN>::new(work);
        for (i, access) in accesses.iter().enumerate() {
            step_aside(words, *access, i, answers, &mut log)?;
        }
        log.copy_out(words);
        Ok(())
    }
}
