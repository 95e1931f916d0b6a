// A hardware transaction by its meaning, on words that nobody else uses meanwhile.
ghost use Rattle.std.specs.Prelude.{◌≡◌, length};
ghost use Rattle.meaning.specs.Perform.{admitted, performed};
ghost use Rattle.meaning.specs.Store.{nth};

use crate::check::{MAX_ACCESSES, check_accesses, is_bad_count, is_wrong_access_count};
use crate::undo::run_saving;
use decline::Decline;
use stock::access::Access;
use stock::value::Stock;

// The checks that a transaction with these numbers of words, answers and saved values must pass.
fn admit<V>(
    words: usize,
    accesses: &[Access<V>],
    answers: usize,
    saved: usize,
) -> Result<(), Decline>
    ensures { result ≡ admitted words accesses.now answers saved }
{
    if is_bad_count(words) || saved != MAX_ACCESSES {
        return Err(Decline::WrongLength);
    }
    if is_wrong_access_count(accesses.len(), answers) {
        return Err(Decline::WrongAccessCount);
    }
    check_accesses(accesses, words)
}

// `saved` is work space of 64 values, a place for each access that there can be.
// The slices are parameters and no struct: each clause would name them through it, and say no more.
#[tactic(auto, using(crate::proofs::Admitted::admitted_ready, crate::proofs::Writes::writes_few, crate::proofs::Passed::ready_few))]
pub fn perform<V: Stock + Copy>(
    words: &mut [V],
    accesses: &[Access<V>],
    answers: &mut [V],
    saved: &mut [V],
) -> Result<(), Decline>
    ensures outcome { result ≡ (performed V.arithmetic accesses.now (length words.old) (nth words.old) answers.old (length saved.old)).outcome }
    ensures words { nth words.new ≡ (performed V.arithmetic accesses.now (length words.old) (nth words.old) answers.old (length saved.old)).words }
    ensures answers { answers.new ≡ (performed V.arithmetic accesses.now (length words.old) (nth words.old) answers.old (length saved.old)).answers }
{
    admit(words.len(), accesses, answers.len(), saved.len())?;
    run_saving(words, accesses, answers, saved)?;
    Ok(())
}
