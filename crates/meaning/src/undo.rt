// A transaction run on the words themselves: old values are saved in a log, and put back at a stock fault.
ghost use Rattle.std.specs.Prelude.{◌≡◌, ◌+◌, ◌<◌, ◌≤◌, true, length, All, Result};
ghost use Rattle.arrayvec.specs.ArrayVec.{array_vec_len};
ghost use Rattle.stock.specs.declared.fault.StockFault.{StockFault};
ghost use Rattle.stock.specs.Access.{writing_access};
ghost use Rattle.meaning.specs.Check.{Ready};
ghost use Rattle.meaning.specs.Laid.{HasRoom, laid};
ghost use Rattle.meaning.specs.Meaning.{meaning};
ghost use Rattle.meaning.specs.Step.{words_after};
ghost use Rattle.meaning.specs.Store.{nth};
ghost use Rattle.meaning.specs.Undo.{one, writes_in};

use crate::check::{MAX_ACCESSES, is_writing};
use crate::log::Log;
use crate::slots::load;
use crate::step::step;
use stock::access::Access;
use stock::fault::AccessFault;
use stock::value::Stock;

// Saves the word that an access writes, so that whatever it leaves there is undone.
#[tactic(auto, using(crate::proofs::Laying::saved_one))]
fn save<V: Copy>(words: &[V], access: &Access<V>, log: &mut Log<V, MAX_ACCESSES>)
    requires inside { access.now.word < length words.now }
    requires room { writing_access access.now ≡ true → HasRoom 64 log.old.places.items log.old.values.now }
    ensures count { array_vec_len log.new.places ≡ array_vec_len log.old.places + one (writing_access access.now) }
    ensures long { length log.new.values.now ≡ length log.old.values.now }
    ensures inside { All (λ place. place < length words.now) log.old.places.items → All (λ place. place < length words.now) log.new.places.items }
    ensures undoes { (r : Result V StockFault) → laid log.new.places.items log.new.values.now (words_after r access.now words.now) ≡ laid log.old.places.items log.old.values.now words.now }
{
    if is_writing(access) {
        log.push(access.word, load(words, access.word as usize));
    }
}

// The meaning of the accesses, which have passed the checks, with as many places for saved values as they write.
#[tactic(auto, using(crate::proofs::Passed::ready_word, crate::proofs::Passed::ready_few, crate::proofs::Writes::writes_few, crate::proofs::Course::ends_here, crate::proofs::Course::all_done))]
pub fn run_saving<V: Stock + Copy>(
    words: &mut [V],
    accesses: &[Access<V>],
    answers: &mut [V],
    saved: &mut [V],
) -> Result<(), AccessFault>
    requires { (Ready (length words.old) accesses.now (length answers.old)) × (writes_in accesses.now ≤ length saved.old) }
    ensures outcome { result ≡ (meaning V.arithmetic accesses.now (nth words.old) answers.old).result }
    ensures words { nth words.new ≡ (meaning V.arithmetic accesses.now (nth words.old) answers.old).words }
    ensures answers { answers.new ≡ (meaning V.arithmetic accesses.now (nth words.old) answers.old).answers }
{
    let mut log = Log::<V, MAX_ACCESSES>::new(saved);
    for (i, access) in accesses.iter().enumerate() {
        save(words, access, &mut log);
        if let Err(fault) = step(words, *access, i, answers) {
            log.copy_out(words);
            return Err(fault);
        }
    }
    Ok(())
}
