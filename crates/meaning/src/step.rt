// One access on the words.
ghost use Rattle.std.specs.Prelude.{◌≡◌, ◌<◌, length};
ghost use Rattle.meaning.specs.Meaning.{answer};
ghost use Rattle.meaning.specs.Step.{ended, words_after, answers_after};
ghost use Rattle.meaning.specs.Store.{nth};

use crate::answer::answer_from;
use crate::check::is_writing;
use crate::slots::{load, store};
use stock::access::Access;
use stock::fault::AccessFault;
use stock::value::Stock;

pub fn step<V: Stock + Copy>(
    words: &mut [V],
    access: Access<V>,
    place: usize,
    answers: &mut [V],
) -> Result<(), AccessFault>
    requires { (access.word < length words.old) × (place < length answers.old) }
    ensures outcome { result ≡ ended place (answer V.arithmetic (nth words.old) access) }
    ensures words { words.new ≡ words_after (answer V.arithmetic (nth words.old) access) access words.old }
    ensures answers { answers.new ≡ answers_after (answer V.arithmetic (nth words.old) access) place access answers.old }
{
    let old = load(words, access.word as usize);
    let new = answer_from(old, &access, place)?;
    if is_writing(&access) {
        store(words, access.word as usize, new);
    } else {
        store(answers, place, new);
    }
    Ok(())
}
