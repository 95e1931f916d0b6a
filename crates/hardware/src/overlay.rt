// A transaction on the words as they would be: its writes are set aside in a log.
ghost use Rattle.std.specs.Prelude.{◌≡◌, ◌<◌, ◌≤◌, true, false, List, length, OnOk, Some, slice_set, ◌==◌};
ghost use Rattle.std.specs.List.{list_any};
ghost use Rattle.stock.specs.Access.{writing_access};
ghost use Rattle.meaning.specs.Laid.{HasRoom, laid};
ghost use Rattle.meaning.specs.Meaning.{answer};
ghost use Rattle.meaning.specs.Step.{ended, words_after, answers_after};
ghost use Rattle.meaning.specs.Store.{nth};
ghost use Rattle.hardware.specs.Limits.{with_new};
ghost use Rattle.hardware.specs.Overlay.{with_word};

use crate::places::place_of;
use meaning::answer::answer_from;
use meaning::check::is_writing;
use meaning::log::Log;
use meaning::slots::{load, store};
use stock::access::Access;
use stock::fault::AccessFault;
use stock::value::Stock;

// The value of a word as it would be.
fn peek<V: Copy, const N: usize>(words: &[V], log: &Log<V, N>, word: u32) -> V
    requires { word < length words.now }
    ensures { nth (laid log.now.places.items log.now.values.now words.now) word ≡ Some result }
{
    match place_of(log.places.as_slice(), word) {
        Some(place) => load(log.values, place),
        None => load(words, word as usize),
    }
}

// Sets a word's value aside.
fn set_aside<V: Copy, const N: usize>(log: &mut Log<V, N>, word: u32, value: V)
    requires room { list_any (λ w. w == word) log.old.places.items ≡ false → HasRoom N log.old.places.items log.old.values.now }
    ensures places { log.new.places.items ≡ with_new word log.old.places.items }
    ensures long { length log.new.values.now ≡ length log.old.values.now }
    ensures words { (ws : List V) → laid log.new.places.items log.new.values.now ws ≡ slice_set (laid log.old.places.items log.old.values.now ws) word value }
{
    match place_of(log.places.as_slice(), word) {
        Some(place) => store(log.values, place, value),
        None => log.push(word, value),
    }
}

// One access on the words as they would be: it changes only what is set aside. It is `step` of `meaning`,
// but for how words are read and written: a trait over the two ways would be longer than both.
pub fn step_aside<V: Stock + Copy, const N: usize>(
    words: &[V],
    access: Access<V>,
    place: usize,
    answers: &mut [V],
    log: &mut Log<V, N>,
) -> Result<(), AccessFault>
    requires inside { (access.word < length words.now) × (place < length answers.old) }
    requires room { writing_access access ≡ true → list_any (λ w. w == access.word) log.old.places.items ≡ false → HasRoom N log.old.places.items log.old.values.now }
    ensures long { length log.new.values.now ≡ length log.old.values.now }
    ensures outcome { result ≡ ended place (answer V.arithmetic (nth (laid log.old.places.items log.old.values.now words.now)) access) }
    ensures words { laid log.new.places.items log.new.values.now words.now ≡ words_after (answer V.arithmetic (nth (laid log.old.places.items log.old.values.now words.now)) access) access (laid log.old.places.items log.old.values.now words.now) }
    ensures answers { answers.new ≡ answers_after (answer V.arithmetic (nth (laid log.old.places.items log.old.values.now words.now)) access) place access answers.old }
    ensures places { OnOk result (log.new.places.items ≡ with_word log.old.places.items access) }
{
    let old = peek(words, log, access.word);
    let new = answer_from(old, &access, place)?;
    if is_writing(&access) {
        set_aside(log, access.word, new);
    } else {
        store(answers, place, new);
    }
    Ok(())
}
