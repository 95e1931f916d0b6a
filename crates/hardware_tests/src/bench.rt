// Runs one transaction on equal words by both paths and by its meaning.
ghost use Rattle.std.specs.Prelude.{◌≤◌};

use decline::Decline;
use hardware::path::HardwarePath;
use hardware::redo::RedoLog;
use hardware::undo::UndoLog;
use meaning::check::{check_accesses, is_bad_count, is_wrong_access_count};
use meaning::perform::perform;
use stock::access::Access;
use stock::count::Count;
use stock::value::Stock;

// The checks that a path may count on, and then the path. `perform` has the like, for 64 saved values and not 32.
pub fn run_checked<P: HardwarePath, V: Stock + Copy>(
    path: &P,
    words: &mut [V],
    accesses: &[Access<V>],
    answers: &mut [V],
    work: &mut [V],
) -> Result<(), Decline> {
    if is_bad_count(words.len()) || work.len() != 32 {
        return Err(Decline::WrongLength);
    }
    if is_wrong_access_count(accesses.len(), answers.len()) {
        return Err(Decline::WrongAccessCount);
    }
    check_accesses(accesses, words.len())?;
    path.run(words, accesses, answers, work)
}

// One run: its words and answers afterwards, and how it ended.
#[derive(Clone, Copy, PartialEq, Eq)]
pub struct Run {
    pub words: [Count; 20],
    pub answers: [Count; 64],
    pub outcome: Result<(), Decline>,
}

pub fn count(number: u32) -> Count
    requires { number ≤ 999999 }
{
    Count::new(number).unwrap()
}

// The run of what is given, from words that are all 1 on answers that are all 0.
fn run_of<F: FnOnce(&mut [Count], &mut [Count]) -> Result<(), Decline> + Drop>(run: F) -> Run
    requires { F.IsAlwaysCallable run }
{
    let mut words = [count(1); 20];
    let mut answers = [count(0); 64];
    let outcome = run(&mut words, &mut answers);
    Run {
        words,
        answers,
        outcome,
    }
}

pub fn by_path<P: HardwarePath>(path: &P, accesses: &[Access<Count>]) -> Run {
    let mut work = [count(0); 32];
    run_of(|words, answers| run_checked(path, words, accesses, answers, &mut work))
}

pub fn by_meaning(accesses: &[Access<Count>]) -> Run {
    let mut saved = [count(0); 64];
    run_of(|words, answers| perform(words, accesses, answers, &mut saved))
}

// Both paths do what the meaning does.
pub fn agree(accesses: &[Access<Count>]) -> bool {
    let meant = by_meaning(accesses);
    meant == by_path(&RedoLog, accesses) && meant == by_path(&UndoLog, accesses)
}
