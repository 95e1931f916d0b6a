// The words of a file of Counts.
ghost use Rattle.std.specs.Prelude.{◌≡◌, ◌≤◌, length, Some};
ghost use Rattle.meaning.specs.declared.check.TheConstants.{MAX_WORDS};
ghost use Rattle.word_report.specs.Report.{is_filled, filled_in, total_in, words_of};

use crate::text::{ClosingLine, WordLine};
use std::fmt;
use stock::count::Count;

// No more words than a file may have, so a u32 numbers them and a u64 holds their total.
#[derive(Clone, Copy)]
pub struct Words<'a> {
    pub counts: &'a [Count],
    ghost within: { length counts.now ≤ MAX_WORDS },
}

fn is_filled(count: &Count) -> bool
    ensures { result ≡ is_filled count.now }
{
    count.value() != 0
}

impl Words<'_> {
    fn filled(&self) -> usize
        ensures { result ≡ filled_in self.now.counts.now }
    {
        self.counts.iter().filter(|count| is_filled(count)).count()
    }

    fn total(&self) -> u64
        ensures { result ≡ total_in self.now.counts.now }
    {
        self.counts
            .iter()
            .map(|count| u64::from(count.value()))
            .sum()
    }
}

impl fmt::Display for Words<'_> {
    ghost output = { λ words. Some (words_of words.counts.now) };

    fn fmt<W: fmt::Write>(&self, f: &mut fmt::Formatter<W>) -> fmt::Result {
        for (word, count) in self.counts.iter().enumerate() {
            if is_filled(count) {
                let line = WordLine {
                    // `as` is proved to lose nothing; `try_from` would give an error that cannot come.
                    word: word as u32,
                    count: count.value(),
                };
                write!(f, "{line}")?;
            }
        }
        let closing = ClosingLine {
            words: self.counts.len(),
            filled: self.filled(),
            total: self.total(),
        };
        write!(f, "{closing}")
    }
}
