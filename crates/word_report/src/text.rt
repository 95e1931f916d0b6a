// The lines of a report.
ghost use Rattle.std.specs.Prelude.{Some};
ghost use Rattle.word_report.specs.Report.{line_of, closing_of, declined_of};

use decline::Decline;
use policy::map::{OrecMap, Remainder};
use std::fmt;

// The line of a word that is not 0.
#[derive(Clone, Copy)]
pub struct WordLine {
    pub word: u32,
    pub count: u32,
}

impl fmt::Display for WordLine {
    ghost output = { λ line. Some (line_of line.word line.count) };

    fn fmt<W: fmt::Write>(&self, f: &mut fmt::Formatter<W>) -> fmt::Result {
        let orec = Remainder.orec_of(self.word);
        writeln!(f, "{} {orec} {}", self.word, self.count)
    }
}

// The line after those of the words.
#[derive(Clone, Copy)]
pub struct ClosingLine {
    pub words: usize,
    pub filled: usize,
    pub total: u64,
}

impl fmt::Display for ClosingLine {
    ghost output = { λ line. Some (closing_of line.words line.filled line.total) };

    fn fmt<W: fmt::Write>(&self, f: &mut fmt::Formatter<W>) -> fmt::Result {
        let ClosingLine {
            words,
            filled,
            total,
        } = *self;
        writeln!(f, "{words} words, {filled} filled, {total} in all")
    }
}

// The one line of a declined file.
#[derive(Clone, Copy)]
pub struct DeclinedLine(pub Decline);

impl fmt::Display for DeclinedLine {
    ghost output = { λ line. Some (declined_of line.0) };

    fn fmt<W: fmt::Write>(&self, f: &mut fmt::Formatter<W>) -> fmt::Result {
        let DeclinedLine(decline) = *self;
        let place = decline.place();
        writeln!(f, "declined: {} {decline} at {place}", decline.number())
    }
}
