// Ownership records: who owns the words that map to one of them.
ghost use Rattle.std.specs.Prelude.{◌≡◌, ◌++◌, None, Some, MatchResult, codes, decimal};
ghost use Rattle.policy.specs.Orec.{mode_number, new_record, readers_fit, well_formed};
ghost use Rattle.policy.specs.Packing.{mode_of};

use std::error::Error;
use std::fmt;

#[derive(Clone, Copy, Debug, Default, PartialEq, Eq)]
pub enum Mode {
    #[default]
    Free,
    Read,
    Write,
}

// A number that no mode has. `stock` has the like for kinds of access: neither crate knows the other.
#[derive(Clone, Copy, Debug, PartialEq, Eq)]
pub struct UnknownMode(pub u8);

impl From<Mode> for u8 {
    ghost from_gives = { λ mode number. number ≡ mode_number mode };

    fn from(mode: Mode) -> u8 {
        match mode {
            Mode::Free => 0,
            Mode::Read => 1,
            Mode::Write => 2,
        }
    }
}

impl TryFrom<u8> for Mode {
    type Error = UnknownMode;

    ghost try_from_gives = { λ number outcome. MatchResult outcome
        (λ mode. mode_of number ≡ Some mode)
        (λ unknown. (mode_of number ≡ None) × (unknown.0 ≡ number)) };

    fn try_from(number: u8) -> Result<Self, UnknownMode> {
        match number {
            0 => Ok(Mode::Free),
            1 => Ok(Mode::Read),
            2 => Ok(Mode::Write),
            _ => Err(UnknownMode(number)),
        }
    }
}

impl fmt::Display for UnknownMode {
    ghost output = { λ unknown. Some (codes "no mode has the number " ++ decimal unknown.0) };

    fn fmt<W: fmt::Write>(&self, f: &mut fmt::Formatter<W>) -> fmt::Result {
        write!(f, "no mode has the number {}", self.0)
    }
}

impl Error for UnknownMode {}

pub const MOST_READERS: u8 = 16;

pub const LAST_THREAD: u8 = 15;

pub const LAST_VERSION: u32 = 1_000_000;

// No invariant says that it is well formed: `pack` promises the number of any record, and would promise less.
#[derive(Clone, Copy, Debug, Default, PartialEq, Eq)]
pub struct OwnershipRecord {
    pub mode: Mode,
    pub readers: u8,
    pub thread: u8,
    pub version: u32,
}

impl OwnershipRecord {
    // The record of a new memory: nobody owns anything.
    pub fn new() -> OwnershipRecord
        ensures { result ≡ new_record }
    {
        OwnershipRecord::default()
    }

    pub fn is_well_formed(&self) -> bool
        ensures { result ≡ well_formed self.now }
    {
        readers_fit(self.mode, self.readers)
            && self.thread <= LAST_THREAD
            && self.version <= LAST_VERSION
    }
}

fn readers_fit(mode: Mode, readers: u8) -> bool
    ensures { result ≡ readers_fit mode readers }
{
    match mode {
        Mode::Free | Mode::Write => readers == 0,
        Mode::Read => (1..=MOST_READERS).contains(&readers),
    }
}
