// Why a call is declined: one enum for every layer, numbered as docs/ANSWERS.md lists them.
#![tactic(auto)]

ghost use Rattle.std.specs.Prelude.{◌≡◌, Some};
ghost use Rattle.decline.specs.declared.Decline.TheVariants.{Stock};
ghost use Rattle.decline.specs.Decline.{number_of, place_of, detail_of, name_of};

use std::error::Error;
use std::fmt;
use stock::fault::AccessFault;

#[derive(Clone, Copy, Debug, PartialEq, Eq)]
pub enum Decline {
    UnknownThread,
    WrongLength,
    WrongStatus,
    UnknownClass,
    VersionsSpent,
    WrongAccessCount,
    Aborted,
    UnknownKind(usize),
    UnknownWord(usize),
    SnapshotInvalid,
    SetFull,
    Wait(u8),
    Unfit,
    GateClosed(usize, u8),
    Stock(AccessFault),
    Malformed(usize),
}

// A stock fault declines the call whole, with its place.
impl From<AccessFault> for Decline {
    ghost from_gives = { λ f r. r ≡ Stock f };

    fn from(cause: AccessFault) -> Self {
        Decline::Stock(cause)
    }
}

// Methods, and no conversions: a decline has three numbers, and each needs its name. `Display` writes the name.
impl Decline {
    pub fn number(self) -> u8
        ensures { result ≡ number_of self }
    {
        match self {
            Decline::UnknownThread => 1,
            Decline::WrongLength => 2,
            Decline::WrongStatus => 3,
            Decline::UnknownClass => 4,
            Decline::VersionsSpent => 5,
            Decline::WrongAccessCount => 6,
            Decline::Aborted => 7,
            Decline::UnknownKind(_) => 8,
            Decline::UnknownWord(_) => 9,
            Decline::SnapshotInvalid => 10,
            Decline::SetFull => 11,
            Decline::Wait(_) => 12,
            Decline::Unfit => 13,
            Decline::GateClosed(_, _) => 14,
            Decline::Stock(_) => 15,
            Decline::Malformed(_) => 16,
        }
    }

    // The place of the access in a hardware transaction or of the word on file, else 0.
    pub fn place(self) -> usize
        ensures { result ≡ place_of self }
    {
        match self {
            Decline::UnknownKind(place) | Decline::UnknownWord(place) | Decline::Malformed(place) =>
                place,
            Decline::GateClosed(place, _) => place,
            Decline::Stock(fault) => fault.place,
            _ => 0,
        }
    }

    // The thread to wait for, the orec of a closed gate or the stock fault's number, else 0.
    pub fn detail(self) -> u8
        ensures { result ≡ detail_of self }
    {
        match self {
            Decline::Wait(thread) => thread,
            Decline::GateClosed(_, orec) => orec,
            Decline::Stock(fault) => u8::from(fault.fault),
            _ => 0,
        }
    }

    pub fn name(self) -> &'static str
        ensures { result.now ≡ name_of self }
    {
        match self {
            Decline::UnknownThread => "unknown thread",
            Decline::WrongLength => "wrong length",
            Decline::WrongStatus => "wrong status",
            Decline::UnknownClass => "unknown class",
            Decline::VersionsSpent => "versions spent",
            Decline::WrongAccessCount => "wrong access count",
            Decline::Aborted => "aborted",
            Decline::UnknownKind(_) => "unknown kind",
            Decline::UnknownWord(_) => "unknown word",
            Decline::SnapshotInvalid => "snapshot invalid",
            Decline::SetFull => "set full",
            Decline::Wait(_) => "wait",
            Decline::Unfit => "unfit",
            Decline::GateClosed(_, _) => "gate closed",
            Decline::Stock(_) => "stock fault",
            Decline::Malformed(_) => "malformed",
        }
    }
}

impl fmt::Display for Decline {
    ghost output = { λ decline. Some (name_of decline) };

    fn fmt<W: fmt::Write>(&self, f: &mut fmt::Formatter<W>) -> fmt::Result {
        f.write_str(self.name())
    }
}

impl Error for Decline {}
