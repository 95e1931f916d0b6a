// The four kinds of access, by number as the formats have them.
ghost use Rattle.std.specs.Prelude.{◌≡◌, Some};
ghost use Rattle.stock.specs.Kind.{kind_number, Decodes, unknown_kind_text, writes};

use std::error::Error;
use std::fmt;

#[derive(Clone, Copy, PartialEq, Eq)]
pub enum AccessKind {
    Look,
    Put,
    Draw,
    Stow,
}

// A number that is no kind's.
#[derive(Clone, Copy, Debug, PartialEq, Eq)]
pub struct UnknownKind(pub u8);

impl AccessKind {
    pub fn is_writing(self) -> bool
        ensures { result ≡ writes self }
    {
        match self {
            AccessKind::Look => false,
            AccessKind::Put | AccessKind::Draw | AccessKind::Stow => true,
        }
    }
}

impl From<AccessKind> for u8 {
    ghost from_gives = { λ kind number. number ≡ kind_number kind };

    fn from(kind: AccessKind) -> u8 {
        match kind {
            AccessKind::Look => 0,
            AccessKind::Put => 1,
            AccessKind::Draw => 2,
            AccessKind::Stow => 3,
        }
    }
}

impl TryFrom<u8> for AccessKind {
    type Error = UnknownKind;

    ghost try_from_gives = { Decodes };

    fn try_from(number: u8) -> Result<Self, UnknownKind> {
        match number {
            0 => Ok(AccessKind::Look),
            1 => Ok(AccessKind::Put),
            2 => Ok(AccessKind::Draw),
            3 => Ok(AccessKind::Stow),
            _ => Err(UnknownKind(number)),
        }
    }
}

impl fmt::Display for UnknownKind {
    ghost output = { λ unknown. Some (unknown_kind_text unknown) };

    fn fmt<W: fmt::Write>(&self, f: &mut fmt::Formatter<W>) -> fmt::Result {
        write!(f, "no kind of access has the number {}", self.0)
    }
}

impl Error for UnknownKind {}
