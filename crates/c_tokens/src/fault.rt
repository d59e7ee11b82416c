//! Why a text has no tokens, and how that prints.

ghost use Rattle.std.specs.Prelude.{◌≡◌, Some};
ghost use Rattle.c_tokens.specs.Messages.{fault_text, refusal_text};

use std::alloc::{AllocError, AllocFailed};
use std::error::Error;
use std::fmt;

/// Why the bytes at a place are refused: they begin no token, they are no constant, or their token goes past a size.
#[derive(Clone, Copy, PartialEq, Eq, Debug)]
pub enum Refusal {
    BadToken,
    BadConstant,
    BadSize,
}

/// Why a text has no tokens: the first refusal and its offset, or lack of memory.
#[derive(Clone, Copy, Debug)]
pub enum LexFault {
    Refused(Refusal, usize),
    NoMemory,
}

impl<T: Drop> From<AllocFailed<T>> for LexFault {
    ghost use Rattle.c_tokens.specs.declared.fault.LexFault.TheVariants.{NoMemory};

    ghost from_gives = { λ _ r. r ≡ NoMemory };

    fn from(_: AllocFailed<T>) -> Self {
        LexFault::NoMemory
    }
}

impl From<AllocError> for LexFault {
    ghost use Rattle.c_tokens.specs.declared.fault.LexFault.TheVariants.{NoMemory};

    ghost from_gives = { λ _ r. r ≡ NoMemory };

    fn from(_: AllocError) -> Self {
        LexFault::NoMemory
    }
}

impl fmt::Display for Refusal {
    ghost output = { λ refusal. Some (refusal_text refusal) };

    fn fmt<W: fmt::Write>(&self, f: &mut fmt::Formatter<W>) -> fmt::Result {
        match self {
            Refusal::BadToken => f.write_str("no token"),
            Refusal::BadConstant => f.write_str("no constant"),
            Refusal::BadSize => f.write_str("beyond a size"),
        }
    }
}

impl Error for Refusal {}

impl fmt::Display for LexFault {
    ghost output = { λ fault. Some (fault_text fault) };

    fn fmt<W: fmt::Write>(&self, f: &mut fmt::Formatter<W>) -> fmt::Result {
        match self {
            LexFault::Refused(why, at) => write!(f, "{why} at {at}"),
            LexFault::NoMemory => f.write_str("no memory"),
        }
    }
}

impl Error for LexFault {}
