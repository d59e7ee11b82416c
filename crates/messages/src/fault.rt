//! The fault of a C text, and how it prints.

ghost use Rattle.std.specs.Prelude.{Some};
ghost use Rattle.messages.specs.Texts.{source_fault_text};

use c_front::{FrontFault, FrontFaultKind};
use c_statements::{TypeFault, TypeFaultKind};
use std::error::Error;
use std::fmt;

/// A fault of a C text.
#[derive(Clone, Copy, Debug, PartialEq, Eq)]
pub enum SourceFault {
    /// The text spells no program (faults 1 to 5, and 30).
    Front(FrontFault),
    /// A declaration or a use of a name is wrong (faults 10 to 20, and 30).
    Types(TypeFault),
}

impl SourceFault {
    /// Returns where the fault lies in its text; none if memory ran out.
    pub fn offset(self) -> Option<usize> {
        match self {
            SourceFault::Front(it) => (it.kind != FrontFaultKind::NoMemory).then_some(it.at),
            SourceFault::Types(it) => (it.kind != TypeFaultKind::NoMemory).then_some(it.at),
        }
    }
}

impl fmt::Display for SourceFault {
    ghost output = { λ fault. Some (source_fault_text fault) };

    fn fmt<W: fmt::Write>(&self, f: &mut fmt::Formatter<W>) -> fmt::Result {
        match self {
            SourceFault::Front(fault) => write!(f, "{fault}"),
            SourceFault::Types(fault) => write!(f, "{fault}"),
        }
    }
}

impl Error for SourceFault {}
