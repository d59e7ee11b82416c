//! Why a text is refused, and how that prints.

ghost use Rattle.std.specs.Prelude.{◌≡◌, Some};
ghost use Rattle.c_front.specs.Messages.{fault_text, kind_name, number_of};

use std::error::Error;
use std::fmt;

/// What is wrong with a text.
#[derive(Clone, Copy, PartialEq, Eq, Debug)]
pub enum FrontFaultKind {
    /// A byte that isn't 32 to 126, tab, LF or CR.
    Byte,
    /// No token begins at the offset.
    Token,
    /// The first token with which the tokens so far begin no program, or the text's length.
    Syntax,
    /// A number that is no constant.
    Constant,
    /// The text is above 1,048,576 bytes, or more than 1,024 tokens stand in a row with no `;`, `{` or `}`. Or more than 128 braces are
    /// open, or more than 512 `else` and `for` stand since no brace was open.
    Size,
    /// Memory was refused; told at the text's length.
    NoMemory,
}

impl FrontFaultKind {
    /// Returns the number that messages show.
    pub fn number(self) -> u8
        ensures { result ≡ number_of self }
    {
        self.number_and_name().0
    }

    /// Returns the number and the name that messages show.
    fn number_and_name(self) -> (u8, &'static str)
        ensures number { result.0 ≡ number_of self }
        ensures name { result.1.now ≡ kind_name self }
    {
        match self {
            FrontFaultKind::Byte => (1, "Byte"),
            FrontFaultKind::Token => (2, "Token"),
            FrontFaultKind::Syntax => (3, "Syntax"),
            FrontFaultKind::Constant => (4, "Constant"),
            FrontFaultKind::Size => (5, "Size"),
            FrontFaultKind::NoMemory => (30, "NoMemory"),
        }
    }
}

/// Why a text is refused, and at which offset.
#[derive(Clone, Copy, PartialEq, Eq, Debug)]
pub struct FrontFault {
    pub kind: FrontFaultKind,
    pub at: usize,
}

impl fmt::Display for FrontFault {
    ghost output = { λ fault. Some (fault_text fault) };

    fn fmt<W: fmt::Write>(&self, f: &mut fmt::Formatter<W>) -> fmt::Result {
        let (number, name) = self.kind.number_and_name();
        let at = self.at;
        write!(f, "fault {number} {name} at {at}")
    }
}

impl Error for FrontFault {}
