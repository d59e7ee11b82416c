//! The rules that make the machine stuck.

ghost use Rattle.std.specs.Prelude.{Some};
ghost use Rattle.mips_isa.specs.Texts.{rule_text};

use std::fmt;

/// What makes the machine stuck.
#[derive(Clone, Copy, Debug, PartialEq, Eq)]
pub enum Rule {
    /// The word after a load reads or writes the loaded register.
    M1,
    /// A product or division with fewer than two words since HI or LO was read.
    M2,
    /// A branch or jump in a delay slot.
    M3,
    /// A division without a value.
    M4,
    /// A word's address that is no multiple of 4.
    M5,
    /// An address that isn't mapped.
    M6,
    /// A fetch outside the code, or not at a multiple of 4.
    M7,
    /// A word that no instruction has.
    M8,
    /// A call to the system with another number than 1 and 10.
    M9,
}

impl fmt::Display for Rule {
    ghost output = { λ r. Some (rule_text r) };

    fn fmt<W: fmt::Write>(&self, f: &mut fmt::Formatter<W>) -> fmt::Result {
        f.write_str(match self {
            Rule::M1 => "M1",
            Rule::M2 => "M2",
            Rule::M3 => "M3",
            Rule::M4 => "M4",
            Rule::M5 => "M5",
            Rule::M6 => "M6",
            Rule::M7 => "M7",
            Rule::M8 => "M8",
            Rule::M9 => "M9",
        })
    }
}
