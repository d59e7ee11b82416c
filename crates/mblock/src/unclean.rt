//! The delay rules by name, as they print.
ghost use Rattle.std.specs.Prelude.{Some};
ghost use Rattle.mblock.specs.Texts.{unclean_text};

use std::fmt;

/// The delay rule that an order breaks: as it prints, U1 to U4 in this order.
#[derive(Clone, Copy, Debug, PartialEq, Eq)]
pub enum Unclean {
    /// An instruction reads or writes the register that the instruction just before it loads.
    LoadUse,
    /// Fewer than two words stand between an MFHI or MFLO and a MULT, MULTU, DIV or DIVU after it.
    ProductAfterMove,
    /// A load, MFHI or MFLO is in the slot.
    SlotLoadOrMove,
    /// The last instruction loads a register that the first word of the exit reads or writes.
    ExitLoad,
}

impl fmt::Display for Unclean {
    ghost output = { λ u. Some (unclean_text u) };

    fn fmt<W: fmt::Write>(&self, f: &mut fmt::Formatter<W>) -> fmt::Result {
        f.write_str(match self {
            Unclean::LoadUse => "U1",
            Unclean::ProductAfterMove => "U2",
            Unclean::SlotLoadOrMove => "U3",
            Unclean::ExitLoad => "U4",
        })
    }
}
