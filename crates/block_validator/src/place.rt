//! What two sides can differ in.
use mips_isa::NonzeroReg;

/// What the sides of a comparison can differ in, in the order in which it is compared.
#[derive(Clone, Copy, Debug, PartialEq, Eq)]
pub enum Place {
    Register(NonzeroReg),
    Hi,
    Lo,
    Memory,
    /// The exit's kind, condition, targets and operands.
    Exit,
    /// The order relies on something that the block doesn't rely on.
    Guards,
}
