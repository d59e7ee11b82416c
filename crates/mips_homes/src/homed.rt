//! Homes of pseudo-registers, frames, and a program with a frame for each function.
use mips_isa::NonzeroReg;
use rtl::Rtl;

/// Where a pseudo-register lives.
#[derive(Clone, Copy, Debug, PartialEq, Eq)]
pub enum Home {
    /// A register: 16 to 23, or one that doesn't outlive a block, 4 to 15 or 24 to 27.
    Reg(NonzeroReg),
    /// A slot of the frame, from 0 on.
    Slot(u32),
    /// A slot of which a register holds a copy, in a function without calls.
    Copied(NonzeroReg, u32),
}

/// The homes of a function, the registers that it saves, and how many slots its frame has.
#[derive(Drop)]
pub struct Frame {
    pub homes: Vec<Home>,
    pub saved: Vec<u8>,
    pub slots: u32,
}

/// A program, and a frame for each function.
#[derive(Drop)]
pub struct Homed<'a> {
    pub rtl: &'a Rtl,
    pub frames: Vec<Frame>,
}
