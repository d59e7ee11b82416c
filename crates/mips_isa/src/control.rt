//! What branches, jumps and calls to the system go by.

ghost use Rattle.std.specs.Prelude.{◌≡◌};
ghost use Rattle.mips_isa.specs.Controls.{control_touches, goes_elsewhere, pair_passes, zero_passes};

use crate::inst::{Control, JumpOp, PairTest, ZeroTest};
use crate::reg::Reg;

impl PairTest {
    /// Reports whether two words pass the test.
    pub fn passes(self, a: u32, b: u32) -> bool
        ensures { result ≡ pair_passes self a b }
    {
        match self {
            PairTest::Equal => a == b,
            PairTest::NotEqual => a != b,
        }
    }
}

impl ZeroTest {
    /// Reports whether a word passes the test.
    pub fn passes(self, a: u32) -> bool
        ensures { result ≡ zero_passes self a }
    {
        let negative = a >= 0x8000_0000;
        match self {
            ZeroTest::AtMostZero => a == 0 || negative,
            ZeroTest::AboveZero => !(a == 0 || negative),
            ZeroTest::BelowZero => negative,
            ZeroTest::AtLeastZero => !negative,
        }
    }
}

impl Control {
    /// Reports whether it reads or writes the register.
    pub fn touches(&self, r: Reg) -> bool
        ensures { result ≡ control_touches self.now r }
    {
        match *self {
            Control::BranchPair {
                test: _,
                rs,
                rt,
                offset: _,
            } => rs.index() == r.index() || rt.index() == r.index(),
            Control::BranchZero {
                test: _,
                rs,
                offset: _,
            } => rs.index() == r.index(),
            Control::JumpTo { op, target: _ } => match op {
                JumpOp::Jump => false,
                JumpOp::JumpAndLink => r.index() == 31,
            },
            Control::JumpRegister { rs } => rs.index() == r.index(),
            Control::SystemCall => r.index() == 2 || r.index() == 4,
        }
    }

    /// Reports whether it is a branch or a jump, and so has a slot.
    pub fn goes_elsewhere(&self) -> bool
        ensures { result ≡ goes_elsewhere self.now }
    {
        !matches!(self, Control::SystemCall)
    }
}
