//! How blocks are left.
ghost use Rattle.std.specs.Prelude.{◌≡◌};
ghost use Rattle.mblock.specs.OrderMeaning.{exit_touches};
ghost use Rattle.mblock.specs.Slots.{is_slotted};

use crate::number::BlockNumber;
use mips_isa::{PairTest, Reg, ZeroTest};

/// How a block is left. A branch goes to `then` where its condition holds, else to `other`.
#[derive(Clone, Copy, PartialEq, Eq)]
pub enum Exit {
    /// To a block.
    Goto(BlockNumber),
    /// On two registers.
    BranchPair {
        test: PairTest,
        rs: Reg,
        rt: Reg,
        then: BlockNumber,
        other: BlockNumber,
    },
    /// On the sign of a register.
    BranchZero {
        test: ZeroTest,
        rs: Reg,
        then: BlockNumber,
        other: BlockNumber,
    },
    /// Puts a link into register 31 and goes to `function`; a return goes on at `next`.
    Call {
        function: BlockNumber,
        next: BlockNumber,
    },
    /// To the link in register 31.
    Return,
    /// Prints register 4 (`addiu $2,$0,1; syscall`) and goes on.
    Out(BlockNumber),
    /// Ends the run with register 4 (`addiu $2,$0,10; syscall`).
    Halt,
}

impl Exit {
    /// Reports whether a word after the exit runs before it takes effect: all but Out and Halt.
    pub fn has_slot(&self) -> bool
        ensures { result ≡ is_slotted self.now }
    {
        match self {
            Exit::Out(_) => false,
            Exit::Halt => false,
            _ => true,
        }
    }
    /// Reports whether the exit's first word reads or writes a register.
    pub fn touches(&self, r: Reg) -> bool
        ensures { result ≡ exit_touches self.now r }
    {
        let q = r.index();
        match *self {
            Exit::Goto(_) => false,
            Exit::BranchPair { rs, rt, .. } => rs.index() == q || rt.index() == q,
            Exit::BranchZero { rs, .. } => rs.index() == q,
            Exit::Call { .. } | Exit::Return => q == 31,
            Exit::Out(_) | Exit::Halt => q == 2 || q == 0,
        }
    }
}
