//! What instructions read and write.
use crate::node::Facts;
use mblock::Exit;
use mips_isa::{Plain, Reg};

/// A set of registers, HI and LO. Register 0 is in none: it reads as 0 and keeps nothing.
#[derive(Clone, Copy)]
pub struct Resources(
    // One bit for each register by its number, then HI and LO.
    u64,
);

impl Resources {
    /// No register.
    pub const NONE: Resources = Resources(0);

    /// All registers, HI and LO.
    pub const ALL: Resources = Resources(0x3_ffff_fffe);

    /// How many numbers there are: registers have theirs, HI and LO come after them.
    pub const COUNT: usize = 34;

    /// HI and LO.
    pub(crate) const PRODUCT: Resources = Resources(0x3_0000_0000);

    /// HI alone.
    pub(crate) const HIGH: Resources = Resources(0x1_0000_0000);

    /// LO alone.
    pub(crate) const LOW: Resources = Resources(0x2_0000_0000);

    /// Returns a register alone; none for register 0.
    pub fn of(r: Reg) -> Resources {
        Resources(1 << r.index()).difference(Resources(1))
    }

    /// Returns two registers alone, without register 0.
    pub(crate) fn of_both(r: Reg, s: Reg) -> Resources {
        Resources::of(r).union(Resources::of(s))
    }

    /// Returns those of either.
    pub fn union(self, other: Resources) -> Resources {
        Resources(self.0 | other.0)
    }

    /// Returns those that aren't in the other.
    pub fn difference(self, other: Resources) -> Resources {
        Resources(self.0 & !other.0)
    }

    /// Returns those in both.
    pub fn intersection(self, other: Resources) -> Resources {
        Resources(self.0 & other.0)
    }

    /// Returns the number of one of them, and the others.
    pub fn split(self) -> Option<(usize, Resources)> {
        if self.0 == 0 {
            return None;
        }
        let others = Resources(self.0 & (self.0 - 1));
        Some((self.0.trailing_zeros() as usize, others))
    }

    /// Reports whether there are none.
    pub fn is_empty(self) -> bool {
        self.0 == 0
    }

    /// Reports whether one is in both.
    pub fn meets(self, other: Resources) -> bool {
        !self.intersection(other).is_empty()
    }

    /// Returns what an instruction reads.
    pub fn read_by(inst: &Plain) -> Resources {
        Facts::of(inst).reads
    }

    /// Returns what an instruction writes.
    pub fn written_by(inst: &Plain) -> Resources {
        Facts::of(inst).writes
    }

    /// Returns what an exit reads before its slot runs.
    pub fn read_by_exit(exit: &Exit) -> Resources {
        match exit {
            Exit::Goto(_) | Exit::Call { .. } => Resources::NONE,
            Exit::BranchPair { rs, rt, .. } => Resources::of_both(*rs, *rt),
            Exit::BranchZero { rs, .. } => Resources::of(*rs),
            Exit::Return => Resources::of(Reg::LINK),
            Exit::Out(_) | Exit::Halt => Resources::of(Reg::ARGUMENT),
        }
    }

    /// Returns what the first word of an exit writes.
    pub fn written_by_exit(exit: &Exit) -> Resources {
        match exit {
            Exit::Call { .. } => Resources::of(Reg::LINK),
            Exit::Out(_) | Exit::Halt => Resources::of(Reg::RESULT),
            _ => Resources::NONE,
        }
    }

    /// Returns what the first word of an exit reads and writes. That of Out and Halt puts a number into register 2; register 4 is read a
    /// word later.
    pub fn touched_at_exit(exit: &Exit) -> Resources {
        match exit {
            Exit::Out(_) | Exit::Halt => Resources::written_by_exit(exit),
            _ => Resources::read_by_exit(exit).union(Resources::written_by_exit(exit)),
        }
    }
}
