//! What a run leaves, and where it goes on.
ghost use Rattle.std.specs.Prelude.{◌≡◌, map, if◌then◌else◌};
ghost use Rattle.mips_isa.specs.States.{read};
ghost use Rattle.mblock.specs.BlockMeaning.{exit_shape, exit_reads, exit_puts, departure_of};
ghost use Rattle.counterexample.specs.Views.{state_of, departure_in};

use crate::registers::Registers;
use mblock::{BlockNumber, Exit};
use mips_isa::Reg;

/// Where a run goes on, with what it prints or ends with.
#[derive(Clone, Copy, PartialEq, Eq)]
pub enum Departs {
    To(BlockNumber),
    Calls {
        function: BlockNumber,
        next: BlockNumber,
    },
    Back(u32),
    Prints {
        word: u32,
        next: BlockNumber,
    },
    Halts(u32),
}

/// What a run leaves, and where it goes on.
#[derive(Drop)]
pub struct Left {
    pub registers: Registers,
    pub goes: Departs,
}

impl Registers {
    /// Returns where an exit leads from here.
    pub fn departs(&self, exit: &Exit) -> Departs
        ensures { departure_in result ≡ departure_of (exit_shape exit.now) (map (read 0 (state_of self.now).regs) (exit_reads exit.now)) }
    {
        match *exit {
            Exit::Goto(t) => Departs::To(t),
            Exit::BranchPair {
                test,
                rs,
                rt,
                then,
                other,
            } => {
                let holds = test.passes(self.read(rs), self.read(rt));
                Departs::To(if holds { then } else { other })
            }
            Exit::BranchZero {
                test,
                rs,
                then,
                other,
            } => {
                let holds = test.passes(self.read(rs));
                Departs::To(if holds { then } else { other })
            }
            Exit::Call { function, next } => Departs::Calls { function, next },
            Exit::Return => Departs::Back(self.read(Reg::LINK)),
            Exit::Out(next) => Departs::Prints {
                word: self.read(Reg::ARGUMENT),
                next,
            },
            Exit::Halt => Departs::Halts(self.read(Reg::ARGUMENT)),
        }
    }

    /// Writes what an exit itself writes: its link, or its number of a call to the system.
    pub fn put_own(&mut self, exit: &Exit, link: u32)
        ensures state { state_of self.new ≡ record (state_of self.old) { regs = exit_puts link 1 10 (exit_shape exit.now) (state_of self.old).regs } }
        ensures filling { self.new.memory.filling ≡ self.old.memory.filling }
    {
        match *exit {
            Exit::Call { .. } => self.put(Reg::LINK, link),
            Exit::Out(_) => self.put(Reg::RESULT, 1),
            Exit::Halt => self.put(Reg::RESULT, 10),
            _ => {}
        }
    }
}
