//! Blocks: at most 512 instructions, and an exit.
ghost use Rattle.std.specs.Prelude.{◌≡◌, ◌≤◌, length};
ghost use Rattle.std.specs.Option.{SomeIff};

use crate::exit::Exit;
use crate::limits::BLOCK_INSTS;
use mips_isa::Plain;
use std::marker::Model;

/// A basic block: at most 512 instructions, and an exit.
#[derive(Drop)]
pub struct Block {
    insts: Vec<Plain>,
    exit: Exit,
}

impl Model for Block {
    ghost use Rattle.std.specs.Prelude.{◌≤◌, length};
    ghost use Rattle.mblock.specs.Parts.{BlockParts};
    ghost use Rattle.mblock.specs.declared.limits.TheConstants.{BLOCK_INSTS};

    ghost Value = { BlockParts };

    ghost view = { λ b. record { insts = b.insts.items; exit = b.exit } };

    ghost invariant = { λ b. length b.insts.items ≤ BLOCK_INSTS };
}

impl Block {
    /// Returns a block of these parts, if there are at most 512 instructions.
    pub fn new(insts: Vec<Plain>, exit: Exit) -> Option<Block>
        ensures { SomeIff result (length insts.items ≤ BLOCK_INSTS) (record { insts = insts.items; exit = exit }) }
    {
        if insts.len() <= BLOCK_INSTS {
            Some(Block { insts, exit })
        } else {
            None
        }
    }

    /// Returns the instructions, in the order of the source.
    pub fn insts(&self) -> &[Plain]
        ensures value { result.now ≡ self.now.insts }
        ensures limit { length self.now.insts ≤ BLOCK_INSTS }
    {
        self.insts.as_slice()
    }

    /// Returns how it is left.
    pub fn exit(&self) -> Exit
        ensures { result ≡ self.now.exit }
    {
        self.exit
    }
}
