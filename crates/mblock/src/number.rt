//! Numbers of blocks.
ghost use Rattle.std.specs.Prelude.{◌≡◌, ℕ, ◌<◌};
ghost use Rattle.std.specs.Option.{SomeIff};

use crate::limits::UNIT_BLOCKS;
use std::marker::Model;

/// The number of a block, below 2^20.
#[derive(Clone, Copy, PartialEq, Eq)]
pub struct BlockNumber {
    number: u32,
}

impl Model for BlockNumber {
    ghost use Rattle.std.specs.Prelude.{◌<◌, ℕ};
    ghost use Rattle.mblock.specs.declared.limits.TheConstants.{UNIT_BLOCKS};

    ghost Value = { ℕ };

    ghost view = { λ b. b.number };

    ghost invariant = { λ b. b.number < UNIT_BLOCKS };

    ghost inverse = { λ n. record { number = n } };
}

impl BlockNumber {
    /// Returns the block with this number, if it is below 2^20.
    pub fn new(number: u32) -> Option<BlockNumber>
        ensures { SomeIff result (number < UNIT_BLOCKS) number }
    {
        if (number as usize) < UNIT_BLOCKS {
            Some(BlockNumber { number })
        } else {
            None
        }
    }

    /// Returns the number, below 2^20.
    pub fn number(self) -> u32
        ensures value { result ≡ self }
        ensures range { self < UNIT_BLOCKS }
    {
        self.number
    }
}
