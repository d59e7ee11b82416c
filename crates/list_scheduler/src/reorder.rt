//! Who proposes orders.
ghost use Rattle.std.specs.Prelude.{IfOk};
ghost use Rattle.mblock.specs.Parts.{BlockParts, OrderParts};

use mblock::{Block, Order};
use std::alloc::{AllocError, Global};

/// A scheduler: it proposes an order for each block. Threads share it.
pub trait Reorder {
    /// The orders that it may answer for a block.
    ghost proposes: { Self → BlockParts → OrderParts → Type 0 };

    /// Returns an order for the block; an Err means out of memory.
    fn reorder(&self, alloc: Global, block: &Block) -> Result<Order, AllocError>
        ensures { IfOk result (λ o. proposes self.now block.now o) };
}
