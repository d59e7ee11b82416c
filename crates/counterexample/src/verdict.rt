//! Whether a start refutes that an order means its block.
ghost use Rattle.std.specs.Prelude.{IfOk, IfSome, IfNone};
ghost use Rattle.mblock.specs.Orders.{Means};
ghost use Rattle.counterexample.specs.Views.{start_of};
ghost use Rattle.counterexample.specs.Refuting.{Agrees, Refutes, RefutedOrdersDoNotMeanTheirBlocks, NoRefutingStateAgrees};

use crate::block::run_block;
use crate::difference::{Difference, difference_of};
use crate::flow::run_order;
use crate::start::{Start, has_words};
use mblock::{Block, Order};
use std::alloc::{AllocError, Global};

/// Reports whether this start and link refute that the order means the block, and by what. From there the block isn't stuck, and the order
/// is stuck or leaves another register, HI, LO, byte of memory or exit. None if the block is stuck from there or the order does what the
/// block does. `Err` only if memory runs out.
pub fn refute(
    alloc: Global,
    block: &Block,
    order: &Order,
    start: &Start,
    link: u32,
) -> Result<Option<Difference>, AllocError>
    ensures refutes { IfOk result (λ r. IfSome r (λ d. Refutes block.now order.now (start_of start.now) link d)) }
    ensures agrees { IfOk result (λ r. IfNone r (Agrees block.now order.now (start_of start.now) link)) }
    ensures means { IfOk result (λ r. IfSome r (λ d. Means block.now order.now → ⊥)) }
{
    has_words(start);
    let Some(left) = run_block(alloc, block, start, link)? else {
        return Ok(None);
    };
    match run_order(alloc, order, start, link)? {
        None => Ok(Some(Difference::Stuck)),
        Some(ordered) => Ok(difference_of(&left, &ordered)),
    }
}

/// States that an order that some state refutes doesn't mean its block. A law: it computes nothing.
pub fn refuted_orders_do_not_mean_their_blocks()
    ensures { RefutedOrdersDoNotMeanTheirBlocks }
{}

/// States that from a state that refutes an order, the order does otherwise than the block. A law: it computes nothing.
pub fn no_refuting_state_agrees()
    ensures { NoRefutingStateAgrees }
{}
