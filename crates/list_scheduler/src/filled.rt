//! A scheduler whose slots are filled, and whose orders are no longer than plain ones.
ghost use Rattle.std.specs.Prelude.{◌≡◌, ◌≤◌, length};
ghost use Rattle.mblock.specs.PlainOrders.{padded_inst, plain_order_of};

use crate::reorder::Reorder;
use crate::slot::fill;
use mblock::{Block, Order, plain};
use mips_isa::Plain;
use std::alloc::{AllocError, Global};

/// What another scheduler answers, with the slot filled; the plain order, if that is shorter.
#[derive(Clone, Copy)]
pub struct FilledOrder<R>(pub R);

impl<R: Reorder> Reorder for FilledOrder<R> {
    ghost use Rattle.list_scheduler.specs.Proposals.{IsNoLonger};

    ghost proposes = { λ scheduler block order. IsNoLonger block order };

    fn reorder(&self, alloc: Global, block: &Block) -> Result<Order, AllocError> {
        let order = self.0.reorder(alloc, block)?;
        let filled = fill(alloc, block, order)?;
        if filled.insts().len() <= plain_length(block) {
            Ok(filled)
        } else {
            plain(alloc, block)
        }
    }
}

/// Returns how many instructions stand for one in a plain order.
fn padded_length(inst: &Plain) -> usize
    ensures value { result ≡ length (padded_inst inst.now) }
    ensures few { result ≤ 3 }
{
    let action = inst.action();
    if action.is_load() {
        2
    } else if action.is_move() {
        3
    } else {
        1
    }
}

/// Returns how many instructions the plain order of a block has.
fn plain_length(block: &Block) -> usize
    ensures { result ≡ length (plain_order_of block.now).insts }
{
    let mut length = 0usize;
    for inst in block.insts() {
        length += padded_length(inst);
    }
    length
}
