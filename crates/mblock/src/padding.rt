//! The orders that keep every instruction in place.

ghost use Rattle.std.specs.Prelude.{◌≡◌, ◌≤◌, ◌++◌, length, map, OnOk, IfOk, Some, None, if◌then◌else◌};
ghost use Rattle.mips_isa.specs.Actions.{nop};
ghost use Rattle.mblock.specs.Slots.{is_slotted};
ghost use Rattle.mblock.specs.declared.limits.TheConstants.{BLOCK_INSTS};
ghost use Rattle.mblock.specs.Orders.{AreOrders};
ghost use Rattle.mblock.specs.PlainOrders.{padded_inst, plain_order_of};

use crate::block::Block;
use crate::exit::Exit;
use crate::order::Order;
use crate::unit::Unit;
use mips_isa::Plain;
use std::alloc::{AllocError, Global};

/// Pushes an instruction, and the Nops that have to stand after it.
fn push_padded(insts: &mut Vec<Plain>, inst: &Plain) -> Result<(), AllocError>
    ensures { OnOk result (insts.new.items ≡ insts.old.items ++ padded_inst inst.now) }
{
    insts.push(*inst)?;
    let action = inst.action();
    if action.is_load() {
        insts.push(Plain::nop())?;
    } else if action.is_move() {
        insts.push(Plain::nop())?;
        insts.push(Plain::nop())?;
    }
    Ok(())
}

/// Returns a Nop where the exit has a slot.
fn plain_slot(exit: &Exit) -> Option<Plain>
    ensures { result ≡ (if is_slotted exit.now then Some nop else None) }
{
    if exit.has_slot() {
        Some(Plain::nop())
    } else {
        None
    }
}

/// Returns the plain order of a block: its instructions in place, and a Nop in the slot. A Nop stands after each load, and two after each
/// move from HI or LO. It is clean and means the block (`each_plain_order_means_its_block`).
pub fn plain(alloc: Global, block: &Block) -> Result<Order, AllocError>
    ensures order { IfOk result (λ o. o ≡ plain_order_of block.now) }
    ensures limit { length block.now.insts ≤ BLOCK_INSTS }
{
    // room for a Nop after every second instruction: few blocks have more of them
    let count = block.insts().len();
    let mut insts = Vec::with_capacity(alloc, count + count / 2 + 1)?;
    for inst in block.insts() {
        push_padded(&mut insts, inst)?;
    }
    let exit = block.exit();
    let slot = plain_slot(&exit);
    Ok(Order::of(insts, exit, slot))
}

/// Returns the plain orders of a unit's blocks, which are orders of them.
pub fn plain_orders(alloc: Global, unit: &Unit) -> Result<Vec<Order>, AllocError>
    ensures plain { IfOk result (λ os. os.items ≡ map plain_order_of unit.now.blocks) }
    ensures orders { IfOk result (λ os. AreOrders unit.now.blocks os.items) }
{
    let mut orders = Vec::with_capacity(alloc, unit.blocks().len())?;
    for block in unit.blocks() {
        orders.push(plain(alloc, block)?)?;
    }
    Ok(orders)
}
