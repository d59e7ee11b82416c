//! The scheduler.
ghost use Rattle.std.specs.Prelude.{⊤, ◌≤◌, length};

use list_scheduler::{Reorder, Resources};
use mblock::{Block, Order, plain};
use mips_isa::Plain;
use std::alloc::{AllocError, Global};

/// Moves each load up to the one before it, past all that doesn't touch its registers. It doesn't ask where stores go, nor
/// what the exit reads.
#[derive(Clone, Copy, Debug)]
pub struct LoadsFirst;

impl Reorder for LoadsFirst {
    ghost proposes = { λ scheduler block order. ⊤ };

    fn reorder(&self, alloc: Global, block: &Block) -> Result<Order, AllocError> {
        let mut insts = Vec::new(alloc);
        for inst in block.insts() {
            let place = if inst.action().is_load() {
                first_place(insts.as_slice(), inst)
            } else {
                insts.len()
            };
            insts.insert(place, *inst)?;
        }
        let exit = block.exit();
        let slot = exit.has_slot().then(Plain::nop);
        match Order::new(pad_loads(alloc, insts.as_slice())?, exit, slot) {
            Some(order) => Ok(order),
            None => plain(alloc, block),
        }
    }
}

/// Reports whether one of two instructions writes what the other reads or writes.
fn meets(first: &Plain, second: &Plain) -> bool {
    let (written, also_written) = (Resources::written_by(first), Resources::written_by(second));
    written.meets(Resources::read_by(second).union(also_written))
        || also_written.meets(Resources::read_by(first))
}

/// Returns the first place to which a load may move: after another load, or what touches its registers.
fn first_place(insts: &[Plain], load: &Plain) -> usize
    ensures { result ≤ length insts.now }
{
    match insts
        .iter()
        .rposition(|inst| inst.action().is_load() || meets(inst, load))
    {
        Some(last) => last + 1,
        None => 0,
    }
}

/// Puts a Nop after each load whose register the next instruction touches.
fn pad_loads(alloc: Global, insts: &[Plain]) -> Result<Vec<Plain>, AllocError> {
    let mut all: Vec<Plain> = Vec::with_capacity(alloc, insts.len())?;
    for inst in insts {
        if let Some(last) = all.last() {
            if last.action().is_load() && meets(last, inst) {
                all.push(Plain::nop())?;
            }
        }
        all.push(*inst)?;
    }
    Ok(all)
}
