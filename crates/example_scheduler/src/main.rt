//! A scheduler of one's own: it moves loads up, and asks for nothing else. Each order that it proposes is checked against its
//! block; where one doesn't mean its block, the block stays in its own order.
//!
//! `LoadsFirst` (`loads_first.rt`) is the scheduler. `main` has it put the blocks of a small function in order by
//! `schedule_one`, and prints what became of each.
#![tactic(auto)]

mod loads_first;

use crate::loads_first::LoadsFirst;
use block_text::{exit_of, plain_of};
use list_scheduler::Reorder;
use mblock::{Block, BlockNumber, Order, Unit};
use sched_phase::{PhaseOpts, schedule_one};
use std::alloc::{AllocError, Global};
use std::io;

const BLOCKS: [&[&str]; 4] = [
    // The second load moves after the first one.
    &[
        "lw $8,0($4)",
        "addu $9,$8,$8",
        "lw $10,4($4)",
        "addu $11,$9,$10",
        "goto 1",
    ],
    // The load moves before a store, over the same base to another word.
    &["sw $11,8($4)", "lw $8,12($4)", "addiu $8,$8,1", "goto 2"],
    // The store may be to the word that is loaded.
    &["sw $8,0($5)", "lw $9,0($4)", "addu $2,$9,$9", "goto 3"],
    // The return reads the register that the word before it loads.
    &["addiu $29,$29,8", "lw $31,-4($29)", "return"],
];

/// Returns the block of these lines, the last of which is its exit.
fn block_of(alloc: Global, lines: &[&str]) -> Result<Option<Block>, AllocError> {
    let mut insts = Vec::new(alloc);
    for line in lines {
        match (plain_of(line.as_bytes()), exit_of(line.as_bytes())) {
            (Some(inst), _) => insts.push(inst)?,
            (None, Some(exit)) => return Ok(Block::new(insts, exit)),
            (None, None) => return Ok(None),
        }
    }
    Ok(None)
}

/// Returns one function of these blocks.
fn unit_of(alloc: Global) -> Result<Option<Unit>, AllocError> {
    let mut blocks = Vec::new(alloc);
    let mut owner = Vec::new(alloc);
    for lines in BLOCKS {
        if let (Some(block), Some(first)) = (block_of(alloc, lines)?, BlockNumber::new(0)) {
            blocks.push(block)?;
            owner.push(first)?;
        }
    }
    Ok(Unit::new(blocks, owner, Vec::new(alloc)))
}

/// Prints what became of the order that was proposed for a block, and the order that the block has.
fn show(rt: &impl Print, alloc: Global, block: &Block, order: &Order) -> io::Result<()> {
    let proposed = LoadsFirst.reorder(alloc, block)?;
    let what = if order.insts() == proposed.insts() {
        "accepted"
    } else {
        "refused"
    };
    println!(rt; "{what}:")?;
    for inst in order.insts() {
        println!(rt; "    {inst}")?;
    }
    Ok(())
}

fn main(rt: HostRuntime) -> io::Result<()> {
    let alloc = rt.alloc();
    let (Some(unit), Some(options)) = (unit_of(alloc)?, PhaseOpts::new(1, 1024, 16)) else {
        return println!(rt; "there is no unit");
    };
    let scheduled = schedule_one(alloc, &unit, options, &LoadsFirst)?;
    for (block, order) in unit.blocks().iter().zip(scheduled.orders()) {
        show(&rt, alloc, block, order)?;
    }
    println!(rt; "{}", scheduled.report())
}
