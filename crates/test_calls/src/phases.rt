//! Phases over a unit of three blocks.
use crate::pool::Meeting;
use image::{Counts, NO_COUNTS};
use list_scheduler::{Hostile, ListOrder, Reorder};
use mblock::{Block, BlockNumber, Exit, Unit};
use mips_isa::{Plain, Reg};
use sched_phase::{PhaseOpts, schedule_all, schedule_one};
use std::alloc::Global;
use std::sync::Wait;
use std::thread::Threads;
use steal_pool::{Gate, Open};

/// Returns, after so many instructions with terms of their own.
fn returning(alloc: Global, count: u8) -> Option<Block> {
    let mut insts = Vec::new(alloc);
    for i in 0..count {
        let inst = Plain::LoadUpper {
            rt: Reg::masked(i.wrapping_add(8)),
            imm: u16::from(i) + 1,
        };
        insts.push(inst).ok()?;
    }
    Block::new(insts, Exit::Return)
}

/// Returns a function of three blocks: the second has ten terms beside those of the start.
fn three(alloc: Global) -> Option<Unit> {
    let mut blocks = Vec::new(alloc);
    for &count in [0, 10, 0].as_slice() {
        blocks.push(returning(alloc, count)?).ok()?;
    }
    let owner = vec![in alloc; BlockNumber::new(0)?; 3].ok()?;
    Unit::new(blocks, owner, Vec::new(alloc))
}

/// How many workers a phase has, and its nodes and heads.
type Sizes = (u64, u64, u64);

/// Returns what is counted in a phase by workers; None if memory ran out.
fn counted_by_workers<T: Threads + Wait + Sync, R: Reorder + Sync, G: Gate + Sync>(
    threads: &T,
    alloc: Global,
    (workers, nodes, heads): Sizes,
    reorder: &R,
    gate: &G,
) -> Option<Counts> {
    let options = PhaseOpts::new(workers, nodes, heads)?;
    let unit = three(alloc)?;
    let scheduled = schedule_all(threads, alloc, &unit, options, reorder, gate).ok()?;
    Some(scheduled.report())
}

/// Returns the same by one worker without threads.
fn counted<R: Reorder>(
    alloc: Global,
    (workers, nodes, heads): Sizes,
    reorder: &R,
) -> Option<Counts> {
    let options = PhaseOpts::new(workers, nodes, heads)?;
    let unit = three(alloc)?;
    let scheduled = schedule_one(alloc, &unit, options, reorder).ok()?;
    Some(scheduled.report())
}

#[rattlefmt::skip]
const SAME: Counts = Counts { same: 3, ..NO_COUNTS };

#[rattlefmt::skip]
const FULL: Counts = Counts { same: 2, full: 1, ..NO_COUNTS };

#[rattlefmt::skip]
const SILENT: Counts = Counts { no_memory: 3, ..NO_COUNTS };

#[test]
fn two_workers_share_one_table(rt: HostRuntime) {
    let gate = Meeting::between(1, 2);
    let counted = counted_by_workers(&rt, rt.alloc(), (2, 40, 1), &ListOrder, &gate);
    assert!(rt; !gate.is_late() && counted == Some(SAME));
}

#[test]
fn each_block_is_counted_once(rt: HostRuntime) {
    let alloc = rt.alloc();
    assert!(rt; counted(alloc, (64, 40, 1), &ListOrder) == Some(FULL));
    assert!(rt; counted(alloc, (1, 65536, 1024), &ListOrder) == Some(SAME));
    assert!(rt; counted(alloc, (1, 65536, 1024), &Hostile::Silent) == Some(SILENT));
    let by_workers = counted_by_workers(&rt, alloc, (64, 40, 1), &Hostile::Silent, &Open);
    assert!(rt; by_workers == Some(SILENT));
}
