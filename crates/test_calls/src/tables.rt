//! What threads do with one table, how long its chains are, and the largest table.
ghost use Rattle.std.specs.Prelude.{◌<◌, All};
ghost use Rattle.term_table.specs.Passes.{IsOf};

use std::alloc::Global;
use std::process::Abort;
use std::thread;
use std::thread::Threads;
use sym_terms::Label;
use term_table::{OpenFault, Pass, TableFull, TermTable};
use words::Operator;

/// Interns a thousand constants from this one on, upward or downward.
fn intern_constants(table: &TermTable, pass: &mut Pass, from: u32, is_downward: bool)
    requires { IsOf table.now pass.old }
    ensures { IsOf table.now pass.new }
{
    for i in 0..1000u32 {
        let n = if is_downward { 999 - i } else { i };
        let _made = table.intern(pass, Label::Const(from.wrapping_add(n)), &[]);
    }
}

/// Has each pass intern a thousand constants in a thread of its own. Each begins this step after the one before, and every other one goes
/// downward.
fn intern_at_once<R: Threads + Sync>(rt: &R, table: &TermTable, passes: &mut [Pass], step: u32)
    requires { All (IsOf table.now) passes.old }
    ensures { All (IsOf table.now) passes.new }
{
    thread::for_each_mut(
        rt,
        passes,
        4,
        &|k, pass| intern_constants(table, pass, step.wrapping_mul((k % 64) as u32), k % 2 == 1),
    );
}

/// Reports whether the last two passes, which meet, find a thousand constants from this one on, each under one ticket.
fn find_constants(table: &TermTable, mut passes: Vec<Pass>, from: u32) -> bool
    requires { All (IsOf table.now) passes.items }
{
    let (Some(mut last), Some(mut other)) = (passes.pop(), passes.pop()) else {
        return false;
    };
    table.meet(&mut other, &mut last);
    let mut all = true;
    for i in 0..1000u32 {
        let one = table.find(&mut other, Label::Const(from.wrapping_add(i)), &[]);
        let same = table.find(&mut last, Label::Const(from.wrapping_add(i)), &[]);
        all = all && one.ticket.is_some() && one.ticket == same.ticket;
    }
    all
}

/// Reports whether each constant is linked once where so many threads intern, each this step after the one before, and whether the last two
/// find the last ones.
fn share(
    rt: &(impl Abort + Threads + Sync),
    alloc: Global,
    threads: u32,
    step: u32,
    heads: u64,
) -> bool {
    let (table, mut passes) = TermTable::open(alloc, u64::from(threads), 1000, heads).expect(
        rt, "a table",
    );
    intern_at_once(rt, &table, passes.as_mut_slice(), step);
    let mut linked = 0u64;
    for pass in &passes {
        linked = linked.saturating_add(pass.linked());
    }
    let from = threads.saturating_sub(1).wrapping_mul(step);
    linked == 1000 + u64::from(from) && find_constants(&table, passes, from)
}

// How many threads there are, and their step.
const THREADS: &[(u32, u32)] = &[(2, 0), (4, 250)];

#[test]
fn threads_intern_overlapping_constants(rt: HostRuntime) {
    for &(threads, step) in THREADS {
        let in_one_chain = share(&rt, rt.alloc(), threads, step, 1);
        let in_many = share(&rt, rt.alloc(), threads, step, 64);
        assert!(rt; in_one_chain && in_many, "{threads} threads");
    }
}

/// Returns how many links are loaded to intern the constants below 4096, shifted to the left.
fn constants_probes(rt: &impl Abort, alloc: Global, heads: u64, shift: u32) -> u64
    requires { shift < 32 }
{
    let (table, mut pass) = TermTable::open_one(alloc, 4096, heads).expect(rt, "a table");
    let mut sum = 0u64;
    for n in 0..4096u32 {
        let made = table
            .intern(&mut pass, Label::Const(n << shift), &[])
            .expect(rt, "room");
        sum = sum.saturating_add(made.probes);
    }
    sum
}

#[test]
fn chains_of_constants_are_short(rt: HostRuntime) {
    assert!(rt; constants_probes(&rt, rt.alloc(), 1, 0) == 8390656);
    for &shift in [0, 8, 16].as_slice() {
        let probes = constants_probes(&rt, rt.alloc(), 1024, shift);
        assert!(rt; probes <= 16384, "{shift}");
    }
}

/// Returns how many links are loaded to intern the sums of a constant and of each constant below 256, the constants' own left out.
#[tactic(auto, using(term_table::proofs::TermCallers::interning))]
fn sums_probes(table: &TermTable, pass: &mut Pass, n: u32) -> Result<u64, TableFull>
    requires { IsOf table.now pass.old }
    ensures { IsOf table.now pass.new }
{
    let left = table.intern(pass, Label::Const(n), &[])?.ticket;
    let mut sum = 0u64;
    for m in 0..256u32 {
        let right = table.intern(pass, Label::Const(m), &[])?.ticket;
        let made = table.intern(pass, Label::Op(Operator::Addu), &[left, right])?;
        sum = sum.saturating_add(made.probes);
    }
    Ok(sum)
}

/// Returns how many links are loaded to intern the sums of all pairs of the constants below 256.
fn all_sums_probes(rt: &impl Abort, alloc: Global) -> u64 {
    let (table, mut pass) = TermTable::open_one(alloc, 66000, 65536).expect(rt, "a table");
    let mut sum = 0u64;
    for n in 0..256u32 {
        sum = sum.saturating_add(sums_probes(&table, &mut pass, n).expect(rt, "room"));
    }
    sum
}

#[test]
fn chains_of_sums_are_short(rt: HostRuntime) {
    assert!(rt; all_sums_probes(&rt, rt.alloc()) <= 163840);
}

/// Reports whether 64 passes of so many nodes are opened; a large table's memory may be refused.
fn opens(alloc: Global, nodes: u64) -> bool {
    match TermTable::open(alloc, 64, nodes, 65536) {
        Ok((_, passes)) => passes.len() == 64,
        Err(fault) => fault == OpenFault::NoMemory && nodes > 4,
    }
}

#[test]
fn the_largest_table_is_opened(rt: HostRuntime) {
    assert!(rt; opens(rt.alloc(), 4) && opens(rt.alloc(), 1048576));
}
