//! All blocks of a unit, a batch after another, each by workers that share a table, or one after another.
ghost use Rattle.std.specs.Prelude.{◌≡◌, ◌+◌, ◌<◌, ◌≤◌, All, IfOk, OnOk, length};
ghost use Rattle.image.specs.Images.{total};
ghost use Rattle.sched_phase.specs.Phases.{IsPhase};
ghost use Rattle.sched_phase.specs.Settling.{AreDone, AreRightFrom, IsRightRun, ServesTerms};

use crate::batch::{batch_from, run_length, workers_for};
use crate::options::PhaseOpts;
use crate::scheduled::Scheduled;
use crate::settle::Progress;
use crate::terms::open_terms;
use crate::work::{BlockJob, Judge, RunVerdicts};
use block_validator::Verdict;
use list_scheduler::Reorder;
use mblock::Unit;
use std::alloc::{AllocError, Global};
use std::sync::Wait;
use std::thread::Threads;
use steal_pool::{Gate, Open, run};
use term_table::Pass;

/// Gives each block of a unit an order. It is the one that the scheduler proposes, if the validator finds that it means its block, else the
/// plain one. The options' workers do so at once, over one table for each batch of blocks. The gate is told of each block's number just
/// before its work begins. A block whose scheduler or validator was refused memory is counted as that, one that no worker came to as
/// missed. An Err means out of memory.
pub fn schedule_all<'a, T: Threads + Wait + Sync, R: Reorder + Sync, G: Gate + Sync>(
    rt: &T,
    alloc: Global,
    unit: &'a Unit,
    options: PhaseOpts,
    reorder: &R,
    gate: &G,
) -> Result<Scheduled<'a>, AllocError>
    ensures unit { IfOk result (λ s. s.unit ≡ unit.now) }
    ensures phase { IfOk result (IsPhase (R.proposes reorder.now)) }
    ensures sum { IfOk result (λ s. total s.report ≡ length unit.now.blocks) }
{
    let blocks = unit.blocks();
    let mut progress = Progress::new(alloc, reorder, unit);
    'batches: while progress.orders.len() < blocks.len() {
        schedule_batch(rt, alloc, unit, options, reorder, gate, &mut progress)?;
    }
    Ok(progress.finish(reorder, unit))
}

/// Gives each block of the next batch an order, by workers.
fn schedule_batch<T: Threads + Wait + Sync, R: Reorder + Sync, G: Gate + Sync>(
    rt: &T,
    alloc: Global,
    unit: &Unit,
    options: PhaseOpts,
    reorder: &R,
    gate: &G,
    progress: &mut Progress,
) -> Result<(), AllocError>
    requires some { length progress.old.orders.items < length unit.now.blocks }
    requires done { AreDone (R.proposes reorder.now) unit.now.blocks progress.old }
    ensures more { OnOk result (length progress.old.orders.items < length progress.new.orders.items) }
    ensures within { OnOk result (length progress.new.orders.items ≤ length unit.now.blocks) }
    ensures done { OnOk result (AreDone (R.proposes reorder.now) unit.now.blocks progress.new) }
{
    let first = progress.orders.len();
    let (end, terms) = batch_from(unit.blocks(), first, options.workers());
    let count = end - first;
    let length = run_length(count);
    let (terms, passes) = open_terms(alloc, workers_for(options, count), options, terms)?;
    let judge = Judge {
        alloc,
        options,
        terms: &terms,
        reorder,
    };
    let job = BlockJob {
        judge,
        unit,
        first,
        end,
        length,
        gate,
    };
    let runs = run(rt, alloc, count.div_ceil(length), passes, &job, &Open);
    settle_batch(alloc, reorder, unit, end, runs, progress)
}

/// Gives each block before `end` an order by its verdict.
fn settle_batch<'a, R: Reorder>(
    alloc: Global,
    reorder: &R,
    unit: &Unit,
    end: usize,
    runs: Vec<Option<RunVerdicts<'a>>>,
    progress: &mut Progress,
) -> Result<(), AllocError>
    requires end { (length progress.old.orders.items ≤ end) × (end ≤ length unit.now.blocks) }
    requires right { All (IsRightRun (R.proposes reorder.now) unit.now.blocks) runs.items }
    requires done { AreDone (R.proposes reorder.now) unit.now.blocks progress.old }
    ensures more { OnOk result (length progress.new.orders.items ≡ end) }
    ensures done { OnOk result (AreDone (R.proposes reorder.now) unit.now.blocks progress.new) }
{
    for run in runs {
        let Some((start, verdicts)) = run else {
            continue;
        };
        if progress.orders.len() <= start && start < end {
            settle_missed(alloc, reorder, unit, start, progress)?;
            settle_run(alloc, reorder, unit, end, verdicts, progress)?;
        }
    }
    settle_missed(alloc, reorder, unit, end, progress)
}

/// Gives the next blocks an order by a verdict each, but none from `end` on.
fn settle_run<'a, R: Reorder>(
    alloc: Global,
    reorder: &R,
    unit: &Unit,
    end: usize,
    verdicts: Vec<Verdict<'a>>,
    progress: &mut Progress,
) -> Result<(), AllocError>
    requires end { (length progress.old.orders.items ≤ end) × (end ≤ length unit.now.blocks) }
    requires right { AreRightFrom (R.proposes reorder.now) unit.now.blocks (length progress.old.orders.items) verdicts.items }
    requires done { AreDone (R.proposes reorder.now) unit.now.blocks progress.old }
    ensures within { OnOk result (length progress.new.orders.items ≤ end) }
    ensures done { OnOk result (AreDone (R.proposes reorder.now) unit.now.blocks progress.new) }
{
    let blocks = unit.blocks();
    for verdict in verdicts {
        let next = progress.orders.len();
        if next == end {
            break;
        }
        progress.settle(alloc, reorder, unit, &blocks[next], Some(verdict))?;
    }
    Ok(())
}

/// Gives each block before `end` its plain order, as one that was missed.
fn settle_missed<R: Reorder>(
    alloc: Global,
    reorder: &R,
    unit: &Unit,
    end: usize,
    progress: &mut Progress,
) -> Result<(), AllocError>
    requires end { (length progress.old.orders.items ≤ end) × (end ≤ length unit.now.blocks) }
    requires done { AreDone (R.proposes reorder.now) unit.now.blocks progress.old }
    ensures more { OnOk result (length progress.new.orders.items ≡ end) }
    ensures done { OnOk result (AreDone (R.proposes reorder.now) unit.now.blocks progress.new) }
{
    let blocks = unit.blocks();
    for number in progress.orders.len()..end {
        progress.settle(alloc, reorder, unit, &blocks[number], None)?;
    }
    Ok(())
}

/// Returns the same by one worker without threads, whose tables have room for one: no block is missed.
pub fn schedule_one<'a, R: Reorder>(
    alloc: Global,
    unit: &'a Unit,
    options: PhaseOpts,
    reorder: &R,
) -> Result<Scheduled<'a>, AllocError>
    ensures unit { IfOk result (λ s. s.unit ≡ unit.now) }
    ensures phase { IfOk result (IsPhase (R.proposes reorder.now)) }
    ensures sum { IfOk result (λ s. total s.report ≡ length unit.now.blocks) }
    ensures asked { IfOk result (λ s. s.report.missed ≡ 0) }
{
    let blocks = unit.blocks();
    let mut progress = Progress::new(alloc, reorder, unit);
    'batches: while progress.orders.len() < blocks.len() {
        batch_by_one(alloc, unit, options, reorder, &mut progress)?;
    }
    Ok(progress.finish(reorder, unit))
}

/// Gives each block of the next batch an order, by one worker.
fn batch_by_one<R: Reorder>(
    alloc: Global,
    unit: &Unit,
    options: PhaseOpts,
    reorder: &R,
    progress: &mut Progress,
) -> Result<(), AllocError>
    requires some { length progress.old.orders.items < length unit.now.blocks }
    requires done { AreDone (R.proposes reorder.now) unit.now.blocks progress.old }
    ensures more { OnOk result (length progress.old.orders.items < length progress.new.orders.items) }
    ensures within { OnOk result (length progress.new.orders.items ≤ length unit.now.blocks) }
    ensures done { OnOk result (AreDone (R.proposes reorder.now) unit.now.blocks progress.new) }
    ensures asked { OnOk result (progress.new.report.missed ≡ progress.old.report.missed) }
{
    let first = progress.orders.len();
    let (end, terms) = batch_from(unit.blocks(), first, 1);
    let (terms, mut passes) = open_terms(alloc, 1, options, terms)?;
    let Some(mut pass) = passes.pop() else {
        unreachable!()
    };
    let judge = Judge {
        alloc,
        options,
        terms: &terms,
        reorder,
    };
    one_by_one(&judge, unit, &mut pass, end - first, progress)
}

/// Gives each of the next blocks an order, one after another.
fn one_by_one<R: Reorder>(
    judge: &Judge<'_, R>,
    unit: &Unit,
    pass: &mut Pass,
    count: usize,
    progress: &mut Progress,
) -> Result<(), AllocError>
    requires pass { ServesTerms judge.now.terms.now pass.old }
    requires room { length progress.old.orders.items + count ≤ length unit.now.blocks }
    requires done { AreDone (R.proposes judge.now.reorder.now) unit.now.blocks progress.old }
    ensures more { OnOk result (length progress.new.orders.items ≡ length progress.old.orders.items + count) }
    ensures done { OnOk result (AreDone (R.proposes judge.now.reorder.now) unit.now.blocks progress.new) }
    ensures asked { OnOk result (progress.new.report.missed ≡ progress.old.report.missed) }
{
    let first = progress.orders.len();
    let blocks = unit.blocks();
    for i in 0..count {
        let block = &blocks[first + i];
        let verdict = judge.last_verdict(pass, block);
        progress.settle(judge.alloc, judge.reorder, unit, block, Some(verdict))?;
    }
    Ok(())
}
