//! The table of a batch, and the terms of the start in it, which are made once for all its blocks.
ghost use Rattle.std.specs.Prelude.{◌≡◌, ◌<◌, ◌≤◌, All, IfOk, Some, vec_len};
ghost use Rattle.term_table.specs.declared.limits.TheConstants.{MAX_PASSES};
ghost use Rattle.term_table.specs.Passes.{IsOf};
ghost use Rattle.sym_exec.specs.Starts.{IsStart};
ghost use Rattle.sched_phase.specs.Settling.{Knows, ServesTerms};

use crate::batch::{heads_for, nodes_for};
use crate::options::PhaseOpts;
use std::alloc::{AllocError, Global};
use sym_exec::{TermPlaces, start_places};
use term_table::{OpenFault, Pass, TermTable};

/// A table, and the terms of the start, if they fit in it.
#[derive(Drop)]
pub(crate) struct BatchTerms {
    pub(crate) table: TermTable,
    pub(crate) start: Option<TermPlaces>,
}

/// Returns a table for so many workers and so many terms, with no more nodes for each than by the options, and no fewer chains.
pub(crate) fn open_table(
    alloc: Global,
    workers: u64,
    options: PhaseOpts,
    terms: u64,
) -> Result<(TermTable, Vec<Pass>), AllocError>
    requires { (0 < workers) × (workers ≤ MAX_PASSES) }
    ensures count { IfOk result (λ t. vec_len t.1 ≡ workers) }
    ensures own { IfOk result (λ t. All (IsOf t.0) t.1.items) }
{
    let nodes = nodes_for(options, workers, terms);
    let heads = heads_for(options, terms);
    match TermTable::open(alloc, workers, nodes, heads) {
        Ok(opened) => Ok(opened),
        Err(OpenFault::NoMemory) => Err(AllocError),
        Err(OpenFault::Range) => unreachable!(),
    }
}

/// Has a pass learn the terms of the start from the first one that knows them.
fn tell_start(table: &TermTable, start: &TermPlaces, first: &mut Pass, pass: &mut Pass)
    requires first { IsOf table.now first.old }
    requires start { IsStart first.old start.now }
    requires pass { IsOf table.now pass.old }
    ensures same { first.new ≡ first.old }
    ensures table { IsOf table.now pass.new }
    ensures start { IsStart pass.new start.now }
{
    let note = table.note(first);
    table.learn(pass, note);
}

/// Returns the terms of the start, made by one pass, the first to know them, and the passes, each of which then knows them.
fn tell_starts(
    alloc: Global,
    table: &TermTable,
    mut passes: Vec<Pass>,
) -> Result<(Option<TermPlaces>, Vec<Pass>), AllocError>
    requires some { 0 < vec_len passes }
    requires own { All (IsOf table.now) passes.items }
    ensures count { IfOk result (λ t. vec_len t.1 ≡ vec_len passes) }
    ensures know { IfOk result (λ t. All (Knows table.now t.0) t.1.items) }
{
    let Some(mut first) = passes.pop() else {
        unreachable!()
    };
    let Ok(start) = start_places(table, &mut first) else {
        passes.push(first)?;
        return Ok((None, passes));
    };
    let mut told = Vec::new(alloc);
    for mut pass in passes {
        tell_start(table, &start, &mut first, &mut pass);
        told.push(pass)?;
    }
    told.push(first)?;
    Ok((Some(start), told))
}

/// Returns the terms for a batch of so many workers and so many terms, and a pass for each worker.
pub(crate) fn open_terms(
    alloc: Global,
    workers: u64,
    options: PhaseOpts,
    terms: u64,
) -> Result<(BatchTerms, Vec<Pass>), AllocError>
    requires { (0 < workers) × (workers ≤ MAX_PASSES) }
    ensures count { IfOk result (λ t. vec_len t.1 ≡ workers) }
    ensures serve { IfOk result (λ t. All (ServesTerms t.0) t.1.items) }
{
    let (table, passes) = open_table(alloc, workers, options, terms)?;
    let (start, passes) = tell_starts(alloc, &table, passes)?;
    Ok((BatchTerms { table, start }, passes))
}
