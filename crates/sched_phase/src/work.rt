//! The work on blocks: for each an order is proposed and checked.
ghost use Rattle.sched_phase.specs.Phases.{Fits};
ghost use Rattle.sched_phase.specs.Settling.{AreRightFrom, ServesTerms};

use crate::batch::terms_alone;
use crate::options::PhaseOpts;
use crate::terms::{BatchTerms, open_table};
use block_validator::{Verdict, validate, validate_from};
use list_scheduler::Reorder;
use mblock::{Block, Unit};
use std::alloc::Global;
use steal_pool::{Gate, Job};
use term_table::{MAX_NODES, Pass};

/// Who proposes orders, and the terms over which they are judged.
#[derive(Drop)]
pub(crate) struct Judge<'t, R> {
    pub(crate) alloc: Global,
    pub(crate) options: PhaseOpts,
    pub(crate) terms: &'t BatchTerms,
    pub(crate) reorder: &'t R,
}

/// A batch: the blocks of a unit from `first` to before `end`, which workers take in runs of `length`. It has who
/// judges their orders, and who is told of each block.
#[derive(Drop)]
pub(crate) struct BlockJob<'a, 'j, 't, R, G> {
    pub(crate) judge: Judge<'j, R>,
    pub(crate) unit: &'a Unit,
    pub(crate) first: usize,
    pub(crate) end: usize,
    pub(crate) length: usize,
    pub(crate) gate: &'t G,
}

/// The number of the first block of a run, and the verdicts of its blocks in order. The last blocks have none if memory was refused.
pub(crate) type RunVerdicts<'a> = (usize, Vec<Verdict<'a>>);

impl<'a, 'j, 't, R: Reorder + Sync, G: Gate + Sync> Job for BlockJob<'a, 'j, 't, R, G> {
    type Out = RunVerdicts<'a>;

    ghost right = { λ job i run. AreRightFrom (R.proposes job.judge.reorder.now) job.unit.now.blocks run.0 run.1.items };

    ghost suits = { λ job pass. ServesTerms job.judge.terms.now pass };

    fn work(&self, i: usize, pass: &mut Pass) -> RunVerdicts<'a> {
        let start = i.saturating_mul(self.length).saturating_add(self.first);
        let end = start.saturating_add(self.length).min(self.end);
        let blocks = self.unit.blocks();
        let mut verdicts = Vec::new(self.judge.alloc);
        // room for all, if it may be had at once
        let _ = verdicts.reserve(self.length);
        for number in start..end {
            if number >= blocks.len() || verdicts.reserve(1).is_err() {
                break;
            }
            self.gate.enter(number);
            verdicts.push_reserved(self.judge.last_verdict(pass, &blocks[number]));
        }
        (start, verdicts)
    }
}

impl<'t, R: Reorder> Judge<'t, R> {
    /// Returns the verdict on the order that is proposed for a block. If the table is full, the verdict over a table of the block's own.
    /// First it has room for the terms that the block may have, then all the nodes of the options.
    pub(crate) fn last_verdict<'a>(&self, pass: &mut Pass, block: &'a Block) -> Verdict<'a>
        requires { ServesTerms self.now.terms.now pass.old }
        ensures fits { Fits (R.proposes self.now.reorder.now) block.now result }
        ensures pass { ServesTerms self.now.terms.now pass.new }
    {
        match self.proposal_verdict(pass, block) {
            Verdict::Full => self.verdict_apart(block),
            verdict => verdict,
        }
    }

    /// Returns the verdict over tables of the block's own.
    fn verdict_apart<'a>(&self, block: &'a Block) -> Verdict<'a>
        ensures { Fits (R.proposes self.now.reorder.now) block.now result }
    {
        match self.verdict_alone(terms_alone(block), block) {
            Verdict::Full => self.verdict_alone(MAX_NODES, block),
            verdict => verdict,
        }
    }

    /// Returns the verdict over a table for this block alone and so many terms.
    fn verdict_alone<'a>(&self, terms: u64, block: &'a Block) -> Verdict<'a>
        ensures { Fits (R.proposes self.now.reorder.now) block.now result }
    {
        let Ok((table, mut passes)) = open_table(self.alloc, 1, self.options, terms) else {
            return Verdict::NoMemory;
        };
        let Some(mut pass) = passes.pop() else {
            unreachable!()
        };
        let terms = BatchTerms { table, start: None };
        let judge = Judge {
            alloc: self.alloc,
            options: self.options,
            terms: &terms,
            reorder: self.reorder,
        };
        judge.proposal_verdict(&mut pass, block)
    }

    /// Returns the verdict on the order that is proposed for a block; NoMemory where none is.
    fn proposal_verdict<'a>(&self, pass: &mut Pass, block: &'a Block) -> Verdict<'a>
        requires { ServesTerms self.now.terms.now pass.old }
        ensures fits { Fits (R.proposes self.now.reorder.now) block.now result }
        ensures pass { ServesTerms self.now.terms.now pass.new }
    {
        let Ok(order) = self.reorder.reorder(self.alloc, block) else {
            return Verdict::NoMemory;
        };
        let terms = self.terms;
        match &terms.start {
            Some(start) => validate_from(self.alloc, &terms.table, pass, start, block, order),
            None => validate(self.alloc, &terms.table, pass, block, order),
        }
    }
}
