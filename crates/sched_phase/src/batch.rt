//! The batches in which a phase goes through a unit's blocks, the runs of blocks in them, and the sizes of their tables.
//!
//! A batch's table has room for the terms that its blocks are likely to have. No contract rests on that, since a block that finds the table
//! full is judged again over tables of its own.
ghost use Rattle.std.specs.Prelude.{◌<◌, ◌≤◌, length};
ghost use Rattle.term_table.specs.declared.limits.TheConstants.{MAX_HEADS, MAX_NODES, MAX_PASSES};

use crate::options::PhaseOpts;
use mblock::Block;
use mips_isa::Plain;
use term_table::{MAX_HEADS, MAX_PASSES};

// A batch for one worker has blocks of at most so many terms, if it has more than one: its table stays in the cache.
const BATCH_TERMS: u64 = 8_192;

// A batch for several workers has blocks of at most so many: their threads are started for each batch.
const SHARED_BATCH_TERMS: u64 = 49_152;

// The terms of a start, and some that many blocks have.
const START_TERMS: u64 = 64;

// Of the results of instructions, so many are taken to be all distinct, and of those beyond them three quarters.
const DISTINCT_RESULTS: u64 = 2_048;

// The most instructions of a short block.
const SHORT_BLOCK: usize = 64;

// A worker takes at most so many blocks at once, and no more than let each of `MAX_PASSES` workers take some.
const RUN_BLOCKS: usize = 16;

/// Returns how many memories these instructions may need: a load may need the one after each store before it.
fn memories_of(insts: &[Plain]) -> u64 {
    let mut memories: u64 = 0;
    let mut stores: u64 = 0;
    for inst in insts {
        match *inst {
            Plain::Load { .. } => memories = memories.saturating_add(stores),
            Plain::Store { .. } => stores = stores.saturating_add(1),
            _ => {}
        }
    }
    memories
}

/// How many terms blocks and orders of them are likely to have, besides those of a start: results of instructions, and memories.
#[derive(Clone, Copy)]
struct Terms {
    results: u64,
    memories: u64,
}

impl Terms {
    /// Returns those of a block. Only a long one is read, since a short one has few memories.
    fn of(block: &Block) -> Terms {
        let insts = block.insts();
        Terms {
            results: insts.len() as u64,
            memories: if insts.len() > SHORT_BLOCK {
                memories_of(insts)
            } else {
                0
            },
        }
    }

    fn plus(self, other: Terms) -> Terms {
        Terms {
            results: self.results.saturating_add(other.results),
            memories: self.memories.saturating_add(other.memories),
        }
    }

    fn all(self) -> u64 {
        self.results.saturating_add(self.memories)
    }

    /// Returns how many of these are likely to be distinct, and those of a start.
    fn distinct(self) -> u64 {
        let results = self.results - self.results.saturating_sub(DISTINCT_RESULTS) / 4;
        results
            .saturating_add(self.memories)
            .saturating_add(START_TERMS)
    }
}

/// Returns how many terms a block may have by itself: four times as many.
pub(crate) fn terms_alone(block: &Block) -> u64 {
    let insts = block.insts();
    (insts.len() as u64)
        .saturating_add(memories_of(insts))
        .saturating_mul(4)
        .saturating_add(START_TERMS)
}

/// Returns the end of the batch that begins at a block, and how many distinct terms its blocks are likely to have.
pub(crate) fn batch_from(blocks: &[Block], first: usize, workers: u64) -> (usize, u64)
    requires { first < length blocks.now }
    ensures { (first < result.0) × (result.0 ≤ length blocks.now) }
{
    let most = if workers > 1 {
        SHARED_BATCH_TERMS
    } else {
        BATCH_TERMS
    };
    let mut terms = Terms::of(&blocks[first]);
    for end in first + 1..blocks.len() {
        let more = terms.plus(Terms::of(&blocks[end]));
        if more.all() > most {
            return (end, terms.distinct());
        }
        terms = more;
    }
    (blocks.len(), terms.distinct())
}

/// Returns how many of so many blocks a worker takes at once.
pub(crate) fn run_length(blocks: usize) -> usize
    ensures { 0 < result }
{
    (blocks / MAX_PASSES as usize).max(1).min(RUN_BLOCKS)
}

/// Returns how many workers a batch of so many blocks has.
pub(crate) fn workers_for(options: PhaseOpts, blocks: usize) -> u64
    requires { 0 < blocks }
    ensures { (0 < result) × (result ≤ MAX_PASSES) }
{
    let workers = options.workers();
    let most = blocks as u64;
    if most < workers { most } else { workers }
}

/// Returns how many nodes each of so many passes has for so many terms: those of its share, and of a start.
pub(crate) fn nodes_for(options: PhaseOpts, workers: u64, terms: u64) -> u64
    requires { 0 < workers }
    ensures { (0 < result) × (result ≤ MAX_NODES) }
{
    let nodes = options.nodes();
    let share = (terms / workers).saturating_add(START_TERMS);
    if share < nodes { share } else { nodes }
}

/// Returns how many chains a table has for so many terms.
pub(crate) fn heads_for(options: PhaseOpts, terms: u64) -> u64
    ensures { (0 < result) × (result ≤ MAX_HEADS) }
{
    let heads = options.heads();
    if terms <= heads {
        return heads;
    }
    if terms > MAX_HEADS { MAX_HEADS } else { terms }
}
