//! How many workers, nodes and heads a phase has.
ghost use Rattle.std.specs.Option.{SomeIff};
ghost use Rattle.std.specs.Prelude.{◌≡◌};
ghost use Rattle.term_table.specs.Passes.{InRange};

use std::marker::Model;
use term_table::{MAX_HEADS, MAX_NODES, MAX_PASSES};

/// How many workers a phase has, and the table that they share: nodes for each worker, and chains.
#[derive(Clone, Copy, Debug, PartialEq, Eq)]
pub struct PhaseOpts {
    workers: u64,
    nodes: u64,
    heads: u64,
}

impl Model for PhaseOpts {
    ghost use Rattle.sched_phase.specs.Options.{OptionsOf};
    ghost use Rattle.term_table.specs.Passes.{InRange};

    ghost Value = { OptionsOf };

    ghost view = { λ o. record { workers = o.workers; nodes = o.nodes; heads = o.heads } };

    ghost invariant = { λ o. InRange o.workers o.nodes o.heads };

    ghost inverse = { λ o. record { workers = o.workers; nodes = o.nodes; heads = o.heads } };
}

impl PhaseOpts {
    /// Returns these options, if a table can be opened by them: 1 to `MAX_PASSES` workers, 1 to `MAX_NODES` nodes for each, 1 to
    /// `MAX_HEADS` chains.
    pub fn new(workers: u64, nodes: u64, heads: u64) -> Option<PhaseOpts>
        ensures { SomeIff result (InRange workers nodes heads) (record { workers = workers; nodes = nodes; heads = heads }) }
    {
        let is_in_range = workers >= 1
            && workers <= MAX_PASSES
            && nodes >= 1
            && nodes <= MAX_NODES
            && heads >= 1
            && heads <= MAX_HEADS;
        if is_in_range {
            Some(PhaseOpts {
                workers,
                nodes,
                heads,
            })
        } else {
            None
        }
    }

    /// Returns how many workers.
    pub fn workers(self) -> u64
        ensures value { result ≡ self.workers }
        ensures range { InRange self.workers self.nodes self.heads }
    {
        self.workers
    }

    /// Returns how many terms each worker may link.
    pub fn nodes(self) -> u64
        ensures value { result ≡ self.nodes }
        ensures range { InRange self.workers self.nodes self.heads }
    {
        self.nodes
    }

    /// Returns how many chains the table has.
    pub fn heads(self) -> u64
        ensures value { result ≡ self.heads }
        ensures range { InRange self.workers self.nodes self.heads }
    {
        self.heads
    }
}
