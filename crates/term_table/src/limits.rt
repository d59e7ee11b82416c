//! The ranges of a table.

ghost use Rattle.term_table.specs.Numbers.{LimitsAreTheseNumbers};

/// How many passes a table has at most.
pub const MAX_PASSES: u64 = 64;

/// How many terms each of them may link at most, where the table is opened by `open`.
pub const MAX_NODES: u64 = 1_048_576;

/// How many chains a table has at most, where it is opened by `open`.
pub const MAX_HEADS: u64 = 65_536;

/// How many terms each pass of a table may link at most.
pub const LARGE_MAX_NODES: u64 = 268_435_456;

/// How many chains a table has at most.
pub const LARGE_MAX_HEADS: u64 = 16_777_216;

/// How many terms each pass of a table may link at most, and how many chains the table may have.
#[derive(Clone, Copy)]
pub struct Limits {
    pub nodes: u64,
    pub heads: u64,
}

// The limits of `open`.
pub(crate) const LIMITS: Limits = Limits {
    nodes: MAX_NODES,
    heads: MAX_HEADS,
};

// The limits of `open_large`.
pub(crate) const LARGE_LIMITS: Limits = Limits {
    nodes: LARGE_MAX_NODES,
    heads: LARGE_MAX_HEADS,
};

/// States that each limit is the number that specs/Numbers.antt tells, so a change of one is a change there. A law: it computes nothing.
pub fn limits_are_these_numbers()
    ensures { LimitsAreTheseNumbers }
{}
