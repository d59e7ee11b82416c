//! Which of a unit's blocks are whose.

use mblock::Unit;
use std::alloc::{AllocError, Global};

/// The blocks of one function among all: from this number up to this one, which isn't one of them.
#[derive(Clone, Copy, Default)]
pub(crate) struct Range {
    pub(crate) from: usize,
    pub(crate) to: usize,
}

impl Range {
    pub(crate) fn has(self, number: usize) -> bool {
        self.from <= number && number < self.to
    }

    /// Returns what a list over all blocks has for these.
    pub(crate) fn of<'s, T>(self, all: &'s [T]) -> &'s [T] {
        all.get(self.from..self.to).unwrap_or(&[])
    }
}

/// Returns the functions of a unit: the code that calls main, and then those of the program in their order.
pub(crate) fn functions_of(alloc: Global, unit: &Unit) -> Result<Vec<Range>, AllocError> {
    let mut ranges = Vec::new(alloc);
    let mut from = 0usize;
    for (k, owner) in unit.owner().iter().enumerate() {
        if owner.number() as usize == k && k > 0 {
            ranges.push(Range { from, to: k })?;
            from = k;
        }
    }
    let to = unit.owner().len();
    ranges.push(Range { from, to })?;
    Ok(ranges)
}
