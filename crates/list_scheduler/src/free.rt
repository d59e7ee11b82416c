//! The instructions that may come next.
use crate::graph::Graph;
use crate::node::Node;
use crate::resources::Resources;

// A rank's low bits are the number of an instruction: a block has fewer than 1,024 of them.
const NUMBER_BITS: u32 = 10;

// How many of the best ranks make way for another one before its place is looked up.
const NEAR: usize = 8;

/// Returns the rank of a node. The longer its way to the end the greater, and of two with ways of one length the earlier one has the
/// greater rank.
fn rank_of(node: &Node, number: u32) -> u32 {
    (node.height << NUMBER_BITS) | number
}

/// Returns the number of the node of a rank.
fn number_of(rank: u32) -> u32 {
    rank % (1 << NUMBER_BITS)
}

/// Puts a rank, which comes from this place on, among the others, which end at its place now.
fn sink(lists: &mut [u32], rank: u32, near: usize, end: usize) {
    let mut place = end;
    for at in (near..end).rev() {
        let better = match lists.get(at) {
            Some(it) if *it > rank => *it,
            _ => break,
        };
        if let Some(above) = lists.get_mut(place) {
            *above = better;
        }
        place = at;
    }
    if let Some(it) = lists.get_mut(place) {
        *it = rank;
    }
}

impl Graph {
    /// Puts the ranks of those that wait for no other behind the lists, the best one last.
    pub(crate) fn rank_all(&mut self) {
        self.ranks = self.lists.len();
        for k in 0..self.count() {
            if let Some(node) = self.nodes.get(k as usize)
                && node.waits_for == 0
            {
                let rank = rank_of(node, k);
                self.insert(rank);
            }
        }
    }

    /// Adds one at its place. Most come among the best few, so these make way for it one by one.
    fn insert(&mut self, rank: u32) {
        let end = self.lists.len();
        let near = end.saturating_sub(NEAR).max(self.ranks);
        match self.lists.get(near) {
            Some(it) if *it > rank && near > self.ranks => {
                let ranks = self.lists.get(self.ranks..near).unwrap_or_default();
                let place = self
                    .ranks
                    .saturating_add(ranks.partition_point(|it| *it < rank));
                self.is_refused |= self.lists.insert(place.min(end), rank).is_err();
            }
            _ => {
                self.add(rank);
                sink(self.lists.as_mut_slice(), rank, near, end);
            }
        }
    }

    /// Returns the place of the best one that nothing delays.
    fn best(&self, delayed: Resources) -> Option<usize> {
        for place in (self.ranks..self.lists.len()).rev() {
            if delayed.is_empty() {
                return Some(place);
            }
            let rank = *self.lists.get(place)?;
            let node = self.nodes.get(number_of(rank) as usize)?;
            if !node.facts.delayed().meets(delayed) {
                return Some(place);
            }
        }
        None
    }

    /// Takes out the best one that nothing delays.
    pub(crate) fn take_best(&mut self, delayed: Resources) -> Option<u32> {
        let place = self.best(delayed)?;
        let rank = if place.saturating_add(1) >= self.lists.len() {
            self.lists.pop()?
        } else {
            self.lists.remove(place)
        };
        Some(number_of(rank))
    }

    /// Adds those that waited for an instruction alone, which stands now.
    pub(crate) fn release_all(&mut self, node: &Node) {
        for i in node.waiting.0..node.waiting.1 {
            let Some(k) = self.lists.get(i as usize).copied() else {
                break;
            };
            let Some(later) = self.nodes.get_mut(k as usize) else {
                break;
            };
            later.waits_for = later.waits_for.saturating_sub(1);
            if later.waits_for == 0 {
                let rank = rank_of(later, k);
                self.insert(rank);
            }
        }
    }
}
