//! Which loads and stores have to stay in their order.
use crate::access::{Access, access_of};
use crate::graph::Graph;
use crate::node::{NEXT, Node};
use crate::resources::Resources;
use crate::sets::{Sets, greatest};
use mips_isa::Reg;
use std::alloc::{AllocError, Global};
use std::mem::replace;

// How many lists the stores are divided among, by the words that they store.
const BUCKETS: usize = 16;

// An odd number near 2^32 divided by the golden ratio.
const SCATTER: u32 = 2_654_435_769;

/// The stores by their offsets, the nearest one first in each list.
#[derive(Drop)]
struct Buckets {
    firsts: [Option<u32>; BUCKETS],
    // Whether a store is among them that spans two words.
    has_shifted: bool,
}

/// Returns the bucket of a word.
fn bucket_of(word: u32) -> usize {
    (word.wrapping_mul(SCATTER) >> 28) as usize
}

impl Buckets {
    /// Returns empty lists.
    fn none() -> Buckets {
        Buckets {
            firsts: [None; BUCKETS],
            has_shifted: false,
        }
    }

    /// Returns the nearest store of a word's list.
    fn first(&self, word: u32) -> Option<u32> {
        *self.firsts.get(bucket_of(word))?
    }

    /// Adds a store to its list.
    fn add(&mut self, nodes: &mut [Node], k: u32, store: &Access) {
        self.has_shifted |= store.is_shifted();
        if let Some(first) = self.firsts.get_mut(bucket_of(store.offset / 4))
            && let Some(node) = nodes.get_mut(k as usize)
        {
            node.bucket = replace(first, Some(k));
        }
    }

    /// Returns the lists of the words in which a store may begin that an access meets.
    fn lists_of(&self, access: &Access) -> [Option<u32>; 3] {
        let word = access.offset / 4;
        let here = self.first(word);
        if !self.has_shifted && !access.is_shifted() {
            return [here, None, None];
        }
        [
            self.first(word.wrapping_sub(1)),
            here,
            self.first(word.wrapping_add(1)),
        ]
    }
}

/// Returns a store of a list, with its number, and the next one.
fn store_at(nodes: &[Node], at: Option<u32>) -> Option<(u32, Access, Option<u32>)> {
    let k = at?;
    let node = nodes.get(k as usize)?;
    let access = access_of(&node.inst)?;
    Some((k, access, node.bucket))
}

/// Reports whether a load loads what a store may have stored that came since its base was written.
fn meets_store(nodes: &[Node], buckets: &Buckets, load: &Access, written: Option<u32>) -> bool {
    for first in buckets.lists_of(load) {
        let mut at = first;
        for _ in 0..nodes.len() {
            let Some((k, store, next)) = store_at(nodes, at) else {
                break;
            };
            if matches!(written, Some(writer) if writer <= k) {
                break;
            }
            if load.meets(&store) {
                return true;
            }
            at = next;
        }
    }
    false
}

/// Marks the loads that load in part what an earlier store over the same base stores.
fn mark_fixed(nodes: &mut [Node]) {
    let mut buckets = Buckets::none();
    let mut writers = [None; Resources::COUNT];
    let count = u32::try_from(nodes.len()).unwrap_or(u32::MAX);
    for k in (0..count).rev() {
        let Some(node) = nodes.get(k as usize) else {
            break;
        };
        let writes = node.facts.writes;
        match access_of(&node.inst) {
            Some(store) if store.stores => buckets.add(nodes, k, &store),
            Some(load) => {
                let base = load.base.index() as usize;
                let written = writers.get(base).copied().unwrap_or(None);
                let is_fixed = meets_store(nodes, &buckets, &load, written);
                if let Some(node) = nodes.get_mut(k as usize) {
                    node.is_fixed = is_fixed;
                }
            }
            None => {}
        }
        if let Some((resource, _)) = writes.split()
            && let Some(writer) = writers.get_mut(resource)
        {
            *writer = Some(k);
        }
    }
}

/// The loads and stores that come after some instruction.
#[derive(Drop)]
pub struct Accesses {
    // By the numbers below.
    sets: Sets,
    // The bases that have fellows.
    bases: Resources,
    buckets: Buckets,
}

// The sets: all, those that store, and the loads that keep their places. Then come, for each base, the accesses over it since it was
// written, and for each access the ones that stay after it.
const ALL: usize = 0;

const STORES: usize = 1;

const FIXED: usize = 2;

const FELLOWS: usize = 3;

const AFTER: usize = FELLOWS + 32;

/// Returns the set of those over a base whose word they share.
fn fellows(base: Reg) -> usize {
    FELLOWS + base.index() as usize
}

/// Returns the set of those that stay after an access.
fn after(k: usize) -> usize {
    AFTER.wrapping_add(k)
}

impl Accesses {
    /// Returns the accesses after the last of a block's instructions: none. There is no order to keep without a store, and another store or
    /// a load. The loads are marked that keep their places.
    pub fn of(alloc: Global, nodes: &mut [Node]) -> Result<Option<Accesses>, AllocError> {
        let last_load = nodes.iter().position(|node| node.facts.loads());
        let last_store = nodes.iter().position(|node| node.facts.stores());
        let first_store = nodes.iter().rposition(|node| node.facts.stores());
        if first_store.is_none() || (last_load.is_none() && last_store == first_store) {
            return Ok(None);
        }
        if matches!((last_load, first_store), (Some(load), Some(store)) if load < store) {
            mark_fixed(nodes);
        }
        Ok(Some(Accesses {
            sets: Sets::new(alloc, after(nodes.len()), nodes.len())?,
            bases: Resources::NONE,
            buckets: Buckets::none(),
        }))
    }

    /// Returns a word of the set of those that have to stay after an access, whatever bytes they load or store.
    fn word_behind(&self, access: &Access, is_fixed: bool, w: usize) -> u64 {
        let stores = self.sets.word(STORES, w);
        if is_fixed {
            return stores;
        }
        let others = !self.sets.word(fellows(access.base), w);
        if access.stores {
            (self.sets.word(ALL, w) & others) | self.sets.word(FIXED, w)
        } else {
            stores & others
        }
    }

    /// Puts an access before a later one, and all that stay after that one.
    fn put_before(&mut self, graph: &mut Graph, k: usize, later: u32) {
        self.sets.insert(after(k), later as usize);
        self.sets.insert_all(after(k), after(later as usize));
        graph.put_before(later, NEXT);
    }

    /// Puts an access before those that have to stay after it, whatever bytes they load or store.
    fn link_sets(&mut self, graph: &mut Graph, k: usize, access: &Access, is_fixed: bool) {
        for w in (0..self.sets.width()).rev() {
            let all = self.word_behind(access, is_fixed, w);
            for _ in 0..64 {
                let Some(later) = greatest(w, all & !self.sets.word(after(k), w)) else {
                    break;
                };
                self.put_before(graph, k, later);
            }
        }
    }

    /// Puts an access before the stores of a list that store some of its bytes, up to one that stores all.
    fn link_list(&mut self, graph: &mut Graph, k: usize, access: &Access, first: Option<u32>) {
        let mut at = first;
        for _ in 0..graph.nodes.len() {
            let Some((later, store, next)) = store_at(graph.nodes.as_slice(), at) else {
                break;
            };
            let is_fellow = self.sets.contains(fellows(access.base), later as usize);
            if is_fellow && access.overlaps(&store) {
                if !self.sets.contains(after(k), later as usize) {
                    self.put_before(graph, k, later);
                }
                if store.covers(access) {
                    break;
                }
            }
            at = next;
        }
    }

    /// Adds an access, the nearest one.
    fn add(&mut self, graph: &mut Graph, k: u32, access: &Access, is_fixed: bool) {
        let number = k as usize;
        self.sets.insert(ALL, number);
        self.sets.insert(fellows(access.base), number);
        self.bases = self.bases.union(Resources::of(access.base));
        if is_fixed {
            self.sets.insert(FIXED, number);
        }
        if access.stores {
            self.sets.insert(STORES, number);
            self.buckets.add(graph.nodes.as_mut_slice(), k, access);
        }
    }

    /// Notes what an instruction writes, and puts its load or store before those that have to stay after it.
    pub fn link(&mut self, graph: &mut Graph, k: u32, node: &Node) {
        if let Some((base, _)) = node.facts.writes.intersection(self.bases).split() {
            self.sets.clear(FELLOWS.wrapping_add(base));
            self.bases = self.bases.difference(node.facts.writes);
        }
        let Some(access) = access_of(&node.inst) else {
            return;
        };
        self.link_sets(graph, k as usize, &access, node.is_fixed);
        if !node.is_fixed {
            for first in self.buckets.lists_of(&access) {
                self.link_list(graph, k as usize, &access, first);
            }
        }
        self.add(graph, k, &access, node.is_fixed);
    }
}
