//! What has to stay before what in a block. The graph is made from the last instruction on, so a node's height is known when it is linked.
use crate::memory::Accesses;
use crate::node::{AFTER_LOAD, Facts, NEXT, Node, PRODUCT_AFTER_MOVE, keep_needed};
use crate::resources::Resources;
use mblock::Exit;
use mips_isa::Plain;
use std::alloc::{AllocError, Global};
use std::mem::replace;

/// The instructions of a block, and which of them wait for which.
#[derive(Drop)]
pub struct Graph {
    /// The instructions, the last one first.
    pub nodes: Vec<Node>,
    /// The numbers of those that wait for a node, for one node after another, and then the ranks of those that may come next. One may be left
    /// out that waits by way of others.
    pub(crate) lists: Vec<u32>,
    /// Where those ranks begin.
    pub(crate) ranks: usize,
    // The height, so far, of the node that is linked.
    height: u32,
    /// Whether memory was refused to the lists, which then lack a number.
    pub(crate) is_refused: bool,
}

/// The next uses of a register, HI or LO: the first writer, and the readers before it. A reader has its number and which of its reads it is.
#[derive(Clone, Copy, Default)]
struct Uses {
    writer: Option<u32>,
    readers: Option<u32>,
}

/// Those of each.
type Users = [Uses; Resources::COUNT];

impl Graph {
    /// Returns how many nodes there are.
    pub fn count(&self) -> u32 {
        u32::try_from(self.nodes.len()).unwrap_or(u32::MAX)
    }

    /// Returns where the lists end.
    fn place(&self) -> u32 {
        u32::try_from(self.lists.len()).unwrap_or(u32::MAX)
    }

    /// Adds to the end of the lists.
    pub(crate) fn add(&mut self, number: u32) {
        self.is_refused = self.is_refused || self.lists.push(number).is_err();
    }

    /// Puts the node that is linked before a later one, at least so many words.
    pub(crate) fn put_before(&mut self, later: u32, words: u32) {
        if let Some(node) = self.nodes.get_mut(later as usize) {
            node.waits_for = node.waits_for.wrapping_add(1);
            self.height = self.height.max(node.height.wrapping_add(words));
        }
        self.add(later);
    }

    /// Puts it before the next readers of a register, or before the next writer, which waits for those.
    fn put_before_uses(&mut self, uses: Uses, words: u32) {
        let mut at = uses.readers;
        if at.is_none()
            && let Some(writer) = uses.writer
        {
            self.put_before(writer, words);
        }
        for _ in 0..self.nodes.len() {
            let Some(read) = at else {
                break;
            };
            at = match self.nodes.get((read / 2) as usize) {
                Some(node) => node.readers[(read % 2) as usize],
                None => None,
            };
            self.put_before(read / 2, words);
        }
    }

    /// Puts it before those that use what it writes, and notes that it does.
    fn link_writes(&mut self, k: u32, facts: &Facts, users: &mut Users) {
        let words = if facts.loads() { AFTER_LOAD } else { NEXT };
        let mut left = facts.writes;
        for _ in 0..Resources::COUNT {
            let Some((resource, others)) = left.split() else {
                break;
            };
            if let Some(uses) = users.get_mut(resource) {
                self.put_before_uses(*uses, words);
                *uses = Uses {
                    writer: Some(k),
                    readers: None,
                };
            }
            left = others;
        }
    }

    /// Puts it before the writers of what it reads, and notes that it does; returns the next reader of each.
    fn link_reads(&mut self, k: u32, facts: &Facts, users: &mut Users) -> [Option<u32>; 2] {
        let words = if facts.moves() {
            PRODUCT_AFTER_MOVE
        } else {
            NEXT
        };
        let mut next = [None; 2];
        let mut left = facts.reads.difference(facts.writes);
        for which in 0..2u32 {
            let Some((resource, others)) = left.split() else {
                break;
            };
            if let Some(uses) = users.get_mut(resource) {
                if let Some(writer) = uses.writer {
                    self.put_before(writer, words);
                }
                let reader = k.wrapping_mul(2).wrapping_add(which);
                next[which as usize] = replace(&mut uses.readers, Some(reader));
            }
            left = others;
        }
        next
    }

    /// Puts a node before all that have to stay after it, which are linked already.
    fn link(
        &mut self,
        k: u32,
        touched: Resources,
        users: &mut Users,
        accesses: &mut Option<Accesses>,
    ) {
        let Some(node) = self.nodes.get(k as usize).copied() else {
            return;
        };
        let begin = self.place();
        self.height = node.facts.words_to_exit(touched);
        self.link_writes(k, &node.facts, users);
        let readers = self.link_reads(k, &node.facts, users);
        if let Some(accesses) = accesses {
            accesses.link(self, k, &node);
        }
        let end = self.place();
        if let Some(node) = self.nodes.get_mut(k as usize) {
            node.height = self.height;
            node.waiting = (begin, end);
            node.readers = readers;
        }
    }

    /// Returns the graph of a block's instructions; one that `is_refused` lacks some of the order.
    pub fn of(alloc: Global, insts: &[Plain], exit: &Exit) -> Result<Graph, AllocError> {
        let mut nodes = keep_needed(alloc, insts)?;
        let mut accesses = Accesses::of(alloc, nodes.as_mut_slice())?;
        let lists = Vec::with_capacity(alloc, nodes.len().saturating_mul(3))?;
        let mut graph = Graph {
            nodes,
            lists,
            ranks: 0,
            height: NEXT,
            is_refused: false,
        };
        let touched = Resources::touched_at_exit(exit);
        let mut users = [Uses::default(); Resources::COUNT];
        for k in 0..graph.count() {
            graph.link(k, touched, &mut users, &mut accesses);
        }
        graph.rank_all();
        Ok(graph)
    }
}
