//! The edges of a graph that go back to a node on the way from the first node, by a depth-first walk. So a loop is entered at its head.

use std::alloc::{AllocError, Global};
use text::Page;

/// Where the edges of a node lead.
pub(crate) type Edges = [Option<usize>; 2];

/// A block of a graph: its number, its lines, and the places of the blocks to which it leads.
#[derive(Drop)]
pub(crate) struct Node {
    pub(crate) number: usize,
    pub(crate) lines: Page,
    pub(crate) edges: Edges,
}

/// How far the walk is with a node.
#[derive(Clone, Copy, PartialEq, Eq)]
enum Visit {
    Unseen,
    /// On the way to the node at which the walk is; so many of its edges were taken.
    Open(usize),
    Done,
}

/// A walk through a graph.
#[derive(Drop)]
struct Walk<'a> {
    nodes: &'a [Node],
    visits: Vec<Visit>,
    way: Vec<usize>,
    back: Vec<[bool; 2]>,
}

impl<'a> Walk<'a> {
    /// Returns where an edge of a node leads.
    fn target(&self, node: usize, edge: usize) -> Option<usize> {
        *self.nodes.get(node)?.edges.get(edge)?
    }

    fn visit(&self, node: usize) -> Visit {
        self.visits.get(node).copied().unwrap_or(Visit::Done)
    }

    fn set(&mut self, node: usize, visit: Visit) {
        if let Some(place) = self.visits.get_mut(node) {
            *place = visit;
        }
    }

    /// Goes on to a new node.
    fn enter(&mut self, node: usize) -> Result<(), AllocError> {
        self.set(node, Visit::Open(0));
        Ok(self.way.push(node)?)
    }

    /// Marks an edge of a node as one that goes back.
    fn mark(&mut self, node: usize, edge: usize) {
        if let Some(marks) = self.back.get_mut(node)
            && let Some(mark) = marks.get_mut(edge)
        {
            *mark = true;
        }
    }

    /// Goes on from the last node of the way: by its next edge, which leads to a new node or is marked where it goes back, or else back.
    fn go_on(&mut self, node: usize) -> Result<(), AllocError> {
        match self.visit(node) {
            Visit::Open(edge) if edge < 2 => {
                self.set(node, Visit::Open(edge + 1));
                if let Some(to) = self.target(node, edge) {
                    match self.visit(to) {
                        Visit::Unseen => self.enter(to)?,
                        Visit::Open(_) => self.mark(node, edge),
                        Visit::Done => {}
                    }
                }
            }
            _ => {
                self.set(node, Visit::Done);
                self.way.pop();
            }
        }
        Ok(())
    }
}

/// Finds the edges that go back.
pub(crate) fn back_edges(alloc: Global, nodes: &[Node]) -> Result<Vec<[bool; 2]>, AllocError> {
    let mut walk = Walk {
        nodes,
        visits: vec![in alloc; Visit::Unseen; nodes.len()]?,
        way: Vec::new(alloc),
        back: vec![in alloc; [false; 2]; nodes.len()]?,
    };
    for root in 0..nodes.len() {
        if walk.visit(root) == Visit::Unseen {
            walk.enter(root)?;
        }
        // each node has two edges to take and is left once
        for _ in 0..nodes.len().saturating_mul(3) {
            let Some(node) = walk.way.last().copied() else {
                break;
            };
            walk.go_on(node)?;
        }
    }
    Ok(walk.back)
}
