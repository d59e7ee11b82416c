//! The list scheduler.
ghost use Rattle.std.specs.Prelude.{⊤};

use crate::graph::Graph;
use crate::node::{Facts, NEXT};
use crate::reorder::Reorder;
use crate::resources::Resources;
use crate::standing::list_standing;
use mblock::{Block, Exit, ORDER_INSTS, Order, plain};
use mips_isa::Plain;
use std::alloc::{AllocError, Global};

/// The list scheduler: of the instructions that may come next, the one with the longest way to the end, or the earlier one
/// of two. A Nop stands only where none may come next, or before an exit that a load has to wait for.
#[derive(Clone, Copy)]
pub struct ListOrder;

impl Reorder for ListOrder {
    ghost proposes = { λ scheduler block order. ⊤ };

    fn reorder(&self, alloc: Global, block: &Block) -> Result<Order, AllocError> {
        let exit = block.exit();
        let list = list_insts(alloc, block.insts(), &exit)?;
        let slot = exit.has_slot().then_some(Plain::nop());
        match Order::new(list, exit, slot) {
            Some(order) => Ok(order),
            None => plain(alloc, block),
        }
    }
}

/// Lists the instructions of the graph word by word, one more than an order may have at most.
fn list_words(graph: &mut Graph, list: &mut Vec<Plain>) -> Result<(), AllocError> {
    let mut left = graph.nodes.len();
    // what the next word may not do, and the one after it
    let (mut delayed, mut later) = (Resources::NONE, Resources::NONE);
    for _ in 0..=ORDER_INSTS {
        if left == 0 {
            break;
        }
        let next = graph.take_best(delayed);
        (delayed, later) = (later, Resources::NONE);
        let Some(k) = next else {
            list.push(Plain::nop())?;
            continue;
        };
        let Some(node) = graph.nodes.get(k as usize).copied() else {
            break;
        };
        list.push(node.inst)?;
        if node.facts.loads() {
            delayed = delayed.union(node.facts.writes);
        }
        if node.facts.moves() {
            delayed = delayed.union(Resources::PRODUCT);
            later = Resources::PRODUCT;
        }
        graph.release_all(&node);
        left = left.saturating_sub(1);
    }
    Ok(())
}

/// Lists the instructions of a block that are needed: as they stand, if that is the order, else by their graph.
fn list_insts(alloc: Global, insts: &[Plain], exit: &Exit) -> Result<Vec<Plain>, AllocError> {
    let mut list = Vec::with_capacity(alloc, insts.len().saturating_add(1))?;
    if list_standing(insts, exit, &mut list)? {
        return Ok(list);
    }
    list.clear();
    let mut graph = Graph::of(alloc, insts, exit)?;
    list_words(&mut graph, &mut list)?;
    if graph.is_refused {
        return Err(AllocError);
    }
    let touched = Resources::touched_at_exit(exit);
    if let Some(inst) = list.last()
        && Facts::of(inst).words_to_exit(touched) > NEXT
    {
        list.push(Plain::nop())?;
    }
    Ok(list)
}
