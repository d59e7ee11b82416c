//! Graphs of blocks, for Graphviz.

use crate::back_edges::{Edges, Node, back_edges};
use mblock::{BlockNumber, Exit};
use rtl::RExit;
use std::alloc::{AllocError, Global};
use text::Writer;

/// Returns the place of a block among a function's, the first of which has this number.
fn place(block: BlockNumber, first: usize) -> Option<usize> {
    Some((block.number() as usize).saturating_sub(first))
}

/// Returns the places of the blocks to which an exit leads, among a function's, the first of which has this number.
pub(crate) fn exit_places(exit: Exit, first: usize) -> Edges {
    match exit {
        Exit::Goto(next) | Exit::Call { next, .. } | Exit::Out(next) => [place(next, first), None],
        Exit::BranchPair { then, other, .. } | Exit::BranchZero { then, other, .. } => {
            [place(then, first), place(other, first)]
        }
        Exit::Return | Exit::Halt => [None, None],
    }
}

/// Returns the same of an exit of RTL.
pub(crate) fn rtl_places(exit: &RExit) -> Edges {
    match exit {
        RExit::Goto(next) | RExit::Call(_, _, _, next) | RExit::Out(_, next) => {
            [Some(*next as usize), None]
        }
        RExit::Branch(_, then, other) => [Some(*then as usize), Some(*other as usize)],
        RExit::Return(_) => [None, None],
    }
}

/// Writes the blocks of a function, each with its edges: two are a branch's. One that goes back is bold, so that loops are seen.
pub(crate) fn put_nodes(alloc: Global, out: &mut Writer, nodes: &[Node]) -> Result<(), AllocError> {
    let back = back_edges(alloc, nodes)?;
    for (node, back) in nodes.iter().zip(back.iter()) {
        let number = node.number;
        out.put(&format_args!("    b{number} [label=\"block {number}\\l"));
        out.page(&node.lines);
        out.text("\"];\n");
        let styles = match node.edges[1] {
            Some(_) => [" [label=\"taken\"", " [label=\"else\" style=dashed"],
            None => [" [style=solid", ""],
        };
        for k in 0..2usize {
            if let Some(place) = node.edges[k]
                && let Some(target) = nodes.get(place)
            {
                let bold = if back[k] {
                    " penwidth=2 color=blue"
                } else {
                    ""
                };
                out.put(&format_args!(
                    "    b{number} -> b{}{}{bold}];\n",
                    target.number, styles[k]
                ));
            }
        }
    }
    Ok(())
}
