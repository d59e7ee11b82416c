//! Why an order is rejected: the terms that differ, or the rule that is broken and the words that break it.

use crate::left::place_page;
use crate::terms::{Code, Left, left_of};
use crate::witness::put_found;
use block_text::{ExitLine, put_insts};
use block_validator::Place;
use mblock::{Block, Order, Unclean};
use mips_isa::{Action, Plain};
use std::alloc::{AllocError, Global};
use text::{Page, Writer};

/// How deep terms are shown: the least that tells them apart, or the deepest.
const DEPTHS: &[u32] = &[4, 6, 8, 12, 16, DEEPEST];

const DEEPEST: u32 = 24;

/// Returns an instruction of an order by the place of its word: the exit's first word and the slot are after the others.
fn word_at(order: &Order, place: usize) -> Option<Plain> {
    if place == order.insts().len().saturating_add(1) {
        return order.slot();
    }
    order.insts().get(place).copied()
}

/// Returns the first product that comes too soon after a move: the places of the two.
fn early_product(order: &Order) -> Option<(usize, usize)> {
    for (k, inst) in order.insts().iter().enumerate() {
        if inst.action().is_move() {
            for place in [k.saturating_add(1), k.saturating_add(2)] {
                if matches!(word_at(order, place), Some(word) if word.action().is_product()) {
                    return Some((k, place));
                }
            }
        }
    }
    None
}

/// Returns the places of the two words that break a rule, if they are found.
fn breaking(rule: Unclean, order: &Order) -> Option<(usize, usize)> {
    let exit = order.insts().len();
    match rule {
        Unclean::LoadUse => {
            let k = order.insts().windows(2).position(|pair| match pair {
                [inst, next] => match inst.action() {
                    Action::Loads { d, .. } => next.action().touches(d.reg()),
                    _ => false,
                },
                _ => false,
            })?;
            Some((k, k + 1))
        }
        Unclean::ProductAfterMove => early_product(order),
        Unclean::SlotLoadOrMove => Some((exit, exit.saturating_add(1))),
        Unclean::ExitLoad => Some((exit.saturating_sub(1), exit)),
    }
}

fn put_word(out: &mut Writer, order: &Order, place: usize) {
    match word_at(order, place) {
        Some(inst) => put_insts(out, &[inst], "  ", "\n"),
        None => out.put(&format_args!("  {}\n", ExitLine(order.exit()))),
    }
}

/// Writes which delay rule an order breaks, and the words that break it.
pub fn put_unclean(out: &mut Writer, rule: Unclean, order: &Order) {
    out.text(match rule {
        Unclean::LoadUse => {
            "an instruction reads or writes the register that the one just before it loads"
        }
        Unclean::ProductAfterMove => {
            "fewer than two words stand between mfhi or mflo and a mult, multu, div or divu behind it"
        }
        Unclean::SlotLoadOrMove => "a load, mfhi or mflo is in the slot",
        Unclean::ExitLoad => {
            "the last instruction loads a register that the exit's first word reads or writes"
        }
    });
    out.text(":\n");
    if let Some((first, second)) = breaking(rule, order) {
        put_word(out, order, first);
        put_word(out, order, second);
    }
}

/// Returns what is left in a place, at a depth; `?` where the table had no room for it.
fn page_at(
    alloc: Global,
    left: &mut Option<Left>,
    place: &Place,
    depth: u32,
) -> Result<Page, AllocError> {
    match left {
        Some(left) => place_page(alloc, left, *place, depth),
        None => {
            let mut out = Writer::new(alloc);
            out.text("?");
            out.end()
        }
    }
}

/// Writes what block and order leave in a place where they differ, at the first depth that tells them apart, and a start that refutes the
/// order.
pub fn put_differing(
    alloc: Global,
    out: &mut Writer,
    place: &Place,
    block: &Block,
    order: &Order,
) -> Result<(), AllocError> {
    let mut first = left_of(alloc, Code::Block(block))?;
    let mut second = left_of(alloc, Code::Order(order))?;
    for depth in DEPTHS {
        let one = page_at(alloc, &mut first, place, *depth)?;
        let other = page_at(alloc, &mut second, place, *depth)?;
        if one.bytes() != other.bytes() || *depth == DEEPEST {
            out.text("block: ");
            out.page(&one);
            out.text("\norder: ");
            out.page(&other);
            out.text("\n");
            break;
        }
    }
    put_found(alloc, out, block, order)
}
