//! Starts to try.
ghost use Rattle.std.specs.Prelude.{IfOk, IfSome};
ghost use Rattle.mblock.specs.Orders.{Means};
ghost use Rattle.counterexample.specs.Views.{start_of};
ghost use Rattle.counterexample.specs.Refuting.{Refutes};

use crate::crossings::crossings;
use crate::difference::Difference;
use crate::filling::Filling;
use crate::origins::{Access, Origin, Pair, Traced, access_of, trace};
use crate::start::Start;
use crate::verdict::refute;
use mblock::{Block, Order};
use mips_isa::Action;
use std::alloc::{AllocError, Global};
use words::Width;

/// How many starts `find_start` tries at most; fewer for a long block or many accesses of memory.
pub const STARTS: u32 = 64;

// How often a start is changed until two accesses meet and no address is misaligned.
const CHANGES: u32 = 8;

// A return address in the code.
const LINK: u32 = 0x0040_1234;

/// A start that refutes an order, the link that it takes, and what the order does otherwise.
#[derive(Clone, Copy)]
pub struct Witness {
    pub start: Start,
    pub link: u32,
    pub difference: Difference,
}

/// Returns a number that looks like no other (Marsaglia, Xorshift RNGs).
fn mixed(word: u32) -> u32 {
    let a = word ^ (word << 13);
    let b = a ^ (a >> 17);
    b ^ (b << 5)
}

/// Returns small and extreme words.
fn extreme(word: u32) -> u32 {
    match word % 8 {
        0 => 0,
        1 => 1,
        2 => 0xffff_ffff,
        3 => 0x7fff_ffff,
        4 => 0x8000_0000,
        5 => 4,
        6 => 0xffff_fffc,
        _ => word % 64,
    }
}

/// Returns a word of the kind that a start has: an address near the base, 0, 1, an extreme word, or any word.
fn word_of_kind(kind: u32, base: u32, word: u32) -> u32 {
    let near = base.wrapping_add((word >> 8) & 0x7c);
    match (kind, word >> 30) {
        (0, _) | (2, 0) | (2, 1) => near,
        (1, 0) | (1, 1) => (word >> 8) & 1,
        (1, _) => extreme(word >> 8),
        (2, 2) => word & 0xffff_fffc,
        (2, _) => extreme(word >> 8),
        _ => word,
    }
}

/// Returns a base near which addresses meet: that of the data, or a word that the block itself puts into a register's upper half.
fn base_of(block: &Block, number: u32) -> u32 {
    let words = block.insts().iter().filter_map(|inst| match inst.action() {
        Action::Sets { d: _, word } => Some(word),
        _ => None,
    });
    words.take(number as usize).last().unwrap_or(0x1000_0000)
}

fn start_of_kind(kind: u32, base: u32, seed: u32) -> Start {
    let mut regs = [0; 32];
    let mut word = mixed(seed);
    for r in 1..32usize {
        word = mixed(word);
        regs[r] = word_of_kind(kind, base, word);
    }
    let hi = mixed(word);
    let lo = mixed(hi);
    let (base, mask) = match kind {
        0 => (base, 0x7c),
        1 => (0x2000_0000, 0x00ff_fffc),
        2 => (base, 0xfc),
        _ => (lo, 0xffff_ffff),
    };
    let filling = Filling {
        base,
        mask,
        factor: 0x9e37_79b1,
        offset: lo,
    };
    Start {
        regs,
        hi,
        lo,
        filling,
    }
}

/// Makes what a word follows greater by a number; false if it follows nothing.
fn shift(start: &mut Start, origin: Origin, by: u32) -> bool {
    match origin {
        Origin::Nothing => return false,
        Origin::Held(r) => {
            let index = r.index() as usize;
            start.regs[index] = start.regs[index].wrapping_add(by);
        }
        Origin::Filled => start.filling.base = start.filling.base.wrapping_add(by),
    }
    true
}

/// Makes two accesses meet, if their addresses follow different things; false if nothing was changed.
fn meet(start: &mut Start, first: &Access, second: &Access, bits: u32) -> bool {
    let apart = second.address.wrapping_sub(first.address);
    // a byte meets a word in one of its four bytes
    let by = match (first.width, second.width) {
        (Width::Byte, Width::Word) => apart.wrapping_add(bits & 3),
        (Width::Word, Width::Byte) => apart.wrapping_sub(bits & 3),
        _ => apart,
    };
    if by == 0 || first.origin == second.origin {
        return false;
    }
    let back = by.wrapping_neg();
    if bits & 4 == 0 {
        shift(start, first.origin, by) || shift(start, second.origin, back)
    } else {
        shift(start, second.origin, back) || shift(start, first.origin, by)
    }
}

/// Returns the start with this number, of those for a block and pairs of its accesses that may meet.
fn start_number(
    alloc: Global,
    block: &Block,
    pairs: &[Pair],
    number: u32,
) -> Result<Start, AllocError> {
    let base = base_of(block, number / 8 % 4);
    let mut start = start_of_kind(number % 4, base, number.wrapping_add(0x2545_f491));
    let turn = (number as usize / 2).checked_rem(pairs.len()).unwrap_or(0);
    let pair = pairs.get(turn).copied();
    let bits = mixed(number.wrapping_add(0x1234_5678));
    for _ in 0..CHANGES {
        // a change makes the block run farther, or its two accesses meet
        let changed = match trace(alloc, block, &start, pair, bits & 4 != 0)? {
            Traced::Stuck(Some(at)) => {
                shift(&mut start, at.origin, (at.address & 3).wrapping_neg())
            }
            Traced::Ran(Some(first), Some(second)) => meet(&mut start, &first, &second, bits),
            _ => false,
        };
        if !changed {
            break;
        }
    }
    Ok(start)
}

/// Returns how many starts are tried for a block: fewer for a long one, and for one with many accesses. A byte of memory takes as long as
/// there are stores.
fn starts_for(block: &Block) -> u32 {
    let insts = block.insts();
    let accesses = insts
        .iter()
        .filter(|inst| access_of(&inst.action()).is_some())
        .count();
    let work = insts
        .len()
        .saturating_add(accesses.saturating_mul(accesses) / 64);
    (0x2000 / work.saturating_add(1))
        .max(8)
        .min(STARTS as usize) as u32
}

/// Returns a start of a fixed list that refutes that the order means the block; None if none of them does. The list has starts in which two
/// accesses meet that the order has the other way round. `Err` only if memory runs out.
pub fn find_start(
    alloc: Global,
    block: &Block,
    order: &Order,
) -> Result<Option<Witness>, AllocError>
    ensures refutes { IfOk result (λ r. IfSome r (λ w. Refutes block.now order.now (start_of w.start) w.link w.difference)) }
    ensures means { IfOk result (λ r. IfSome r (λ w. Means block.now order.now → ⊥)) }
{
    let pairs = crossings(alloc, block, order)?;
    for number in 0..starts_for(block) {
        let start = start_number(alloc, block, pairs.as_slice(), number)?;
        if let Some(difference) = refute(alloc, block, order, &start, LINK)? {
            return Ok(Some(Witness {
                start,
                link: LINK,
                difference,
            }));
        }
    }
    Ok(None)
}
