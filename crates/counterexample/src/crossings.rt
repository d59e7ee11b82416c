//! Accesses of memory that an order has the other way round than its block.

use crate::origins::{Pair, access_of};
use mblock::{Block, Order};
use mips_isa::Plain;
use std::alloc::{AllocError, Global};

/// At most so many pairs are tried.
const PAIRS: usize = 64;

/// Reports whether two instructions have one base, which isn't written from the first on: so the offsets tell whether they meet.
fn is_one_base(insts: &[Plain], pair: Pair) -> bool {
    let between = insts.get(pair.first..pair.second).unwrap_or_default();
    let (Some(one), Some(other)) = (between.first(), insts.get(pair.second)) else {
        return false;
    };
    let (Some((_, p, _)), Some((_, q, _))) = (access_of(&one.action()), access_of(&other.action()))
    else {
        return false;
    };
    p == q && !between.iter().any(|inst| inst.writes(p))
}

/// The accesses of a block, by their places, up to those that an order has done.
#[derive(Drop)]
struct Waiting<'b> {
    insts: &'b [Plain],
    places: Vec<usize>,
    pairs: Vec<Pair>,
}

impl<'b> Waiting<'b> {
    /// Notes that the order does this instruction: it passes the accesses that still wait before it.
    fn does(&mut self, inst: &Plain) -> Result<(), AllocError> {
        let insts = self.insts;
        let Some(number) = self
            .places
            .iter()
            .position(|place| insts.get(*place) == Some(inst))
        else {
            return Ok(());
        };
        let second = self.places.remove(number);
        for first in self.places.iter().take(number).copied() {
            let pair = Pair { first, second };
            if let Some(passed) = insts.get(first)
                && !(passed.action().is_load() && inst.action().is_load())
                && !is_one_base(insts, pair)
                && self.pairs.len() < PAIRS
            {
                self.pairs.push(pair)?;
            }
        }
        Ok(())
    }
}

/// Returns pairs of accesses, one of them a store, that the order has the other way round than the block.
pub(crate) fn crossings(
    alloc: Global,
    block: &Block,
    order: &Order,
) -> Result<Vec<Pair>, AllocError> {
    let insts = block.insts();
    let accesses = insts
        .iter()
        .enumerate()
        .filter(|(_, inst)| access_of(&inst.action()).is_some());
    let mut waiting = Waiting {
        insts,
        places: accesses.map(|(place, _)| place).collect(alloc)?,
        pairs: Vec::new(alloc),
    };
    for inst in order.insts() {
        waiting.does(inst)?;
    }
    if let Some(inst) = order.slot() {
        waiting.does(&inst)?;
    }
    Ok(waiting.pairs)
}
