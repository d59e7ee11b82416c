//! What the addresses of a block's accesses follow, in a run from a start.

use crate::registers::Registers;
use crate::start::Start;
use mblock::Block;
use mips_isa::{Action, Operand, Reg};
use std::alloc::{AllocError, Global};
use words::{Operator, Width};

/// What a word follows: where that grows by a number, the word does too.
#[derive(Clone, Copy, PartialEq, Eq)]
pub(crate) enum Origin {
    Nothing,
    /// What the register holds at the start.
    Held(Reg),
    /// What fills memory.
    Filled,
}

/// An access of memory in a run.
#[derive(Clone, Copy)]
pub(crate) struct Access {
    pub(crate) width: Width,
    pub(crate) address: u32,
    pub(crate) origin: Origin,
}

/// How a block ran from a start.
#[derive(Clone, Copy)]
pub(crate) enum Traced {
    /// It was stuck at this access, if it was at one.
    Stuck(Option<Access>),
    /// It wasn't stuck; these are the accesses by the two instructions that were asked for.
    Ran(Option<Access>, Option<Access>),
}

/// Two instructions of a block, by their places.
#[derive(Clone, Copy)]
pub(crate) struct Pair {
    pub(crate) first: usize,
    pub(crate) second: usize,
}

/// The registers of a run, and what each follows.
#[derive(Drop)]
struct Tracing {
    registers: Registers,
    origins: [Origin; 32],
    /// Of a sum's two parts the second counts.
    takes_second: bool,
}

/// Returns the width, the base and the offset of an access of memory.
#[rattlefmt::skip]
pub(crate) fn access_of(action: &Action) -> Option<(Width, Reg, u32)> {
    match *action {
        Action::Loads { width, base, offset, .. } | Action::Stores { width, base, offset, .. } => Some((width, base, offset)),
        _ => None,
    }
}

impl Tracing {
    fn of(alloc: Global, start: &Start, takes_second: bool) -> Tracing {
        let mut origins = [Origin::Nothing; 32];
        for r in 1..32u8 {
            origins[r as usize] = Origin::Held(Reg::masked(r));
        }
        Tracing {
            registers: Registers::of(alloc, start),
            origins,
            takes_second,
        }
    }

    fn origin(&self, r: Reg) -> Origin {
        self.origins[r.index() as usize]
    }

    fn origin_of_sum(&self, a: Reg, b: Operand) -> Origin {
        let first = self.origin(a);
        let second = match b {
            Operand::Held(r) => self.origin(r),
            Operand::Fixed(_) => Origin::Nothing,
        };
        if first == Origin::Nothing || (self.takes_second && second != Origin::Nothing) {
            second
        } else {
            first
        }
    }

    /// Returns the register that an action writes, and what it follows then.
    fn origin_after(&self, action: &Action) -> Option<(Reg, Origin)> {
        match *action {
            Action::Computes { d, op, a, b } => {
                let origin = match op {
                    Operator::Addu => self.origin_of_sum(a, b),
                    Operator::Subu => self.origin(a),
                    _ => Origin::Nothing,
                };
                Some((d, origin))
            }
            Action::Loads { width, d, .. } => {
                let origin = match width {
                    Width::Word => Origin::Filled,
                    Width::Byte => Origin::Nothing,
                };
                Some((d.reg(), origin))
            }
            Action::Sets { d, .. } | Action::MovesHigh { d } | Action::MovesLow { d } => {
                Some((d, Origin::Nothing))
            }
            Action::Stores { .. } | Action::Multiplies { .. } | Action::Divides { .. } => None,
        }
    }

    fn access(&self, action: &Action) -> Option<Access> {
        let (width, base, offset) = access_of(action)?;
        Some(Access {
            width,
            address: self.registers.address(base, offset),
            origin: self.origin(base),
        })
    }
}

/// Runs a block from a start, and returns the accesses of two of its instructions, if a pair is asked for.
pub(crate) fn trace(
    alloc: Global,
    block: &Block,
    start: &Start,
    pair: Option<Pair>,
    takes_second: bool,
) -> Result<Traced, AllocError> {
    let mut tracing = Tracing::of(alloc, start, takes_second);
    let (mut first, mut second) = (None, None);
    for (k, inst) in block.insts().iter().enumerate() {
        let action = inst.action();
        let access = tracing.access(&action);
        if let Some(pair) = pair {
            if k == pair.first {
                first = access;
            }
            if k == pair.second {
                second = access;
            }
        }
        let after = tracing.origin_after(&action);
        if !tracing.registers.act(action)? {
            return Ok(Traced::Stuck(access));
        }
        if let Some((d, origin)) = after
            && d.index() != 0
        {
            tracing.origins[d.index() as usize] = origin;
        }
    }
    Ok(Traced::Ran(first, second))
}
