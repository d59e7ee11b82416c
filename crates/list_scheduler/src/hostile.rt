//! Schedulers that propose wrong orders on purpose.
ghost use Rattle.std.specs.Prelude.{⊤};

use crate::reorder::Reorder;
use mblock::{Block, Exit, Order, plain};
use mips_isa::{NonzeroReg, Plain, Reg};
use std::alloc::{AllocError, Global};
use std::mem::swap;
use words::Width;

/// A scheduler that changes a block's plain order, in a way that few blocks stand. It's for those who test a validator, or what takes
/// orders from one. Whatever is proposed, a block may get no order that doesn't mean it. Where a block has nothing to change in this way,
/// the plain order is proposed.
#[derive(Clone, Copy, Debug)]
pub enum Hostile {
    /// The last instruction that isn't a Nop is left out.
    Drop,
    /// The first instruction stands twice.
    Double,
    /// The first two instructions are exchanged.
    Swap,
    /// `sw $0,0($29)` stands before all.
    Foreign,
    /// The first instruction that writes a register from 1 to 30 writes the next one.
    Rename,
    /// A branch has its targets exchanged.
    Exit,
    /// The block's last instruction is in the slot, whatever it is, and the others stand in place without Nops.
    Slot,
    /// Nothing is proposed, as where memory is refused.
    Silent,
}

impl Reorder for Hostile {
    ghost proposes = { λ scheduler block order. ⊤ };

    fn reorder(&self, alloc: Global, block: &Block) -> Result<Order, AllocError> {
        let order = plain(alloc, block)?;
        let changed = match *self {
            Hostile::Silent => return Err(AllocError),
            Hostile::Slot => last_in_slot(alloc, block)?,
            kind => {
                let insts = change_insts(alloc, kind, order.insts())?;
                Order::new(insts, change_exit(kind, order.exit()), order.slot())
            }
        };
        Ok(changed.unwrap_or(order))
    }
}

fn change_insts(alloc: Global, kind: Hostile, insts: &[Plain]) -> Result<Vec<Plain>, AllocError> {
    let mut all = Vec::from_slice(alloc, insts)?;
    match kind {
        Hostile::Drop => {
            if let Some(last) = insts.iter().rposition(|inst| !inst.is_nop()) {
                all.remove(last);
            }
        }
        Hostile::Double => {
            if let Some(first) = insts.first() {
                all.insert(0, *first)?;
            }
        }
        Hostile::Swap if all.len() >= 2 => all.swap(0, 1),
        Hostile::Foreign => all.insert(
            0,
            Plain::Store {
                width: Width::Word,
                rt: Reg::ZERO,
                base: Reg::masked(29),
                offset: 0,
            },
        )?,
        Hostile::Rename => {
            for inst in all.iter_mut() {
                if rename(inst) {
                    break;
                }
            }
        }
        Hostile::Swap | Hostile::Exit | Hostile::Slot | Hostile::Silent => {}
    }
    Ok(all)
}

fn change_exit(kind: Hostile, mut exit: Exit) -> Exit {
    if matches!(kind, Hostile::Exit) {
        match &mut exit {
            Exit::BranchPair { then, other, .. } => swap(then, other),
            Exit::BranchZero { then, other, .. } => swap(then, other),
            _ => {}
        }
    }
    exit
}

/// Puts the next register in place of one from 1 to 30 that an instruction writes; false if it writes none.
fn rename(inst: &mut Plain) -> bool {
    match inst {
        Plain::Shift { rd, .. } => raise(rd),
        Plain::ShiftBy { rd, .. } => raise(rd),
        Plain::Alu { rd, .. } => raise(rd),
        Plain::Imm { rt, .. } => raise(rt),
        Plain::Logic { rt, .. } => raise(rt),
        Plain::LoadUpper { rt, .. } => raise(rt),
        Plain::MoveFrom { rd, .. } => raise(rd),
        Plain::Load { rt, .. } => raise_nonzero(rt),
        Plain::Multiply { .. } | Plain::Divide { .. } | Plain::Store { .. } => false,
    }
}

/// Replaces a register from 1 to 30 by the next one.
fn raise(r: &mut Reg) -> bool {
    match NonzeroReg::new(r.index()) {
        Some(mut nonzero) => {
            let is_changed = raise_nonzero(&mut nonzero);
            *r = nonzero.reg();
            is_changed
        }
        None => false,
    }
}

fn raise_nonzero(r: &mut NonzeroReg) -> bool {
    match NonzeroReg::new(r.index() + 1) {
        Some(next) => {
            *r = next;
            true
        }
        None => false,
    }
}

fn last_in_slot(alloc: Global, block: &Block) -> Result<Option<Order>, AllocError> {
    let Some((last, others)) = block.insts().split_last() else {
        return Ok(None);
    };
    let mut insts = Vec::with_capacity(alloc, others.len())?;
    for inst in others {
        if !inst.is_nop() {
            insts.push(*inst)?;
        }
    }
    Ok(Order::new(insts, block.exit(), Some(*last)))
}
