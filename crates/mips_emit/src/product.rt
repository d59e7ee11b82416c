//! Products by a word that is one more or one less than a power of 2: a shift, and a sum or a difference.

#![tactic(auto, using(crate::proofs::Prefixes::prefix_behind, crate::proofs::Prefixes::prefix_among, crate::proofs::Prefixes::emits_behind))]

ghost use Rattle.std.specs.Prelude.{◌≡◌};
ghost use Rattle.mips_emit.specs.Locations.{FitsSource};
ghost use Rattle.mips_emit.specs.Code.{multiple, multiple_of, multiple_code};
ghost use Rattle.mips_emit.specs.Prefixes.{Emits};

use crate::constant::emit_one_or_two;
use crate::location::Source;
use crate::operation::is_power;
use crate::plain::{alu, shift};
use crate::transfer::{emit_fetch, operand_register};
use mips_homes::SCRATCH_2;
use mips_isa::{AluOp, NonzeroReg, Plain, Reg, ShiftOp};
use rtl::Op;
use std::alloc::AllocError;

/// How an operand is multiplied: it is shifted by an amount, and then an instruction adds it to that or takes it from that.
#[derive(Clone, Copy)]
pub(crate) struct ShiftedSum {
    pub(crate) op: AluOp,
    pub(crate) amount: u32,
}

/// Returns a product by this word, where one more or one less is a power of 2 and the word itself isn't.
fn multiple(word: u32) -> Option<ShiftedSum>
    ensures { result ≡ multiple word }
{
    let below = word.saturating_sub(1);
    let above = word.wrapping_add(1);
    if is_power(word) {
        None
    } else if is_power(below) {
        Some(ShiftedSum {
            op: AluOp::Addu,
            amount: below.trailing_zeros(),
        })
    } else if is_power(above) {
        Some(ShiftedSum {
            op: AluOp::Subu,
            amount: above.trailing_zeros(),
        })
    } else {
        None
    }
}

/// Returns how a product by what is known of one operand is made, where it takes a shift and a sum.
pub(crate) fn multiple_of(op: Op, known: Option<u32>) -> Option<ShiftedSum>
    ensures { result ≡ multiple_of op known }
{
    match op {
        Op::Mul => multiple(known?),
        _ => None,
    }
}

/// Emits such a product of an operand into a register, by way of another; an Err means out of memory.
pub(crate) fn emit_multiple(
    code: &mut Vec<Plain>,
    inner: NonzeroReg,
    rd: Reg,
    m: ShiftedSum,
    x: &Source,
) -> Result<(), AllocError>
    requires { FitsSource x.now }
    ensures { Emits result code.old.items (multiple_code inner rd m x.now) code.new.items }
{
    let shifted = Reg::masked(SCRATCH_2);
    let operand = operand_register(inner, x);
    emit_fetch(code, inner, x)?;
    let shift = shift(ShiftOp::Sll, shifted, operand, m.amount);
    emit_one_or_two(code, shift, Some(alu(m.op, rd, shifted, operand)))
}
