//! Words and words of the frame, into registers.

#![tactic(auto, using(crate::proofs::Prefixes::prefix_behind, crate::proofs::Prefixes::prefix_among, crate::proofs::Prefixes::emits_behind))]

ghost use Rattle.std.specs.Prelude.{◌≤◌, ◌∷◌, []};
ghost use Rattle.mips_emit.specs.declared.limits.TheConstants.{FRAME_BYTES};
ghost use Rattle.mips_emit.specs.Code.{one_or_two, constant, li, load_word_at, store_word_at, move_code};
ghost use Rattle.mips_emit.specs.Prefixes.{Emits};

use crate::plain::{alu, imm, is_small, load_upper, logic};
use mips_homes::STACK_POINTER;
use mips_isa::{AluOp, ImmOp, LogicOp, NonzeroReg, Plain, Reg};
use std::alloc::AllocError;
use words::Width;

/// Emits one instruction; an Err means out of memory.
pub(crate) fn emit_one(code: &mut Vec<Plain>, inst: Plain) -> Result<(), AllocError>
    ensures { Emits result code.old.items (inst ∷ []) code.new.items }
{
    code.push(inst)?;
    Ok(())
}

/// Emits one or two instructions; an Err means out of memory.
pub(crate) fn emit_one_or_two(
    code: &mut Vec<Plain>,
    first: Plain,
    second: Option<Plain>,
) -> Result<(), AllocError>
    ensures { Emits result code.old.items (one_or_two first second) code.new.items }
{
    emit_one(code, first)?;
    match second {
        None => Ok(()),
        Some(inst) => emit_one(code, inst),
    }
}

/// Emits a word of the frame into a register; an Err means out of memory.
pub fn emit_load_word(code: &mut Vec<Plain>, rt: NonzeroReg, offset: u32) -> Result<(), AllocError>
    requires { offset ≤ FRAME_BYTES }
    ensures { Emits result code.old.items (load_word_at rt offset ∷ []) code.new.items }
{
    let inst = Plain::Load {
        width: Width::Word,
        rt,
        base: Reg::masked(STACK_POINTER),
        offset: offset as i16,
    };
    emit_one(code, inst)
}

/// Emits a register into a word of the frame; an Err means out of memory.
pub fn emit_store_word(code: &mut Vec<Plain>, rt: Reg, offset: u32) -> Result<(), AllocError>
    requires { offset ≤ FRAME_BYTES }
    ensures { Emits result code.old.items (store_word_at rt offset ∷ []) code.new.items }
{
    let inst = Plain::Store {
        width: Width::Word,
        rt,
        base: Reg::masked(STACK_POINTER),
        offset: offset as i16,
    };
    emit_one(code, inst)
}

/// Emits one register into another; an Err means out of memory.
pub fn emit_move(code: &mut Vec<Plain>, rd: Reg, rs: Reg) -> Result<(), AllocError>
    ensures { Emits result code.old.items (move_code rd rs ∷ []) code.new.items }
{
    emit_one(code, alu(AluOp::Addu, rd, rs, Reg::ZERO))
}

/// Emits a word into a register, in two instructions; an Err means out of memory.
pub fn emit_constant(code: &mut Vec<Plain>, rt: Reg, word: u32) -> Result<(), AllocError>
    ensures { Emits result code.old.items (constant rt word) code.new.items }
{
    let lower = logic(LogicOp::Ori, rt, rt, (word % 65_536) as u16);
    emit_one_or_two(code, load_upper(rt, word), Some(lower))
}

/// Emits a word into a register, as short as it can be.
pub(crate) fn emit_li(code: &mut Vec<Plain>, rt: Reg, word: u32) -> Result<(), AllocError>
    ensures { Emits result code.old.items (li rt word) code.new.items }
{
    if is_small(word) {
        emit_one(code, imm(ImmOp::Addiu, rt, Reg::ZERO, word))
    } else if word < 65_536 {
        emit_one(code, logic(LogicOp::Ori, rt, Reg::ZERO, word as u16))
    } else if word % 65_536 == 0 {
        emit_one(code, load_upper(rt, word))
    } else {
        emit_constant(code, rt, word)
    }
}
