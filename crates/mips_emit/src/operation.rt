//! Operators: on two registers, and on a register and a word.

#![tactic(auto, using(crate::proofs::Prefixes::prefix_behind, crate::proofs::Prefixes::prefix_among, crate::proofs::Prefixes::emits_behind))]

ghost use Rattle.std.specs.Prelude.{◌≡◌, ℕ, ◌++◌, ◌∷◌, [], nat_lt, take, drop, if◌then◌else◌, Some, None};
ghost use Rattle.std.specs.Option.{option_to_list};
ghost use Rattle.mips_isa.specs.declared.inst.Plain.TheVariants.{ShiftBy, Imm, Logic, Divide};
ghost use Rattle.mips_emit.specs.Frames.{IsReachable};
ghost use Rattle.mips_emit.specs.Locations.{FitsSource, facts_of, locations};
ghost use Rattle.mips_emit.specs.Code.{is_small, half, fetch, one_or_two, operation, is_power, immediate, immediate_of, is_symmetric};
ghost use Rattle.mips_emit.specs.Code.{turned_immediate_of, turned_less_of, code_by_word, operand_with, op_code};
ghost use Rattle.mips_emit.specs.Prefixes.{Emits};

use crate::constant::emit_one_or_two;
use crate::facts::{Knowledge, known_word, operand_by};
use crate::location::Source;
use crate::plain::{alu, imm, is_small, logic, shift};
use crate::product::{emit_multiple, multiple_of};
use crate::transfer::{emit_fetch, operand_register};
use mips_homes::{Frame, SCRATCH_2, register};
use mips_isa::{AluOp, HiLo, ImmOp, LogicOp, NonzeroReg, Plain, Reg, ShiftOp};
use rtl::{Op, Register};
use std::alloc::AllocError;
use words::Sign;

/// Returns a shift by a register.
fn shift_by(op: ShiftOp, rd: Reg, rt: Reg, rs: Reg) -> Plain
    ensures { result ≡ ShiftBy op rd rt rs }
{
    Plain::ShiftBy { op, rd, rt, rs }
}

/// Returns an instruction with a word that fits its 16 bits, signed, else none.
fn if_small(op: ImmOp, rt: Reg, rs: Reg, word: u32) -> Option<Plain>
    ensures { result ≡ (if is_small word then Some (Imm op rt rs (half word)) else None) }
{
    if is_small(word) {
        Some(imm(op, rt, rs, word))
    } else {
        None
    }
}

/// Returns an instruction with a word below 2^16, else none.
fn if_half(op: LogicOp, rt: Reg, rs: Reg, word: u32) -> Option<Plain>
    ensures { result ≡ (if nat_lt word 65536 then Some (Logic op rt rs word) else None) }
{
    if word < 65_536 {
        Some(logic(op, rt, rs, word as u16))
    } else {
        None
    }
}

/// Returns a division.
fn division(sign: Sign, rs: Reg, rt: Reg) -> Plain
    ensures { result ≡ Divide sign rs rt }
{
    Plain::Divide { sign, rs, rt }
}

/// Returns the first instruction of an operator on two registers.
fn first_of(op: Op, rd: Reg, rs: Reg, rt: Reg) -> Plain
    ensures { take 1 (operation op rd rs rt) ≡ result ∷ [] }
{
    match op {
        Op::Add => alu(AluOp::Addu, rd, rs, rt),
        Op::Sub | Op::Eq | Op::Ne => alu(AluOp::Subu, rd, rs, rt),
        Op::Mul => Plain::Multiply {
            sign: Sign::Unsigned,
            rs,
            rt,
        },
        Op::DivS | Op::RemS => division(Sign::Signed, rs, rt),
        Op::DivU | Op::RemU => division(Sign::Unsigned, rs, rt),
        Op::And => alu(AluOp::And, rd, rs, rt),
        Op::Or => alu(AluOp::Or, rd, rs, rt),
        Op::Xor => alu(AluOp::Xor, rd, rs, rt),
        Op::Shl => shift_by(ShiftOp::Sll, rd, rs, rt),
        Op::ShrU => shift_by(ShiftOp::Srl, rd, rs, rt),
        Op::ShrS => shift_by(ShiftOp::Sra, rd, rs, rt),
        Op::LtS => alu(AluOp::Slt, rd, rs, rt),
        Op::LtU => alu(AluOp::Sltu, rd, rs, rt),
        Op::LeS => alu(AluOp::Slt, rd, rt, rs),
        Op::LeU => alu(AluOp::Sltu, rd, rt, rs),
    }
}

/// Returns the second instruction, where the operator takes two. It gives the result of a product or division, or a test of order turned,
/// or a test of equality by the difference.
fn second_of(op: Op, rd: Reg) -> Option<Plain>
    ensures { (a b : ℕ) → drop 1 (operation op rd a b) ≡ option_to_list result }
{
    match op {
        Op::Mul | Op::DivS | Op::DivU => Some(Plain::MoveFrom {
            place: HiLo::Lo,
            rd,
        }),
        Op::RemS | Op::RemU => Some(Plain::MoveFrom {
            place: HiLo::Hi,
            rd,
        }),
        Op::Eq => Some(imm(ImmOp::Sltiu, rd, rd, 1)),
        Op::Ne => Some(alu(AluOp::Sltu, rd, Reg::ZERO, rd)),
        Op::LeS | Op::LeU => Some(logic(LogicOp::Xori, rd, rd, 1)),
        _ => None,
    }
}

/// Reports whether a word is a power of 2.
pub(crate) fn is_power(word: u32) -> bool
    ensures { result ≡ is_power word }
{
    1 << (word.trailing_zeros() % 32) == word
}

/// Returns an operator on a register and a word in one instruction, if there is one.
fn immediate(op: Op, rd: Reg, rs: Reg, word: u32) -> Option<Plain>
    ensures { result ≡ immediate op rd rs word }
{
    match op {
        Op::Add => if_small(ImmOp::Addiu, rd, rs, word),
        Op::Sub => if_small(ImmOp::Addiu, rd, rs, 0u32.wrapping_sub(word)),
        Op::And => if_half(LogicOp::Andi, rd, rs, word),
        Op::Or => if_half(LogicOp::Ori, rd, rs, word),
        // (an exclusive or with a word whose bits are all set is a complement)
        Op::Xor if word == 4_294_967_295 => Some(alu(AluOp::Nor, rd, rs, Reg::ZERO)),
        Op::Xor => if_half(LogicOp::Xori, rd, rs, word),
        Op::Shl => Some(shift(ShiftOp::Sll, rd, rs, word)),
        Op::ShrU => Some(shift(ShiftOp::Srl, rd, rs, word)),
        Op::ShrS => Some(shift(ShiftOp::Sra, rd, rs, word)),
        Op::Eq if word == 0 => Some(imm(ImmOp::Sltiu, rd, rs, 1)),
        Op::Ne if word == 0 => Some(alu(AluOp::Sltu, rd, Reg::ZERO, rs)),
        Op::LtS => if_small(ImmOp::Slti, rd, rs, word),
        Op::LtU => if_small(ImmOp::Sltiu, rd, rs, word),
        Op::LeS => if_small(ImmOp::Slti, rd, rs, word.wrapping_add(1)),
        Op::LeU if word != 4_294_967_295 => { if_small(ImmOp::Sltiu, rd, rs, word.wrapping_add(1)) }
        Op::Mul if is_power(word) => Some(shift(ShiftOp::Sll, rd, rs, word.trailing_zeros())),
        Op::DivU if is_power(word) => Some(shift(ShiftOp::Srl, rd, rs, word.trailing_zeros())),
        Op::RemU if is_power(word) => if_half(LogicOp::Andi, rd, rs, word.saturating_sub(1)),
        _ => None,
    }
}

/// Reports whether an operator gives the same on turned operands.
fn is_symmetric(op: Op) -> bool
    ensures { result ≡ is_symmetric op }
{
    matches!(
        op,
        Op::Add | Op::And | Op::Or | Op::Xor | Op::Eq | Op::Ne | Op::Mul
    )
}

/// Returns an operator on a register and what is known of the other operand.
pub(crate) fn immediate_of(op: Op, rd: Reg, rs: Reg, known: Option<u32>) -> Option<Plain>
    ensures { result ≡ immediate_of op rd rs known }
{
    immediate(op, rd, rs, known?)
}

/// Returns the same with the known operand on the left.
fn turned_immediate_of(op: Op, rd: Reg, rt: Reg, known: Option<u32>) -> Option<Plain>
    ensures { result ≡ turned_immediate_of op rd rt known }
{
    if is_symmetric(op) {
        immediate_of(op, rd, rt, known)
    } else {
        None
    }
}

/// Returns a word on the left of a test that is then turned.
fn turned_less_of(op: Op, rd: Reg, rt: Reg, known: Option<u32>) -> Option<Plain>
    ensures { result ≡ turned_less_of op rd rt known }
{
    match op {
        Op::LeS => immediate_of(Op::LtS, rd, rt, known),
        Op::LeU => immediate_of(Op::LtU, rd, rt, known),
        _ => None,
    }
}

/// An operand with what is known of it.
#[derive(Clone, Copy)]
pub struct Operand {
    pub known: Option<u32>,
    pub source: Source,
}

/// Returns a pseudo-register as an operand, with what is known of it.
#[inline(always)]
pub(crate) fn operand_with(facts: &Knowledge, frame: &Frame, x: Register) -> Operand
    requires { IsReachable frame.now }
    ensures value { result ≡ operand_with (locations frame.now) (facts_of facts.now) x }
    ensures fits { FitsSource result.source }
{
    let known = known_word(facts, x);
    Operand {
        known,
        source: operand_by(facts, frame, x, known),
    }
}

/// Emits one or two instructions, after the operand that they fetch; an Err means out of memory.
pub(crate) fn emit_after(
    code: &mut Vec<Plain>,
    t: NonzeroReg,
    x: &Source,
    first: Plain,
    second: Option<Plain>,
) -> Result<(), AllocError>
    requires { FitsSource x.now }
    ensures { Emits result code.old.items (fetch t x.now ++ one_or_two first second) code.new.items }
{
    emit_fetch(code, t, x)?;
    emit_one_or_two(code, first, second)
}

/// Emits an operator by a word on its right if it can be, else by one on its left, or on the left of a test that is then turned, else on
/// two registers.
fn emit_by_word(
    code: &mut Vec<Plain>,
    op: Op,
    inner: NonzeroReg,
    rd: Reg,
    x: &Operand,
    y: &Operand,
) -> Result<(), AllocError>
    requires left { FitsSource x.now.source }
    requires right { FitsSource y.now.source }
    ensures { Emits result code.old.items (code_by_word op inner rd x.now y.now) code.new.items }
{
    let t = register(SCRATCH_2);
    let rs = operand_register(inner, &x.source);
    let rt = operand_register(t, &y.source);
    if let Some(first) = immediate_of(op, rd, rs, y.known) {
        return emit_after(code, inner, &x.source, first, None);
    }
    if let Some(first) = turned_immediate_of(op, rd, rt, x.known) {
        return emit_after(code, t, &y.source, first, None);
    }
    if let Some(first) = turned_less_of(op, rd, rt, x.known) {
        let second = logic(LogicOp::Xori, rd, rd, 1);
        return emit_after(code, t, &y.source, first, Some(second));
    }
    emit_fetch(code, inner, &x.source)?;
    emit_after(
        code,
        t,
        &y.source,
        first_of(op, rd, rs, rt),
        second_of(op, rd),
    )
}

/// Emits an operator into a register, the left operand by way of the inner temporary; an Err means out of memory.
#[inline(always)]
pub(crate) fn emit_op(
    code: &mut Vec<Plain>,
    op: Op,
    inner: NonzeroReg,
    rd: Reg,
    x: &Operand,
    y: &Operand,
) -> Result<(), AllocError>
    requires left { FitsSource x.now.source }
    requires right { FitsSource y.now.source }
    ensures { Emits result code.old.items (op_code op inner rd x.now y.now) code.new.items }
{
    if let Some(m) = multiple_of(op, y.known) {
        return emit_multiple(code, inner, rd, m, &x.source);
    }
    if let Some(m) = multiple_of(op, x.known) {
        return emit_multiple(code, inner, rd, m, &y.source);
    }
    emit_by_word(code, op, inner, rd, x, y)
}
