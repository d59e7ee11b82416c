//! Operators that are one with the exit after them: comparisons with a branch on their result, any with a return of it.

#![tactic(auto, using(crate::proofs::Prefixes::prefix_behind, crate::proofs::Prefixes::prefix_among, crate::proofs::Prefixes::emits_behind))]

ghost use Rattle.std.specs.Prelude.{◌≡◌, ◌++◌, ◌∷◌, [], Some};
ghost use Rattle.mblock.specs.declared.exit.Exit.TheVariants.{BranchPair, BranchZero};
ghost use Rattle.rtl.specs.declared.operator.Op.TheVariants.{LtS, LeS};
ghost use Rattle.mips_emit.specs.Frames.{IsReachable};
ghost use Rattle.mips_emit.specs.Locations.{facts_of, locations, FitsSource};
ghost use Rattle.mips_emit.specs.Comparisons.{is_known_zero, is_immediate, opposite_if, form_of, opposite_op, known_truth};
ghost use Rattle.mips_emit.specs.Comparisons.{comparison_code, comparison_exit, is_asked, form_for, is_caller_saved, returned};
ghost use Rattle.mips_emit.specs.Comparisons.{comparison_of, FitsComparison, tested};
ghost use Rattle.mips_emit.specs.Code.{fetch, nop};
ghost use Rattle.mips_emit.specs.Prefixes.{Emits};

use crate::constant::emit_one;
use crate::facts::Knowledge;
use crate::location::{Source, locate};
use crate::operation::{Operand, emit_after, emit_op, immediate_of, operand_with};
use crate::transfer::{emit_fetch, operand_register};
use mblock::{BlockNumber, Exit};
use mips_homes::{Frame, Home, SCRATCH_1, SCRATCH_3, is_callee_saved, register};
use mips_isa::{PairTest, Plain, Reg, ZeroTest};
use rtl::{Op, RInst, Register};
use std::alloc::AllocError;

/// How a branch tells the result of a comparison, or a return has that of an operator.
#[derive(Clone, Copy)]
pub enum Form {
    /// It is no branch: both operands are known, and so is whether the comparison holds.
    Known(bool),
    /// It tests both operands.
    OnPair(PairTest),
    /// It tests the sign of the left operand, where the right one is 0.
    OnLeft(ZeroTest),
    /// It tests the sign of the right operand, where the left one is 0.
    OnRight(ZeroTest),
    /// It tests the result, in the third scratch register.
    ByResult,
    /// It tests the result of the opposite comparison of turned operands, in the third scratch register.
    ByOpposite,
    /// No branch: the result is returned, in the result's register.
    InResult,
}

/// By which pseudo-register a block is left.
#[derive(Clone, Copy)]
pub enum Asked {
    /// By none.
    Nothing,
    /// By a branch on this one.
    Branched(Register),
    /// By a return of this one.
    Returned(Register),
}

/// An operator whose result nothing but the branch or return after it takes, so that it is in no home. It has the operands, and the words
/// of these that are known.
#[derive(Clone, Copy)]
pub struct Comparison {
    pub result: Register,
    pub op: Op,
    pub form: Form,
    pub left: Operand,
    pub right: Operand,
}

/// Says whether a word is known to be 0.
fn is_known_zero(known: Option<u32>) -> bool
    ensures { result ≡ is_known_zero known }
{
    matches!(known, Some(0))
}

/// Says whether an operator has this word in its instruction.
fn is_immediate(op: Op, known: Option<u32>) -> bool
    ensures { result ≡ is_immediate op known }
{
    immediate_of(op, register(SCRATCH_1).reg(), Reg::ZERO, known).is_some()
}

/// Returns the form by the opposite comparison, or by the comparison itself.
fn opposite_if(opposite: bool) -> Form
    ensures { result ≡ opposite_if opposite }
{
    if opposite {
        Form::ByOpposite
    } else {
        Form::ByResult
    }
}

/// Returns how a branch tells the result of a comparison, from what is known of its operands; None of another operator.
fn form_of(op: Op, left: Option<u32>, right: Option<u32>) -> Option<Form>
    ensures { result ≡ form_of op left right }
{
    match op {
        Op::Eq => Some(Form::OnPair(PairTest::Equal)),
        Op::Ne => Some(Form::OnPair(PairTest::NotEqual)),
        Op::LtS if is_known_zero(left) => Some(Form::OnRight(ZeroTest::AboveZero)),
        Op::LtS if is_known_zero(right) => Some(Form::OnLeft(ZeroTest::BelowZero)),
        Op::LtS => Some(opposite_if(is_immediate(Op::LeS, left))),
        Op::LtU => Some(opposite_if(is_immediate(Op::LeU, left))),
        Op::LeS if is_known_zero(right) => Some(Form::OnLeft(ZeroTest::AtMostZero)),
        Op::LeS if is_known_zero(left) => Some(Form::OnRight(ZeroTest::AtLeastZero)),
        Op::LeS => Some(opposite_if(!is_immediate(Op::LeS, right))),
        Op::LeU => Some(opposite_if(!is_immediate(Op::LeU, right))),
        _ => None,
    }
}

/// Says whether the result of an operator on known words isn't 0.
fn known_truth(op: Op, left: Option<u32>, right: Option<u32>) -> Option<bool>
    ensures { result ≡ known_truth op left right }
{
    let word = op.result(left?, right?)?;
    Some(word != 0)
}

/// Returns the comparison that holds of turned operands exactly if this one doesn't.
fn opposite_op(op: Op) -> Op
    ensures { result ≡ opposite_op op }
{
    match op {
        Op::LtS => Op::LeS,
        Op::LtU => Op::LeU,
        Op::LeS => Op::LtS,
        Op::LeU => Op::LtU,
        _ => op,
    }
}

/// Emits an operand into the third scratch register, or where it is, before a branch tests it.
fn emit_tested(code: &mut Vec<Plain>, x: &Source) -> Result<(), AllocError>
    requires { FitsSource x.now }
    ensures { Emits result code.old.items (fetch 3 x.now ++ nop ∷ []) code.new.items }
{
    emit_after(code, register(SCRATCH_3), x, Plain::nop(), None)
}

/// Emits what stands before the branch; an Err means out of memory.
pub(crate) fn emit_comparison(code: &mut Vec<Plain>, m: &Comparison) -> Result<(), AllocError>
    requires left { FitsSource m.now.left.source }
    requires right { FitsSource m.now.right.source }
    ensures { Emits result code.old.items (comparison_code m.now) code.new.items }
{
    let inner = register(SCRATCH_1);
    let rd = register(SCRATCH_3).reg();
    match m.form {
        Form::Known(_) => emit_one(code, Plain::nop()),
        Form::OnPair(_) => {
            emit_fetch(code, inner, &m.left.source)?;
            emit_tested(code, &m.right.source)
        }
        Form::OnLeft(_) => emit_tested(code, &m.left.source),
        Form::OnRight(_) => emit_tested(code, &m.right.source),
        Form::ByResult => emit_op(code, m.op, inner, rd, &m.left, &m.right),
        Form::ByOpposite => emit_op(code, opposite_op(m.op), inner, rd, &m.right, &m.left),
        Form::InResult => emit_op(code, m.op, inner, Reg::RESULT, &m.left, &m.right),
    }
}

/// Makes a branch on a register and 0.
fn on_truth(test: PairTest, rs: Reg, then: BlockNumber, other: BlockNumber) -> Exit
    ensures { result ≡ BranchPair test rs 0 then other }
{
    Exit::BranchPair {
        test,
        rs,
        rt: Reg::ZERO,
        then,
        other,
    }
}

/// Makes a branch on the sign of a register.
fn on_sign(test: ZeroTest, rs: Reg, then: BlockNumber, other: BlockNumber) -> Exit
    ensures { result ≡ BranchZero test rs then other }
{
    Exit::BranchZero {
        test,
        rs,
        then,
        other,
    }
}

/// Makes the branch to `then` where the comparison holds, else to `other`.
pub fn comparison_exit(m: &Comparison, then: BlockNumber, other: BlockNumber) -> Exit
    ensures { result ≡ comparison_exit m.now then other }
{
    let t = register(SCRATCH_3);
    let left = operand_register(t, &m.left.source);
    let right = operand_register(t, &m.right.source);
    let truth = t.reg();
    match m.form {
        Form::Known(holds) => Exit::Goto(if holds { then } else { other }),
        Form::OnPair(test) => Exit::BranchPair {
            test,
            rs: operand_register(register(SCRATCH_1), &m.left.source),
            rt: right,
            then,
            other,
        },
        Form::OnLeft(test) => on_sign(test, left, then, other),
        Form::OnRight(test) => on_sign(test, right, then, other),
        Form::ByResult => on_truth(PairTest::NotEqual, truth, then, other),
        Form::ByOpposite => on_truth(PairTest::Equal, truth, then, other),
        Form::InResult => on_truth(PairTest::NotEqual, Reg::RESULT, then, other),
    }
}

/// Says whether the exit after it goes by this result.
fn is_asked(asked: Asked, d: Register) -> bool
    ensures { result ≡ is_asked asked d }
{
    matches!(asked, Asked::Branched(c) | Asked::Returned(c) if c == d)
}

/// Returns how an exit takes the result of an operator, if it does; a comparison of known words isn't made.
fn form_for(asked: Asked, op: Op, left: Option<u32>, right: Option<u32>) -> Option<Form>
    ensures { result ≡ form_for asked op left right }
{
    match asked {
        Asked::Nothing => None,
        Asked::Branched(_) => {
            let form = form_of(op, left, right)?;
            Some(known_truth(op, left, right).map_or(form, Form::Known))
        }
        Asked::Returned(_) => Some(Form::InResult),
    }
}

/// Says whether no other block reads a home.
fn is_caller_saved(place: Option<Home>) -> bool
    ensures { result ≡ is_caller_saved place }
{
    match place {
        Some(home) => matches!(home, Home::Reg(r) if !is_callee_saved(r.index())),
        None => false,
    }
}

/// Returns the comparison that an instruction is, if it is one with the exit after it, which goes by the pseudo-register asked for.
pub(crate) fn comparison_of(
    facts: &Knowledge,
    frame: &Frame,
    asked: Asked,
    inst: &RInst,
) -> Option<Comparison>
    requires { IsReachable frame.now }
    ensures value { result ≡ comparison_of (locations frame.now) (facts_of facts.now) asked inst.now }
    ensures fits { FitsComparison result }
{
    match inst {
        RInst::Bin(op, d, a, b) if is_asked(asked, *d) && is_caller_saved(locate(frame, *d)) => {
            let left = operand_with(facts, frame, *a);
            let right = operand_with(facts, frame, *b);
            let form = form_for(asked, *op, left.known, right.known)?;
            Some(Comparison {
                result: *d,
                op: *op,
                form,
                left,
                right,
            })
        }
        _ => None,
    }
}

/// Returns the comparison whose result a pseudo-register is.
pub fn tested(comparison: &Option<Comparison>, c: Register) -> Option<Comparison>
    ensures { result ≡ tested comparison.now c }
{
    match comparison {
        None => None,
        Some(m) => { if m.result == c { Some(*m) } else { None } }
    }
}

/// Says whether a pseudo-register is in the result's register already.
pub fn returned(comparison: &Option<Comparison>, x: Register) -> bool
    ensures { result ≡ returned comparison.now x }
{
    matches!(comparison, Some(m) if matches!(m.form, Form::InResult) && m.result == x)
}
