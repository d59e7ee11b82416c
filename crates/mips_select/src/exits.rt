//! How blocks are left.

ghost use Rattle.std.specs.Prelude.{◌≡◌, ◌+◌, ◌≤◌, ◌++◌, IfOk, OnOk};
ghost use Rattle.mblock.specs.declared.limits.TheConstants.{UNIT_BLOCKS};
ghost use Rattle.mips_emit.specs.Frames.{IsReachable};
ghost use Rattle.mips_emit.specs.Locations.{facts_of, known_in, locations, last_operand};
ghost use Rattle.mips_emit.specs.Comparisons.{tested, branch_code, branch_exit, returned, return_code};
ghost use Rattle.mips_select.specs.Heads.{heads_in, count};
ghost use Rattle.mips_select.specs.Plans.{linking_of, planning_of};
ghost use Rattle.mips_select.specs.Code.{asked_of, exit_code, exit_of};
ghost use Rattle.mips_select.specs.Emittable.{HasFewArguments};
ghost use Rattle.mips_select.specs.Whole.{next_of};

use crate::heads::{head_at, resumes};
use crate::numbers::{number, number_at};
use crate::plan::{Linkage, Plan};
use crate::prologue::emit_epilogue;
use mblock::{BlockNumber, Exit};
use mips_emit::{
    Asked, Knowledge, Last, comparison_exit, emit_arguments, emit_departure, emit_fetch,
    known_word, last_operand, operand_register, returned, tested,
};
use mips_homes::{FIRST_ARGUMENT, Frame, RESULT, SCRATCH_1, register};
use mips_isa::{PairTest, Plain, Reg};
use rtl::{RExit, Register};
use std::alloc::AllocError;

/// Has what is known where a block is left: words of pseudo-registers, and what its last instruction left.
#[derive(Clone, Copy)]
pub(crate) struct Known<'a> {
    pub(crate) facts: &'a Knowledge,
    pub(crate) last: Last,
}

/// Returns where the call at the end of block k goes on.
pub(crate) fn next_at(plan: &Plan<'_>, k: usize, exit: &RExit) -> BlockNumber
    requires { k + count (heads_in plan.now.table.now) exit.now ≤ UNIT_BLOCKS }
    ensures { result ≡ next_of (planning_of plan.now) k exit.now }
{
    match exit {
        RExit::Call(_, _, d, next) => {
            if resumes(*d, head_at(plan.table, *next as usize)) {
                number_at(plan.places, *next)
            } else {
                number(k + 1)
            }
        }
        _ => number(0),
    }
}

/// Returns the pseudo-register by which a block is left.
pub(crate) fn asked_of(exit: &RExit) -> Asked
    ensures { result ≡ asked_of exit.now }
{
    match exit {
        RExit::Branch(c, _, _) => Asked::Branched(*c),
        RExit::Return(Some(x)) => Asked::Returned(*x),
        _ => Asked::Nothing,
    }
}

/// Emits a branch to `then` if a pseudo-register isn't 0, else to `other`, and returns the exit.
fn emit_branch(
    code: &mut Vec<Plain>,
    known: &Known<'_>,
    frame: &Frame,
    c: Register,
    then: BlockNumber,
    other: BlockNumber,
) -> Result<Exit, AllocError>
    requires { IsReachable frame.now }
    ensures code { OnOk result (code.new.items ≡ code.old.items ++ branch_code (tested known.now.last.comparison c)
        (known_in (facts_of known.now.facts.now) c)
        (last_operand (locations frame.now) (facts_of known.now.facts.now) known.now.last.fresh c)) }
    ensures exit { IfOk result (λ x. x ≡ branch_exit (tested known.now.last.comparison c)
        (known_in (facts_of known.now.facts.now) c)
        (last_operand (locations frame.now) (facts_of known.now.facts.now) known.now.last.fresh c) then other) }
{
    if let Some(m) = tested(&known.last.comparison, c) {
        return Ok(comparison_exit(&m, then, other));
    }
    if let Some(word) = known_word(known.facts, c) {
        return Ok(Exit::Goto(if word == 0 { other } else { then }));
    }
    let operand = last_operand(known.facts, known.last.fresh, frame, c);
    emit_fetch(code, register(SCRATCH_1), &operand)?;
    Ok(Exit::BranchPair {
        test: PairTest::NotEqual,
        rs: operand_register(register(SCRATCH_1), &operand),
        rt: Reg::ZERO,
        then,
        other,
    })
}

/// Emits a pseudo-register into the result's register, except where it is there already.
fn emit_returned(
    code: &mut Vec<Plain>,
    known: &Known<'_>,
    frame: &Frame,
    x: Register,
) -> Result<(), AllocError>
    requires { IsReachable frame.now }
    ensures { OnOk result (code.new.items ≡ code.old.items ++ return_code (returned known.now.last.comparison x)
        (last_operand (locations frame.now) (facts_of known.now.facts.now) known.now.last.fresh x)) }
{
    let facts = known.facts;
    if returned(&known.last.comparison, x) {
        return Ok(());
    }
    emit_departure(code, facts, known.last.fresh, frame, register(RESULT), x)
}

/// Emits what stands before the exit of a block, whose call goes on at `next`, and returns the exit.
pub(crate) fn emit_exit(
    code: &mut Vec<Plain>,
    known: &Known<'_>,
    linkage: &Linkage<'_>,
    plan: &Plan<'_>,
    next: BlockNumber,
    exit: &RExit,
) -> Result<Exit, AllocError>
    requires few { HasFewArguments exit.now }
    ensures code { OnOk result (code.new.items ≡ code.old.items
        ++ exit_code plan.now.leaf plan.now.frame.now (facts_of known.now.facts.now) known.now.last exit.now) }
    ensures exit { IfOk result (λ x. x ≡ exit_of (linking_of linkage.now) (planning_of plan.now).placing
        (facts_of known.now.facts.now) known.now.last next exit.now) }
{
    let frame = plan.frame;
    let facts = known.facts;
    match exit {
        RExit::Goto(b) => Ok(Exit::Goto(number_at(plan.places, *b))),
        RExit::Branch(c, then, other) => {
            let then = number_at(plan.places, *then);
            let other = number_at(plan.places, *other);
            emit_branch(code, known, frame, *c, then, other)
        }
        RExit::Call(g, xs, _, _) => {
            emit_arguments(code, facts, frame, xs.as_slice())?;
            Ok(Exit::Call {
                function: number_at(linkage.entries, *g),
                next,
            })
        }
        RExit::Return(None) => {
            emit_epilogue(code, frame, plan.leaf)?;
            Ok(Exit::Return)
        }
        RExit::Return(Some(x)) => {
            emit_returned(code, known, frame, *x)?;
            emit_epilogue(code, frame, plan.leaf)?;
            Ok(Exit::Return)
        }
        RExit::Out(x, next) => {
            let fresh = known.last.fresh;
            emit_departure(code, facts, fresh, frame, register(FIRST_ARGUMENT), *x)?;
            Ok(Exit::Out(number_at(plan.places, *next)))
        }
    }
}
