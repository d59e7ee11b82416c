//! The blocks for the blocks of a function.

ghost use Rattle.std.specs.Prelude.{◌≡◌, ◌+◌, ◌≤◌, ◌++◌, [], length, IfOk, OnOk};
ghost use Rattle.mblock.specs.declared.limits.TheConstants.{UNIT_BLOCKS};
ghost use Rattle.mips_emit.specs.Frames.{IsReachable};
ghost use Rattle.mips_emit.specs.Locations.{locations};
ghost use Rattle.mips_select.specs.Heads.{heads_in, count};
ghost use Rattle.mips_select.specs.Code.{result_code, head_code, own_block};
ghost use Rattle.mips_select.specs.Emittable.{IsEmittable};
ghost use Rattle.mips_select.specs.Plans.{linking_of, planning_of};
ghost use Rattle.mips_select.specs.Whole.{behind, blocks_for};

use crate::exits::{Known, asked_of, emit_exit, next_at};
use crate::heads::{Head, head_at, resumes};
use crate::long::LongBlock;
use crate::numbers::number_at;
use crate::plan::{Emitter, Linkage, Plan};
use crate::prologue::emit_prologue;
use crate::push::push;
use mblock::{BlockNumber, Exit};
use mips_emit::{Comparison, Knowledge, Last, Setting, emit_arrival, emit_insts};
use mips_homes::{Frame, RESULT, register};
use mips_isa::Plain;
use rtl::{RBlock, RExit, Register};
use std::alloc::{AllocError, Global};

/// Emits the result of a call into its location, if it is wanted.
fn emit_result(code: &mut Vec<Plain>, frame: &Frame, to: Option<Register>) -> Result<(), AllocError>
    requires { IsReachable frame.now }
    ensures { OnOk result (code.new.items ≡ code.old.items ++ result_code (locations frame.now) to) }
{
    match to {
        Some(d) => emit_arrival(code, frame, register(RESULT), d),
        None => Ok(()),
    }
}

/// Emits what stands before a block's own code.
fn emit_head(code: &mut Vec<Plain>, plan: &Plan<'_>, head: Head) -> Result<(), AllocError>
    ensures { OnOk result (code.new.items ≡ code.old.items ++ head_code (planning_of plan.now) head) }
{
    match head {
        Head::Bare => Ok(()),
        Head::Enters => emit_prologue(code, plan.frame, plan.leaf, plan.parameters),
        Head::Takes(d) => emit_result(code, plan.frame, Some(d)),
    }
}

/// Emits a block's own code, and returns how it is left.
fn emit_own(
    code: &mut Vec<Plain>,
    facts: &mut Knowledge,
    linkage: &Linkage<'_>,
    plan: &Plan<'_>,
    next: BlockNumber,
    block: &RBlock,
) -> Result<Exit, AllocError>
    requires block { IsEmittable (length linkage.now.starts.now) block.now }
    ensures code { OnOk result (code.new.items ≡ code.old.items
        ++ (own_block (linking_of linkage.now) (planning_of plan.now).placing [] next block.now).insts) }
    ensures exit { IfOk result (λ x. x ≡ (own_block (linking_of linkage.now) (planning_of plan.now).placing [] next block.now).exit) }
{
    facts.clear();
    let setting = Setting {
        globals: linkage.globals,
        starts: linkage.starts,
        frame: plan.frame,
    };
    let last = emit_insts(
        code,
        facts,
        &setting,
        asked_of(&block.exit),
        block.insts.as_slice(),
    )?;
    // (rattle 13f: handing on `last` itself ends in "it was not told which modules hold the type": CONTRIBUTING.md)
    let fresh = last.fresh;
    let comparison: Option<Comparison> = last.comparison;
    let known = Known {
        facts,
        last: Last { fresh, comparison },
    };
    emit_exit(code, &known, linkage, plan, next, &block.exit)
}

/// Returns for how many instructions there is room at once, as most blocks need: a list that grows is copied at each step.
fn room_for(count: usize) -> usize {
    count.saturating_add(count / 2).saturating_add(2)
}

/// Makes the block for a block.
fn block_for(
    facts: &mut Knowledge,
    linkage: &Linkage<'_>,
    plan: &Plan<'_>,
    head: Head,
    next: BlockNumber,
    block: &RBlock,
) -> Result<LongBlock, AllocError>
    requires block { IsEmittable (length linkage.now.starts.now) block.now }
    ensures { IfOk result (λ b. b ≡ own_block (linking_of linkage.now) (planning_of plan.now).placing (head_code (planning_of plan.now) head)
        next block.now) }
{
    let mut insts = Vec::with_capacity(linkage.alloc, room_for(block.insts.len()))?;
    emit_head(&mut insts, plan, head)?;
    let exit = emit_own(&mut insts, facts, linkage, plan, next, block)?;
    Ok(LongBlock::new(insts, exit))
}

/// Emits the block after a call, if there is one.
fn emit_behind(
    alloc: Global,
    out: &mut Vec<LongBlock>,
    plan: &Plan<'_>,
    exit: &RExit,
) -> Result<(), AllocError>
    ensures { OnOk result (out.new.items ≡ out.old.items ++ behind (planning_of plan.now) exit.now) }
{
    match exit {
        RExit::Call(_, _, to, next) if !resumes(*to, head_at(plan.table, *next as usize)) => {
            let mut insts = Vec::new(alloc);
            emit_result(&mut insts, plan.frame, *to)?;
            let exit = Exit::Goto(number_at(plan.places, *next));
            push(out, LongBlock::new(insts, exit))
        }
        _ => Ok(()),
    }
}

/// Emits the blocks for block j, the first of which has the number k.
pub(crate) fn emit_block(
    emitter: &mut Emitter,
    linkage: &Linkage<'_>,
    plan: &Plan<'_>,
    k: usize,
    j: usize,
    block: &RBlock,
) -> Result<(), AllocError>
    requires number { k + count (heads_in plan.now.table.now) block.now.exit ≤ UNIT_BLOCKS }
    requires block { IsEmittable (length linkage.now.starts.now) block.now }
    ensures { OnOk result (emitter.new.blocks.items
        ≡ emitter.old.blocks.items ++ blocks_for (linking_of linkage.now) (planning_of plan.now) k j block.now) }
{
    let head = head_at(plan.table, j);
    let next = next_at(plan, k, &block.exit);
    let first = block_for(&mut emitter.facts, linkage, plan, head, next, block)?;
    push(&mut emitter.blocks, first)?;
    emit_behind(linkage.alloc, &mut emitter.blocks, plan, &block.exit)
}
