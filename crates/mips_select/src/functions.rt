//! The blocks for whole functions, one function after another.

ghost use Rattle.std.specs.Prelude.{◌≡◌, ◌+◌, ◌≤◌, ◌++◌, ◌∷◌, [], length, OnOk};
ghost use Rattle.mblock.specs.declared.limits.TheConstants.{UNIT_BLOCKS};
ghost use Rattle.mips_emit.specs.Frames.{IsReachable};
ghost use Rattle.mips_select.specs.Heads.{heads_in, namings_of, AreNamed};
ghost use Rattle.mips_select.specs.Plans.{linking_of, planning_of};
ghost use Rattle.mips_select.specs.Code.{start_block, end_block};
ghost use Rattle.mips_select.specs.Emittable.{AreEmittable, AreReachable, IsFunctionEmittable, AreFunctionsEmittable};
ghost use Rattle.mips_select.specs.Whole.{size_of_blocks, blocks_from, lead_blocks, function_size, functions_size, function_blocks};
ghost use Rattle.mips_select.specs.Whole.{functions_blocks};

use crate::code::emit_block;
use crate::heads::{Head, Naming, count_of, head_at, lead_in};
use crate::long::LongBlock;
use crate::numbers::{number, number_at, number_blocks};
use crate::plan::{Emitter, Linkage, Plan};
use crate::prologue::emit_prologue;
use crate::push::push;
use mblock::{BlockNumber, Exit};
use mips_emit::{emit_constant, emit_move};
use mips_homes::{Frame, GLOBAL_POINTER, is_leaf};
use mips_isa::{DATA_BASE, Reg};
use rtl::{RBlock, RFunc};
use std::alloc::{AllocError, Global};

// What the global pointer always holds: the middle of the first 65,536 bytes of data.
const DATA_MIDDLE: u32 = DATA_BASE + 32_768;

/// Emits the blocks for some blocks, the first of which has the number `first`.
fn emit_blocks(
    emitter: &mut Emitter,
    linkage: &Linkage<'_>,
    plan: &Plan<'_>,
    first: usize,
    blocks: &[RBlock],
) -> Result<(), AllocError>
    requires number { first + size_of_blocks (heads_in plan.now.table.now) blocks.now ≤ UNIT_BLOCKS }
    requires blocks { AreEmittable (length linkage.now.starts.now) blocks.now }
    ensures { OnOk result (emitter.new.blocks.items
        ≡ emitter.old.blocks.items ++ blocks_from (linking_of linkage.now) (planning_of plan.now) first 0 blocks.now) }
{
    let mut k = first;
    for j in 0..blocks.len() {
        let block = &blocks[j];
        emit_block(emitter, linkage, plan, k, j, block)?;
        k += count_of(plan.table, &block.exit);
    }
    Ok(())
}

/// Emits the prologue's block, where block 0 doesn't begin with it.
fn emit_lead(
    alloc: Global,
    out: &mut Vec<LongBlock>,
    plan: &Plan<'_>,
    head: Head,
) -> Result<(), AllocError>
    ensures { OnOk result (out.new.items ≡ out.old.items ++ lead_blocks (planning_of plan.now) head) }
{
    match head {
        Head::Enters => Ok(()),
        _ => {
            let mut insts = Vec::new(alloc);
            emit_prologue(&mut insts, plan.frame, plan.leaf, plan.parameters)?;
            let first = number_at(plan.places, 0);
            push(out, LongBlock::new(insts, Exit::Goto(first)))
        }
    }
}

/// Emits the blocks for a function, the first of which has the number k.
fn emit_function(
    emitter: &mut Emitter,
    linkage: &Linkage<'_>,
    frame: &Frame,
    table: &[Naming],
    k: usize,
    func: &RFunc,
) -> Result<(), AllocError>
    requires named { table.now ≡ namings_of func.now }
    requires number { k + function_size func.now ≤ UNIT_BLOCKS }
    requires frame { IsReachable frame.now }
    requires function { IsFunctionEmittable (length linkage.now.starts.now) func.now }
    ensures { OnOk result (emitter.new.blocks.items
        ≡ emitter.old.blocks.items ++ function_blocks (linking_of linkage.now) k func.now frame.now) }
{
    let blocks = func.blocks.as_slice();
    let first = k + lead_in(table);
    let numbers = number_blocks(linkage.alloc, table, first, blocks)?;
    let places = numbers.as_slice();
    let plan = Plan {
        frame,
        leaf: is_leaf(blocks),
        parameters: func.parameters,
        table,
        places,
    };
    emit_lead(linkage.alloc, &mut emitter.blocks, &plan, head_at(table, 0))?;
    emit_blocks(emitter, linkage, &plan, first, blocks)
}

/// Emits the blocks for all functions, after the two for start and end.
pub(crate) fn emit_functions(
    emitter: &mut Emitter,
    linkage: &Linkage<'_>,
    namings: &[Vec<Naming>],
    functions: &[RFunc],
    frames: &[Frame],
) -> Result<(), AllocError>
    requires named { AreNamed namings.now functions.now }
    requires behind { length emitter.old.blocks.items ≡ 2 }
    requires number { 2 + functions_size functions.now ≤ UNIT_BLOCKS }
    requires lengths { length frames.now ≡ length functions.now }
    requires frames { AreReachable frames.now }
    requires functions { AreFunctionsEmittable (length linkage.now.starts.now) functions.now }
    ensures { OnOk result (emitter.new.blocks.items
        ≡ emitter.old.blocks.items ++ functions_blocks (linking_of linkage.now) 2 functions.now frames.now) }
{
    for i in 0..functions.len() {
        let func = &functions[i];
        let frame = &frames[i];
        let table = namings[i].as_slice();
        let k = emitter.blocks.len();
        emit_function(emitter, linkage, frame, table, k, func)?;
    }
    Ok(())
}

/// Emits block 0, which sets the global pointer and calls the main function.
pub(crate) fn emit_start(
    alloc: Global,
    out: &mut Vec<LongBlock>,
    main: BlockNumber,
) -> Result<(), AllocError>
    ensures { OnOk result (out.new.items ≡ out.old.items ++ start_block main ∷ []) }
{
    let mut insts = Vec::new(alloc);
    emit_constant(&mut insts, Reg::masked(GLOBAL_POINTER), DATA_MIDDLE)?;
    let exit = Exit::Call {
        function: main,
        next: number(1),
    };
    push(out, LongBlock::new(insts, exit))
}

/// Emits block 1, which ends with the main function's result.
pub(crate) fn emit_end(alloc: Global, out: &mut Vec<LongBlock>) -> Result<(), AllocError>
    ensures { OnOk result (out.new.items ≡ out.old.items ++ end_block ∷ []) }
{
    let mut insts = Vec::new(alloc);
    emit_move(&mut insts, Reg::ARGUMENT, Reg::RESULT)?;
    push(out, LongBlock::new(insts, Exit::Halt))
}
