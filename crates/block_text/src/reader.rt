//! The whole text, line by line.
ghost use Rattle.std.specs.Prelude.{◌≡◌, ◌≤◌, ◌^◌, length, IfOk, IfErr, IfSome, MatchResult, Some, true};
ghost use Rattle.mips_isa.specs.declared.inst.Plain.{Plain};
ghost use Rattle.mblock.specs.declared.limits.TheConstants.{BLOCK_INSTS, ORDER_INSTS};
ghost use Rattle.mblock.specs.Parts.{BlockParts, OrderParts};
ghost use Rattle.mblock.specs.Slots.{is_slotted};
ghost use Rattle.block_text.specs.Lines.{lines_of};
ghost use Rattle.block_text.specs.Whole.{SpellsPair, SpellsSlot};
ghost use Rattle.block_text.specs.StageParts.{LeadsTo, AtBlock, InBlock, AtOrder, InOrder, AtSlot, Done};
ghost use Rattle.block_text.specs.Stages.{stage_parts, parts_after, Fits};
ghost use Rattle.block_text.specs.Faults.{IsPairFault};

use crate::cuts::first_line;
use crate::fault::PairFault;
use crate::line::{exit_of, plain_of};
use crate::stage::Stage;
use mblock::{BLOCK_INSTS, Block, Exit, ORDER_INSTS, Order};
use mips_isa::Plain;
use std::alloc::{AllocError, Global};

/// A block, and an order that is proposed for it.
#[derive(Drop)]
pub struct Text {
    pub block: Block,
    pub order: Order,
}

fn slot_of(line: &[u8]) -> Option<Plain>
    ensures found { IfSome result (SpellsSlot line.now) }
    ensures only { (i : Plain) → SpellsSlot line.now i → result ≡ Some i }
{
    plain_of(line.strip_prefix(b"slot ")?)
}

fn in_block(mut insts: Vec<Plain>, line: &[u8]) -> Result<Option<Stage>, AllocError>
    requires { length insts.items ≤ BLOCK_INSTS }
    ensures leads { IfOk result (λ r. LeadsTo (InBlock insts.items) line.now (parts_after r)) }
    ensures fits { IfOk result (λ r. IfSome r Fits) }
{
    if let Some(exit) = exit_of(line) {
        return match Block::new(insts, exit) {
            Some(block) => Ok(Some(Stage::AtOrder(block))),
            None => Ok(None),
        };
    }
    match plain_of(line) {
        None => Ok(None),
        Some(inst) => {
            if insts.len() >= BLOCK_INSTS {
                return Ok(None);
            }
            insts.push(inst)?;
            Ok(Some(Stage::InBlock(insts)))
        }
    }
}

fn in_order(block: Block, mut insts: Vec<Plain>, line: &[u8]) -> Result<Option<Stage>, AllocError>
    requires { length insts.items ≤ ORDER_INSTS }
    ensures leads { IfOk result (λ r. LeadsTo (InOrder block insts.items) line.now (parts_after r)) }
    ensures fits { IfOk result (λ r. IfSome r Fits) }
{
    if let Some(exit) = exit_of(line) {
        if exit.has_slot() {
            return Ok(Some(Stage::AtSlot(block, insts, exit)));
        }
        return match Order::new(insts, exit, None) {
            Some(order) => Ok(Some(Stage::Done(block, order))),
            None => Ok(None),
        };
    }
    match plain_of(line) {
        None => Ok(None),
        Some(inst) => {
            if insts.len() >= ORDER_INSTS {
                return Ok(None);
            }
            insts.push(inst)?;
            Ok(Some(Stage::InOrder(block, insts)))
        }
    }
}

fn at_slot(block: Block, insts: Vec<Plain>, exit: Exit, line: &[u8]) -> Option<Stage>
    requires size { length insts.items ≤ ORDER_INSTS }
    requires slotted { is_slotted exit ≡ true }
    ensures leads { LeadsTo (AtSlot block insts.items exit) line.now (parts_after result) }
    ensures fits { IfSome result Fits }
{
    match slot_of(line) {
        None => None,
        Some(inst) => match Order::new(insts, exit, Some(inst)) {
            Some(order) => Some(Stage::Done(block, order)),
            None => None,
        },
    }
}

/// Returns where one line takes the reader.
fn step(alloc: Global, place: Stage, line: &[u8]) -> Result<Option<Stage>, AllocError>
    requires { Fits place }
    ensures leads { IfOk result (λ r. LeadsTo (stage_parts place) line.now (parts_after r)) }
    ensures fits { IfOk result (λ r. IfSome r Fits) }
{
    match place {
        Stage::AtBlock => {
            if line == b"block".as_slice() {
                Ok(Some(Stage::InBlock(Vec::new(alloc))))
            } else {
                Ok(None)
            }
        }
        Stage::InBlock(insts) => in_block(insts, line),
        Stage::AtOrder(block) => {
            if line == b"order".as_slice() {
                Ok(Some(Stage::InOrder(block, Vec::new(alloc))))
            } else {
                Ok(None)
            }
        }
        Stage::InOrder(block, insts) => in_order(block, insts, line),
        Stage::AtSlot(block, insts, exit) => Ok(at_slot(block, insts, exit, line)),
        Stage::Done(_, _) => Ok(None),
    }
}

/// Returns the block and the order that the text, of at most 2^20 bytes, spells. Its block is a line `block`, at most 512 instructions and
/// an exit. Its order is a line `order`, at most 2,048 instructions and an exit. A line `slot I` with an instruction follows unless the
/// exit is `out` or `halt`.
pub fn read(alloc: Global, text: &[u8]) -> Result<Text, PairFault>
    requires { length text.now ≤ 2 ^ 20 }
    ensures found { IfOk result (λ t. SpellsPair (lines_of text.now) t.block t.order) }
    ensures only { (b : BlockParts) (o : OrderParts) → SpellsPair (lines_of text.now) b o
        → MatchResult result (λ t. (t.block ≡ b) × (t.order ≡ o)) (λ e. e ≡ PairFault.NoMemory) }
    ensures fault { IfErr result (IsPairFault (lines_of text.now)) }
{
    let mut place = Stage::AtBlock;
    let mut rest = text;
    let mut count: u32 = 0;
    while !rest.is_empty() {
        let line = first_line(rest);
        match step(alloc, place, line.before) {
            Err(_) => return Err(PairFault::NoMemory),
            Ok(None) => return Err(PairFault::Line(count + 1)),
            Ok(Some(next)) => place = next,
        }
        count += 1;
        rest = line.after;
    }
    match place {
        Stage::Done(block, order) => Ok(Text { block, order }),
        _ => Err(PairFault::Line(count + 1)),
    }
}
