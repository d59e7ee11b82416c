//! The run of a block.
ghost use Rattle.std.specs.Prelude.{◌≡◌, IfOk, IfSome};
ghost use Rattle.mblock.specs.BlockMeaning.{block_effect};
ghost use Rattle.counterexample.specs.Views.{start_of, effect_in};

use crate::left::Left;
use crate::registers::Registers;
use crate::start::Start;
use mblock::Block;
use std::alloc::{AllocError, Global};

/// Returns what a block does from a start, with the link that a call of it would put in: None exactly if it is stuck. `Err` only if memory
/// runs out.
pub fn run_block(
    alloc: Global,
    block: &Block,
    start: &Start,
    link: u32,
) -> Result<Option<Left>, AllocError>
    ensures effect { IfOk result (λ r. block_effect block.now (start_of start.now) link ≡ effect_in r) }
    ensures filling { IfOk result (λ r. IfSome r (λ l. l.registers.memory.filling ≡ start.now.filling)) }
{
    let mut registers = Registers::of(alloc, start);
    let insts = block.insts();
    for inst in insts {
        if !registers.act(inst.action())? {
            return Ok(None);
        }
    }
    let exit = block.exit();
    let goes = registers.departs(&exit);
    registers.put_own(&exit, link);
    Ok(Some(Left { registers, goes }))
}
