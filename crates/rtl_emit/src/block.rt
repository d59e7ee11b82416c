//! Blocks that are being made, from their exit on backwards, and the list that they are added to.
ghost use Rattle.std.specs.Prelude.{◌≡◌, ◌++◌, ◌∷◌, ◌+◌, ◌<◌, ◌≤◌, [], List, length, IfOk, IfErr, OnOk, OnErr};
ghost use Rattle.rtl.specs.declared.limits.TheConstants.{MAX_BLOCKS};
ghost use Rattle.rtl_emit.specs.Sizes.{joint};
ghost use Rattle.rtl_emit.specs.Sound.{IsSound, IsSoundSpot, AreSound, KeepsSound, Scope};
ghost use Rattle.rtl_emit.specs.Blocks.{open_code, exit_code, first, spot, line_of, insts_of, insts_at, insts_in};
ghost use Rattle.rtl_emit.specs.Blocks.{Grows, Has, At, Lands, Reserves, Fills};
ghost use Rattle.rtl.specs.declared.block.RBlock.{RBlock};

use crate::fault::LowerFault;
use rtl::{BlockNumber, MAX_BLOCKS, RBlock, RExit, RInst};
use std::alloc::{AllocError, Global};

/// A block that is being made, from its exit on backwards.
#[derive(Drop)]
pub struct OpenBlock {
    // The last instruction first.
    insts: Vec<RInst>,
    exit: RExit,
}

/// Where code goes on: at a block that is there, or in one that is being made.
#[derive(Drop)]
pub enum Continuation {
    Jump(BlockNumber),
    Made(OpenBlock),
}

/// Returns code that only leaves its block.
pub fn exit_block(alloc: Global, exit: RExit) -> OpenBlock
    ensures { open_code result ≡ exit_code exit }
{
    OpenBlock {
        insts: Vec::new(alloc),
        exit,
    }
}

/// So many instructions have room at once, as most blocks need; a list that grows is copied at each step.
const ROOM: usize = 8;

/// Puts an instruction before the code; an Err means out of memory.
#[inline(always)]
pub fn put_first(inst: RInst, mut code: OpenBlock) -> Result<OpenBlock, AllocError>
    ensures { IfOk result (λ c. open_code c ≡ first inst (open_code code)) }
{
    if code.insts.is_empty() {
        code.insts.reserve(ROOM)?;
    }
    code.insts.push(inst)?;
    Ok(code)
}

/// Returns code that comes there.
pub fn open_block(alloc: Global, after: Continuation) -> OpenBlock
    ensures { open_code result ≡ line_of (spot after) }
{
    match after {
        Continuation::Jump(block) => exit_block(alloc, RExit::Goto(block)),
        Continuation::Made(code) => code,
    }
}

/// Puts an instruction before what comes there; an Err means out of memory.
#[inline(always)]
pub fn put_before(alloc: Global, inst: RInst, after: Continuation) -> Result<OpenBlock, AllocError>
    ensures { IfOk result (λ c. open_code c ≡ first inst (line_of (spot after))) }
{
    put_first(inst, open_block(alloc, after))
}

/// Returns a block that begins there: no new one for a block that is there. A function with more than 1,048,575 blocks is a Limit. After an
/// Err the blocks are as they were.
pub fn block_of(blocks: &mut Vec<RBlock>, after: Continuation) -> Result<BlockNumber, LowerFault>
    ensures grows { Grows blocks.old.items blocks.new.items }
    ensures left { OnErr result (blocks.new.items ≡ blocks.old.items) }
    ensures count { OnOk result (length blocks.new.items ≡ length blocks.old.items + joint (spot after)) }
    ensures insts { OnOk result (insts_in blocks.new.items ≡ insts_in blocks.old.items + insts_at (spot after)) }
    ensures limit { IfErr result (λ f. f ≡ LowerFault.Limit → MAX_BLOCKS < length blocks.old.items + joint (spot after)) }
    ensures sound { IfOk result (λ b. KeepsSound blocks.old.items blocks.new.items (λ s. IsSoundSpot s (spot after))
        (λ s. b < s.blocks)) }
    ensures lands { IfOk result (λ b. (bs : List RBlock) → Has bs blocks.old.items blocks.new.items → Lands bs b (spot after)) }
{
    match after {
        Continuation::Jump(block) => Ok(block),
        Continuation::Made(code) => seal(blocks, code),
    }
}

/// Makes the code a block of its own; a Limit as for `block_of`.
pub(crate) fn seal(blocks: &mut Vec<RBlock>, code: OpenBlock) -> Result<BlockNumber, LowerFault>
    ensures grows { Grows blocks.old.items blocks.new.items }
    ensures left { OnErr result (blocks.new.items ≡ blocks.old.items) }
    ensures count { OnOk result (length blocks.new.items ≡ length blocks.old.items + 1) }
    ensures insts { OnOk result (insts_in blocks.new.items ≡ insts_in blocks.old.items + insts_of (open_code code)) }
    ensures limit { IfErr result (λ f. f ≡ LowerFault.Limit → MAX_BLOCKS < length blocks.old.items + 1) }
    ensures sound { IfOk result (λ b. KeepsSound blocks.old.items blocks.new.items (λ s. IsSound s (open_code code))
        (λ s. b < s.blocks)) }
    ensures at { IfOk result (λ b. (bs : List RBlock) → Has bs blocks.old.items blocks.new.items → At bs b (open_code code)) }
{
    let number = blocks.len();
    if number >= MAX_BLOCKS {
        return Err(LowerFault::Limit);
    }
    let OpenBlock { mut insts, exit } = code;
    insts.reverse();
    put_block(blocks, RBlock { insts, exit })?;
    Ok(number as u32)
}

/// Puts one more block.
fn put_block(blocks: &mut Vec<RBlock>, block: RBlock) -> Result<(), AllocError>
    ensures added { OnOk result (blocks.new.items ≡ blocks.old.items ++ block ∷ []) }
    ensures left { OnErr result (blocks.new.items ≡ blocks.old.items) }
{
    blocks.push(block)?;
    Ok(())
}

/// Reserves a block that is filled later, and returns its number. A Limit as for `block_of`, and after an Err the blocks are as they were.
pub fn reserve(alloc: Global, blocks: &mut Vec<RBlock>) -> Result<BlockNumber, LowerFault>
    ensures left { OnErr result (blocks.new.items ≡ blocks.old.items) }
    ensures limit { IfErr result (λ f. f ≡ LowerFault.Limit → MAX_BLOCKS < length blocks.old.items + 1) }
    ensures insts { OnOk result (insts_in blocks.new.items ≡ insts_in blocks.old.items) }
    ensures sound { OnOk result ((s : Scope) → AreSound s blocks.old.items → AreSound s blocks.new.items) }
    ensures reserves { IfOk result (λ b. Reserves blocks.old.items blocks.new.items b) }
{
    let number = blocks.len();
    if number >= MAX_BLOCKS {
        return Err(LowerFault::Limit);
    }
    let block = RBlock {
        insts: Vec::new(alloc),
        exit: RExit::Return(None),
    };
    put_block(blocks, block)?;
    Ok(number as u32)
}

/// Makes the code the block of a number that was reserved.
pub fn fill(blocks: &mut Vec<RBlock>, number: BlockNumber, code: OpenBlock)
    requires { number < length blocks.old.items }
    ensures insts { insts_in blocks.new.items ≤ insts_in blocks.old.items + insts_of (open_code code) }
    ensures sound { (s : Scope) → AreSound s blocks.old.items → IsSound s (open_code code) → AreSound s blocks.new.items }
    ensures fills { Fills blocks.old.items blocks.new.items number (open_code code) }
{
    let OpenBlock { mut insts, exit } = code;
    insts.reverse();
    blocks[number as usize] = RBlock { insts, exit };
}
