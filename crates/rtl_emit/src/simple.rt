//! The values of constants, locals and global variables, which one or two instructions compute.
ghost use Rattle.std.specs.Prelude.{◌≡◌, ◌+◌, ◌<◌, ◌^◌, List, IfOk, IfErr};
ghost use Rattle.c_tokens.specs.declared.token.IntegerType.{IntegerType};
ghost use Rattle.c_typed.specs.Trees.{constant, local, global};
ghost use Rattle.rtl.specs.declared.block.RBlock.{RBlock};
ghost use Rattle.rtl_emit.specs.Blocks.{spot};
ghost use Rattle.rtl_emit.specs.Emits.{Emits, value};

use crate::block::{Continuation, OpenBlock, put_before, put_first};
use crate::fault::LowerFault;
use crate::place::{register_of, spare_register};
use c_tokens::Literal;
use rtl::{RInst, Register};
use std::alloc::Global;

// What becomes of a value: the register that takes it, the first that is free, and where code goes on.
#[derive(Drop)]
pub(crate) struct Aim {
    pub(crate) alloc: Global,
    pub(crate) to: Register,
    pub(crate) free: Register,
    pub(crate) after: Continuation,
}

/// Returns the number of a function or a global in RTL; a Limit where it has none.
pub fn number_of(number: usize) -> Result<u32, LowerFault>
    ensures is { IfOk result (λ r. r ≡ number) }
    ensures limit { IfErr result (λ f. f ≡ LowerFault.Limit → 2 ^ 32 < number + 1) }
    ensures kind { IfErr result (λ f. f ≡ LowerFault.Limit) }
{
    if number > u32::MAX as usize {
        return Err(LowerFault::Limit);
    }
    Ok(number as u32)
}

/// Emits a constant.
#[inline(always)]
pub(crate) fn number_into(aim: Aim, literal: Literal) -> Result<OpenBlock, LowerFault>
    ensures { (bs : List RBlock) → Emits (value (constant literal) aim.to aim.free (spot aim.after)) bs bs result }
{
    let from = put_before(aim.alloc, RInst::Const(aim.to, literal.value), aim.after)?;
    Ok(from)
}

/// Emits a local.
pub(crate) fn local_into(aim: Aim, number: usize) -> Result<OpenBlock, LowerFault>
    ensures { (bs : List RBlock) (k : IntegerType) → Emits (value (local number k) aim.to aim.free (spot aim.after)) bs bs result }
{
    let register = register_of(number)?;
    let from = put_before(aim.alloc, RInst::Move(aim.to, register), aim.after)?;
    Ok(from)
}

/// Emits a global variable.
pub(crate) fn global_into(aim: Aim, number: usize) -> Result<OpenBlock, LowerFault>
    ensures { (bs : List RBlock) (k : IntegerType) → Emits (value (global number k) aim.to aim.free (spot aim.after)) bs bs result }
{
    let variable = number_of(number)?;
    let index = spare_register(aim.free)?;
    let load = put_before(aim.alloc, RInst::Load(aim.to, variable, index), aim.after)?;
    let from = put_first(RInst::Const(index, 0), load)?;
    Ok(from)
}
