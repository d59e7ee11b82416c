//! A function of a typed program as a function of RTL.
ghost use Rattle.std.specs.Prelude.{◌≡◌, ◌≤◌, ◌<◌, ◌+◌, ◌^◌, length, IfOk, IfErr, OnOk};
ghost use Rattle.c_typed.specs.Shape.{function_of};
ghost use Rattle.rtl.specs.declared.limits.TheConstants.{MAX_REGISTERS};
ghost use Rattle.rtl_emit.specs.Sizes.{Beyond};
ghost use Rattle.rtl_lower.specs.Coded.{IsCodeOf, IsGlobalOf};
ghost use Rattle.rtl_lower.specs.Sizes.{function_blocks, function_registers, IsPlain};

use crate::context::Context;
use crate::statement::statements;
use c_typed::{Function, Global as TypedGlobal};
use rtl::{RExit, RFunc, RGlobal};
use rtl_emit::{Continuation, LowerFault, exit_block, fill, open_block, register_of, reserve};
use std::alloc::Global;

/// Returns the blocks of a function.
pub(crate) fn function(alloc: Global, f: &Function) -> Result<RFunc, LowerFault>
    requires plain { IsPlain (function_of f.now) }
    ensures code { IfOk result (λ r. IsCodeOf (function_of f.now) r) }
    ensures count { IfOk result (λ r. length r.blocks.items ≡ function_blocks (function_of f.now)) }
    ensures room { OnOk result (function_registers (function_of f.now) ≤ MAX_REGISTERS) }
    ensures limit { IfErr result (λ e. e ≡ LowerFault.Limit
        → Beyond (function_registers (function_of f.now)) (function_blocks (function_of f.now)) 0) }
{
    let free = register_of(f.locals)?;
    let parameters = register_of(f.parameters)?;
    // most functions have fewer blocks than statements, so the list seldom grows
    let mut blocks = Vec::with_capacity(alloc, f.body.len())?;
    let entry = reserve(alloc, &mut blocks)?;
    let end = Continuation::Made(exit_block(alloc, RExit::Return(None)));
    let context = Context {
        alloc,
        free,
        leave: 0,
        next: None,
    };
    let code = statements(context, &mut blocks, f.body.as_slice(), end)?;
    fill(&mut blocks, entry, open_block(alloc, code));
    Ok(RFunc { parameters, blocks })
}

/// Returns a global of the same width, with as many first values, and the same ones.
pub(crate) fn global(alloc: Global, g: TypedGlobal) -> Result<RGlobal, LowerFault>
    ensures is { IfOk result (λ r. IsGlobalOf g r) }
    ensures limit { IfErr result (λ e. e ≡ LowerFault.Limit → 2 ^ 32 < g.length + 1) }
{
    if g.length > u32::MAX as usize {
        return Err(LowerFault::Limit);
    }
    let first = vec![in alloc; g.first; g.length]?;
    Ok(RGlobal {
        width: g.width,
        length: g.length as u32,
        first,
    })
}
