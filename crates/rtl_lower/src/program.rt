//! A typed program as a program of RTL.
ghost use Rattle.std.specs.Prelude.{◌≡◌, ◌++◌, ◌∷◌, ◌≤◌, [], All, sum_by, IfOk, IfErr, OnOk};
ghost use Rattle.c_types.specs.Shape.{program_of};
ghost use Rattle.c_typed.specs.Shape.{functions_of};
ghost use Rattle.c_typed.specs.WellFormed.{words_in};
ghost use Rattle.c_typed.specs.declared.limits.TheConstants.{MAX_GLOBAL_WORDS};
ghost use Rattle.rtl_lower.specs.Coded.{AreCodesOf, AreGlobalsOf};
ghost use Rattle.rtl.specs.Programs.{IsProgram, block_count};
ghost use Rattle.rtl.specs.declared.limits.TheConstants.{MAX_REGISTERS};
ghost use Rattle.rtl_lower.specs.Laws.{KeepsRuns, AreOfSizes};
ghost use Rattle.rtl_lower.specs.Sizes.{function_blocks, function_registers, IsPlain, HaveRoom};

use crate::function::{function, global};
use c_typed::{Function, Global as TypedGlobal};
use c_types::Typed;
use rtl::{RFunc, RGlobal, Rtl};
use rtl_emit::{LowerFault, register_of};
use std::alloc::{AllocError, Global};

/// Returns the blocks of each function.
fn functions(alloc: Global, all: &[Function]) -> Result<Vec<RFunc>, LowerFault>
    requires plain { All IsPlain (functions_of all.now) }
    ensures codes { IfOk result (λ rs. AreCodesOf (functions_of all.now) rs.items) }
    ensures count { IfOk result (λ rs. sum_by block_count rs.items ≡ sum_by function_blocks (functions_of all.now)) }
    ensures room { OnOk result (All (λ f. function_registers f ≤ MAX_REGISTERS) (functions_of all.now)) }
    ensures limit { IfErr result (λ e. e ≡ LowerFault.Limit → HaveRoom (functions_of all.now) → ⊥) }
{
    let mut lowered = Vec::with_capacity(alloc, all.len())?;
    for f in all {
        let next = function(alloc, f)?;
        put(&mut lowered, next)?;
    }
    Ok(lowered)
}

/// Adds one more function, or global.
fn put<T: Drop>(all: &mut Vec<T>, next: T) -> Result<(), AllocError>
    ensures { OnOk result (all.new.items ≡ all.old.items ++ next ∷ []) }
{
    all.push(next)?;
    Ok(())
}

/// Returns each global.
fn globals(alloc: Global, all: &[TypedGlobal]) -> Result<Vec<RGlobal>, LowerFault>
    ensures are { IfOk result (λ rs. AreGlobalsOf all.now rs.items) }
    ensures limit { IfErr result (λ e. e ≡ LowerFault.Limit → words_in all.now ≤ MAX_GLOBAL_WORDS → ⊥) }
{
    let mut lowered = Vec::with_capacity(alloc, all.len())?;
    for g in all {
        let next = global(alloc, *g)?;
        put(&mut lowered, next)?;
    }
    Ok(lowered)
}

/// Returns the program of RTL that does what the source does: wherever the source isn't wrong, it comes to the same end and output. Each of
/// its functions has no more pseudo-registers and instructions than are counted on the typed one, and as many blocks. Its globals are those
/// of the source. A Limit only where a function would have more than 8,000 pseudo-registers or the program more than 1,048,575 blocks;
/// NoMemory if memory runs out.
pub fn lower(alloc: Global, program: &Typed) -> Result<Rtl, LowerFault>
    ensures runs { IfOk result (λ r. KeepsRuns (program_of program.now) r) }
    ensures program { IfOk result IsProgram }
    ensures sizes { IfOk result (λ r. AreOfSizes (functions_of program.now.functions) r.functions) }
    ensures variables { IfOk result (λ r. AreGlobalsOf program.now.globals r.globals) }
    ensures within { OnOk result (HaveRoom (functions_of program.now.functions)) }
    ensures limit { IfErr result (λ e. e ≡ LowerFault.Limit → HaveRoom (functions_of program.now.functions) → ⊥) }
{
    let functions = functions(alloc, program.functions())?;
    let globals = globals(alloc, program.globals())?;
    let main = register_of(program.main())?;
    let Some(lowered) = Rtl::if_blocks_fit(functions, globals, main) else {
        return Err(LowerFault::Limit);
    };
    Ok(lowered)
}
