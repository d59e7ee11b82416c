//! The run of a program of RTL, so many steps.
ghost use Rattle.std.specs.Prelude.{◌≡◌, IfOk, map};
ghost use Rattle.runs.specs.Runs.{outcome_of};
ghost use Rattle.rtl.specs.Meaning.{first_values, rtl_start, rtl_run};
ghost use Rattle.runs.specs.Kept.{arrays};
ghost use Rattle.runs.specs.Calls.{state_by};
ghost use Rattle.rtl.specs.Interpreter.{frame_of};

use crate::block::RGlobal;
use crate::interpreter::{Frame, Interpreter, step};
use crate::program::Rtl;
use crate::stores::constant;
use runs::{Ran, run_steps};
use std::alloc::{AllocError, Global};

/// Returns the elements of a global before the first step.
fn first_elements(alloc: Global, global: &RGlobal) -> Result<Vec<u32>, AllocError>
    ensures { IfOk result (λ elements. elements.items ≡ first_values global.now) }
{
    let width = global.width;
    global
        .first
        .iter()
        .map(|v| width.kept(constant(*v)))
        .collect(alloc)
}

/// Returns the globals before the first step.
fn first_globals(alloc: Global, globals: &[RGlobal]) -> Result<Vec<Vec<u32>>, AllocError>
    ensures { IfOk result (λ g. arrays g.items ≡ map first_values globals.now) }
{
    let mut all = Vec::with_capacity(alloc, globals.len())?;
    for global in globals {
        all.push(first_elements(alloc, global)?)?;
    }
    Ok(all)
}

/// Returns the run before its first step.
fn start<'a>(alloc: Global, program: &'a Rtl) -> Result<Interpreter<'a>, AllocError>
    ensures { IfOk result (λ r. rtl_start program.now ≡ state_by frame_of r) }
{
    let main = &program.functions()[program.main() as usize];
    let blocks = main.blocks.as_slice();
    let entry = &blocks[0];
    let globals = first_globals(alloc, program.globals())?;
    let frame = Frame {
        blocks,
        registers: Vec::new(alloc),
        insts: entry.insts.as_slice(),
        exit: &entry.exit,
        result_to: None,
    };
    Ok(Interpreter::new(alloc, frame, globals))
}

/// Returns what so many steps of a program come to, with at most `depth` activations at once, that of `main` among them. `Err` only if
/// memory runs out.
pub fn run(alloc: Global, program: &Rtl, depth: u32, steps: u64) -> Result<Ran, AllocError>
    ensures { IfOk result (λ r. outcome_of r ≡ rtl_run program.now depth steps) }
{
    let interpreter = start(alloc, program)?;
    run_steps(interpreter, steps, |interpreter| {
        step(alloc, program, depth, interpreter)
    })
}
