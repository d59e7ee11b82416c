//! The run of a typed program, so many steps.
ghost use Rattle.std.specs.Prelude.{◌≡◌, IfOk, map};
ghost use Rattle.runs.specs.Runs.{outcome_of};
ghost use Rattle.c_types.specs.Shape.{program_of};
ghost use Rattle.c_typed.specs.Meaning.{first_words, source_start, source_run};
ghost use Rattle.runs.specs.Kept.{arrays};
ghost use Rattle.runs.specs.Calls.{state_by};
ghost use Rattle.c_run.specs.Interpreter.{frame_of};

use crate::interpreter::{Frame, Interpreter, step};
use crate::pending::Agenda;
use c_types::Typed;
use runs::{Ran, run_steps};
use std::alloc::{AllocError, Global};

/// Returns the globals before the first step.
fn first_globals(alloc: Global, program: &Typed) -> Result<Vec<Vec<u32>>, AllocError>
    ensures { IfOk result (λ g. arrays g.items ≡ map first_words program.now.globals) }
{
    let mut globals = Vec::with_capacity(alloc, program.globals().len())?;
    for global in program.globals() {
        let first = global.width.kept(global.first);
        let elements = vec![in alloc; first; global.length]?;
        globals.push(elements)?;
    }
    Ok(globals)
}

/// Returns the run before its first step.
pub(crate) fn start<'a>(alloc: Global, program: &'a Typed) -> Result<Interpreter<'a>, AllocError>
    ensures { IfOk result (λ r. source_start (program_of program.now) ≡ state_by frame_of r) }
{
    let main = &program.functions()[program.main()];
    let frame = Frame {
        locals: Vec::new(alloc),
        todo: Agenda::of(alloc, main.body.as_slice()),
        result_to: None,
    };
    let globals = first_globals(alloc, program)?;
    Ok(Interpreter::new(alloc, frame, globals))
}

/// Returns what so many steps of a program come to, with at most `depth` calls active at once, `main` among them. `Err` only if memory runs
/// out.
pub fn run(alloc: Global, program: &Typed, depth: u32, steps: u64) -> Result<Ran, AllocError>
    ensures { IfOk result (λ r. outcome_of r ≡ source_run (program_of program.now) depth steps) }
{
    let interpreter = start(alloc, program)?;
    run_steps(interpreter, steps, |interpreter| {
        step(alloc, program, depth, interpreter)
    })
}
