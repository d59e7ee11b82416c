//! A program's run in portions.
ghost use Rattle.std.specs.Prelude.{◌≡◌, ◌<◌, IfOk};
ghost use Rattle.c_types.specs.Shape.{program_of};
ghost use Rattle.c_typed.specs.Meaning.{source_start};
ghost use Rattle.runs.specs.Runs.{outcome};
ghost use Rattle.runs.specs.Portions.{StopsAt, WentOn};
ghost use Rattle.runs.specs.declared.ran.End.TheVariants.{More};
ghost use Rattle.c_run.specs.Portions.{OutputGoesBefore, comes_to, emptied, state_of};

use crate::interpreter::{Interpreter, step};
use crate::steps::start;
use c_types::Typed;
use runs::{Advance, End};
use std::alloc::{AllocError, Global};

/// A typed program under way, with at most `depth` calls active at once. `main` is one of them, and runs also at depth 0.
#[derive(Drop)]
pub struct UnderWay<'a> {
    pub program: &'a Typed,
    pub depth: u32,
    pub(crate) interpreter: Interpreter<'a>,
}

/// Returns a program before its first step.
pub fn begin<'a>(alloc: Global, program: &'a Typed, depth: u32) -> Result<UnderWay<'a>, AllocError>
    ensures start { IfOk result (λ m. state_of m ≡ source_start (program_of program.now)) }
    ensures program { IfOk result (λ m. m.program.now ≡ program.now) }
    ensures depth { IfOk result (λ m. m.depth ≡ depth) }
{
    let interpreter = start(alloc, program)?;
    Ok(UnderWay {
        program,
        depth,
        interpreter,
    })
}

impl<'a> UnderWay<'a> {
    /// Goes on for at most so many steps, until it holds so many words of output. `Err` only if memory runs out.
    pub fn go_on(
        &mut self,
        alloc: Global,
        steps: u64,
        outputs: usize,
    ) -> Result<Advance<End>, AllocError>
        ensures went { IfOk result (λ a. WentOn comes_to More steps self.old self.new a) }
        ensures moved { IfOk result (λ a. 0 < steps → 0 < a.ran) }
        ensures outputs { IfOk result (λ a. StopsAt comes_to outputs steps self.old self.new a) }
        ensures program { self.new.program ≡ self.old.program }
        ensures depth { self.new.depth ≡ self.old.depth }
    {
        let (program, depth) = (self.program, self.depth);
        let mut ran = 0;
        while ran < steps {
            let reached = step(alloc, program, depth, &mut self.interpreter)?;
            ran += 1;
            if let Some(end) = reached.end() {
                return Ok(Advance {
                    end: Some(end),
                    ran,
                });
            }
            if outputs <= self.interpreter.output.len() {
                return Ok(Advance { end: None, ran });
            }
        }
        Ok(Advance { end: None, ran })
    }

    /// Returns what was written so far, the first word first.
    pub fn output(&self) -> &[u32]
        ensures { result.now ≡ (outcome (state_of self.now)).output }
    {
        self.interpreter.output.as_slice()
    }

    /// Forgets what was written so far.
    pub fn clear_output(&mut self)
        ensures state { state_of self.new ≡ emptied (state_of self.old) }
        ensures program { self.new.program ≡ self.old.program }
        ensures depth { self.new.depth ≡ self.old.depth }
    {
        self.interpreter.output.clear();
    }
}

/// States that a run doesn't depend on what was written before it.
pub fn output_goes_before()
    ensures { OutputGoesBefore }
{}
