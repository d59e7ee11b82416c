//! A run, one step after another.
ghost use Rattle.std.specs.Prelude.{◌≡◌, ℕ, IfOk};
ghost use Rattle.runs.specs.Runs.{Outcome, outcome_of};
ghost use Rattle.runs.specs.Results.{IsRunBy};
ghost use Rattle.runs.specs.declared.interpreter.Interpreter as Runs;

use crate::interpreter::Interpreter;
use crate::ran::{End, Ran};
use crate::reached::Reached;
use std::alloc::AllocError;

/// Returns what so many steps of a program under way come to. `Err` only if memory runs out.
pub fn run_steps<F: Drop, S: Fn(&mut Interpreter<F>) -> Result<Reached, AllocError> + Drop>(
    mut interpreter: Interpreter<F>,
    steps: u64,
    step: S,
) -> Result<Ran, AllocError>
    requires { S.IsAlwaysCallable step }
    ensures { IfOk result (λ r. (comes_to : Runs.Interpreter F → ℕ → Outcome) → IsRunBy (λ p q r. S.post step p r q) comes_to
        → outcome_of r ≡ comes_to interpreter steps) }
{
    for _ in 0..steps {
        let reached = step(&mut interpreter)?;
        if let Some(end) = reached.end() {
            return Ok(Ran {
                end,
                output: interpreter.output,
            });
        }
    }
    Ok(Ran {
        end: End::More,
        output: interpreter.output,
    })
}
