//! Where a run is wrong: the function that runs, and its statement.
ghost use Rattle.std.specs.Prelude.{◌≡◌, ◌↔◌, IfOk, IsSome};
ghost use Rattle.runs.specs.declared.ran.End.TheVariants.{Wrong};
ghost use Rattle.runs.specs.Calls.{state_by, reached_by};
ghost use Rattle.c_types.specs.Shape.{program_of};
ghost use Rattle.c_typed.specs.Meaning.{source_step, source_run};
ghost use Rattle.c_run.specs.Interpreter.{frame_of};

use crate::interpreter::{Interpreter, act};
use crate::pending::Head;
use crate::steps::start;
use c_typed::TypedStatement;
use c_types::Typed;
use runs::Reached;
use std::alloc::{AllocError, Global};

/// Where a run is wrong.
#[derive(Clone, Copy)]
pub struct WrongPlace<'a> {
    /// The number of the function that runs.
    pub function: usize,
    /// What can't be done; None at the function's end.
    pub statement: Option<&'a TypedStatement>,
    /// How many statements follow it in the blocks around it, with those inside them.
    pub left: usize,
}

/// Counts the statements of a list, with those inside them.
#[cycle(counts)]
pub(crate) fn statements_of(list: &[TypedStatement]) -> usize {
    let mut count = 0usize;
    for s in list {
        count = count.saturating_add(statements_in(s));
    }
    count
}

/// Counts a statement with those inside it.
#[cycle(counts)]
pub fn statements_in(s: &TypedStatement) -> usize {
    match s {
        TypedStatement::Block(all) => statements_of(all.as_slice()),
        TypedStatement::If(_, one, other) | TypedStatement::Loop(_, one, other) => {
            statements_in(one)
                .saturating_add(statements_in(other))
                .saturating_add(1)
        }
        _ => 1,
    }
}

/// Keeps the numbers of the functions whose calls are active after a statement; the one that runs is the last.
fn keep_active(
    active: &mut Vec<usize>,
    s: Option<&TypedStatement>,
    waiting: usize,
) -> Result<(), AllocError> {
    active.truncate(waiting.saturating_add(1));
    match s {
        Some(TypedStatement::Call(_, function, _)) if active.len() <= waiting => {
            active.push(*function)?
        }
        _ => {}
    }
    Ok(())
}

/// Takes one step of the program, and returns the statement that it was at; None at the function's end. `Err` only if memory runs out.
fn placed_step<'a>(
    alloc: Global,
    program: &'a Typed,
    depth: u32,
    interpreter: &mut Interpreter<'a>,
) -> Result<(Reached, Option<&'a TypedStatement>), AllocError>
    ensures { IfOk result (λ r. source_step (program_of program.now) depth (state_by frame_of interpreter.old)
        ≡ reached_by frame_of r.0 interpreter.new) }
{
    let frame = &mut interpreter.frame;
    let head = frame.todo.settle(&mut frame.locals)?;
    let Head::Statement(s) = head else {
        return Ok((Reached::Failed, None));
    };
    let reached = act(alloc, program, depth, interpreter, s)?;
    Ok((reached, Some(s)))
}

/// Finds where so many steps of a program end wrong, with at most `depth` calls active at once; None exactly if they don't. `Err` only if
/// memory runs out. No contract says that the place is right; a run doesn't keep it.
pub fn wrong_place_of<'a>(
    alloc: Global,
    program: &'a Typed,
    depth: u32,
    steps: u64,
) -> Result<Option<WrongPlace<'a>>, AllocError>
    ensures wrong { IfOk result (λ place. IsSome place ↔ ((source_run (program_of program.now) depth steps).end ≡ Wrong)) }
{
    let mut interpreter = start(alloc, program)?;
    let mut active = Vec::new(alloc);
    active.push(program.main())?;
    for _ in 0..steps {
        let function = active.last().copied().unwrap_or(program.main());
        let (reached, statement) = placed_step(alloc, program, depth, &mut interpreter)?;
        match reached {
            Reached::Going => keep_active(&mut active, statement, interpreter.waiting.len())?,
            Reached::Failed => {
                return Ok(Some(WrongPlace {
                    function,
                    statement,
                    left: interpreter.frame.todo.left(),
                }));
            }
            Reached::Ended(_) => return Ok(None),
        }
    }
    Ok(None)
}
