//! Why a run is wrong: the part of the statement at which it ended that has no value.
ghost use Rattle.std.specs.Prelude.{◌≡◌, ◌↔◌, IfOk, IfSome, IsSome};
ghost use Rattle.runs.specs.declared.ran.End.TheVariants.{Wrong};
ghost use Rattle.runs.specs.declared.reached.Reached.TheVariants.{Failed};
ghost use Rattle.runs.specs.Calls.{state_by, reached_by};
ghost use Rattle.c_types.specs.Shape.{program_of};
ghost use Rattle.c_typed.specs.Meaning.{source_step, source_run};
ghost use Rattle.c_run.specs.Interpreter.{frame_of};
ghost use Rattle.c_run.specs.Reasons.{IsReason};

use crate::interpreter::{Interpreter, act};
use crate::pending::Head;
use crate::steps::start;
use c_tokens::IntegerType;
use c_tree::{BinaryOp, UnaryOp};
use c_typed::{TypedExpression, TypedStatement, binary_value, unary_value, value};
use c_types::Typed;
use runs::Reached;
use std::alloc::{AllocError, Global};

/// What has no meaning (C99 3.4.3).
#[derive(Clone, Copy)]
pub enum Reason {
    /// A local of this number and type is read that isn't set.
    Unset {
        local: usize,
        integer_type: IntegerType,
    },
    /// The index, read as its type says, is outside the array of this number, which has so many elements.
    Outside {
        array: usize,
        index: u32,
        integer_type: IntegerType,
        length: usize,
    },
    /// The operator has no value at this word, read as its type says.
    Prefix {
        operator: UnaryOp,
        integer_type: IntegerType,
        operand: u32,
    },
    /// The operator has no value at these words, read as its type says; the right one as a type of its own, where it counts a shift.
    Operation {
        operator: BinaryOp,
        integer_type: IntegerType,
        right_type: IntegerType,
        left: u32,
        right: u32,
    },
    /// One call too many is active.
    TooDeep,
    /// A function ended without the word that it has to return.
    NoResult,
}

/// Reports whether the right side isn't evaluated after this word on the left.
fn is_decided(operator: BinaryOp, left: u32) -> bool {
    match operator {
        BinaryOp::LogicalAnd => left == 0,
        BinaryOp::LogicalOr => left != 0,
        _ => false,
    }
}

/// Returns why there is no element at this index, if there is none.
fn missing_of_element(
    globals: &[Vec<u32>],
    array: usize,
    index: u32,
    integer_type: IntegerType,
) -> Option<Reason>
    ensures { IfSome result IsReason }
{
    let length = globals.get(array)?.len();
    if (index as usize) < length {
        return None;
    }
    Some(Reason::Outside {
        array,
        index,
        integer_type,
        length,
    })
}

/// Returns the first part of an expression, in the order in which they are evaluated, that has no value; None if it has one.
fn missing_of_expression(
    e: &TypedExpression,
    locals: &[Option<u32>],
    globals: &[Vec<u32>],
) -> Option<Reason>
    ensures { IfSome result IsReason }
{
    match e {
        TypedExpression::Constant(_) | TypedExpression::Global(_, _) => None,
        TypedExpression::Local(integer_type, local) => match value(e, locals, globals) {
            Some(_) => None,
            None => Some(Reason::Unset {
                local: *local,
                integer_type: *integer_type,
            }),
        },
        TypedExpression::Element(_, parts) => {
            let (array, index) = &**parts;
            match value(index, locals, globals) {
                Some(at) => missing_of_element(globals, *array, at, index.integer_type()),
                None => missing_of_expression(index, locals, globals),
            }
        }
        TypedExpression::Unary(operator, integer_type, part) => {
            let Some(operand) = value(part, locals, globals) else {
                return missing_of_expression(part, locals, globals);
            };
            match unary_value(*operator, *integer_type, operand) {
                Some(_) => None,
                None => Some(Reason::Prefix {
                    operator: *operator,
                    integer_type: *integer_type,
                    operand,
                }),
            }
        }
        TypedExpression::Binary(operator, integer_type, operands) => {
            let (left, right) = &**operands;
            let Some(x) = value(left, locals, globals) else {
                return missing_of_expression(left, locals, globals);
            };
            if is_decided(*operator, x) {
                return None;
            }
            let Some(y) = value(right, locals, globals) else {
                return missing_of_expression(right, locals, globals);
            };
            match binary_value(*operator, *integer_type, x, y) {
                Some(_) => None,
                None => Some(Reason::Operation {
                    operator: *operator,
                    integer_type: *integer_type,
                    right_type: right.integer_type(),
                    left: x,
                    right: y,
                }),
            }
        }
        TypedExpression::Conditional(_, parts) => {
            let (test, first, second) = &**parts;
            match value(test, locals, globals) {
                None => missing_of_expression(test, locals, globals),
                Some(0) => missing_of_expression(second, locals, globals),
                Some(_) => missing_of_expression(first, locals, globals),
            }
        }
    }
}

/// Returns why an assignment to an element can't be done.
fn missing_of_store(
    interpreter: &Interpreter,
    array: usize,
    index: &TypedExpression,
    e: &TypedExpression,
) -> Option<Reason>
    ensures { IfSome result IsReason }
{
    let (locals, globals) = (
        interpreter.frame.locals.as_slice(),
        interpreter.globals.as_slice(),
    );
    let Some(at) = value(index, locals, globals) else {
        return missing_of_expression(index, locals, globals);
    };
    match missing_of_expression(e, locals, globals) {
        Some(reason) => Some(reason),
        None => missing_of_element(globals, array, at, index.integer_type()),
    }
}

/// Returns why a call can't be done.
fn missing_of_call(interpreter: &Interpreter, arguments: &[TypedExpression]) -> Reason
    ensures { IsReason result }
{
    let (locals, globals) = (
        interpreter.frame.locals.as_slice(),
        interpreter.globals.as_slice(),
    );
    for argument in arguments {
        if let Some(reason) = missing_of_expression(argument, locals, globals) {
            return reason;
        }
    }
    Reason::TooDeep
}

/// Returns why a statement can't be done.
fn missing_of_statement(interpreter: &Interpreter, s: &TypedStatement) -> Option<Reason>
    ensures { IfSome result IsReason }
{
    let (locals, globals) = (
        interpreter.frame.locals.as_slice(),
        interpreter.globals.as_slice(),
    );
    match s {
        TypedStatement::Assign(_, e)
        | TypedStatement::Output(e)
        | TypedStatement::If(e, _, _)
        | TypedStatement::Loop(e, _, _)
        | TypedStatement::Return(Some(e)) => missing_of_expression(e, locals, globals),
        TypedStatement::Store(array, index, e) => missing_of_store(interpreter, *array, index, e),
        TypedStatement::Call(_, _, arguments) => Some(missing_of_call(interpreter, arguments)),
        _ => None,
    }
}

/// Takes one step of the program and, exactly if it fails, returns why. `Err` only if memory runs out.
fn explained_step<'a>(
    alloc: Global,
    program: &'a Typed,
    depth: u32,
    interpreter: &mut Interpreter<'a>,
) -> Result<(Reached, Option<Reason>), AllocError>
    ensures step { IfOk result (λ r. source_step (program_of program.now) depth (state_by frame_of interpreter.old)
        ≡ reached_by frame_of r.0 interpreter.new) }
    ensures failed { IfOk result (λ r. IsSome r.1 ↔ (r.0 ≡ Failed)) }
    ensures reason { IfOk result (λ r. IfSome r.1 IsReason) }
{
    let frame = &mut interpreter.frame;
    let head = frame.todo.settle(&mut frame.locals)?;
    let Head::Statement(s) = head else {
        return Ok((Reached::Failed, Some(Reason::NoResult)));
    };
    let reached = act(alloc, program, depth, interpreter, s)?;
    match reached {
        Reached::Going | Reached::Ended(_) => Ok((reached, None)),
        Reached::Failed => match missing_of_statement(interpreter, s) {
            Some(reason) => Ok((Reached::Failed, Some(reason))),
            None => Ok((Reached::Failed, Some(Reason::NoResult))),
        },
    }
}

/// Finds why so many steps of a program end wrong, with at most `depth` calls active at once; None exactly if they don't. The steps are
/// done again, so that a run needn't keep what only a wrong one is asked for. `Err` only if memory runs out.
pub fn reason_of(
    alloc: Global,
    program: &Typed,
    depth: u32,
    steps: u64,
) -> Result<Option<Reason>, AllocError>
    ensures wrong { IfOk result (λ reason. IsSome reason ↔ ((source_run (program_of program.now) depth steps).end ≡ Wrong)) }
    ensures reason { IfOk result (λ reason. IfSome reason IsReason) }
{
    let mut interpreter = start(alloc, program)?;
    for _ in 0..steps {
        let (reached, reason) = explained_step(alloc, program, depth, &mut interpreter)?;
        if let Some(_) = reached.end() {
            return Ok(reason);
        }
    }
    Ok(None)
}
