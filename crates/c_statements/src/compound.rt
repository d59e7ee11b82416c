//! Typed statements from what the typing of their parts answered.

ghost use Rattle.std.specs.Prelude.{◌≡◌, ◌∷◌, [], IfOk, IfErr, Err, box_value};
ghost use Rattle.c_statements.specs.Faults.{both_of};
ghost use Rattle.c_statements.specs.Made.{IsIf, IsLoop, IsSecond, IsSequence, IsStore, MadeOf, Stops};

use crate::fault::{TypeStop, both};
use c_tokens::IntegerType;
use c_typed::{TypedExpression, TypedStatement};
use std::alloc::{AllocError, AllocFailed, Global};

/// Returns the second of two parts, if neither has a fault.
pub fn second<A: Drop, B: Drop>(
    a: Result<A, TypeStop>,
    b: Result<B, TypeStop>,
) -> Result<B, TypeStop>
    ensures ok { IfOk result (MadeOf (both_of a b) IsSecond) }
    ensures err { IfErr result (λ s. both_of a b ≡ Err s) }
{
    let (_, part) = both(a, b)?;
    Ok(part)
}

/// Returns a value that is stored in an element.
pub fn store(
    array: Result<(usize, IntegerType), TypeStop>,
    index: Result<TypedExpression, TypeStop>,
    value: Result<TypedExpression, TypeStop>,
) -> Result<TypedStatement, TypeStop>
    ensures ok { IfOk result (MadeOf (both_of array (both_of index value)) IsStore) }
    ensures err { IfErr result (λ s. both_of array (both_of index value) ≡ Err s) }
{
    let ((number, _), (index, value)) = both(array, both(index, value))?;
    Ok(TypedStatement::Store(number, index, value))
}

/// Returns two parts in boxes.
fn boxes<T: Drop>(alloc: Global, parts: (T, T)) -> Result<(Box<T>, Box<T>), AllocError>
    ensures { IfOk result (λ r. parts ≡ (box_value r.0, box_value r.1)) }
{
    let (first, second) = parts;
    Ok((Box::new(alloc, first)?, Box::new(alloc, second)?))
}

/// Returns an `if` with both its statements.
pub fn if_else(
    alloc: Global,
    condition: Result<TypedExpression, TypeStop>,
    first: Result<TypedStatement, TypeStop>,
    second: Result<TypedStatement, TypeStop>,
) -> Result<TypedStatement, TypeStop>
    ensures ok { IfOk result (MadeOf (both_of condition (both_of first second)) IsIf) }
    ensures err { IfErr result (Stops (both_of condition (both_of first second))) }
{
    let (condition, parts) = both(condition, both(first, second))?;
    let (first, second) = boxes(alloc, parts)?;
    Ok(TypedStatement::If(condition, first, second))
}

/// Returns a loop: its test, what comes last in each turn, and its body.
pub fn loop_of(
    alloc: Global,
    condition: Result<TypedExpression, TypeStop>,
    last: Result<TypedStatement, TypeStop>,
    body: Result<TypedStatement, TypeStop>,
) -> Result<TypedStatement, TypeStop>
    ensures ok { IfOk result (MadeOf (both_of condition (both_of last body)) IsLoop) }
    ensures err { IfErr result (Stops (both_of condition (both_of last body))) }
{
    let (condition, parts) = both(condition, both(last, body))?;
    let (last, body) = boxes(alloc, parts)?;
    Ok(TypedStatement::Loop(condition, last, body))
}

/// Returns a list of two parts.
fn list_of<T: Drop>(alloc: Global, parts: (T, T)) -> Result<Vec<T>, AllocError>
    ensures { IfOk result (λ all. all.items ≡ parts.0 ∷ parts.1 ∷ []) }
{
    let (first, second) = parts;
    let mut all = Vec::with_capacity(alloc, 2)?;
    all.push(first)?;
    all.push(second)?;
    Ok(all)
}

/// Returns a block of two statements.
pub fn sequence(
    alloc: Global,
    first: Result<TypedStatement, TypeStop>,
    second: Result<TypedStatement, TypeStop>,
) -> Result<TypedStatement, TypeStop>
    ensures ok { IfOk result (MadeOf (both_of first second) IsSequence) }
    ensures err { IfErr result (Stops (both_of first second)) }
{
    let all = list_of(alloc, both(first, second)?)?;
    Ok(TypedStatement::Block(all))
}
