//! Typed expressions from what the typing of their operands answered.

ghost use Rattle.std.specs.Prelude.{◌≡◌, IfOk, IfErr};
ghost use Rattle.c_statements.specs.Faults.{both_of};
ghost use Rattle.c_statements.specs.Made.{IsBinary, IsConditional, IsElement, IsUnary, MadeOf, Stops};
ghost use Rattle.c_typed.specs.Trees.{common_type, operation_type, prefix_type};

use crate::fault::{TypeStop, both};
use c_tokens::IntegerType;
use c_tree::{BinaryOp, UnaryOp};
use c_typed::TypedExpression;
use std::alloc::{AllocError, AllocFailed, Global};

/// Returns the type that two operands are converted to (C99 6.3.1.8): `unsigned int` if one of them is.
fn common(left: IntegerType, right: IntegerType) -> IntegerType
    ensures { result ≡ common_type left right }
{
    match (left, right) {
        (IntegerType::SignedInt, IntegerType::SignedInt) => IntegerType::SignedInt,
        _ => IntegerType::UnsignedInt,
    }
}

/// Returns the type of a prefix operator's value: `int` for `!`, else its operand's.
fn prefix(operator: UnaryOp, operand: IntegerType) -> IntegerType
    ensures { result ≡ prefix_type operator operand }
{
    match operator {
        UnaryOp::Not => IntegerType::SignedInt,
        _ => operand,
    }
}

/// Returns the type that a binary operator computes in: the left operand's for a shift, `int` for `&&` and `||`, else the operands' common
/// type.
fn operation(operator: BinaryOp, left: IntegerType, right: IntegerType) -> IntegerType
    ensures { result ≡ operation_type operator left right }
{
    match operator {
        BinaryOp::ShiftLeft | BinaryOp::ShiftRight => left,
        BinaryOp::LogicalAnd | BinaryOp::LogicalOr => IntegerType::SignedInt,
        _ => common(left, right),
    }
}

/// Returns an element of an array, which is given by its number and the type of its elements.
pub fn element(
    alloc: Global,
    array: Result<(usize, IntegerType), TypeStop>,
    index: Result<TypedExpression, TypeStop>,
) -> Result<TypedExpression, TypeStop>
    ensures ok { IfOk result (MadeOf (both_of array index) IsElement) }
    ensures err { IfErr result (Stops (both_of array index)) }
{
    let ((number, integer_type), index) = both(array, index)?;
    Ok(TypedExpression::Element(integer_type, Box::new(alloc, (number, index))?))
}

/// Returns a prefix operator with its operand.
pub fn unary(
    alloc: Global,
    operator: UnaryOp,
    operand: Result<TypedExpression, TypeStop>,
) -> Result<TypedExpression, TypeStop>
    ensures ok { IfOk result (MadeOf operand (IsUnary operator)) }
    ensures err { IfErr result (Stops operand) }
{
    let operand = operand?;
    let integer_type = prefix(operator, operand.integer_type());
    Ok(TypedExpression::Unary(operator, integer_type, Box::new(alloc, operand)?))
}

/// Returns a binary operator with its operands, in the type that it computes in.
pub fn binary(
    alloc: Global,
    operator: BinaryOp,
    left: Result<TypedExpression, TypeStop>,
    right: Result<TypedExpression, TypeStop>,
) -> Result<TypedExpression, TypeStop>
    ensures ok { IfOk result (MadeOf (both_of left right) (IsBinary operator)) }
    ensures err { IfErr result (Stops (both_of left right)) }
{
    let operands = Box::new(alloc, both(left, right)?)?;
    let (left, right) = &*operands;
    let integer_type = operation(operator, left.integer_type(), right.integer_type());
    Ok(TypedExpression::Binary(operator, integer_type, operands))
}

/// Returns a choice between two values by a test, in the common type of the values.
pub fn conditional(
    alloc: Global,
    test: Result<TypedExpression, TypeStop>,
    yes: Result<TypedExpression, TypeStop>,
    no: Result<TypedExpression, TypeStop>,
) -> Result<TypedExpression, TypeStop>
    ensures ok { IfOk result (MadeOf (both_of test (both_of yes no)) IsConditional) }
    ensures err { IfErr result (Stops (both_of test (both_of yes no))) }
{
    let (test, (yes, no)) = both(test, both(yes, no))?;
    let integer_type = common(yes.integer_type(), no.integer_type());
    Ok(TypedExpression::Conditional(integer_type, Box::new(alloc, (test, yes, no))?))
}
