//! Evaluates typed expressions (C99 6.5).

ghost use Rattle.std.specs.Prelude.{◌≡◌};
ghost use Rattle.c_typed.specs.Shape.{typed_expression_of};
ghost use Rattle.words.specs.Words.{wrap};
ghost use Rattle.runs.specs.Kept.{places, arrays};
ghost use Rattle.c_typed.specs.Values.{sign_of, unary_of, binary_of, value_of};

use crate::tree::TypedExpression;
use c_tokens::IntegerType;
use c_tree::{BinaryOp, UnaryOp};
use runs::{element, word_at};
use words::Sign;

/// Returns how the words of a type are read.
#[inline]
fn sign(integer_type: IntegerType) -> Sign
    ensures { result ≡ sign_of integer_type }
{
    match integer_type {
        IntegerType::SignedInt => Sign::Signed,
        IntegerType::UnsignedInt => Sign::Unsigned,
    }
}

/// Returns the word that a constant means.
#[inline(always)]
fn constant(value: u32) -> u32
    ensures { result ≡ wrap value }
{
    value
}

/// Returns the value of a prefix operator at a word; None where C leaves it undefined (C99 6.5.3.3).
#[inline]
pub fn unary_value(operator: UnaryOp, integer_type: IntegerType, x: u32) -> Option<u32>
    ensures { result ≡ unary_of operator (sign_of integer_type) x }
{
    match operator {
        UnaryOp::Negate => sign(integer_type).negation(x),
        UnaryOp::Identity => Some(x),
        UnaryOp::Complement => Some(!x),
        UnaryOp::Not => Some(u32::from(x == 0)),
    }
}

/// Returns the value of an operator at two words, both of which are evaluated; None where C leaves it undefined (C99 6.5.5 to 6.5.14).
#[inline(always)]
pub fn binary_value(operator: BinaryOp, integer_type: IntegerType, x: u32, y: u32) -> Option<u32>
    ensures { result ≡ binary_of operator (sign_of integer_type) x y }
{
    match operator {
        BinaryOp::Multiply => sign(integer_type).times(x, y),
        BinaryOp::Divide => sign(integer_type).quotient(x, y),
        BinaryOp::Remainder => sign(integer_type).remainder(x, y),
        BinaryOp::Add => sign(integer_type).sum(x, y),
        BinaryOp::Subtract => sign(integer_type).difference(x, y),
        BinaryOp::ShiftLeft => sign(integer_type).left_shift(x, y),
        BinaryOp::ShiftRight => sign(integer_type).right_shift(x, y),
        BinaryOp::Less => Some(u32::from(sign(integer_type).is_below(x, y))),
        BinaryOp::Greater => Some(u32::from(sign(integer_type).is_below(y, x))),
        BinaryOp::LessOrEqual => Some(u32::from(!sign(integer_type).is_below(y, x))),
        BinaryOp::GreaterOrEqual => Some(u32::from(!sign(integer_type).is_below(x, y))),
        BinaryOp::Equal => Some(u32::from(x == y)),
        BinaryOp::NotEqual => Some(u32::from(x != y)),
        BinaryOp::BitAnd => Some(x & y),
        BinaryOp::BitXor => Some(x ^ y),
        BinaryOp::BitOr => Some(x | y),
        BinaryOp::LogicalAnd | BinaryOp::LogicalOr => Some(u32::from(y != 0)),
    }
}

/// Returns the same as `value`, without a call for a constant and a local.
#[cycle(value)]
#[inline(always)]
fn operand(e: &TypedExpression, locals: &[Option<u32>], globals: &[Vec<u32>]) -> Option<u32>
    ensures { result ≡ value_of (typed_expression_of e.now) (places locals.now) (arrays globals.now) }
{
    match e {
        TypedExpression::Constant(literal) => Some(constant(literal.value)),
        TypedExpression::Local(_, number) => word_at(locals, *number),
        _ => value(e, locals, globals),
    }
}

/// Returns the value of an expression at these locals and globals; None if C leaves it undefined, or a local isn't set.
#[cycle(value)]
pub fn value(e: &TypedExpression, locals: &[Option<u32>], globals: &[Vec<u32>]) -> Option<u32>
    ensures { result ≡ value_of (typed_expression_of e.now) (places locals.now) (arrays globals.now) }
{
    match e {
        TypedExpression::Constant(literal) => Some(constant(literal.value)),
        TypedExpression::Local(_, number) => word_at(locals, *number),
        TypedExpression::Global(_, number) => element(globals, *number, 0),
        TypedExpression::Element(_, parts) => {
            let (number, index) = &**parts;
            let index = operand(index, locals, globals)?;
            element(globals, *number, index as usize)
        }
        TypedExpression::Unary(operator, integer_type, part) => {
            let x = operand(part, locals, globals)?;
            unary_value(*operator, *integer_type, x)
        }
        TypedExpression::Binary(operator, integer_type, operands) => {
            let (left, right) = &**operands;
            let x = operand(left, locals, globals)?;
            match operator {
                BinaryOp::LogicalAnd if x == 0 => return Some(0),
                BinaryOp::LogicalOr if x != 0 => return Some(1),
                _ => {}
            }
            let y = operand(right, locals, globals)?;
            binary_value(*operator, *integer_type, x, y)
        }
        TypedExpression::Conditional(_, parts) => {
            let (test, first, second) = &**parts;
            if operand(test, locals, globals)? == 0 {
                operand(second, locals, globals)
            } else {
                operand(first, locals, globals)
            }
        }
    }
}
