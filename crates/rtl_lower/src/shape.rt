//! What a statement's shape tells of its code.
ghost use Rattle.std.specs.Prelude.{◌≡◌, ◌&&◌, not};
ghost use Rattle.c_typed.specs.Shape.{typed_expression_of, statement_of};
ghost use Rattle.rtl_lower.specs.Sizes.{continues};
ghost use Rattle.rtl_lower.specs.Sizes as Sizes;

use c_tree::{BinaryOp, UnaryOp};
use c_typed::{TypedExpression, TypedStatement};

/// Reports whether a `continue` of this loop may stand in a statement.
pub(crate) fn may_continue(s: &TypedStatement) -> bool
    ensures { result ≡ continues (statement_of s.now) }
{
    match s {
        TypedStatement::Block(all) => {
            for one in all {
                if may_continue(one) {
                    return true;
                }
            }
            false
        }
        TypedStatement::If(_, a, b) => may_continue(a) || may_continue(b),
        TypedStatement::Loop(_, last, _) => may_continue(last),
        TypedStatement::Continue => true,
        _ => false,
    }
}

/// Reports whether a test is one of equality, which seldom holds.
fn is_equality(e: &TypedExpression) -> bool
    ensures { result ≡ Sizes.is_equality (typed_expression_of e.now) }
{
    match e {
        TypedExpression::Unary(operator, _, _) => *operator == UnaryOp::Not,
        TypedExpression::Binary(operator, _, _) => *operator == BinaryOp::Equal,
        _ => false,
    }
}

/// Reports whether code goes on after a statement.
fn stays(s: &TypedStatement) -> bool
    ensures { result ≡ Sizes.stays (statement_of s.now) }
{
    match s {
        TypedStatement::Break | TypedStatement::Continue | TypedStatement::Return(_) => false,
        TypedStatement::Block(all) => match all.as_slice().last() {
            Some(last) => stays(last),
            None => true,
        },
        _ => true,
    }
}

/// Reports whether the first side of an `if` is the likely one: code goes on after it, and the test isn't one of equality.
pub(crate) fn is_likely(test: &TypedExpression, side: &TypedStatement) -> bool
    ensures { result ≡ (Sizes.stays (statement_of side.now) && not (Sizes.is_equality (typed_expression_of test.now))) }
{
    stays(side) && !is_equality(test)
}
