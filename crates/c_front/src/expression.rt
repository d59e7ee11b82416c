//! Expressions, level by level of precedence (C99 6.5).
ghost use Rattle.std.specs.Prelude.{IfOk, IfErr, IfSome, IfNone, Some};
ghost use Rattle.c_front.specs.Grammar.{an_expression, operands, unary_expressions, Level, Operator, Prefix, first, value};
ghost use Rattle.c_front.specs.Grammar.{arguments};
ghost use Rattle.c_front.specs.Choosing.{EndsOperands};
ghost use Rattle.c_tree.specs.Shape.{expression_of, expressions_of, value_tree};
ghost use Rattle.c_front.specs.Parsing.{IsRead, IsStuck, level_of, StartsWithOperator, EndsBelow, IsChoiceRead, IsChoiceStuck};
ghost use Rattle.c_front.specs.Parsing.{IsNoPrefix};
ghost use Rattle.c_front.specs.Parsing.{IsEndedRead, IsEndedStuck, StartsCall, StartsNoCall};
ghost use Rattle.c_tokens.specs.declared.token.Mark.TheVariants.{RightParen};
ghost use Rattle.c_tokens.specs.declared.token.Token.TheVariants.{The};

use crate::cursor::{ParseStop, Parsed, split, starts};
use crate::part::{box_part, expect_after, push_part};
use c_tokens::{Identifier, Mark, Token};
use c_tree::{BinaryOp, Call, Expression, UnaryOp, Value};
use std::alloc::{AllocError, AllocFailed, Global};

/// Returns the operator that a token is, and the level of its operands.
#[tactic(auto, using(crate::proofs::Operators::operators))]
fn operator_of(mark: Mark) -> Option<(usize, BinaryOp)>
    ensures none { IfNone result ((l : Level) → EndsOperands l (Some (The mark))) }
    ensures some { IfSome result (λ r. Operator (level_of r.0) r.1 mark) }
{
    match mark {
        Mark::Star => Some((0, BinaryOp::Multiply)),
        Mark::Slash => Some((0, BinaryOp::Divide)),
        Mark::Percent => Some((0, BinaryOp::Remainder)),
        Mark::Plus => Some((1, BinaryOp::Add)),
        Mark::Minus => Some((1, BinaryOp::Subtract)),
        Mark::LessLess => Some((2, BinaryOp::ShiftLeft)),
        Mark::GreaterGreater => Some((2, BinaryOp::ShiftRight)),
        Mark::LessSign => Some((3, BinaryOp::Less)),
        Mark::GreaterSign => Some((3, BinaryOp::Greater)),
        Mark::LessEqual => Some((3, BinaryOp::LessOrEqual)),
        Mark::GreaterEqual => Some((3, BinaryOp::GreaterOrEqual)),
        Mark::EqualEqual => Some((4, BinaryOp::Equal)),
        Mark::BangEqual => Some((4, BinaryOp::NotEqual)),
        Mark::Ampersand => Some((5, BinaryOp::BitAnd)),
        Mark::Caret => Some((6, BinaryOp::BitXor)),
        Mark::Bar => Some((7, BinaryOp::BitOr)),
        Mark::AndAnd => Some((8, BinaryOp::LogicalAnd)),
        Mark::BarBar => Some((9, BinaryOp::LogicalOr)),
        _ => None,
    }
}

/// Parses the binary operator at the front, with its level and the tokens after it.
fn operator<'a>(tokens: &'a [Token]) -> Option<(usize, BinaryOp, &'a [Token])>
    ensures none { IfNone result ((l : Level) → EndsOperands l (first tokens.now)) }
    ensures some { IfSome result (λ r. StartsWithOperator (level_of r.0) r.1 tokens.now r.2.now) }
{
    match split(tokens)? {
        (Token::The(mark), rest) => {
            let (level, operator) = operator_of(mark)?;
            Some((level, operator, rest))
        }
        _ => None,
    }
}

/// Returns the prefix operator that a mark is.
#[tactic(auto, using(crate::proofs::Operators::prefixes))]
fn prefix_of(mark: Mark) -> Option<UnaryOp>
    ensures none { IfNone result (IsNoPrefix mark) }
    ensures some { IfSome result (λ o. Prefix o mark) }
{
    match mark {
        Mark::Minus => Some(UnaryOp::Negate),
        Mark::Plus => Some(UnaryOp::Identity),
        Mark::Tilde => Some(UnaryOp::Complement),
        Mark::Bang => Some(UnaryOp::Not),
        _ => None,
    }
}

/// Parses an expression.
#[cycle(expressions)]
pub fn expression<'a>(alloc: Global, tokens: &'a [Token]) -> Parsed<'a, Expression>
    ensures ok { IfOk result (λ r. IsRead an_expression tokens.now r.1.now (expression_of r.0)) }
    ensures err { IfErr result (IsStuck an_expression tokens.now) }
{
    let (condition, rest) = operands(alloc, 10, tokens)?;
    match starts(rest, Mark::Question) {
        Some(after) => {
            let (first, second, end) = choice(alloc, after)?;
            let parts = Box::new(alloc, (condition, first, second))?;
            Ok((Expression::Conditional(parts), end))
        }
        None => Ok((condition, rest)),
    }
}

/// Parses the two expressions of a choice, after its question mark.
#[cycle(expressions)]
fn choice<'a>(
    alloc: Global,
    tokens: &'a [Token],
) -> Result<(Expression, Expression, &'a [Token]), ParseStop<'a>>
    ensures ok { IfOk result (λ r. IsChoiceRead tokens.now r.2.now (expression_of r.0) (expression_of r.1)) }
    ensures err { IfErr result (IsChoiceStuck tokens.now) }
{
    let (first, rest) = closed_expression(alloc, tokens, Mark::Colon)?;
    let (second, end) = expression(alloc, rest)?;
    Ok((first, second, end))
}

/// Parses an expression, and the token that has to follow it.
#[cycle(expressions)]
pub fn closed_expression<'a>(
    alloc: Global,
    tokens: &'a [Token],
    closing: Mark,
) -> Parsed<'a, Expression>
    ensures ok { IfOk result (λ r. IsEndedRead an_expression closing tokens.now r.1.now (expression_of r.0)) }
    ensures err { IfErr result (IsEndedStuck an_expression closing tokens.now) }
{
    expect_after(expression(alloc, tokens), closing)
}

/// Parses operands and the binary operators between them that bind tighter than those of a level, by precedence climbing.
#[cycle(expressions)]
fn operands<'a>(alloc: Global, level: usize, tokens: &'a [Token]) -> Parsed<'a, Expression>
    ensures ok { IfOk result (λ r. IsRead (operands (level_of level)) tokens.now r.1.now (expression_of r.0)) }
    ensures ends { IfOk result (λ r. EndsBelow level (first r.1.now)) }
    ensures err { IfErr result (IsStuck (operands (level_of level)) tokens.now) }
{
    if level == 0 {
        return operand(alloc, tokens);
    }
    let (mut left, mut rest) = operand(alloc, tokens)?;
    'climbing: loop {
        let Some((found, operator, after)) = operator(rest) else {
            return Ok((left, rest));
        };
        if found >= level {
            return Ok((left, rest));
        }
        let (right, next) = operands(alloc, found, after)?;
        left = Expression::Binary(operator, Box::new(alloc, (left, right))?);
        rest = next;
    }
}

/// Parses an operand: a constant, a name, a name with an index, a prefix with its operand, or an expression in parentheses.
#[cycle(expressions)]
fn operand<'a>(alloc: Global, tokens: &'a [Token]) -> Parsed<'a, Expression>
    ensures ok { IfOk result (λ r. IsRead (operands unary_expressions) tokens.now r.1.now (expression_of r.0)) }
    ensures err { IfErr result (IsStuck (operands unary_expressions) tokens.now) }
{
    let Some((token, rest)) = split(tokens) else {
        return Err(ParseStop::Syntax(tokens));
    };
    match token {
        Token::Constant(literal) => Ok((Expression::Constant(literal), rest)),
        Token::Jump(_, _) => Err(ParseStop::Syntax(tokens)),
        Token::Name(name) => match starts(rest, Mark::LeftBracket) {
            Some(after) => {
                let (index, end) = closed_expression(alloc, after, Mark::RightBracket)?;
                let parts = Box::new(alloc, (name, index))?;
                Ok((Expression::Index(parts), end))
            }
            None => Ok((Expression::Name(name), rest)),
        },
        Token::The(mark) => {
            if let Some(operator) = prefix_of(mark) {
                let (inner, end) = box_part(alloc, operand(alloc, rest))?;
                return Ok((Expression::Unary(operator, inner), end));
            }
            match mark {
                Mark::LeftParen => closed_expression(alloc, rest, Mark::RightParen),
                _ => Err(ParseStop::Syntax(tokens)),
            }
        }
    }
}

/// Parses arguments and their closing parenthesis.
pub fn arguments<'a>(alloc: Global, tokens: &'a [Token]) -> Parsed<'a, Vec<Expression>>
    ensures ok { IfOk result (λ r. IsEndedRead arguments RightParen tokens.now r.1.now (expressions_of r.0.items)) }
    ensures err { IfErr result (IsEndedStuck arguments RightParen tokens.now) }
{
    if let Some(end) = starts(tokens, Mark::RightParen) {
        return Ok((Vec::new(alloc), end));
    }
    let mut all = Vec::new(alloc);
    let mut rest = push_part(&mut all, expression(alloc, tokens))?;
    'more: while let Some(after) = starts(rest, Mark::Comma) {
        rest = push_part(&mut all, expression(alloc, after))?;
    }
    expect_after(Ok((all, rest)), Mark::RightParen)
}

/// Parses the name of a call, and what stands after its opening parenthesis.
fn call_start<'a>(tokens: &'a [Token]) -> Option<(Identifier, &'a [Token])>
    ensures none { IfNone result (StartsNoCall tokens.now) }
    ensures some { IfSome result (λ r. StartsCall tokens.now r.0 r.1.now) }
{
    match split(tokens)? {
        (Token::Name(name), rest) => {
            let after = starts(rest, Mark::LeftParen)?;
            Some((name, after))
        }
        _ => None,
    }
}

/// Parses what a name may be given: an expression or a call.
pub fn value<'a>(alloc: Global, tokens: &'a [Token]) -> Parsed<'a, Value>
    ensures ok { IfOk result (λ r. IsRead value tokens.now r.1.now (value_tree r.0)) }
    ensures err { IfErr result (IsStuck value tokens.now) }
{
    match call_start(tokens) {
        Some((name, after)) => {
            let (arguments, end) = arguments(alloc, after)?;
            Ok((Value::Called(Call { name, arguments }), end))
        }
        None => {
            let (inner, end) = expression(alloc, tokens)?;
            Ok((Value::Plain(inner), end))
        }
    }
}
