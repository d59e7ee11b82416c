//! Statements (C99 6.8), and the simple statements of this subset.
ghost use Rattle.std.specs.Prelude.{◌≡◌, ◌∷◌, true, false, IfOk, IfErr, IfSome, IfNone};
ghost use Rattle.c_front.specs.Grammar.{first, a_statement, an_item, items, simple, a_type, declared, maybe_simple, maybe_expression};
ghost use Rattle.c_front.specs.Choosing.{EndsItems, StartsItem};
ghost use Rattle.c_tree.specs.Shape.{expression_of, value_tree, maybe_value_tree, simple_of, maybe_simple_of, maybe_expression_of};
ghost use Rattle.c_tree.specs.Shape.{statement_of};
ghost use Rattle.c_tree.specs.Shape.{item_of, items_of};
ghost use Rattle.c_front.specs.Parsing.{IsRead, IsStuck, IsConditionRead, IsConditionStuck, IsAssignedRead, IsAssignedStuck, IsBranchRead};
ghost use Rattle.c_front.specs.Parsing.{IsBranchStuck, IsEndedRead, IsEndedStuck, IsHeadRead, IsHeadStuck, HasNoType};
ghost use Rattle.c_tokens.specs.declared.token.Token.TheVariants.{The, Jump, Name};
ghost use Rattle.c_tokens.specs.declared.token.Mark.TheVariants.{While, For, Semicolon};

use crate::cursor::{ParseStop, Parsed, expect, name, split, starts};
use crate::expression::{arguments, closed_expression, expression, value};
use crate::part::{box_part, expect_after, join_part, push_part};
use c_tokens::{Identifier, IntegerType, JumpWord, Mark, Token};
use c_tree::{Call, Expression, ForParts, Item, Simple, Statement, Value};
use std::alloc::{AllocError, AllocFailed, Global};

/// Parses the value after an equals sign.
fn assigned_value<'a>(alloc: Global, tokens: &'a [Token]) -> Parsed<'a, Value>
    ensures ok { IfOk result (λ r. IsAssignedRead tokens.now r.1.now (value_tree r.0)) }
    ensures err { IfErr result (IsAssignedStuck tokens.now) }
{
    let start = expect(tokens, Mark::Assign)?;
    value(alloc, start)
}

/// Parses an assignment, an indexed assignment or a call, after the name with which it begins.
fn simple<'a>(alloc: Global, name: Identifier, tokens: &'a [Token]) -> Parsed<'a, Simple>
    ensures ok { IfOk result (λ r. IsRead simple (Name name ∷ tokens.now) r.1.now (simple_of r.0)) }
    ensures err { IfErr result (IsStuck simple (Name name ∷ tokens.now)) }
{
    if let Some(after) = starts(tokens, Mark::LeftParen) {
        let (arguments, end) = arguments(alloc, after)?;
        return Ok((Simple::CallStatement(Call { name, arguments }), end));
    }
    if let Some(after) = starts(tokens, Mark::LeftBracket) {
        let (index, start) = expect_after(
            closed_expression(alloc, after, Mark::RightBracket),
            Mark::Assign,
        )?;
        let (given, end) = expression(alloc, start)?;
        return Ok((Simple::AssignAt(name, index, given), end));
    }
    let (given, end) = assigned_value(alloc, tokens)?;
    Ok((Simple::Assign(name, given), end))
}

/// Parses a condition in parentheses.
fn condition<'a>(alloc: Global, tokens: &'a [Token]) -> Parsed<'a, Expression>
    ensures ok { IfOk result (λ r. IsConditionRead tokens.now r.1.now (expression_of r.0)) }
    ensures err { IfErr result (IsConditionStuck tokens.now) }
{
    let open = expect(tokens, Mark::LeftParen)?;
    closed_expression(alloc, open, Mark::RightParen)
}

/// Parses the type at the front, if one stands here: `int`, `unsigned` or `unsigned int`.
pub fn integer_type<'a>(tokens: &'a [Token]) -> Option<(IntegerType, &'a [Token])>
    ensures none { IfNone result (HasNoType tokens.now) }
    ensures some { IfSome result (λ r. IsRead a_type tokens.now r.1.now r.0) }
{
    if let Some(rest) = starts(tokens, Mark::Int) {
        return Some((IntegerType::SignedInt, rest));
    }
    let rest = starts(tokens, Mark::Unsigned)?;
    match starts(rest, Mark::Int) {
        Some(after) => Some((IntegerType::UnsignedInt, after)),
        None => Some((IntegerType::UnsignedInt, rest)),
    }
}

/// Parses a simple statement, if one stands here, and the mark that has to follow.
fn ended_simple<'a>(alloc: Global, tokens: &'a [Token], closing: Mark) -> Parsed<'a, Option<Simple>>
    ensures ok { IfOk result (λ r. IsEndedRead maybe_simple closing tokens.now r.1.now (maybe_simple_of r.0)) }
    ensures err { IfErr result (IsEndedStuck maybe_simple closing tokens.now) }
{
    match name(tokens) {
        Ok((name, rest)) => {
            let (inner, end) = expect_after(simple(alloc, name, rest), closing)?;
            Ok((Some(inner), end))
        }
        Err(_) => expect_after(Ok((None, tokens)), closing),
    }
}

/// Parses an expression, if one stands here, and the semicolon that has to follow.
fn ended_expression<'a>(alloc: Global, tokens: &'a [Token]) -> Parsed<'a, Option<Expression>>
    ensures ok { IfOk result (λ r. IsEndedRead maybe_expression Semicolon tokens.now r.1.now (maybe_expression_of r.0)) }
    ensures err { IfErr result (IsEndedStuck maybe_expression Semicolon tokens.now) }
{
    if let Some(end) = starts(tokens, Mark::Semicolon) {
        return Ok((None, end));
    }
    let (inner, end) = closed_expression(alloc, tokens, Mark::Semicolon)?;
    Ok((Some(inner), end))
}

/// Parses the parts of a `for` in their parentheses.
fn for_parts<'a>(alloc: Global, tokens: &'a [Token]) -> Parsed<'a, ForParts>
    ensures ok { IfOk result (λ r. IsHeadRead tokens.now r.1.now (maybe_simple_of r.0.first) (maybe_expression_of r.0.test)
        (maybe_simple_of r.0.last)) }
    ensures err { IfErr result (IsHeadStuck tokens.now) }
{
    let open = expect(tokens, Mark::LeftParen)?;
    let (first, second) = ended_simple(alloc, open, Mark::Semicolon)?;
    let (parts, third) = join_part(first, ended_expression(alloc, second))?;
    let (parts, end) = join_part(parts, ended_simple(alloc, third, Mark::RightParen))?;
    let ((first, test), last) = parts;
    Ok((ForParts { first, test, last }, end))
}

/// Parses what stands after `break`, `continue` or `return`.
fn jump<'a>(alloc: Global, word: JumpWord, at: usize, tokens: &'a [Token]) -> Parsed<'a, Statement>
    ensures ok { IfOk result (λ r. IsRead a_statement (Jump word at ∷ tokens.now) r.1.now (statement_of r.0)) }
    ensures err { IfErr result (IsStuck a_statement (Jump word at ∷ tokens.now)) }
{
    match word {
        JumpWord::Break => expect_after(Ok((Statement::Break(at), tokens)), Mark::Semicolon),
        JumpWord::Continue => expect_after(Ok((Statement::Continue(at), tokens)), Mark::Semicolon),
        JumpWord::Return => {
            let (given, end) = ended_expression(alloc, tokens)?;
            Ok((Statement::Return(at, given), end))
        }
    }
}

/// Parses a statement.
#[cycle(statements)]
fn statement<'a>(alloc: Global, tokens: &'a [Token]) -> Parsed<'a, Statement>
    ensures ok { IfOk result (λ r. IsRead a_statement tokens.now r.1.now (statement_of r.0)) }
    ensures err { IfErr result (IsStuck a_statement tokens.now) }
{
    let Some((token, rest)) = split(tokens) else {
        return Err(ParseStop::Syntax(tokens));
    };
    match token {
        Token::Name(name) => {
            let (inner, end) = expect_after(simple(alloc, name, rest), Mark::Semicolon)?;
            Ok((Statement::Simply(inner), end))
        }
        Token::The(mark) => match mark {
            Mark::Semicolon => Ok((Statement::Empty, rest)),
            Mark::LeftBrace => {
                let (all, end) = expect_after(items(alloc, rest), Mark::RightBrace)?;
                Ok((Statement::Block(all), end))
            }
            Mark::If => if_then(alloc, rest),
            Mark::While => while_loop(alloc, rest),
            Mark::For => for_loop(alloc, rest),
            _ => Err(ParseStop::Syntax(tokens)),
        },
        Token::Jump(word, at) => jump(alloc, word, at as usize, rest),
        Token::Constant(_) => Err(ParseStop::Syntax(tokens)),
    }
}

/// Parses what stands after `if`.
#[cycle(statements)]
fn if_then<'a>(alloc: Global, tokens: &'a [Token]) -> Parsed<'a, Statement>
    ensures ok { IfOk result (λ r. IsBranchRead tokens.now r.1.now (statement_of r.0)) }
    ensures err { IfErr result (IsBranchStuck tokens.now) }
{
    let (test, start) = condition(alloc, tokens)?;
    let (first, rest) = box_part(alloc, statement(alloc, start))?;
    match starts(rest, Mark::Else) {
        Some(after) => {
            let (second, end) = box_part(alloc, statement(alloc, after))?;
            Ok((Statement::IfElse(test, first, second), end))
        }
        None => Ok((Statement::If(test, first), rest)),
    }
}

/// Parses what stands after `while`.
#[cycle(statements)]
fn while_loop<'a>(alloc: Global, tokens: &'a [Token]) -> Parsed<'a, Statement>
    ensures ok { IfOk result (λ r. IsRead a_statement (The While ∷ tokens.now) r.1.now (statement_of r.0)) }
    ensures err { IfErr result (IsStuck a_statement (The While ∷ tokens.now)) }
{
    let (test, start) = condition(alloc, tokens)?;
    let (body, end) = box_part(alloc, statement(alloc, start))?;
    Ok((Statement::While(test, body), end))
}

/// Parses what stands after `for`.
#[cycle(statements)]
fn for_loop<'a>(alloc: Global, tokens: &'a [Token]) -> Parsed<'a, Statement>
    ensures ok { IfOk result (λ r. IsRead a_statement (The For ∷ tokens.now) r.1.now (statement_of r.0)) }
    ensures err { IfErr result (IsStuck a_statement (The For ∷ tokens.now)) }
{
    let (parts, start) = box_part(alloc, for_parts(alloc, tokens))?;
    let (body, end) = box_part(alloc, statement(alloc, start))?;
    Ok((Statement::For(parts, body), end))
}

/// Parses the first value of a local variable, if one stands here.
fn first_value<'a>(alloc: Global, tokens: &'a [Token]) -> Parsed<'a, Option<Value>>
    ensures ok { IfOk result (λ r. IsRead declared tokens.now r.1.now (maybe_value_tree r.0)) }
    ensures err { IfErr result (IsStuck declared tokens.now) }
{
    match starts(tokens, Mark::Assign) {
        None => Ok((None, tokens)),
        Some(start) => {
            let (given, end) = value(alloc, start)?;
            Ok((Some(given), end))
        }
    }
}

/// Parses a declaration of a local variable, or a statement.
#[cycle(statements)]
fn item<'a>(alloc: Global, tokens: &'a [Token]) -> Parsed<'a, Item>
    ensures ok { IfOk result (λ r. IsRead an_item tokens.now r.1.now (item_of r.0)) }
    ensures err { IfErr result (IsStuck an_item tokens.now) }
{
    match integer_type(tokens) {
        Some((integer_type, after)) => {
            let (name, start) = name(after)?;
            let (given, end) = expect_after(first_value(alloc, start), Mark::Semicolon)?;
            Ok((Item::Declare(integer_type, name, given), end))
        }
        None => {
            let (inner, end) = statement(alloc, tokens)?;
            Ok((Item::Statement(inner), end))
        }
    }
}

/// Reports whether no item can stand here: at a closing brace, or at the end.
fn ends_items(tokens: &[Token]) -> bool
    ensures ends { result ≡ true → EndsItems (first tokens.now) }
    ensures more { result ≡ false → StartsItem (first tokens.now) }
{
    match split(tokens) {
        None => true,
        Some((token, _)) => match token {
            Token::The(mark) => match mark {
                Mark::RightBrace => true,
                _ => false,
            },
            _ => false,
        },
    }
}

/// Parses the items up to a closing brace, or to the end.
#[cycle(statements)]
pub fn items<'a>(alloc: Global, tokens: &'a [Token]) -> Parsed<'a, Vec<Item>>
    ensures ok { IfOk result (λ r. IsRead items tokens.now r.1.now (items_of r.0.items)) }
    ensures err { IfErr result (IsStuck items tokens.now) }
{
    // most blocks have one item or two, and room for more would stay empty
    let Ok(mut all) = Vec::with_capacity(alloc, 2) else {
        return Err(ParseStop::NoMemory);
    };
    let mut rest = tokens;
    'items: while !ends_items(rest) {
        rest = push_part(&mut all, item(alloc, rest))?;
    }
    Ok((all, rest))
}
