//! Declarations at file scope: variables, arrays and functions (C99 6.7, 6.9).
ghost use Rattle.std.specs.Prelude.{◌≡◌, IfOk, IfErr, List};
ghost use Rattle.c_front.specs.Grammar.{Spells, initial, parameters, function_rest, after_global, a_declaration, a_program};
ghost use Rattle.c_tree.specs.Shape.{declaration_of, declarations_of};
ghost use Rattle.c_front.specs.Parsing.{IsRead, IsStuck, IsParameterRead, IsParameterStuck, IsTailRead, IsLengthRead};
ghost use Rattle.c_front.specs.Parsing.{IsLengthStuck};
ghost use Rattle.c_front.specs.Syntax.{IsFault};
ghost use Rattle.c_tokens.specs.declared.token.Token.{Token};
ghost use Rattle.c_tokens.specs.declared.token.Literal.{Literal};
ghost use Rattle.c_tree.specs.Tree as Tree;
ghost use Rattle.c_tree.specs.Tree.{array, function};

use crate::cursor::{ParseStop, Parsed, expect, literal, name, split, starts, starts_bytes};
use crate::part::{expect_after, push_part};
use crate::statement::{integer_type, items};
use c_tokens::{Identifier, IntegerType, Literal, Mark, Token};
use c_tree::{Declaration, FunctionDefinition, Initial, Item, Parameter};
use std::alloc::{AllocError, AllocFailed, Global};
use words::Width;

/// Parses the first value of a global variable.
fn initial<'a>(tokens: &'a [Token]) -> Parsed<'a, Initial>
    ensures ok { IfOk result (λ r. IsRead initial tokens.now r.1.now r.0) }
    ensures err { IfErr result (IsStuck initial tokens.now) }
{
    match starts(tokens, Mark::Minus) {
        Some(after) => {
            let (found, end) = literal(after)?;
            Ok((
                Initial {
                    negative: true,
                    literal: found,
                },
                end,
            ))
        }
        None => {
            let (found, end) = literal(tokens)?;
            Ok((
                Initial {
                    negative: false,
                    literal: found,
                },
                end,
            ))
        }
    }
}

/// Parses a parameter: its type and its name.
fn parameter<'a>(tokens: &'a [Token]) -> Parsed<'a, Parameter>
    ensures ok { IfOk result (λ r. IsParameterRead tokens.now r.1.now r.0) }
    ensures err { IfErr result (IsParameterStuck tokens.now) }
{
    let Some((integer_type, after)) = integer_type(tokens) else {
        return Err(ParseStop::Syntax(tokens));
    };
    let (name, end) = name(after)?;
    Ok((Parameter { integer_type, name }, end))
}

/// Parses `void`, or the parameters of a function.
fn parameters<'a>(alloc: Global, tokens: &'a [Token]) -> Parsed<'a, Vec<Parameter>>
    ensures ok { IfOk result (λ r. IsRead parameters tokens.now r.1.now r.0.items) }
    ensures err { IfErr result (IsStuck parameters tokens.now) }
{
    if let Some(end) = starts(tokens, Mark::Void) {
        return Ok((Vec::new(alloc), end));
    }
    let mut all = Vec::new(alloc);
    let mut rest = push_part(&mut all, parameter(tokens))?;
    'more: while let Some(after) = starts(rest, Mark::Comma) {
        rest = push_part(&mut all, parameter(after))?;
    }
    Ok((all, rest))
}

/// Parses a function after its name: its parameters and its body.
fn function<'a>(
    alloc: Global,
    gives: Option<IntegerType>,
    name: Identifier,
    tokens: &'a [Token],
) -> Parsed<'a, Declaration>
    ensures ok { IfOk result (λ r. (ps : _) × (is : _) × IsRead function_rest tokens.now r.1.now (ps, is)
        × (declaration_of r.0 ≡ function gives name ps is)) }
    ensures err { IfErr result (IsStuck function_rest tokens.now) }
{
    let open = expect(tokens, Mark::LeftParen)?;
    let closed = expect_after(parameters(alloc, open), Mark::RightParen);
    let (given, start) = expect_after(closed, Mark::LeftBrace)?;
    let (body, end) = expect_after(items(alloc, start), Mark::RightBrace)?;
    Ok((
        Declaration::Function(FunctionDefinition {
            result: gives,
            name,
            parameters: given,
            body,
        }),
        end,
    ))
}

/// Parses an array after its name and its opening bracket: its length, up to the end of its declaration.
fn array<'a>(
    width: Width,
    integer_type: IntegerType,
    name: Identifier,
    tokens: &'a [Token],
) -> Parsed<'a, Declaration>
    ensures ok { IfOk result (λ r. (n : Literal) × IsLengthRead tokens.now r.1.now n
        × (declaration_of r.0 ≡ array width integer_type name n)) }
    ensures err { IfErr result (IsLengthStuck tokens.now) }
{
    let closed = expect_after(literal(tokens), Mark::RightBracket);
    let (length, end) = expect_after(closed, Mark::Semicolon)?;
    Ok((Declaration::Array(width, integer_type, name, length), end))
}

/// Parses what stands after the type and the name of a declaration.
fn after_global<'a>(
    alloc: Global,
    integer_type: IntegerType,
    name: Identifier,
    tokens: &'a [Token],
) -> Parsed<'a, Declaration>
    ensures ok { IfOk result (λ r. IsTailRead integer_type name tokens.now r.1.now (declaration_of r.0)) }
    ensures err { IfErr result (IsStuck after_global tokens.now) }
{
    if let Some(end) = starts(tokens, Mark::Semicolon) {
        return Ok((Declaration::Variable(integer_type, name, None), end));
    }
    if let Some(start) = starts(tokens, Mark::Assign) {
        let (given, end) = expect_after(initial(start), Mark::Semicolon)?;
        return Ok((Declaration::Variable(integer_type, name, Some(given)), end));
    }
    if let Some(start) = starts(tokens, Mark::LeftBracket) {
        return array(Width::Word, integer_type, name, start);
    }
    function(alloc, Some(integer_type), name, tokens)
}

/// Parses a declaration at file scope.
fn declaration<'a>(alloc: Global, tokens: &'a [Token]) -> Parsed<'a, Declaration>
    ensures ok { IfOk result (λ r. IsRead a_declaration tokens.now r.1.now (declaration_of r.0)) }
    ensures err { IfErr result (IsStuck a_declaration tokens.now) }
{
    if let Some(after) = starts(tokens, Mark::Void) {
        let (name, start) = name(after)?;
        return function(alloc, None, name, start);
    }
    if let Some(after) = starts_bytes(tokens) {
        let (name, start) = expect_after(name(after), Mark::LeftBracket)?;
        return array(Width::Byte, IntegerType::SignedInt, name, start);
    }
    let Some((integer_type, after)) = integer_type(tokens) else {
        return Err(ParseStop::Syntax(tokens));
    };
    let (name, start) = name(after)?;
    after_global(alloc, integer_type, name, start)
}

/// Parses the declarations up to the last token.
fn declarations<'a>(alloc: Global, tokens: &'a [Token]) -> Result<Vec<Declaration>, ParseStop<'a>>
    ensures ok { IfOk result (λ all. Spells tokens.now (declarations_of all.items)) }
    ensures err { IfErr result (IsStuck a_program tokens.now) }
{
    let mut all = Vec::new(alloc);
    let mut rest = tokens;
    'declarations: while let Some(_) = split(rest) {
        rest = push_part(&mut all, declaration(alloc, rest))?;
    }
    Ok(all)
}

/// The place of the first wrong token, or lack of memory.
#[derive(Clone, Copy)]
pub enum SyntaxFault {
    Wrong(usize),
    OutOfMemory,
}

/// Returns the number of the first wrong token, where parsing stopped at the rest of the tokens.
fn fault_at(tokens: &[Token], stop: ParseStop) -> SyntaxFault
    requires { IsStuck a_program tokens.now stop }
    ensures { IsFault tokens.now result }
{
    match stop {
        ParseStop::Syntax(rest) => SyntaxFault::Wrong(tokens.len() - rest.len()),
        ParseStop::NoMemory => SyntaxFault::OutOfMemory,
    }
}

/// Parses the declarations that the tokens spell, or the number of the first token with which the tokens so far begin no program. Where
/// they end too early, that is how many there are.
pub fn parse(alloc: Global, tokens: &[Token]) -> Result<Vec<Declaration>, SyntaxFault>
    ensures ok { IfOk result (λ all. Spells tokens.now (declarations_of all.items)) }
    ensures err { IfErr result (IsFault tokens.now) }
{
    match declarations(alloc, tokens) {
        Ok(found) => Ok(found),
        Err(stop) => Err(fault_at(tokens, stop)),
    }
}

/// States that the tokens spell at most one program.
pub fn one_program()
    ensures { (ts : List Token) (p q : List Tree.Declaration) → Spells ts p → Spells ts q → p ≡ q }
{}
