//! Types of expressions (C99 6.5).
ghost use Rattle.std.specs.Prelude.{◌≡◌, IfOk, IfErr, None, Some};
ghost use Rattle.c_statements.specs.declared.names.Named.TheVariants.{Array};
ghost use Rattle.c_statements.specs.declared.fault.TypeFaultKind.TheVariants.{Undeclared};
ghost use Rattle.c_statements.specs.declared.fault.TypeStop.TheVariants.{Fault};
ghost use Rattle.c_tree.specs.Shape.{expression_of};
ghost use Rattle.c_tree.specs.Tree as Tree;
ghost use Rattle.c_statements.specs.Faults.{Answers};
ghost use Rattle.c_statements.specs.Shape.{environment_of};
ghost use Rattle.c_statements.specs.Names.{Environment};
ghost use Rattle.c_typed.specs.Shape.{typed_expression_of};
ghost use Rattle.c_typed.specs.Trees as Trees;
ghost use Rattle.c_statements.specs.Types.{Types};
ghost use Rattle.c_statements.specs.Uses.{Faulty, Misused, as_value, with_index};

use crate::fault::{TypeFault, TypeFaultKind, TypeStop};
use crate::names::Named;
use crate::operation::{binary, conditional, element, unary};
use crate::symbol_table::Scopes;
use c_tokens::{Identifier, IntegerType};
use c_tree::{Expression, Program};
use c_typed::TypedExpression;
use std::alloc::Global;

/// Returns a use of a name that is a fault.
pub fn misuse(kind: TypeFaultKind, name: Identifier) -> TypeStop
    ensures { result ≡ Fault (record { kind = kind; at = name.at }) }
{
    TypeStop::Fault(TypeFault {
        kind,
        at: name.at as usize,
    })
}

/// Returns what a name stands for, if anything declares it.
pub fn declared_name(
    program: &Program,
    scopes: &Scopes,
    name: Identifier,
) -> Result<Named, TypeStop>
    ensures ok { IfOk result (λ n. environment_of program.now scopes.now name ≡ Some n) }
    ensures err { IfErr result (λ s. (environment_of program.now scopes.now name ≡ None)
        × (s ≡ Fault (record { kind = Undeclared; at = name.at }))) }
{
    match scopes.find(program, name) {
        Some(named) => Ok(named),
        None => Err(misuse(TypeFaultKind::Undeclared, name)),
    }
}

/// Returns the variable that a name stands for as a value.
fn variable(
    program: &Program,
    scopes: &Scopes,
    name: Identifier,
) -> Result<TypedExpression, TypeStop>
    ensures { Answers (λ t. Types (environment_of program.now scopes.now) (Tree.name name) (typed_expression_of t))
        (Misused (environment_of program.now scopes.now) name as_value) result }
{
    let named = declared_name(program, scopes, name)?;
    match named {
        Named::Local(number, integer_type) => Ok(TypedExpression::Local(integer_type, number)),
        Named::Global(number, integer_type) => Ok(TypedExpression::Global(integer_type, number)),
        _ => Err(misuse(TypeFaultKind::Kind, name)),
    }
}

/// Returns the number and the type of the array that a name with an index stands for.
pub fn array(
    program: &Program,
    scopes: &Scopes,
    name: Identifier,
) -> Result<(usize, IntegerType), TypeStop>
    ensures { Answers (λ r. environment_of program.now scopes.now name ≡ Some (Array r.0 r.1))
        (Misused (environment_of program.now scopes.now) name with_index) result }
{
    let named = declared_name(program, scopes, name)?;
    match named {
        Named::Array(number, integer_type) => Ok((number, integer_type)),
        _ => Err(misuse(TypeFaultKind::Kind, name)),
    }
}

/// Returns the same as `expression`, without a call for a constant and a variable.
#[cycle(expressions)]
#[inline(always)]
fn operand(
    alloc: Global,
    program: &Program,
    scopes: &Scopes,
    e: &Expression,
) -> Result<TypedExpression, TypeStop>
    ensures { Answers (λ t. Types (environment_of program.now scopes.now) (expression_of e.now) (typed_expression_of t))
        (Faulty (environment_of program.now scopes.now) (expression_of e.now)) result }
{
    match e {
        Expression::Constant(literal) => Ok(TypedExpression::Constant(*literal)),
        Expression::Name(name) => variable(program, scopes, *name),
        _ => expression(alloc, program, scopes, e),
    }
}

/// Returns the typed tree of an expression under the names in sight, or its first fault.
#[cycle(expressions)]
pub fn expression(
    alloc: Global,
    program: &Program,
    scopes: &Scopes,
    e: &Expression,
) -> Result<TypedExpression, TypeStop>
    ensures { Answers (λ t. Types (environment_of program.now scopes.now) (expression_of e.now) (typed_expression_of t))
        (Faulty (environment_of program.now scopes.now) (expression_of e.now)) result }
{
    match e {
        Expression::Constant(literal) => Ok(TypedExpression::Constant(*literal)),
        Expression::Name(name) => variable(program, scopes, *name),
        Expression::Index(parts) => {
            let (name, inner) = &**parts;
            let index = operand(alloc, program, scopes, inner);
            element(alloc, array(program, scopes, *name), index)
        }
        Expression::Unary(operator, inner) => {
            unary(alloc, *operator, operand(alloc, program, scopes, inner))
        }
        Expression::Binary(operator, operands) => {
            let (first, second) = &**operands;
            let left = operand(alloc, program, scopes, first);
            let right = operand(alloc, program, scopes, second);
            binary(alloc, *operator, left, right)
        }
        Expression::Conditional(parts) => {
            let (test, first, second) = &**parts;
            let test = operand(alloc, program, scopes, test);
            let yes = operand(alloc, program, scopes, first);
            let no = operand(alloc, program, scopes, second);
            conditional(alloc, test, yes, no)
        }
    }
}

/// States that an expression has at most one typed tree under the names in sight.
pub fn one_typing()
    ensures { (scope : Environment) (e : Tree.Expression) (t u : Trees.TypedExpression) → Types scope e t → Types scope e u → t ≡ u }
{}
