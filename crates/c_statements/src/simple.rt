//! Types of simple statements: assignments and calls.
ghost use Rattle.std.specs.Prelude.{IfOk, IfErr, is_some};
ghost use Rattle.c_tree.specs.Shape.{expressions_of, maybe_expression_of, call_of, value_tree, maybe_value_tree, simple_of};
ghost use Rattle.c_tree.specs.Shape.{maybe_simple_of};
ghost use Rattle.c_statements.specs.Faults.{Answers, both_of};
ghost use Rattle.c_statements.specs.Made.{HasLast, MadeOf, Stops};
ghost use Rattle.c_statements.specs.Shape.{environment_of};
ghost use Rattle.c_typed.specs.Shape.{typed_expression_of, typed_expressions_of, statement_of};
ghost use Rattle.c_statements.specs.Statements.{FaultyAll, FaultyMaybe, FaultyCall, FaultyValue, FaultyFirst, FaultySimple, FaultyPart};
ghost use Rattle.c_statements.specs.Types.{TypesAll, TypesPlace, TypesCall, TypesValue, TypesSimple, TypesPart, TypesTest, TypesFirst};
ghost use Rattle.c_statements.specs.Uses.{Misused, as_value};

use crate::call::{Target, callee};
use crate::compound::{second, store};
use crate::expression::{array, declared_name, expression, misuse};
use crate::fault::{TypeFaultKind, TypeStop, both};
use crate::names::Named;
use crate::symbol_table::Scopes;
use c_tokens::{Identifier, IntegerType, Literal};
use c_tree::{Call, Expression, Program, Simple, Value};
use c_typed::{Destination, TypedExpression, TypedStatement};
use std::alloc::{AllocError, AllocFailed, Global};

/// Returns a list of typed parts with one more at its end.
#[inline(always)]
pub fn with_one<T: Drop>(
    all: Result<Vec<T>, TypeStop>,
    one: Result<T, TypeStop>,
) -> Result<Vec<T>, TypeStop>
    ensures ok { IfOk result (MadeOf (both_of all one) HasLast) }
    ensures err { IfErr result (Stops (both_of all one)) }
{
    let (mut all, last) = both(all, one)?;
    all.push(last)?;
    Ok(all)
}

/// Returns the typed arguments of a call, or their first fault.
pub fn arguments(
    alloc: Global,
    program: &Program,
    scopes: &Scopes,
    all: &[Expression],
) -> Result<Vec<TypedExpression>, TypeStop>
    ensures { Answers (λ v. TypesAll (environment_of program.now scopes.now) (expressions_of all.now) (typed_expressions_of v.items))
        (FaultyAll (environment_of program.now scopes.now) (expressions_of all.now)) result }
{
    let mut typed = Ok(Vec::with_capacity(alloc, all.len())?);
    for one in all {
        typed = with_one(typed, expression(alloc, program, scopes, one));
    }
    typed
}

/// Returns a call whose result goes to a place, if it is used; `out` has no result.
pub fn call_to(
    alloc: Global,
    program: &Program,
    scopes: &Scopes,
    to: Option<Destination>,
    called: &Call,
) -> Result<TypedStatement, TypeStop>
    ensures { Answers (λ s. TypesCall (environment_of program.now scopes.now) to (call_of called.now) (statement_of s))
        (FaultyCall (environment_of program.now scopes.now) (is_some to) (call_of called.now)) result }
{
    let typed = arguments(alloc, program, scopes, &called.arguments);
    let target = callee(
        program,
        scopes,
        called.name,
        called.arguments.len(),
        to.is_some(),
    );
    let (target, mut all) = both(target, typed)?;
    match target {
        Target::Function(number) => Ok(TypedStatement::Call(to, number, all)),
        Target::Out => match all.pop() {
            Some(argument) => Ok(TypedStatement::Output(argument)),
            None => unreachable!(),
        },
    }
}

/// Returns where the value of the variable of a name is kept.
pub fn place(program: &Program, scopes: &Scopes, name: Identifier) -> Result<Destination, TypeStop>
    ensures { Answers (TypesPlace (environment_of program.now scopes.now) name)
        (Misused (environment_of program.now scopes.now) name as_value) result }
{
    let named = declared_name(program, scopes, name)?;
    match named {
        Named::Local(number, _) => Ok(Destination::Local(number)),
        Named::Global(number, _) => Ok(Destination::Global(number)),
        _ => Err(misuse(TypeFaultKind::Kind, name)),
    }
}

/// Types the value that a place is given.
pub fn value(
    alloc: Global,
    program: &Program,
    scopes: &Scopes,
    to: Destination,
    given: &Value,
) -> Result<TypedStatement, TypeStop>
    ensures { Answers (λ s. TypesValue (environment_of program.now scopes.now) to (value_tree given.now) (statement_of s))
        (FaultyValue (environment_of program.now scopes.now) (value_tree given.now)) result }
{
    match given {
        Value::Plain(e) => {
            let term = expression(alloc, program, scopes, e)?;
            Ok(TypedStatement::Assign(to, term))
        }
        Value::Called(called) => call_to(alloc, program, scopes, Some(to), called),
    }
}

/// Returns a simple statement.
pub fn simple(
    alloc: Global,
    program: &Program,
    scopes: &Scopes,
    s: &Simple,
) -> Result<TypedStatement, TypeStop>
    ensures { Answers (λ t. TypesSimple (environment_of program.now scopes.now) (simple_of s.now) (statement_of t))
        (FaultySimple (environment_of program.now scopes.now) (simple_of s.now)) result }
{
    match s {
        Simple::Assign(name, given) => {
            let to = place(program, scopes, *name);
            // without a place the value is looked through for faults alone
            let at = to.unwrap_or(Destination::Local(0));
            second(to, value(alloc, program, scopes, at, given))
        }
        Simple::AssignAt(name, index, given) => {
            let index = expression(alloc, program, scopes, index);
            let given = expression(alloc, program, scopes, given);
            store(array(program, scopes, *name), index, given)
        }
        Simple::CallStatement(called) => call_to(alloc, program, scopes, None, called),
    }
}

/// Returns the first or last part of a `for`; one that is missing does nothing.
pub fn part(
    alloc: Global,
    program: &Program,
    scopes: &Scopes,
    maybe: &Option<Simple>,
) -> Result<TypedStatement, TypeStop>
    ensures { Answers (λ t. TypesPart (environment_of program.now scopes.now) (maybe_simple_of maybe.now) (statement_of t))
        (FaultyPart (environment_of program.now scopes.now) (maybe_simple_of maybe.now)) result }
{
    match maybe {
        Some(s) => simple(alloc, program, scopes, s),
        None => Ok(TypedStatement::Empty),
    }
}

/// Returns the test of a `for`; one that is missing is the constant 1 (C99 6.8.5.3).
pub fn test(
    alloc: Global,
    program: &Program,
    scopes: &Scopes,
    maybe: &Option<Expression>,
) -> Result<TypedExpression, TypeStop>
    ensures { Answers (λ t. TypesTest (environment_of program.now scopes.now) (maybe_expression_of maybe.now) (typed_expression_of t))
        (FaultyMaybe (environment_of program.now scopes.now) (maybe_expression_of maybe.now)) result }
{
    match maybe {
        Some(e) => expression(alloc, program, scopes, e),
        None => Ok(TypedExpression::Constant(Literal {
            value: 1,
            integer_type: IntegerType::SignedInt,
        })),
    }
}

/// Returns the first value of the local of a number; without one the local is unset.
pub fn first_value(
    alloc: Global,
    program: &Program,
    scopes: &Scopes,
    number: usize,
    maybe: &Option<Value>,
) -> Result<TypedStatement, TypeStop>
    ensures { Answers (λ t. TypesFirst (environment_of program.now scopes.now) number (maybe_value_tree maybe.now) (statement_of t))
        (FaultyFirst (environment_of program.now scopes.now) (maybe_value_tree maybe.now)) result }
{
    match maybe {
        Some(given) => value(alloc, program, scopes, Destination::Local(number), given),
        None => Ok(TypedStatement::Unset(number)),
    }
}
