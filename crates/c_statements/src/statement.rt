//! Types of statements and of declarations of locals (C99 6.8).
ghost use Rattle.std.specs.Prelude.{◌≡◌, ◌≢◌, ℕ, List, IfOk, IfErr, Err, false};
ghost use Rattle.c_tree.specs.Shape.{expression_of, maybe_expression_of, maybe_simple_of, maybe_value_tree, statement_of, item_of};
ghost use Rattle.c_tree.specs.Shape.{items_of};
ghost use Rattle.c_tree.specs.Tree as Tree;
ghost use Rattle.c_tree.specs.Tree.{block, if_then, if_then_else, while_loop, for_loop, return_at, more_items, no_items};
ghost use Rattle.c_statements.specs.declared.fault.TypeStop.TheVariants.{NoMemory};
ghost use Rattle.c_statements.specs.Faults.{Answers, HasNone, StopsAtFirst};
ghost use Rattle.c_statements.specs.Shape.{environment_of, scopes_of};
ghost use Rattle.c_statements.specs.Contexts.{Typing, text_of};
ghost use Rattle.c_statements.specs.Names as Names;
ghost use Rattle.c_statements.specs.Names.{environment_in, with_local, behind_item, behind_items};
ghost use Rattle.c_typed.specs.Shape.{maybe_typed_expression_of, statement_of as typed_of, statements_of};
ghost use Rattle.c_statements.specs.Statements.{FaultyMaybe, FaultyReturn, FaultyJump, FaultyDeclarator, FaultyLocal, FaultyStatement};
ghost use Rattle.c_statements.specs.Statements.{FaultyItems};
ghost use Rattle.c_typed.specs.Trees as Trees;
ghost use Rattle.c_typed.specs.Trees.{TypedStatements, more_statements, no_statements};
ghost use Rattle.c_statements.specs.Types.{TypesFirst, TypesMaybe, TypesStatement, TypesItems};

use crate::compound::{if_else, loop_of, second, sequence};
use crate::expression::{expression, misuse};
use crate::fault::{TypeFault, TypeFaultKind, TypeStop, lasting};
use crate::simple::{first_value, part, simple, test, with_one};
use crate::symbol_table::Scopes;
use c_tokens::{Identifier, IntegerType};
use c_tree::{Expression, ForParts, Item, Program, Statement, Value};
use c_typed::{MAX_LOCALS, TypedExpression, TypedStatement};
use std::alloc::{AllocError, AllocFailed, Global};

/// Where statements stand: in the function of a program that gives a result or not, in a loop or not.
#[derive(Clone, Copy)]
pub struct Context<'a> {
    pub alloc: Global,
    pub program: &'a Program,
    pub gives: bool,
    pub in_loop: bool,
}

/// Returns a jump, if it stands in a loop; if not it is a fault, at its keyword.
fn jump<T: Drop>(in_loop: bool, at: usize, typed: T) -> Result<T, TypeStop>
    ensures { Answers (λ t. t ≡ typed) (FaultyJump in_loop at) result }
{
    if in_loop {
        return Ok(typed);
    }
    let kind = TypeFaultKind::Outside;
    Err(TypeStop::Fault(TypeFault { kind, at }))
}

/// Reports whether a `return` has a value exactly if its function gives one; if not it is a fault, at its keyword.
fn fits(gives: bool, given: &Option<Expression>, at: usize) -> Result<(), TypeStop>
    ensures none { IfOk result (λ _. HasNone (FaultyReturn gives (maybe_expression_of given.now) at)) }
    ensures err { IfErr result (StopsAtFirst (FaultyReturn gives (maybe_expression_of given.now) at)) }
{
    if gives == given.is_some() {
        return Ok(());
    }
    let kind = TypeFaultKind::Kind;
    Err(TypeStop::Fault(TypeFault { kind, at }))
}

/// Returns the value of a `return`, if it has one.
fn returned_value(
    alloc: Global,
    program: &Program,
    scopes: &Scopes,
    given: &Option<Expression>,
) -> Result<Option<TypedExpression>, TypeStop>
    ensures { Answers (λ t. TypesMaybe (environment_of program.now scopes.now) (maybe_expression_of given.now)
        (maybe_typed_expression_of t))
        (FaultyMaybe (environment_of program.now scopes.now) (maybe_expression_of given.now)) result }
{
    match given {
        Some(e) => {
            let term = expression(alloc, program, scopes, e)?;
            Ok(Some(term))
        }
        None => Ok(None),
    }
}

/// Reports whether a name may be declared as a local. A second declaration in one scope and a local too many are faults, at the name.
pub fn declarator(program: &Program, scopes: &Scopes, name: Identifier) -> Result<(), TypeStop>
    ensures none { IfOk result (λ _. HasNone (FaultyDeclarator program.now.text.items (scopes_of scopes.now) name)) }
    ensures err { IfErr result (StopsAtFirst (FaultyDeclarator program.now.text.items (scopes_of scopes.now) name)) }
    ensures memory { IfErr result (λ stop. stop ≢ NoMemory) }
{
    if scopes.declares(program, name) {
        return Err(misuse(TypeFaultKind::Redeclared, name));
    }
    if scopes.locals() == MAX_LOCALS {
        return Err(misuse(TypeFaultKind::Limit, name));
    }
    Ok(())
}

/// Returns a `return`, and whether it fits its function.
fn return_from(
    context: &Context,
    scopes: &Scopes,
    at: usize,
    given: &Option<Expression>,
) -> Result<TypedStatement, TypeStop>
    ensures { Answers (λ t. TypesStatement (text_of context.now) (scopes_of scopes.now) (return_at at (maybe_expression_of given.now))
        (typed_of t))
        (FaultyStatement (text_of context.now) context.now.gives false (scopes_of scopes.now)
        (return_at at (maybe_expression_of given.now))) result }
{
    let value = returned_value(context.alloc, context.program, scopes, given);
    let value = second(fits(context.gives, given, at), value)?;
    Ok(TypedStatement::Return(value))
}

/// Returns a declaration of a local, which is in sight from its name on, in its own first value too.
fn declare<'a>(
    context: &Context<'a>,
    scopes: &mut Scopes<'a>,
    integer_type: IntegerType,
    name: Identifier,
    given: &Option<Value>,
) -> Result<TypedStatement, TypeStop>
    ensures typed { Answers (λ t. TypesFirst (environment_in (text_of context.now)
        (with_local (text_of context.now) (scopes_of scopes.old) integer_type name))
        (scopes_of scopes.old).locals (maybe_value_tree given.now) (typed_of t))
        (FaultyLocal (text_of context.now) (scopes_of scopes.old) integer_type name (maybe_value_tree given.now)) result }
    ensures scopes { (result ≡ Err NoMemory → ⊥)
        → scopes_of scopes.new ≡ with_local (text_of context.now) (scopes_of scopes.old) integer_type name }
{
    let refused = declarator(context.program, scopes, name);
    let number = scopes.locals();
    scopes.declare_local(context.program, integer_type, name)?;
    second(
        refused,
        first_value(context.alloc, context.program, scopes, number, given),
    )
}

/// Returns a block: what it declares is out of sight after it.
#[cycle(statements)]
fn block<'a>(
    context: &Context<'a>,
    scopes: &mut Scopes<'a>,
    all: &[Item],
) -> Result<TypedStatement, TypeStop>
    ensures { Typing context.now (scopes_of scopes.old) (scopes_of scopes.new) (block (items_of all.now)) result }
{
    scopes.enter(context.alloc)?;
    let typed = items(context, scopes, all);
    scopes.leave();
    Ok(TypedStatement::Block(typed?))
}

/// Returns an `if` without `else`.
#[cycle(statements)]
fn if_then<'a>(
    context: &Context<'a>,
    scopes: &mut Scopes<'a>,
    condition: &Expression,
    first: &Statement,
) -> Result<TypedStatement, TypeStop>
    ensures { Typing context.now (scopes_of scopes.old) (scopes_of scopes.new)
        (if_then (expression_of condition.now) (statement_of first.now)) result }
{
    let condition = expression(context.alloc, context.program, scopes, condition);
    let first = statement(context, scopes, first);
    if_else(context.alloc, condition, first, Ok(TypedStatement::Empty))
}

/// Returns an `if` with `else`.
#[cycle(statements)]
fn if_then_else<'a>(
    context: &Context<'a>,
    scopes: &mut Scopes<'a>,
    condition: &Expression,
    first: &Statement,
    second: &Statement,
) -> Result<TypedStatement, TypeStop>
    ensures { Typing context.now (scopes_of scopes.old) (scopes_of scopes.new)
        (if_then_else (expression_of condition.now) (statement_of first.now) (statement_of second.now)) result }
{
    let condition = expression(context.alloc, context.program, scopes, condition);
    let first = statement(context, scopes, first);
    let second = statement(context, scopes, second);
    if_else(context.alloc, condition, first, second)
}

/// Returns a `while`.
#[cycle(statements)]
fn while_loop<'a>(
    context: &Context<'a>,
    scopes: &mut Scopes<'a>,
    condition: &Expression,
    body: &Statement,
) -> Result<TypedStatement, TypeStop>
    ensures { Typing context.now (scopes_of scopes.old) (scopes_of scopes.new)
        (while_loop (expression_of condition.now) (statement_of body.now)) result }
{
    let inside = Context {
        in_loop: true,
        ..*context
    };
    let condition = expression(context.alloc, context.program, scopes, condition);
    let body = statement(&inside, scopes, body);
    loop_of(context.alloc, condition, Ok(TypedStatement::Empty), body)
}

/// Returns a `for`: the block of its first part and the loop.
#[cycle(statements)]
fn for_loop<'a>(
    context: &Context<'a>,
    scopes: &mut Scopes<'a>,
    parts: &ForParts,
    body: &Statement,
) -> Result<TypedStatement, TypeStop>
    ensures { Typing context.now (scopes_of scopes.old) (scopes_of scopes.new)
        (for_loop (maybe_simple_of parts.now.first) (maybe_expression_of parts.now.test) (maybe_simple_of parts.now.last)
        (statement_of body.now)) result }
{
    let inside = Context {
        in_loop: true,
        ..*context
    };
    let first = part(context.alloc, context.program, scopes, &parts.first);
    let condition = test(context.alloc, context.program, scopes, &parts.test);
    let last = part(context.alloc, context.program, scopes, &parts.last);
    let body = statement(&inside, scopes, body);
    sequence(
        context.alloc,
        first,
        loop_of(context.alloc, condition, last, body),
    )
}

/// Returns the typed tree of a statement in a function that gives a result or not, in a loop or not, or its first fault.
#[cycle(statements)]
pub fn statement<'a>(
    context: &Context<'a>,
    scopes: &mut Scopes<'a>,
    s: &Statement,
) -> Result<TypedStatement, TypeStop>
    ensures { Typing context.now (scopes_of scopes.old) (scopes_of scopes.new) (statement_of s.now) result }
{
    match s {
        Statement::Empty => Ok(TypedStatement::Empty),
        Statement::Block(all) => block(context, scopes, all),
        Statement::If(condition, first) => { if_then(context, scopes, condition, first) }
        Statement::IfElse(condition, first, second) => if_then_else(
            context, scopes, condition, first, second,
        ),
        Statement::While(condition, body) => { while_loop(context, scopes, condition, body) }
        Statement::For(parts, body) => for_loop(context, scopes, parts, body),
        Statement::Break(at) => jump(context.in_loop, *at, TypedStatement::Break),
        Statement::Continue(at) => jump(context.in_loop, *at, TypedStatement::Continue),
        Statement::Return(at, given) => return_from(context, scopes, *at, given),
        Statement::Simply(inner) => simple(context.alloc, context.program, scopes, inner),
    }
}

/// Returns a declaration of a local, which is in sight from its name on, or a statement.
#[cycle(statements)]
fn item<'a>(
    context: &Context<'a>,
    scopes: &mut Scopes<'a>,
    one: &Item,
) -> Result<TypedStatement, TypeStop>
    ensures typed { Answers (λ t. TypesItems (text_of context.now) (scopes_of scopes.old) (more_items (item_of one.now) no_items)
        (more_statements (typed_of t) no_statements))
        (FaultyItems (text_of context.now) context.now.gives context.now.in_loop (scopes_of scopes.old)
        (more_items (item_of one.now) no_items)) result }
    ensures scopes { (result ≡ Err NoMemory → ⊥)
        → scopes_of scopes.new ≡ behind_item (text_of context.now) (scopes_of scopes.old) (item_of one.now) }
{
    match one {
        Item::Declare(integer_type, name, given) => {
            declare(context, scopes, *integer_type, *name, given)
        }
        Item::Statement(s) => statement(context, scopes, s),
    }
}

/// Returns the typed trees of the items of a block or of a function's body, in order, or their first fault.
#[cycle(statements)]
pub fn items<'a>(
    context: &Context<'a>,
    scopes: &mut Scopes<'a>,
    all: &[Item],
) -> Result<Vec<TypedStatement>, TypeStop>
    ensures typed { Answers (λ v. TypesItems (text_of context.now) (scopes_of scopes.old) (items_of all.now) (statements_of v.items))
        (FaultyItems (text_of context.now) context.now.gives context.now.in_loop (scopes_of scopes.old) (items_of all.now)) result }
    ensures scopes { (result ≡ Err NoMemory → ⊥)
        → scopes_of scopes.new ≡ behind_items (text_of context.now) (scopes_of scopes.old) (items_of all.now) }
{
    let mut typed = Ok(Vec::with_capacity(context.alloc, all.len())?);
    for one in all {
        let next = lasting(item(context, scopes, one))?;
        typed = with_one(typed, next);
    }
    typed
}

/// States that a statement, and the items of a block, have at most one typed tree under the scopes before them.
pub fn one_typing_of_statements()
    ensures statement { (text : List ℕ) (scopes : Names.Scopes) (s : Tree.Statement) (t u : Trees.TypedStatement)
        → TypesStatement text scopes s t → TypesStatement text scopes s u → t ≡ u }
    ensures items { (text : List ℕ) (scopes : Names.Scopes) (all : Tree.Items) (t u : TypedStatements)
        → TypesItems text scopes all t → TypesItems text scopes all u → t ≡ u }
{}
