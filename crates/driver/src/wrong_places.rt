//! Finds where a statement of a run stands in its text. A typed tree has no places, but the same form as the syntax tree. The statement is the
//! one of its function that is typed like it, and that as many others follow.

use c_front::read;
use c_run::{WrongPlace, statements_in};
use c_tree::{
    Declaration, Expression, ForParts, FunctionDefinition, Item, Program, Simple, Statement,
};
use c_typed::TypedStatement;
use c_types::Typed;
use std::alloc::{AllocError, Global};

/// A statement that takes a step, or a declaration without a first value.
#[derive(Clone, Copy)]
struct PlacedStatement<'a> {
    statement: &'a TypedStatement,
    /// Where its first name or its `return` stands, in bytes from the text's beginning; None where it has neither.
    at: Option<usize>,
    /// How many statements follow its own in the blocks around it, with those inside them.
    left: usize,
}

/// Finds where the first name of an expression stands, if it has one.
fn first_name(e: &Expression) -> Option<usize> {
    match e {
        Expression::Constant(_) => None,
        Expression::Name(name) => Some(name.at as usize),
        Expression::Index(parts) => Some(parts.0.at as usize),
        Expression::Unary(_, part) => first_name(part),
        Expression::Binary(_, operands) => {
            let (left, right) = &**operands;
            first_name(left).or(first_name(right))
        }
        Expression::Conditional(parts) => {
            let (test, first, second) = &**parts;
            first_name(test)
                .or(first_name(first))
                .or(first_name(second))
        }
    }
}

/// Finds where a simple statement begins.
fn start_of(s: &Simple) -> usize {
    match s {
        Simple::Assign(name, _) | Simple::AssignAt(name, _, _) => name.at as usize,
        Simple::CallStatement(call) => call.name.at as usize,
    }
}

/// The statements that were met on a walk through a function, unless memory was refused to one.
#[derive(Drop)]
struct Walk<'a> {
    placed: Vec<PlacedStatement<'a>>,
    is_refused: bool,
}

impl<'a> Walk<'a> {
    fn add(&mut self, statement: &'a TypedStatement, left: usize, at: Option<usize>) {
        let placed = PlacedStatement {
            statement,
            at,
            left,
        };
        self.is_refused = self.is_refused || self.placed.push(placed).is_err();
    }

    /// Walks through a `for`, which is typed as the block of its first part and the loop.
    #[cycle(statements)]
    fn for_loop(
        &mut self,
        parts: &ForParts,
        body: &Statement,
        typed: &'a [TypedStatement],
        left: usize,
    ) {
        let [begin, again] = typed else { return };
        let TypedStatement::Loop(_, step, inner) = again else {
            return;
        };
        if let Some(first) = &parts.first {
            let behind = left.saturating_add(statements_in(again));
            self.add(begin, behind, Some(start_of(first)));
        }
        self.add(again, left, parts.test.as_ref().and_then(first_name));
        if let Some(last) = &parts.last {
            self.add(step, left, Some(start_of(last)));
        }
        self.statement(body, inner, left);
    }

    /// Walks through a statement that so many others follow.
    #[cycle(statements)]
    fn statement(&mut self, s: &Statement, typed: &'a TypedStatement, left: usize) {
        match (s, typed) {
            (Statement::Block(items), TypedStatement::Block(all)) => self.items(items, all, left),
            (Statement::If(test, first), TypedStatement::If(_, one, _)) => {
                self.add(typed, left, first_name(test));
                self.statement(first, one, left);
            }
            (Statement::IfElse(test, first, second), TypedStatement::If(_, one, other)) => {
                self.add(typed, left, first_name(test));
                self.statement(first, one, left);
                self.statement(second, other, left);
            }
            (Statement::While(test, body), TypedStatement::Loop(_, _, inner)) => {
                self.add(typed, left, first_name(test));
                self.statement(body, inner, left);
            }
            (Statement::For(parts, body), TypedStatement::Block(two)) => {
                self.for_loop(parts, body, two, left);
            }
            (Statement::Return(at, _), _) => self.add(typed, left, Some(*at)),
            (Statement::Simply(inner), _) => self.add(typed, left, Some(start_of(inner))),
            _ => {}
        }
    }

    /// Walks backwards through the items of a block or of a function's body, behind which so many statements stand.
    #[cycle(statements)]
    fn items(&mut self, items: &[Item], typed: &'a [TypedStatement], behind: usize) {
        let mut left = behind;
        for (k, one) in typed.iter().enumerate().rev() {
            match items.get(k) {
                Some(Item::Declare(_, name, _)) => self.add(one, left, Some(name.at as usize)),
                Some(Item::Statement(s)) => self.statement(s, one, left),
                // (the return at the function's end)
                None => {}
            }
            left = left.saturating_add(statements_in(one));
        }
    }
}

/// Lists the statements of a function, given its body as it was typed.
fn placed_statements<'a>(
    alloc: Global,
    function: &FunctionDefinition,
    body: &'a [TypedStatement],
) -> Result<Vec<PlacedStatement<'a>>, AllocError> {
    let mut walk = Walk {
        placed: Vec::new(alloc),
        is_refused: false,
    };
    walk.items(&function.body, body, 0);
    if walk.is_refused {
        return Err(AllocError);
    }
    Ok(walk.placed)
}

/// Finds the function of this number.
fn function_of(program: &Program, number: usize) -> Option<&FunctionDefinition> {
    let mut functions = program
        .declarations
        .iter()
        .filter_map(|declaration| match declaration {
            Declaration::Function(function) => Some(function),
            _ => None,
        });
    functions.nth(number)
}

/// Finds where the statement of a function that is like this one stands; None if there are more.
fn place_of(
    alloc: Global,
    function: &FunctionDefinition,
    body: &[TypedStatement],
    wanted: &TypedStatement,
    left: usize,
) -> Result<Option<usize>, AllocError> {
    let placed = placed_statements(alloc, function, body)?;
    let mut like = placed
        .iter()
        .filter(|one| one.left == left && one.statement == wanted);
    match (like.next(), like.next()) {
        (Some(one), None) => Ok(one.at),
        _ => Ok(None),
    }
}

/// Finds a place of a program's run in its text; None where another statement of the function is like it. An Err means out of memory.
pub(crate) fn place_in_text(
    alloc: Global,
    text: &[u8],
    typed: &Typed,
    place: WrongPlace<'_>,
) -> Result<Option<usize>, AllocError> {
    let Ok(program) = read(alloc, text) else {
        return Err(AllocError);
    };
    let function = function_of(&program, place.function);
    let (Some(function), Some(typed)) = (function, typed.functions().get(place.function)) else {
        return Ok(None);
    };
    match place.statement {
        Some(wanted) => place_of(alloc, function, &typed.body, wanted, place.left),
        None => Ok(Some(function.name.at as usize)),
    }
}
