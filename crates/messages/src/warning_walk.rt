//! A walk through a typed program that finds what has no meaning. What can't be reached has no warnings, as far as constants tell it.
//!
//! A typed tree has no places. The walk comes to names and signs in the order of the text, so it finds them one by one among the tokens.

use crate::chains::may_chain;
use crate::source::{Source, after};
use crate::warnings::Warning;
use c_tokens::{IntegerType, Mark};
use c_tree::{BinaryOp, Declaration, Program};
use c_typed::{Destination, Function, Global as Variable, TypedExpression, TypedStatement, value};
use std::alloc::{AllocError, Global};
use std::fmt::Display;
use std::mem;
use words::Sign;

/// What the walk knows of a local of the function.
#[derive(Clone, Copy)]
enum Local {
    Unset,
    /// The token that reads it first, if that can be reached.
    Read(usize),
    /// It is assigned somewhere.
    Assigned,
}

#[derive(Drop)]
struct Walk<'a, 't> {
    alloc: Global,
    source: &'a Source<'t>,
    variables: &'a [Variable],
    warnings: Vec<Warning>,
    /// The token after the name or the sign that was met last.
    cursor: usize,
    /// The sign of the operator whose operands were met last.
    sign: usize,
    /// Whether the text may compare comparisons without parentheses, once that is asked.
    may_chain: Option<bool>,
    locals: Vec<Local>,
    /// Whether what comes next can be reached, a `break` of the innermost loop, and a `return` of the function.
    is_live: bool,
    has_break: bool,
    has_return: bool,
    /// Of each function so far, whether its calls never end.
    endless: Vec<bool>,
    /// Whether memory was refused.
    is_refused: bool,
}

/// Reports whether this is `<`, `>`, `<=` or `>=`.
fn is_relation(operator: BinaryOp) -> bool {
    matches!(
        operator,
        BinaryOp::Less | BinaryOp::Greater | BinaryOp::LessOrEqual | BinaryOp::GreaterOrEqual
    )
}

/// Returns a word as a number of its type.
fn number(value: u32, integer_type: IntegerType) -> i64 {
    match integer_type {
        IntegerType::SignedInt => i64::from(value.cast_signed()),
        IntegerType::UnsignedInt => i64::from(value),
    }
}

impl<'a, 't> Walk<'a, 't> {
    /// Warns of what a token begins.
    fn warn<T: Display>(&mut self, token: usize, message: &T) {
        let at = self.source.at(token);
        let is_told = match format!(in self.alloc; "{message}") {
            Ok(message) => self.warnings.push(Warning { at, message }).is_ok(),
            Err(_) => false,
        };
        self.is_refused = self.is_refused || !is_told;
    }

    /// Goes to the next token that is this sign, or to the next name.
    fn next(&mut self, wanted: Option<Mark>) -> usize {
        let end = self.source.count();
        let found = (self.cursor..end).find(|k| match wanted {
            Some(mark) => self.source.is(*k, mark),
            None => self.source.is_name(*k),
        });
        if let Some(k) = found {
            self.cursor = after(k, 1);
        }
        found.unwrap_or(end)
    }

    fn next_name(&mut self) -> usize {
        self.next(None)
    }

    /// Reports whether a comparison that stands before the tokens between these two may have no parentheses that end there.
    fn chains(&mut self, from: usize, end: usize) -> bool {
        let source = self.source;
        let count = |mark: Mark| (from..end).filter(|k| source.is(*k, mark)).count();
        *self.may_chain.get_or_insert_with(|| may_chain(source.text))
            && count(Mark::LeftParen) >= count(Mark::RightParen)
    }

    /// Goes to the name that is assigned to.
    fn assign(&mut self, place: Destination) {
        self.next_name();
        if let Destination::Local(k) = place
            && let Some(local) = self.locals.get_mut(k)
        {
            *local = Local::Assigned;
        }
    }

    /// Goes to the name of a local that is read.
    fn read(&mut self, k: usize) {
        let name = self.next_name();
        if self.is_live
            && let Some(local) = self.locals.get_mut(k)
            && let Local::Unset = *local
        {
            *local = Local::Read(name);
        }
    }

    /// Returns the value of an expression that can be reached and is a constant; None if it has no meaning.
    fn known(&self, e: &TypedExpression) -> Option<u32> {
        if self.is_live {
            value(e, &[], &[])
        } else {
            None
        }
    }

    /// Returns whether what comes where a test holds can be reached, and what comes where it fails.
    fn outcomes(&self, test: &TypedExpression) -> (bool, bool) {
        match self.known(test) {
            Some(value) => (value != 0, value == 0),
            None => (self.is_live, self.is_live),
        }
    }

    /// Warns of a left shift of an int, if that is known.
    fn left_shift(&mut self, sign: usize, left: &TypedExpression, count: u32) {
        let Some(value) = self.known(left) else {
            return
        };
        if Sign::Signed.left_shift(value, count).is_some() {
            return;
        }
        let value = value.cast_signed();
        if value < 0 {
            self.warn(
                sign,
                &format_args!("{value} << {count} shifts a negative int"),
            );
        } else {
            self.warn(
                sign,
                &format_args!("{value} << {count} goes beyond 2147483647: shift {value}u"),
            );
        }
    }

    /// Warns of an operator whose right operand is known, if it can be reached.
    fn operation(
        &mut self,
        sign: usize,
        operator: BinaryOp,
        left: &TypedExpression,
        right: &TypedExpression,
    ) {
        let Some(value) = self.known(right) else {
            return
        };
        match operator {
            BinaryOp::Divide if value == 0 => self.warn(sign, &"a division by 0"),
            BinaryOp::Remainder if value == 0 => {
                self.warn(sign, &"the remainder of a division by 0");
            }
            BinaryOp::ShiftLeft | BinaryOp::ShiftRight if value >= 32 => {
                let count = number(value, right.integer_type());
                self.warn(
                    sign,
                    &format_args!("the shift count {count} isn't from 0 to 31"),
                );
            }
            BinaryOp::ShiftLeft if left.integer_type() == IntegerType::SignedInt => {
                self.left_shift(sign, left, value);
            }
            _ => {}
        }
    }

    /// Goes to the sign after an operator's left operand, if the sign is looked for. Warns if the operand is a comparison without
    /// parentheses, and is compared.
    fn sign_after(&mut self, left: &TypedExpression, operator: BinaryOp) -> usize {
        let before = self.sign;
        let mark = match operator {
            BinaryOp::Divide => Mark::Slash,
            BinaryOp::Remainder => Mark::Percent,
            BinaryOp::ShiftLeft => Mark::LessLess,
            BinaryOp::ShiftRight => Mark::GreaterGreater,
            BinaryOp::Less => Mark::LessSign,
            BinaryOp::Greater => Mark::GreaterSign,
            BinaryOp::LessOrEqual => Mark::LessEqual,
            BinaryOp::GreaterOrEqual => Mark::GreaterEqual,
            _ => return self.cursor,
        };
        let sign = self.next(Some(mark));
        if is_relation(operator)
            && matches!(left, TypedExpression::Binary(inner, _, _) if is_relation(*inner))
            && self.chains(before, sign)
        {
            self.warn(
                sign,
                &"a comparison of a comparison: a < b < c compares 0 or 1 with c",
            );
        }
        sign
    }

    /// Walks through an expression.
    #[cycle(expressions)]
    fn expression(&mut self, e: &TypedExpression) {
        match e {
            TypedExpression::Constant(_) => {}
            TypedExpression::Local(_, k) => self.read(*k),
            TypedExpression::Global(_, _) => {
                self.next_name();
            }
            TypedExpression::Element(_, parts) => {
                let (array, index) = &**parts;
                self.element(*array, index);
            }
            TypedExpression::Unary(_, _, part) => self.expression(part),
            TypedExpression::Binary(operator, _, operands) => {
                let (left, right) = &**operands;
                self.expression(left);
                let sign = self.sign_after(left, *operator);
                let is_reached = match operator {
                    BinaryOp::LogicalAnd => self.outcomes(left).0,
                    BinaryOp::LogicalOr => self.outcomes(left).1,
                    _ => true,
                };
                self.expression_if(is_reached, right);
                self.operation(sign, *operator, left, right);
                self.sign = sign;
            }
            TypedExpression::Conditional(_, parts) => {
                let (test, first, second) = &**parts;
                self.expression(test);
                let (can_hold, can_fail) = self.outcomes(test);
                self.expression_if(can_hold, first);
                self.expression_if(can_fail, second);
            }
        }
    }

    /// Walks through an expression that is reached only if this holds.
    #[cycle(expressions)]
    fn expression_if(&mut self, holds: bool, e: &TypedExpression) {
        let is_live = self.is_live;
        self.is_live = is_live && holds;
        self.expression(e);
        self.is_live = is_live;
    }

    /// Walks through an array's name and an index of it. Warns of one that is known to lie outside.
    #[cycle(expressions)]
    fn element(&mut self, array: usize, index: &TypedExpression) {
        let name = self.next_name();
        self.expression(index);
        let (Some(value), Some(variable)) = (self.known(index), self.variables.get(array)) else {
            return;
        };
        let length = variable.length;
        if (value as usize) < length {
            return;
        }
        let index = number(value, index.integer_type());
        let shown = self.source.token_text(name);
        let elements = if length == 1 { "element" } else { "elements" };
        self.warn(
            name,
            &format_args!("the index {index} is outside '{shown}', which has {length} {elements}"),
        );
    }

    /// Walks through a call, after which nothing is reached where it never ends.
    fn call(&mut self, function: usize, arguments: &[TypedExpression]) {
        self.next_name();
        for argument in arguments {
            self.expression(argument);
        }
        if self.endless.get(function) == Some(&true) {
            self.is_live = false;
        }
    }

    /// Walks through a statement without parts that are statements.
    fn simple(&mut self, s: &TypedStatement) {
        match s {
            TypedStatement::Unset(_) => {
                self.next_name();
            }
            TypedStatement::Assign(place, e) => {
                self.assign(*place);
                self.expression(e);
            }
            TypedStatement::Store(array, index, e) => {
                self.element(*array, index);
                self.expression(e);
            }
            TypedStatement::Call(place, function, arguments) => {
                if let Some(place) = place {
                    self.assign(*place);
                }
                self.call(*function, arguments);
            }
            TypedStatement::Output(e) => {
                self.next_name();
                self.expression(e);
            }
            TypedStatement::Break => {
                self.has_break = self.has_break || self.is_live;
                self.is_live = false;
            }
            TypedStatement::Continue => self.is_live = false,
            TypedStatement::Return(value) => {
                if let Some(e) = value {
                    self.expression(e);
                }
                self.has_return = self.has_return || self.is_live;
                self.is_live = false;
            }
            _ => {}
        }
    }

    /// Walks through a statement. A loop ends by a `break`, or where its test may fail.
    #[cycle(statements)]
    fn statement(&mut self, s: &TypedStatement) {
        match s {
            TypedStatement::Block(all) => self.statements(all),
            TypedStatement::If(test, first, second) => {
                self.expression(test);
                let (holds, fails) = self.outcomes(test);
                self.is_live = holds;
                self.statement(first);
                let goes_on = mem::replace(&mut self.is_live, fails);
                self.statement(second);
                self.is_live = self.is_live || goes_on;
            }
            TypedStatement::Loop(test, last, body) => {
                self.expression(test);
                let (holds, fails) = self.outcomes(test);
                self.is_live = holds;
                self.statement(last);
                self.is_live = holds;
                let outer = mem::replace(&mut self.has_break, false);
                self.statement(body);
                self.is_live = mem::replace(&mut self.has_break, outer) || fails;
            }
            _ => self.simple(s),
        }
    }

    /// Walks through the statements of a block or of a function's body.
    #[cycle(statements)]
    fn statements(&mut self, all: &[TypedStatement]) {
        for s in all {
            self.statement(s);
        }
    }

    /// Walks through a function, the token of whose name this is.
    fn function(&mut self, name: usize, typed: &Function) {
        self.cursor = name;
        self.next(Some(Mark::LeftBrace));
        self.locals.clear();
        for k in 0..typed.locals {
            let local = if k < typed.parameters {
                Local::Assigned
            } else {
                Local::Unset
            };
            self.is_refused = self.is_refused || self.locals.push(local).is_err();
        }
        (self.is_live, self.has_break, self.has_return) = (true, false, false);
        self.statements(&typed.body);
        for k in 0..self.locals.len() {
            if let Some(Local::Read(local)) = self.locals.get(k).copied() {
                let shown = self.source.token_text(local);
                self.warn(local, &format_args!("'{shown}' is read and never assigned"));
            }
        }
        let is_endless = !self.is_live && !self.has_return;
        self.is_refused = self.is_refused || self.endless.push(is_endless).is_err();
        if self.is_live {
            let shown = self.source.token_text(name);
            self.warn(
                name,
                &format_args!("the end of '{shown}' can be reached without a return"),
            );
        }
    }
}

/// Walks through the functions of a program, and returns the warnings. Their places are known only if the source has its tokens.
pub(crate) fn walked(
    alloc: Global,
    source: &Source<'_>,
    program: &Program,
    variables: &[Variable],
    functions: &[Function],
) -> Result<Vec<Warning>, AllocError> {
    let mut walk = Walk {
        alloc,
        source,
        variables,
        warnings: Vec::new(alloc),
        cursor: 0,
        sign: 0,
        may_chain: None,
        locals: Vec::new(alloc),
        is_live: true,
        has_break: false,
        has_return: false,
        endless: Vec::new(alloc),
        is_refused: false,
    };
    let mut typed = functions.iter();
    for declaration in &program.declarations {
        if let Declaration::Function(function) = declaration
            && let Some(typed) = typed.next()
        {
            walk.function(source.index_of(function.name.at as usize), typed);
        }
    }
    if walk.is_refused {
        return Err(AllocError);
    }
    Ok(walk.warnings)
}
