//! A program under way: active calls, variables at file scope and output.
ghost use Rattle.std.specs.Prelude.{◌≡◌, ℕ, IfOk, None, Some, if◌then◌else◌, List, Option, map};
ghost use Rattle.std.specs.Option.{option_map};
ghost use Rattle.runs.specs.Kept.{places, arrays};
ghost use Rattle.c_typed.specs.Values.{values_of};
ghost use Rattle.c_typed.specs.Meaning.{kept_in, elements_with};
ghost use Rattle.c_typed.specs.Shape.{statement_of, typed_expression_of, typed_expressions_of, maybe_typed_expression_of};
ghost use Rattle.c_typed.specs.Trees.{assign, store, call, output, if_else, loop, return_with};
ghost use Rattle.c_types.specs.Shape.{program_of};
ghost use Rattle.c_typed.specs.Meaning.{source_step};
ghost use Rattle.runs.specs.Calls.{state_by, reached_by};
ghost use Rattle.c_run.specs.Interpreter.{frame_of, around_next_call, Assigns, Calls, Returns, Does, DoesAtAnyDepth, DoesIn};

use crate::pending::{Agenda, Head};
use c_typed::{Destination, TypedExpression, TypedStatement, value};
use c_types::Typed;
use runs::{Reached, set_word, store};
use std::alloc::{AllocError, Global};

/// A call that runs or waits, and where its result goes, if anywhere.
#[derive(Drop)]
pub struct Frame<'a> {
    pub locals: Vec<Option<u32>>,
    pub todo: Agenda<'a>,
    pub result_to: Option<Destination>,
}

/// A typed program under way.
pub type Interpreter<'a> = runs::Interpreter<Frame<'a>>;

/// Returns what an element of a global keeps of a word; None if there is no such global.
fn kept_by(program: &Typed, global: usize, v: u32) -> Option<u32>
    ensures { result ≡ kept_in program.now.globals global v }
{
    let global = program.globals().get(global)?;
    Some(global.width.kept(v))
}

/// Assigns to an element of a global, which keeps what its width lets it; false outside.
fn assign_element(
    program: &Typed,
    globals: &mut [Vec<u32>],
    global: usize,
    index: usize,
    v: u32,
) -> bool
    ensures { elements_with program.now.globals (arrays globals.old) global index v ≡ (if result then Some (arrays globals.new) else None) }
{
    let Some(word) = kept_by(program, global, v) else {
        return false;
    };
    store(globals, global, index, word)
}

/// Puts a word into a local, or into a global variable.
#[inline(always)]
fn put_at(
    program: &Typed,
    interpreter: &mut Interpreter,
    place: Destination,
    v: u32,
) -> Result<Reached, AllocError>
    ensures { IfOk result (λ r. Assigns (program_of program.now) place v interpreter.old r interpreter.new) }
{
    match place {
        Destination::Local(number) => {
            set_word(&mut interpreter.frame.locals, number, v)?;
            Ok(Reached::Going)
        }
        Destination::Global(number) => {
            if assign_element(program, &mut interpreter.globals, number, 0, v) {
                Ok(Reached::Going)
            } else {
                Ok(Reached::Failed)
            }
        }
    }
}

/// Returns the values of the arguments of a call, each a local that is set; None if one has none.
fn arguments(
    alloc: Global,
    expressions: &[TypedExpression],
    locals: &[Option<u32>],
    globals: &[Vec<u32>],
) -> Result<Option<Vec<Option<u32>>>, AllocError>
    ensures { let wanted = values_of (typed_expressions_of expressions.now) (places locals.now) (arrays globals.now) in
        IfOk result (λ r. option_map (λ v. v.items) r ≡ option_map (map Some) wanted) }
{
    let mut values = Vec::with_capacity(alloc, expressions.len())?;
    for expression in expressions {
        let Some(v) = value(expression, locals, globals) else {
            return Ok(None);
        };
        values.push(Some(v))?;
    }
    Ok(Some(values))
}

/// Calls a function with these values.
fn enter<'a>(
    alloc: Global,
    program: &'a Typed,
    depth: u32,
    interpreter: &mut Interpreter<'a>,
    function: usize,
    values: Vec<Option<u32>>,
    to: Option<Destination>,
) -> Result<Reached, AllocError>
    ensures { let called = Calls (around_next_call (program_of program.now) depth interpreter.old to) function in
        IfOk result (λ r. (vs : List ℕ) → values.items ≡ map Some vs → called vs r interpreter.new) }
{
    let Some(function) = program.functions().get(function) else {
        return Ok(Reached::Failed);
    };
    if !interpreter.has_room(depth) {
        return Ok(Reached::Failed);
    }
    interpreter.enter(Frame {
        locals: values,
        todo: Agenda::of(alloc, function.body.as_slice()),
        result_to: to,
    })?;
    Ok(Reached::Going)
}

/// Leaves a call, with a word or without.
fn leave(
    program: &Typed,
    interpreter: &mut Interpreter,
    result_word: Option<u32>,
) -> Result<Reached, AllocError>
    ensures { IfOk result (λ r. Returns (program_of program.now) result_word interpreter.old r interpreter.new) }
{
    let Some(done) = interpreter.leave() else {
        return Ok(Reached::of_last(result_word));
    };
    let Some(place) = done.result_to else {
        return Ok(Reached::Going);
    };
    let Some(v) = result_word else {
        return Ok(Reached::Failed);
    };
    put_at(program, interpreter, place, v)
}

/// Runs `place = e`.
fn assign_to(
    program: &Typed,
    interpreter: &mut Interpreter,
    place: Destination,
    e: &TypedExpression,
) -> Result<Reached, AllocError>
    ensures { let statement = assign place (typed_expression_of e.now) in
        IfOk result (λ r. DoesAtAnyDepth (program_of program.now) statement interpreter.old r interpreter.new) }
{
    let Some(v) = value(e, &interpreter.frame.locals, &interpreter.globals) else {
        return Ok(Reached::Failed);
    };
    put_at(program, interpreter, place, v)
}

/// Runs `array[i] = e`.
fn store_at(
    program: &Typed,
    interpreter: &mut Interpreter,
    array: usize,
    i: &TypedExpression,
    e: &TypedExpression,
) -> Result<Reached, AllocError>
    ensures { let statement = store array (typed_expression_of i.now) (typed_expression_of e.now) in
        IfOk result (λ r. DoesAtAnyDepth (program_of program.now) statement interpreter.old r interpreter.new) }
{
    let Some(index) = value(i, &interpreter.frame.locals, &interpreter.globals) else {
        return Ok(Reached::Failed);
    };
    let Some(v) = value(e, &interpreter.frame.locals, &interpreter.globals) else {
        return Ok(Reached::Failed);
    };
    if assign_element(program, &mut interpreter.globals, array, index as usize, v) {
        Ok(Reached::Going)
    } else {
        Ok(Reached::Failed)
    }
}

/// Runs `f(..)` or `place = f(..)`.
fn call_function<'a>(
    alloc: Global,
    program: &'a Typed,
    depth: u32,
    interpreter: &mut Interpreter<'a>,
    to: Option<Destination>,
    function: usize,
    expressions: &[TypedExpression],
) -> Result<Reached, AllocError>
    ensures { let statement = call to function (typed_expressions_of expressions.now) in
        IfOk result (λ r. DoesIn (program_of program.now) depth statement interpreter.old r interpreter.new) }
{
    let values = arguments(
        alloc,
        expressions,
        &interpreter.frame.locals,
        &interpreter.globals,
    )?;
    let Some(values) = values else {
        return Ok(Reached::Failed);
    };
    enter(alloc, program, depth, interpreter, function, values, to)
}

/// Runs `out(e)`.
fn write_out(interpreter: &mut Interpreter, e: &TypedExpression) -> Result<Reached, AllocError>
    ensures { IfOk result (λ r. Does (output (typed_expression_of e.now)) interpreter.old r interpreter.new) }
{
    let Some(v) = value(e, &interpreter.frame.locals, &interpreter.globals) else {
        return Ok(Reached::Failed);
    };
    interpreter.output.push(v)?;
    Ok(Reached::Going)
}

/// Runs `if (test) first else second`.
fn branch_on<'a>(
    interpreter: &mut Interpreter<'a>,
    test: &TypedExpression,
    first: &'a TypedStatement,
    second: &'a TypedStatement,
) -> Result<Reached, AllocError>
    ensures { let statement = if_else (typed_expression_of test.now) (statement_of first.now) (statement_of second.now) in
        IfOk result (λ r. Does statement interpreter.old r interpreter.new) }
{
    let Some(v) = value(test, &interpreter.frame.locals, &interpreter.globals) else {
        return Ok(Reached::Failed);
    };
    if v == 0 {
        interpreter.frame.todo.put(second)?;
    } else {
        interpreter.frame.todo.put(first)?;
    }
    Ok(Reached::Going)
}

/// Tests a loop: its body is next, and then its last part and the loop again.
#[inline(always)]
fn repeat<'a>(
    interpreter: &mut Interpreter<'a>,
    again: &'a TypedStatement,
    test: &TypedExpression,
    last: &'a TypedStatement,
    body: &'a TypedStatement,
) -> Result<Reached, AllocError>
    requires { statement_of again.now ≡ loop (typed_expression_of test.now) (statement_of last.now) (statement_of body.now) }
    ensures { IfOk result (λ r. Does (statement_of again.now) interpreter.old r interpreter.new) }
{
    let Some(v) = value(test, &interpreter.frame.locals, &interpreter.globals) else {
        return Ok(Reached::Failed);
    };
    if v != 0 {
        interpreter.frame.todo.put_turn(body, last, again)?;
    }
    Ok(Reached::Going)
}

/// Runs `return` or `return e`.
fn return_word(
    program: &Typed,
    interpreter: &mut Interpreter,
    e: &Option<TypedExpression>,
) -> Result<Reached, AllocError>
    ensures { let statement = return_with (maybe_typed_expression_of e.now) in
        IfOk result (λ r. DoesAtAnyDepth (program_of program.now) statement interpreter.old r interpreter.new) }
{
    let Some(e) = e else {
        return leave(program, interpreter, None);
    };
    let Some(v) = value(e, &interpreter.frame.locals, &interpreter.globals) else {
        return Ok(Reached::Failed);
    };
    leave(program, interpreter, Some(v))
}

/// Runs the statement that is first.
pub(crate) fn act<'a>(
    alloc: Global,
    program: &'a Typed,
    depth: u32,
    interpreter: &mut Interpreter<'a>,
    s: &'a TypedStatement,
) -> Result<Reached, AllocError>
    ensures { IfOk result (λ r. DoesIn (program_of program.now) depth (statement_of s.now) interpreter.old r interpreter.new) }
{
    match s {
        TypedStatement::Assign(place, e) => assign_to(program, interpreter, *place, e),
        TypedStatement::Store(array, i, e) => store_at(program, interpreter, *array, i, e),
        TypedStatement::Call(to, f, all) => call_function(
            alloc,
            program,
            depth,
            interpreter,
            *to,
            *f,
            all,
        ),
        TypedStatement::Output(e) => write_out(interpreter, e),
        TypedStatement::If(test, first, second) => branch_on(interpreter, test, first, second),
        TypedStatement::Loop(test, last, body) => repeat(interpreter, s, test, last, body),
        TypedStatement::Return(e) => return_word(program, interpreter, e),
        TypedStatement::Empty
        | TypedStatement::Block(_)
        | TypedStatement::Unset(_)
        | TypedStatement::Break
        | TypedStatement::Continue => Ok(Reached::Failed),
    }
}

/// Takes one step of the program, at whatever comes first. (The test of a loop comes with each turn: it is spared the call of `act`.)
#[inline(always)]
fn settled_step<'a>(
    alloc: Global,
    program: &'a Typed,
    depth: u32,
    interpreter: &mut Interpreter<'a>,
) -> Result<Reached, AllocError>
    ensures { IfOk result (λ r. source_step (program_of program.now) depth (state_by frame_of interpreter.old)
        ≡ reached_by frame_of r interpreter.new) }
{
    let frame = &mut interpreter.frame;
    let head = frame.todo.settle(&mut frame.locals)?;
    let Head::Statement(s) = head else {
        return Ok(Reached::Failed);
    };
    match s {
        TypedStatement::Loop(test, last, body) => repeat(interpreter, s, test, last, body),
        _ => act(alloc, program, depth, interpreter, s),
    }
}

/// Takes one step of the program. An assignment that is next in its list is done without a look at what waits after it.
#[inline(always)]
pub(crate) fn step<'a>(
    alloc: Global,
    program: &'a Typed,
    depth: u32,
    interpreter: &mut Interpreter<'a>,
) -> Result<Reached, AllocError>
    ensures { IfOk result (λ r. source_step (program_of program.now) depth (state_by frame_of interpreter.old)
        ≡ reached_by frame_of r interpreter.new) }
{
    let Some((s, rest)) = interpreter.frame.todo.list.split_first() else {
        return settled_step(alloc, program, depth, interpreter);
    };
    match s {
        TypedStatement::Assign(place, e) => {
            interpreter.frame.todo.list = rest;
            assign_to(program, interpreter, *place, e)
        }
        TypedStatement::Store(array, i, e) => {
            interpreter.frame.todo.list = rest;
            store_at(program, interpreter, *array, i, e)
        }
        _ => settled_step(alloc, program, depth, interpreter),
    }
}
