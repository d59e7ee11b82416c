//! The code of statements, from the last one on.
ghost use Rattle.std.specs.Prelude.{◌≡◌, true, is_some};
ghost use Rattle.c_typed.specs.Shape.{typed_expression_of, statement_of, statements_of};
ghost use Rattle.c_typed.specs.Trees.{if_else, loop};
ghost use Rattle.rtl_emit.specs.Blocks.{spot};
ghost use Rattle.rtl_lower.specs.Sizes.{continues, any_continues};
ghost use Rattle.rtl_emit.specs.Emits.{Emits};
ghost use Rattle.rtl_lower.specs.Emits.{made_of, statement_code, statements_code, side_code, last_code, end_of_turn};

use crate::context::{Context, continuation_of};
use crate::shape::{is_likely, may_continue};
use crate::simple::{assignment, call_code, element_store, output_code, return_code};
use c_typed::{TypedExpression, TypedStatement};
use rtl::{BlockNumber, RBlock};
use rtl_emit::{
    Continuation, LowerFault, OpenBlock, Targets, block_of, condition, fill, open_block, reserve,
};

/// The end of a turn of a loop: where its body goes on, and where `continue` leads.
#[derive(Drop)]
pub(crate) struct Turn {
    pub(crate) next: Option<BlockNumber>,
    pub(crate) after: Continuation,
}

/// Emits the last part as a block of its own, only if there is a `continue`.
fn turn_to(blocks: &mut Vec<RBlock>, many: bool, last: Continuation) -> Result<Turn, LowerFault>
    ensures { Emits (end_of_turn many (spot last)) blocks.old.items blocks.new.items result }
{
    if many {
        let block = block_of(blocks, last)?;
        Ok(Turn {
            next: Some(block),
            after: Continuation::Jump(block),
        })
    } else {
        Ok(Turn {
            next: None,
            after: last,
        })
    }
}

/// Emits the code of a statement, before what comes after it.
#[cycle(statements)]
pub(crate) fn statement(
    context: Context,
    blocks: &mut Vec<RBlock>,
    s: &TypedStatement,
    after: Continuation,
) -> Result<Continuation, LowerFault>
    requires next { continues (statement_of s.now) ≡ true → is_some context.next ≡ true }
    ensures { Emits (statement_code (statement_of s.now) context (spot after)) blocks.old.items blocks.new.items result }
{
    match s {
        TypedStatement::Empty | TypedStatement::Unset(_) => Ok(after),
        TypedStatement::Block(all) => statements(context, blocks, all.as_slice(), after),
        TypedStatement::Assign(to, e) => continuation_of(assignment(
            context, blocks, *to, e, after,
        )),
        TypedStatement::Store(array, index, e) => {
            continuation_of(element_store(context, blocks, *array, index, e, after))
        }
        TypedStatement::Call(to, function, arguments) => continuation_of(call_code(
            context,
            blocks,
            *to,
            *function,
            arguments.as_slice(),
            after,
        )),
        TypedStatement::Output(e) => continuation_of(output_code(context, blocks, e, after)),
        TypedStatement::If(test, yes, no) => {
            continuation_of(if_statement(context, blocks, test, yes, no, after))
        }
        TypedStatement::Loop(test, last, body) => {
            continuation_of(loop_statement(context, blocks, test, last, body, after))
        }
        TypedStatement::Break => Ok(Continuation::Jump(context.leave)),
        TypedStatement::Continue => {
            let Some(block) = context.next else {
                return Err(LowerFault::Limit);
            };
            Ok(Continuation::Jump(block))
        }
        TypedStatement::Return(given) => continuation_of(return_code(context, blocks, given)),
    }
}

/// Emits the same of a list of statements.
#[cycle(statements)]
pub(crate) fn statements(
    context: Context,
    blocks: &mut Vec<RBlock>,
    all: &[TypedStatement],
    after: Continuation,
) -> Result<Continuation, LowerFault>
    requires next { any_continues (statements_of all.now) ≡ true → is_some context.next ≡ true }
    ensures { Emits (statements_code (statements_of all.now) context (spot after)) blocks.old.items blocks.new.items result }
{
    let count = all.len();
    let mut code = after;
    for done in 0..count {
        let s = &all[count - 1 - done];
        code = statement(context, blocks, s, code)?;
    }
    Ok(code)
}

/// Emits a statement as a block of its own, which goes on at a block that is there.
#[cycle(statements)]
fn side_block(
    context: Context,
    blocks: &mut Vec<RBlock>,
    s: &TypedStatement,
    join: BlockNumber,
) -> Result<BlockNumber, LowerFault>
    requires next { continues (statement_of s.now) ≡ true → is_some context.next ≡ true }
    ensures { Emits (side_code (statement_of s.now) context join) blocks.old.items blocks.new.items result }
{
    let code = statement(context, blocks, s, Continuation::Jump(join))?;
    block_of(blocks, code)
}

/// Emits an `if`, each of whose sides goes on at one block.
#[cycle(statements)]
fn if_statement(
    context: Context,
    blocks: &mut Vec<RBlock>,
    test: &TypedExpression,
    yes: &TypedStatement,
    no: &TypedStatement,
    after: Continuation,
) -> Result<OpenBlock, LowerFault>
    requires next { continues (if_else (typed_expression_of test.now) (statement_of yes.now) (statement_of no.now)) ≡ true
        → is_some context.next ≡ true }
    ensures { Emits (statement_code (if_else (typed_expression_of test.now) (statement_of yes.now) (statement_of no.now)) context (spot after))
        blocks.old.items blocks.new.items (made_of result) }
{
    let join = block_of(blocks, after)?;
    let yes_block = side_block(context, blocks, yes, join)?;
    let no_block = side_block(context, blocks, no, join)?;
    let targets = Targets {
        yes: yes_block,
        no: no_block,
        likely: is_likely(test, yes),
    };
    condition(context.alloc, blocks, test, targets, context.free)
}

/// Returns the last part of a loop's turn, and the test after it.
#[cycle(statements)]
fn turn_of(
    context: Context,
    blocks: &mut Vec<RBlock>,
    test: &TypedExpression,
    last: &TypedStatement,
    many: bool,
    again: Targets,
) -> Result<Turn, LowerFault>
    requires next { continues (statement_of last.now) ≡ true → is_some context.next ≡ true }
    ensures { Emits (last_code (typed_expression_of test.now) (statement_of last.now) context many again) blocks.old.items blocks.new.items result }
{
    let bottom = condition(context.alloc, blocks, test, again, context.free)?;
    let code = statement(context, blocks, last, Continuation::Made(bottom))?;
    turn_to(blocks, many, code)
}

/// Emits a loop, with its test before it and after its last part.
#[cycle(statements)]
fn loop_statement(
    context: Context,
    blocks: &mut Vec<RBlock>,
    test: &TypedExpression,
    last: &TypedStatement,
    body: &TypedStatement,
    after: Continuation,
) -> Result<OpenBlock, LowerFault>
    requires next { continues (statement_of last.now) ≡ true → is_some context.next ≡ true }
    ensures { Emits (statement_code (loop (typed_expression_of test.now) (statement_of last.now) (statement_of body.now)) context (spot after))
        blocks.old.items blocks.new.items (made_of result) }
{
    let left = block_of(blocks, after)?;
    let head = reserve(context.alloc, blocks)?;
    let again = Targets {
        yes: head,
        no: left,
        likely: true,
    };
    let turn = turn_of(context, blocks, test, last, may_continue(body), again)?;
    let inner = context.inside_loop(left, turn.next);
    let body_code = statement(inner, blocks, body, turn.after)?;
    let top = condition(context.alloc, blocks, test, again, context.free)?;
    fill(blocks, head, open_block(context.alloc, body_code));
    Ok(top)
}
