//! The code of statements that lead only to what comes after them, and of `return`.
ghost use Rattle.c_typed.specs.Shape.{typed_expression_of, typed_expressions_of, maybe_typed_expression_of};
ghost use Rattle.c_typed.specs.Trees.{assign, store, call, output, return_with};
ghost use Rattle.rtl_emit.specs.Blocks.{Spot, spot};
ghost use Rattle.rtl_emit.specs.Emits.{Emits};
ghost use Rattle.rtl_lower.specs.Emits.{simple_code, receiver};

use crate::context::Context;
use c_typed::{Destination, TypedExpression};
use rtl::{BlockNumber, RBlock, RExit, RInst, Register};
use rtl_emit::{
    Continuation, LowerFault, OpenBlock, block_of, exit_block, number_of, operand_into,
    operands_into, place_of, places_of, put_before, put_first, register_of, registers_of,
    spare_register, value_into,
};

/// Emits the value of an expression to a local or a global variable.
pub(crate) fn assignment(
    context: Context,
    blocks: &mut Vec<RBlock>,
    to: Destination,
    e: &TypedExpression,
    after: Continuation,
) -> Result<OpenBlock, LowerFault>
    ensures { Emits (simple_code (assign to (typed_expression_of e.now)) context.free (spot after)) blocks.old.items blocks.new.items result }
{
    match to {
        Destination::Local(x) => {
            let local = register_of(x)?;
            value_into(context.alloc, blocks, e, local, context.free, after)
        }
        Destination::Global(x) => {
            let global = number_of(x)?;
            let place = place_of(e, context.free)?;
            let index = spare_register(place.free)?;
            let store = RInst::Store(global, index, place.register);
            let last = put_before(context.alloc, store, after)?;
            let middle = put_first(RInst::Const(index, 0), last)?;
            operand_into(
                context.alloc,
                blocks,
                e,
                place.register,
                context.free,
                middle,
            )
        }
    }
}

/// Emits the value of an expression to an element of an array.
pub(crate) fn element_store(
    context: Context,
    blocks: &mut Vec<RBlock>,
    array: usize,
    index: &TypedExpression,
    e: &TypedExpression,
    after: Continuation,
) -> Result<OpenBlock, LowerFault>
    ensures { Emits (simple_code (store array (typed_expression_of index.now) (typed_expression_of e.now)) context.free (spot after))
        blocks.old.items blocks.new.items result }
{
    let global = number_of(array)?;
    let index_place = place_of(index, context.free)?;
    let value = place_of(e, index_place.free)?;
    let store = RInst::Store(global, index_place.register, value.register);
    let last = put_before(context.alloc, store, after)?;
    let middle = operand_into(
        context.alloc,
        blocks,
        e,
        value.register,
        index_place.free,
        last,
    )?;
    operand_into(
        context.alloc,
        blocks,
        index,
        index_place.register,
        context.free,
        middle,
    )
}

/// Emits the value of an expression to the output.
pub(crate) fn output_code(
    context: Context,
    blocks: &mut Vec<RBlock>,
    e: &TypedExpression,
    after: Continuation,
) -> Result<OpenBlock, LowerFault>
    ensures { Emits (simple_code (output (typed_expression_of e.now)) context.free (spot after)) blocks.old.items blocks.new.items result }
{
    let block = block_of(blocks, after)?;
    let value = place_of(e, context.free)?;
    let end = exit_block(context.alloc, RExit::Out(value.register, block));
    operand_into(context.alloc, blocks, e, value.register, context.free, end)
}

/// Where a call's result goes, and the block where its caller goes on.
#[derive(Clone, Copy)]
pub(crate) struct Receiver {
    pub(crate) to: Option<Register>,
    pub(crate) block: BlockNumber,
}

/// Returns where the result of a call goes: nowhere, to a local, or by way of a free register to a global variable.
fn receiver_of(
    context: Context,
    blocks: &mut Vec<RBlock>,
    to: Option<Destination>,
    after: Continuation,
) -> Result<Receiver, LowerFault>
    ensures { Emits (receiver to context.free (spot after)) blocks.old.items blocks.new.items result }
{
    match to {
        None => {
            let block = block_of(blocks, after)?;
            Ok(Receiver { to: None, block })
        }
        Some(Destination::Local(x)) => {
            let local = register_of(x)?;
            let block = block_of(blocks, after)?;
            Ok(Receiver {
                to: Some(local),
                block,
            })
        }
        Some(Destination::Global(x)) => {
            let global = number_of(x)?;
            let result = spare_register(context.free)?;
            let index = spare_register(result + 1)?;
            let store = RInst::Store(global, index, result);
            let last = put_before(context.alloc, store, after)?;
            let code = put_first(RInst::Const(index, 0), last)?;
            let block = block_of(blocks, Continuation::Made(code))?;
            Ok(Receiver {
                to: Some(result),
                block,
            })
        }
    }
}

/// Emits a call of a function.
pub(crate) fn call_code(
    context: Context,
    blocks: &mut Vec<RBlock>,
    to: Option<Destination>,
    function: usize,
    arguments: &[TypedExpression],
    after: Continuation,
) -> Result<OpenBlock, LowerFault>
    ensures { Emits (simple_code (call to function (typed_expressions_of arguments.now)) context.free (spot after))
        blocks.old.items blocks.new.items result }
{
    let callee = number_of(function)?;
    let receiver = receiver_of(context, blocks, to, after)?;
    let mut places = Vec::new(context.alloc);
    places_of(arguments, context.free, &mut places)?;
    let registers = registers_of(context.alloc, places.as_slice())?;
    let call = RExit::Call(callee, registers, receiver.to, receiver.block);
    let end = exit_block(context.alloc, call);
    operands_into(
        context.alloc,
        blocks,
        arguments,
        places.as_slice(),
        context.free,
        end,
    )
}

/// Emits a return with a value, or without.
pub(crate) fn return_code(
    context: Context,
    blocks: &mut Vec<RBlock>,
    given: &Option<TypedExpression>,
) -> Result<OpenBlock, LowerFault>
    ensures { (after : Spot) → Emits (simple_code (return_with (maybe_typed_expression_of given.now)) context.free after)
        blocks.old.items blocks.new.items result }
{
    match given {
        None => Ok(exit_block(context.alloc, RExit::Return(None))),
        Some(e) => {
            let value = place_of(e, context.free)?;
            let end = exit_block(context.alloc, RExit::Return(Some(value.register)));
            operand_into(context.alloc, blocks, e, value.register, context.free, end)
        }
    }
}
