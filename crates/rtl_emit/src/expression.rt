//! The code of expressions and conditions, by cases over their kinds. A function that calls itself hands the answers of its parts
//! on to one that reads them, so that it has few ways out.
ghost use Rattle.std.specs.Prelude.{◌≡◌, ◌<◌, true, false, IfOk, IfErr, Err};
ghost use Rattle.rtl.specs.declared.limits.TheConstants.{MAX_REGISTERS};
ghost use Rattle.words.specs.Words.{wrap};
ghost use Rattle.c_tokens.specs.declared.token.IntegerType.{IntegerType};
ghost use Rattle.c_tree.specs.declared.tree.BinaryOp.{BinaryOp};
ghost use Rattle.c_typed.specs.Shape.{typed_expression_of, typed_expressions_of};
ghost use Rattle.c_typed.specs.Trees.{element, unary, binary, conditional};
ghost use Rattle.c_typed.specs.Values.{sign_of};
ghost use Rattle.rtl_emit.specs.Blocks.{spot};
ghost use Rattle.rtl_emit.specs.Expressions.{ArePlaces};
ghost use Rattle.rtl_emit.specs.Operations.{ComputesContrary};
ghost use Rattle.rtl_emit.specs.Sizes as Sizes;
ghost use Rattle.rtl_emit.specs.Sizes.{by_branches, has_contrary, logical_of};
ghost use Rattle.rtl_emit.specs.Emits.{Emits, value, operand, operands, two_operands, value_branch, condition_branch, own_value, own_branch};

use crate::block::{Continuation, OpenBlock, block_of, open_block, seal};
use crate::fault::LowerFault;
use crate::operation::{Form, Operation, Prefix, contrary_of, form_of, prefix_of};
use crate::place::Place;
use crate::simple::{Aim, global_into, local_into, number_into};
use crate::targets::{Targets, branch_by, likely_first, truth_blocks};
use crate::waiting::{
    Waiting, WaitingForTwo, combination_at, contrary_at, load_at, operation_at, test_at,
};
use c_tokens::IntegerType;
use c_tree::{BinaryOp, UnaryOp};
use c_typed::TypedExpression;
use rtl::{BlockNumber, RBlock, Register};
use std::alloc::Global;

/// The left operand and the right one.
type Operands = (TypedExpression, TypedExpression);

/// The test of a conditional expression, and its sides.
type Parts = (TypedExpression, TypedExpression, TypedExpression);

/// Returns the word that a constant means.
fn constant(value: u32) -> u32
    ensures { result ≡ wrap value }
{
    value
}

/// Reports whether an expression is `&&`, `||` or `!`, whose value its branches tell.
pub(crate) fn is_logical(e: &TypedExpression) -> bool
    ensures { result ≡ by_branches (typed_expression_of e.now) }
{
    match e {
        TypedExpression::Unary(operator, _, _) => *operator == UnaryOp::Not,
        TypedExpression::Binary(operator, _, _) => {
            *operator == BinaryOp::LogicalAnd || *operator == BinaryOp::LogicalOr
        }
        _ => false,
    }
}

/// Emits the value of an expression in a register, which only the last instruction on each way writes.
#[cycle(expressions)]
pub fn value_into(
    alloc: Global,
    blocks: &mut Vec<RBlock>,
    e: &TypedExpression,
    to: Register,
    free: Register,
    after: Continuation,
) -> Result<OpenBlock, LowerFault>
    ensures { Emits (value (typed_expression_of e.now) to free (spot after)) blocks.old.items blocks.new.items result }
{
    let aim = Aim {
        alloc,
        to,
        free,
        after,
    };
    match e {
        TypedExpression::Constant(literal) => number_into(aim, *literal),
        TypedExpression::Local(_, number) => local_into(aim, *number),
        TypedExpression::Global(_, number) => global_into(aim, *number),
        TypedExpression::Element(_, parts) => {
            let (number, index) = &**parts;
            element_into(aim, blocks, *number, index)
        }
        TypedExpression::Unary(operator, _, part) => unary_into(aim, blocks, *operator, part),
        TypedExpression::Binary(operator, integer_type, operands) => {
            binary_into(aim, blocks, *operator, *integer_type, operands)
        }
        TypedExpression::Conditional(_, parts) => conditional_into(aim, blocks, parts),
    }
}

/// Emits the value of an element of an array.
#[cycle(expressions)]
fn element_into(
    aim: Aim,
    blocks: &mut Vec<RBlock>,
    array: usize,
    index: &TypedExpression,
) -> Result<OpenBlock, LowerFault>
    ensures { (k : IntegerType) → Emits (value (element array k (typed_expression_of index.now)) aim.to aim.free (spot aim.after))
        blocks.old.items blocks.new.items result }
{
    let (alloc, free) = (aim.alloc, aim.free);
    let load = load_at(aim, array, index);
    await_operand(alloc, blocks, index, free, load)
}

/// Emits the value of a prefix operator.
#[cycle(expressions)]
fn unary_into(
    aim: Aim,
    blocks: &mut Vec<RBlock>,
    operator: UnaryOp,
    part: &TypedExpression,
) -> Result<OpenBlock, LowerFault>
    ensures { (k : IntegerType) → Emits (value (unary operator k (typed_expression_of part.now)) aim.to aim.free (spot aim.after))
        blocks.old.items blocks.new.items result }
{
    let (alloc, to, free, after) = (aim.alloc, aim.to, aim.free, aim.after);
    match prefix_of(operator, is_logical(part)) {
        Prefix::Same => value_into(alloc, blocks, part, to, free, after),
        Prefix::Branches => {
            let truth = truth_blocks(alloc, blocks, to, after)?;
            condition(alloc, blocks, part, likely_first(truth.no, truth.yes), free)
        }
        Prefix::Combined(with) => {
            let value = combination_at(with, part, to, free, open_block(alloc, after));
            await_operand(alloc, blocks, part, free, value)
        }
    }
}

/// Emits the value of an operator with two operands.
#[cycle(expressions)]
fn binary_into(
    aim: Aim,
    blocks: &mut Vec<RBlock>,
    operator: BinaryOp,
    integer_type: IntegerType,
    operands: &Operands,
) -> Result<OpenBlock, LowerFault>
    ensures { Emits (value (binary operator integer_type (typed_expression_of operands.now.0) (typed_expression_of operands.now.1))
        aim.to aim.free (spot aim.after)) blocks.old.items blocks.new.items result }
{
    match form_of(operator, integer_type) {
        Form::Logical { both } => told_into(aim, blocks, both, operands),
        Form::Plain(operation) => {
            let (left, right) = operands;
            let (alloc, to, free, after) = (aim.alloc, aim.to, aim.free, aim.after);
            let values = operation_at(operation, left, right, to, free, open_block(alloc, after));
            await_both(alloc, blocks, left, right, free, values)
        }
    }
}

/// Emits the value of `&&` or `||`, which its branches tell.
#[cycle(expressions)]
fn told_into(
    aim: Aim,
    blocks: &mut Vec<RBlock>,
    both: bool,
    operands: &Operands,
) -> Result<OpenBlock, LowerFault>
    ensures { (k : IntegerType) → Emits (value (binary (logical_of both) k (typed_expression_of operands.now.0) (typed_expression_of operands.now.1))
        aim.to aim.free (spot aim.after)) blocks.old.items blocks.new.items result }
{
    let truth = truth_blocks(aim.alloc, blocks, aim.to, aim.after)?;
    logical_branches(aim.alloc, blocks, both, operands, truth, aim.free)
}

/// Emits the value of a conditional expression, each side of which is a block of its own.
#[cycle(expressions)]
fn conditional_into(
    aim: Aim,
    blocks: &mut Vec<RBlock>,
    parts: &Parts,
) -> Result<OpenBlock, LowerFault>
    ensures { (k : IntegerType) → Emits (value (conditional k (typed_expression_of parts.now.0) (typed_expression_of parts.now.1)
        (typed_expression_of parts.now.2)) aim.to aim.free (spot aim.after)) blocks.old.items blocks.new.items result }
{
    let (test, first, second) = parts;
    let (alloc, to, free, after) = (aim.alloc, aim.to, aim.free, aim.after);
    let join = block_of(blocks, after)?;
    let yes = value_block(alloc, blocks, first, to, free, join)?;
    let no = value_block(alloc, blocks, second, to, free, join)?;
    condition(alloc, blocks, test, likely_first(yes, no), free)
}

/// Emits a value as a block of its own, which goes on at a block that is there.
#[cycle(expressions)]
fn value_block(
    alloc: Global,
    blocks: &mut Vec<RBlock>,
    e: &TypedExpression,
    to: Register,
    free: Register,
    join: BlockNumber,
) -> Result<BlockNumber, LowerFault>
    ensures { Emits (own_value (typed_expression_of e.now) to free join) blocks.old.items blocks.new.items result }
{
    let code = value_into(alloc, blocks, e, to, free, Continuation::Jump(join))?;
    seal(blocks, code)
}

/// Emits the value of an operand in its place: no code for a local that is there.
#[cycle(expressions)]
#[inline(always)]
pub fn operand_into(
    alloc: Global,
    blocks: &mut Vec<RBlock>,
    e: &TypedExpression,
    register: Register,
    free: Register,
    after: OpenBlock,
) -> Result<OpenBlock, LowerFault>
    requires within { register < MAX_REGISTERS }
    ensures { Emits (operand (typed_expression_of e.now) register free after) blocks.old.items blocks.new.items result }
{
    if let TypedExpression::Local(_, number) = e {
        if *number == register as usize {
            return Ok(after);
        }
    }
    let after = Continuation::Made(after);
    // most operands are a local or a constant, for which nothing is called
    if let TypedExpression::Constant(literal) = e {
        let aim = Aim {
            alloc,
            to: register,
            free,
            after,
        };
        return number_into(aim, *literal);
    }
    value_into(alloc, blocks, e, register, free, after)
}

/// Emits the value of an operand in its place, before code that waits for it there, if there is such code.
#[cycle(expressions)]
fn await_operand(
    alloc: Global,
    blocks: &mut Vec<RBlock>,
    e: &TypedExpression,
    free: Register,
    waiting: Result<Waiting, LowerFault>,
) -> Result<OpenBlock, LowerFault>
    requires within { IfOk waiting (λ w. w.place.register < MAX_REGISTERS) }
    ensures ok { IfOk waiting (λ w. Emits (operand (typed_expression_of e.now) w.place.register free w.code)
        blocks.old.items blocks.new.items result) }
    ensures err { IfErr waiting (λ f. (result ≡ Err f) × (blocks.new.items ≡ blocks.old.items)) }
{
    let value = waiting?;
    operand_into(alloc, blocks, e, value.place.register, free, value.code)
}

/// Emits the same of two operands, the first of which is held while the second is found.
#[cycle(expressions)]
#[inline(always)]
fn await_both(
    alloc: Global,
    blocks: &mut Vec<RBlock>,
    left: &TypedExpression,
    right: &TypedExpression,
    free: Register,
    waiting: Result<WaitingForTwo, LowerFault>,
) -> Result<OpenBlock, LowerFault>
    requires first { IfOk waiting (λ w. w.first.register < MAX_REGISTERS) }
    requires second { IfOk waiting (λ w. w.second.register < MAX_REGISTERS) }
    ensures ok { IfOk waiting (λ w. Emits (two_operands (typed_expression_of left.now) (typed_expression_of right.now) free w)
        blocks.old.items blocks.new.items result) }
    ensures err { IfErr waiting (λ f. (result ≡ Err f) × (blocks.new.items ≡ blocks.old.items)) }
{
    let values = waiting?;
    let (first, second) = (values.first, values.second);
    let middle = operand_into(
        alloc,
        blocks,
        right,
        second.register,
        first.free,
        values.code,
    )?;
    operand_into(alloc, blocks, left, first.register, free, middle)
}

/// Emits a branch by a value.
#[cycle(expressions)]
fn test(
    alloc: Global,
    blocks: &mut Vec<RBlock>,
    e: &TypedExpression,
    targets: Targets,
    free: Register,
) -> Result<OpenBlock, LowerFault>
    ensures { Emits (value_branch (typed_expression_of e.now) targets free)
        blocks.old.items blocks.new.items result }
{
    await_operand(alloc, blocks, e, free, test_at(alloc, e, targets, free))
}

/// Emits the branches of a condition to its targets.
#[cycle(expressions)]
pub fn condition(
    alloc: Global,
    blocks: &mut Vec<RBlock>,
    e: &TypedExpression,
    targets: Targets,
    free: Register,
) -> Result<OpenBlock, LowerFault>
    ensures { Emits (condition_branch (typed_expression_of e.now) targets free)
        blocks.old.items blocks.new.items result }
{
    match e {
        TypedExpression::Constant(literal) => Ok(branch_by(
            alloc,
            constant(literal.value),
            targets,
        )),
        TypedExpression::Unary(operator, _, part) => match operator {
            UnaryOp::Identity => condition(alloc, blocks, part, targets, free),
            UnaryOp::Not => condition(alloc, blocks, part, targets.of_contrary(), free),
            _ => test(alloc, blocks, e, targets, free),
        },
        TypedExpression::Binary(operator, integer_type, operands) => {
            match form_of(*operator, *integer_type) {
                Form::Logical { both } => {
                    logical_branches(alloc, blocks, both, operands, targets, free)
                }
                Form::Plain(_) => {
                    let Some(operation) = contrary_of(*operator, *integer_type) else {
                        return test(alloc, blocks, e, targets, free);
                    };
                    if targets.likely {
                        return test(alloc, blocks, e, targets, free);
                    }
                    contrary_test(alloc, blocks, operation, operands, targets, free)
                }
            }
        }
        TypedExpression::Conditional(_, parts) => sides(alloc, blocks, parts, targets, free),
        _ => test(alloc, blocks, e, targets, free),
    }
}

/// Emits a branch by the contrary of a comparison, with the block `no` first.
#[cycle(expressions)]
fn contrary_test(
    alloc: Global,
    blocks: &mut Vec<RBlock>,
    operation: Operation,
    operands: &Operands,
    targets: Targets,
    free: Register,
) -> Result<OpenBlock, LowerFault>
    ensures { (o : BinaryOp) (k : IntegerType) → ComputesContrary o (sign_of k) operation → Sizes.is_logical o ≡ false
        → has_contrary o ≡ true → targets.likely ≡ false
        → Emits (condition_branch (binary o k (typed_expression_of operands.now.0) (typed_expression_of operands.now.1)) targets free)
        blocks.old.items blocks.new.items result }
{
    let (left, right) = operands;
    let values = contrary_at(alloc, operation, left, right, targets, free);
    await_both(alloc, blocks, left, right, free, values)
}

/// Emits the branches of `&&` or `||`: of the left operand, and in a block of its own of the right one.
#[cycle(expressions)]
fn logical_branches(
    alloc: Global,
    blocks: &mut Vec<RBlock>,
    both: bool,
    operands: &Operands,
    targets: Targets,
    free: Register,
) -> Result<OpenBlock, LowerFault>
    ensures { (k : IntegerType) → Emits (condition_branch (binary (logical_of both) k (typed_expression_of operands.now.0)
        (typed_expression_of operands.now.1)) targets free)
        blocks.old.items blocks.new.items result }
{
    let (left, right) = operands;
    let second = branch_block(alloc, blocks, right, targets, free)?;
    condition(alloc, blocks, left, targets.of_left(both, second), free)
}

/// Emits the branches of a conditional expression, each side of which is a block of its own.
#[cycle(expressions)]
fn sides(
    alloc: Global,
    blocks: &mut Vec<RBlock>,
    parts: &Parts,
    targets: Targets,
    free: Register,
) -> Result<OpenBlock, LowerFault>
    ensures { (k : IntegerType) → Emits (condition_branch (conditional k (typed_expression_of parts.now.0) (typed_expression_of parts.now.1)
        (typed_expression_of parts.now.2)) targets free) blocks.old.items blocks.new.items result }
{
    let (test, first, second) = parts;
    let yes = branch_block(alloc, blocks, first, targets, free)?;
    let no = branch_block(alloc, blocks, second, targets, free)?;
    condition(alloc, blocks, test, likely_first(yes, no), free)
}

/// Emits the branches of a condition as a block of its own.
#[cycle(expressions)]
fn branch_block(
    alloc: Global,
    blocks: &mut Vec<RBlock>,
    e: &TypedExpression,
    targets: Targets,
    free: Register,
) -> Result<BlockNumber, LowerFault>
    ensures { Emits (own_branch (typed_expression_of e.now) targets free) blocks.old.items blocks.new.items result }
{
    let code = condition(alloc, blocks, e, targets, free)?;
    seal(blocks, code)
}

/// Emits the values of a list in their places, from the first on. A Limit if there are fewer places than values.
pub fn operands_into(
    alloc: Global,
    blocks: &mut Vec<RBlock>,
    es: &[TypedExpression],
    places: &[Place],
    free: Register,
    after: OpenBlock,
) -> Result<OpenBlock, LowerFault>
    requires places { ArePlaces (typed_expressions_of es.now) free places.now }
    ensures { Emits (operands (typed_expressions_of es.now) places.now free after) blocks.old.items blocks.new.items result }
{
    let Some((e, rest)) = es.split_first() else {
        return Ok(after);
    };
    let Some((place, more)) = places.split_first() else {
        return Err(LowerFault::Limit);
    };
    let middle = operands_into(alloc, blocks, rest, more, place.free, after)?;
    operand_into(alloc, blocks, e, place.register, free, middle)
}
