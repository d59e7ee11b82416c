//! Code that waits for the values of operands in their places, from where on it does what they are for.
ghost use Rattle.std.specs.Prelude.{◌≡◌, ◌<◌, ◌≤◌, ◌+◌, max, List, IfOk, IfErr, OnOk};
ghost use Rattle.c_typed.specs.Shape.{typed_expression_of};
ghost use Rattle.rtl.specs.Meaning.{Code};
ghost use Rattle.rtl.specs.declared.block.RBlock.{RBlock};
ghost use Rattle.rtl.specs.declared.instruction.RInst.TheVariants.{Const, Load};
ghost use Rattle.rtl.specs.declared.instruction.RExit.TheVariants.{Branch};
ghost use Rattle.rtl.specs.declared.limits.TheConstants.{MAX_REGISTERS};
ghost use Rattle.rtl_emit.specs.Blocks.{open_code, exit_code, first, spot, line_of, insts_of};
ghost use Rattle.rtl_emit.specs.Expressions.{IsPlace, Fetches, Gives, Decides, at_constant};
ghost use Rattle.rtl_emit.specs.Operations.{inst_of};
ghost use Rattle.rtl_emit.specs.Sizes.{place_registers, spare_registers, both_registers, tested_registers, Beyond};
ghost use Rattle.rtl_emit.specs.Sound.{Scope, IsSound};

use crate::block::{OpenBlock, exit_block, put_before, put_first};
use crate::fault::LowerFault;
use crate::operation::{Combination, Operation, straight_op};
use crate::place::{Place, place_of, spare_register};
use crate::simple::{Aim, number_of};
use crate::targets::Targets;
use c_typed::TypedExpression;
use rtl::{Op, RExit, RInst, Register};
use std::alloc::Global;

/// An operand's place, and the code that waits for its value there.
#[derive(Drop)]
pub(crate) struct Waiting {
    pub(crate) place: Place,
    pub(crate) code: OpenBlock,
}

/// The places of two operands, the first of which is held while the second is found, and the code that waits for both.
#[derive(Drop)]
pub(crate) struct WaitingForTwo {
    pub(crate) first: Place,
    pub(crate) second: Place,
    pub(crate) code: OpenBlock,
}

/// Emits the load of an element of an array, whose index is an operand.
pub(crate) fn load_at(
    aim: Aim,
    array: usize,
    index: &TypedExpression,
) -> Result<Waiting, LowerFault>
    ensures place { IfOk result (λ w. IsPlace (typed_expression_of index.now) aim.free w.place.register w.place.free) }
    ensures is { IfOk result (λ w. open_code w.code ≡ first (Load aim.to array w.place.register) (line_of (spot aim.after))) }
    ensures room { OnOk result (place_registers (typed_expression_of index.now) aim.free ≤ MAX_REGISTERS) }
    ensures limit { IfErr result (λ f. f ≡ LowerFault.Limit
        → Beyond (place_registers (typed_expression_of index.now) aim.free) 0 (array + 1)) }
{
    let number = number_of(array)?;
    let place = place_of(index, aim.free)?;
    let load = RInst::Load(aim.to, number, place.register);
    let code = put_before(aim.alloc, load, aim.after)?;
    Ok(Waiting { place, code })
}

/// Emits what an operation gives at a value and the word of a constant.
pub(crate) fn combination_at(
    with: Combination,
    e: &TypedExpression,
    to: Register,
    free: Register,
    after: OpenBlock,
) -> Result<Waiting, LowerFault>
    ensures place { IfOk result (λ w. IsPlace (typed_expression_of e.now) free w.place.register w.place.free) }
    ensures does { IfOk result (λ w. (bs : List RBlock) (from : Code)
        → Fetches bs (typed_expression_of e.now) free w.place.register from (open_code w.code)
        → Gives bs (at_constant with.operation (typed_expression_of e.now) with.word) free to from (open_code after)) }
    ensures insts { IfOk result (λ w. insts_of (open_code w.code) ≡ insts_of (open_code after) + 2) }
    ensures sound { IfOk result (λ w. (s : Scope) → to < s.registers → spare_registers (typed_expression_of e.now) free ≤ s.registers
        → IsSound s (open_code after) → IsSound s (open_code w.code)) }
    ensures room { OnOk result (spare_registers (typed_expression_of e.now) free ≤ MAX_REGISTERS) }
    ensures limit { IfErr result (λ f. f ≡ LowerFault.Limit → MAX_REGISTERS < spare_registers (typed_expression_of e.now) free) }
{
    let place = place_of(e, free)?;
    let other = spare_register(place.free)?;
    let last = put_first(with.operation.instruction(to, place.register, other), after)?;
    let code = put_first(RInst::Const(other, with.word), last)?;
    Ok(Waiting { place, code })
}

/// Emits a branch by a value. Where `likely` is false the block `no` stands first, and the test is the contrary one.
pub(crate) fn test_at(
    alloc: Global,
    e: &TypedExpression,
    targets: Targets,
    free: Register,
) -> Result<Waiting, LowerFault>
    ensures place { IfOk result (λ w. IsPlace (typed_expression_of e.now) free w.place.register w.place.free) }
    ensures does { IfOk result (λ w. (bs : List RBlock) (from : Code)
        → Fetches bs (typed_expression_of e.now) free w.place.register from (open_code w.code)
        → Decides bs (typed_expression_of e.now) free targets.yes targets.no from) }
    ensures insts { IfOk result (λ w. insts_of (open_code w.code) ≤ 2) }
    ensures sound { IfOk result (λ w. (s : Scope) → tested_registers targets.likely (typed_expression_of e.now) free ≤ s.registers
        → targets.yes < s.blocks → targets.no < s.blocks → IsSound s (open_code w.code)) }
    ensures room { OnOk result (tested_registers targets.likely (typed_expression_of e.now) free ≤ MAX_REGISTERS) }
    ensures limit { IfErr result (λ f. f ≡ LowerFault.Limit
        → MAX_REGISTERS < tested_registers targets.likely (typed_expression_of e.now) free) }
{
    if targets.likely {
        let place = place_of(e, free)?;
        let code = exit_block(
            alloc,
            RExit::Branch(place.register, targets.yes, targets.no),
        );
        Ok(Waiting { place, code })
    } else {
        let contrary = spare_register(free)?;
        let end = exit_block(alloc, RExit::Branch(contrary, targets.no, targets.yes));
        let is_zero = Combination {
            operation: straight_op(Op::Eq),
            word: 0,
        };
        combination_at(is_zero, e, contrary, free, end)
    }
}

/// Emits what an operation gives at two values.
#[inline(always)]
pub(crate) fn operation_at(
    operation: Operation,
    left: &TypedExpression,
    right: &TypedExpression,
    to: Register,
    free: Register,
    after: OpenBlock,
) -> Result<WaitingForTwo, LowerFault>
    ensures first { IfOk result (λ w. IsPlace (typed_expression_of left.now) free w.first.register w.first.free) }
    ensures second { IfOk result (λ w. IsPlace (typed_expression_of right.now) w.first.free w.second.register w.second.free) }
    ensures is { IfOk result (λ w. open_code w.code ≡ first (inst_of operation to w.first.register w.second.register) (open_code after)) }
    ensures sound { IfOk result (λ w. (s : Scope) → to < s.registers
        → both_registers (typed_expression_of left.now) (typed_expression_of right.now) free ≤ s.registers
        → IsSound s (open_code after) → IsSound s (open_code w.code)) }
    ensures room { OnOk result (both_registers (typed_expression_of left.now) (typed_expression_of right.now) free ≤ MAX_REGISTERS) }
    ensures limit { IfErr result (λ f. f ≡ LowerFault.Limit
        → MAX_REGISTERS < both_registers (typed_expression_of left.now) (typed_expression_of right.now) free) }
{
    let first = place_of(left, free)?;
    let second = place_of(right, first.free)?;
    let code = put_first(
        operation.instruction(to, first.register, second.register),
        after,
    )?;
    Ok(WaitingForTwo {
        first,
        second,
        code,
    })
}

/// Emits a branch by the contrary of a comparison, with the block `no` first.
pub(crate) fn contrary_at(
    alloc: Global,
    operation: Operation,
    left: &TypedExpression,
    right: &TypedExpression,
    targets: Targets,
    free: Register,
) -> Result<WaitingForTwo, LowerFault>
    ensures first { IfOk result (λ w. IsPlace (typed_expression_of left.now) free w.first.register w.first.free) }
    ensures second { IfOk result (λ w. IsPlace (typed_expression_of right.now) w.first.free w.second.register w.second.free) }
    ensures is { IfOk result (λ w. open_code w.code
        ≡ first (inst_of operation free w.first.register w.second.register) (exit_code (Branch free targets.no targets.yes))) }
    ensures sound { IfOk result (λ w. (s : Scope)
        → max (free + 1) (both_registers (typed_expression_of left.now) (typed_expression_of right.now) free) ≤ s.registers
        → targets.yes < s.blocks → targets.no < s.blocks → IsSound s (open_code w.code)) }
    ensures room { OnOk result (max (free + 1) (both_registers (typed_expression_of left.now) (typed_expression_of right.now) free)
        ≤ MAX_REGISTERS) }
    ensures limit { IfErr result (λ f. f ≡ LowerFault.Limit
        → MAX_REGISTERS < max (free + 1) (both_registers (typed_expression_of left.now) (typed_expression_of right.now) free)) }
{
    let to = spare_register(free)?;
    let end = exit_block(alloc, RExit::Branch(to, targets.no, targets.yes));
    operation_at(operation, left, right, to, free, end)
}
