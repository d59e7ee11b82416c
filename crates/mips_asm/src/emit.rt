//! The words of orders, in the order of the layout.

ghost use Rattle.std.specs.Prelude.{◌≡◌, ◌+◌, ◌*◌, ◌<◌, ◌≤◌, ◌++◌, ◌∷◌, [], All, length, map, slice_index, FitsSigned, Err, OnOk, IfOk};
ghost use Rattle.std.specs.Int.{w16};
ghost use Rattle.mips_isa.specs.declared.inst.Inst.TheVariants as insts;
ghost use Rattle.mips_isa.specs.declared.inst.Control.TheVariants.{SystemCall};
ghost use Rattle.mips_isa.specs.Ranges.{IsInst};
ghost use Rattle.mips_code.specs.Words.{inst_word};
ghost use Rattle.mips_asm.specs.declared.limits.TheConstants.{CODE_WORDS, FUNCTION_WORDS};
ghost use Rattle.mips_asm.specs.Layout.{jump_to, hop, slot_insts, branch_offset, exit_insts, order_insts, insts_of, layout, place};
ghost use Rattle.mips_asm.specs.Layout.{set_number};
ghost use Rattle.mips_asm.specs.Emitted.{AllNear, AreUnits, Fit, IsNear, IsWithin, start_of};

use crate::fault::AsmFault;
use crate::limits::{CODE_WORDS, functions_fit};
use crate::places::{places, size, total};
use mblock::{BlockNumber, Exit, Order};
use mips_code::{encode, encode_plain};
use mips_isa::{CODE_BASE, Control, ImmOp, Inst, JumpOp, JumpTarget, Plain, Reg};
use std::alloc::{AllocError, Global};

#[inline(always)]
fn put_plain(code: &mut Vec<u32>, plain: Plain) -> Result<(), AllocError>
    ensures word { OnOk result (code.new.items ≡ code.old.items ++ map inst_word (insts.Plain plain ∷ [])) }
    ensures fit { Fit (insts.Plain plain ∷ []) }
{
    code.push(encode_plain(plain))?;
    Ok(())
}

fn put(code: &mut Vec<u32>, inst: Inst) -> Result<(), AllocError>
    ensures word { OnOk result (code.new.items ≡ code.old.items ++ map inst_word (inst ∷ [])) }
    ensures fit { Fit (inst ∷ []) }
{
    code.push(encode(inst))?;
    Ok(())
}

fn jump_to(place: u32) -> Inst
    requires { place ≤ CODE_WORDS }
    ensures { result ≡ jump_to place }
{
    Inst::Control(Control::JumpTo {
        op: JumpOp::Jump,
        target: JumpTarget::masked(CODE_BASE / 4 + place),
    })
}

fn put_hop(code: &mut Vec<u32>, place: u32) -> Result<(), AllocError>
    requires { place ≤ CODE_WORDS }
    ensures word { OnOk result (code.new.items ≡ code.old.items ++ map inst_word (hop place)) }
    ensures fit { OnOk result (Fit (hop place)) }
{
    put(code, jump_to(place))?;
    put_plain(code, Plain::nop())
}

fn put_slot(code: &mut Vec<u32>, slot: Option<Plain>) -> Result<(), AllocError>
    ensures word { OnOk result (code.new.items ≡ code.old.items ++ map inst_word (slot_insts slot)) }
    ensures fit { OnOk result (Fit (slot_insts slot)) }
{
    match slot {
        None => Ok(()),
        Some(plain) => put_plain(code, plain),
    }
}

fn branch_offset(here: u32, to: u32) -> i16
    requires here { here ≤ CODE_WORDS }
    requires to { to ≤ CODE_WORDS }
    requires near { FitsSigned w16 (branch_offset here to) }
    ensures { result ≡ branch_offset here to }
{
    (to as i32 - (here as i32 + 1)) as i16
}

fn place_at(places: &[u32], block: BlockNumber) -> u32
    requires { All (λ p. p ≤ CODE_WORDS) places.now }
    ensures value { result ≡ start_of places.now block }
    ensures small { result ≤ CODE_WORDS }
{
    places.get(block.number() as usize).copied().unwrap_or(0)
}

/// Writes a word, its slot, and the way on.
fn put_jump(
    code: &mut Vec<u32>,
    control: Control,
    slot: Option<Plain>,
    next: u32,
) -> Result<(), AllocError>
    requires { next ≤ CODE_WORDS }
    ensures word { OnOk result (code.new.items ≡ code.old.items ++ map inst_word (insts.Control control ∷ (slot_insts slot ++ hop next))) }
    ensures fit { OnOk result (Fit (insts.Control control ∷ (slot_insts slot ++ hop next))) }
{
    put(code, Inst::Control(control))?;
    put_slot(code, slot)?;
    put_hop(code, next)
}

/// Writes a word and its slot.
fn put_leave(code: &mut Vec<u32>, control: Inst, slot: Option<Plain>) -> Result<(), AllocError>
    ensures word { OnOk result (code.new.items ≡ code.old.items ++ map inst_word (control ∷ slot_insts slot)) }
    ensures fit { OnOk result (Fit (control ∷ slot_insts slot)) }
{
    put(code, control)?;
    put_slot(code, slot)
}

fn put_call(code: &mut Vec<u32>, number: i16) -> Result<(), AllocError>
    ensures word { OnOk result (code.new.items ≡ code.old.items ++ map inst_word (set_number number ∷ insts.Control SystemCall ∷ [])) }
    ensures fit { OnOk result (Fit (set_number number ∷ insts.Control SystemCall ∷ [])) }
{
    put(
        code,
        Inst::Plain(Plain::Imm {
            op: ImmOp::Addiu,
            rt: Reg::RESULT,
            rs: Reg::ZERO,
            imm: number,
        }),
    )?;
    put(code, Inst::Control(Control::SystemCall))
}

/// Writes the words of an exit.
fn put_exit(
    code: &mut Vec<u32>,
    places: &[u32],
    here: u32,
    exit: Exit,
    slot: Option<Plain>,
) -> Result<(), AllocError>
    requires here { here ≤ CODE_WORDS }
    requires near { IsNear (start_of places.now) here exit }
    requires places { All (λ p. p ≤ CODE_WORDS) places.now }
    ensures word { OnOk result (code.new.items ≡ code.old.items ++ map inst_word (exit_insts (start_of places.now) here exit slot)) }
    ensures fit { OnOk result (Fit (exit_insts (start_of places.now) here exit slot)) }
{
    match exit {
        Exit::Goto(t) => { put_leave(code, jump_to(place_at(places, t)), slot) }
        Exit::BranchPair {
            test,
            rs,
            rt,
            then,
            other,
        } => {
            let offset = branch_offset(here, place_at(places, then));
            let control = Control::BranchPair {
                test,
                rs,
                rt,
                offset,
            };
            put_jump(code, control, slot, place_at(places, other))
        }
        Exit::BranchZero {
            test,
            rs,
            then,
            other,
        } => {
            let offset = branch_offset(here, place_at(places, then));
            let control = Control::BranchZero { test, rs, offset };
            put_jump(code, control, slot, place_at(places, other))
        }
        Exit::Call { function, next } => {
            let control = Control::JumpTo {
                op: JumpOp::JumpAndLink,
                target: JumpTarget::masked(CODE_BASE / 4 + place_at(places, function)),
            };
            put_jump(code, control, slot, place_at(places, next))
        }
        Exit::Return => {
            let control = Control::JumpRegister { rs: Reg::LINK };
            put_leave(code, Inst::Control(control), slot)
        }
        Exit::Out(next) => {
            put_call(code, 1)?;
            put_hop(code, place_at(places, next))
        }
        Exit::Halt => { put_call(code, 10) }
    }
}

fn put_insts(code: &mut Vec<u32>, plain: &[Plain]) -> Result<(), AllocError>
    ensures word { OnOk result (code.new.items ≡ code.old.items ++ map inst_word (map insts.Plain plain.now)) }
    ensures fit { OnOk result (Fit (map insts.Plain plain.now)) }
{
    for inst in plain {
        put_plain(code, *inst)?;
    }
    Ok(())
}

fn put_order(
    code: &mut Vec<u32>,
    places: &[u32],
    here: u32,
    order: &Order,
) -> Result<(), AllocError>
    requires here { here + length order.now.insts ≤ CODE_WORDS }
    requires near { IsNear (start_of places.now) (here + length order.now.insts) order.now.exit }
    requires places { All (λ p. p ≤ CODE_WORDS) places.now }
    ensures word { OnOk result (code.new.items ≡ code.old.items ++ map inst_word (order_insts (start_of places.now) here order.now)) }
    ensures fit { OnOk result (Fit (order_insts (start_of places.now) here order.now)) }
{
    put_insts(code, order.insts())?;
    let at = here + order.insts().len() as u32;
    put_exit(code, places, at, order.exit(), order.slot())
}

/// Writes the words after given places.
fn put_orders(code: &mut Vec<u32>, places: &[u32], orders: &[Order]) -> Result<(), AllocError>
    requires places { All (λ p. p ≤ CODE_WORDS) places.now }
    requires near { AllNear (start_of places.now) orders.now }
    requires room { place orders.now (length orders.now) ≤ CODE_WORDS }
    ensures word { OnOk result (code.new.items ≡ code.old.items ++ map inst_word (insts_of (start_of places.now) 0 orders.now)) }
    ensures fit { OnOk result (Fit (insts_of (start_of places.now) 0 orders.now)) }
{
    let mut here = 0;
    for order in orders {
        put_order(code, places, here, order)?;
        here += size(order);
    }
    Ok(())
}

/// Returns the words of orders whose targets are there; Limit exactly if the limits don't allow them.
pub fn code_of(alloc: Global, owner: &[BlockNumber], orders: &[Order]) -> Result<Vec<u32>, AsmFault>
    requires owner { length owner.now ≡ length orders.now }
    requires unit { AreUnits (slice_index owner.now) orders.now }
    ensures word { IfOk result (λ w. w.items ≡ map inst_word (layout orders.now)) }
    ensures fit { OnOk result (All IsInst (layout orders.now)) }
    ensures within { OnOk result (IsWithin (slice_index owner.now) orders.now) }
    ensures limit { result ≡ Err AsmFault.Limit → IsWithin (slice_index owner.now) orders.now → ⊥ }
    ensures many { result ≡ Err AsmFault.Limit → FUNCTION_WORDS < 2052 * length orders.now }
{
    let words = total(orders);
    if !functions_fit(owner, orders) || words > CODE_WORDS {
        return Err(AsmFault::Limit);
    }
    let places = places(alloc, orders)?;
    let mut code = Vec::with_capacity(alloc, words as usize)?;
    put_orders(&mut code, &places, orders)?;
    Ok(code)
}
