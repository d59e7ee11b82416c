//! The delay rules U1 to U4 of an order.
ghost use Rattle.std.specs.Prelude.{◌≡◌, ◌+◌, ◌<◌, ◌≤◌, ◌↔◌, IsTrue, Option, slice_get, length, MatchResult};
ghost use Rattle.mips_isa.specs.declared.inst.Plain.{Plain};
ghost use Rattle.mips_isa.specs.Actions.{action_of, touches};
ghost use Rattle.mblock.specs.declared.limits.TheConstants.{ORDER_INSTS};
ghost use Rattle.mblock.specs.OrderMeaning.{exit_touches};
ghost use Rattle.mblock.specs.Clean.{kinds_of, IsApart, IsBehind, HasQuietSlot, HasQuietEnd, IsClean, FitsSlot, BreaksFirst};
ghost use Rattle.mblock.specs.Clean.{slot_words};
ghost use Rattle.mblock.specs.CleanTests.{loads_named, is_product_word, conflict_of, early_at};

use crate::exit::Exit;
use crate::order::Order;
use crate::unclean::Unclean;
use mips_isa::{Action, Plain};

/// Reports whether the first instruction loads a register that the second reads or writes. It asks about the second only after a load.
fn loads_for(a: &Plain, b: &Plain) -> bool
    ensures { result ≡ loads_named (action_of a.now) (touches (action_of b.now)) }
{
    match a.action() {
        Action::Loads { d, .. } => b.action().touches(d.reg()),
        _ => false,
    }
}

/// Reports whether the action loads a register that the exit's first word reads or writes.
fn loads_for_exit(a: &Action, exit: &Exit) -> bool
    ensures { result ≡ loads_named a.now (exit_touches exit.now) }
{
    match *a {
        Action::Loads { d, .. } => exit.touches(d.reg()),
        _ => false,
    }
}

/// Reports whether instruction `k` loads a register that the next one reads or writes.
fn is_conflict_at(insts: &[Plain], k: usize) -> bool
    requires { k ≤ ORDER_INSTS }
    ensures { result ≡ conflict_of (slice_get insts.now k) (slice_get insts.now (k + 1)) }
{
    k + 1 < insts.len() && loads_for(&insts[k], &insts[k + 1])
}

fn is_apart(insts: &[Plain]) -> bool
    requires { length insts.now ≤ ORDER_INSTS }
    ensures { IsTrue result ↔ IsApart insts.now }
{
    for k in 0..insts.len() {
        if is_conflict_at(insts, k) {
            return false;
        }
    }
    true
}

fn is_slot_product(slot: &Option<Plain>) -> bool
    ensures { result ≡ is_product_word (slice_get (slot_words slot.now) 1) }
{
    match slot {
        Some(inst) => inst.action().is_product(),
        None => false,
    }
}

/// Reports whether word `k` of an order is a product: an instruction, the exit's word, or the slot.
fn is_product_at(insts: &[Plain], slot: &Option<Plain>, k: usize) -> bool
    requires low { k ≤ ORDER_INSTS + 2 }
    requires few { length insts.now ≤ ORDER_INSTS }
    ensures { result ≡ is_product_word (slice_get (kinds_of insts.now (slot_words slot.now)) k) }
{
    if k < insts.len() {
        return insts[k].action().is_product();
    }
    k == insts.len() + 1 && is_slot_product(slot)
}

/// Reports whether instruction `k` reads HI or LO, and one of the two words after it is a product.
fn is_early_at(insts: &[Plain], slot: &Option<Plain>, k: usize) -> bool
    requires low { k < length insts.now }
    requires few { length insts.now ≤ ORDER_INSTS }
    ensures { result ≡ early_at (kinds_of insts.now (slot_words slot.now)) k }
{
    insts[k].action().is_move()
        && (is_product_at(insts, slot, k + 1) || is_product_at(insts, slot, k + 2))
}

fn is_behind(insts: &[Plain], slot: &Option<Plain>) -> bool
    requires { length insts.now ≤ ORDER_INSTS }
    ensures { IsTrue result ↔ IsBehind (kinds_of insts.now (slot_words slot.now)) }
{
    for k in 0..insts.len() {
        if is_early_at(insts, slot, k) {
            return false;
        }
    }
    true
}

fn is_quiet_slot(order: &Order) -> bool
    ensures { IsTrue result ↔ HasQuietSlot order.now }
{
    match order.slot() {
        Some(inst) => {
            let action = inst.action();
            !(action.is_load() || action.is_move())
        }
        None => true,
    }
}

/// Reports whether the last instruction loads no register that the exit's first word reads or writes.
fn is_quiet_end(insts: &[Plain], exit: &Exit) -> bool
    ensures { IsTrue result ↔ HasQuietEnd insts.now exit.now }
{
    if insts.is_empty() {
        return true;
    }
    let last = insts.len() - 1;
    !loads_for_exit(&insts[last].action(), exit)
}

/// Reports whether an order keeps the delay rules; else the least rule that it breaks.
pub fn clean(order: &Order) -> Result<(), Unclean>
    ensures exact { MatchResult result (λ _. IsClean order.now) (λ rule. BreaksFirst rule order.now) }
    ensures fits { FitsSlot order.now }
{
    let slot = order.slot();
    let insts = order.insts();
    if !is_apart(insts) {
        return Err(Unclean::LoadUse);
    }
    if !is_behind(insts, &slot) {
        return Err(Unclean::ProductAfterMove);
    }
    if !is_quiet_slot(order) {
        return Err(Unclean::SlotLoadOrMove);
    }
    let exit = order.exit();
    if !is_quiet_end(insts, &exit) {
        return Err(Unclean::ExitLoad);
    }
    Ok(())
}
