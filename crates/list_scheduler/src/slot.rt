//! One slot is filled.
ghost use Rattle.std.specs.Prelude.{◌<◌, IfSome, length};

use crate::access::access_of;
use crate::node::Facts;
use crate::resources::Resources;
use mblock::{Block, Order, plain};
use mips_isa::Plain;
use std::alloc::{AllocError, Global};

// What an instruction has to pass on its way to the slot: the exit's first word, and the instructions after it.
#[derive(Drop)]
struct Passed<'a> {
    reads: Resources,
    writes: Resources,
    insts: &'a [Plain],
    // How many instructions there were where the loads were looked at, from the last on.
    looked: usize,
    // Whether one of these loads has to keep its place among the stores.
    has_fixed_load: bool,
}

impl<'a> Passed<'a> {
    /// Reports whether instruction k may run after all of these. A load or a move of HI or LO may not stand in a slot, and a Nop needn't.
    fn lets(&mut self, k: usize, inst: &Plain, facts: &Facts) -> bool {
        let may_fill = !facts.loads() && !facts.moves() && !inst.is_nop();
        let is_apart = !facts.touched().meets(self.writes) && !facts.writes.meets(self.reads);
        may_fill && is_apart && (!facts.stores() || self.lets_store(k, inst))
    }

    /// Reports the same for the sake of memory alone: a store passes what is over its base, which none of these writes, with other bytes.
    fn lets_store(&mut self, k: usize, inst: &Plain) -> bool {
        let Some(store) = access_of(inst) else {
            return true;
        };
        let insts = self.insts;
        let passed = insts.get(k.saturating_add(1)..).unwrap_or_default();
        let passes = |inst: &Plain| access_of(inst).is_none_or(|access| store.passes(&access));
        if !passed.iter().all(passes) {
            return false;
        }
        // the loads after k at which it wasn't looked
        self.has_fixed_load = self.has_fixed_load
            || (k..self.looked).any(|load| is_fixed_load(insts, load));
        self.looked = k;
        !self.has_fixed_load
    }
}

/// Reports whether instruction k loads what a store over the same register may have stored before.
fn is_fixed_load(insts: &[Plain], k: usize) -> bool {
    let Some((before, [inst, ..])) = insts.split_at_checked(k) else {
        return false;
    };
    let Some(load) = access_of(inst) else {
        return false;
    };
    let is_met = |inst: &Plain| {
        matches!(access_of(inst), Some(store) if store.stores && load.meets(&store))
    };
    !load.stores && before.iter().any(is_met)
}

/// Reports whether an instruction makes a product.
fn is_product(inst: Option<&Plain>) -> bool {
    matches!(inst, Some(inst) if inst.action().is_product())
}

/// Reports whether an order keeps the delay rules without instruction k, if it keeps them with it. Only the words around k come nearer to
/// one another.
fn may_leave(order: &Order, k: usize) -> bool {
    let insts = order.insts();
    let before = insts.get(..k).unwrap_or_default();
    let after = insts.get(k.saturating_add(1)..).unwrap_or_default();
    let Some((last, earlier)) = before.split_last() else {
        return true;
    };
    let touched = match after.first() {
        Some(next) => Facts::of(next).touched(),
        None => Resources::touched_at_exit(&order.exit()),
    };
    let facts = Facts::of(last);
    if facts.loads() && facts.writes.meets(touched) {
        return false;
    }
    let moves_earlier = matches!(earlier.last(), Some(inst) if inst.action().is_move());
    !(facts.moves() && is_product(after.get(1))) && !(moves_earlier && is_product(after.first()))
}

/// Returns the order with an instruction in its slot in place of a Nop. It is the last one that nothing after it depends on, and without
/// which in its place no delay rule is broken. The order as it was, where it has no such instruction. An Err means out of memory.
pub fn fill(alloc: Global, block: &Block, order: Order) -> Result<Order, AllocError> {
    let is_free = matches!(order.slot(), Some(inst) if inst.is_nop());
    if !is_free {
        return Ok(order);
    }
    let Some(k) = last_movable(&order) else {
        return Ok(order);
    };
    let exit = order.exit();
    let mut insts = order.into_insts();
    let slot = insts.remove(k);
    match Order::new(insts, exit, Some(slot)) {
        Some(filled) => Ok(filled),
        None => plain(alloc, block),
    }
}

/// Returns the number of the instruction that may stand in the slot.
fn last_movable(order: &Order) -> Option<usize>
    ensures { IfSome result (λ k. k < length order.now.insts) }
{
    let (insts, exit) = (order.insts(), order.exit());
    let mut passed = Passed {
        reads: Resources::read_by_exit(&exit),
        writes: Resources::written_by_exit(&exit),
        insts,
        looked: insts.len(),
        has_fixed_load: false,
    };
    for k in (0..insts.len()).rev() {
        let inst = &insts[k];
        let facts = Facts::of(inst);
        if passed.lets(k, inst, &facts) && may_leave(order, k) {
            return Some(k);
        }
        passed.reads = passed.reads.union(facts.reads);
        passed.writes = passed.writes.union(facts.writes);
    }
    None
}
