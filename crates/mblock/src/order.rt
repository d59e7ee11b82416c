//! Orders: the words that may stand for a block.
ghost use Rattle.std.specs.Prelude.{◌≡◌, ◌≤◌, length, is_some};
ghost use Rattle.std.specs.Option.{SomeIff};
ghost use Rattle.mblock.specs.Slots.{is_slotted};

use crate::exit::Exit;
use crate::limits::ORDER_INSTS;
use mips_isa::Plain;
use std::marker::Model;

/// A proposed order of a block: at most 2,048 instructions, an exit, and what runs in its slot.
#[derive(Drop)]
pub struct Order {
    insts: Vec<Plain>,
    exit: Exit,
    slot: Option<Plain>,
}

impl Model for Order {
    ghost use Rattle.std.specs.Prelude.{◌≤◌, ◌≡◌, length, is_some};
    ghost use Rattle.mblock.specs.Parts.{OrderParts};
    ghost use Rattle.mblock.specs.Slots.{is_slotted};
    ghost use Rattle.mblock.specs.declared.limits.TheConstants.{ORDER_INSTS};

    ghost Value = { OrderParts };

    ghost view = { λ o. record { insts = o.insts.items; exit = o.exit; slot = o.slot } };

    ghost invariant = { λ o. (length o.insts.items ≤ ORDER_INSTS) × (is_some o.slot ≡ is_slotted o.exit) };
}

impl Order {
    /// Returns an order of these parts, if there are at most 2,048 instructions, and a slot where the exit has one.
    pub fn new(insts: Vec<Plain>, exit: Exit, slot: Option<Plain>) -> Option<Order>
        ensures { SomeIff result ((length insts.items ≤ ORDER_INSTS) × (is_some slot ≡ is_slotted exit))
            (record { insts = insts.items; exit = exit; slot = slot }) }
    {
        if insts.len() <= ORDER_INSTS && slot.is_some() == exit.has_slot() {
            Some(Order { insts, exit, slot })
        } else {
            None
        }
    }

    /// Returns the order of these parts.
    pub(crate) fn of(insts: Vec<Plain>, exit: Exit, slot: Option<Plain>) -> Order
        requires few { length insts.items ≤ ORDER_INSTS }
        requires fits { is_some slot ≡ is_slotted exit }
        ensures { result ≡ record { insts = insts.items; exit = exit; slot = slot } }
    {
        Order { insts, exit, slot }
    }

    /// Returns the instructions, in the order of their words.
    pub fn insts(&self) -> &[Plain]
        ensures value { result.now ≡ self.now.insts }
        ensures limit { length self.now.insts ≤ ORDER_INSTS }
    {
        self.insts.as_slice()
    }

    /// Returns the instructions alone.
    pub fn into_insts(self) -> Vec<Plain>
        ensures { result.items ≡ self.insts }
    {
        let Order { insts, .. } = self;
        insts
    }

    /// Returns how it is left.
    pub fn exit(&self) -> Exit
        ensures { result ≡ self.now.exit }
    {
        self.exit
    }

    /// Returns what runs after the exit word: Some exactly if the exit has a slot.
    pub fn slot(&self) -> Option<Plain>
        ensures value { result ≡ self.now.slot }
        ensures fits { is_some self.now.slot ≡ is_slotted self.now.exit }
    {
        self.slot
    }
}
