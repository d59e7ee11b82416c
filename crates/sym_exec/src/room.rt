//! Memory for a symbolic run, taken before it.

ghost use Rattle.std.specs.Prelude.{◌≡◌, ◌+◌, ◌≤◌, ◌++◌, length, vec_len, vec_capacity};

use crate::state::Guard;
use crate::stores::{StoreChain, Stored};
use mblock::ORDER_INSTS;
use mips_isa::Plain;
use std::alloc::{AllocError, Global};

/// What a run gathers: its guards, and the stores that its memory is made of.
#[derive(Drop)]
pub(crate) struct RunLists {
    pub(crate) guards: Vec<Guard>,
    pub(crate) chain: StoreChain,
}

/// Appends copies to a list, which has room for them.
fn append_copies<T: Copy>(list: &mut Vec<T>, copied: &[T])
    requires { vec_len list.old + length copied.now ≤ vec_capacity list.old }
    ensures items { list.new.items ≡ list.old.items ++ copied.now }
    ensures count { vec_len list.new ≡ vec_len list.old + length copied.now }
    ensures capacity { vec_capacity list.new ≡ vec_capacity list.old }
{
    for item in copied {
        list.push_reserved(*item);
    }
}

impl RunLists {
    ghost use Rattle.std.specs.Prelude.{◌≡◌, ◌+◌, ◌≤◌, IfOk, length, vec_len, vec_capacity};
    ghost use Rattle.mblock.specs.declared.limits.TheConstants.{ORDER_INSTS};
    ghost use Rattle.sym_exec.specs.Stores.{HasRoom, IsEmpty, IsRoomFor};

    /// Returns empty lists with memory for a guard and a store of each instruction and of a slot. There is also memory for the terms of the
    /// memories before, between and after these stores.
    pub(crate) fn new(alloc: Global, insts: &[Plain]) -> Result<RunLists, AllocError>
        requires { length insts.now ≤ ORDER_INSTS }
        ensures { IfOk result (IsRoomFor (length insts.now)) }
    {
        let most = insts.len() + 1;
        let guards = Vec::with_capacity(alloc, most)?;
        let stores: Vec<Stored> = Vec::with_capacity(alloc, most)?;
        let memories = Vec::with_capacity(alloc, most + 1)?;
        Ok(RunLists {
            guards,
            chain: StoreChain { stores, memories },
        })
    }

    /// Copies another run's lists into these, which are empty.
    pub(crate) fn copy_from(&mut self, other: &RunLists)
        requires empty { IsEmpty self.old }
        requires room { HasRoom self.old }
        requires guards { vec_len other.now.guards ≤ vec_capacity self.old.guards }
        requires stores { vec_len other.now.chain.stores ≤ vec_len other.now.guards }
        requires memories { vec_len other.now.chain.memories ≤ vec_len other.now.chain.stores + 1 }
        ensures guards { self.new.guards.items ≡ other.now.guards.items }
        ensures stores { self.new.chain.stores.items ≡ other.now.chain.stores.items }
        ensures memories { self.new.chain.memories.items ≡ other.now.chain.memories.items }
        ensures room { HasRoom self.new }
        ensures count { vec_len self.new.guards ≡ vec_len other.now.guards }
        ensures stores_count { vec_len self.new.chain.stores ≡ vec_len other.now.chain.stores }
        ensures capacity { vec_capacity self.new.guards ≡ vec_capacity self.old.guards }
    {
        append_copies(&mut self.guards, other.guards.as_slice());
        append_copies(&mut self.chain.stores, other.chain.stores.as_slice());
        append_copies(&mut self.chain.memories, other.chain.memories.as_slice());
    }
}
