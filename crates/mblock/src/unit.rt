//! Units: the blocks of a whole program with their owners and data.
ghost use Rattle.std.specs.Prelude.{◌≡◌, ◌<◌, ◌↔◌, IsTrue, Option, Some, length, slice_get, slice_index};
ghost use Rattle.std.specs.Option.{SomeIff};
ghost use Rattle.mblock.specs.Units.{GoesBelow, BranchesWithin, Continues, AreLinked, AreOwners, IsUnit, unit_parts};

use crate::block::Block;
use crate::exit::Exit;
use crate::limits::{UNIT_BLOCKS, UNIT_BYTES};
use crate::number::BlockNumber;
use std::marker::Model;

/// Blocks, the first block of each block's function, and bytes of data. Every block that an exit names
/// exists, functions are contiguous, and branches stay inside them. Block 0 is the start.
#[derive(Drop)]
pub struct Unit {
    blocks: Vec<Block>,
    owner: Vec<BlockNumber>,
    globals: Vec<u8>,
}

impl Model for Unit {
    ghost use Rattle.mblock.specs.Units.{UnitParts, IsUnit, unit_parts};

    ghost Value = { UnitParts };

    ghost view = { λ u. unit_parts u.blocks.items u.owner.items u.globals.items };

    ghost invariant = { λ u. IsUnit (unit_parts u.blocks.items u.owner.items u.globals.items) };
}

/// Reports whether the block is below n.
fn is_below(t: BlockNumber, n: usize) -> bool
    ensures { IsTrue result ↔ (t < n) }
{
    (t.number() as usize) < n
}

/// Reports whether every block that the exit names is below n.
fn goes_below(n: usize, exit: Exit) -> bool
    ensures { IsTrue result ↔ GoesBelow n exit }
{
    match exit {
        Exit::Goto(t) => is_below(t, n),
        Exit::BranchPair { then, other, .. } | Exit::BranchZero { then, other, .. } => {
            is_below(then, n) && is_below(other, n)
        }
        Exit::Call { function, next } => is_below(function, n) && is_below(next, n),
        Exit::Return => true,
        Exit::Out(next) => is_below(next, n),
        Exit::Halt => true,
    }
}

/// Reports whether a block has this owner.
fn has_owner(owner: &[BlockNumber], t: BlockNumber, o: BlockNumber) -> bool
    ensures { IsTrue result ↔ (slice_get owner.now t ≡ Some o) }
{
    match owner.get(t.number() as usize) {
        Some(p) => p.number() == o.number(),
        None => false,
    }
}

/// Reports whether a branch goes to blocks of this owner.
fn branches_within(owner: &[BlockNumber], o: BlockNumber, exit: Exit) -> bool
    ensures { IsTrue result ↔ BranchesWithin owner.now o exit }
{
    match exit {
        Exit::BranchPair { then, other, .. } | Exit::BranchZero { then, other, .. } => {
            has_owner(owner, then, o) && has_owner(owner, other, o)
        }
        _ => true,
    }
}

/// Reports whether every block that an exit names exists.
fn are_linked(blocks: &[Block]) -> bool
    ensures { IsTrue result ↔ AreLinked blocks.now }
{
    blocks
        .iter()
        .all(|block| goes_below(blocks.len(), block.exit()))
}

/// Reports whether block i is the first of its function, or of the function of the block before it.
fn continues(owner: &[BlockNumber], i: usize) -> bool
    requires { i < length owner.now }
    ensures { IsTrue result ↔ Continues owner.now i (slice_index owner.now i) }
{
    let o = owner[i].number() as usize;
    if o == i {
        true
    } else if i == 0 {
        false
    } else {
        owner[i - 1].number() as usize == o
    }
}

/// Reports whether each block has an owner, functions are contiguous, and branches stay inside them.
fn are_owners(blocks: &[Block], owner: &[BlockNumber]) -> bool
    ensures { IsTrue result ↔ AreOwners blocks.now owner.now }
{
    if owner.len() != blocks.len() {
        return false;
    }
    for i in 0..owner.len() {
        if !continues(owner, i) || !branches_within(owner, owner[i], blocks[i].exit()) {
            return false;
        }
    }
    true
}

impl Unit {
    /// Returns a unit of these parts, if they make one. There are 1 to 1,048,576 blocks. Each has an owner, which is itself or the owner of
    /// the block before it. Each block that an exit names exists, and a branch's are of its own function. There are at most 1,048,576 bytes
    /// of data.
    pub fn new(blocks: Vec<Block>, owner: Vec<BlockNumber>, globals: Vec<u8>) -> Option<Unit>
        ensures { SomeIff result (IsUnit (unit_parts blocks.items owner.items globals.items))
            (unit_parts blocks.items owner.items globals.items) }
    {
        let some = !blocks.is_empty();
        let few = blocks.len() <= UNIT_BLOCKS && globals.len() <= UNIT_BYTES;
        if some
            && few
            && are_linked(blocks.as_slice())
            && are_owners(blocks.as_slice(), owner.as_slice())
        {
            Some(Unit {
                blocks,
                owner,
                globals,
            })
        } else {
            None
        }
    }

    /// Returns the unit of these parts.
    pub fn of(blocks: Vec<Block>, owner: Vec<BlockNumber>, globals: Vec<u8>) -> Unit
        requires { IsUnit (unit_parts blocks.items owner.items globals.items) }
        ensures { result ≡ unit_parts blocks.items owner.items globals.items }
    {
        Unit {
            blocks,
            owner,
            globals,
        }
    }

    /// Returns the blocks.
    pub fn blocks(&self) -> &[Block]
        ensures value { result.now ≡ self.now.blocks }
        ensures sound { IsUnit self.now }
    {
        self.blocks.as_slice()
    }

    /// Returns the first block of each block's function.
    pub fn owner(&self) -> &[BlockNumber]
        ensures value { result.now ≡ self.now.owner }
        ensures sound { IsUnit self.now }
    {
        self.owner.as_slice()
    }

    /// Returns the bytes of data.
    pub fn globals(&self) -> &[u8]
        ensures value { result.now ≡ self.now.globals }
        ensures sound { IsUnit self.now }
    {
        self.globals.as_slice()
    }
}
