//! What the code of blocks is selected by.

ghost use Rattle.std.specs.Prelude.{◌≤◌};
ghost use Rattle.std.proofs.Props.{props};
ghost use Rattle.mblock.specs.declared.limits.TheConstants.{UNIT_BYTES};
ghost use Rattle.mips_emit.specs.Frames.{IsHome-prop, IsReachable};
ghost use Rattle.mips_select.specs.Emittable.{AreInside};

use crate::heads::Naming;
use crate::long::LongBlock;
use mblock::BlockNumber;
use mips_emit::Knowledge;
use mips_homes::Frame;
use rtl::RGlobal;
use std::alloc::Global;

/// Shares the allocator, the globals, where in the data each begins, and at which block each function begins.
#[derive(Clone, Copy)]
pub(crate) struct Linkage<'a> {
    pub(crate) alloc: Global,
    pub(crate) globals: &'a [RGlobal],
    pub(crate) starts: &'a [u32],
    pub(crate) entries: &'a [BlockNumber],
    ghost inside: { AreInside starts.now UNIT_BYTES },
}

/// Has the blocks that are made, and the memory for what is known within the next one.
#[derive(Drop)]
pub(crate) struct Emitter {
    pub(crate) blocks: Vec<LongBlock>,
    pub(crate) facts: Knowledge,
}

/// Says of a function: its frame, whether it makes no call, its parameters, how its blocks are named, and where they are.
#[derive(Clone, Copy)]
pub(crate) struct Plan<'a> {
    pub(crate) frame: &'a Frame,
    pub(crate) leaf: bool,
    pub(crate) parameters: u32,
    pub(crate) table: &'a [Naming],
    pub(crate) places: &'a [BlockNumber],
    ghost reachable: { IsReachable frame.now } by { Prim.hlevel (IsHome-prop, props) },
    ghost few: { parameters ≤ 4 },
}
