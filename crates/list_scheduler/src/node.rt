//! What a scheduler asks of an instruction, looked up once.
use crate::resources::Resources;
use mips_isa::{HiLo, Plain};
use std::alloc::{AllocError, Global};

/// What an instruction does with memory.
#[derive(Clone, Copy, PartialEq, Eq)]
pub enum Memory {
    Apart,
    Loads,
    Stores,
}

/// What an instruction reads and writes, and what it does with memory.
#[derive(Clone, Copy)]
pub struct Facts {
    /// What it reads.
    pub reads: Resources,
    /// What it writes.
    pub writes: Resources,
    /// What it does with memory.
    pub memory: Memory,
}

impl Facts {
    /// Returns the facts of an instruction.
    #[rattlefmt::skip]
    pub fn of(inst: &Plain) -> Facts {
        let (reads, writes, memory) = match *inst {
            Plain::Shift { rd, rt, .. } => (Resources::of(rt), Resources::of(rd), Memory::Apart),
            Plain::ShiftBy { rd, rt, rs, .. } | Plain::Alu { rd, rs, rt, .. } => (Resources::of_both(rs, rt), Resources::of(rd), Memory::Apart),
            Plain::Imm { rt, rs, .. } | Plain::Logic { rt, rs, .. } => (Resources::of(rs), Resources::of(rt), Memory::Apart),
            Plain::LoadUpper { rt, .. } => (Resources::NONE, Resources::of(rt), Memory::Apart),
            Plain::MoveFrom { place: HiLo::Hi, rd } => (Resources::HIGH, Resources::of(rd), Memory::Apart),
            Plain::MoveFrom { place: HiLo::Lo, rd } => (Resources::LOW, Resources::of(rd), Memory::Apart),
            Plain::Multiply { rs, rt, .. } | Plain::Divide { rs, rt, .. } => (Resources::of_both(rs, rt), Resources::PRODUCT, Memory::Apart),
            Plain::Load { rt, base, .. } => (Resources::of(base), Resources::of(rt.reg()), Memory::Loads),
            Plain::Store { rt, base, .. } => (Resources::of_both(rt, base), Resources::NONE, Memory::Stores),
        };
        Facts { reads, writes, memory }
    }

    /// Returns what it reads or writes.
    pub fn touched(&self) -> Resources {
        self.reads.union(self.writes)
    }

    /// Reports whether it loads a register.
    pub fn loads(&self) -> bool {
        self.memory == Memory::Loads
    }

    /// Reports whether it stores.
    pub fn stores(&self) -> bool {
        self.memory == Memory::Stores
    }

    /// Reports whether it moves HI or LO to a register.
    pub fn moves(&self) -> bool {
        self.reads.meets(Resources::PRODUCT)
    }

    /// Reports whether the instruction stores, or writes what is read after it before it is overwritten.
    pub fn are_needed(&self, wanted: Resources) -> bool {
        self.stores() || self.writes.meets(wanted)
    }

    /// Returns what is read, before it is overwritten, from an instruction on that is needed.
    pub fn wanted_before(&self, wanted: Resources) -> Resources {
        wanted.difference(self.writes).union(self.reads)
    }

    /// Returns what the instruction may not touch just after a load, or soon after a move of HI or LO. It is what it reads or writes, or
    /// makes a product of.
    pub fn delayed(&self) -> Resources {
        self.reads.difference(Resources::PRODUCT).union(self.writes)
    }

    /// Returns the words from it to the end of the block, where none stands after it. A load whose register the exit's first word touches
    /// is two words before it.
    pub fn words_to_exit(&self, touched: Resources) -> u32 {
        if self.loads() && self.writes.meets(touched) {
            AFTER_LOAD + NEXT
        } else {
            NEXT
        }
    }
}

/// The least words from an instruction to the next, from a load to a use, and from `mfhi` or `mflo` to a product.
pub const NEXT: u32 = 1;

pub const AFTER_LOAD: u32 = 2;

pub const PRODUCT_AFTER_MOVE: u32 = 3;

/// An instruction of a block, and how it is tied to the others.
#[derive(Clone, Copy)]
pub struct Node {
    /// The instruction.
    pub inst: Plain,
    /// What it reads, writes and does with memory.
    pub facts: Facts,
    /// Whether it loads what an earlier store of the block, over the same base, stores in part. Its value is a load from all
    /// that was stored before, so it keeps its place among the stores.
    pub is_fixed: bool,
    /// How many that are not in their places yet have to stand before it; one may count twice.
    pub waits_for: u32,
    /// The words from it to the end of the block, at least.
    pub height: u32,
    /// Where those that wait for it begin and end, in the list of them all.
    pub waiting: (u32, u32),
    /// The next reader of each of the registers that it reads.
    pub readers: [Option<u32>; 2],
    /// The next access of its kind in its bucket.
    pub bucket: Option<u32>,
}

impl Node {
    /// Returns an instruction that waits for no other.
    pub fn new(inst: Plain, facts: Facts) -> Node {
        Node {
            inst,
            facts,
            is_fixed: false,
            waits_for: 0,
            height: NEXT,
            waiting: (0, 0),
            readers: [None; 2],
            bucket: None,
        }
    }
}

/// Returns the instructions of a block, the last one first, without those whose results it overwrites before they are read.
pub fn keep_needed(alloc: Global, insts: &[Plain]) -> Result<Vec<Node>, AllocError> {
    let mut nodes = Vec::with_capacity(alloc, insts.len())?;
    let mut wanted = Resources::ALL;
    for inst in insts.iter().rev() {
        let facts = Facts::of(inst);
        if facts.are_needed(wanted) {
            wanted = facts.wanted_before(wanted);
            nodes.push(Node::new(*inst, facts))?;
        }
    }
    Ok(nodes)
}
