//! What instructions do with memory.
use mips_isa::{Plain, Reg};
use words::Width;

/// A load or a store: its address is the word that the base holds then, and an offset.
#[derive(Clone, Copy)]
pub struct Access {
    /// The register of the base.
    pub base: Reg,
    /// The offset, modulo 2^32.
    pub offset: u32,
    /// How much is loaded or stored.
    pub width: Width,
    /// Whether it stores.
    pub stores: bool,
}

/// Returns the load or store of an instruction, if it is one. The offset's sign is extended.
#[rattlefmt::skip]
pub fn access_of(inst: &Plain) -> Option<Access> {
    let (width, base, offset, stores) = match *inst {
        Plain::Load { width, base, offset, .. } => (width, base, offset, false),
        Plain::Store { width, base, offset, .. } => (width, base, offset, true),
        _ => return None,
    };
    Some(Access { base, offset: i32::from(offset).cast_unsigned(), width, stores })
}

fn bytes(width: Width) -> u32 {
    match width {
        Width::Word => 4,
        Width::Byte => 1,
    }
}

impl Access {
    /// Reports whether two accesses whose bases hold one word may be exchanged: both load, or their bytes are apart.
    pub fn passes(&self, other: &Access) -> bool {
        if !self.stores && !other.stores {
            return true;
        }
        self.base == other.base && !self.overlaps(other)
    }

    /// Reports whether the bytes of two accesses over one word meet.
    pub fn overlaps(&self, other: &Access) -> bool {
        let up = other.offset.wrapping_sub(self.offset);
        let down = self.offset.wrapping_sub(other.offset);
        up < bytes(self.width) || down < bytes(other.width)
    }

    /// Reports whether all bytes of another access over the same word are among its bytes.
    pub fn covers(&self, other: &Access) -> bool {
        let up = other.offset.wrapping_sub(self.offset);
        up.saturating_add(bytes(other.width)) <= bytes(self.width)
    }

    /// Reports whether it loads or stores a word that isn't at a multiple of four bytes after its base.
    pub fn is_shifted(&self) -> bool {
        bytes(self.width) > 1 && self.offset % 4 != 0
    }

    /// Reports whether a load loads what a store over the same base stores in part.
    pub fn meets(&self, store: &Access) -> bool {
        store.base == self.base && self.overlaps(store)
    }
}
