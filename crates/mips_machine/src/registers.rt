//! Registers, HI, LO and memory.
ghost use Rattle.std.specs.Prelude.{◌≡◌, slice_index};

use crate::memory::Memory;

/// The registers, HI, LO and the memory. What stands at register 0 is 0.
#[derive(Drop)]
pub struct Registers {
    pub regs: [u32; 32],
    pub hi: u32,
    pub lo: u32,
    pub memory: Memory,
    ghost zero: { slice_index regs 0 ≡ 0 },
}
