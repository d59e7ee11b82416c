//! The memory map of a program: where its code, its data and its stack lie.

ghost use Rattle.mips_isa.specs.Laws.{AddressesAreTheMemoryMap};

/// The address of the first word of code, with which a built program begins.
pub const CODE_BASE: u32 = 0x0040_0000;

/// The address of the first byte of data.
pub const DATA_BASE: u32 = 0x1000_0000;

/// The first address of the stack.
pub const STACK_BASE: u32 = 0x6f00_0000;

/// The first address after the stack, which register 29 holds at the start.
pub const STACK_END: u32 = 0x7000_0000;

/// States that each address is the number that specs/MemoryMap.antt tells, so a change of one is a change there. A law: it computes
/// nothing.
pub fn addresses_are_the_memory_map()
    ensures { AddressesAreTheMemoryMap }
{}
