//! The limits of programs, which each `Rtl` keeps.

/// The most parameters that a function may have.
pub const MAX_PARAMETERS: u32 = 4;

/// How many pseudo-registers a function may name, from 0 on.
pub const MAX_REGISTERS: u32 = 8_000;

/// The most blocks that the functions of a program may have together.
pub const MAX_BLOCKS: usize = 1_048_575;

/// The most words that the globals of a program may have together.
pub const MAX_GLOBAL_WORDS: usize = 262_144;
