//! The limits of programs, which each typed program keeps.

/// The most parameters that a function may have.
pub const MAX_PARAMETERS: usize = 4;

/// The most locals that a function may have, its parameters counted.
pub const MAX_LOCALS: usize = 128;

/// The most functions that a program may have.
pub const MAX_FUNCTIONS: usize = 256;

/// The most words that the globals of a program may have together.
pub const MAX_GLOBAL_WORDS: u64 = 262_144;
