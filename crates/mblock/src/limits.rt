//! The sizes of blocks, orders and units.

/// How many instructions a block has at most.
pub const BLOCK_INSTS: usize = 512;

/// How many instructions an order has at most.
pub const ORDER_INSTS: usize = 2_048;

/// How many blocks a unit has at most; their numbers are below it.
pub const UNIT_BLOCKS: usize = 1_048_576;

/// How many bytes of data a unit has at most.
pub const UNIT_BYTES: usize = 1_048_576;
