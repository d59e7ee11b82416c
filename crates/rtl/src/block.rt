//! Blocks, functions and globals of RTL.
use crate::instruction::{RExit, RInst};
use words::Width;

/// A block: what it does, and how it is left.
#[derive(Drop)]
pub struct RBlock {
    pub insts: Vec<RInst>,
    pub exit: RExit,
}

/// A function. Its parameters are its first pseudo-registers, its first block is its entry.
#[derive(Drop)]
pub struct RFunc {
    pub parameters: u32,
    pub blocks: Vec<RBlock>,
}

/// A global array, or a variable as an array of length 1. It has its length in elements and their first values. An array of bytes has the
/// low eight bits of these.
#[derive(Drop)]
pub struct RGlobal {
    pub width: Width,
    pub length: u32,
    pub first: Vec<u32>,
}
