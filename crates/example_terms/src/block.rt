//! Blocks of straight-line code in SSA form: each instruction makes one value, and memory is a value like others.
use crate::label::Op;
use std::alloc::{AllocError, Global};

/// The place of an earlier instruction in its block, from 0, for the value that it made.
pub type Place = u16;

/// An instruction: what makes its value, and the values that this is made of, none to three.
#[derive(Drop)]
pub struct Instruction {
    pub op: Op,
    pub operands: Vec<Place>,
}

/// Instructions, and where the value of the block is made and memory as it leaves it.
#[derive(Drop)]
pub struct Block {
    pub instructions: Vec<Instruction>,
    pub value: Place,
    pub memory: Place,
}

impl Block {
    /// Returns the block of these operators and operands, whose value and memory its last two instructions make.
    pub fn of(alloc: Global, code: &[(Op, &[Place])]) -> Result<Block, AllocError> {
        let mut instructions = Vec::new(alloc);
        for &(op, operands) in code {
            let operands = Vec::from_slice(alloc, operands)?;
            let Ok(()) = instructions.push(Instruction { op, operands }) else {
                return Err(AllocError);
            };
        }
        let count = code.len().min(65_535) as Place;
        Ok(Block {
            instructions,
            value: count.saturating_sub(2),
            memory: count.saturating_sub(1),
        })
    }
}
