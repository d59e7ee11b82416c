//! Which words of memory runs from a start load.

use counterexample::{Registers, Start};
use mblock::{Block, Order};
use mips_isa::{Action, Plain};
use std::alloc::{AllocError, Global};

/// Adds the words that instructions load, up to one that isn't safe.
fn put_loaded(
    words: &mut Vec<u32>,
    registers: &mut Registers,
    insts: &[Plain],
) -> Result<(), AllocError> {
    for inst in insts {
        let action = inst.action();
        if let Action::Loads { base, offset, .. } = action {
            let address = registers.read(base).wrapping_add(offset);
            let word = address - address % 4;
            if !words.contains(&word) {
                words.push(word)?;
            }
        }
        if !registers.act(action)? {
            return Ok(());
        }
    }
    Ok(())
}

/// Returns the addresses of the words of memory that instructions of block and order load from a start, wholly or a byte of them. What is
/// stored, and the slot, which loads nothing in a clean order, add none.
pub fn loaded_words(
    alloc: Global,
    block: &Block,
    order: &Order,
    start: &Start,
) -> Result<Vec<u32>, AllocError> {
    let mut words = Vec::new(alloc);
    put_loaded(&mut words, &mut Registers::of(alloc, start), block.insts())?;
    put_loaded(&mut words, &mut Registers::of(alloc, start), order.insts())?;
    Ok(words)
}
