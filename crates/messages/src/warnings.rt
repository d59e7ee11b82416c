//! Warnings of a program without faults: what has no meaning in C and is plain to see.

use crate::source::Source;
use crate::warning_walk::walked;
use c_tree::Program;
use c_typed::{Function, Global as Variable};
use std::alloc::{AllocError, Global};

/// A warning with its place.
#[derive(Drop)]
pub struct Warning {
    /// In bytes from the text's beginning.
    pub at: usize,
    /// One line.
    pub message: String,
}

/// Returns the warnings of a text that spells this program, in no order. It descends into the program: run it on a thread with a large
/// stack where the text may be hostile.
pub fn warnings_of(
    alloc: Global,
    text: &[u8],
    program: &Program,
    variables: &[Variable],
    functions: &[Function],
) -> Result<Vec<Warning>, AllocError> {
    // only the tokens say where a warning belongs, and most programs have none
    let unread = Source::without_tokens(alloc, text);
    if walked(alloc, &unread, program, variables, functions)?.is_empty() {
        return Ok(Vec::new(alloc));
    }
    let source = Source::read(alloc, text)?;
    walked(alloc, &source, program, variables, functions)
}
