//! A validator of one's own over the table of terms.
//!
//! Two threads run a block and its optimised form on terms. If the tickets of what they leave are equal, the two blocks mean the same.
//!
//! `validate` (`validator.rt`) is the call to read, with `specs/Meaning.antt`: what a block means.
#![tactic(auto)]

mod block;
mod cases;
mod label;
mod symbolic;
mod validator;

use crate::block::Block;
use crate::cases::{CASES, Case};
use crate::validator::validate;
use std::alloc::Global;
use std::io;
use std::thread::Threads;

/// Prints whether what stands in a block's place provably means the block.
fn check(
    rt: &(impl Threads + Print),
    alloc: Global,
    (name, original, optimised): Case,
) -> io::Result<()> {
    let (Ok(original), Ok(optimised)) = (Block::of(alloc, original), Block::of(alloc, optimised))
    else {
        return println!(rt; "memory was refused");
    };
    match validate(rt, alloc, &original, &optimised) {
        Ok(true) => println!(rt; "{name}: the same"),
        Ok(false) => println!(rt; "{name}: not shown to be the same"),
        Err(fault) => println!(rt; "{name}: {fault}"),
    }
}

fn main(rt: HostRuntime) -> io::Result<()> {
    for &case in CASES {
        check(&rt, rt.alloc(), case)?;
    }
    Ok(())
}
