//! Start states.
ghost use Rattle.std.specs.Prelude.{◌≡◌, ℕ, ◌<◌, ◌^◌, slice_index};
ghost use Rattle.mips_isa.specs.States.{IsWords};
ghost use Rattle.counterexample.specs.Views.{start_of, state_of};

use crate::filling::Filling;
use crate::memory::Memory;
use crate::registers::Registers;
use std::alloc::Global;

/// A state to start from: registers, HI and LO, and what fills memory. Every address is mapped.
#[derive(Clone, Copy)]
pub struct Start {
    pub regs: [u32; 32],
    pub hi: u32,
    pub lo: u32,
    pub filling: Filling,
}

/// States that each element is a word. A law: it computes nothing.
fn are_words(words: &[u32])
    ensures { (r : ℕ) → slice_index words.now r < 2 ^ 32 }
{
    let _count = words.len();
}

/// States a law.
fn is_word(word: u32)
    ensures { word < 2 ^ 32 }
{}

/// States that a start state's registers, HI and LO are words, and its memory is bytes. A law: it computes nothing.
pub(crate) fn has_words(start: &Start)
    ensures { IsWords (start_of start.now) }
{
    are_words(&start.regs);
    is_word(start.hi);
    is_word(start.lo);
}

impl Registers {
    /// Returns the registers and memory of a start.
    pub fn of(alloc: Global, start: &Start) -> Registers
        ensures state { state_of result ≡ start_of start.now }
        ensures filling { result.memory.filling ≡ start.now.filling }
    {
        Registers {
            regs: start.regs,
            hi: start.hi,
            lo: start.lo,
            memory: Memory {
                filling: start.filling,
                stores: Vec::new(alloc),
            },
        }
    }
}
