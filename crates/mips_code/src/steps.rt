//! What the machine finds at an address, and how its run ended.
use mips_isa::{Inst, Rule};

/// What is fetched at an address.
#[derive(Clone, Copy)]
pub enum Fetched {
    /// No code word is there.
    NoWord,
    /// A word that no instruction has.
    NoInstruction,
    Fetches(Inst),
}

/// How a run ended within its bound.
#[derive(Clone, Copy, Debug, PartialEq, Eq)]
pub enum Ending {
    /// The program ended with this word.
    Halt(u32),
    /// The machine is stuck, by the least rule that is broken.
    Stuck(Rule),
    /// It would go on.
    More,
}
