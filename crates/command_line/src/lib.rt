//! The command line of `mcc`, as tables of parts.
//!
//! Definitions: `specs/Commands.antt`, `specs/Programs.antt`.
//! Contract: `words`, `some_words_are_taken`, `words_have_their_faults`
//! - If `words` is Ok, files and numbers are the ones that clap matches in the arguments, in their ranges.
//! - An error is of the first kind that clap's grammar has for them.
#![tactic(auto)]

mod command;
mod grammar;
mod laws;
mod pages;
mod parts;
mod values;

pub use command::{AskedBuild, AskedInterp, AskedRun, Choice, Command, Level};
pub use laws::{some_words_are_taken, words_have_their_faults};
pub use values::words;
