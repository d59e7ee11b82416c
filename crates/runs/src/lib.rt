//! The outcome of a program's run at any level: of C, of RTL, of blocks. An interpreter of any level keeps its words here.
//!
//! Definitions: `specs/Runs.antt`, `specs/Stores.antt`, `specs/Steps.antt`, `specs/Calls.antt`, `specs/Results.antt`, `specs/Refines.antt`,
//! `specs/Portions.antt`.
//! Contract: `word_at`, `set_word`, `element`, `store`, `Interpreter::enter`, `Interpreter::leave`, `run_steps`
//! - Reads and writes of what an interpreter keeps are exact, and `run_steps` is exactly what n steps lead to.
//! - Refinement, `Refines`, and a run in portions, `WentOn`, are defined here.
#![tactic(auto)]

mod interpreter;
mod ran;
mod reached;
mod run;
mod stores;

pub use interpreter::Interpreter;
pub use ran::{Advance, End, Ran};
pub use reached::Reached;
pub use run::run_steps;
pub use stores::{element, set_word, store, word_at};
