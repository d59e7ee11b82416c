//! Runs images on the machine: exactly its definition at each bound. `load` decodes each word once, a step takes constant time.
//!
//! Definitions: `specs/ImageRuns.antt`, `specs/Decoding.antt`, `specs/Portions.antt`, `specs/UnitViews.antt`.
//! Contract: `load`, `Machine::step`, `Machine::go_on`, `run`, `Registers::perform`, `run_unit`
//! - `load`, `Machine::step`, `Machine::go_on` and `run` are exactly the machine from the image's start.
//! - What a `Machine` shows is what it holds.
//! - `run_unit` is exactly a unit's run (mblock's `unit_run`), each block in its own order, with block numbers as links.
#![tactic(auto)]

mod code;
mod machine;
mod memory;
mod portions;
mod registers;
mod state;
mod unit_runs;

pub use machine::{Machine, MachineRan, load, run};
pub use portions::output_goes_before;
pub use registers::Registers;
pub use state::Load;
pub use unit_runs::run_unit;
