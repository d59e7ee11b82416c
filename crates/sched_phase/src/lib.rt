//! One order for each block of a unit, by workers that share a table for each batch of blocks. The scheduler isn't trusted.
//!
//! Definitions: `specs/Schedules.antt`, `specs/Phases.antt`.
//! Contract: `schedule_all`, `schedule_one`, `schedule_plain`, `one_outcome`
//! - Each block has an order that means it: one that the scheduler may propose, or the plain one.
//! - Each block is counted once, by its verdict.
//! - If the scheduler may propose one order for a block, two phases that decided each block have the same orders and counts.
//!
//! | Tested | In |
//! |---|---|
//! | two workers share one table, what is full | test_calls |
#![tactic(auto)]

mod batch;
mod laws;
mod options;
mod phase;
mod plain;
mod scheduled;
mod settle;
mod terms;
mod work;

pub use image::Counts;
pub use laws::one_outcome;
pub use options::PhaseOpts;
pub use phase::{schedule_all, schedule_one};
pub use plain::schedule_plain;
pub use scheduled::Scheduled;
