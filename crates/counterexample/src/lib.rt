//! Start states that refute orders, found among a fixed list of states.
//!
//! Definitions: `specs/Refuting.antt`, `specs/Views.antt`, `specs/Memories.antt`.
//! Contract: `refute`, `find_start`, `run_block`, `run_order`, `refuted_orders_do_not_mean_their_blocks`
//! - `refute` and `find_start` are Some only if the start state refutes the order, so the order doesn't mean its block.
#![tactic(auto)]

mod block;
mod crossings;
mod difference;
mod filling;
mod flow;
mod left;
mod memory;
mod origins;
mod registers;
mod search;
mod start;
mod verdict;

pub use block::run_block;
pub use difference::Difference;
pub use filling::Filling;
pub use flow::run_order;
pub use left::{Departs, Left};
pub use memory::{Memory, Stored};
pub use registers::{Load, Registers};
pub use search::{STARTS, Witness, find_start};
pub use start::Start;
pub use verdict::{no_refuting_state_agrees, refute, refuted_orders_do_not_mean_their_blocks};
