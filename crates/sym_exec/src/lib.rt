//! Symbolic execution of blocks and orders, to tickets of a shared table of terms.
//!
//! Definitions: `specs/Symbolic.antt`, `specs/Asked.antt`, `specs/Growth.antt`, `specs/Runs.antt`.
//! Contract: `run_block`, `run_order`, `run_both`, `run_both_from`, `start_places`, `growth_has_bound`
//! - `run_block`, `run_order` and `run_both` give the tickets of the trees of a block, of an order and of both.
//! - `run_both_from` does so from the terms of the start, which `start_places` makes once for many blocks.
//! - Memory is taken before any term is linked. Where it is refused, the pass is as it was.
//! - Else their only error is `TableFull`. Then the pass has linked all it may, and one of the trees that the code asks for isn't in the
//!   table.
//! - They link no more terms than the actions may, which is at most quadratic in their number.
#![tactic(auto)]

mod address;
mod interner;
mod registers;
mod room;
mod run;
mod state;
mod stores;
mod terms;

pub use run::{growth_has_bound, run_block, run_both, run_both_from, run_order, start_places};
pub use state::{Guard, SymState, TermExit, TermPlaces};
