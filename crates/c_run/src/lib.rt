//! Runs a typed program: an interpreter that is exactly the meaning of C at each bound (C99 5.1.2.3, 6.5, 6.8).
//!
//! Definitions: `specs/Sizes.antt`, `specs/Turns.antt`, `specs/Portions.antt`.
//! Contract: `run`, `UnderWay::go_on`, `reason_of`
//! - `run` and `UnderWay::go_on` are exactly what n steps of the program lead to at a depth.
//! - `reason_of` gives a reason exactly if the run ends wrong, and what it says of values is so.
//!
//! | Tested | In |
//! |---|---|
//! | that the definitions are C's: operators at their edges, counted steps | tests/c |
//! | that the reason is the one the run ended by | tests/c/reasons.case |
#![tactic(auto)]

mod interpreter;
mod pending;
mod places;
mod portions;
mod reasons;
mod steps;

pub use places::{WrongPlace, statements_in, wrong_place_of};
pub use portions::{UnderWay, begin, output_goes_before};
pub use reasons::{Reason, reason_of};
pub use steps::run;
