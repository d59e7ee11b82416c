//! Validates whether a proposed order means its block (Tristan and Leroy, POPL 2008; Six, Boulmé and Monniaux, OOPSLA 2020).
//!
//! Definitions: `specs/Same.antt`, `specs/Verdicts.antt`.
//! Contract: `validate`, `validate_from`, `Checked::order`, `one_verdict`, `checked_orders_mean_their_blocks`
//! - `validate` and `validate_from` give exactly the verdict: the least broken rule, else the first place that differs, else `same`.
//! - A `Checked` order means its block from every start state. It isn't stuck where the block isn't, and leaves the same registers, HI, LO,
//!   memory and exit.
//! - `Full` comes only if one of the terms that block and order ask for isn't in the table. The call links no more terms than they may.
#![tactic(auto)]

mod compare;
mod place;
mod verdict;

pub use place::Place;
pub use verdict::{
    Checked, Verdict, checked_orders_mean_their_blocks, one_verdict, validate, validate_from,
};
