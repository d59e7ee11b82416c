//! The labels of terms of MIPS, with a word of 64 bits for each, and the trees that carry them.
//!
//! Definitions: `specs/Trees.antt`, `specs/Values.antt`, `specs/NormalForms.antt`, `specs/Laws.antt`.
//! Contract: `Label`, `trees_keep_values`
//! - Label and word are inverse.
//! - Terms in normal form (N1 to N4) have the values that the machine computes.
#![tactic(auto)]

mod label;
mod laws;

pub use label::{Label, Origin, label_of, word_of};
pub use laws::trees_keep_values;
