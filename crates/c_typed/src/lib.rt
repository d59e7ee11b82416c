//! The language of typed C programs: trees whose names are numbers, what they mean, the values of expressions, and the laws of runs.
//!
//! Definitions: `specs/Trees.antt`, `specs/Values.antt`, `specs/Meaning.antt`.
//! Contract: `value`, `values_are_words`, `elements_fit_their_widths`, `runs_go_on_from_where_they_are`
//! - `value` gives exactly the value of an expression at locals and globals, or none where C leaves it undefined.
//! - Laws of the meaning of typed programs. Each value is a word, an element fits its global, and runs go on from where they are.
#![tactic(auto)]

mod evaluation;
mod laws;
mod limits;
mod tree;

pub use evaluation::{binary_value, unary_value, value};
pub use laws::{
    elements_fit_their_widths, limits_are_these_numbers, runs_go_on_from_where_they_are,
    values_are_words,
};
pub use limits::{MAX_FUNCTIONS, MAX_GLOBAL_WORDS, MAX_LOCALS, MAX_PARAMETERS};
pub use tree::{Destination, Function, Global, TypedExpression, TypedStatement};
