//! What `mcc` says of a check text: which line can't stand in its place, and why an order is rejected. The terms that block and order
//! leave are read out of the validator's own table. For a wrong order there is a start that refutes it.
//!
//! Definitions: `specs/Readers.antt`.
//! Contract: `explain_line`
//! - `explain_line` gives printable ASCII.
//!
//! | Tested | In |
//! |---|---|
//! | what `mcc check --explain` and `mcc show` print | tests/check, tests/show |
#![tactic(auto)]

mod left;
mod line;
mod loaded;
mod operands;
mod term;
mod terms;
mod verdict;
mod witness;

pub use left::{put_left, put_place};
pub use line::explain_line;
pub use terms::{Room, table_of};
pub use verdict::{put_differing, put_unclean};
pub use witness::put_found;
