//! Selection of machine code: an RTL program becomes a unit of blocks.
//!
//! Definitions: `specs/Laws.antt`, `specs/Limits.antt`, `specs/Whole.antt`, `specs/Split.antt`, `specs/SplitLaws.antt`.
//! Contract: `select`, `select_numbered`, `each_unit_keeps_runs`, `each_unit_is_counted`, `each_split_unit_comes_to`
//! - If the program isn't wrong after n steps, its unit has the same end and output after no fewer, whatever the links of calls.
//! - The data are the globals' bytes. Ok comes only if frames and stack fit. Limit: they don't, or there would be too many blocks.
//! - A unit has no more blocks than the counts of functions, blocks and instructions allow. Blocks are cut at 512 instructions exactly as
//!   defined, and the unit does what the long blocks do.
//!
//! | Tested | In |
//! |---|---|
//! | images compared with RTL's runs: each operator on known and loaded words, long blocks, 128 locals, bytes | tests/builds, tests/c |
#![tactic(auto)]

mod code;
mod exits;
mod fault;
mod functions;
mod globals;
mod heads;
mod laws;
mod limits;
mod long;
mod numbering;
mod numbers;
mod pieces;
mod plan;
mod program;
mod prologue;
mod push;

pub use fault::SelectFault;
pub use laws::{
    each_list_of_functions_is_owned, each_split_unit_comes_to, each_split_unit_is_well,
    each_split_unit_runs, each_unit_is_counted, each_unit_keeps_runs, limits_are_these_numbers,
};
pub use limits::STACK_BYTES;
pub use numbering::{Numbered, select_numbered};
pub use program::select;
