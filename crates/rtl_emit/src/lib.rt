//! Code of RTL for the expressions and conditions of typed C programs. It is made backwards, so each target exists already.
//!
//! Definitions: `specs/Expressions.antt`, `specs/Runs.antt`, `specs/Blocks.antt`.
//! Contract: `value_into`, `operand_into`, `condition`
//! - The code of an expression leaves its value in the requested register.
//! - The code of a condition leads to one of two blocks.
//! - Both hold whatever other blocks exist, and take no more registers and instructions than are counted.
#![tactic(auto)]

mod block;
mod expression;
mod fault;
mod operation;
mod place;
mod simple;
mod targets;
mod waiting;

pub use block::{
    Continuation, OpenBlock, block_of, exit_block, fill, open_block, put_before, put_first, reserve,
};
pub use expression::{condition, operand_into, operands_into, value_into};
pub use fault::LowerFault;
pub use place::{Place, place_of, places_of, register_of, registers_of, spare_register};
pub use simple::number_of;
pub use targets::Targets;
