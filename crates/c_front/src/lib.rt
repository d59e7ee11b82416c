//! The C front end: a text to its syntax tree (C99 6.4 to 6.9, the integer subset that `specs/Grammar.antt` lists).
//!
//! Definitions: `specs/Grammar.antt`, `specs/Texts.antt`, `specs/Messages.antt`.
//! Contract: `read`, `one_reading`
//! - `read` is Ok exactly if the source spells a program within the sizes, memory aside, and gives that program.
//! - Otherwise it reports the error that comes first in the order of the tests.
//! - Error 3 is exact: the tokens before it begin a program, and with it they begin none.
//!
//! | Tested | In |
//! |---|---|
//! | each kind of error, sizes at their limits, some 163,000 nested statements on a large stack | tests/c |
#![tactic(auto)]

mod cursor;
mod declaration;
mod expression;
mod fault;
mod part;
mod statement;
mod text;

pub use declaration::one_program;
pub use fault::{FrontFault, FrontFaultKind};
pub use text::{fault_of, one_reading, read};
