//! Names and types in the body of a C function (C99 6.2.1, 6.3.1.8, 6.5, 6.7, 6.8). The stack grows with a tree's depth.
//!
//! Definitions: `specs/Types.antt`, `specs/Statements.antt`.
//! Contract: `items`, `one_typing_of_statements`
//! - `items` gives the only typed trees of a body exactly if it has no error, memory aside, and else its first error.
#![tactic(auto)]

mod call;
mod compound;
mod expression;
mod fault;
mod names;
mod operation;
mod simple;
mod statement;
mod symbol_table;

pub use expression::{misuse, one_typing};
pub use fault::{TypeFault, TypeFaultKind, TypeStop, both, either, lasting};
pub use names::Named;
pub use statement::{Context, declarator, items, one_typing_of_statements};
pub use symbol_table::Scopes;
