//! Typed C programs as programs of RTL: `lower` is the pass.
//!
//! Definitions: `specs/Laws.antt`, `specs/Sizes.antt`, `specs/Coded.antt`, `specs/Emits.antt`.
//! Contract: `lower`
//! - If the source isn't wrong after n steps, its RTL has the same end and output after no fewer.
//! - Ok comes only within 8,000 pseudo-registers and 1,048,575 blocks, counted on the typed program, and Limit only beyond.
//! - Each function has as many blocks as are counted, and no more registers and instructions.
//!
//! | Tested | In |
//! |---|---|
//! | at most sixteen steps for each step of the source; the deepest sources | tests/c |
#![tactic(auto)]

mod context;
mod function;
mod program;
mod shape;
mod simple;
mod statement;

pub use program::lower;
pub use rtl_emit::LowerFault;
