//! The syntax trees of C texts (C99 6.5 to 6.9): a language, so it has no pass.
//!
//! Definitions: `specs/Tree.antt`, `specs/Shape.antt`, `specs/Texts.antt`.
//! Contract: `Program::spelling`
//! - The trees of C.
//! - A name's spelling is its bytes in the source.
#![tactic(auto)]

mod tree;

pub use tree::{
    BinaryOp, Call, Declaration, Expression, ForParts, FunctionDefinition, Initial, Item,
    Parameter, Program, Simple, Statement, UnaryOp, Value,
};
