//! The tokens of a C text, by longest match (C99 6.4), where they are, and the sizes that they keep within.
//!
//! Definitions: `specs/Pieces.antt`, `specs/Texts.antt`.
//! Contract: `lex`, `tokens`, `places`, `one_lexing`
//! - `lex` gives the tokens of the longest pieces with their offsets, or the first rejection. `tokens` and `places` give either list alone.
//! - A source has one list of tokens at most.
#![tactic(auto)]

mod constants;
mod fault;
mod keywords;
mod lexer;
mod scan;
mod sign;
mod sizes;
mod token;

pub use fault::{LexFault, Refusal};
pub use lexer::{lex, one_lexing, places, tokens};
pub use sizes::{MAX_TEXT, limits_are_these_numbers};
pub use token::{Identifier, IntegerType, JumpWord, Literal, Mark, Token};
