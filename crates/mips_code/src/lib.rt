//! The words of MIPS I instructions (Kane, MIPS RISC Architecture, appendix A), and the machine that fetches them.
//!
//! Definitions: `specs/Words.antt`, `specs/Decoding.antt`, `specs/Machines.antt`, `specs/Agreement.antt`.
//! Contract: `encode`, `encode_plain`, `decode`, `each_rule_is_least`
//! - `encode` and `decode` are inverse on the table of words, and `decode` is None for every other word.
//! - Defines the machine's step and its run over fetched words.
//! - A stuck step reports the least rule that it breaks.
#![tactic(auto)]

mod decoder;
mod encoder;
mod laws;
mod steps;

pub use decoder::{decode, decoding_is_exact};
pub use encoder::{encode, encode_plain};
pub use laws::each_rule_is_least;
pub use steps::{Ending, Fetched};
