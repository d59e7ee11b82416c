//! Words of 32 bits: their signed reading, and each operator that the machine, the terms and C use.
//!
//! Definitions: `specs/Operators.antt`, `specs/C.antt`, `specs/Laws.antt`.
//! Contract: `Operator::value`, `Sign::sum`, `Width::kept`, `operators_give_words`, `c_computes_as_the_machine`
//! - `Operator::value` is exactly `value_of` for 19 operators, and None exactly for a division without a value.
//! - `Sign`'s methods are C's operators by the sign of their type, None where C leaves the result undefined.
//! - Where C gives two words a value, the machine's operator gives the same.
#![tactic(auto)]

mod c;
mod laws;
mod operator;
mod sign;
mod width;

pub use laws::{c_computes_as_the_machine, operators_give_words};
pub use operator::Operator;
pub use sign::Sign;
pub use width::Width;
