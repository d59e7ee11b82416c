//! Blocks and orders as text: the check text, as it is read and written.
//!
//! Definitions: `specs/Whole.antt`.
//! Contract: `read`, `put_order`
//! - `read` gives the block and the order exactly if the check text spells them, memory aside. Else it gives the first line that can't be
//!   in its place.
//! - `put_order` writes exactly the lines of an order.
#![tactic(auto)]

mod cuts;
mod fault;
mod line;
mod lines;
mod names;
mod numbers;
mod operands;
mod reader;
mod spelled;
mod stage;

pub use cuts::{Halves, cut, first_line};
pub use fault::PairFault;
pub use line::{exit_of, plain_of};
pub use lines::{ExitLine, put_insts, put_order};
pub use names::{ExitName, exit_named, mnemonic_named};
pub use reader::{Text, read};
