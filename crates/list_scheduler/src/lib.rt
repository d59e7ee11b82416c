//! A list scheduler (Gibbons and Muchnick, 1986), and delay slots filled with an instruction of the block (Gross and Hennessy, 1982). Neither
//! is trusted: a caller checks each order against its block. `Hostile` proposes wrong ones.
//!
//! Definitions: `specs/Proposals.antt`.
//! Contract: `Reorder`, `FilledOrder`
//! - A `Reorder` returns, and its answer is one that its `proposes` allows.
//! - `FilledOrder` proposes none that is longer than the plain one, the others any.
//!
//! | Tested | In |
//! |---|---|
//! | the orders of seventeen worked blocks; the eight ways of `Hostile` | test_calls |
#![tactic(auto)]

mod access;
mod filled;
mod free;
mod graph;
mod hostile;
mod list;
mod memory;
mod node;
mod reorder;
mod resources;
mod sets;
mod slot;
mod standing;

pub use access::{Access, access_of};
pub use filled::FilledOrder;
pub use hostile::Hostile;
pub use list::ListOrder;
pub use reorder::Reorder;
pub use resources::Resources;
pub use slot::fill;
