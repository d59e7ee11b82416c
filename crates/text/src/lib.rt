//! Text for people that steers no terminal: `?` stands for what isn't printable ASCII.
//!
//! Definitions: `specs/Shown.antt`, `specs/Written.antt`.
//! Contract: `Writer`, `Page`, `Explanation::new`, `Said`, `printable_byte`
//! - A `Writer` writes what it is given, as it is shown, or reports refused memory.
//! - A `Page` is printable ASCII and line feeds. An `Explanation` has the texts that it is made of, in printable ASCII.
#![tactic(auto)]

mod explanation;
mod page;
mod printable;
mod said;
mod writer;

pub use explanation::Explanation;
pub use page::{Page, WIDTH};
pub use printable::printable_byte;
pub use said::{Line, Said};
pub use writer::Writer;
