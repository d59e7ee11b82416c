//! What becomes of a C text, stage by stage, and of an image as assembler source, as text for people.
//!
//! Contract: `show`, `assembler_source`
//! - What is printed is printable ASCII in lines.
//!
//! | Tested | In |
//! |---|---|
//! | each stage of three programs | tests/show |
//! | the assembler source has the image's words | tests/images/assembler.case, `.ci/machines` |
#![tactic(auto)]

mod asm;
mod assembler;
mod back_edges;
mod dot;
mod homes;
mod listing;
mod names;
mod numbers;
mod orders;
mod program;
mod rtl_text;
mod wanted;

pub use assembler::assembler_source;
pub use listing::order_words;
pub use names::Names;
pub use program::{Shown, show};
pub use wanted::{Asked, ShowFault};
