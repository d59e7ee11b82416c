//! Images of scheduled units: the words of the orders, exactly as their layout has them, each field in its range.
//!
//! Definitions: `specs/Layout.antt`, `specs/LayoutRuns.antt`, `specs/Assembled.antt`, `specs/Limits.antt`, `specs/Listing.antt`.
//! Contract: `assemble`, `image_of`, `code_of`, `list`, `each_layout_runs`, `each_plain_layout_runs`
//! - `assemble` gives the image of a scheduled unit, which runs as the unit. `list` gives exactly the listing.
//! - Limit comes exactly beyond 32,000 words of a function or 1,048,576 in all.
//! - If a unit isn't stuck, the laid-out words of orders that mean its blocks end and print alike. A word counts for at most 513 steps of
//!   the unit, in plain orders for one.
//!
//! | Tested | In |
//! |---|---|
//! | worked words, those that GNU as gives, refused memory | tests/images, test_calls, `.ci/refuse` |
#![tactic(auto)]

mod assembly;
mod emit;
mod fault;
mod laws;
mod limits;
mod listing;
mod places;

pub use assembly::{assemble, each_assembled_image_runs, image_of};
pub use emit::code_of;
pub use fault::AsmFault;
pub use laws::{
    each_layout_fits, each_layout_runs, each_layout_tells_calls_apart, each_plain_layout_runs,
    limits_are_these_numbers, words_run_as_instructions,
};
pub use limits::{CODE_WORDS, FUNCTION_WORDS, functions_fit};
pub use listing::list;
