//! Basic blocks, the orders that a scheduler proposes for them, and when an order breaks no delay rule.
//!
//! Definitions: `specs/Clean.antt`, `specs/OrderMeaning.antt`, `specs/PlainOrders.antt`, `specs/UnitRuns.antt`.
//! Contract: `clean`, `plain`, `plain_orders`, `each_plain_order_is_clean`, `each_plain_order_means_its_block`, `Unit::new`
//! - `clean` is Ok exactly if an order breaks none of U1 to U4, and else reports the least.
//! - `plain` gives an order that is clean and means its block.
//! - `Unit::new` is Some exactly on units.
#![tactic(auto)]

mod block;
mod delays;
mod exit;
mod laws;
mod limits;
mod number;
mod order;
mod padding;
mod unclean;
mod unit;

pub use block::Block;
pub use delays::clean;
pub use exit::Exit;
pub use laws::{
    each_block_keeps_words, each_plain_order_is_clean, each_plain_order_means_its_block,
    each_plain_unit_has_its_orders, limits_are_these_numbers,
};
pub use limits::{BLOCK_INSTS, ORDER_INSTS, UNIT_BLOCKS, UNIT_BYTES};
pub use number::BlockNumber;
pub use order::Order;
pub use padding::{plain, plain_orders};
pub use unclean::Unclean;
pub use unit::Unit;
