//! Machine code of RTL instructions whose pseudo-registers live in homes: what happens inside a block.
//!
//! Definitions: `specs/Code.antt`, `specs/Locations.antt`, `specs/Offsets.antt`, `specs/Elements.antt`, `specs/Comparisons.antt`, `specs/Prefixes.antt`.
//! Contract: `emit_insts`, `emit_arguments`, `emit_arrival`, `emit_departure`
//! - The code of an instruction is exactly `inst_code`, and by the lemmas `performs` and `compares` it does what the instruction does over
//!   homes.
//! - Refused memory leaves a beginning of that code.
#![tactic(auto)]

mod comparison;
mod constant;
mod element;
mod exit;
mod facts;
mod inst;
mod limits;
mod location;
mod offset;
mod operation;
mod plain;
mod product;
mod setting;
mod transfer;

pub use comparison::{Asked, Comparison, Form, comparison_exit, returned, tested};
pub use constant::{emit_constant, emit_load_word, emit_move, emit_store_word};
pub use element::Reach;
pub use exit::{emit_arguments, emit_arrival, emit_departure};
pub use facts::{Fact, Kept, Knowledge, Last, known_word, last_operand};
pub use inst::emit_insts;
pub use limits::{FRAME_BYTES, limits_are_these_numbers};
pub use location::Source;
pub use offset::Offset;
pub use operation::Operand;
pub use setting::Setting;
pub use transfer::{emit_fetch, operand_register};
