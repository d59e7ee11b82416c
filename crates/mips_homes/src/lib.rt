//! Homes of pseudo-registers: registers, slots of the frame, or registers of one block.
//!
//! Definitions: `specs/Convention.antt`, `specs/Choice.antt`, `specs/Preferences.antt`, `specs/Copies.antt`, `specs/Places.antt`, `specs/Laws.antt`.
//! Contract: `homes`, `place`, `each_homed_run_is_the_run`, `each_choice_never_forgets`
//! - `homes` puts the eight pseudo-registers with most occurrences into $16 to $23 and each other one into a slot.
//! - `place` moves those local to blocks to temporaries. A leaf's slots have copies there.
//! - Over either the run is the program's at each bound.
#![tactic(auto)]

mod best;
mod convention;
mod copies;
mod counts;
mod frames;
mod homed;
mod laws;
mod locals;
mod places;
mod preferences;

pub use convention::{
    FIRST_ARGUMENT, FIRST_CALLEE_SAVED, FIRST_TEMPORARY, GLOBAL_POINTER, LINK, RESULT, SCRATCH_1,
    SCRATCH_2, SCRATCH_3, STACK_POINTER, is_callee_saved, register,
};
pub use copies::is_leaf;
pub use frames::{frame_of, homes};
pub use homed::{Frame, Home, Homed};
pub use laws::{each_choice_never_forgets, each_homed_run_is_the_run};
pub use places::place;
