//! Declarations at file scope and whole programs in C (C99 6.2.1, 6.9, 5.1.2.2.1): their errors, and the typed program.
//!
//! Definitions: `specs/Programs.antt`, `specs/Typed.antt`.
//! Contract: `check`, `one_typing_of_programs`, `one_typed_program`, `each_typed_program_is_well_formed`
//! - `check` is Ok exactly if the program has no error, memory aside, and gives its one typed program.
//! - Otherwise it reports the error with the least offset, at one offset the least number.
//! - Every `Typed` is well formed.
//!
//! | Tested | In |
//! |---|---|
//! | worked sources with each error at its place, the limits | tests/c/faults.case |
#![tactic(auto)]

mod declaration;
mod program;
mod typed_program;

pub use c_statements::{TypeFault, TypeFaultKind};
pub use program::{
    check, each_typed_program_is_well_formed, one_typed_program, one_typing_of_programs,
};
pub use typed_program::Typed;
