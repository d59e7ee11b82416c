//! RTL, the intermediate language: functions of blocks over pseudo-registers. The idea of three-address code is CompCert's.
//!
//! Definitions: `specs/Programs.antt`, `specs/Meaning.antt`, `specs/Tails.antt`, `specs/Laws.antt`.
//! Contract: `Rtl::new`, `Rtl::if_blocks_fit`, `run`, `Rtl::with_tails`, `values_are_words`, `operators_compute_as_c`
//! - `Rtl::new` and `Rtl::if_blocks_fit` are Some exactly on programs, and `run` is exactly what n steps lead to.
//! - With tails a program has the same outcome after each number of steps.
//! - Where C's operators give a value, RTL's give the same.
#![tactic(auto)]

mod block;
mod instruction;
mod interpreter;
mod laws;
mod limits;
mod operator;
mod program;
mod steps;
mod stores;
mod tails;

pub use block::{RBlock, RFunc, RGlobal};
pub use instruction::{BlockNumber, FunctionNumber, GlobalNumber, RExit, RInst, Register};
pub use laws::{
    limits_are_these_numbers, operators_compute_as_c, runs_go_on_from_where_they_are,
    values_are_words,
};
pub use limits::{MAX_BLOCKS, MAX_GLOBAL_WORDS, MAX_PARAMETERS, MAX_REGISTERS};
pub use operator::Op;
pub use program::Rtl;
pub use steps::run;
pub use tails::{TAIL_INSTS, TAIL_OPERATIONS};
