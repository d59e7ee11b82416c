//! The program's commands over bytes, files and writers: `mcc` is the whole program.
//!
//! Definitions: `specs/Follows.antt`, `specs/Builds.antt`, `specs/ImageRuns.antt`, `specs/Interps.antt`, `specs/Program.antt`.
//! Contract: `build`, `build_one`, `build_plain`, `one_build`, `run_image`, `interp`, `list_image`, `mcc`
//! - The headline: if `build` is Ok, the source spells a program and the bytes are an image that follows it (`follows`). Its report is right.
//! - An error is the source's own, or a limit that its counts allow. `mcc build` says that code is too long only where plain orders are.
//! - `run_image` and `interp` give exactly the run, or the error. `interp --at` runs some RTL or unit with the source's runs.
//! - `list_image` gives exactly the listing. With arguments that clap accepts, `mcc` asks, prints and ends as the command's own call may.
//!
//! | Tested | In |
//! |---|---|
//! | what images print; failing files and streams; refused memory | tests/builds, tests/program, test_calls, `.ci/refuse` |
#![tactic(auto)]

mod build_command;
mod builds;
mod check_command;
mod image_faults;
mod interp_command;
mod portions;
mod program;
mod reasons;
mod remarks;
mod run_command;
mod several;
mod show_commands;
mod verdicts;
mod wrong_places;

pub use build_command::{print_built, tell_build};
pub use builds::{
    BuildFault, BuildOpts, Built, Limit, build, build_one, build_plain, one_build, unit_of,
};
pub use check_command::CheckCommand;
pub use command_line::{AskedBuild, AskedInterp, AskedRun, Command, Level, words};
pub use host::{FileFault, Files};
pub use interp_command::{InterpCommand, interp, interp_blocks, interp_rtl};
pub use messages::SourceFault;
pub use program::mcc;
pub use reasons::wrong_page;
pub use run_command::{RunCommand, run_image};
pub use show_commands::{ImageCommand, ShowCommand, StagesFault, list_image, stages};
pub use verdicts::{CheckAnswer, CheckFault, check};
