//! The commands of mcc for a host without files and threads, as a page in a browser. Each export takes bytes and gives bytes.
//!
//! Definitions: `specs/Answers.antt`, `specs/Orders.antt`, `specs/Machines.antt`.
//! Contract: `mcc_web_check`, `mcc_web_interp`, `mcc_web_wrong`, `mcc_web_build`, `mcc_web_run`, `mcc_web_list`, `mcc_web_explain`,
//! `mcc_web_show`, `mcc_web_orders`, `mcc_web_machine`
//! - Each export gives the text of an answer that driver's call may give, or the line of an error that it may report.
//! - `mcc_web_machine` shows what the machine holds after n words, and no word before the last was at its stop.
//! - A text that doesn't fit leaves `out` as it was.
//!
//! | Tested | In |
//! |---|---|
//! | the WebAssembly module answers as the program does | `web/test` |
#![tactic(auto)]

mod answers;
mod builds;
mod machines;
mod orders;
mod told;

pub use answers::{
    REFUSED, mcc_web_check, mcc_web_explain, mcc_web_interp, mcc_web_list, mcc_web_run,
    mcc_web_show, mcc_web_wrong,
};
pub use builds::mcc_web_build;
pub use machines::{View, mcc_web_machine};
pub use orders::mcc_web_orders;
