//! What the commands of the program share: files, errors, and where an error lies. `Disk` has the files of the system.
//!
//! Definitions: `specs/Texts.antt`, `specs/Requests.antt`, `specs/Hosts.antt`, `specs/OneFile.antt`, `specs/Places.antt`.
//! Contract: `answer_file`, `read_file`, `write_file`, `tell`, `tell_file`, `tell_placed`, `print_name`, `spot_of`, `line_offset`
//! - A command over one file asks, prints and ends as its own definition says.
//! - What is printed below an error steers no terminal.
//! - A place in a text has the line and the column that its line feeds give it.
//!
//! | Tested | In |
//! |---|---|
//! | `Disk`, `UntilRefused` | tests/program, `.ci/limits` |
#![tactic(auto)]

mod disk;
mod fault;
mod files;
mod host_faults;
mod numbers;
mod one_file;
mod output;
mod place;
mod wrong_words;

pub use disk::{Disk, LONGEST_TEXT};
pub use fault::{Complaints, HostFault, tell};
pub use files::{FileFault, Files, read_file, write_file};
pub use host_faults::{tell_file, tell_unprinted, tell_unread, tell_unwritten};
pub use numbers::{FormedWord, WordForm};
pub use one_file::{Broken, Ended, FileCommand, Host, ReadFile, answer_file};
pub use output::{Output, UntilRefused, print_name};
pub use place::{Place, Spot, line_offset, spot_of, tell_placed};
pub use wrong_words::tell_words;
