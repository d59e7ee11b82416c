//! What is said of the errors of a C text, and warnings: what is wrong, in plain words, and what to write instead.
//!
//! Contract: `explain`, `SourceFault`
//! - `explain` gives printable ASCII for each source and each error.
//! - The line of an error, `SourceFault`, is exact.
//!
//! | Tested | In |
//! |---|---|
//! | nearly each message, hint and warning | tests/messages |
#![tactic(auto)]

mod chains;
mod constants;
mod expected;
mod fault;
mod headers;
mod lexical;
mod missing;
mod more_tokens;
mod names;
mod near_names;
mod source;
mod syntax;
mod types;
mod warning_walk;
mod warnings;

ghost use Rattle.std.specs.Prelude.{IfOk};
ghost use Rattle.text.specs.Shown.{IsPrintableExplanation};

use crate::constants::{say_constant, say_size};
use crate::expected::expected_words;
use crate::lexical::{say_byte, say_token};
use crate::more_tokens::say_more;
use crate::source::Source;
use crate::syntax::say_syntax;
use crate::types::say_types;
use c_front::{FrontFault, FrontFaultKind};
pub use fault::SourceFault;
use std::alloc::{AllocError, Global};
use text::{Explanation, Said};
pub use warnings::{Warning, warnings_of};

/// Returns what is wrong with a text that has this fault, and what to write in its place. Like the reading of the text it descends into it:
/// run it on a thread with a large stack where the text may be hostile.
pub fn explain(alloc: Global, text: &[u8], fault: SourceFault) -> Result<Explanation, AllocError>
    ensures { IfOk result IsPrintableExplanation }
{
    let source = Source::read(alloc, text)?;
    let mut said = Said::new(alloc);
    match fault {
        SourceFault::Front(FrontFault { kind, at }) => match kind {
            FrontFaultKind::Byte => say_byte(&mut said, source.text, at),
            FrontFaultKind::Token => {
                say_token(&mut said, &source, at);
                say_more(alloc, &mut said, source.text, at)?;
            }
            FrontFaultKind::Syntax => {
                let k = source.index_of(at);
                let expected = expected_words(alloc, &source, k)?;
                say_syntax(alloc, &mut said, &source, k, expected.as_slice())?;
            }
            FrontFaultKind::Constant => say_constant(&mut said, &source, at),
            FrontFaultKind::Size => say_size(&mut said, &source, at),
            FrontFaultKind::NoMemory => said.say("memory was refused"),
        },
        SourceFault::Types(fault) => say_types(alloc, &mut said, &source, fault)?,
    }
    said.end(alloc)
}
