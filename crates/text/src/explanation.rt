//! What is said of a fault below its line: what is wrong, and what to write in its place.

ghost use Rattle.std.specs.Prelude.{◌≡◌, None, All, IfOk, IfSome, option_map};
ghost use Rattle.text.specs.Shown.{IsPrintable, IsPrintableExplanation, shown_name};

use crate::printable::printable_byte;
use std::alloc::{AllocError, Global};

/// What is said of a fault, in printable ASCII alone, so that no text of another steers a terminal.
#[derive(Drop)]
pub struct Explanation {
    /// What is wrong, in one line.
    pub message: Vec<u8>,
    /// What to write in its place, if something helps.
    pub hint: Option<Vec<u8>>,
    /// What else is wrong, in one line.
    pub more: Option<Vec<u8>>,
}

/// Returns the text with `?` for what isn't printable ASCII.
fn printable_bytes(alloc: Global, text: &[u8]) -> Result<Vec<u8>, AllocError>
    ensures exact { IfOk result (λ bytes. bytes.items ≡ shown_name text.now) }
    ensures printable { IfOk result (λ bytes. All IsPrintable bytes.items) }
{
    text.iter().map(|byte| printable_byte(*byte)).collect(alloc)
}

/// Returns the same of a text that may be missing.
fn printable_if_some(alloc: Global, text: Option<&[u8]>) -> Result<Option<Vec<u8>>, AllocError>
    ensures exact { IfOk result (λ o. option_map (λ v. v.items) o ≡ option_map (λ t. shown_name t.now) text.entry) }
    ensures printable { IfOk result (λ o. IfSome o (λ bytes. All IsPrintable bytes.items)) }
{
    match text {
        Some(text) => Ok(Some(printable_bytes(alloc, text)?)),
        None => Ok(None),
    }
}

impl Explanation {
    /// Returns the message and the hint, with `?` for each byte that isn't printable ASCII.
    pub fn new(alloc: Global, message: &str, hint: Option<&str>) -> Result<Explanation, AllocError>
        ensures message { IfOk result (λ e. e.message.items ≡ shown_name message.now) }
        ensures hint { IfOk result (λ e. option_map (λ v. v.items) e.hint ≡ option_map (λ t. shown_name t.now) hint.entry) }
        ensures more { IfOk result (λ e. e.more ≡ None) }
        ensures printable { IfOk result IsPrintableExplanation }
    {
        let hint = match hint {
            Some(hint) => Some(hint.as_bytes()),
            None => None,
        };
        Explanation::with_more(alloc, message.as_bytes(), hint, None)
    }

    /// Returns the same with what else is wrong.
    pub fn with_more(
        alloc: Global,
        message: &[u8],
        hint: Option<&[u8]>,
        more: Option<&[u8]>,
    ) -> Result<Explanation, AllocError>
        ensures message { IfOk result (λ e. e.message.items ≡ shown_name message.now) }
        ensures hint { IfOk result (λ e. option_map (λ v. v.items) e.hint ≡ option_map (λ t. shown_name t.now) hint.entry) }
        ensures more { IfOk result (λ e. option_map (λ v. v.items) e.more ≡ option_map (λ t. shown_name t.now) more.entry) }
        ensures printable { IfOk result IsPrintableExplanation }
    {
        let message = printable_bytes(alloc, message)?;
        let hint = printable_if_some(alloc, hint)?;
        let more = printable_if_some(alloc, more)?;
        Ok(Explanation {
            message,
            hint,
            more,
        })
    }
}
