//! An explanation, as it is written.

ghost use Rattle.std.specs.Prelude.{IfOk};
ghost use Rattle.text.specs.Shown.{IsPrintableExplanation};

use crate::explanation::Explanation;
use crate::page::Page;
use crate::writer::Writer;
use std::alloc::{AllocError, Global};
use std::fmt::Display;

/// A line that grows piece by piece.
#[derive(Drop)]
pub struct Line(Writer);

impl Line {
    /// Returns a line with nothing written.
    pub fn new(alloc: Global) -> Line {
        Line(Writer::new(alloc))
    }

    /// Writes a text.
    pub fn text(&mut self, text: &str) {
        self.0.text(text);
    }

    /// Writes a value as it is displayed.
    pub fn put<T: Display>(&mut self, value: &T) {
        self.0.put(value);
    }

    /// Goes on with another line, unless memory was refused to that one.
    pub fn line(&mut self, line: Line) -> Result<(), AllocError> {
        self.0.page(&line.0.end()?);
        Ok(())
    }
}

/// A message, a hint, and what else is wrong: each may be empty but the message.
#[derive(Drop)]
pub struct Said {
    pub message: Line,
    pub hint: Line,
    pub more: Line,
}

/// Returns the bytes of a page, if it has any.
fn if_any(page: &Page) -> Option<&[u8]> {
    (!page.bytes().is_empty()).then_some(page.bytes())
}

impl Said {
    /// Returns an explanation that says nothing.
    pub fn new(alloc: Global) -> Said {
        Said {
            message: Line::new(alloc),
            hint: Line::new(alloc),
            more: Line::new(alloc),
        }
    }

    /// Goes on with the message.
    pub fn say(&mut self, text: &str) {
        self.message.text(text);
    }

    /// Goes on with the hint.
    pub fn hint(&mut self, text: &str) {
        self.hint.text(text);
    }

    /// Says a whole message and a whole hint.
    pub fn say_both(&mut self, message: &str, hint: &str) {
        self.say(message);
        self.hint(hint);
    }

    /// Begins the message by a name or a sign, in quotes.
    pub fn say_name(&mut self, name: &str, what: &str) {
        self.message.put(&format_args!("'{name}' {what}"));
    }

    /// Returns what was written, unless memory was refused.
    pub fn end(self, alloc: Global) -> Result<Explanation, AllocError>
        ensures { IfOk result IsPrintableExplanation }
    {
        let message = self.message.0.end()?;
        let hint = self.hint.0.end()?;
        let more = self.more.0.end()?;
        Explanation::with_more(alloc, message.bytes(), if_any(&hint), if_any(&more))
    }
}
