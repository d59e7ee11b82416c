//! A text for people, as it is written.

ghost use Rattle.std.specs.Prelude.{◌≡◌, ◌++◌, [], ◌∷◌, None, Some, All, IfErr, IfOk, IfSome, OnOk};
ghost use Rattle.text.specs.Shown.{IsShown, shown_name, shown_text};
ghost use Rattle.text.specs.Written.{Writes};

use crate::page::{Page, add_lines};
use crate::printable::printable_byte;
use std::alloc::{AllocError, Global};
use std::fmt::Display;
use std::marker::Model;

/// A page that grows piece by piece: what isn't printable is written as `?`. Where memory was refused once, nothing more is written,
/// and `end` says so: what writes has no result at each step.
#[derive(Drop)]
pub struct Writer {
    written: Vec<u8>,
    /// Room for a value while it is displayed.
    piece: String,
    is_refused: bool,
}

impl Model for Writer {
    ghost use Rattle.std.specs.Prelude.{ℕ, List, Option, None, Some, All, if◌then◌else◌};
    ghost use Rattle.text.specs.Shown.{IsShown};

    ghost Value = { Option (List ℕ) };

    ghost view = { λ w. if w.is_refused then None else Some w.written.items };

    ghost invariant = { λ w. All IsShown w.written.items };
}

/// Adds a text within a line.
fn add_within(page: &mut Vec<u8>, text: &[u8]) -> Result<(), AllocError>
    requires { All IsShown page.old.items }
    ensures text { OnOk result (page.new.items ≡ page.old.items ++ shown_name text.now) }
    ensures shown { All IsShown page.new.items }
{
    for byte in text {
        page.push(printable_byte(*byte))?;
    }
    Ok(())
}

impl Writer {
    /// Returns a writer with nothing written.
    pub fn new(alloc: Global) -> Writer
        ensures { result ≡ Some [] }
    {
        Writer {
            written: Vec::new(alloc),
            piece: String::new(alloc),
            is_refused: false,
        }
    }

    /// Writes a text, whose line feeds end lines.
    pub fn text(&mut self, text: &str)
        ensures { Writes self.old (shown_text text.now) self.new }
    {
        if !self.is_refused {
            self.is_refused = add_lines(&mut self.written, text.as_bytes()).is_err();
        }
    }

    /// Writes bytes that stay within their line: `?` for a line feed, too.
    pub fn within_line(&mut self, text: &[u8])
        ensures { Writes self.old (shown_name text.now) self.new }
    {
        if !self.is_refused {
            self.is_refused = add_within(&mut self.written, text).is_err();
        }
    }

    /// Writes a page.
    pub fn page(&mut self, page: &Page)
        ensures { Writes self.old page.now self.new }
    {
        if !self.is_refused {
            self.is_refused = page.append_to(&mut self.written).is_err();
        }
    }

    /// Writes a value as it is displayed.
    pub fn put<T: Display>(&mut self, value: &T)
        ensures written { IfSome (T.output value.now) (λ bytes. Writes self.old (shown_text bytes) self.new) }
        ensures refused { self.old ≡ None → self.new ≡ None }
    {
        if !self.is_refused {
            self.piece.clear();
            self.is_refused = write!(self.piece, "{value}").is_err()
                || add_lines(&mut self.written, self.piece.as_bytes()).is_err();
        }
    }

    /// Returns what was written, unless memory was refused.
    pub fn end(self) -> Result<Page, AllocError>
        ensures ok { IfOk result (λ page. self ≡ Some page) }
        ensures shown { IfOk result (All IsShown) }
        ensures err { IfErr result (λ _. self ≡ None) }
    {
        if self.is_refused {
            return Err(AllocError);
        }
        Ok(Page::of(self.written))
    }
}
