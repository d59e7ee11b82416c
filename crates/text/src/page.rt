//! A text that is ready to be shown.

ghost use Rattle.std.specs.Prelude.{◌≡◌, ◌++◌, [], All, IfOk, OnOk};
ghost use Rattle.text.specs.Shown.{IsShown, shown_text};

use crate::printable::shown_in_lines;
use std::alloc::{AllocError, Global};
use std::marker::Model;

/// The most bytes of a line that is cut.
pub const WIDTH: usize = 120;

const DOTS: &[u8] = b"...";

/// Lines of printable ASCII, so that they steer no terminal.
#[derive(Drop)]
pub struct Page {
    bytes: Vec<u8>,
}

impl Model for Page {
    ghost use Rattle.std.specs.Prelude.{ℕ, List, All};
    ghost use Rattle.text.specs.Shown.{IsShown};

    ghost Value = { List ℕ };

    ghost view = { λ p. p.bytes.items };

    ghost invariant = { λ p. All IsShown p.bytes.items };
}

/// Adds a text of lines.
pub(crate) fn add_lines(page: &mut Vec<u8>, text: &[u8]) -> Result<(), AllocError>
    requires { All IsShown page.old.items }
    ensures text { OnOk result (page.new.items ≡ page.old.items ++ shown_text text.now) }
    ensures shown { All IsShown page.new.items }
{
    for byte in text {
        page.push(shown_in_lines(*byte))?;
    }
    Ok(())
}

/// Adds a line, cut where it is longer than so many bytes.
fn add_line(page: &mut Vec<u8>, line: &[u8], width: usize) -> Result<(), AllocError>
    requires { All IsShown page.old.items }
    ensures { All IsShown page.new.items }
{
    if line.len() <= width {
        add_lines(page, line)?;
    } else {
        let kept = width.saturating_sub(DOTS.len());
        add_lines(page, line.get(..kept).unwrap_or(b""))?;
        add_lines(page, DOTS)?;
    }
    add_lines(page, b"\n")
}

impl Page {
    /// Returns a page of these bytes.
    pub(crate) fn of(bytes: Vec<u8>) -> Page
        requires { All IsShown bytes.items }
        ensures { result ≡ bytes.items }
    {
        Page { bytes }
    }

    /// Returns a page without lines.
    pub fn empty(alloc: Global) -> Page
        ensures { result ≡ [] }
    {
        Page {
            bytes: Vec::new(alloc),
        }
    }

    /// Lends the bytes of the page.
    pub fn bytes(&self) -> &[u8]
        ensures exact { result.now ≡ self.now }
        ensures shown { All IsShown result.now }
    {
        self.bytes.as_slice()
    }

    /// Returns the bytes of the page.
    pub fn into_bytes(self) -> Vec<u8>
        ensures exact { result.items ≡ self }
        ensures shown { All IsShown result.items }
    {
        self.bytes
    }

    /// Adds the bytes of the page to those of another.
    pub(crate) fn append_to(&self, page: &mut Vec<u8>) -> Result<(), AllocError>
        requires { All IsShown page.old.items }
        ensures bytes { OnOk result (page.new.items ≡ page.old.items ++ self.now) }
        ensures shown { All IsShown page.new.items }
    {
        page.extend_from_slice(self.bytes())
    }

    /// Returns the page with `...` for what is too much of a line. What is after the last line feed is left out.
    pub fn cut(&self, alloc: Global, width: usize) -> Result<Page, AllocError>
        ensures { IfOk result (All IsShown) }
    {
        let mut page = Vec::new(alloc);
        let mut start = 0usize;
        for (k, byte) in self.bytes.iter().enumerate() {
            if *byte == b'\n' {
                add_line(&mut page, self.bytes.get(start..k).unwrap_or(b""), width)?;
                start = k + 1;
            }
        }
        Ok(Page { bytes: page })
    }
}
