//! Where a fault lies in its file, as editors and readers want it. Below the line `FILE:LINE:COLUMN: error: MESSAGE` is the line of the
//! text around the place with a caret, and a line with a hint.

ghost use Rattle.std.specs.Prelude.{◌≡◌, ◌<◌, ◌^◌, ◌≤◌, length, take, ◌++◌, All, IfOk, IfSome, Some, codes, decimal};
ghost use Rattle.host.specs.Places.{bytes_in_line, column_at, line_at, line_start};
ghost use Rattle.host.specs.Requests.{TellsBeside, TellsLine};
ghost use Rattle.text.specs.Shown.{IsTold};

use crate::fault::Complaints;
use std::alloc::{AllocError, Global};
use std::fmt;
use text::{Explanation, Page, Writer, printable_byte};

/// The most bytes that are shown of a line of the text; a longer one is cut, with three dots for what is left out.
const WIDTH: usize = 160;

/// What is shown of a long line: bytes before the place, and in all, without the dots.
const BEFORE: usize = 77;

const SHOWN: usize = WIDTH - 2 * DOTS.len();

const DOTS: &[u8] = b"...";

/// A place in a text. It is displayed as editors read it after the name of a file.
#[derive(Clone, Copy, Debug, PartialEq, Eq)]
pub struct Spot {
    /// From 1.
    pub line: usize,
    /// In bytes, from 1.
    pub column: usize,
}

impl fmt::Display for Spot {
    ghost output = { λ s. Some (codes ":" ++ (decimal s.line ++ (codes ":" ++ (decimal s.column ++ codes ":")))) };

    fn fmt<W: fmt::Write>(&self, f: &mut fmt::Formatter<W>) -> fmt::Result {
        let (line, column) = (self.line, self.column);
        write!(f, ":{line}:{column}:")
    }
}

/// Returns the bytes before an offset; the whole text, if it is past the end.
fn before(text: &[u8], at: usize) -> &[u8]
    ensures { result.now ≡ take at text.now }
{
    text.get(..at).unwrap_or(text)
}

/// Returns how many bytes of its line come before an offset.
fn bytes_in_line(text: &[u8], at: usize) -> usize
    ensures { result ≡ bytes_in_line text.now at }
{
    before(text, at)
        .iter()
        .rev()
        .take_while(|byte| **byte != b'\n')
        .count()
}

/// Returns the line and the column of an offset of the text, or of its end.
pub fn spot_of(text: &[u8], at: usize) -> Spot
    ensures line { result.line ≡ line_at text.now at }
    ensures column { result.column ≡ column_at text.now at }
    ensures fit { (result.line < 2 ^ 64) × (result.column < 2 ^ 64) }
{
    let line_feeds = before(text, at)
        .iter()
        .filter(|byte| **byte == b'\n')
        .count();
    Spot {
        line: line_feeds.saturating_add(1),
        column: bytes_in_line(text, at).saturating_add(1),
    }
}

/// Returns where a line of the text begins, counted from 1; the text's length where it has no such line.
pub fn line_offset(text: &[u8], line: u32) -> usize
    ensures exact { result ≡ line_start text.now line }
    ensures within { result ≤ length text.now }
{
    let mut ends = 1u32;
    for (k, byte) in text.iter().enumerate() {
        if line <= ends {
            return k;
        }
        if *byte == b'\n' {
            ends = ends.saturating_add(1);
        }
    }
    text.len()
}

/// Returns what stands for a byte of the text: tabs stay, so that the caret keeps its place. With `blank` all else is a blank.
fn quoted_byte(byte: u8, blank: bool) -> u8
    ensures { IsTold result }
{
    match byte {
        b'\t' => byte,
        _ if blank => b' ',
        b'\n' => byte,
        b'\r' => b' ',
        _ => printable_byte(byte),
    }
}

/// Returns what stands for a part of a line that is left out.
fn dots(is_cut: bool) -> &'static [u8] {
    if is_cut { DOTS } else { b"" }
}

/// Adds what stands for these bytes of the text.
fn add(quote: &mut Vec<u8>, bytes: &[u8], blank: bool) -> Result<(), AllocError>
    requires { All IsTold quote.old.items }
    ensures { All IsTold quote.new.items }
{
    for byte in bytes {
        quote.push(quoted_byte(*byte, blank))?;
    }
    Ok(())
}

/// Adds at most 160 bytes of the line in which the offset lies, and a line with a caret under the offset. Nothing at the text's end.
fn add_quote(quote: &mut Vec<u8>, text: &[u8], at: usize) -> Result<(), AllocError>
    requires { All IsTold quote.old.items }
    ensures { All IsTold quote.new.items }
{
    if at >= text.len() {
        return Ok(());
    }
    let start = at.saturating_sub(bytes_in_line(text, at));
    let end = (at..text.len()).find(|k| text.get(*k) == Some(&b'\n'));
    let end = end.unwrap_or(text.len());
    // of a long line a part around the place is shown
    let (from, to) = if end.saturating_sub(start) <= WIDTH {
        (start, end)
    } else {
        let latest = end.saturating_sub(SHOWN);
        let from = at.saturating_sub(BEFORE).max(start).min(latest);
        (from, from.saturating_add(SHOWN).min(end))
    };
    add(quote, dots(start < from), false)?;
    add(quote, text.get(from..to).unwrap_or(b""), false)?;
    add(quote, dots(to < end), false)?;
    add(quote, b"\n", false)?;
    add(quote, dots(start < from), true)?;
    add(quote, text.get(from..at).unwrap_or(b""), true)?;
    add(quote, b"^\n", false)
}

/// Where a fault lies, and what is said of it.
#[derive(Drop)]
pub struct Place<'a> {
    /// The file as it was named.
    pub source: &'a str,
    pub text: &'a [u8],
    /// The offset in the text, or its length; none where memory was refused.
    pub at: Option<usize>,
    /// None where nothing more is known, or memory was refused.
    pub about: Option<Explanation>,
}

fn put_hint(out: &mut Writer, hint: &[u8]) {
    out.text("hint: ");
    out.within_line(hint);
    out.text("\n");
}

/// Returns the line with the file and what is wrong with it, and the hint.
pub(crate) fn file_page(
    alloc: Global,
    file: &str,
    message: &str,
    hint: Option<&str>,
) -> Result<Page, AllocError> {
    let mut out = Writer::new(alloc);
    out.within_line(file.as_bytes());
    out.text(": error: ");
    out.within_line(message.as_bytes());
    out.text("\n");
    if let Some(hint) = hint {
        put_hint(&mut out, hint.as_bytes());
    }
    out.end()
}

/// Returns what is told below a fault: the place and the message, the line with its caret, the hint, and what else is wrong.
fn lines_below(alloc: Global, place: &Place<'_>, at: usize) -> Result<Vec<u8>, AllocError>
    ensures { IfOk result (λ lines. All IsTold lines.items) }
{
    let (mut head, mut rest) = (Writer::new(alloc), Writer::new(alloc));
    head.within_line(place.source.as_bytes());
    head.put(&spot_of(place.text, at));
    if let Some(about) = &place.about {
        head.text(" error: ");
        head.within_line(about.message.as_slice());
        if let Some(hint) = &about.hint {
            put_hint(&mut rest, hint.as_slice());
        }
        if let Some(more) = &about.more {
            rest.within_line(more.as_slice());
            rest.text("\n");
        }
    }
    head.text("\n");
    let mut lines = Vec::new(alloc);
    add(&mut lines, head.end()?.bytes(), false)?;
    add_quote(&mut lines, place.text, at)?;
    add(&mut lines, rest.end()?.bytes(), false)?;
    Ok(lines)
}

/// Tells the line of a fault of a text. If it has a place, below come the place and what is said of it.
pub fn tell_placed<E: Complaints, F: fmt::Display>(
    alloc: Global,
    err: &mut E,
    fault: &F,
    place: &Place<'_>,
) -> u8
    ensures status { result ≡ 1 }
    ensures told { IfSome (F.output fault.now) (λ text. TellsLine E.tells err.old text err.new) }
{
    err.line(fault);
    if let Some(at) = place.at {
        show_place(alloc, err, place, at);
    }
    1
}

/// Tells, below a fault's line, where it lies and what is said of it; if memory runs out, only where it lies.
fn show_place<E: Complaints>(alloc: Global, err: &mut E, place: &Place<'_>, at: usize)
    ensures { TellsBeside E.tells err.old (All (All IsTold)) err.new }
{
    match lines_below(alloc, place, at) {
        Ok(lines) => err.bytes(lines.as_slice()),
        Err(_) => tell_site(err, place, at),
    }
}

/// Tells where a fault lies alone, which takes no memory.
fn tell_site<E: Complaints>(err: &mut E, place: &Place<'_>, at: usize)
    ensures { TellsBeside E.tells err.old (All (All IsTold)) err.new }
{
    for byte in place.source.as_bytes() {
        err.bytes(&[printable_byte(*byte)]);
    }
    err.line(&spot_of(place.text, at));
}
