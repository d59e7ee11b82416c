//! The tokens after the first wrong one that C doesn't have either.

use crate::lexical::after_blanks;
use crate::source::{back, front, is_word, shown_text, spelled_at};
use c_tokens::{LexFault, MAX_TEXT, Refusal, lex};
use host::{Spot, spot_of};
use std::alloc::{AllocError, Global};
use text::{Line, Said};

/// So many are named at most.
const NAMED: usize = 8;

/// Returns where a string or a character that begins at an offset ends, at the latest with its line.
fn quoted_end(text: &[u8], at: usize, quote: u8) -> usize {
    let mut is_escaped = false;
    for (n, byte) in back(text, at.saturating_add(1)).iter().enumerate() {
        if *byte == b'\n' || (*byte == quote && !is_escaped) {
            return at.saturating_add(n).saturating_add(2);
        }
        is_escaped = *byte == b'\\' && !is_escaped;
    }
    text.len()
}

/// Returns where tokens can be read on after what is refused; None in a comment, and where it can't be told.
fn goes_on(text: &[u8], at: usize, why: Refusal) -> Option<usize> {
    let rest = back(text, at);
    let length = match (why, spelled_at(text, at)) {
        (Refusal::BadSize, _) => return None,
        (Refusal::BadConstant, _) => rest
            .iter()
            .position(|byte| !is_word(*byte) && *byte != b'.'),
        (_, [b'/', b'*'] | [b'\\'] | [b'?', b'?']) => return None,
        (_, [quote @ (b'"' | b'\'')]) => return Some(quoted_end(text, at, *quote)),
        (_, [b'#']) => rest.iter().position(|byte| *byte == b'\n'),
        (_, sign) => Some(sign.len()),
    };
    Some(at.saturating_add(length.unwrap_or(rest.len()).max(1)))
}

/// Names one of them, with line and column.
fn put_one(named: &mut Line, text: &[u8], at: usize) {
    let Spot { line, column } = spot_of(text, at);
    let sign = spelled_at(text, at);
    named.put(&format_args!("{line}:{column} '{}", shown_text(sign)));
    if sign == b"#".as_slice() {
        named.text(shown_text(after_blanks(text, at.saturating_add(1))));
    }
    named.text("'");
}

/// Says which tokens after the first wrong one C doesn't have either, as far as they can be read.
pub(crate) fn say_more(
    alloc: Global,
    said: &mut Said,
    text: &[u8],
    first: usize,
) -> Result<(), AllocError> {
    let text = front(text, MAX_TEXT);
    let (mut named, mut count) = (Line::new(alloc), 0usize);
    let mut from = goes_on(text, first, Refusal::BadToken);
    for _ in 0..text.len() {
        let Some(next) = from else { break };
        let (why, at) = match lex(alloc, back(text, next)) {
            Ok(_) => break,
            Err(LexFault::Refused(why, at)) => (why, next.saturating_add(at)),
            Err(LexFault::NoMemory) => return Err(AllocError),
        };
        if why == Refusal::BadToken {
            if count < NAMED {
                named.text(if count == 0 { "" } else { ", " });
                put_one(&mut named, text, at);
            }
            count = count.saturating_add(1);
        }
        from = goes_on(text, at, why);
    }
    if count > 0 {
        said.more.put(&format_args!("and {count} more: "));
        said.more.line(named)?;
        said.more.text(if count > NAMED { " .." } else { "" });
    }
    Ok(())
}
