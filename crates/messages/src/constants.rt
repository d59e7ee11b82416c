//! What is said of numbers that are no constants, and of texts beyond a size.

use crate::source::{Source, TYPES, back, before, front, is_word, shown_text, spelled_at};
use c_tokens::{MAX_TEXT, Mark};
use text::Said;

/// The most tokens in a row without `;`, `{` or `}` (c_tokens).
const MAX_RUN: usize = 1024;

/// Returns the bytes of the preprocessing number at the front (C99 6.4.8).
fn number<'t>(text: &'t [u8]) -> &'t [u8] {
    let mut is_after_exponent = false;
    for (n, byte) in text.iter().enumerate() {
        let is_sign = is_after_exponent && b"+-".contains(byte);
        if !is_sign && !is_word(*byte) && *byte != b'.' {
            return front(text, n);
        }
        is_after_exponent = b"eEpP".contains(byte);
    }
    text
}

fn has(number: &[u8], bytes: &[u8]) -> bool {
    number.iter().any(|byte| bytes.contains(byte))
}

fn has_only(number: &[u8], bytes: &[u8]) -> bool {
    number.iter().all(|byte| bytes.contains(byte))
}

/// Returns why a number is no constant, and what to write; empty where nothing helps.
#[rattlefmt::skip]
fn reason(number: &[u8]) -> (&'static str, &'static str) {
    let body = match number {
        [body @ .., b'u' | b'U'] => body,
        _ => number,
    };
    let (floating, digits, allowed): (&[u8], &[u8], &[u8]) = match body {
        [b'0', b'x' | b'X', digits @ ..] => (b".pP", digits, b"0123456789abcdefABCDEF"),
        _ => (b".pPeE", body, b"0123456789"),
    };
    match number {
        _ if has(number, floating) => ("floating point isn't in this subset of C", "write a whole number"),
        _ if has(number, b"lL") => ("int and unsigned are the only types", "leave l and ll out: u is the only suffix"),
        [b'0', b'b' | b'B', ..] => ("a number is decimal, octal or hexadecimal", "write it as 0x.."),
        [b'0', ..] if has(number, b"89") && has_only(number, b"0123456789") =>
            ("a number that begins with 0 is octal", "leave the 0 at its front out"),
        [b'1'..=b'9', ..] if shown_text(number).parse::<u32>().is_ok() => ("an int goes up to 2147483647, append u", ""),
        _ if !digits.is_empty() && has_only(digits, allowed) => ("an unsigned goes up to 4294967295", ""),
        _ => ("digits come first, and u may follow", ""),
    }
}

/// Says what is wrong with a number that is no constant.
pub(crate) fn say_constant(said: &mut Said, source: &Source<'_>, at: usize) {
    let number = number(back(source.text, at));
    let k = source.index_of(at);
    let is_least = number == b"2147483648".as_slice() && source.is(before(k, 1), Mark::Minus);
    let (why, hint) = if !is_least {
        reason(number)
    } else if source.open_before(k, Mark::LeftBrace).is_some() {
        ("an int goes up to 2147483647", "write (-2147483647 - 1)")
    } else {
        // at file scope a minus and a constant are all that can stand
        (
            "an int goes up to 2147483647",
            "write 0x80000000, which becomes -2147483648 as an int",
        )
    };
    // (a name that a declaration would give)
    let hint = match hint {
        "" if source.is_one(before(k, 1), TYPES) => "a name begins with a letter or '_'",
        _ => hint,
    };
    let number = shown_text(number);
    said.message
        .put(&format_args!("{number} is no constant: {why}"));
    said.hint(hint);
}

/// Says what is wrong with a text that is too long, or of the token that goes beyond a size.
pub(crate) fn say_size(said: &mut Said, source: &Source<'_>, at: usize) {
    let k = source.index_of(at);
    if at >= MAX_TEXT {
        said.say("the text has more than 1048576 bytes");
    } else if k.saturating_sub(source.first_of(k)) >= MAX_RUN {
        said.say_both(
            "more than 1024 tokens stand in a row without ';', '{' or '}'",
            "put parts of the expression into locals",
        );
    } else if spelled_at(source.text, at) == b"{".as_slice() {
        said.say_both(
            "more than 128 braces are open",
            "put statements inside into a function",
        );
    } else {
        said.say_both(
            "more than 512 'for' and 'else' stand since no brace was open",
            "put statements inside into a function",
        );
    }
}
