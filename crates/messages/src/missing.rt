//! Hints that name what is missing further up in the text: a brace or a semicolon.

use crate::source::{Source, TYPES, after, before};
use c_tokens::{Mark, Token};
use text::Said;

/// Names the brace that isn't closed where a function begins inside of another; false if that isn't so.
pub(crate) fn hint_brace(said: &mut Said, source: &Source<'_>, k: usize) -> bool {
    // the token is the `(` of `type name (`, before a type or `)`, or the `void` that such a head begins with
    let name = if source.is(k, Mark::Void) {
        after(k, 1)
    } else {
        before(k, 1)
    };
    let is_at_head = source.is_name(name)
        && source.is_one(before(name, 1), TYPES)
        && source.is(after(name, 1), Mark::LeftParen)
        && (source.is_one(after(name, 2), TYPES) || source.is(after(name, 2), Mark::RightParen));
    match source.open_before(k, Mark::LeftBrace) {
        Some(brace) if is_at_head => {
            let line = source.spot(brace).line;
            said.hint("functions don't stand in functions: ");
            said.hint
                .put(&format_args!("the '{{' of line {line} isn't closed"));
            true
        }
        _ => false,
    }
}

/// What a statement can begin with, or a block end.
#[rattlefmt::skip]
const BEGINNINGS: &[Mark] =
    &[Mark::LeftBrace, Mark::RightBrace, Mark::If, Mark::Else, Mark::While, Mark::For];

/// Names the line that lacks a `;` at its end; false if that isn't so.
pub(crate) fn hint_semicolon(
    said: &mut Said,
    source: &Source<'_>,
    k: usize,
    expected: &[&str],
) -> bool {
    let can_begin = source.is_one(k, TYPES)
        || source.is_one(k, BEGINNINGS)
        || matches!(source.token(k), Some(Token::Name(_) | Token::Jump(_, _)));
    if k == 0 || !expected.contains(&"';'") || !can_begin {
        return false;
    }
    let line = source.spot(before(k, 1)).line;
    if source.spot(k).line <= line {
        return false;
    }
    said.hint.put(&format_args!("a ';' is missing at the end of line {line}"));
    true
}
