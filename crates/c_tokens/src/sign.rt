//! Operators and punctuators: the longest one at the front of a text (C99 6.4.6).
ghost use Rattle.std.specs.Prelude.{◌≡◌, ◌<◌, ◌≤◌, ◌∷◌, [], length, is_some, IfSome};
ghost use Rattle.c_tokens.specs.Lexing.{entry_in, signs};
ghost use Rattle.c_tokens.specs.Fronts.{mark_of, sign_of};

use crate::scan::split;
use crate::token::Mark;

/// Returns the mark that a byte alone spells.
fn one(first: u8) -> Option<Mark>
    ensures { result ≡ mark_of (entry_in signs (first ∷ [])) }
{
    match first {
        b'(' => Some(Mark::LeftParen),
        b')' => Some(Mark::RightParen),
        b'{' => Some(Mark::LeftBrace),
        b'}' => Some(Mark::RightBrace),
        b'[' => Some(Mark::LeftBracket),
        b']' => Some(Mark::RightBracket),
        b';' => Some(Mark::Semicolon),
        b',' => Some(Mark::Comma),
        b'=' => Some(Mark::Assign),
        b'?' => Some(Mark::Question),
        b':' => Some(Mark::Colon),
        b'|' => Some(Mark::Bar),
        b'^' => Some(Mark::Caret),
        b'&' => Some(Mark::Ampersand),
        b'<' => Some(Mark::LessSign),
        b'>' => Some(Mark::GreaterSign),
        b'+' => Some(Mark::Plus),
        b'-' => Some(Mark::Minus),
        b'*' => Some(Mark::Star),
        b'/' => Some(Mark::Slash),
        b'%' => Some(Mark::Percent),
        b'~' => Some(Mark::Tilde),
        b'!' => Some(Mark::Bang),
        _ => None,
    }
}

/// Returns what two bytes spell: a mark, or an operator that is not in use.
fn two(first: u8, second: u8) -> Option<Option<Mark>>
    ensures { result ≡ entry_in signs (first ∷ second ∷ []) }
{
    match (first, second) {
        (b'=', b'=') => Some(Some(Mark::EqualEqual)),
        (b'!', b'=') => Some(Some(Mark::BangEqual)),
        (b'<', b'=') => Some(Some(Mark::LessEqual)),
        (b'>', b'=') => Some(Some(Mark::GreaterEqual)),
        (b'<', b'<') => Some(Some(Mark::LessLess)),
        (b'>', b'>') => Some(Some(Mark::GreaterGreater)),
        (b'|', b'|') => Some(Some(Mark::BarBar)),
        (b'&', b'&') => Some(Some(Mark::AndAnd)),
        (b'+', b'+' | b'=') | (b'-', b'-' | b'=' | b'>') => Some(None),
        (b'*' | b'/' | b'%' | b'&' | b'|' | b'^', b'=') => Some(None),
        (b'#', b'#') | (b'?', b'?') => Some(None),
        _ => None,
    }
}

/// Reports whether three bytes are an operator. None of them is in use.
fn three(first: u8, second: u8, third: u8) -> bool
    ensures { result ≡ is_some (entry_in signs (first ∷ second ∷ third ∷ [])) }
{
    matches!(
        (first, second, third),
        (b'<', b'<', b'=') | (b'>', b'>', b'=') | (b'.', b'.', b'.')
    )
}

/// Returns the mark of the longest operator or bracket at the front, and its length; None where that is not in use.
pub fn sign(text: &[u8]) -> Option<(Mark, usize)>
    ensures same { result ≡ sign_of text.now }
    ensures fits { IfSome result (λ r. (0 < r.1) × (r.1 ≤ length text.now)) }
{
    let (first, rest) = split(text)?;
    let alone = one(first)?;
    let Some((second, more)) = split(rest) else {
        return Some((alone, 1));
    };
    let Some(pair) = two(first, second) else {
        return Some((alone, 1));
    };
    match split(more) {
        Some((third, _)) if three(first, second, third) => None,
        _ => Some((pair?, 2)),
    }
}
