//! What is written in place of the names of C's headers stdint.h, stdbool.h, stddef.h and limits.h.

use crate::source::{Source, Told, before, told_of};
use c_tokens::Mark;

/// What is written in place of a cast.
pub(crate) const NO_CASTS: &str =
    "there are no casts: an assignment converts, as unsigned u; u = x;";

const LONG: &str = "int and unsigned have 32 bits: write one of them, or two words";

/// Names of types.
#[rattlefmt::skip]
const TYPES: &[Told] = &[
    (&[b"bool"], "write int: 0 is false, and 1 is true"),
    (&[b"uint8_t", b"uint_least8_t"], "write unsigned, or unsigned char for an array"),
    (&[b"int8_t", b"int16_t", b"int32_t", b"intptr_t", b"ptrdiff_t", b"wchar_t"], "write int"),
    (&[b"int_least8_t", b"int_least16_t", b"int_least32_t", b"int_fast8_t", b"int_fast16_t", b"int_fast32_t"], "write int"),
    (&[b"uint16_t", b"uint32_t", b"uintptr_t", b"size_t"], "write unsigned"),
    (&[b"uint_least16_t", b"uint_least32_t", b"uint_fast8_t", b"uint_fast16_t", b"uint_fast32_t"], "write unsigned"),
    (&[b"int64_t", b"uint64_t", b"intmax_t", b"uintmax_t"], LONG),
    (&[b"int_least64_t", b"uint_least64_t", b"int_fast64_t", b"uint_fast64_t"], LONG),
];

/// Names of constants.
#[rattlefmt::skip]
const CONSTANTS: &[Told] = &[
    (&[b"CHAR_BIT"], "write 8"),
    (&[b"UCHAR_MAX", b"UINT8_MAX"], "write 255"),
    (&[b"INT_MAX", b"INT32_MAX"], "write 2147483647"),
    (&[b"INT_MIN", b"INT32_MIN"], "write (-2147483647 - 1)"),
    (&[b"UINT_MAX", b"UINT32_MAX", b"SIZE_MAX"], "write 4294967295u"),
    (&[b"INT8_MAX"], "write 127"),
    (&[b"INT8_MIN"], "write -128"),
    (&[b"INT16_MAX"], "write 32767"),
    (&[b"INT16_MIN"], "write -32768"),
    (&[b"UINT16_MAX"], "write 65535"),
];

/// Words that other languages have for operators and keywords.
#[rattlefmt::skip]
const WORDS: &[Told] = &[
    (&[b"and"], "write &&"),
    (&[b"or"], "write ||"),
    (&[b"not"], "write !"),
    (&[b"xor"], "write ^"),
    (&[b"mod"], "write %"),
    (&[b"elif", b"elsif", b"elseif"], "write else if"),
    (&[b"then"], "leave it out"),
    (&[b"brake"], "write break"),
];

/// Returns what is written in place of a word that stands at a token, just before it, or at the beginning of its statement.
pub(crate) fn word_hint(source: &Source<'_>, k: usize) -> Option<&'static str> {
    for token in [k, before(k, 1), source.first_of(k)] {
        let name = source.spelling(token);
        if source.is_name(token) && source.declaration_of(name).is_none() {
            let told = told_of(WORDS, name);
            if told.is_some() {
                return told;
            }
        }
    }
    None
}

/// Returns what is written in place of a name of these headers.
pub(crate) fn written_for(name: &[u8]) -> Option<&'static str> {
    told_of(TYPES, name).or(told_of(CONSTANTS, name))
}

/// Returns what to write in place of a type of these headers, or of a cast to one. A token or the one before has to name it.
pub(crate) fn type_hint(source: &Source<'_>, k: usize) -> Option<&'static str> {
    let cast = source.spelling(before(k, 2));
    let is_after_cast = source.is(before(k, 1), Mark::RightParen)
        && source.is(before(k, 3), Mark::LeftParen)
        && told_of(TYPES, cast).is_some()
        && source.declaration_of(cast).is_none();
    if is_after_cast {
        return Some(NO_CASTS);
    }
    for token in [k, before(k, 1)] {
        let name = source.spelling(token);
        if source.is_name(token)
            && let Some(told) = told_of(TYPES, name)
        {
            return source.declaration_of(name).is_none().then_some(told);
        }
    }
    None
}
