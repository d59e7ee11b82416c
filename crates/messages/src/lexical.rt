//! What is said of bytes that begin no token, and of what C has and this subset leaves out.

use crate::source::{Source, Told, back, before, front, is_word, shown_text, spelled_at, told_of};
use text::Said;

const BYTE_ORDER_MARK: &str = "the text begins with a byte order mark";

const NO_DIRECTIVES: &str = "there is no preprocessor: leave the line out";

const NO_FLOATING: &str = "floating point isn't in this subset of C: write int or unsigned";

/// What C has and the subset leaves out, with what to write in its place.
#[rattlefmt::skip]
const LEFT_OUT: &[Told] = &[
    (&[b"do"], "write while (1) { s if (!(e)) break; }"),
    (&[b"switch", b"case", b"default"], "write if and else"),
    (&[b"goto"], "write a loop with break"),
    (&[b"struct", b"union", b"->", b"."], "write an array at file scope for each member"),
    (&[b"enum"], "write a variable at file scope for each constant: int red = 0;"),
    (&[b"typedef"], "write int or unsigned in its place"),
    (&[b"sizeof"], "write the number: int and unsigned have 4 bytes"),
    (&[b"const", b"volatile", b"auto", b"register", b"restrict", b"inline"], "leave it out"),
    (&[b"static"], "leave it out; what outlives a call stands at file scope"),
    (&[b"extern"], "leave it out: a program is one text"),
    (&[b"long", b"short"], "int and unsigned have 32 bits: write one of them"),
    (&[b"signed"], "write int"),
    (&[b"float", b"double", b"_Complex", b"_Imaginary"], NO_FLOATING),
    (&[b"_Bool"], "write int: 0 is false, and 1 is true"),
    (&[b"..."], "a function has up to four parameters"),
    (&[b"##"], NO_DIRECTIVES),
    (&[b"??"], "trigraphs aren't read: write the sign itself"),
];

/// Directives that have a hint of their own.
#[rattlefmt::skip]
const DIRECTIVES: &[Told] = &[
    (&[b"include"], "there is nothing to include: out(e); prints a word"),
    (&[b"define"], "write a variable at file scope, as int size = 16;, or the number itself"),
];

/// What is said of a word or a sign that C has and the subset leaves out.
const LEFT_OUT_HERE: &str = "isn't in this subset of C";

/// Says what is wrong with a byte that no text may have.
pub(crate) fn say_byte(said: &mut Said, text: &[u8], at: usize) {
    match (at, text) {
        (0, [0xEF, 0xBB, 0xBF, ..]) => {
            said.say_both(BYTE_ORDER_MARK, "save the file as UTF-8 without it");
        }
        (0, [0xFF, 0xFE, ..] | [0xFE, 0xFF, ..]) => {
            said.say_both(BYTE_ORDER_MARK, "the file is UTF-16: save it as ASCII");
        }
        _ => {
            let byte = text.get(at).copied().unwrap_or(0);
            said.message
                .put(&format_args!("the byte {byte} can't stand in a text"));
            said.hint("write ASCII alone: bytes 32 to 126, tab and the ends of lines");
        }
    }
}

/// Returns the word after blanks, if one stands there.
pub(crate) fn after_blanks<'t>(text: &'t [u8], at: usize) -> &'t [u8] {
    let rest = back(text, at);
    let word = match rest.iter().position(|byte| *byte != b' ') {
        Some(n) => spelled_at(rest, n),
        None => b"",
    };
    match word {
        [first, ..] if is_word(*first) => word,
        _ => b"",
    }
}

/// Returns the name before `++` or after it, or `i`.
fn counted_name<'t>(source: &Source<'t>, at: usize) -> &'t str {
    let k = before(source.index_of(at), 1);
    if source.is_name(k) {
        return source.token_text(k);
    }
    let name = after_blanks(source.text, at.saturating_add(2));
    match name.first() {
        Some(byte) if byte.is_ascii_alphabetic() => shown_text(name),
        _ => "i",
    }
}

/// Says what to write in place of a character (C99 5.2.2, 6.4.4.4).
fn say_quoted(said: &mut Said, text: &[u8], at: usize) {
    said.say_both(
        "a character constant isn't in this subset of C",
        "write the character's number",
    );
    let number = match back(text, at.saturating_add(1)) {
        [b'\\', b'n', b'\'', ..] => Some(10),
        [b'\\', b't', b'\'', ..] => Some(9),
        [b'\\', b'0', b'\'', ..] => Some(0),
        [b'\\', b'r', b'\'', ..] => Some(13),
        [b'\\', b'a', b'\'', ..] => Some(7),
        [b'\\', b'b', b'\'', ..] => Some(8),
        [b'\\', b'f', b'\'', ..] => Some(12),
        [b'\\', b'v', b'\'', ..] => Some(11),
        [b'\\', letter @ (b'\\' | b'\'' | b'"'), b'\'', ..] => Some(*letter),
        [b'\\' | b'\'', ..] => None,
        [letter, b'\'', ..] => Some(*letter),
        _ => None,
    };
    if let Some(number) = number {
        said.hint.put(&format_args!(": {number}"));
    }
}

/// Reports whether the offset lies inside a comment: after the last token stands one that isn't closed before it.
fn is_in_comment(source: &Source<'_>, at: usize) -> bool {
    let from = match source.index_of(at) {
        0 => 0,
        k => source.at(before(k, 1)),
    };
    let mut is_inside = false;
    for pair in back(front(source.text, at), from).windows(2) {
        match pair {
            [b'/', b'*' | b'/'] => is_inside = true,
            [b'*', b'/'] => is_inside = false,
            _ => {}
        }
    }
    is_inside
}

/// Says what is wrong with a sign or a word.
fn say_sign(said: &mut Said, source: &Source<'_>, at: usize) {
    let sign = spelled_at(source.text, at);
    // what follows the operator that stands for `++`, `--` or an assignment
    let operand = match sign {
        b"++" | b"--" => Some(" 1"),
        b"<<=" | b">>=" => Some(" .."),
        [b'+' | b'-' | b'*' | b'/' | b'%' | b'&' | b'|' | b'^', b'='] => Some(" .."),
        _ => None,
    };
    let left_out = match back(source.text, at) {
        [b'.', b'0'..=b'9', ..] => Some(NO_FLOATING),
        [b'\\', b'\n' | b'\r', ..] => Some("leave it out: a statement may go on in the next line"),
        _ => told_of(LEFT_OUT, sign),
    };
    if let Some(operand) = operand {
        said.say_name(shown_text(sign), LEFT_OUT_HERE);
        let operator = shown_text(front(sign, sign.len().saturating_sub(1)));
        let name = counted_name(source, at);
        said.hint
            .put(&format_args!("write {name} = {name} {operator}{operand}"));
    } else if let Some(hint) = left_out {
        said.say_name(shown_text(sign), LEFT_OUT_HERE);
        said.hint(hint);
    } else {
        said.say_name(shown_text(sign), "begins nothing in C");
    }
}

/// Says what is wrong where no token begins.
pub(crate) fn say_token(said: &mut Said, source: &Source<'_>, at: usize) {
    let sign = spelled_at(source.text, at);
    match sign {
        [b'/', b'*'] => said.say_both("this comment isn't closed", "write */ where it ends"),
        [b'"'] => said.say_both(
            "a string isn't in this subset of C",
            "out(e); prints a word; bytes stand in an array of unsigned char at file scope",
        ),
        [b'#'] => {
            let word = after_blanks(source.text, at.saturating_add(1));
            said.message
                .put(&format_args!("'#{}' {LEFT_OUT_HERE}", shown_text(word)));
            said.hint(told_of(DIRECTIVES, word).unwrap_or(NO_DIRECTIVES));
        }
        [b'\''] => say_quoted(said, source.text, at),
        [b'\\'] | [b'?', b'?'] if is_in_comment(source, at) => {
            said.say_name(shown_text(sign), "can't stand in a comment");
            said.hint("leave it out: C may read what follows as code");
        }
        _ => say_sign(said, source, at),
    }
}
