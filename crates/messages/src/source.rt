//! The tokens of a text, by their numbers, as messages speak of them.

ghost use Rattle.std.specs.Prelude.{◌≤◌, length};

use c_tokens::{LexFault, MAX_TEXT, Mark, Token, lex};
use host::{Spot, spot_of};
use std::alloc::{AllocError, Global};
use std::str;
use text::Line;

/// The most bytes of a name that a message shows (C99 5.2.4.1: so many are significant).
const SHOWN: usize = 63;

/// Operators of more than one byte, the longer ones first.
const LONG_SIGNS: &[&[u8]] = &[
    b"<<=", b">>=", b"...", b"++", b"--", b"->", b"+=", b"-=", b"*=", b"/=", b"%=", b"&=", b"|=",
    b"^=", b"==", b"!=", b"<=", b">=", b"<<", b">>", b"&&", b"||", b"##", b"??", b"/*", b"//",
    b"*/",
];

/// `int`, `unsigned`, `char` and `void`.
pub(crate) const TYPES: &[Mark] = &[Mark::Int, Mark::Unsigned, Mark::Char, Mark::Void];

/// What stands before a statement or a declaration.
const ENDS: &[Mark] = &[Mark::Semicolon, Mark::LeftBrace, Mark::RightBrace];

/// Returns the first bytes of a text, at most so many.
pub(crate) fn front<'t>(text: &'t [u8], n: usize) -> &'t [u8]
    ensures most { length result.now ≤ n }
    ensures part { length result.now ≤ length text.now }
{
    &text[..n.min(text.len())]
}

/// Returns the bytes of a text from an offset on.
pub(crate) fn back<'t>(text: &'t [u8], n: usize) -> &'t [u8]
    ensures part { length result.now ≤ length text.now }
{
    &text[n.min(text.len())..]
}

/// Returns the text that a message shows of bytes.
pub(crate) fn shown_text<'t>(bytes: &'t [u8]) -> &'t str {
    str::from_utf8(front(bytes, SHOWN)).unwrap_or("?")
}

/// Words or signs, and what is told of them.
pub(crate) type Told = (&'static [&'static [u8]], &'static str);

/// Returns what a table tells of a word.
pub(crate) fn told_of(table: &[Told], word: &[u8]) -> Option<&'static str> {
    let found = table.iter().find(|row| row.0.contains(&word))?;
    Some(found.1)
}

/// Reports whether a byte can stand in a name.
pub(crate) fn is_word(byte: u8) -> bool {
    byte.is_ascii_alphanumeric() || byte == b'_'
}

/// Returns the word or the longest sign at an offset.
pub(crate) fn spelled_at<'t>(text: &'t [u8], at: usize) -> &'t [u8] {
    let rest = back(text, at);
    match rest.iter().position(|byte| !is_word(*byte)) {
        None => rest,
        Some(0) => {
            let sign = LONG_SIGNS.iter().find(|sign| rest.starts_with(**sign));
            front(rest, sign.map_or(1, |sign| sign.len()))
        }
        Some(length) => front(rest, length),
    }
}

/// The tokens of a text, or those before its first refusal.
#[derive(Drop)]
pub(crate) struct Source<'t> {
    pub(crate) text: &'t [u8],
    tokens: Vec<Token>,
    places: Vec<u32>,
}

impl<'t> Source<'t> {
    /// Reads the tokens of a text. A refusal inside a comment leaves an open comment before it, so at most two refusals stand after one
    /// another.
    pub(crate) fn read(alloc: Global, text: &'t [u8]) -> Result<Source<'t>, AllocError> {
        let text = front(text, MAX_TEXT);
        let mut end = text.len();
        for _ in 0..3 {
            match lex(alloc, front(text, end)) {
                Ok((tokens, places)) => {
                    return Ok(Source {
                        text,
                        tokens,
                        places,
                    });
                }
                Err(LexFault::Refused(_, at)) => end = at,
                Err(LexFault::NoMemory) => return Err(AllocError),
            }
        }
        Ok(Source::without_tokens(alloc, text))
    }

    /// Returns a text none of whose tokens are known.
    pub(crate) fn without_tokens(alloc: Global, text: &'t [u8]) -> Source<'t> {
        Source {
            text,
            tokens: Vec::new(alloc),
            places: Vec::new(alloc),
        }
    }

    /// Returns how many tokens there are.
    pub(crate) fn count(&self) -> usize {
        self.tokens.len()
    }

    pub(crate) fn token(&self, k: usize) -> Option<Token> {
        self.tokens.get(k).copied()
    }

    /// Returns where a token begins; the text's length where there is none.
    pub(crate) fn at(&self, k: usize) -> usize {
        let place = self.places.get(k);
        place.map_or(self.text.len(), |place| *place as usize)
    }

    /// Returns the number of the first token that doesn't begin before the offset.
    pub(crate) fn index_of(&self, at: usize) -> usize {
        self.places
            .as_slice()
            .partition_point(|place| (*place as usize) < at)
    }

    pub(crate) fn mark(&self, k: usize) -> Option<Mark> {
        match self.token(k) {
            Some(Token::The(mark)) => Some(mark),
            _ => None,
        }
    }

    pub(crate) fn is(&self, k: usize, mark: Mark) -> bool {
        self.mark(k) == Some(mark)
    }

    /// Reports whether a token is one of these.
    pub(crate) fn is_one(&self, k: usize, marks: &[Mark]) -> bool {
        matches!(self.token(k), Some(Token::The(mark)) if marks.contains(&mark))
    }

    pub(crate) fn is_name(&self, k: usize) -> bool {
        matches!(self.token(k), Some(Token::Name(_)))
    }

    /// Reports whether a token is a name that is declared here. In a text that spells a program each such name, and no other, stands after
    /// its type.
    pub(crate) fn is_declared(&self, k: usize) -> bool {
        self.is_name(k) && self.is_one(before(k, 1), TYPES)
    }

    /// Returns the first token that declares a name, if one does.
    pub(crate) fn declaration_of(&self, name: &[u8]) -> Option<usize> {
        (0..self.count()).find(|k| self.is_declared(*k) && self.spelling(*k) == name)
    }

    /// Returns the innermost one of these brackets that is open before a token.
    pub(crate) fn open_before(&self, k: usize, opening: Mark) -> Option<usize> {
        let closing = match opening {
            Mark::LeftBrace => Mark::RightBrace,
            Mark::LeftParen => Mark::RightParen,
            _ => Mark::RightBracket,
        };
        let mut depth = 0usize;
        for token in (0..k).rev() {
            if self.is(token, closing) {
                depth = depth.saturating_add(1);
            } else if self.is(token, opening) {
                if depth == 0 {
                    return Some(token);
                }
                depth = depth.saturating_sub(1);
            }
        }
        None
    }

    /// Returns the first token of the statement or the declaration that is open before a token.
    pub(crate) fn first_of(&self, k: usize) -> usize {
        let end = (0..k).rev().find(|token| self.is_one(*token, ENDS));
        end.map_or(0, |token| after(token, 1))
    }

    /// Returns the bytes of a token.
    pub(crate) fn spelling(&self, k: usize) -> &'t [u8] {
        spelled_at(self.text, self.at(k))
    }

    /// Returns what a message shows of a token.
    pub(crate) fn token_text(&self, k: usize) -> &'t str {
        shown_text(self.spelling(k))
    }

    /// Returns line and column of a token.
    pub(crate) fn spot(&self, k: usize) -> Spot {
        spot_of(self.text, self.at(k))
    }

    /// Writes line and column of a token.
    pub(crate) fn put_spot(&self, out: &mut Line, k: usize) {
        let Spot { line, column } = self.spot(k);
        out.put(&format_args!("line {line}, column {column}"));
    }
}

/// Returns the number of the token so many before this one; no token has it where there are fewer.
pub(crate) fn before(k: usize, n: usize) -> usize {
    if n <= k { k - n } else { usize::MAX }
}

/// Returns the number of the token so many after this one.
pub(crate) fn after(k: usize, n: usize) -> usize {
    k.saturating_add(n)
}
