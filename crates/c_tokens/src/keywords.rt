//! Words that are no identifiers: the keywords in use, and those that are refused (C99 6.4.1).
ghost use Rattle.std.specs.Prelude.{◌≡◌, ◌<◌, length, take, map};
ghost use Rattle.c_tokens.specs.Lexing.{entry_in, word_lexeme, keywords};
ghost use Rattle.c_tokens.specs.Fronts.{beginning, word_length};
ghost use Rattle.c_tokens.specs.Keywords.{keyword_of};
ghost use Rattle.c_tokens.specs.Texts.{Fits};

use crate::lexer::Lexeme;
use crate::scan::word_length;
use crate::token::{JumpWord, Mark};

/// What a keyword is: a mark, a word that leaves a place in the tree, or not in use.
#[derive(Clone, Copy)]
pub enum Reserved {
    Marked(Mark),
    Jumping(JumpWord),
    Unused,
}

/// A keyword and what it is.
pub type Keyword = (&'static [u8], Reserved);

/// Returns the keywords that begin with a byte.
#[rattlefmt::skip]
fn beginning(first: u8) -> &'static [Keyword]
    ensures { map keyword_of result.now ≡ beginning first keywords }
{
    match first {
        b'i' => &[(b"int", Reserved::Marked(Mark::Int)), (b"if", Reserved::Marked(Mark::If)), (b"inline", Reserved::Unused)],
        b'u' => &[(b"unsigned", Reserved::Marked(Mark::Unsigned)), (b"union", Reserved::Unused)],
        b'c' => &[
            (b"char", Reserved::Marked(Mark::Char)), (b"continue", Reserved::Jumping(JumpWord::Continue)),
            (b"case", Reserved::Unused), (b"const", Reserved::Unused),
        ],
        b'v' => &[(b"void", Reserved::Marked(Mark::Void)), (b"volatile", Reserved::Unused)],
        b'e' => &[(b"else", Reserved::Marked(Mark::Else)), (b"enum", Reserved::Unused), (b"extern", Reserved::Unused)],
        b'w' => &[(b"while", Reserved::Marked(Mark::While))],
        b'f' => &[(b"for", Reserved::Marked(Mark::For)), (b"float", Reserved::Unused)],
        b'b' => &[(b"break", Reserved::Jumping(JumpWord::Break))],
        b'r' => &[(b"return", Reserved::Jumping(JumpWord::Return)), (b"register", Reserved::Unused), (b"restrict", Reserved::Unused)],
        b'a' => &[(b"auto", Reserved::Unused)],
        b'd' => &[(b"default", Reserved::Unused), (b"do", Reserved::Unused), (b"double", Reserved::Unused)],
        b'g' => &[(b"goto", Reserved::Unused)],
        b'l' => &[(b"long", Reserved::Unused)],
        b's' => &[
            (b"short", Reserved::Unused), (b"signed", Reserved::Unused), (b"sizeof", Reserved::Unused),
            (b"static", Reserved::Unused), (b"struct", Reserved::Unused), (b"switch", Reserved::Unused),
        ],
        b't' => &[(b"typedef", Reserved::Unused)],
        b'_' => &[(b"_Bool", Reserved::Unused), (b"_Complex", Reserved::Unused), (b"_Imaginary", Reserved::Unused)],
        _ => &[],
    }
}

/// Returns what a table has for a word.
fn look_up(table: &[Keyword], word: &[u8]) -> Option<Reserved>
    ensures { result ≡ entry_in (map keyword_of table.now) word.now }
{
    for entry in table {
        if entry.0 == word {
            return Some(entry.1);
        }
    }
    None
}

/// Returns what a word is among the keywords.
fn keyword(word: &[u8]) -> Option<Reserved>
    requires { 0 < length word.now }
    ensures { result ≡ entry_in keywords word.now }
{
    // each keyword has two letters at least
    if word.len() == 1 {
        return None;
    }
    look_up(beginning(word[0]), word)
}

fn lexeme_of(keyword: Option<Reserved>, length: usize) -> Lexeme
    ensures { result ≡ word_lexeme keyword length }
{
    match keyword {
        None => Lexeme::Word(length),
        Some(Reserved::Marked(mark)) => Lexeme::Sign(mark, length),
        Some(Reserved::Jumping(jump)) => Lexeme::Leap(jump, length),
        Some(Reserved::Unused) => Lexeme::Refused(0),
    }
}

/// Returns a word: a keyword or a name.
#[inline(always)]
pub fn word(text: &[u8]) -> Lexeme
    requires { 0 < word_length text.now }
    ensures same { result ≡ word_lexeme (entry_in keywords (take (word_length text.now) text.now)) (word_length text.now) }
    ensures fits { Fits result (length text.now) }
{
    let n = word_length(text);
    lexeme_of(keyword(&text[..n]), n)
}
