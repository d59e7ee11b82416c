//! A text piece by piece: its tokens with their places, or the first refusal (C99 6.4).
ghost use Rattle.std.specs.Prelude.{◌≡◌, ◌∷◌, ◌+◌, ◌<◌, ◌≤◌, ◌^◌, [], false, length, IfOk, IfErr, List, ℕ};
ghost use Rattle.c_tokens.specs.Lexing.{is_letter, is_digit};
ghost use Rattle.c_tokens.specs.Fronts.{lexeme_of, ended_lexeme};
ghost use Rattle.c_tokens.specs.declared.token.Token.{Token};
ghost use Rattle.c_tokens.specs.declared.sizes.TheConstants.{MAX_TEXT};
ghost use Rattle.c_tokens.specs.declared.fault.Refusal.{Refusal};
ghost use Rattle.c_tokens.specs.Texts.{Lexes, ArePlaces, LexStops, IsStep, Fits, IsNarrow, StepFits, step_of, IsLexFault};

use crate::constants::constant;
use crate::fault::{LexFault, Refusal};
use crate::keywords::word;
use crate::scan::{
    after, after_blanks, begins, comment_length, escape_at, is_digit, is_letter, is_space,
    line_length, split,
};
use crate::sign::sign;
use crate::sizes::{Sizes, count};
use crate::token::{Identifier, JumpWord, Literal, Mark, Token};
use std::alloc::{AllocError, Global};

/// What stands at the front of a text: a word is a name, a sign a keyword, an operator or a bracket.
#[derive(Clone, Copy)]
pub enum Lexeme {
    End,
    Separator(usize),
    Word(usize),
    Numeral(Literal, usize),
    Sign(Mark, usize),
    Leap(JumpWord, usize),
    Refused(usize),
    NoConstant,
}

/// What to do at a place in a text.
#[derive(Clone, Copy)]
pub enum Step {
    Done,
    Skip(usize),
    Take(Token, usize),
    Stop(Refusal, usize),
}

/// Returns a comment that has `n` bytes after its first two.
fn ended(rest: &[u8], n: usize) -> Lexeme
    requires narrow { length rest.now < 2 ^ 32 }
    requires within { n ≤ length rest.now }
    ensures same { result ≡ ended_lexeme n rest.now }
    ensures fits { Fits result (length rest.now + 2) }
{
    match escape_at(&rest[..n]) {
        None => Lexeme::Separator(n + 2),
        Some(k) => Lexeme::Refused(k + 2),
    }
}

/// Returns what stands at the front where neither a word nor a number does: white space, a comment, an operator or a bracket.
#[inline(never)]
fn other(first: u8, rest: &[u8], text: &[u8]) -> Lexeme
    requires narrow { length text.now < 2 ^ 32 }
    requires front { text.now ≡ first ∷ rest.now }
    requires letter { is_letter first ≡ false }
    requires digit { is_digit first ≡ false }
    ensures same { result ≡ lexeme_of text.now }
    ensures fits { Fits result (length text.now) }
{
    if is_space(first) {
        return Lexeme::Separator(1);
    }
    if begins(text, b'/', b'*') {
        let inside = after(rest, 1);
        return match comment_length(inside) {
            None => Lexeme::Refused(0),
            Some(n) => ended(inside, n),
        };
    }
    if begins(text, b'/', b'/') {
        let inside = after(rest, 1);
        return ended(inside, line_length(inside));
    }
    match sign(text) {
        Some((mark, n)) => Lexeme::Sign(mark, n),
        None => Lexeme::Refused(0),
    }
}

/// Returns what stands at the front.
fn next(text: &[u8]) -> Lexeme
    requires { length text.now < 2 ^ 32 }
    ensures same { result ≡ lexeme_of text.now }
    ensures fits { Fits result (length text.now) }
{
    let Some((first, rest)) = split(text) else {
        return Lexeme::End;
    };
    if is_letter(first) {
        return word(text);
    }
    if is_digit(first) {
        return constant(text);
    }
    other(first, rest, text)
}

fn step_at(at: u32, lexeme: Lexeme) -> Step
    requires { IsNarrow lexeme }
    ensures { result ≡ step_of at lexeme }
{
    match lexeme {
        Lexeme::End => Step::Done,
        Lexeme::Separator(n) => Step::Skip(n),
        Lexeme::Word(n) => {
            let length = n as u32;
            Step::Take(Token::Name(Identifier { at, length }), n)
        }
        Lexeme::Numeral(literal, n) => Step::Take(Token::Constant(literal), n),
        Lexeme::Sign(mark, n) => Step::Take(Token::The(mark), n),
        Lexeme::Leap(word, n) => Step::Take(Token::Jump(word, at), n),
        Lexeme::Refused(k) => Step::Stop(Refusal::BadToken, k),
        Lexeme::NoConstant => Step::Stop(Refusal::BadConstant, 0),
    }
}

/// Returns the step at a place where any piece may stand.
fn any_step(at: u32, text: &[u8]) -> Step
    requires { length text.now < 2 ^ 32 }
    ensures found { IsStep at text.now result }
    ensures fits { StepFits result (length text.now) }
{
    step_at(at, next(text))
}

/// Returns the step at a place. Most tokens are marks that one or two bytes tell.
fn next_step(at: u32, text: &[u8]) -> Step
    requires { length text.now < 2 ^ 32 }
    ensures found { IsStep at text.now result }
    ensures fits { StepFits result (length text.now) }
{
    match sign(text) {
        // a slash may begin a comment
        Some((mark, n)) if text[0] != b'/' => Step::Take(Token::The(mark), n),
        _ => any_step(at, text),
    }
}

/// Returns the tokens of a text.
pub fn tokens(alloc: Global, text: &[u8]) -> Result<Vec<Token>, LexFault>
    requires { length text.now ≤ MAX_TEXT }
    ensures ok { IfOk result (λ tokens. (places : List ℕ) × Lexes 0 text.now [] tokens.items places) }
    ensures err { IfErr result (IsLexFault text.now) }
{
    // a token has a byte at least, so the list never grows; pages that no token reaches are never had
    let mut tokens = Vec::with_capacity(alloc, text.len())?;
    let mut at: usize = 0;
    let mut sizes = Sizes {
        run: 0,
        open: 0,
        nested: 0,
    };
    'lexemes: loop {
        let place = after_blanks(text, at);
        match next_step(place as u32, after(text, place)) {
            Step::Done => return Ok(tokens),
            Step::Skip(n) => at = place + n,
            Step::Take(token, n) => match count(sizes, &token) {
                None => return Err(LexFault::Refused(Refusal::BadSize, place)),
                Some(new) => {
                    tokens.push_reserved(token);
                    sizes = new;
                    at = place + n;
                }
            },
            Step::Stop(why, k) => return Err(LexFault::Refused(why, place + k)),
        }
    }
}

/// Returns the offsets of a text's tokens, if it has tokens. Few texts are asked for them, so `tokens` keeps no list of them.
pub fn places(alloc: Global, text: &[u8]) -> Result<Vec<u32>, AllocError>
    requires { length text.now ≤ MAX_TEXT }
    ensures { IfOk result (λ places. ArePlaces text.now places.items) }
{
    let mut places = Vec::with_capacity(alloc, text.len())?;
    let mut rest = text;
    let mut at: usize = 0;
    'lexemes: loop {
        let here = at as u32;
        match any_step(here, rest) {
            Step::Done => return Ok(places),
            // such a text has no tokens
            Step::Stop(_, _) => return Ok(places),
            Step::Skip(n) => {
                rest = after(rest, n);
                at += n;
            }
            Step::Take(_, n) => {
                places.push(here)?;
                rest = after(rest, n);
                at += n;
            }
        }
    }
}

/// Returns the tokens of a text, and where they stand.
pub fn lex(alloc: Global, text: &[u8]) -> Result<(Vec<Token>, Vec<u32>), LexFault>
    requires { length text.now ≤ MAX_TEXT }
    ensures ok { IfOk result (λ r. Lexes 0 text.now [] r.0.items r.1.items) }
    ensures err { IfErr result (IsLexFault text.now) }
{
    let tokens = tokens(alloc, text)?;
    let places = places(alloc, text)?;
    Ok((tokens, places))
}

/// States that a text has at most one list of tokens, at one list of places. It has none if it is refused, which it is for one reason at
/// one place. A law: it computes nothing.
pub fn one_lexing()
    ensures once { (text : List ℕ) (ts us : List Token) (ks js : List ℕ) → Lexes 0 text [] ts ks → Lexes 0 text [] us js
        → (ts ≡ us) × (ks ≡ js) }
    ensures refused { (text : List ℕ) (r : Refusal) (k : ℕ) (ts : List Token) (ks : List ℕ) → LexStops 0 text [] r k → Lexes 0 text [] ts ks
        → ⊥ }
    ensures one_refusal { (text : List ℕ) (r q : Refusal) (k j : ℕ) → LexStops 0 text [] r k → LexStops 0 text [] q j → (r ≡ q) × (k ≡ j) }
{}
