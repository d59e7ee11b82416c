//! Which tokens can stand where a text goes wrong.
//!
//! A fault of syntax lies at the first token with which the tokens so far begin no program. What stands before the declaration that is
//! open there doesn't matter. So a token can stand there exactly where that declaration up to the place, followed by the token, has no
//! fault at the token.

use crate::source::{Source, back, front};
use c_front::{FrontFaultKind, fault_of};
use c_tokens::Mark;
use std::alloc::{AllocError, Global};

/// The most bytes of a declaration up to a fault in which tokens are tried.
const LONGEST: usize = 16_384;

/// The most kinds of tokens that a message lists.
const MOST: usize = 4;

const STATEMENT: &str = "a statement";

const EXPRESSION: &str = "an expression";

const OPERATOR: &str = "an operator";

const TYPE: &str = "a type";

/// Tokens, as they are tried and as they are told, with what covers them: where that is told too, they aren't. What covers others
/// comes first, and is tried by a token that can stand exactly where all that it covers can.
const CANDIDATES: &[(&[u8], &str, &[&str])] = &[
    (b"if", STATEMENT, &[]),
    (b"!", EXPRESSION, &[]),
    (b"*", OPERATOR, &[]),
    (b"unsigned", TYPE, &[]),
    (b";", "';'", &[STATEMENT]),
    (b"{", "'{'", &[STATEMENT]),
    (b"x", "a name", &[STATEMENT, EXPRESSION]),
    (b"1", "a constant", &[EXPRESSION]),
    (b"(", "'('", &[EXPRESSION]),
    (b"-", "'-'", &[EXPRESSION, OPERATOR]),
    (b"int", "'int'", &[TYPE]),
    (b"void", "'void'", &[]),
    (b"char", "'char'", &[]),
    (b"else", "'else'", &[]),
    (b"=", "'='", &[]),
    (b",", "','", &[]),
    (b":", "':'", &[]),
    (b"[", "'['", &[]),
    (b")", "')'", &[]),
    (b"]", "']'", &[]),
    (b"}", "'}'", &[]),
];

/// Returns the bytes before a token from the beginning of the declaration that is open there.
fn open_declaration<'t>(source: &Source<'t>, k: usize) -> &'t [u8] {
    let (mut depth, mut start) = (0usize, 0usize);
    for token in 0..k.min(source.count()) {
        match source.mark(token) {
            Some(Mark::LeftBrace) => depth = depth.saturating_add(1),
            Some(Mark::RightBrace) => depth = depth.saturating_sub(1),
            _ => {}
        }
        if depth == 0 && source.is_one(token, &[Mark::RightBrace, Mark::Semicolon]) {
            start = source.at(token).saturating_add(1);
        }
    }
    back(front(source.text, source.at(k)), start)
}

/// Reports whether a token can stand after these bytes.
fn can_stand(alloc: Global, piece: &[u8], token: &[u8]) -> Result<bool, AllocError> {
    let mut text = Vec::from_slice(alloc, piece)?;
    text.push(b' ')?;
    let at = text.len();
    text.extend_from_slice(token)?;
    match fault_of(alloc, text.as_slice()) {
        None => Ok(true),
        Some(fault) if fault.kind == FrontFaultKind::NoMemory => Err(AllocError),
        Some(fault) => Ok(fault.kind == FrontFaultKind::Syntax && at < fault.at),
    }
}

/// Returns what can stand in a token's place; nothing where that is more than four things, or the declaration is long.
pub(crate) fn expected_words(
    alloc: Global,
    source: &Source<'_>,
    k: usize,
) -> Result<Vec<&'static str>, AllocError> {
    let piece = open_declaration(source, k);
    let mut all = Vec::new(alloc);
    if piece.len() > LONGEST {
        return Ok(all);
    }
    for (token, told, covers) in CANDIDATES {
        if !covers.iter().any(|word| all.contains(word)) && can_stand(alloc, piece, *token)? {
            all.push(*told)?;
        }
    }
    if all.len() > MOST {
        all.clear();
    }
    Ok(all)
}
