//! The token in front, and what a reader of a part stops at.
ghost use Rattle.std.specs.Prelude.{◌≡◌, ◌∷◌, [], IfOk, IfErr, IfSome, IfNone};
ghost use Rattle.c_front.specs.Parsing.{IsMissing, StartsWith, StartsWithout, StartsWithName, IsNameMissing, StartsWithConstant};
ghost use Rattle.c_front.specs.Parsing.{IsConstantMissing};
ghost use Rattle.c_front.specs.Parsing.{StartsBytes, StartsNoBytes};

use c_tokens::{Identifier, Literal, Mark, Token};
use std::alloc::{AllocError, AllocFailed};

/// Why parsing stopped: the tokens from the first wrong one on, or lack of memory.
#[derive(Clone, Copy)]
pub enum ParseStop<'a> {
    Syntax(&'a [Token]),
    NoMemory,
}

/// A part that was read, with the tokens after it, or why parsing stopped.
pub type Parsed<'a, T> = Result<(T, &'a [Token]), ParseStop<'a>>;

impl<'a, T: Drop> From<AllocFailed<T>> for ParseStop<'a> {
    ghost use Rattle.c_front.specs.declared.cursor.ParseStop.TheVariants.{NoMemory};

    ghost from_gives = { λ _ r. r ≡ NoMemory };

    fn from(_: AllocFailed<T>) -> Self {
        ParseStop::NoMemory
    }
}

/// Returns the first token, and the tokens after it.
pub fn split<'a>(tokens: &'a [Token]) -> Option<(Token, &'a [Token])>
    ensures none { IfNone result (tokens.now ≡ []) }
    ensures some { IfSome result (λ r. tokens.now ≡ r.0 ∷ r.1.now) }
{
    if tokens.is_empty() {
        return None;
    }
    Some((tokens[0], &tokens[1..]))
}

/// Returns the tokens after a mark that has to stand here.
pub fn expect<'a>(tokens: &'a [Token], wanted: Mark) -> Result<&'a [Token], ParseStop<'a>>
    ensures ok { IfOk result (λ rest. StartsWith wanted tokens.now rest.now) }
    ensures err { IfErr result (IsMissing wanted tokens.now) }
{
    match split(tokens) {
        Some((Token::The(mark), rest)) => {
            if mark == wanted {
                Ok(rest)
            } else {
                Err(ParseStop::Syntax(tokens))
            }
        }
        _ => Err(ParseStop::Syntax(tokens)),
    }
}

/// Returns the tokens after a mark, if it stands here.
pub fn starts<'a>(tokens: &'a [Token], wanted: Mark) -> Option<&'a [Token]>
    ensures none { IfNone result (StartsWithout wanted tokens.now) }
    ensures some { IfSome result (λ after. StartsWith wanted tokens.now after.now) }
{
    expect(tokens, wanted).ok()
}

/// Returns the tokens after `unsigned char`, if these two stand here.
pub fn starts_bytes<'a>(tokens: &'a [Token]) -> Option<&'a [Token]>
    ensures none { IfNone result (StartsNoBytes tokens.now) }
    ensures some { IfSome result (λ after. StartsBytes tokens.now after.now) }
{
    let rest = starts(tokens, Mark::Unsigned)?;
    let after = starts(rest, Mark::Char)?;
    Some(after)
}

/// Returns the name that has to stand here, and the tokens after it.
pub fn name<'a>(tokens: &'a [Token]) -> Parsed<'a, Identifier>
    ensures ok { IfOk result (λ r. StartsWithName tokens.now r.0 r.1.now) }
    ensures err { IfErr result (IsNameMissing tokens.now) }
{
    match split(tokens) {
        Some((Token::Name(name), rest)) => Ok((name, rest)),
        _ => Err(ParseStop::Syntax(tokens)),
    }
}

/// Returns the constant that has to stand here, and the tokens after it.
pub fn literal<'a>(tokens: &'a [Token]) -> Parsed<'a, Literal>
    ensures ok { IfOk result (λ r. StartsWithConstant tokens.now r.0 r.1.now) }
    ensures err { IfErr result (IsConstantMissing tokens.now) }
{
    match split(tokens) {
        Some((Token::Constant(literal), rest)) => Ok((literal, rest)),
        _ => Err(ParseStop::Syntax(tokens)),
    }
}
