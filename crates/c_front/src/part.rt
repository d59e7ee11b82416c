//! What any part of a program is read with: the mark after it, a box, the part before it, and its place in a list.

ghost use Rattle.std.specs.Prelude.{◌≡◌, IfOk, IfErr, Ok, Err};
ghost use Rattle.c_front.specs.Ends.{IsEnded, IsJoined, IsPushed, IsUnended, StopsAs};

use crate::cursor::{ParseStop, Parsed, expect};
use c_tokens::{Mark, Token};
use std::alloc::{AllocError, AllocFailed, Global};

/// Returns the part, if the mark stands after it that has to.
pub fn expect_after<'a, T: Drop>(parsed: Parsed<'a, T>, closing: Mark) -> Parsed<'a, T>
    ensures ok { IfOk result (IsEnded parsed.entry closing) }
    ensures err { IfErr result (IsUnended parsed.entry closing) }
{
    let (part, close) = parsed?;
    let end = expect(close, closing)?;
    Ok((part, end))
}

/// Returns the part in a box.
pub fn box_part<'a, T: Drop>(alloc: Global, parsed: Parsed<'a, T>) -> Parsed<'a, Box<T>>
    ensures ok { IfOk result (λ r. parsed.entry ≡ Ok (r.0.value, r.1)) }
    ensures err { IfErr result (StopsAs parsed.entry) }
{
    let (part, end) = parsed?;
    Ok((Box::new(alloc, part)?, end))
}

/// Returns the part, with the one before it.
pub fn join_part<'a, S: Drop, T: Drop>(before: S, parsed: Parsed<'a, T>) -> Parsed<'a, (S, T)>
    ensures ok { IfOk result (IsJoined before parsed.entry) }
    ensures err { IfErr result (λ s. parsed.entry ≡ Err s) }
{
    let (part, end) = parsed?;
    Ok(((before, part), end))
}

/// Pushes the part at the end of a list, and the tokens after it.
pub fn push_part<'a, T: Drop>(
    all: &mut Vec<T>,
    parsed: Parsed<'a, T>,
) -> Result<&'a [Token], ParseStop<'a>>
    ensures ok { IfOk result (λ rest. IsPushed parsed.entry rest all.old.items all.new.items) }
    ensures err { IfErr result (StopsAs parsed.entry) }
{
    let (part, rest) = parsed?;
    all.push(part)?;
    Ok(rest)
}
