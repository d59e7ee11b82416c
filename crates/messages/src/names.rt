//! The names that a text declares, up to a place: in a text that spells a program, as c_types has them.

use crate::source::{Source, after};
use c_tokens::Mark;
use std::alloc::{AllocError, Global};

/// Returns the names that are in sight at a token, by the tokens that declare them, the innermost last.
pub(crate) fn names_before(
    alloc: Global,
    source: &Source<'_>,
    end: usize,
) -> Result<Vec<usize>, AllocError> {
    let (mut names, mut scopes) = (Vec::new(alloc), Vec::new(alloc));
    for k in 0..end.min(source.count()) {
        // at file scope a function's parameters begin
        if source.is(k, Mark::LeftBrace) || (scopes.is_empty() && source.is(k, Mark::LeftParen)) {
            scopes.push(names.len())?;
        } else if source.is(k, Mark::RightBrace) {
            names.truncate(scopes.pop().unwrap_or(0));
            // a function's body ends with the scope of its parameters
            if scopes.len() == 1 {
                names.truncate(scopes.pop().unwrap_or(0));
            }
        } else if source.is_declared(k) {
            names.push(k)?;
        }
    }
    Ok(names)
}

/// Returns the function that is declared last before a token: at a place inside a function that one.
pub(crate) fn last_function(source: &Source<'_>, k: usize) -> Option<usize> {
    let is_function = |token: &usize| source.is_declared(*token)
        && source.is(after(*token, 1), Mark::LeftParen);
    (0..k).rev().find(is_function)
}
