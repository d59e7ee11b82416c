//! The sizes that a list of tokens keeps within.
ghost use Rattle.c_tokens.specs.Numbers.{LimitsAreTheseNumbers};
ghost use Rattle.std.specs.Prelude.{◌≡◌, nat_eq, true, IfSome, IfNone, if◌then◌else◌};
ghost use Rattle.c_tokens.specs.declared.token.Token.TheVariants.{The};
ghost use Rattle.c_tokens.specs.declared.token.Mark.TheVariants.{LeftBrace, RightBrace};
ghost use Rattle.c_tokens.specs.Texts.{Within, Counted, Oversize, nests, is_plain};

use crate::token::{Mark, Token};

/// The most bytes that a text may have.
pub const MAX_TEXT: usize = 1_048_576;

/// The most tokens in a row with no `;`, `{` or `}`.
pub const MAX_RUN: usize = 1024;

/// The most braces that may be open.
pub const MAX_OPEN: usize = 128;

/// The most tokens `else` and `for` since no brace was open.
pub const MAX_NESTED: usize = 512;

/// How many tokens there are since the last `;`, `{` or `}`, open braces, and tokens `else` and `for` since no brace was open. Where none
/// is open, the last is 0.
#[derive(Clone, Copy)]
pub struct Sizes {
    pub run: usize,
    pub open: usize,
    pub nested: usize,
}

/// Returns how many `else` and `for` count for the next token, when `nested` of them stand since no brace was open.
fn carried(braces: usize, nested: usize) -> usize
    ensures { result ≡ (if nat_eq braces 0 then 0 else nested) }
{
    if braces == 0 { 0 } else { nested }
}

/// Returns the counts after `{`, or None if it goes past a size.
fn opened(sizes: Sizes) -> Option<Sizes>
    requires { Within sizes }
    ensures none { IfNone result (Oversize sizes (The LeftBrace)) }
    ensures some { IfSome result (λ new. Counted sizes (The LeftBrace) new) }
{
    let open = sizes.open + 1;
    if open > MAX_OPEN {
        return None;
    }
    Some(Sizes {
        run: 0,
        open,
        nested: sizes.nested,
    })
}

/// Returns the counts after `}`.
fn closed(sizes: Sizes) -> Sizes
    requires { Within sizes }
    ensures { Counted sizes (The RightBrace) result }
{
    let open = sizes.open.saturating_sub(1);
    Sizes {
        run: 0,
        open,
        nested: carried(open, sizes.nested),
    }
}

/// Returns the counts after `else` or `for`, or None if it goes past a size.
fn nested(sizes: Sizes) -> Option<Sizes>
    requires { Within sizes }
    ensures none { (t : Token) → nests t ≡ true → IfNone result (Oversize sizes t) }
    ensures some { (t : Token) → nests t ≡ true → IfSome result (λ new. Counted sizes t new) }
{
    let run = sizes.run + 1;
    let nested = sizes.nested + 1;
    if run > MAX_RUN || nested > MAX_NESTED {
        return None;
    }
    Some(Sizes {
        run,
        open: sizes.open,
        nested: carried(sizes.open, nested),
    })
}

/// Returns the counts after a token that only makes the run longer, or None if it goes past a size.
fn longer(sizes: Sizes) -> Option<Sizes>
    requires { Within sizes }
    ensures none { (t : Token) → is_plain t ≡ true → IfNone result (Oversize sizes t) }
    ensures some { (t : Token) → is_plain t ≡ true → IfSome result (λ new. Counted sizes t new) }
{
    let run = sizes.run + 1;
    if run > MAX_RUN {
        return None;
    }
    Some(Sizes {
        run,
        open: sizes.open,
        nested: sizes.nested,
    })
}

/// Returns the counts after one more token, or None if it goes past a size.
pub fn count(sizes: Sizes, token: &Token) -> Option<Sizes>
    requires { Within sizes }
    ensures none { IfNone result (Oversize sizes token.now) }
    ensures some { IfSome result (λ new. Counted sizes token.now new) }
{
    match token {
        Token::The(Mark::Semicolon) => Some(Sizes {
            run: 0,
            open: sizes.open,
            nested: sizes.nested,
        }),
        Token::The(Mark::LeftBrace) => opened(sizes),
        Token::The(Mark::RightBrace) => Some(closed(sizes)),
        Token::The(Mark::Else | Mark::For) => nested(sizes),
        _ => longer(sizes),
    }
}

/// States that each limit is the number that specs/Numbers.antt tells, so a change of one is a change there. A law: it computes nothing.
pub fn limits_are_these_numbers()
    ensures { LimitsAreTheseNumbers }
{}
