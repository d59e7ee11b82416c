//! Constants, their value and their type (C99 6.4.4.1).
ghost use Rattle.std.specs.Prelude.{◌≡◌, ◌<◌, ◌≤◌, ◌^◌, length, take, false, IfSome};
ghost use Rattle.c_tokens.specs.Digits.{constant_type, constant_lexeme, digit_of, digits_of, up_to, is_suffix, plain_of, digits_in};
ghost use Rattle.c_tokens.specs.Digits.{last_or, greatest_of};
ghost use Rattle.c_tokens.specs.Fronts.{run_length, SpellsSoFar};
ghost use Rattle.c_tokens.specs.Texts.{Fits};

use crate::lexer::Lexeme;
use crate::scan::{is_digit, run_ends, run_length, split};
use crate::token::{IntegerType, Literal};

/// Returns a constant.
pub fn constant(text: &[u8]) -> Lexeme
    requires { 0 < run_length false text.now }
    ensures same { result ≡ constant_lexeme (take (run_length false text.now) text.now) }
    ensures fits { Fits result (length text.now) }
{
    match decimal(text) {
        Some(lexeme) => lexeme,
        None => constant_of(&text[..run_length(text)]),
    }
}

/// Returns the constant of at most nine decimal digits that stands at the front, if it is known to be one. Most constants are such.
fn decimal(text: &[u8]) -> Option<Lexeme>
    ensures same { IfSome result (λ lexeme. lexeme ≡ constant_lexeme (take (run_length false text.now) text.now)) }
    ensures fits { IfSome result (λ lexeme. Fits lexeme (length text.now)) }
{
    let (value, n) = first_digits(text);
    if n == 0 || text[0] == b'0' {
        return None;
    }
    let (integer_type, end) = if n < text.len() && is_suffix(text[n]) {
        (IntegerType::UnsignedInt, n + 1)
    } else {
        (IntegerType::SignedInt, n)
    };
    if !run_ends(text, end) {
        return None;
    }
    Some(Lexeme::Numeral(
        Literal {
            value,
            integer_type,
        },
        end,
    ))
}

/// Returns the number that the first digits spell, as far as it is below 10^9, and how many digits that are.
fn first_digits(text: &[u8]) -> (u32, usize)
    ensures spells { SpellsSoFar text.now result.1 result.0 }
    ensures low { result.0 < 10 ^ 9 }
{
    let mut value: u32 = 0;
    let mut n: usize = 0;
    'digits: while n < text.len() {
        let byte = text[n];
        if value >= 100_000_000 || !is_digit(byte) {
            return (value, n);
        }
        value = value * 10 + (byte - b'0') as u32;
        n += 1;
    }
    (value, n)
}

/// Returns the constant that a run is.
fn constant_of(run: &[u8]) -> Lexeme
    requires { 0 < length run.now }
    ensures same { result ≡ constant_lexeme run.now }
    ensures fits { Fits result (length run.now) }
{
    match plain(greatest(run), digits(run)) {
        Some(value) => Lexeme::Numeral(
            Literal {
                value,
                integer_type: constant_type(run, value),
            },
            run.len(),
        ),
        None => Lexeme::NoConstant,
    }
}

fn constant_type(run: &[u8], value: u32) -> IntegerType
    requires { 0 < length run.now }
    ensures { result ≡ constant_type run.now value }
{
    if is_suffixed(run) || value > 2147483647 {
        IntegerType::UnsignedInt
    } else {
        IntegerType::SignedInt
    }
}

fn is_suffixed(run: &[u8]) -> bool
    requires { 0 < length run.now }
    ensures { result ≡ is_suffix (last_or 0 run.now) }
{
    is_suffix(run[run.len() - 1])
}

fn is_suffix(byte: u8) -> bool
    ensures { result ≡ is_suffix byte }
{
    byte == b'u' || byte == b'U'
}

fn greatest(run: &[u8]) -> u64
    requires { 0 < length run.now }
    ensures same { result ≡ greatest_of run.now }
    ensures bound { result < 2 ^ 32 }
{
    if is_suffixed(run) || run[0] == b'0' {
        4294967295
    } else {
        2147483647
    }
}

fn digits(run: &[u8]) -> &[u8]
    requires { 0 < length run.now }
    ensures { result.now ≡ digits_in run.now }
{
    if is_suffixed(run) {
        &run[..run.len() - 1]
    } else {
        run
    }
}

/// Returns the value of a constant without suffix, if it is no greater than `limit`.
fn plain(limit: u64, run: &[u8]) -> Option<u32>
    requires { limit < 2 ^ 32 }
    ensures { result ≡ up_to limit (plain_of run.now) }
{
    let (first, more) = split(run)?;
    if first != b'0' {
        return Some(number(10, limit, run)? as u32);
    }
    let Some((second, digits)) = split(more) else {
        return Some(0);
    };
    if (second == b'x' || second == b'X') && !digits.is_empty() {
        return Some(number(16, limit, digits)? as u32);
    }
    Some(number(8, limit, more)? as u32)
}

/// Returns the number that digits spell, if it is no greater than `limit`.
fn number(base: u64, limit: u64, digits: &[u8]) -> Option<u64>
    requires low { base ≤ 16 }
    requires positive { 0 < base }
    requires bound { limit < 2 ^ 32 }
    ensures { result ≡ up_to limit (digits_of base 0 digits.now) }
{
    let mut n: u64 = 0;
    let mut rest = digits;
    'digits: loop {
        match split(rest) {
            None => return Some(n),
            Some((byte, next)) => {
                let value = digit(byte);
                if value >= base {
                    return None;
                }
                n = n * base + value;
                if n > limit {
                    return None;
                }
                rest = next;
            }
        }
    }
}

/// Returns the value of a digit, or 99.
fn digit(byte: u8) -> u64
    ensures same { result ≡ digit_of byte }
    ensures low { result < 100 }
{
    if is_digit(byte) {
        return (byte - b'0') as u64;
    }
    if b'a' <= byte && byte <= b'f' {
        return (byte - b'a') as u64 + 10;
    }
    if b'A' <= byte && byte <= b'F' {
        return (byte - b'A') as u64 + 10;
    }
    99
}
