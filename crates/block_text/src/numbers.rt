//! Numbers and registers as texts.

ghost use Rattle.std.specs.Prelude.{◌<◌, ◌^◌, decimal, FitsSigned};
ghost use Rattle.std.specs.Fmt.{signed_decimal};
ghost use Rattle.std.specs.Int.{w16};
ghost use Rattle.mips_isa.specs.Texts.{register_text};

use crate::spelled::Spelled;
use itoa::Buffer;
use mblock::BlockNumber;
use mips_isa::{Amount, NonzeroReg, Reg};
use std::str;

/// A number in decimal, without leading zeros.
impl Spelled for u32 {
    ghost fits = { λ n. n < 2 ^ 32 };

    ghost spelling = { λ n. decimal n };

    fn read(text: &[u8]) -> Option<u32> {
        match str::from_utf8(text) {
            Err(_) => None,
            Ok(s) => match s.parse::<u32>() {
                Err(_) => None,
                Ok(n) => {
                    let mut buffer = Buffer::new();
                    if buffer.format(n).as_bytes() == text {
                        Some(n)
                    } else {
                        None
                    }
                }
            },
        }
    }
}

/// A number below 2^16.
impl Spelled for u16 {
    ghost fits = { λ n. n < 2 ^ 16 };

    ghost spelling = { λ n. decimal n };

    fn read(text: &[u8]) -> Option<u16> {
        let n = u32::read(text)?;
        u16::try_from(n).ok()
    }
}

/// A signed number, without leading zeros, `+` or `-0`.
impl Spelled for i16 {
    ghost fits = { λ n. FitsSigned w16 n };

    ghost spelling = { λ n. signed_decimal n };

    fn read(text: &[u8]) -> Option<i16> {
        match str::from_utf8(text) {
            Err(_) => None,
            Ok(s) => match s.parse::<i16>() {
                Err(_) => None,
                Ok(n) => {
                    let mut buffer = Buffer::new();
                    if buffer.format(n).as_bytes() == text {
                        Some(n)
                    } else {
                        None
                    }
                }
            },
        }
    }
}

/// A register by its number.
impl Spelled for Reg {
    ghost fits = { λ r. r < 32 };

    ghost spelling = { λ r. register_text r };

    fn read(text: &[u8]) -> Option<Reg> {
        let digits = text.strip_prefix(b"$")?;
        let n = u32::read(digits)?;
        if n >= 32 {
            return None;
        }
        Reg::new(n as u8)
    }
}

/// A register other than 0.
impl Spelled for NonzeroReg {
    ghost fits = { λ r. (0 < r) × (r < 32) };

    ghost spelling = { λ r. register_text r };

    fn read(text: &[u8]) -> Option<NonzeroReg> {
        let r = Reg::read(text)?;
        NonzeroReg::new(r.index())
    }
}

/// The amount of a shift.
impl Spelled for Amount {
    ghost fits = { λ n. n < 32 };

    ghost spelling = { λ n. decimal n };

    fn read(text: &[u8]) -> Option<Amount> {
        let n = u32::read(text)?;
        if n >= 32 {
            return None;
        }
        Amount::new(n as u8)
    }
}

/// The number of a block.
impl Spelled for BlockNumber {
    ghost fits = { λ n. n < 2 ^ 20 };

    ghost spelling = { λ n. decimal n };

    fn read(text: &[u8]) -> Option<BlockNumber> {
        BlockNumber::new(u32::read(text)?)
    }
}
