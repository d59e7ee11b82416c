//! Words and bytes in hexadecimal digits, as listings show them.
ghost use Rattle.std.specs.Prelude.{Some};
ghost use Rattle.mips_isa.specs.Digits.{byte_text, word_text};
ghost use Rattle.mips_isa.specs.Texts.{half_text};

use std::fmt;

// 16 bits in four hexadecimal digits.
#[derive(Clone, Copy)]
struct HalfDigits(u16);

impl fmt::Display for HalfDigits {
    ghost output = { λ h. Some (half_text h.0) };

    fn fmt<W: fmt::Write>(&self, f: &mut fmt::Formatter<W>) -> fmt::Result {
        let first = self.0 / 0x1000 % 16;
        let second = self.0 / 0x100 % 16;
        let third = self.0 / 0x10 % 16;
        let last = self.0 % 16;
        write!(f, "{first:x}{second:x}{third:x}{last:x}")
    }
}

/// A word in eight.
#[derive(Clone, Copy)]
pub struct WordDigits(pub u32);

impl fmt::Display for WordDigits {
    ghost output = { λ w. Some (word_text w.0) };

    fn fmt<W: fmt::Write>(&self, f: &mut fmt::Formatter<W>) -> fmt::Result {
        let high = HalfDigits((self.0 / 0x1_0000) as u16);
        let low = HalfDigits((self.0 % 0x1_0000) as u16);
        write!(f, "{high}{low}")
    }
}

/// A byte in two.
#[derive(Clone, Copy)]
pub struct ByteDigits(pub u8);

impl fmt::Display for ByteDigits {
    ghost output = { λ b. Some (byte_text b.0) };

    fn fmt<W: fmt::Write>(&self, f: &mut fmt::Formatter<W>) -> fmt::Result {
        let first = self.0 / 16 % 16;
        let last = self.0 % 16;
        write!(f, "{first:x}{last:x}")
    }
}
