//! Signed or unsigned: how products, quotients and comparisons read words.
ghost use Rattle.std.specs.Prelude.{◌≡◌, Option, ◌*ℤ◌};
ghost use Rattle.words.specs.Operators.{has_quotient, quotient_of, remainder_of, product};

/// How words are read: as two's complement (MULT, DIV) or as they are (MULTU, DIVU).
#[derive(Clone, Copy, Debug, PartialEq, Eq)]
pub enum Sign {
    Signed,
    Unsigned,
}

fn signed_product(a: i32, b: i32) -> i64
    ensures { result ≡ a *ℤ b }
{
    i64::from(a) * i64::from(b)
}

impl Sign {
    /// Reports whether the division of `a` by `b` has a value: not by 0, and signed not -2147483648 by -1.
    pub fn has_quotient(self, a: u32, b: u32) -> bool
        ensures { result ≡ has_quotient self a b }
    {
        match self {
            Sign::Signed => b != 0 && !(a == 0x8000_0000 && b == 0xffff_ffff),
            Sign::Unsigned => b != 0,
        }
    }

    /// Returns the 64 bits of a product.
    pub fn product(self, a: u32, b: u32) -> u64
        ensures { result ≡ product self a b }
    {
        match self {
            Sign::Signed => signed_product(a.cast_signed(), b.cast_signed()).cast_unsigned(),
            Sign::Unsigned => u64::from(a) * u64::from(b),
        }
    }

    /// Returns the quotient, toward zero, if there is one.
    pub fn quotient(self, a: u32, b: u32) -> Option<u32>
        ensures { result ≡ quotient_of self a b }
    {
        if !self.has_quotient(a, b) {
            return None;
        }
        match self {
            Sign::Signed => Some((a.cast_signed() / b.cast_signed()).cast_unsigned()),
            Sign::Unsigned => Some(a / b),
        }
    }

    /// Returns the remainder, with the sign of `a`, if there is one.
    pub fn remainder(self, a: u32, b: u32) -> Option<u32>
        ensures { result ≡ remainder_of self a b }
    {
        if !self.has_quotient(a, b) {
            return None;
        }
        match self {
            Sign::Signed => Some((a.cast_signed() % b.cast_signed()).cast_unsigned()),
            Sign::Unsigned => Some(a % b),
        }
    }
}
