//! What C's operators on `int` and `unsigned int` make of two words (C99 6.5).
ghost use Rattle.std.specs.Prelude.{◌≡◌, Option};
ghost use Rattle.words.specs.C.{sum_of, difference_of, times_of, negation_of, left_shift_of, right_shift_of, is_below};

use crate::operator::shift_keeping_sign;
use crate::sign::Sign;

/// C's operators on words of the types `int` (signed) and `unsigned int`. None is what C leaves undefined.
impl Sign {
    /// Returns `a + b`: None if an `int` can't have the sum; unsigned modulo 2^32.
    pub fn sum(self, a: u32, b: u32) -> Option<u32>
        ensures { result ≡ sum_of self a b }
    {
        match self {
            Sign::Signed => {
                let sum = a.cast_signed().checked_add(b.cast_signed())?;
                Some(sum.cast_unsigned())
            }
            Sign::Unsigned => Some(a.wrapping_add(b)),
        }
    }

    /// Returns `a - b`: None if an `int` can't have the difference; unsigned modulo 2^32.
    pub fn difference(self, a: u32, b: u32) -> Option<u32>
        ensures { result ≡ difference_of self a b }
    {
        match self {
            Sign::Signed => {
                let difference = a.cast_signed().checked_sub(b.cast_signed())?;
                Some(difference.cast_unsigned())
            }
            Sign::Unsigned => Some(a.wrapping_sub(b)),
        }
    }

    /// Returns `a * b`: None if an `int` can't have the product; unsigned modulo 2^32.
    pub fn times(self, a: u32, b: u32) -> Option<u32>
        ensures { result ≡ times_of self a b }
    {
        match self {
            Sign::Signed => {
                let product = a.cast_signed().checked_mul(b.cast_signed())?;
                Some(product.cast_unsigned())
            }
            Sign::Unsigned => Some(a.wrapping_mul(b)),
        }
    }

    /// Returns `-a`: None for the least `int`; unsigned modulo 2^32.
    pub fn negation(self, a: u32) -> Option<u32>
        ensures { result ≡ negation_of self a }
    {
        match self {
            Sign::Signed => {
                let negation = a.cast_signed().checked_neg()?;
                Some(negation.cast_unsigned())
            }
            Sign::Unsigned => Some(0u32.wrapping_sub(a)),
        }
    }

    /// Returns `a << amount`. None if the amount, read as a word, is 32 or more, for a negative `int`, and if an `int` can't have the
    /// result. Unsigned results are modulo 2^32.
    pub fn left_shift(self, a: u32, amount: u32) -> Option<u32>
        ensures { result ≡ left_shift_of self a amount }
    {
        if amount >= 32 {
            return None;
        }
        match self {
            Sign::Signed => {
                let shifted = u64::from(a) << amount;
                if shifted < 0x8000_0000 {
                    Some(shifted as u32)
                } else {
                    None
                }
            }
            Sign::Unsigned => Some(a << amount),
        }
    }

    /// Returns `a >> amount`, keeping an `int`'s sign: None if the amount, read as a word, is 32 or more.
    pub fn right_shift(self, a: u32, amount: u32) -> Option<u32>
        ensures { result ≡ right_shift_of self a amount }
    {
        if amount >= 32 {
            return None;
        }
        match self {
            Sign::Signed => Some(shift_keeping_sign(a, amount)),
            Sign::Unsigned => Some(a >> amount),
        }
    }

    /// Reports whether `a < b`.
    pub fn is_below(self, a: u32, b: u32) -> bool
        ensures { result ≡ is_below self a b }
    {
        match self {
            Sign::Signed => a.cast_signed() < b.cast_signed(),
            Sign::Unsigned => a < b,
        }
    }
}
