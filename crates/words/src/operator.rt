//! The machine's operators on two words.
ghost use Rattle.std.specs.Prelude.{◌≡◌, ◌%◌, ◌^◌, ◌<◌, Option};
ghost use Rattle.words.specs.Operators.{value_of, slt, sltu, sra};

use crate::sign::Sign;

/// What an instruction computes from two words (Kane, MIPS RISC Architecture). The last eight are the
/// halves of a product and the parts of a division.
#[derive(Clone, Copy, Debug, PartialEq, Eq)]
pub enum Operator {
    /// The sum modulo 2^32.
    Addu,
    /// The difference modulo 2^32.
    Subu,
    And,
    Or,
    Xor,
    Nor,
    /// 1 where the first is less as a signed number, else 0.
    Slt,
    /// 1 where the first is less, else 0.
    Sltu,
    /// A shift to the left by the low five bits of the second.
    Sll,
    /// A shift to the right by the low five bits of the second.
    Srl,
    /// A shift to the right that keeps the sign.
    Sra,
    /// The upper half of the signed product.
    MultHigh,
    /// The lower half of the signed product.
    MultLow,
    /// The upper half of the unsigned product.
    MultuHigh,
    /// The lower half of the unsigned product.
    MultuLow,
    /// The signed quotient, toward zero.
    DivQuotient,
    /// The signed remainder.
    DivRemainder,
    /// The unsigned quotient.
    DivuQuotient,
    /// The unsigned remainder.
    DivuRemainder,
}

fn less(a: u32, b: u32) -> u32
    ensures { result ≡ slt a b }
{
    u32::from(a.cast_signed() < b.cast_signed())
}

fn less_unsigned(a: u32, b: u32) -> u32
    ensures { result ≡ sltu a b }
{
    u32::from(a < b)
}

pub(crate) fn shift_keeping_sign(a: u32, amount: u32) -> u32
    ensures { result ≡ sra a amount }
{
    let by = amount % 32;
    if a < 0x8000_0000 {
        a >> by
    } else {
        !(!a >> by)
    }
}

impl Operator {
    /// Returns the value at two words; None exactly for a division without one.
    #[inline(always)]
    pub fn value(self, a: u32, b: u32) -> Option<u32>
        ensures { result ≡ value_of self a b }
    {
        match self {
            Operator::Addu => Some(a.wrapping_add(b)),
            Operator::Subu => Some(a.wrapping_sub(b)),
            Operator::And => Some(a & b),
            Operator::Or => Some(a | b),
            Operator::Xor => Some(a ^ b),
            Operator::Nor => Some(!(a | b)),
            Operator::Slt => Some(less(a, b)),
            Operator::Sltu => Some(less_unsigned(a, b)),
            Operator::Sll => Some(a << (b % 32)),
            Operator::Srl => Some(a >> (b % 32)),
            Operator::Sra => Some(shift_keeping_sign(a, b)),
            Operator::MultHigh => Some((Sign::Signed.product(a, b) >> 32) as u32),
            Operator::MultLow => Some((Sign::Signed.product(a, b) % 0x1_0000_0000) as u32),
            Operator::MultuHigh => Some((Sign::Unsigned.product(a, b) >> 32) as u32),
            Operator::MultuLow => Some((Sign::Unsigned.product(a, b) % 0x1_0000_0000) as u32),
            Operator::DivQuotient => Sign::Signed.quotient(a, b),
            Operator::DivRemainder => Sign::Signed.remainder(a, b),
            Operator::DivuQuotient => Sign::Unsigned.quotient(a, b),
            Operator::DivuRemainder => Sign::Unsigned.remainder(a, b),
        }
    }
}
