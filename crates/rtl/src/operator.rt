//! Operators of RTL on two words.
ghost use Rattle.std.specs.Prelude.{◌≡◌, Option};
ghost use Rattle.rtl.specs.Operators.{op_result};

use words::{Operator, Sign};

/// An operator on two words. `S` reads them as signed numbers, `U` as they are.
#[derive(Clone, Copy)]
pub enum Op {
    /// The sum modulo 2^32.
    Add,
    /// The difference modulo 2^32.
    Sub,
    /// The product modulo 2^32.
    Mul,
    /// The signed quotient, toward zero.
    DivS,
    /// The unsigned quotient.
    DivU,
    /// The signed remainder, with the sign of the first.
    RemS,
    /// The unsigned remainder.
    RemU,
    And,
    Or,
    Xor,
    /// A shift to the left by the low five bits of the second, as in the next two.
    Shl,
    /// A shift to the right.
    ShrU,
    /// A shift to the right that keeps the sign.
    ShrS,
    /// 1 where they are equal, else 0; the tests below likewise.
    Eq,
    Ne,
    LtS,
    LtU,
    LeS,
    LeU,
}

impl Op {
    /// Returns the result at two words; None exactly for a division without one.
    pub fn result(self, x: u32, y: u32) -> Option<u32>
        ensures { result ≡ op_result self x y }
    {
        match self {
            Op::Add => Some(x.wrapping_add(y)),
            Op::Sub => Some(x.wrapping_sub(y)),
            Op::Mul => Some(x.wrapping_mul(y)),
            Op::DivS => Sign::Signed.quotient(x, y),
            Op::DivU => Sign::Unsigned.quotient(x, y),
            Op::RemS => Sign::Signed.remainder(x, y),
            Op::RemU => Sign::Unsigned.remainder(x, y),
            Op::And => Some(x & y),
            Op::Or => Some(x | y),
            Op::Xor => Some(x ^ y),
            Op::Shl => Some(x << (y % 32)),
            Op::ShrU => Some(x >> (y % 32)),
            Op::ShrS => Operator::Sra.value(x, y),
            Op::Eq => Some(u32::from(x == y)),
            Op::Ne => Some(u32::from(x != y)),
            Op::LtS => Some(u32::from(Sign::Signed.is_below(x, y))),
            Op::LtU => Some(u32::from(x < y)),
            Op::LeS => Some(u32::from(!Sign::Signed.is_below(y, x))),
            Op::LeU => Some(u32::from(x <= y)),
        }
    }
}
