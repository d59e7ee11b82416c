//! Indices that are the sum of a register and a known word.

ghost use Rattle.std.specs.Prelude.{◌≡◌};
ghost use Rattle.mips_emit.specs.Offsets.{addend, sum_offset, touches, index_with};

use crate::location::Source;
use mips_homes::Home;
use mips_isa::NonzeroReg;
use rtl::Op;

/// A register that holds what another one holds and a word more; a register alone is itself and 0.
#[derive(Clone, Copy)]
pub struct Offset {
    pub register: NonzeroReg,
    pub base: NonzeroReg,
    pub word: u32,
}

/// Returns the word that an operator with a known word on the right adds.
pub(crate) fn addend(op: Op, word: u32) -> Option<u32>
    ensures { result ≡ addend op word }
{
    match op {
        Op::Add => Some(word),
        Op::Sub => Some(word.wrapping_neg()),
        _ => None,
    }
}

/// Returns what an operator on an operand and what is known of the right one leaves in a home: a register that is another one and a word.
pub(crate) fn sum_offset(
    place: &Option<Home>,
    op: Op,
    right: Option<u32>,
    x: &Source,
) -> Option<Offset>
    ensures { result ≡ sum_offset place.now op right x.now }
{
    let Home::Reg(register) = (*place)? else {
        return None;
    };
    let Source::InRegister(base) = *x else {
        return None;
    };
    let word = addend(op, right?)?;
    if base == register {
        return None;
    }
    Some(Offset {
        register,
        base,
        word,
    })
}

/// Says whether a write of a home changes a register that an offset has to do with.
pub(crate) fn touches(offset: &Offset, place: &Option<Home>) -> bool
    ensures { result ≡ touches offset.now place.now }
{
    matches!(*place, Some(Home::Reg(r) | Home::Copied(r, _)) if offset.register == r || offset.base == r)
}

/// Returns an index, from its register.
pub(crate) fn index_with(offset: &Option<Offset>, register: Option<NonzeroReg>) -> Option<Offset>
    ensures { result ≡ index_with offset.now register }
{
    let register = register?;
    match offset {
        Some(o) if o.register == register => *offset,
        _ => Some(Offset {
            register,
            base: register,
            word: 0,
        }),
    }
}
