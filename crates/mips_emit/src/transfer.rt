//! Operands into registers, and results into homes.

#![tactic(auto, using(crate::proofs::Prefixes::prefix_behind, crate::proofs::Prefixes::prefix_among, crate::proofs::Prefixes::emits_behind))]

ghost use Rattle.std.specs.Prelude.{◌≡◌};
ghost use Rattle.mips_emit.specs.Locations.{FitsPlace, FitsSource};
ghost use Rattle.mips_emit.specs.Code.{fetch, operand_register, bring, carry, into, finish, put_at};
ghost use Rattle.mips_emit.specs.Prefixes.{Emits};

use crate::constant::{emit_li, emit_load_word, emit_move, emit_store_word};
use crate::location::{Source, inner_of};
use mips_homes::Home;
use mips_isa::{NonzeroReg, Plain, Reg};
use std::alloc::AllocError;

/// Emits what stands before an operand is used; an Err means out of memory.
pub fn emit_fetch(code: &mut Vec<Plain>, t: NonzeroReg, x: &Source) -> Result<(), AllocError>
    requires { FitsSource x.now }
    ensures { Emits result code.old.items (fetch t x.now) code.new.items }
{
    match *x {
        Source::Word(word) => emit_li(code, t.reg(), word),
        Source::InSlot(k) => emit_load_word(code, t, 4 * k),
        Source::Zero | Source::InRegister(_) => Ok(()),
    }
}

/// Returns the register that shows an operand then.
pub fn operand_register(t: NonzeroReg, x: &Source) -> Reg
    ensures { result ≡ operand_register t x.now }
{
    match *x {
        Source::Zero => Reg::ZERO,
        Source::Word(_) | Source::InSlot(_) => t.reg(),
        Source::InRegister(r) => r.reg(),
    }
}

/// Emits an operand into a register of its own; an Err means out of memory.
pub(crate) fn emit_bring(code: &mut Vec<Plain>, t: NonzeroReg, x: &Source) -> Result<(), AllocError>
    requires { FitsSource x.now }
    ensures { Emits result code.old.items (bring t x.now) code.new.items }
{
    match *x {
        Source::Zero => emit_move(code, t.reg(), Reg::ZERO),
        Source::InRegister(r) => emit_move(code, t.reg(), r.reg()),
        Source::Word(_) | Source::InSlot(_) => emit_fetch(code, t, x),
    }
}

/// Emits an operand into a register of its own, but where it is there already; an Err means out of memory.
pub(crate) fn emit_carry(code: &mut Vec<Plain>, t: NonzeroReg, x: &Source) -> Result<(), AllocError>
    requires { FitsSource x.now }
    ensures { Emits result code.old.items (carry t x.now) code.new.items }
{
    match *x {
        Source::InRegister(r) if r == t => Ok(()),
        _ => emit_bring(code, t, x),
    }
}

/// Returns the register into which a result is computed.
pub(crate) fn into_of(place: &Option<Home>) -> NonzeroReg
    ensures { result ≡ into place.now }
{
    match *place {
        Some(Home::Reg(r) | Home::Copied(r, _)) => r,
        None | Some(Home::Slot(_)) => inner_of(place),
    }
}

/// Emits what stands after a result.
#[inline(always)]
pub(crate) fn emit_finish(code: &mut Vec<Plain>, place: &Option<Home>) -> Result<(), AllocError>
    requires { FitsPlace place.now }
    ensures { Emits result code.old.items (finish place.now) code.new.items }
{
    match *place {
        None | Some(Home::Reg(_)) => Ok(()),
        Some(Home::Slot(k)) => emit_store_word(code, inner_of(place).reg(), 4 * k),
        Some(Home::Copied(r, k)) => emit_store_word(code, r.reg(), 4 * k),
    }
}

/// Emits an operand into a home; an Err means out of memory.
pub(crate) fn emit_put(
    code: &mut Vec<Plain>,
    place: &Option<Home>,
    x: &Source,
) -> Result<(), AllocError>
    requires place { FitsPlace place.now }
    requires source { FitsSource x.now }
    ensures { Emits result code.old.items (put_at place.now x.now) code.new.items }
{
    match *place {
        None => Ok(()),
        Some(Home::Reg(r)) => emit_bring(code, r, x),
        Some(Home::Slot(k)) => {
            let inner = inner_of(place);
            emit_fetch(code, inner, x)?;
            emit_store_word(code, operand_register(inner, x), 4 * k)
        }
        Some(Home::Copied(r, k)) => {
            emit_bring(code, r, x)?;
            emit_store_word(code, r.reg(), 4 * k)
        }
    }
}
