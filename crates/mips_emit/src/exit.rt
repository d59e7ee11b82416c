//! What stands before an exit.

#![tactic(auto, using(crate::proofs::Prefixes::prefix_behind, crate::proofs::Prefixes::prefix_among, crate::proofs::Prefixes::emits_behind))]

ghost use Rattle.std.specs.Prelude.{◌≤◌, length};
ghost use Rattle.mips_homes.specs.declared.convention.TheConstants.{FIRST_ARGUMENT};
ghost use Rattle.mips_emit.specs.Frames.{IsReachable};
ghost use Rattle.mips_emit.specs.Locations.{facts_of, locations, last_operand};
ghost use Rattle.mips_emit.specs.Code.{arrive, carry, arguments_code};
ghost use Rattle.mips_emit.specs.Prefixes.{Emits};

use crate::constant::emit_store_word;
use crate::facts::{Knowledge, last_operand};
use crate::location::{Source, locate};
use crate::transfer::emit_carry;
use mips_homes::{FIRST_ARGUMENT, Frame, Home, register};
use mips_isa::{NonzeroReg, Plain};
use rtl::Register;
use std::alloc::AllocError;

/// Emits a register into a pseudo-register, as a parameter or a result is, but where it is there already; an Err means out of memory.
pub fn emit_arrival(
    code: &mut Vec<Plain>,
    frame: &Frame,
    t: NonzeroReg,
    x: Register,
) -> Result<(), AllocError>
    requires { IsReachable frame.now }
    ensures { Emits result code.old.items (arrive (locations frame.now x) t) code.new.items }
{
    let from = Source::InRegister(t);
    let place = &locate(frame, x);
    match *place {
        None => Ok(()),
        Some(Home::Reg(r)) => emit_carry(code, r, &from),
        Some(Home::Slot(k)) => emit_store_word(code, t.reg(), 4 * k),
        Some(Home::Copied(r, k)) => {
            emit_carry(code, r, &from)?;
            emit_store_word(code, r.reg(), 4 * k)
        }
    }
}

/// Emits a pseudo-register into a register of its own, after the last instruction; an Err means out of memory.
pub fn emit_departure(
    code: &mut Vec<Plain>,
    facts: &Knowledge,
    fresh: Option<Register>,
    frame: &Frame,
    t: NonzeroReg,
    x: Register,
) -> Result<(), AllocError>
    requires { IsReachable frame.now }
    ensures { Emits result code.old.items
        (carry t (last_operand (locations frame.now) (facts_of facts.now) fresh x))
        code.new.items }
{
    emit_carry(code, t, &last_operand(facts, fresh, frame, x))
}

/// Emits arguments into the registers of arguments; an Err means out of memory.
pub fn emit_arguments(
    code: &mut Vec<Plain>,
    facts: &Knowledge,
    frame: &Frame,
    arguments: &[Register],
) -> Result<(), AllocError>
    requires frame { IsReachable frame.now }
    requires few { length arguments.now ≤ 4 }
    ensures { Emits result code.old.items
        (arguments_code (locations frame.now) (facts_of facts.now) FIRST_ARGUMENT arguments.now)
        code.new.items }
{
    let mut t: u8 = FIRST_ARGUMENT;
    for x in arguments {
        emit_departure(code, facts, None, frame, register(t), *x)?;
        t += 1;
    }
    Ok(())
}
