//! In which registers pseudo-registers are best, since arguments and parameters are passed there.

ghost use Rattle.std.specs.Prelude.{◌≡◌, ℕ, List, max, nat_eq, if◌then◌else◌, slice_index, IfOk, OnOk};
ghost use Rattle.rtl.specs.declared.block.RBlock.{RBlock};
ghost use Rattle.mips_homes.specs.Preferences.{reach_from, exit_reach, blocks_reach, register_of, preference};

use crate::convention::{FIRST_ARGUMENT, register};
use crate::counts::make_room;
use mips_isa::NonzeroReg;
use rtl::{RBlock, RExit, Register};
use std::alloc::{AllocError, Global};

/// Records that x is the last of so many arguments.
fn raise(reaches: &mut Vec<u64>, x: Register, arguments: u64) -> Result<(), AllocError>
    ensures { OnOk result ((y : ℕ)
        → slice_index reaches.new.items y ≡ max (slice_index reaches.old.items y) (if nat_eq y x then arguments else 0)) }
{
    make_room(reaches, x, 0)?;
    if reaches[x as usize] < arguments {
        reaches[x as usize] = arguments;
    }
    Ok(())
}

/// Records that these are arguments.
fn raise_all(reaches: &mut Vec<u64>, xs: &[Register]) -> Result<(), AllocError>
    ensures { OnOk result ((y : ℕ) → slice_index reaches.new.items y ≡ max (slice_index reaches.old.items y) (reach_from 0 xs.now y)) }
{
    for i in 0..xs.len() {
        raise(reaches, xs[i], i as u64 + 1)?;
    }
    Ok(())
}

/// Records what an exit passes on.
fn raise_at(reaches: &mut Vec<u64>, exit: &RExit) -> Result<(), AllocError>
    ensures { OnOk result ((y : ℕ) → slice_index reaches.new.items y ≡ max (slice_index reaches.old.items y) (exit_reach exit.now y)) }
{
    match exit {
        RExit::Call(_, xs, _, _) => raise_all(reaches, xs.as_slice()),
        RExit::Out(x, _) => raise(reaches, *x, 1),
        _ => Ok(()),
    }
}

/// Returns, for each pseudo-register, the last argument position (from 1) at which it is passed, or 0; an Err means out of memory.
pub(crate) fn reaches(alloc: Global, blocks: &[RBlock]) -> Result<Vec<u64>, AllocError>
    ensures { IfOk result (λ v. (x : ℕ) → slice_index v.items x ≡ blocks_reach blocks.now x) }
{
    let mut reaches = Vec::new(alloc);
    for block in blocks {
        raise_at(&mut reaches, &block.exit)?;
    }
    Ok(reaches)
}

/// Returns the register of the last of so many arguments.
fn register_of(arguments: u64) -> Option<NonzeroReg>
    ensures { result ≡ register_of arguments }
{
    if 0 < arguments && arguments < 5 {
        Some(register(FIRST_ARGUMENT - 1 + arguments as u8))
    } else {
        None
    }
}

/// Returns how many arguments there are up to the last that is x.
pub(crate) fn reach_of(reaches: &[u64], x: usize) -> u64
    ensures { result ≡ slice_index reaches.now x }
{
    reaches.get(x).copied().unwrap_or(0)
}

/// Returns the preference of a pseudo-register in a function with so many parameters.
pub(crate) fn preference(parameters: u32, reach: u64, x: u32) -> Option<NonzeroReg>
    ensures { (bs : List RBlock) → reach ≡ blocks_reach bs x → result ≡ preference parameters bs x }
{
    if x >= parameters {
        return register_of(reach);
    }
    if reach > x as u64 + 1 {
        return None;
    }
    register_of(x as u64 + 1)
}
