//! Copies of slots, in registers that a function without calls has to spare.

ghost use Rattle.std.specs.Prelude.{◌≡◌, ℕ, ◌<◌, Some, slice_get, IfOk};
ghost use Rattle.mips_homes.specs.Copies.{calls_none, is_leaf, is_slot, unused, with_copy, copied_onto, copied};

use crate::convention::{TEMPORARIES, register};
use crate::homed::Home;
use crate::places::{is_slot, lives_in};
use mips_isa::NonzeroReg;
use rtl::{RBlock, RExit};
use std::alloc::{AllocError, Global};

/// Reports whether an exit is no call.
fn calls_none(exit: &RExit) -> bool
    ensures { result ≡ calls_none exit.now }
{
    !matches!(exit, RExit::Call(_, _, _, _))
}

/// Reports whether a function calls none.
pub fn is_leaf(blocks: &[RBlock]) -> bool
    ensures { result ≡ is_leaf blocks.now }
{
    blocks.iter().all(|b| calls_none(&b.exit))
}

/// Returns those of some registers in which no pseudo-register lives.
fn unused(alloc: Global, homes: &[Home], registers: &[u8]) -> Result<Vec<u8>, AllocError>
    ensures { IfOk result (λ rs. rs.items ≡ unused homes.now registers.now) }
{
    registers
        .iter()
        .copied()
        .filter(|r| !lives_in(homes, *r))
        .collect(alloc)
}

/// Returns a register of a list.
fn register_at(registers: &[u8], n: usize) -> Option<NonzeroReg>
    requires { (j r : ℕ) → slice_get registers.now j ≡ Some r → (0 < r) × (r < 32) }
    ensures { result ≡ slice_get registers.now n }
{
    registers.get(n).copied().map(register)
}

/// Returns a home, with a copy in a register if it is a slot.
fn with_copy(home: Home, register: Option<NonzeroReg>) -> Home
    ensures { result ≡ with_copy home register }
{
    match (home, register) {
        (Home::Slot(k), Some(r)) => Home::Copied(r, k),
        _ => home,
    }
}

/// Returns homes, with copies of their slots in these registers as far as they go.
fn copied_onto(alloc: Global, homes: &[Home], free: &[u8]) -> Result<Vec<Home>, AllocError>
    requires { (j r : ℕ) → slice_get free.now j ≡ Some r → (0 < r) × (r < 32) }
    ensures { IfOk result (λ hs. hs.items ≡ copied_onto free.now homes.now) }
{
    let mut out = Vec::new(alloc);
    let mut used: usize = 0;
    for home in homes {
        out.push(with_copy(*home, register_at(free, used)))?;
        if is_slot(*home) {
            used += 1;
        }
    }
    Ok(out)
}

/// Returns the homes of a function, with copies of its slots unless it calls another.
pub(crate) fn copied(
    alloc: Global,
    blocks: &[RBlock],
    homes: Vec<Home>,
) -> Result<Vec<Home>, AllocError>
    ensures { IfOk result (λ hs. hs.items ≡ copied blocks.now homes.items) }
{
    if !is_leaf(blocks) {
        return Ok(homes);
    }
    let free = unused(alloc, homes.as_slice(), &TEMPORARIES)?;
    copied_onto(alloc, homes.as_slice(), free.as_slice())
}
