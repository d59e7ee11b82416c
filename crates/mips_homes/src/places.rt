//! Where pseudo-registers are put.

ghost use Rattle.std.specs.Prelude.{◌≡◌, ◌≤◌, ◌^◌, List, None, [], length, if◌then◌else◌, IfOk, OnOk};
ghost use Rattle.rtl.specs.declared.block.RBlock.{RBlock};
ghost use Rattle.mips_homes.specs.HomedRun.{is_in, homed_run};
ghost use Rattle.mips_homes.specs.Preferences.{preference};
ghost use Rattle.mips_homes.specs.Laws.{KeepsRtlRuns};
ghost use Rattle.mips_homes.specs.Locals.{is_local};
ghost use Rattle.mips_homes.specs.Places.{first_free, free_register, home_or, also, places_from, is_register, lives_in, still_saved};
ghost use Rattle.mips_homes.specs.Walks.{TellsLocals, TellsReaches};
ghost use Rattle.mips_homes.specs.Places.{is_slot, some_slot, IsPlaced, IsPlacedFor, ArePlaced};

use crate::convention::{TEMPORARIES, register};
use crate::copies::copied;
use crate::frames::frame_of;
use crate::homed::{Frame, Home, Homed};
use crate::locals::{Sight, is_local, sights};
use crate::preferences::{preference, reach_of, reaches};
use mips_isa::NonzeroReg;
use rtl::{RBlock, RFunc, Rtl};
use std::alloc::{AllocError, Global};

/// Reports whether a register is among these.
fn is_taken(taken: &[u8], r: u8) -> bool
    ensures { result ≡ is_in taken.now r }
{
    taken.iter().any(|q| r == *q)
}

/// Returns the first of these registers that isn't taken.
fn first_free(taken: &[u8], registers: &[u8]) -> Option<u8>
    ensures { result ≡ first_free taken.now registers.now }
{
    registers.iter().copied().find(|r| !is_taken(taken, *r))
}

/// Returns the register of a preference if that isn't taken, else the first free temporary.
fn free_register(taken: &[u8], preference: Option<NonzeroReg>) -> Option<NonzeroReg>
    ensures { result ≡ free_register taken.now preference }
{
    if let Some(r) = preference
        && !is_taken(taken, r.index())
    {
        return Some(r);
    }
    let r = first_free(taken, &TEMPORARIES)?;
    Some(register(r))
}

/// Returns the register of a pseudo-register, if it gets one.
fn register_for(local: bool, taken: &[u8], preference: Option<NonzeroReg>) -> Option<NonzeroReg>
    ensures { result ≡ (if local then free_register taken.now preference else None) }
{
    if local {
        free_register(taken, preference)
    } else {
        None
    }
}

/// Returns a home, or a register in its stead.
fn home_or(register: Option<NonzeroReg>, home: Home) -> Home
    ensures { result ≡ home_or register home }
{
    register.map_or(home, Home::Reg)
}

/// Adds one more register to those taken.
fn take(taken: &mut Vec<u8>, register: &Option<NonzeroReg>) -> Result<(), AllocError>
    ensures { OnOk result (taken.new.items ≡ also taken.old.items register.now) }
{
    if let Some(r) = register {
        taken.push(r.index())?;
    }
    Ok(())
}

/// Returns the homes, with those that are local by what was seen in temporaries.
fn places_by(
    alloc: Global,
    parameters: u32,
    sights: &[Sight],
    reaches: &[u64],
    homes: &[Home],
) -> Result<Vec<Home>, AllocError>
    requires { length homes.now ≤ 2 ^ 32 }
    ensures { IfOk result (λ hs. (bs : List RBlock) → TellsLocals sights.now bs → TellsReaches reaches.now bs
        → hs.items ≡ places_from (is_local bs) (preference parameters bs) 0 [] homes.now) }
{
    let mut taken = Vec::new(alloc);
    let mut out = Vec::new(alloc);
    for x in 0..homes.len() {
        let preference = preference(parameters, reach_of(reaches, x), x as u32);
        let register = register_for(is_local(sights, x), taken.as_slice(), preference);
        take(&mut taken, &register)?;
        out.push(home_or(register, homes[x]))?;
    }
    Ok(out)
}

/// Returns the homes, with local pseudo-registers in temporaries.
fn places(
    alloc: Global,
    parameters: u32,
    blocks: &[RBlock],
    homes: &[Home],
) -> Result<Vec<Home>, AllocError>
    requires { length homes.now ≤ 2 ^ 32 }
    ensures { IfOk result (λ hs. hs.items ≡ places_from (is_local blocks.now) (preference parameters blocks.now) 0 [] homes.now) }
{
    let sights = sights(alloc, blocks)?;
    let reaches = reaches(alloc, blocks)?;
    places_by(
        alloc,
        parameters,
        sights.as_slice(),
        reaches.as_slice(),
        homes,
    )
}

/// Reports whether a home is a register.
fn is_register(home: Home, r: u8) -> bool
    ensures { result ≡ is_register home r }
{
    matches!(home, Home::Reg(q) if q.index() == r)
}

/// Reports whether one lives in a register.
pub(crate) fn lives_in(homes: &[Home], r: u8) -> bool
    ensures { result ≡ lives_in homes.now r }
{
    homes.iter().any(|home| is_register(*home, r))
}

/// Returns the registers that are still homes.
fn still_saved(alloc: Global, homes: &[Home], saved: &[u8]) -> Result<Vec<u8>, AllocError>
    ensures { IfOk result (λ rs. rs.items ≡ still_saved homes.now saved.now) }
{
    saved
        .iter()
        .copied()
        .filter(|r| lives_in(homes, *r))
        .collect(alloc)
}

/// Reports whether a home is a slot, with or without a copy.
pub(crate) fn is_slot(home: Home) -> bool
    ensures { result ≡ is_slot home }
{
    !matches!(home, Home::Reg(_))
}

/// Reports whether one lives in a slot.
fn some_slot(homes: &[Home]) -> bool
    ensures { result ≡ some_slot homes.now }
{
    homes.iter().any(|home| is_slot(*home))
}

/// Returns the frame of a choice, with local pseudo-registers in temporaries.
fn frame_with_places(
    alloc: Global,
    parameters: u32,
    blocks: &[RBlock],
    choice: &Frame,
) -> Result<Frame, AllocError>
    requires { length choice.now.homes.items ≤ 2 ^ 32 }
    ensures { IfOk result (λ f. IsPlaced parameters blocks.now choice.now f) }
{
    let places = places(alloc, parameters, blocks, choice.homes.as_slice())?;
    let homes = copied(alloc, blocks, places)?;
    let saved = still_saved(alloc, homes.as_slice(), choice.saved.as_slice())?;
    let slots = if some_slot(homes.as_slice()) {
        choice.slots
    } else {
        0
    };
    Ok(Frame {
        homes,
        saved,
        slots,
    })
}

/// Returns the frame of a function.
fn placed_frame(alloc: Global, func: &RFunc) -> Result<Frame, AllocError>
    ensures { IfOk result (λ f. IsPlacedFor func.now f) }
{
    let choice = frame_of(alloc, func)?;
    frame_with_places(alloc, func.parameters, func.blocks.as_slice(), &choice)
}

/// Returns a place for each pseudo-register of a program: its home, or, if it is local to blocks, a temporary.
pub fn place<'a>(alloc: Global, rtl: &'a Rtl) -> Result<Homed<'a>, AllocError>
    ensures lent { IfOk result (λ h. h.rtl.now ≡ rtl.now) }
    ensures places { IfOk result (λ h. ArePlaced h) }
    ensures runs { IfOk result (λ h. KeepsRtlRuns homed_run h) }
{
    let mut frames = Vec::new(alloc);
    for func in rtl.functions() {
        let frame = placed_frame(alloc, func)?;
        frames.push(frame)?;
    }
    Ok(Homed { rtl, frames })
}
