//! A home for each pseudo-register.

ghost use Rattle.std.specs.Prelude.{◌≡◌, ◌≤◌, ◌^◌, length, IfOk, Some};
ghost use Rattle.mips_homes.specs.Choice.{IsChoice, AreChoices};
ghost use Rattle.mips_homes.specs.HomedRun.{remembering_run, homed_run};
ghost use Rattle.mips_homes.specs.Laws.{KeepsRtlRuns};
ghost use Rattle.mips_homes.specs.Best.{IsPlace, AreHomesOf, AreFirst};

use crate::best::best_eight;
use crate::convention::{FIRST_CALLEE_SAVED, register};
use crate::counts::uses;
use crate::homed::{Frame, Home, Homed};
use rtl::{RFunc, Rtl};
use std::alloc::{AllocError, Global};

/// Returns where x stands among the best.
fn rank_of(best: &[usize], x: usize) -> Option<usize>
    ensures { IsPlace best.now x result }
{
    for j in 0..best.len() {
        if best[j] == x {
            return Some(j);
        }
    }
    None
}

/// Returns the homes of the first n pseudo-registers, and how many slots they have.
fn homes_of(alloc: Global, best: &[usize], n: usize) -> Result<(Vec<Home>, usize), AllocError>
    requires few { length best.now ≤ 8 }
    requires small { n ≤ 2 ^ 32 }
    ensures { IfOk result (λ p. AreHomesOf best.now n p.0.items p.1) }
{
    let mut homes = Vec::new(alloc);
    let mut slots: usize = 0;
    for x in 0..n {
        match rank_of(best, x) {
            Some(j) => homes.push(Home::Reg(register(FIRST_CALLEE_SAVED + j as u8)))?,
            None => {
                homes.push(Home::Slot(slots as u32))?;
                slots += 1;
            }
        }
    }
    Ok((homes, slots))
}

/// Returns the first callee-saved registers.
fn first_registers(alloc: Global, count: usize) -> Result<Vec<u8>, AllocError>
    requires { count ≤ 8 }
    ensures { IfOk result (λ saved. AreFirst count saved.items) }
{
    let mut saved = Vec::new(alloc);
    for j in 0..count {
        saved.push(FIRST_CALLEE_SAVED + j as u8)?;
    }
    Ok(saved)
}

/// Returns the frame of a function: the eight pseudo-registers with most occurrences live in registers.
pub fn frame_of(alloc: Global, func: &RFunc) -> Result<Frame, AllocError>
    ensures choice { IfOk result (λ frame. IsChoice func.now frame) }
    ensures few { IfOk result (λ frame. length frame.homes.items ≤ 2 ^ 32) }
{
    let uses = uses(alloc, func)?;
    let best = best_eight(alloc, uses.as_slice())?;
    let (homes, slots) = homes_of(alloc, best.as_slice(), uses.len())?;
    let saved = first_registers(alloc, best.len())?;
    Ok(Frame {
        homes,
        saved,
        slots: slots as u32,
    })
}

/// Returns a home for each pseudo-register of a program.
pub fn homes<'a>(alloc: Global, rtl: &'a Rtl) -> Result<Homed<'a>, AllocError>
    ensures lent { IfOk result (λ h. h.rtl.now ≡ rtl.now) }
    ensures choices { IfOk result (λ h. AreChoices h) }
    ensures runs { IfOk result (λ h. KeepsRtlRuns remembering_run h) }
    ensures forgetting { IfOk result (λ h. KeepsRtlRuns homed_run h) }
{
    let mut frames = Vec::new(alloc);
    for func in rtl.functions() {
        let frame = frame_of(alloc, func)?;
        frames.push(frame)?;
    }
    Ok(Homed { rtl, frames })
}
