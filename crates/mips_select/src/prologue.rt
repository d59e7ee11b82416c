//! What functions begin and end with.

ghost use Rattle.std.specs.Prelude.{◌≡◌, ℕ, ◌+◌, ◌*◌, ◌<◌, ◌≤◌, ◌++◌, ◌∷◌, [], length, OnOk, Some, slice_get};
ghost use Rattle.mips_isa.specs.declared.inst.ImmOp.TheVariants.{Addiu};
ghost use Rattle.mips_isa.specs.declared.inst.Plain.TheVariants.{Imm};
ghost use Rattle.mips_homes.specs.declared.convention.TheConstants.{FIRST_ARGUMENT};
ghost use Rattle.mips_homes.specs.Convention.{IsCalleeSaved};
ghost use Rattle.mips_emit.specs.declared.limits.TheConstants.{FRAME_BYTES};
ghost use Rattle.mips_emit.specs.Frames.{IsReachable};
ghost use Rattle.mips_emit.specs.Locations.{locations};
ghost use Rattle.mips_select.specs.Code.{frame_word, frame_words, frame_bytes, frame_link, step_of, stack_step, parameters_code, prologue};
ghost use Rattle.mips_select.specs.Code.{epilogue};

use mips_emit::{emit_arrival, emit_load_word, emit_store_word};
use mips_homes::{FIRST_ARGUMENT, Frame, LINK, STACK_POINTER, register};
use mips_isa::{ImmOp, NonzeroReg, Plain, Reg};
use std::alloc::AllocError;

/// Says in which direction words go between registers and the frame.
#[derive(Clone, Copy)]
pub(crate) enum Direction {
    Save,
    Restore,
}

/// Emits a register into a word of the frame, or back.
fn emit_word(
    code: &mut Vec<Plain>,
    direction: Direction,
    r: NonzeroReg,
    place: u32,
) -> Result<(), AllocError>
    requires { place ≤ FRAME_BYTES }
    ensures { OnOk result (code.new.items ≡ code.old.items ++ frame_word direction r place ∷ []) }
{
    match direction {
        Direction::Save => emit_store_word(code, r.reg(), place),
        Direction::Restore => emit_load_word(code, r, place),
    }
}

/// Emits registers into the frame from an offset on, or back.
fn emit_words(
    code: &mut Vec<Plain>,
    direction: Direction,
    at: u32,
    registers: &[u8],
) -> Result<(), AllocError>
    requires fits { at + 4 * length registers.now ≤ FRAME_BYTES }
    requires registers { (j r : ℕ) → slice_get registers.now j ≡ Some r → IsCalleeSaved r }
    ensures { OnOk result (code.new.items ≡ code.old.items ++ frame_words direction at registers.now) }
{
    let mut place = at;
    for r in registers {
        emit_word(code, direction, register(*r), place)?;
        place += 4;
    }
    Ok(())
}

/// Returns how many bytes a frame takes.
fn size_of_frame(frame: &Frame, leaf: bool) -> u32
    requires { IsReachable frame.now }
    ensures size { result ≡ frame_bytes leaf frame.now }
    ensures small { result ≤ FRAME_BYTES }
{
    let link = if leaf { 0 } else { 1 };
    4 * (frame.slots + frame.saved.len() as u32 + link)
}

/// Returns how far the stack pointer goes.
fn step_of(direction: Direction, size: u32) -> i16
    requires some { 0 < size }
    requires few { size ≤ FRAME_BYTES }
    ensures { result ≡ step_of direction size }
{
    match direction {
        Direction::Save => -1 - (size - 1) as i16,
        Direction::Restore => size as i16,
    }
}

/// Emits the step of the stack pointer, down or up again, if the frame takes anything.
fn emit_step(code: &mut Vec<Plain>, direction: Direction, size: u32) -> Result<(), AllocError>
    requires { size ≤ FRAME_BYTES }
    ensures { OnOk result (code.new.items ≡ code.old.items ++ stack_step direction size) }
{
    if size != 0 {
        code.push(Plain::Imm {
            op: ImmOp::Addiu,
            rt: Reg::masked(STACK_POINTER),
            rs: Reg::masked(STACK_POINTER),
            imm: step_of(direction, size),
        })?;
    }
    Ok(())
}

/// Emits the link into the frame or back, except in a leaf.
fn emit_link(
    code: &mut Vec<Plain>,
    direction: Direction,
    frame: &Frame,
    leaf: bool,
) -> Result<(), AllocError>
    requires { IsReachable frame.now }
    ensures { OnOk result (code.new.items ≡ code.old.items ++ frame_link direction leaf frame.now) }
{
    if leaf {
        return Ok(());
    }
    let place = 4 * frame.slots + 4 * frame.saved.len() as u32;
    emit_word(code, direction, register(LINK), place)
}

/// Emits parameters into their homes.
fn emit_parameters(code: &mut Vec<Plain>, frame: &Frame, n: u32) -> Result<(), AllocError>
    requires frame { IsReachable frame.now }
    requires few { n ≤ 4 }
    ensures { OnOk result (code.new.items ≡ code.old.items ++ parameters_code (locations frame.now) FIRST_ARGUMENT 0 n) }
{
    for x in 0..n {
        emit_arrival(code, frame, register(FIRST_ARGUMENT + x as u8), x)?;
    }
    Ok(())
}

/// Emits what a function begins with: its frame, what it saves, and its parameters in their homes.
pub(crate) fn emit_prologue(
    code: &mut Vec<Plain>,
    frame: &Frame,
    leaf: bool,
    parameters: u32,
) -> Result<(), AllocError>
    requires frame { IsReachable frame.now }
    requires few { parameters ≤ 4 }
    ensures { OnOk result (code.new.items ≡ code.old.items ++ prologue leaf frame.now parameters) }
{
    let size = size_of_frame(frame, leaf);
    emit_step(code, Direction::Save, size)?;
    emit_words(
        code,
        Direction::Save,
        4 * frame.slots,
        frame.saved.as_slice(),
    )?;
    emit_link(code, Direction::Save, frame, leaf)?;
    emit_parameters(code, frame, parameters)
}

/// Emits what a function ends with: what it saved comes back, and its frame goes.
pub(crate) fn emit_epilogue(
    code: &mut Vec<Plain>,
    frame: &Frame,
    leaf: bool,
) -> Result<(), AllocError>
    requires { IsReachable frame.now }
    ensures { OnOk result (code.new.items ≡ code.old.items ++ epilogue leaf frame.now) }
{
    let size = size_of_frame(frame, leaf);
    emit_words(
        code,
        Direction::Restore,
        4 * frame.slots,
        frame.saved.as_slice(),
    )?;
    emit_link(code, Direction::Restore, frame, leaf)?;
    emit_step(code, Direction::Restore, size)
}
