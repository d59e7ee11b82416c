//! Programs to units.

ghost use Rattle.std.specs.Prelude.{◌≡◌, ℕ, ◌+◌, ◌<◌, ◌≤◌, length, IfOk, IfErr};
ghost use Rattle.mblock.specs.declared.limits.TheConstants.{UNIT_BLOCKS};
ghost use Rattle.mips_homes.specs.Places.{ArePlaced};
ghost use Rattle.mips_select.specs.Data.{data_bytes};
ghost use Rattle.mips_select.specs.Emittable.{AreReachable};
ghost use Rattle.mips_select.specs.Heads.{AreNamed};
ghost use Rattle.mips_select.specs.Limits.{FramesFit};
ghost use Rattle.mips_select.specs.Whole.{functions_size, entries_from, owners_for, program_blocks, unit_for};
ghost use Rattle.mips_select.specs.Laws.{KeepsRuns, IsSelected, IsBeyond};

use crate::fault::SelectFault;
use crate::functions::{emit_end, emit_functions, emit_start};
use crate::globals::{globals_bytes, globals_starts};
use crate::heads::Naming;
use crate::limits::have_room;
use crate::long::LongBlock;
use crate::numbers::{Numbers, number_at, number_functions};
use crate::pieces::split_unit;
use crate::plan::{Emitter, Linkage};
use mblock::{BlockNumber, Unit};
use mips_emit::Knowledge;
use mips_homes::{Homed, place};
use rtl::Rtl;
use std::alloc::{AllocError, Global};

/// Emits the blocks for a program, of any length: `count` of them. Its functions begin at `entries`, and `namings` says
/// how their blocks are named.
fn emit_program(
    alloc: Global,
    homed: &Homed,
    entries: &[BlockNumber],
    namings: &[Vec<Naming>],
    count: usize,
) -> Result<Vec<LongBlock>, AllocError>
    requires choices { ArePlaced homed.now }
    requires frames { AreReachable homed.now.frames.items }
    requires entries { entries.now ≡ entries_from 2 (homed.now.rtl.now).functions }
    requires named { AreNamed namings.now (homed.now.rtl.now).functions }
    requires number { 2 + functions_size (homed.now.rtl.now).functions ≤ UNIT_BLOCKS }
    ensures { IfOk result (λ blocks. blocks.items ≡ program_blocks homed.now) }
{
    let globals = homed.rtl.globals();
    let functions = homed.rtl.functions();
    let frames = homed.frames.as_slice();
    let table = globals_starts(alloc, globals)?;
    let starts = table.as_slice();
    let linkage = Linkage {
        alloc,
        globals,
        starts,
        entries,
    };
    let mut out = Vec::with_capacity(alloc, count)?;
    emit_start(alloc, &mut out, number_at(entries, homed.rtl.main()))?;
    emit_end(alloc, &mut out)?;
    let facts = Knowledge::none(alloc)?;
    let mut emitter = Emitter { blocks: out, facts };
    emit_functions(&mut emitter, &linkage, namings, functions, frames)?;
    let Emitter { blocks, .. } = emitter;
    Ok(blocks)
}

/// Chooses the homes of a program, if each frame is within reach and `depth` of the largest ones have room.
pub(crate) fn homes_with_room<'a>(
    alloc: Global,
    rtl: &'a Rtl,
    depth: u32,
) -> Result<Homed<'a>, SelectFault>
    ensures lent { IfOk result (λ h. h.rtl.now ≡ rtl.now) }
    ensures places { IfOk result (λ h. ArePlaced h) }
    ensures frames { IfOk result (λ h. AreReachable h.frames.items) }
    ensures within { IfOk result (λ _. FramesFit rtl.now depth) }
    ensures limit { IfErr result (λ e. e ≡ SelectFault.Limit → (FramesFit rtl.now depth → IsBeyond rtl.now)) }
{
    let homed = place(alloc, rtl)?;
    if !have_room(homed.frames.as_slice(), depth) {
        return Err(SelectFault::Limit);
    }
    Ok(homed)
}

/// Has the blocks of a program, of any length, and their numbers.
#[derive(Drop)]
pub(crate) struct LongUnit {
    pub(crate) blocks: Vec<LongBlock>,
    pub(crate) numbers: Numbers,
}

/// Returns the blocks of a program whose homes are chosen, before long ones are cut.
pub(crate) fn long_unit(alloc: Global, homed: &Homed) -> Result<LongUnit, SelectFault>
    requires places { ArePlaced homed.now }
    requires frames { AreReachable homed.now.frames.items }
    ensures blocks { IfOk result (λ l. l.blocks.items ≡ program_blocks homed.now) }
    ensures owners { IfOk result (λ l. l.numbers.owners.items ≡ owners_for (homed.now.rtl.now).functions) }
    ensures namings { IfOk result (λ l. AreNamed l.numbers.namings.items (homed.now.rtl.now).functions) }
    ensures few { IfOk result (λ _. 2 + functions_size (homed.now.rtl.now).functions ≤ UNIT_BLOCKS) }
    ensures limit { IfErr result (λ e. e ≡ SelectFault.Limit → UNIT_BLOCKS < length (unit_for homed.now).blocks) }
{
    let numbers = number_functions(alloc, homed.rtl.functions())?;
    let entries = numbers.entries.as_slice();
    let count = numbers.owners.len();
    let blocks = emit_program(alloc, homed, entries, numbers.namings.as_slice(), count)?;
    Ok(LongUnit { blocks, numbers })
}

/// Makes the unit of a program over its homes, of its long blocks.
pub(crate) fn unit_of(alloc: Global, homed: &Homed, long: LongUnit) -> Result<Unit, SelectFault>
    requires places { ArePlaced homed.now }
    requires blocks { long.blocks.items ≡ program_blocks homed.now }
    requires owners { long.numbers.owners.items ≡ owners_for (homed.now.rtl.now).functions }
    ensures unit { IfOk result (λ u. u ≡ unit_for homed.now) }
    ensures runs { IfOk result (λ u. (depth : ℕ) → FramesFit homed.now.rtl.now depth → KeepsRuns homed.now.rtl.now depth u) }
    ensures limit { IfErr result (λ e. e ≡ SelectFault.Limit → UNIT_BLOCKS < length (unit_for homed.now).blocks) }
{
    let bytes = globals_bytes(alloc, homed.rtl.globals())?;
    split_unit(alloc, long.blocks, long.numbers.owners.as_slice(), bytes)
}

/// Makes the unit of a program, whose stack holds `depth` activations: wherever the program isn't wrong, the unit comes to the same end and
/// output. Its data are the globals' bytes, each global at a multiple of 4. Limit if a frame would have more than 32,000 bytes, or `depth`
/// of the largest ones more than 16 MiB. So is a unit of more than 1,048,576 blocks.
pub fn select(alloc: Global, rtl: &Rtl, depth: u32) -> Result<Unit, SelectFault>
    ensures runs { IfOk result (λ u. KeepsRuns rtl.now depth u) }
    ensures unit { IfOk result (λ u. IsSelected rtl.now u) }
    ensures data { IfOk result (λ u. u.globals ≡ data_bytes rtl.now.globals) }
    ensures within { IfOk result (λ _. FramesFit rtl.now depth) }
    ensures limit { IfErr result (λ e. e ≡ SelectFault.Limit → (FramesFit rtl.now depth → IsBeyond rtl.now)) }
{
    let homed = homes_with_room(alloc, rtl, depth)?;
    let long = long_unit(alloc, &homed)?;
    unit_of(alloc, &homed, long)
}
