//! Units with the numbers of the blocks with which a program's blocks begin.

ghost use Rattle.std.specs.Prelude.{◌≡◌, ℕ, ◌+◌, ◌<◌, ◌≤◌, length, map, slice_get, slice_index, IfOk, IfErr, Some};
ghost use Rattle.mblock.specs.declared.limits.TheConstants.{BLOCK_INSTS, UNIT_BLOCKS};
ghost use Rattle.rtl.specs.declared.block.RFunc.{RFunc};
ghost use Rattle.rtl.specs.declared.limits.TheConstants.{MAX_BLOCKS};
ghost use Rattle.mips_select.specs.Split.{total, first_piece_of};
ghost use Rattle.mips_select.specs.Heads.{AreNamed};
ghost use Rattle.mips_select.specs.Limits.{FramesFit};
ghost use Rattle.mips_select.specs.Whole.{functions_size, numbers_from};
ghost use Rattle.mips_select.specs.Laws.{IsNumbered, IsBeyond};

use crate::fault::SelectFault;
use crate::numbers::{number_at, number_each};
use crate::pieces::first_pieces;
use crate::program::{LongUnit, homes_with_room, long_unit, unit_of};
use mblock::{BlockNumber, Unit};
use rtl::{RFunc, Rtl};
use std::alloc::{AllocError, Global};

/// Has a program's unit, and the number of the unit's block with which each block of the program begins, one function after
/// another.
#[derive(Drop)]
pub struct Numbered {
    pub unit: Unit,
    pub numbers: Vec<BlockNumber>,
}

/// Looks up a table at each of some numbers.
fn all_at(
    alloc: Global,
    table: &[BlockNumber],
    numbers: &[BlockNumber],
) -> Result<Vec<BlockNumber>, AllocError>
    ensures { IfOk result (λ ns. ns.items ≡ map (slice_index table.now) numbers.now) }
{
    numbers
        .iter()
        .map(|n| number_at(table, n.number()))
        .collect(alloc)
}

/// Finds where the blocks of functions begin among blocks of any length: at their first pieces.
fn block_numbers(
    alloc: Global,
    long: &LongUnit,
    functions: &[RFunc],
) -> Result<Vec<BlockNumber>, SelectFault>
    requires named { AreNamed long.now.numbers.namings.items functions.now }
    requires small { (g : ℕ) (func : RFunc) → slice_get functions.now g ≡ Some func → length func.blocks.items ≤ MAX_BLOCKS }
    requires number { 2 + functions_size functions.now ≤ UNIT_BLOCKS }
    ensures numbers { IfOk result (λ ns. ns.items ≡ map (first_piece_of BLOCK_INSTS long.now.blocks.items) (numbers_from 2 functions.now)) }
    ensures limit { IfErr result (λ e. e ≡ SelectFault.Limit → UNIT_BLOCKS < total BLOCK_INSTS long.now.blocks.items) }
{
    let blocks = long.blocks.as_slice();
    let pieces = first_pieces(alloc, blocks)?;
    let namings = long.numbers.namings.as_slice();
    let numbers = number_each(alloc, namings, functions)?;
    let found = all_at(alloc, pieces.as_slice(), numbers.as_slice())?;
    Ok(found)
}

/// Makes what `select` makes, with the numbers of the blocks with which the program's blocks begin.
pub fn select_numbered(alloc: Global, rtl: &Rtl, depth: u32) -> Result<Numbered, SelectFault>
    ensures numbered { IfOk result (λ n. IsNumbered rtl.now n.unit n.numbers.items) }
    ensures within { IfOk result (λ _. FramesFit rtl.now depth) }
    ensures limit { IfErr result (λ e. e ≡ SelectFault.Limit → (FramesFit rtl.now depth → IsBeyond rtl.now)) }
{
    let homed = homes_with_room(alloc, rtl, depth)?;
    let long = long_unit(alloc, &homed)?;
    let numbers = block_numbers(alloc, &long, homed.rtl.functions())?;
    let unit = unit_of(alloc, &homed, long)?;
    Ok(Numbered { unit, numbers })
}
