//! Long blocks to pieces.

ghost use Rattle.std.specs.Prelude.{◌≡◌, ◌↔◌, ℕ, ◌+◌, ◌-◌, ◌/◌, ◌^◌, ◌<◌, ◌≤◌, ◌++◌, ◌∷◌, [], length, IfOk, OnOk, IfErr, IsTrue};
ghost use Rattle.std.specs.Prelude.{slice_index};
ghost use Rattle.mips_select.specs.Split.{renumbered_exit, more_pieces, piece, pieces, total, firsts, split_from, owners_from};
ghost use Rattle.mips_select.specs.Split.{split_blocks, split_owners};
ghost use Rattle.mips_isa.specs.States.{State};
ghost use Rattle.runs.specs.Runs.{Outcome};
ghost use Rattle.mblock.specs.declared.limits.TheConstants.{BLOCK_INSTS, UNIT_BLOCKS, UNIT_BYTES};
ghost use Rattle.mblock.specs.UnitRuns.{ComesTo};
ghost use Rattle.mblock.specs.Units.{AreLinked, AreOwners, unit_parts};

use crate::fault::SelectFault;
use crate::long::LongBlock;
use crate::numbers::{number, number_at, push_copies};
use crate::push::push;
use mblock::{BLOCK_INSTS, Block, BlockNumber, Exit, UNIT_BLOCKS, Unit};
use mips_isa::Plain;
use std::alloc::{AllocError, Global};

/// Returns how many pieces come after the first.
fn count_more(block: &LongBlock) -> usize
    ensures value { result ≡ more_pieces BLOCK_INSTS block.now }
    ensures small { result < 2 ^ 63 }
{
    let n = block.insts().len();
    if n == 0 { 0 } else { (n - 1) / BLOCK_INSTS }
}

/// Reports whether after `k` pieces there is no place for one and `more`.
fn is_beyond(k: usize, more: usize) -> bool
    requires { k ≤ UNIT_BLOCKS }
    ensures { IsTrue result ↔ (UNIT_BLOCKS < k + 1 + more) }
{
    more >= UNIT_BLOCKS - k
}

/// Returns the number of each block's first piece.
pub(crate) fn first_pieces(
    alloc: Global,
    long: &[LongBlock],
) -> Result<Vec<BlockNumber>, SelectFault>
    ensures numbers { IfOk result (λ ns. ns.items ≡ firsts BLOCK_INSTS 0 long.now) }
    ensures few { IfOk result (λ _. total BLOCK_INSTS long.now ≤ UNIT_BLOCKS) }
    ensures limit { IfErr result (λ e. e ≡ SelectFault.Limit → UNIT_BLOCKS < total BLOCK_INSTS long.now) }
{
    let mut numbers = Vec::with_capacity(alloc, long.len())?;
    let mut k: usize = 0;
    for block in long {
        let more = count_more(block);
        if is_beyond(k, more) {
            return Err(SelectFault::Limit);
        }
        push(&mut numbers, number(k))?;
        k += 1 + more;
    }
    Ok(numbers)
}

/// Returns the exit with the numbers of pieces.
fn renumber(numbers: &[BlockNumber], mut exit: Exit) -> Exit
    ensures { result ≡ renumbered_exit (λ n. slice_index numbers.now n) exit }
{
    match &mut exit {
        Exit::Goto(next) => *next = number_at(numbers, next.number()),
        Exit::BranchPair { then, other, .. } => {
            *then = number_at(numbers, then.number());
            *other = number_at(numbers, other.number());
        }
        Exit::BranchZero { then, other, .. } => {
            *then = number_at(numbers, then.number());
            *other = number_at(numbers, other.number());
        }
        Exit::Call { function, next } => {
            *function = number_at(numbers, function.number());
            *next = number_at(numbers, next.number());
        }
        Exit::Out(next) => *next = number_at(numbers, next.number()),
        Exit::Return | Exit::Halt => {}
    }
    exit
}

/// Pushes one more block of instructions that are few enough.
fn push_whole(out: &mut Vec<Block>, insts: Vec<Plain>, exit: Exit) -> Result<(), AllocError>
    requires { length insts.items ≤ BLOCK_INSTS }
    ensures { OnOk result (out.new.items ≡ out.old.items ++ piece insts.items exit ∷ []) }
{
    match Block::new(insts, exit) {
        Some(block) => out.push(block)?,
        None => unreachable!(),
    }
    Ok(())
}

/// Pushes a copy as one more piece.
fn push_piece(
    alloc: Global,
    out: &mut Vec<Block>,
    insts: &[Plain],
    exit: Exit,
) -> Result<(), AllocError>
    requires { length insts.now ≤ BLOCK_INSTS }
    ensures { OnOk result (out.new.items ≡ out.old.items ++ piece insts.now exit ∷ []) }
{
    let copy = Vec::from_slice(alloc, insts)?;
    push_whole(out, copy, exit)
}

/// Pushes the pieces of a block, the exit having the numbers of pieces.
fn push_pieces(
    alloc: Global,
    out: &mut Vec<Block>,
    insts: &[Plain],
    exit: Exit,
) -> Result<(), AllocError>
    requires { length out.old.items + (length insts.now - 1) / BLOCK_INSTS < UNIT_BLOCKS }
    ensures { OnOk result (out.new.items ≡ out.old.items
        ++ pieces BLOCK_INSTS exit ((length insts.now - 1) / BLOCK_INSTS) (length out.old.items) insts.now) }
{
    let mut rest = insts;
    while rest.len() > BLOCK_INSTS {
        let (front, back) = rest.split_at(BLOCK_INSTS);
        let next = number(out.len() + 1);
        push_piece(alloc, out, front, Exit::Goto(next))?;
        rest = back;
    }
    push_piece(alloc, out, rest, exit)
}

/// Pushes the pieces of a block, the exit having the numbers of pieces: a short one's instructions aren't copied.
fn push_block(
    alloc: Global,
    out: &mut Vec<Block>,
    block: LongBlock,
    exit: Exit,
) -> Result<(), AllocError>
    requires { length out.old.items + more_pieces BLOCK_INSTS block < UNIT_BLOCKS }
    ensures { OnOk result (out.new.items ≡ out.old.items
        ++ pieces BLOCK_INSTS exit (more_pieces BLOCK_INSTS block) (length out.old.items) block.insts) }
{
    if block.insts().len() > BLOCK_INSTS {
        push_pieces(alloc, out, block.insts(), exit)
    } else {
        push_whole(out, block.into_insts(), exit)
    }
}

/// Returns the pieces of all blocks.
fn pieces_of(
    alloc: Global,
    numbers: &[BlockNumber],
    long: Vec<LongBlock>,
) -> Result<Vec<Block>, AllocError>
    requires { total BLOCK_INSTS long.items ≤ UNIT_BLOCKS }
    ensures { IfOk result (λ blocks. blocks.items ≡ split_from BLOCK_INSTS (λ n. slice_index numbers.now n) 0 long.items) }
{
    let mut out = Vec::with_capacity(alloc, long.len())?;
    for block in long {
        let exit = renumber(numbers, block.exit());
        push_block(alloc, &mut out, block, exit)?;
    }
    Ok(out)
}

/// Returns the owner of each piece.
fn owners_of(
    alloc: Global,
    numbers: &[BlockNumber],
    long: &[LongBlock],
    owner: &[BlockNumber],
) -> Result<Vec<BlockNumber>, AllocError>
    requires { length owner.now ≡ length long.now }
    ensures { IfOk result (λ os. os.items ≡ owners_from BLOCK_INSTS (λ n. slice_index numbers.now n) long.now owner.now) }
{
    let mut owners = Vec::with_capacity(alloc, long.len())?;
    for i in 0..long.len() {
        let first = number_at(numbers, owner[i].number());
        push_copies(&mut owners, first, 1 + count_more(&long[i]))?;
    }
    Ok(owners)
}

/// Returns the unit of the pieces of blocks with their owners.
pub(crate) fn split_unit(
    alloc: Global,
    long: Vec<LongBlock>,
    owner: &[BlockNumber],
    globals: Vec<u8>,
) -> Result<Unit, SelectFault>
    requires linked { AreLinked long.items }
    requires owners { AreOwners long.items owner.now }
    requires some { 0 < length long.items }
    requires few { length globals.items ≤ UNIT_BYTES }
    ensures unit { IfOk result (λ u. u ≡ unit_parts (split_blocks long.items) (split_owners long.items owner.now) globals.items) }
    ensures runs { IfOk result (λ u. (s : State) (r : ℕ) (end : Outcome) → ComesTo long.items s r end → ComesTo u.blocks s r end) }
    ensures limit { IfErr result (λ e. e ≡ SelectFault.Limit → UNIT_BLOCKS < length (split_blocks long.items)) }
{
    let numbers = first_pieces(alloc, long.as_slice())?;
    let owners = owners_of(alloc, numbers.as_slice(), long.as_slice(), owner)?;
    let blocks = pieces_of(alloc, numbers.as_slice(), long)?;
    Ok(Unit::of(blocks, owners, globals))
}
