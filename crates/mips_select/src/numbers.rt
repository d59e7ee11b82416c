//! Numbers of blocks.

ghost use Rattle.std.specs.Prelude.{◌≡◌, ℕ, ◌+◌, ◌<◌, ◌≤◌, ◌++◌, ◌∷◌, [], length, IfOk, OnOk, IfErr, Some, slice_get, slice_index};
ghost use Rattle.std.specs.Prelude.{replicate};
ghost use Rattle.mblock.specs.declared.limits.TheConstants.{UNIT_BLOCKS};
ghost use Rattle.rtl.specs.declared.block.RFunc.{RFunc};
ghost use Rattle.rtl.specs.declared.limits.TheConstants.{MAX_BLOCKS};
ghost use Rattle.mips_select.specs.Heads.{heads_in, namings_of, AreNamed};
ghost use Rattle.mips_select.specs.Whole.{size_of_blocks, numbers, function_size, functions_size, entries_from, owners_for};
ghost use Rattle.mips_select.specs.Whole.{numbers_in, numbers_from};

use crate::fault::SelectFault;
use crate::heads::{Naming, all_namings, count_of, lead_in};
use crate::push::{list_for, push};
use mblock::{BlockNumber, UNIT_BLOCKS};
use rtl::{RBlock, RFunc};
use std::alloc::{AllocError, Global};

/// Returns the number of a block.
pub(crate) fn number(n: usize) -> BlockNumber
    requires { n < UNIT_BLOCKS }
    ensures { result ≡ n }
{
    match BlockNumber::new(n as u32) {
        Some(number) => number,
        None => unreachable!(),
    }
}

/// Returns a number of a table, 0 after its end.
pub(crate) fn number_at(table: &[BlockNumber], i: u32) -> BlockNumber
    ensures { result ≡ slice_index table.now i }
{
    table.get(i as usize).copied().unwrap_or(number(0))
}

/// Pushes one number, several times.
pub(crate) fn push_copies(
    table: &mut Vec<BlockNumber>,
    n: BlockNumber,
    count: usize,
) -> Result<(), AllocError>
    ensures { OnOk result (table.new.items ≡ table.old.items ++ replicate count n) }
{
    for _ in 0..count {
        push(table, n)?;
    }
    Ok(())
}

/// Returns the first of the blocks that stand for each block, the first of all having the number `first`.
pub(crate) fn number_blocks(
    alloc: Global,
    table: &[Naming],
    first: usize,
    blocks: &[RBlock],
) -> Result<Vec<BlockNumber>, AllocError>
    requires { first + size_of_blocks (heads_in table.now) blocks.now ≤ UNIT_BLOCKS }
    ensures { IfOk result (λ ns. ns.items ≡ numbers (heads_in table.now) first blocks.now) }
{
    let mut ns = Vec::with_capacity(alloc, blocks.len())?;
    let mut k = first;
    for block in blocks {
        push(&mut ns, number(k))?;
        k += count_of(table, &block.exit);
    }
    Ok(ns)
}

/// Returns how many blocks stand for some.
fn count_blocks(table: &[Naming], blocks: &[RBlock]) -> usize
    requires { length blocks.now ≤ MAX_BLOCKS }
    ensures value { result ≡ size_of_blocks (heads_in table.now) blocks.now }
    ensures small { result ≤ MAX_BLOCKS + MAX_BLOCKS }
{
    let mut n: usize = 0;
    for block in blocks {
        n += count_of(table, &block.exit);
    }
    n
}

/// Returns how many blocks stand for a function, whose blocks are named as in the table.
fn count_function(table: &[Naming], func: &RFunc) -> usize
    requires few { length func.now.blocks.items ≤ MAX_BLOCKS }
    requires named { table.now ≡ namings_of func.now }
    ensures value { result ≡ function_size func.now }
    ensures small { result ≤ 1 + MAX_BLOCKS + MAX_BLOCKS }
{
    let size = count_blocks(table, func.blocks.as_slice());
    lead_in(table) + size
}

// How the blocks of each function are named, where functions begin, and the first block of each block's function.
#[derive(Drop)]
pub(crate) struct Numbers {
    pub(crate) namings: Vec<Vec<Naming>>,
    pub(crate) entries: Vec<BlockNumber>,
    pub(crate) owners: Vec<BlockNumber>,
}

/// Returns for how many blocks of some functions there is room at once, as many as may stand for them.
fn room_for(functions: &[RFunc]) -> usize {
    let mut count: usize = 2;
    for func in functions {
        let blocks = func.blocks.len();
        count = count
            .saturating_add(blocks)
            .saturating_add(blocks)
            .saturating_add(1);
    }
    count
}

/// Returns those of no functions: the two blocks for start and end. There is room for those of some functions.
fn first_numbers(alloc: Global, functions: &[RFunc]) -> Result<Numbers, AllocError>
    ensures namings { IfOk result (λ n. n.namings.items ≡ []) }
    ensures entries { IfOk result (λ n. n.entries.items ≡ []) }
    ensures owners { IfOk result (λ n. n.owners.items ≡ 0 ∷ 0 ∷ []) }
{
    let namings = list_for(alloc, functions.len());
    let entries = list_for(alloc, functions.len());
    let mut owners = list_for(alloc, room_for(functions));
    push_copies(&mut owners, number(0), 2)?;
    Ok(Numbers {
        namings,
        entries,
        owners,
    })
}

/// Pushes one more function, of so many blocks, the first of which is `entry`.
fn push_function(
    numbers: &mut Numbers,
    table: Vec<Naming>,
    entry: BlockNumber,
    size: usize,
) -> Result<(), AllocError>
    ensures namings { OnOk result (numbers.new.namings.items ≡ numbers.old.namings.items ++ table ∷ []) }
    ensures entries { OnOk result (numbers.new.entries.items ≡ numbers.old.entries.items ++ entry ∷ []) }
    ensures owners { OnOk result (numbers.new.owners.items ≡ numbers.old.owners.items ++ replicate size entry) }
{
    push(&mut numbers.entries, entry)?;
    push_copies(&mut numbers.owners, entry, size)?;
    push(&mut numbers.namings, table)
}

/// Returns the numbers of functions, from 2 on.
pub(crate) fn number_functions(alloc: Global, functions: &[RFunc]) -> Result<Numbers, SelectFault>
    requires { (g : ℕ) (func : RFunc) → slice_get functions.now g ≡ Some func → length func.blocks.items ≤ MAX_BLOCKS }
    ensures namings { IfOk result (λ n. AreNamed n.namings.items functions.now) }
    ensures entries { IfOk result (λ n. n.entries.items ≡ entries_from 2 functions.now) }
    ensures owners { IfOk result (λ n. n.owners.items ≡ owners_for functions.now) }
    ensures few { IfOk result (λ _. 2 + functions_size functions.now ≤ UNIT_BLOCKS) }
    ensures limit { IfErr result (λ e. e ≡ SelectFault.Limit → UNIT_BLOCKS < 2 + functions_size functions.now) }
{
    let mut numbers = first_numbers(alloc, functions)?;
    let mut k: usize = 2;
    for func in functions {
        let table = all_namings(alloc, func.blocks.as_slice())?;
        let size = count_function(table.as_slice(), func);
        if size > UNIT_BLOCKS - k {
            return Err(SelectFault::Limit);
        }
        push_function(&mut numbers, table, number(k), size)?;
        k += size;
    }
    Ok(numbers)
}

/// Pushes the numbers of a function's blocks, the first of which is k, and returns how many blocks stand for it.
fn push_numbers(
    alloc: Global,
    out: &mut Vec<BlockNumber>,
    table: &[Naming],
    k: usize,
    func: &RFunc,
) -> Result<usize, AllocError>
    requires few { length func.now.blocks.items ≤ MAX_BLOCKS }
    requires named { table.now ≡ namings_of func.now }
    requires number { k + function_size func.now ≤ UNIT_BLOCKS }
    ensures numbers { OnOk result (out.new.items ≡ out.old.items ++ numbers_in k func.now.blocks.items) }
    ensures size { IfOk result (λ n. n ≡ function_size func.now) }
{
    let first = k + lead_in(table);
    let numbers = number_blocks(alloc, table, first, func.blocks.as_slice())?;
    out.extend_from_slice(numbers.as_slice())?;
    Ok(count_function(table, func))
}

/// Returns the numbers of the blocks of functions, from 2 on, one function after another.
pub(crate) fn number_each(
    alloc: Global,
    namings: &[Vec<Naming>],
    functions: &[RFunc],
) -> Result<Vec<BlockNumber>, AllocError>
    requires named { AreNamed namings.now functions.now }
    requires few { (g : ℕ) (func : RFunc) → slice_get functions.now g ≡ Some func → length func.blocks.items ≤ MAX_BLOCKS }
    requires number { 2 + functions_size functions.now ≤ UNIT_BLOCKS }
    ensures { IfOk result (λ ns. ns.items ≡ numbers_from 2 functions.now) }
{
    let mut numbers = list_for(alloc, room_for(functions));
    let mut k: usize = 2;
    for i in 0..functions.len() {
        let func = &functions[i];
        let table = namings[i].as_slice();
        let size = push_numbers(alloc, &mut numbers, table, k, func)?;
        k += size;
    }
    Ok(numbers)
}
