//! What blocks begin with, from how the exits of their function name them.

ghost use Rattle.std.specs.Prelude.{◌≡◌, ◌≤◌, IfOk, slice_set};
ghost use Rattle.mips_select.specs.Heads.{naming_with_call, note, namings, unnamed, head_at, heads_in, resumes, count, lead_in};

use rtl::{RBlock, RExit, Register};
use std::alloc::{AllocError, Global};

/// Says how exits name a block.
#[derive(Clone, Copy)]
pub(crate) enum Naming {
    /// None does.
    Unnamed,
    /// One call goes on here, with its result for a pseudo-register, if it is wanted.
    Called(Option<Register>),
    /// More than one does, or another exit.
    Jumped,
}

/// Says what a block begins with.
#[derive(Clone, Copy)]
pub(crate) enum Head {
    /// Its own code.
    Bare,
    /// The function's prologue.
    Enters,
    /// The result of the one call that goes on here, for a pseudo-register.
    Takes(Register),
}

/// Names a block at which one more call goes on.
fn naming_with_call(d: Option<Register>, before: Option<Naming>) -> Naming
    ensures { result ≡ naming_with_call d before }
{
    match before {
        Some(Naming::Unnamed) => Naming::Called(d),
        _ => Naming::Jumped,
    }
}

/// Marks the block in the table, if there is such a block.
fn mark(table: &mut Vec<Naming>, b: u32, s: Naming)
    ensures { table.new.items ≡ slice_set table.old.items b s }
{
    if (b as usize) < table.len() {
        table[b as usize] = s;
    }
}

/// Notes what an exit names.
fn note_exit(table: &mut Vec<Naming>, exit: &RExit)
    ensures { table.new.items ≡ note exit.now table.old.items }
{
    match exit {
        RExit::Goto(b) => mark(table, *b, Naming::Jumped),
        RExit::Branch(_, t, e) => {
            mark(table, *t, Naming::Jumped);
            mark(table, *e, Naming::Jumped);
        }
        RExit::Out(_, next) => mark(table, *next, Naming::Jumped),
        RExit::Call(_, _, d, next) => {
            let s = naming_with_call(*d, table.get(*next as usize).copied());
            mark(table, *next, s);
        }
        RExit::Return(_) => {}
    }
}

/// Finds how the exits of a function name its blocks.
pub(crate) fn all_namings(alloc: Global, blocks: &[RBlock]) -> Result<Vec<Naming>, AllocError>
    ensures { IfOk result (λ t. t.items ≡ namings blocks.now (unnamed blocks.now)) }
{
    let mut table = vec![in alloc; Naming::Unnamed; blocks.len()]?;
    for b in blocks {
        note_exit(&mut table, &b.exit);
    }
    Ok(table)
}

/// Returns what a block begins with.
pub(crate) fn head_at(table: &[Naming], b: usize) -> Head
    ensures { result ≡ heads_in table.now b }
{
    match table.get(b).copied() {
        Some(Naming::Unnamed) if b == 0 => Head::Enters,
        Some(Naming::Called(Some(d))) if b != 0 => Head::Takes(d),
        _ => Head::Bare,
    }
}

/// Says whether a call goes on at a block itself.
pub(crate) fn resumes(d: Option<Register>, head: Head) -> bool
    ensures { result ≡ resumes d head }
{
    match head {
        Head::Bare => d.is_none(),
        Head::Enters => false,
        Head::Takes(_) => d.is_some(),
    }
}

/// Counts the blocks that stand for a block that is left so.
pub(crate) fn count_of(table: &[Naming], exit: &RExit) -> usize
    ensures value { result ≡ count (heads_in table.now) exit.now }
    ensures some { 1 ≤ result }
    ensures few { result ≤ 2 }
{
    match exit {
        RExit::Call(_, _, d, next) => {
            if resumes(*d, head_at(table, *next as usize)) {
                1
            } else {
                2
            }
        }
        _ => 1,
    }
}

/// Counts the blocks before those that stand for the blocks of a function.
pub(crate) fn lead_in(table: &[Naming]) -> usize
    ensures value { result ≡ lead_in (heads_in table.now) }
    ensures few { result ≤ 1 }
{
    match head_at(table, 0) {
        Head::Enters => 0,
        _ => 1,
    }
}
