//! Two blocks, run on terms by two threads over one table.
ghost use Rattle.std.specs.Prelude.{◌≡◌, IsTrue, IfOk};
ghost use Rattle.term_table.specs.Passes.{IsOf};
ghost use Rattle.example_terms.specs.Meaning.{Environment, meaning};
ghost use Rattle.example_terms.specs.Standing.{HasRun};

use crate::block::Block;
use crate::label::Op;
use crate::symbolic::{Fault, Ran, run};
use std::alloc::Global;
use std::thread;
use std::thread::Threads;
use term_table::{Pass, TermTable};

// How many terms a block may have, and the chains that they are found in.
const TERMS: u64 = 65_536;

const CHAINS: u64 = 4_096;

/// Reports whether the optimised block provably means the original: in each environment it has the same value and leaves the same memory.
pub fn validate(
    rt: &impl Threads,
    alloc: Global,
    original: &Block,
    optimised: &Block,
) -> Result<bool, Fault>
    ensures { IfOk result (λ same. IsTrue same → (e : Environment) → meaning original.now e ≡ meaning optimised.now e) }
{
    let Ok((table, first, second)) = TermTable::open_two(alloc, TERMS, CHAINS) else {
        return Err(Fault::NoMemory);
    };
    let (mut first, mut second) = both(rt, alloc, &table, (first, second), original, optimised)?;
    Ok(agree(&table, &mut first, &mut second, original, optimised))
}

/// Runs two blocks, each in a thread of its own.
fn both<R: Threads>(
    rt: &R,
    alloc: Global,
    table: &TermTable,
    passes: (Pass, Pass),
    original: &Block,
    optimised: &Block,
) -> Result<(Ran, Ran), Fault>
    requires { IsOf table.now passes.0 × IsOf table.now passes.1 }
    ensures { IfOk result (λ r. HasRun table.now original.now r.0 × HasRun table.now optimised.now r.1) }
{
    let (one, other) = thread::join(
        rt,
        move || run(table, alloc, passes.0, original),
        move || run(table, alloc, passes.1, optimised),
    );
    Ok((one?, other?))
}

/// Has the passes meet, and reports whether the tickets are equal: then the blocks mean the same. Where the tickets are equal, the blocks
/// mean the same.
fn agree(
    table: &TermTable,
    first: &mut Ran,
    second: &mut Ran,
    _original: &Block,
    _optimised: &Block,
) -> bool
    requires first { HasRun table.now _original.now first.old }
    requires second { HasRun table.now _optimised.now second.old }
    ensures { IsTrue result → (e : Environment) → meaning _original.now e ≡ meaning _optimised.now e }
{
    table.meet(&mut first.pass, &mut second.pass);
    second.pass.same_term::<Op>(first.value, second.value)
        && second.pass.same_term::<Op>(first.memory, second.memory)
}
