//! Blocks to tickets: a block is run on terms.
ghost use Rattle.std.specs.Prelude.{◌≡◌, ◌<◌, ◌++◌, [], ◌∷◌, List, length, slice_index, IfOk, IfSome};
ghost use Rattle.term_table.specs.Passes.{IsOf};
ghost use Rattle.term_table.specs.Trees.{Extends};
ghost use Rattle.term_table.specs.Terms.{HasSeenTerm, HasSeenTerms};
ghost use Rattle.term_table.specs.Meanings.{Means, AllMean};
ghost use Rattle.example_terms.specs.Labels.{op_coding, op_arity};
ghost use Rattle.example_terms.specs.Meaning.{Environment, Value, just, made, op_algebra};
ghost use Rattle.example_terms.specs.Standing.{StandFor, HasRun, AreAt};

use crate::block::{Block, Instruction, Place};
use crate::label::Op;
use smallvec::SmallVec;
use std::alloc::{AllocError, Global};
use term_table::{Pass, TableFull, TermTable, Ticket};
use thiserror::Error;

/// Why a block was not run.
#[derive(Clone, Copy, Debug, Drop, Error)]
pub enum Fault {
    #[error("an instruction or the block names a place that has no value yet")]
    NoValue,
    #[error("an instruction has too few or too many operands")]
    Operands,
    #[error("a pass has linked as many terms as it may")]
    Full,
    #[error("memory was refused")]
    NoMemory,
}

impl From<TableFull> for Fault {
    fn from(_full: TableFull) -> Fault {
        Fault::Full
    }
}

impl From<AllocError> for Fault {
    fn from(_refused: AllocError) -> Fault {
        Fault::NoMemory
    }
}

/// The tickets of a block's value and of memory after it, and the pass that has seen them.
#[derive(Drop)]
pub struct Ran {
    pub pass: Pass,
    pub value: Ticket,
    pub memory: Ticket,
}

/// Returns the ticket of the value that was made at a place.
fn value_at(values: &[Ticket], place: Place) -> Result<Ticket, Fault>
    ensures { IfOk result (λ t. (t ≡ slice_index values.now place) × (place < length values.now)) }
{
    values
        .get(usize::from(place))
        .copied()
        .ok_or(Fault::NoValue)
}

/// Returns the tickets of the values that were made at these places.
fn values_at(
    alloc: Global,
    values: &[Ticket],
    places: &[Place],
) -> Result<SmallVec<Ticket, 3>, Fault>
    ensures { IfOk result (λ found. AreAt values.now places.now found.items × (length found.items ≡ length places.now)) }
{
    let mut found = SmallVec::new(alloc);
    for i in 0..places.len() {
        let Ok(()) = found.push(value_at(values, places[i])?) else {
            return Err(Fault::NoMemory);
        };
    }
    Ok(found)
}

/// Returns the word of a term, where it is a constant.
fn known(table: &TermTable, pass: &mut Pass, ticket: Ticket) -> Option<u32>
    requires own { IsOf table.now pass.old }
    requires seen { HasSeenTerm op_coding pass.old ticket }
    ensures own { IsOf table.now pass.new }
    ensures extends { Extends pass.old pass.new }
    ensures word { (f : Environment → Value) → Means op_algebra pass.old ticket f
        → IfSome result (λ n. (e : Environment) → f e ≡ just e n) }
{
    match table.read::<Op>(pass, ticket).label {
        Op::Constant(n) => Some(n),
        _ => None,
    }
}

/// Returns the word that an operator makes of two terms, where both are constants.
#[tactic(auto, using(term_table::proofs::TermCallers::interning))]
fn fold_constants(table: &TermTable, pass: &mut Pass, op: Op, operands: &[Ticket]) -> Option<u32>
    requires own { IsOf table.now pass.old }
    requires seen { HasSeenTerms op_coding pass.old operands.now }
    ensures own { IsOf table.now pass.new }
    ensures extends { Extends pass.old pass.new }
    ensures word { (fs : Environment → List Value) → AllMean op_algebra pass.old operands.now fs
        → IfSome result (λ n. (e : Environment) → made op e (fs e) ≡ just e n) }
{
    if operands.len() != 2 {
        return None;
    }
    let first = known(table, pass, operands[0]);
    let second = known(table, pass, operands[1]);
    op.word(first?, second?)
}

/// Returns the ticket of what an operator makes of these terms. Constants are folded.
#[tactic(auto, using(term_table::proofs::TermCallers::interning, term_table::proofs::TermCallers::still_seen_terms))]
fn make(
    table: &TermTable,
    pass: &mut Pass,
    op: Op,
    operands: &[Ticket],
) -> Result<Ticket, TableFull>
    requires own { IsOf table.now pass.old }
    requires seen { HasSeenTerms op_coding pass.old operands.now }
    requires arity { length operands.now ≡ op_arity op }
    ensures own { IsOf table.now pass.new }
    ensures extends { Extends pass.old pass.new }
    ensures value { (fs : Environment → List Value) → AllMean op_algebra pass.old operands.now fs
        → IfOk result (λ t. Means op_algebra pass.new t (λ e. made op e (fs e))) }
{
    if let Some(word) = fold_constants(table, pass, op, operands) {
        return Ok(table.intern(pass, Op::Constant(word), &[])?.ticket);
    }
    Ok(table.intern(pass, op, operands)?.ticket)
}

/// Returns the ticket of the value that an instruction makes after those that are done.
fn step(
    table: &TermTable,
    alloc: Global,
    pass: &mut Pass,
    values: &[Ticket],
    instruction: &Instruction,
    _done: &[Instruction],
) -> Result<Ticket, Fault>
    requires own { IsOf table.now pass.old }
    requires stands { StandFor pass.old values.now _done.now }
    ensures own { IsOf table.now pass.new }
    ensures stands { IfOk result (λ t. StandFor pass.new (values.now ++ t ∷ []) (_done.now ++ instruction.now ∷ [])) }
{
    if instruction.operands.len() != instruction.op.arity() {
        return Err(Fault::Operands);
    }
    let operands = values_at(alloc, values, instruction.operands.as_slice())?;
    Ok(make(table, pass, instruction.op, operands.as_slice())?)
}

/// Runs a block on terms.
pub fn run(table: &TermTable, alloc: Global, mut pass: Pass, block: &Block) -> Result<Ran, Fault>
    requires { IsOf table.now pass }
    ensures { IfOk result (HasRun table.now block.now) }
{
    let mut values = Vec::new(alloc);
    let code = block.instructions.as_slice();
    for i in 0..code.len() {
        let value = step(
            table,
            alloc,
            &mut pass,
            values.as_slice(),
            &code[i],
            &code[..i],
        )?;
        let Ok(()) = values.push(value) else {
            return Err(Fault::NoMemory);
        };
    }
    let value = value_at(values.as_slice(), block.value)?;
    let memory = value_at(values.as_slice(), block.memory)?;
    Ok(Ran {
        pass,
        value,
        memory,
    })
}
