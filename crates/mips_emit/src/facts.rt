//! Words that pseudo-registers are known to hold, and what the last instruction leaves for an exit.

ghost use Rattle.std.specs.Prelude.{◌≡◌, OnOk, OnErr, IfOk, nat_eq};
ghost use Rattle.std.specs.List.{find};
ghost use Rattle.mips_emit.specs.declared.facts.Fact.{Fact};
ghost use Rattle.mips_emit.specs.Frames.{IsReachable};
ghost use Rattle.mips_emit.specs.Locations.{known_in, facts_of, no_facts, word_in, deferred_at, deferred_with, newest, with_fact, written};
ghost use Rattle.mips_emit.specs.Locations.{learned, fresh_of, index_register, index_of, kept_with, locations, operand, last_operand};
ghost use Rattle.mips_emit.specs.Locations.{FitsSource};
ghost use Rattle.mips_emit.specs.Offsets.{sum_offset};
ghost use Rattle.mips_emit.specs.Comparisons.{last_with};

use crate::comparison::Comparison;
use crate::limits::KEPT_FACTS;
use crate::location::{Source, inner_of, locate, source_of};
use crate::offset::{Offset, addend, index_with, sum_offset, touches};
use mips_homes::{Frame, Home, is_callee_saved};
use mips_isa::NonzeroReg;
use rtl::{GlobalNumber, Op, RInst, Register};
use std::alloc::{AllocError, Global};

/// A write of a pseudo-register, and the word that it is known to hold since, if any.
#[derive(Clone, Copy)]
pub struct Fact {
    pub register: Register,
    pub word: Option<u32>,
}

/// What an exit can use of the last instruction. It is the pseudo-register whose word is still in its inner temporary, and a comparison
/// that is one with the branch.
#[derive(Clone, Copy)]
pub struct Last {
    pub fresh: Option<Register>,
    pub comparison: Option<Comparison>,
}

/// A base of elements that a register of its own holds: of a global's elements at an index.
#[derive(Clone, Copy)]
pub struct Kept {
    pub global: GlobalNumber,
    pub index: Offset,
}

/// What is known within a block: words of pseudo-registers, the newest last. By the numbers of registers there are the words that these
/// should hold but don't yet. Then the base that is kept, and a register that is the sum of another one and a word.
#[derive(Drop)]
pub struct Knowledge {
    pub known: Vec<Fact>,
    pub deferred: [Option<u32>; 32],
    pub kept: Option<Kept>,
    pub offset: Option<Offset>,
}

impl Knowledge {
    /// Returns what is known at first: nothing.
    pub fn none(alloc: Global) -> Result<Knowledge, AllocError>
        ensures { IfOk result (λ k. facts_of k ≡ no_facts) }
    {
        Ok(Knowledge {
            known: Vec::new(alloc),
            deferred: [None; 32],
            kept: None,
            offset: None,
        })
    }

    /// Forgets everything, as at the head of another block.
    pub fn clear(&mut self)
        ensures { facts_of self.new ≡ no_facts }
    {
        self.known.clear();
        self.deferred = [None; 32];
        self.kept = None;
        self.offset = None;
    }
}

impl Last {
    /// Nothing that can be used.
    pub const NONE: Last = Last {
        fresh: None,
        comparison: None,
    };
}

/// Returns the last of these facts on a pseudo-register, if it is one of the newest.
fn last_on(facts: &[Fact], x: Register) -> Option<Fact>
    ensures { result ≡ find (λ (f : Fact). nat_eq x f.register) (newest facts.now) }
{
    facts
        .iter()
        .rev()
        .take(KEPT_FACTS)
        .copied()
        .find(|fact| x == fact.register)
}

/// Returns the word that a pseudo-register is known to hold.
#[tactic(auto, using(crate::proofs::Newest::known_found))]
pub fn known_word(facts: &Knowledge, x: Register) -> Option<u32>
    ensures { result ≡ known_in (facts_of facts.now) x }
{
    last_on(facts.known.as_slice(), x)?.word
}

/// Returns the word that a home should hold but doesn't yet.
fn deferred_at(table: &[Option<u32>], place: &Option<Home>) -> Option<u32>
    ensures { result ≡ deferred_at (word_in table.now) place.now }
{
    match (*place)? {
        Home::Reg(r) => *table.get(r.index() as usize)?,
        _ => None,
    }
}

/// Defers a constant whose home is a caller-saved register; any other write cancels what was deferred there.
fn defer(table: &mut [Option<u32>; 32], place: &Option<Home>, constant: Option<u32>)
    ensures { word_in table.new ≡ deferred_with place.now constant (word_in table.old) }
{
    if let Some(Home::Reg(r)) = *place {
        table[r.index() as usize] = if is_callee_saved(r.index()) {
            None
        } else {
            constant
        };
    }
}

/// Adds one more fact, the newest.
fn put_fact(facts: &mut Vec<Fact>, register: Register, word: Option<u32>) -> Result<(), AllocError>
    ensures is { OnOk result (newest facts.new.items ≡ with_fact register word (newest facts.old.items)) }
    ensures kept { OnErr result (facts.new.items ≡ facts.old.items) }
{
    facts.push(Fact { register, word })?;
    Ok(())
}

/// Returns the register of an index that is no known word.
pub(crate) fn index_register(known: Option<u32>, x: &Source) -> Option<NonzeroReg>
    ensures { result ≡ index_register known x.now }
{
    match *x {
        Source::InRegister(r) if known.is_none() => Some(r),
        _ => None,
    }
}

/// Returns the base that is kept once an element is used whose index is a pseudo-register.
fn kept_at(facts: &Knowledge, frame: &Frame, a: GlobalNumber, i: Register) -> Option<Kept>
    requires { IsReachable frame.now }
    ensures { result ≡ kept_with a (index_of (locations frame.now) (facts_of facts.now) i) (facts_of facts.now).kept }
{
    let known = known_word(facts, i);
    let x = operand_by(facts, frame, i, known);
    match index_with(&facts.offset, index_register(known, &x)) {
        None => facts.kept,
        Some(index) => Some(Kept { global: a, index }),
    }
}

/// Returns what an operator leaves in a home. For an operator that leaves no sum it looks up no fact.
#[tactic(auto, using(crate::proofs::Sums::no_sum, crate::proofs::Sums::no_sum_of_unknown))]
fn sum_at(
    facts: &Knowledge,
    frame: &Frame,
    op: Op,
    place: &Option<Home>,
    a: Register,
    b: Register,
) -> Option<Offset>
    requires { IsReachable frame.now }
    ensures { result ≡ sum_offset place.now op (known_in (facts_of facts.now) b) (operand (locations frame.now) (facts_of facts.now) a) }
{
    if addend(op, 0).is_none() {
        return None;
    }
    let word = known_word(facts, b)?;
    sum_offset(place, op, Some(word), &operand(facts, frame, a))
}

/// Learns that a register is written, with which word, and with which constant; an Err means out of memory, and leaves what was known.
#[inline(always)]
fn learn_write(
    facts: &mut Knowledge,
    place: &Option<Home>,
    d: Register,
    word: Option<u32>,
    constant: Option<u32>,
) -> Result<(), AllocError>
    ensures kept { OnErr result (facts_of facts.new ≡ facts_of facts.old) }
    ensures is { OnOk result (facts_of facts.new ≡ written place.now d word constant (facts_of facts.old)) }
{
    put_fact(&mut facts.known, d, word)?;
    defer(&mut facts.deferred, place, constant);
    facts.kept = facts.kept.filter(|k| !touches(&k.index, place));
    facts.offset = facts.offset.filter(|o| !touches(o, place));
    Ok(())
}

/// Learns what is known after an instruction; an Err means out of memory, and leaves what was known.
#[inline(always)]
pub(crate) fn learn(facts: &mut Knowledge, frame: &Frame, inst: &RInst) -> Result<(), AllocError>
    requires frame { IsReachable frame.now }
    ensures kept { OnErr result (facts_of facts.new ≡ facts_of facts.old) }
    ensures is { OnOk result (facts_of facts.new ≡ learned (locations frame.now) inst.now (facts_of facts.old)) }
{
    match inst {
        RInst::Const(d, word) => {
            learn_write(facts, &locate(frame, *d), *d, Some(*word), Some(*word))
        }
        RInst::Move(d, a) => {
            let word = known_word(facts, *a);
            learn_write(facts, &locate(frame, *d), *d, word, None)
        }
        RInst::Bin(op, d, a, b) => {
            let place = locate(frame, *d);
            let sum = sum_at(facts, frame, *op, &place, *a, *b);
            learn_write(facts, &place, *d, None, None)?;
            facts.offset = sum.or(facts.offset);
            Ok(())
        }
        RInst::Load(d, a, i) => {
            let place = locate(frame, *d);
            let kept = kept_at(facts, frame, *a, *i);
            learn_write(facts, &place, *d, None, None)?;
            facts.kept = kept.filter(|k| !touches(&k.index, &place));
            Ok(())
        }
        RInst::Store(a, i, _) => {
            facts.kept = kept_at(facts, frame, *a, *i);
            Ok(())
        }
    }
}

/// Returns a pseudo-register as an operand, from the word that it is known to hold.
#[inline(always)]
pub(crate) fn operand_by(
    facts: &Knowledge,
    frame: &Frame,
    x: Register,
    known: Option<u32>,
) -> Source
    requires frame { IsReachable frame.now }
    requires known { known ≡ known_in (facts_of facts.now) x }
    ensures value { result ≡ operand (locations frame.now) (facts_of facts.now) x }
    ensures fits { FitsSource result }
{
    let place = locate(frame, x);
    match deferred_at(&facts.deferred, &place) {
        Some(word) => source_of(Some(word), &None),
        None => source_of(known, &place),
    }
}

/// Returns a pseudo-register as an operand.
pub(crate) fn operand(facts: &Knowledge, frame: &Frame, x: Register) -> Source
    requires { IsReachable frame.now }
    ensures value { result ≡ operand (locations frame.now) (facts_of facts.now) x }
    ensures fits { FitsSource result }
{
    operand_by(facts, frame, x, known_word(facts, x))
}

/// Returns the pseudo-register whose word an instruction leaves in its inner temporary.
pub(crate) fn fresh_of(frame: &Frame, inst: &RInst) -> Option<Register>
    requires { IsReachable frame.now }
    ensures { result ≡ fresh_of (locations frame.now) inst.now }
{
    match inst {
        RInst::Bin(_, d, _, _) | RInst::Load(d, _, _) => match locate(frame, *d)? {
            Home::Slot(_) => Some(*d),
            _ => None,
        },
        _ => None,
    }
}

/// Returns what an exit can use of an instruction. It is the comparison that is one with it, or the word that is still in an inner
/// temporary.
pub(crate) fn last_with(comparison: &Option<Comparison>, fresh: Option<Register>) -> Last
    ensures { result ≡ last_with comparison.now fresh }
{
    let fresh = if comparison.is_some() { None } else { fresh };
    Last {
        fresh,
        comparison: *comparison,
    }
}

/// Returns a pseudo-register as an operand of an exit.
pub fn last_operand(
    facts: &Knowledge,
    fresh: Option<Register>,
    frame: &Frame,
    x: Register,
) -> Source
    requires { IsReachable frame.now }
    ensures value { result ≡ last_operand (locations frame.now) (facts_of facts.now) fresh x }
    ensures fits { FitsSource result }
{
    match fresh {
        Some(y) if y == x => Source::InRegister(inner_of(&locate(frame, x))),
        _ => operand(facts, frame, x),
    }
}
