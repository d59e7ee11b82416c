//! A whole validator over the table of terms, as small as one is: circuits of gates, up to the order of a gate's inputs.
//!
//! `are_alike` (`validator.rt`) is the call to read, with `specs/Meaning.antt`: what a circuit puts out.
#![tactic(auto)]

mod circuit;
mod gate;
mod terms;
mod threads;
mod validator;

use crate::circuit::Circuit;
use crate::circuit::Circuit::{Input, Level};
use crate::threads::are_alike_by_two;
use crate::validator::are_alike;
use std::alloc::Global;
use std::io;
use std::thread::Threads;

/// Returns a choice by input 1 of inputs 2 and 3. The other circuit is the same with the inputs of gates in another order and a double
/// inverse.
fn choices(alloc: Global) -> Option<(Circuit, Circuit)> {
    let inverse = Circuit::inverse(alloc, Input(1))?;
    let one = Circuit::both(alloc, Input(1), Input(2))?;
    let other = Circuit::both(alloc, inverse, Input(3))?;
    let left = Circuit::either(alloc, one, other)?;
    let inverse = Circuit::inverse(alloc, Input(1))?;
    let other = Circuit::both(alloc, Input(3), inverse)?;
    let twice = Circuit::inverse(alloc, Circuit::inverse(alloc, Input(2))?)?;
    let one = Circuit::both(alloc, twice, Input(1))?;
    Some((left, Circuit::either(alloc, other, one)?))
}

/// Returns an input or a level, and the input alone.
fn level(alloc: Global) -> Option<(Circuit, Circuit)> {
    Some((Circuit::either(alloc, Input(1), Level(false))?, Input(1)))
}

fn said(answer: Option<bool>) -> &'static str {
    match answer {
        Some(true) => "the same",
        Some(false) => "not shown to be the same",
        None => "no room",
    }
}

/// Prints whether two circuits provably put out the same.
fn check(
    rt: &(impl Threads + Print),
    alloc: Global,
    name: &str,
    circuits: Option<(Circuit, Circuit)>,
) -> io::Result<()> {
    let Some((left, right)) = circuits else {
        return println!(rt; "memory was refused");
    };
    let by_one = said(are_alike(alloc, &left, &right));
    let by_two = said(are_alike_by_two(rt, alloc, &left, &right));
    println!(rt; "{name}: {by_one}; by two threads {by_two}")
}

fn main(rt: HostRuntime) -> io::Result<()> {
    let alloc = rt.alloc();
    check(&rt, alloc, "a choice", choices(alloc))?;
    check(&rt, alloc, "a level", level(alloc))
}
