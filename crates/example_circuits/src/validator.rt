//! The validator.
ghost use Rattle.std.specs.Prelude.{◌≡◌, IsTrue, IfSome};
ghost use Rattle.term_table.specs.Passes.{IsOf};
ghost use Rattle.term_table.specs.Trees.{Extends};
ghost use Rattle.term_table.specs.Meanings.{Means};
ghost use Rattle.example_circuits.specs.Meaning.{Inputs, output, gates};

use crate::circuit::Circuit;
use crate::gate::Gate;
use crate::terms::{invert, make, make_ordered};
use std::alloc::Global;
use term_table::{Pass, TermTable, Ticket};

// How many terms the circuits may have together, and how many chains these are found in.
pub const TERMS: u64 = 4_096;

pub const CHAINS: u64 = 1_024;

/// Reports whether two circuits provably put out the same, whatever goes in. None if there is no memory or no room.
pub fn are_alike(alloc: Global, left: &Circuit, right: &Circuit) -> Option<bool>
    ensures { IfSome result (λ alike. IsTrue alike → (e : Inputs) → output left.now e ≡ output right.now e) }
{
    let (table, mut pass) = TermTable::open_one(alloc, TERMS, CHAINS).ok()?;
    let first = encode(&table, &mut pass, left)?;
    let second = encode(&table, &mut pass, right)?;
    Some(pass.same_term::<Gate>(first, second))
}

/// Returns the ticket of a circuit's output. None if the pass has linked all it may.
#[tactic(auto, using(term_table::proofs::TermCallers::interning, term_table::proofs::Meanings::meanings))]
pub fn encode(table: &TermTable, pass: &mut Pass, circuit: &Circuit) -> Option<Ticket>
    requires own { IsOf table.now pass.old }
    ensures own { IsOf table.now pass.new }
    ensures extends { Extends pass.old pass.new }
    ensures means { IfSome result (λ t. Means gates pass.new t (output circuit.now)) }
{
    match circuit {
        Circuit::Level(level) => make(table, pass, Gate::Level(*level), &[]),
        Circuit::Input(number) => make(table, pass, Gate::Input(*number), &[]),
        Circuit::Not(input) => {
            let input = encode(table, pass, input)?;
            invert(table, pass, input)
        }
        Circuit::And(first, second) => {
            let first = encode(table, pass, first)?;
            let second = encode(table, pass, second)?;
            make_ordered(table, pass, Gate::And, first, second)
        }
        Circuit::Or(first, second) => {
            let first = encode(table, pass, first)?;
            let second = encode(table, pass, second)?;
            make_ordered(table, pass, Gate::Or, first, second)
        }
    }
}
