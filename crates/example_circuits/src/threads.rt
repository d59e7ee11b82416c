//! The validator by two threads.
ghost use Rattle.std.specs.Prelude.{◌≡◌, IsTrue, IfSome};
ghost use Rattle.term_table.specs.Passes.{IsOf};
ghost use Rattle.example_circuits.specs.Meaning.{Inputs, output};
ghost use Rattle.example_circuits.specs.Encoded.{IsOutput};

use crate::circuit::Circuit;
use crate::gate::Gate;
use crate::validator::{CHAINS, TERMS, encode};
use std::alloc::Global;
use std::thread;
use std::thread::Threads;
use term_table::{Pass, TermTable, Ticket};

/// The ticket of a circuit's output, and the pass that has seen it.
#[derive(Drop)]
pub struct Encoded {
    pub pass: Pass,
    pub output: Ticket,
}

fn encode_own(table: &TermTable, mut pass: Pass, circuit: &Circuit) -> Option<Encoded>
    requires { IsOf table.now pass }
    ensures { IfSome result (IsOutput table.now circuit.now) }
{
    let output = encode(table, &mut pass, circuit)?;
    Some(Encoded { pass, output })
}

/// Returns the same as `are_alike`, where each thread has a circuit.
pub fn are_alike_by_two(
    rt: &impl Threads,
    alloc: Global,
    left: &Circuit,
    right: &Circuit,
) -> Option<bool>
    ensures { IfSome result (λ alike. IsTrue alike → (e : Inputs) → output left.now e ≡ output right.now e) }
{
    let (table, first, second) = TermTable::open_two(alloc, TERMS, CHAINS).ok()?;
    let shared = &table;
    let (one, other) = thread::join(
        rt,
        move ||
            requires { IsOf shared.now first }
            ensures { IfSome result (IsOutput shared.entry.now left.entry.now) }
        { encode_own(shared, first, left) },
        move ||
            requires { IsOf shared.now second }
            ensures { IfSome result (IsOutput shared.entry.now right.entry.now) }
        { encode_own(shared, second, right) },
    );
    let mut one = one?;
    let mut other = other?;
    let note = table.note(&mut one.pass);
    table.learn(&mut other.pass, note);
    Some(other.pass.same_term::<Gate>(one.output, other.output))
}
