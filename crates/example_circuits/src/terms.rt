//! Terms of gates.
ghost use Rattle.std.specs.Prelude.{◌≡◌, ◌≤◌, ◌⊎◌, Bool, not, [], ◌∷◌, List, IfSome, length};
ghost use Rattle.term_table.specs.Passes.{IsOf};
ghost use Rattle.term_table.specs.Trees.{Extends};
ghost use Rattle.term_table.specs.Terms.{HasSeenTerm, HasSeenTerms};
ghost use Rattle.term_table.specs.Meanings.{Means, AllMean};
ghost use Rattle.example_circuits.specs.Gates.{gate_coding, gate_arity};
ghost use Rattle.example_circuits.specs.Meaning.{Inputs, made, gates, Commutes};

use crate::gate::Gate;
use term_table::{Pass, TermTable, Ticket};

/// Returns the ticket of a gate over these inputs. None if the pass has linked all it may.
pub fn make(table: &TermTable, pass: &mut Pass, gate: Gate, inputs: &[Ticket]) -> Option<Ticket>
    requires own { IsOf table.now pass.old }
    requires seen { HasSeenTerms gate_coding pass.old inputs.now }
    requires arity { length inputs.now ≡ gate_arity gate }
    ensures own { IsOf table.now pass.new }
    ensures extends { Extends pass.old pass.new }
    ensures means { (fs : Inputs → List Bool) → AllMean gates pass.old inputs.now fs
        → IfSome result (λ t. Means gates pass.new t (λ e. made gate e (fs e))) }
{
    match table.intern(pass, gate, inputs) {
        Ok(made) => Some(made.ticket),
        Err(_) => None,
    }
}

/// Returns two tickets in their order.
fn in_order(first: Ticket, second: Ticket) -> (Ticket, Ticket)
    ensures order { result.0 ≤ result.1 }
    ensures same { (result ≡ (first, second)) ⊎ (result ≡ (second, first)) }
{
    if first <= second {
        (first, second)
    } else {
        (second, first)
    }
}

/// Returns the ticket of a gate whose inputs may be swapped. They come in the order of their tickets, so both ways round give one ticket.
#[tactic(auto, using(term_table::proofs::TermCallers::interning, term_table::proofs::Meanings::meanings))]
pub fn make_ordered(
    table: &TermTable,
    pass: &mut Pass,
    gate: Gate,
    first: Ticket,
    second: Ticket,
) -> Option<Ticket>
    requires own { IsOf table.now pass.old }
    requires first { HasSeenTerm gate_coding pass.old first }
    requires second { HasSeenTerm gate_coding pass.old second }
    requires arity { gate_arity gate ≡ 2 }
    requires commutes { Commutes gate }
    ensures own { IsOf table.now pass.new }
    ensures extends { Extends pass.old pass.new }
    ensures means { (f g : Inputs → Bool) → Means gates pass.old first f → Means gates pass.old second g
        → IfSome result (λ t. Means gates pass.new t (λ e. made gate e (f e ∷ g e ∷ []))) }
{
    let (low, high) = in_order(first, second);
    make(table, pass, gate, &[low, high])
}

/// Returns the ticket of the inverse. The inverse of an inverse is what that inverts.
#[tactic(auto, using(term_table::proofs::TermCallers::interning, term_table::proofs::Meanings::meanings))]
pub fn invert(table: &TermTable, pass: &mut Pass, input: Ticket) -> Option<Ticket>
    requires own { IsOf table.now pass.old }
    requires seen { HasSeenTerm gate_coding pass.old input }
    ensures own { IsOf table.now pass.new }
    ensures extends { Extends pass.old pass.new }
    ensures means { (f : Inputs → Bool) → Means gates pass.old input f → IfSome result (λ t. Means gates pass.new t (λ e. not (f e))) }
{
    let node = table.read::<Gate>(pass, input);
    match node.label {
        Gate::Not => Some(node.children[0]),
        _ => make(table, pass, Gate::Not, &[input]),
    }
}
