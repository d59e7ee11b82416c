//! The first difference of two sides, by tickets.
ghost use Rattle.std.specs.Prelude.{◌≡◌, ◌≢◌, ℕ, ◌<◌, ◌↔◌, IsTrue, IfSome, IfNone, MatchOption, Contains, slice_index};
ghost use Rattle.sym_exec.specs.declared.state.Guard.{Guard as AGuard};
ghost use Rattle.block_validator.specs.declared.place.Place.{Place as APlace};
ghost use Rattle.block_validator.specs.Same.{IsPlace, SameTicketsAt, TicketsDifferFirst};

use crate::place::Place;
use mips_isa::NonzeroReg;
use sym_exec::{Guard, SymState, TermPlaces};

fn first_register(a: &TermPlaces, b: &TermPlaces) -> Option<NonzeroReg>
    ensures some { IfSome result (λ r. (0 < r) × (r < 32) × (slice_index a.now.regs r ≢ slice_index b.now.regs r)
        × ((q : ℕ) → 0 < q → q < r → slice_index a.now.regs q ≡ slice_index b.now.regs q)) }
    ensures none { IfNone result ((q : ℕ) → 0 < q → q < 32 → slice_index a.now.regs q ≡ slice_index b.now.regs q) }
{
    for r in 1..32u8 {
        if a.regs[r as usize] != b.regs[r as usize] {
            return NonzeroReg::new(r);
        }
    }
    None
}

fn has_guard(guards: &[Guard], guard: &Guard) -> bool
    ensures { IsTrue result ↔ Contains guards.now guard.now }
{
    for other in guards {
        if *other == *guard {
            return true;
        }
    }
    false
}

/// Reports whether each of the second's guards is one of the first's. Most stand near their places there, so it looks from these on first.
fn has_guards(a: &[Guard], b: &[Guard]) -> bool
    ensures { IsTrue result ↔ ((g : AGuard) → Contains b.now g → Contains a.now g) }
{
    for k in 0..b.len() {
        let (before, from) = a.split_at(k.min(a.len()));
        let guard = &b[k];
        if !has_guard(from, guard) && !has_guard(before, guard) {
            return false;
        }
    }
    true
}

pub(crate) fn first_difference(a: &SymState, b: &SymState) -> Option<Place>
    ensures { MatchOption result ((q : APlace) → IsPlace q → SameTicketsAt q a.now b.now) (TicketsDifferFirst a.now b.now) }
{
    if let Some(r) = first_register(&a.places, &b.places) {
        return Some(Place::Register(r));
    }
    if a.places.hi != b.places.hi {
        return Some(Place::Hi);
    }
    if a.places.lo != b.places.lo {
        return Some(Place::Lo);
    }
    if a.places.memory != b.places.memory {
        return Some(Place::Memory);
    }
    if a.exit != b.exit {
        return Some(Place::Exit);
    }
    if !has_guards(a.guards.as_slice(), b.guards.as_slice()) {
        return Some(Place::Guards);
    }
    None
}
