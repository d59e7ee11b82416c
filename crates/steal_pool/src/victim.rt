//! The way of one member to the deque of another.
ghost use Rattle.std.specs.Prelude.{◌≡◌, [], ◌∷◌, MatchOption};
ghost use Rattle.crossbeam_deque.specs.Handles.{view, stealer_deque};
ghost use Rattle.steal_pool.specs.Rule.{after_taking, KeptByTaking, Notes};

use crate::rule::{Fact, Note, Shared, Takes};
use crate::view::View;
use crossbeam_deque::{Pass, Steal, Stealer};
use std::alloc::Global;
use std::sync::Wait;

/// A stealer, with a pass of its own.
#[derive(Drop)]
pub(crate) struct Victim<K: Fact> {
    pub(crate) stealer: Stealer<usize, Global, View, Shared<K>>,
    pub(crate) pass: Pass<usize, View>,
}

impl<K: Fact> Victim<K> {
    ghost use Rattle.steal_pool.specs.Victims.{IsVictim};

    /// Takes the first task of the deque, unless it was found empty.
    pub(crate) fn take<N: Note, R: Wait>(&mut self, rt: &R) -> Option<usize>
        requires victim { IsVictim self.old }
        requires keeps { KeptByTaking K.real }
        requires notes { Notes K.real N.empty }
        ensures victim { IsVictim self.new }
        ensures same { stealer_deque self.new.stealer ≡ stealer_deque self.old.stealer }
        ensures taken { MatchOption result ((view self.new.pass ≡ view self.old.pass)
            × N.empty (view self.old.pass)) (λ i. view self.new.pass ≡ after_taking (view self.old.pass) (i ∷ [])) }
    {
        for _ in rt.forever() {
            match self.stealer.steal_as::<Takes<N>>(&mut self.pass) {
                Steal::Success(i) => return Some(i),
                Steal::Empty => return None,
                Steal::Retry => {}
            }
        }
        unreachable!()
    }
}
