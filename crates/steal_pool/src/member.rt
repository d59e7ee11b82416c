//! A member takes the tasks of its own deque, and then steals from the others in turn.
ghost use Rattle.std.specs.Prelude.{◌≡◌, ◌<◌, ℕ, List, All, map, MatchOption, Some, ⊤};
ghost use Rattle.crossbeam_deque.specs.Handles.{view, stealer_deque};
ghost use Rattle.steal_pool.specs.declared.view.View.{View};
ghost use Rattle.steal_pool.specs.Rule.{KeptByTaking, Notes};
ghost use Rattle.steal_pool.specs.Victims.{IsVictim, TookOne};
ghost use Rattle.steal_pool.specs.Members.{IsMember, deques_of, views_of};
ghost use Rattle.steal_pool.specs.Rounds.{GoesRound, FoundEmpty};
ghost use Rattle.std.specs.declared.alloc.Global.{Global};
ghost use Rattle.atomic_blocks.specs.Lent.{RowsId};

use crate::rule::{Fact, Note, Shared, Takes};
use crate::victim::Victim;
use crate::view::View;
use crossbeam_deque::Worker;
use std::alloc::Global;
use std::sync::Wait;

/// One thread of a pool: its own deque, and the ways to the others.
#[derive(Drop)]
pub struct Member<K: Fact> {
    pub(crate) own: Worker<usize, Global, View, Shared<K>>,
    pub(crate) others: Vec<Victim<K>>,
}

impl<K: Fact> Member<K> {
    /// Takes a task of its own deque, the first one, or else one that it steals from the others in turn. A steal that must be tried again
    /// is tried again. With None each deque of the pool was found empty during the call.
    pub fn take<N: Note, R: Wait>(&mut self, rt: &R) -> Option<usize>
        requires member { IsMember self.old }
        requires keeps { KeptByTaking K.real }
        requires notes { Notes K.real N.empty }
        ensures member { IsMember self.new }
        ensures same { deques_of self.new ≡ deques_of self.old }
        ensures taken { MatchOption result ((views_of self.new ≡ views_of self.old)
            × All N.empty (views_of self.old)) (λ i. TookOne N.empty i (views_of self.old) (views_of self.new)) }
        ensures round { (n : ℕ) (deques : List (RowsId × Global)) (w : ℕ) → GoesRound n deques w self.old
            → GoesRound n deques w self.new × MatchOption result (FoundEmpty N.empty n deques w self.old) (λ _. ⊤) }
    {
        if let Some(i) = self.own.pop_as::<Takes<N>>() {
            return Some(i);
        }
        take_from::<K, N, R>(rt, &mut self.others)
    }
}

/// Takes a task of the first deque in turn that isn't found empty.
fn take_from<K: Fact, N: Note, R: Wait>(rt: &R, victims: &mut Vec<Victim<K>>) -> Option<usize>
    requires victims { All IsVictim victims.old.items }
    requires keeps { KeptByTaking K.real }
    requires notes { Notes K.real N.empty }
    ensures victims { All IsVictim victims.new.items }
    ensures same { map (λ l. stealer_deque l.stealer) victims.new.items ≡ map (λ l. stealer_deque l.stealer) victims.old.items }
    ensures taken { MatchOption result ((map (λ l. view l.pass) victims.new.items ≡ map (λ l. view l.pass) victims.old.items)
        × All N.empty (map (λ l. view l.pass) victims.old.items))
        (λ i. TookOne N.empty i (map (λ l. view l.pass) victims.old.items) (map (λ l. view l.pass) victims.new.items)) }
{
    for k in 0..victims.len() {
        let victim = &mut victims[k];
        if let Some(i) = victim.take::<N, R>(rt) {
            return Some(i);
        }
    }
    None
}
