//! The members of a pool at the start.
ghost use Rattle.std.specs.Prelude.{◌≡◌, ℕ, ◌+◌, ◌<◌, ◌≤◌, [], ◌∷◌, All, IfOk, OnOk, Some, Vec, slice_get, length, map};
ghost use Rattle.std.specs.declared.alloc.Global.{Global};
ghost use Rattle.crossbeam_deque.specs.Handles.{worker_deque};
ghost use Rattle.term_table.specs.declared.limits.TheConstants.{MAX_PASSES};
ghost use Rattle.steal_pool.specs.declared.victim.Victim.{Victim};
ghost use Rattle.steal_pool.specs.declared.member.Member.{Member};
ghost use Rattle.steal_pool.specs.Rule.{maker, KeptByPutting, KeptBySharing};
ghost use Rattle.steal_pool.specs.Members.{IsMember};
ghost use Rattle.steal_pool.specs.Rounds.{GoesRound};
ghost use Rattle.steal_pool.specs.Starts.{AreFilled, AreVictims, Start, own_deques};

use crate::deques::{filled_deque, victims_of};
use crate::member::Member;
use crate::rule::{Fact, Shared};
use crate::victim::Victim;
use crate::view::View;
use crossbeam_deque::Worker;
use std::alloc::{AllocError, Global};

/// Returns the deques of all members.
fn filled_deques<K: Fact>(
    alloc: Global,
    count: usize,
    n: usize,
) -> Result<Vec<Worker<usize, Global, View, Shared<K>>>, AllocError>
    requires some { 0 < count }
    requires begins { K.real [] (maker ∷ []) }
    requires puts { KeptByPutting K.real }
    ensures len { IfOk result (λ ds. length ds.items ≡ count) }
    ensures filled { IfOk result (λ ds. AreFilled count n ds.items) }
{
    let mut workers = Vec::new(alloc);
    for w in 0..count {
        let own = filled_deque::<K>(alloc, w, count, n)?;
        workers.push(own)?;
    }
    Ok(workers)
}

/// Returns the ways of all members, those of the first one last.
fn all_ways<K: Fact>(
    alloc: Global,
    workers: &mut Vec<Worker<usize, Global, View, Shared<K>>>,
    n: usize,
) -> Result<Vec<Vec<Victim<K>>>, AllocError>
    requires few { length workers.old.items ≤ MAX_PASSES }
    requires filled { AreFilled (length workers.old.items) n workers.old.items }
    requires shares { KeptBySharing K.real }
    ensures same { OnOk result (length workers.new.items ≡ length workers.old.items) }
    ensures filled { OnOk result (AreFilled (length workers.old.items) n workers.new.items) }
    ensures len { IfOk result (λ v. length v.items ≡ length workers.old.items) }
    ensures ways { IfOk result (λ vs. (k w : ℕ) (v : Vec (Victim K) Global) → slice_get vs.items k ≡ Some v
        → k + w + 1 ≡ length workers.old.items → AreVictims n (map (λ d. worker_deque d) workers.new.items) w v.items) }
{
    let mut ways = Vec::new(alloc);
    for w in (0..workers.len()).rev() {
        let victims = victims_of::<K>(alloc, workers, w, n)?;
        ways.push(victims)?;
    }
    Ok(ways)
}

/// Returns the members of a pool, each with a deque of its own and a way to all others. Task i below n lies on the deque of the member i %
/// count; an Err means out of memory. Where there are more members than tasks, the last deques stay empty.
pub fn members<K: Fact>(alloc: Global, count: usize, n: usize) -> Result<Vec<Member<K>>, AllocError>
    requires count { (0 < count) × (count ≤ MAX_PASSES) }
    requires begins { K.real [] (maker ∷ []) }
    requires puts { KeptByPutting K.real }
    requires shares { KeptBySharing K.real }
    ensures start { IfOk result (λ ms. Start count n ms.items) }
    ensures round { IfOk result (λ ms. (w : ℕ) (m : Member K) → slice_get ms.items w ≡ Some m → GoesRound n (own_deques ms.items) w m) }
    ensures each { IfOk result (λ ms. All IsMember ms.items) }
{
    let mut workers = filled_deques::<K>(alloc, count, n)?;
    let mut ways = all_ways::<K>(alloc, &mut workers, n)?;
    let mut members = Vec::new(alloc);
    for own in workers {
        let Some(others) = ways.pop() else {
            unreachable!()
        };
        members.push(Member { own, others })?;
    }
    Ok(members)
}
