//! The deques at the start.
ghost use Rattle.std.specs.Prelude.{◌≡◌, ◌+◌, ◌%◌, ◌<◌, ◌≤◌, [], ◌∷◌, IfOk, OnOk, true, length, map};
ghost use Rattle.crossbeam_deque.specs.Handles.{view, worker_view, worker_flavor, worker_deque, stealer_deque};
ghost use Rattle.term_table.specs.declared.limits.TheConstants.{MAX_PASSES};
ghost use Rattle.steal_pool.specs.Rule.{maker, shared, after_putting, KeptByPutting, KeptBySharing};
ghost use Rattle.steal_pool.specs.Victims.{IsVictim};
ghost use Rattle.steal_pool.specs.Shares.{Begins};
ghost use Rattle.steal_pool.specs.Starts.{AreVictims, AreFilled};

use crate::rule::{Fact, Puts, Shared, Shares};
use crate::victim::Victim;
use crate::view::View;
use crossbeam_deque::Worker;
use std::alloc::{AllocError, Global};

/// Returns the remainder of the next number, divided by count.
fn next_remainder(remainder: usize, count: usize) -> usize
    requires { remainder < count }
    ensures { result ≡ (remainder + 1) % count }
{
    let next = remainder + 1;
    if next == count { 0 } else { next }
}

/// Returns a deque with the tasks below n whose number leaves w. Their remainders are counted, since a division takes long.
pub(crate) fn filled_deque<K: Fact>(
    alloc: Global,
    w: usize,
    count: usize,
    n: usize,
) -> Result<Worker<usize, Global, View, Shared<K>>, AllocError>
    requires some { 0 < count }
    requires begins { K.real [] (maker ∷ []) }
    requires puts { KeptByPutting K.real }
    ensures fifo { IfOk result (λ d. worker_flavor d ≡ 0) }
    ensures tasks { IfOk result (λ d. Begins w count n (worker_view d)) }
{
    let mut own = Worker::<usize, Global, View, Shared<K>>::fifo_as(
        alloc,
        (n / count).saturating_add(1),
    )?;
    let mut remainder = 0;
    for i in 0..n {
        if remainder == w {
            put(&mut own, i)?;
        }
        remainder = next_remainder(remainder, count);
    }
    Ok(own)
}

fn put<K: Fact>(
    own: &mut Worker<usize, Global, View, Shared<K>>,
    i: usize,
) -> Result<(), AllocError>
    requires may { (worker_view own.old).puts ≡ true }
    requires puts { KeptByPutting K.real }
    ensures fifo { worker_flavor own.new ≡ worker_flavor own.old }
    ensures tasks { OnOk result (worker_view own.new ≡ after_putting (worker_view own.old) (i ∷ [])) }
{
    match own.push_as::<Puts>(i) {
        Ok(()) => Ok(()),
        Err(_) => Err(AllocError),
    }
}

/// Returns the ways of member w to the others, the next one first.
pub(crate) fn victims_of<K: Fact>(
    alloc: Global,
    workers: &mut Vec<Worker<usize, Global, View, Shared<K>>>,
    w: usize,
    n: usize,
) -> Result<Vec<Victim<K>>, AllocError>
    requires count { (w < length workers.old.items) × (length workers.old.items ≤ MAX_PASSES) }
    requires filled { AreFilled (length workers.old.items) n workers.old.items }
    requires shares { KeptBySharing K.real }
    ensures same { OnOk result ((length workers.new.items ≡ length workers.old.items)
        × (map (λ d. worker_deque d) workers.new.items ≡ map (λ d. worker_deque d) workers.old.items)) }
    ensures filled { OnOk result (AreFilled (length workers.old.items) n workers.new.items) }
    ensures ways { IfOk result (λ v. AreVictims n (map (λ d. worker_deque d) workers.old.items) w v.items) }
{
    let mut victims = Vec::new(alloc);
    for step in 1..workers.len() {
        let at = (w + step) % workers.len();
        let victim = victim_to(&mut workers[at])?;
        victims.push(victim)?;
    }
    Ok(victims)
}

fn victim_to<K: Fact>(
    worker: &mut Worker<usize, Global, View, Shared<K>>,
) -> Result<Victim<K>, AllocError>
    requires fifo { worker_flavor worker.old ≡ 0 }
    requires shares { KeptBySharing K.real }
    ensures same { (worker_deque worker.new ≡ worker_deque worker.old) × (worker_flavor worker.new ≡ worker_flavor worker.old)
        × (worker_view worker.new ≡ worker_view worker.old) }
    ensures victim { IfOk result (λ l. IsVictim l × (view l.pass ≡ shared (worker_view worker.old))) }
    ensures deque { IfOk result (λ l. stealer_deque l.stealer ≡ worker_deque worker.old) }
{
    let stealer = worker.stealer()?;
    let pass = worker.another::<Shares>();
    Ok(Victim { stealer, pass })
}
