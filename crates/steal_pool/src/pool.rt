//! Workers that steal: a task whose worker couldn't start is done by another.
ghost use denote.Param.Send.{IsSync, IsSend};
ghost use Rattle.std.specs.Prelude.{◌<◌, ◌≤◌, All, vec_len};
ghost use Rattle.std.specs.Fork.{AcceptsEach};
ghost use Rattle.term_table.specs.declared.limits.TheConstants.{MAX_PASSES};
ghost use Rattle.steal_pool.specs.Places.{EachPlace};
ghost use Rattle.steal_pool.specs.Members.{IsMember};
ghost use Rattle.steal_pool.specs.Threads.{LeavesEach};

use crate::answers::{nones, put_done};
use crate::job::{Gate, Job};
use crate::member::Member;
use crate::start::members;
use crate::unmarked::Unmarked;
use std::alloc::Global;
use std::sync::Wait;
use std::thread::{Threads, for_each_mut, join_mut};
use term_table::Pass;

// One worker: its place among the deques, its pass of the table, and what it has answered.
#[derive(Drop)]
pub(crate) struct Station<O> {
    pub(crate) member: Member<Unmarked>,
    pub(crate) pass: Pass,
    pub(crate) done: Vec<(usize, O)>,
}

/// Returns the answers of the tasks below n, each at the place of its task. There is a worker for each pass, but no more than tasks. A
/// place without an answer is a task that was missed: memory or a worker's start was refused. There are fewer places than n only where
/// memory for them was refused. The gate is told of each task just before it begins, by the worker that does it.
pub fn run<R: Threads + Wait + Sync, J: Job + Sync, G: Gate + Sync>(
    rt: &R,
    alloc: Global,
    n: usize,
    passes: Vec<Pass>,
    job: &J,
    gate: &G,
) -> Vec<Option<J::Out>>
    requires workers { (0 < vec_len passes) × (vec_len passes ≤ MAX_PASSES) }
    requires suits { All (J.suits job.now) passes.items }
    ensures len { vec_len result ≤ n }
    ensures right { EachPlace (J.right job.now) result.items }
{
    let mut all = nones(alloc, n);
    let count = passes.len().min(all.len());
    if count == 0 {
        return all;
    }
    let Ok(members) = members::<Unmarked>(alloc, count, all.len()) else {
        return all;
    };
    let mut stations = stations::<J>(alloc, passes, members, job);
    do_all(rt, job, gate, stations.as_mut_slice());
    for station in stations {
        put_done(job, &mut all, station.done);
    }
    all
}

/// Returns a station for each pass that has a member. If memory ran out there are fewer.
fn stations<J: Job>(
    alloc: Global,
    passes: Vec<Pass>,
    mut members: Vec<Member<Unmarked>>,
    job: &J,
) -> Vec<Station<J::Out>>
    requires suits { All (J.suits job.now) passes.items }
    requires members { All IsMember members.items }
    ensures { All (λ s. IsMember s.member × J.suits job.now s.pass × All (λ d. J.right job.now d.0 d.1) s.done.items) result.items }
{
    let mut stations = Vec::new(alloc);
    for pass in passes {
        let done = Vec::new(alloc);
        let Some(member) = members.pop() else {
            return stations;
        };
        if stations.push(Station { member, pass, done }).is_err() {
            return stations;
        }
    }
    stations
}

/// Runs each station in a thread of its own, if one can be made.
fn do_all<R: Threads + Wait + Sync, J: Job + Sync, G: Gate + Sync>(
    rt: &R,
    job: &J,
    gate: &G,
    stations: &mut [Station<J::Out>],
)
    requires ready { All (λ s. IsMember s.member × J.suits job.now s.pass × All (λ d. J.right job.now d.0 d.1) s.done.items) stations.old }
    ensures { All (λ s. All (λ d. J.right job.now d.0 d.1) s.done.items) stations.new }
{
    let run_one = |_w: usize, station: &mut Station<J::Out>|
        requires { IsMember station.now.member × J.suits job.now station.now.pass
            × All (λ d. J.right job.now d.0 d.1) station.now.done.items }
        ensures { All (λ d. J.right job.entry.now d.0 d.1) station.exit.now.done.items }
    { work(rt, job, gate, station) };
    if stations.len() < 2 {
        for_each_mut(rt, stations, 1, &run_one);
        return;
    }
    let (first, others) = stations.split_at_mut(1);
    for_first_and_others(rt, &run_one, first, others);
}

/// Calls `f` at each value, each call in a thread of its own, the last one in this thread. This thread begins the thread of the first value,
/// and those of two others. `for_each_mut` alone has a new thread begin one of four. Linux often puts that on the processor of the thread
/// that began it, where it waits for some milliseconds.
fn for_first_and_others<R: Threads + Sync, T: Send, F: Fn(usize, &mut T) + Sync>(
    rt: &R,
    f: &F,
    first: &mut [T],
    others: &mut [T],
)
    requires first { AcceptsEach F.Fn f.now first.old }
    requires others { AcceptsEach F.Fn f.now others.old }
    ensures first { LeavesEach F.Fn f.now first.old first.new }
    ensures others { LeavesEach F.Fn f.now others.old others.new }
{
    let count = others.len().max(1);
    let mut one = ||
        requires { IsSync R.row × IsSync F.row × IsSend T.row × AcceptsEach F.Fn f.now first.now }
        ensures { LeavesEach F.Fn f.entry.now first.entry.now first.exit.now }
    { for_each_mut(rt, first, 1, f) };
    let mut rest = ||
        requires { IsSync R.row × IsSync F.row × IsSend T.row × (0 < count) × AcceptsEach F.Fn f.now others.now }
        ensures { LeavesEach F.Fn f.entry.now others.entry.now others.exit.now }
    { for_each_mut(rt, others, count, f) };
    join_mut(rt, &mut one, &mut rest);
}

/// Takes tasks until each deque was found empty.
fn work<R: Wait, J: Job, G: Gate>(rt: &R, job: &J, gate: &G, station: &mut Station<J::Out>)
    requires member { IsMember station.old.member }
    requires suits { J.suits job.now station.old.pass }
    requires right { All (λ d. J.right job.now d.0 d.1) station.old.done.items }
    ensures right { All (λ d. J.right job.now d.0 d.1) station.new.done.items }
{
    for _ in rt.forever() {
        if station.done.reserve(1).is_err() {
            break;
        }
        let Some(i) = station.member.take::<Unmarked, R>(rt) else {
            break;
        };
        gate.enter(i);
        let out = job.work(i, &mut station.pass);
        station.done.push_reserved((i, out));
    }
}
