//! How fast the term table is: interns a second of distinct terms with two children each.
//!
//! Time is taken from when all threads have begun to when the last has ended. The table's words were written before, when it was laid out.
//! Each plan has two rounds. In the second round all terms are there.

ghost use Rattle.std.specs.Prelude.{◌*◌, ◌<◌, ◌≤◌, All, IfSome};
ghost use Rattle.term_table.specs.Passes.{IsOf};
ghost use Rattle.bench_table.specs.Ready.{IsReady};

use crate::worker::{Part, Start, Worker};
use std::alloc::Global;
use std::thread::Threads;
use std::time::{Clock, Instant};
use std::{io, thread};
use term_table::{Pass, TermTable};

/// Which terms each thread interns: a part of its own, or all of them, every other thread downward.
#[derive(Clone, Copy)]
struct Plan {
    title: &'static str,
    is_shared: bool,
    is_shuffled: bool,
}

#[rattlefmt::skip]
const PLANS: [Plan; 4] = [
    Plan { title: "terms divided among the threads, in order", is_shared: false, is_shuffled: false },
    Plan { title: "terms divided among the threads, shuffled", is_shared: false, is_shuffled: true },
    Plan { title: "all terms by each thread, in order", is_shared: true, is_shuffled: false },
    Plan { title: "all terms by each thread, shuffled", is_shared: true, is_shuffled: true },
];

/// How many terms there are, how many a pass may link, over how many chains, how many runs are made, and whether they are timed.
#[derive(Clone, Copy)]
pub(crate) struct Setting {
    terms: u32,
    nodes: u64,
    chains: u64,
    runs: u32,
    is_timed: bool,
    ghost few: { terms ≤ 1024 * 1024 },
}

/// What the gate compares.
#[rattlefmt::skip]
pub(crate) const SMALL: Setting = Setting { terms: 2_000, nodes: 4_096, chains: 65_536, runs: 1, is_timed: false };

/// As many terms as `TermTable::open` has chains for.
#[rattlefmt::skip]
pub(crate) const MIDDLE: Setting = Setting { terms: 200_000, nodes: 262_144, chains: 65_536, runs: 15, is_timed: true };

/// As many as `TermTable::open_large` is for.
#[rattlefmt::skip]
pub(crate) const LARGE: Setting = Setting { terms: 1_000_000, nodes: 1_048_576, chains: 1_048_576, runs: 5, is_timed: true };

/// How many threads there are, one case after another.
const COUNTS: [u32; 3] = [1, 2, 4];

/// Returns where the part of worker `k` of `count` begins.
fn cut(terms: u32, k: u32, count: u32) -> u32 {
    let at = u64::from(terms) * u64::from(k) / u64::from(count.max(1));
    at.min(u64::from(terms)) as u32
}

/// Returns the part of worker `k` of `count`.
fn part_of(plan: Plan, terms: u32, k: u32, count: u32) -> Part {
    let (from, until) = if plan.is_shared {
        (0, terms)
    } else {
        (cut(terms, k, count), cut(terms, k.saturating_add(1), count))
    };
    Part {
        from,
        until,
        is_downward: plan.is_shared && k % 2 == 1,
        is_shuffled: plan.is_shuffled,
    }
}

/// Returns workers for the passes, which have interned their leaves.
fn staff(
    alloc: Global,
    table: &TermTable,
    passes: Vec<Pass>,
    terms: u32,
    plan: Plan,
    count: u32,
) -> Option<Vec<Worker>>
    requires passes { All (IsOf table.now) passes.items }
    requires terms { terms ≤ 1024 * 1024 }
    ensures { IfSome result (λ w. All (IsReady table.now) w.items) }
{
    let mut workers = Vec::new(alloc);
    let mut k = 0u32;
    for pass in passes {
        let part = part_of(plan, terms, k, count);
        let worker = Worker::new(alloc, table, pass, terms, part)?;
        workers.push(worker).ok()?;
        k = k.saturating_add(1);
    }
    Some(workers)
}

/// Has each worker intern its terms in a thread of its own. Returns the nanoseconds from when the first began to when the last ended.
fn round<R: Threads + Sync + Clock>(
    rt: &R,
    table: &TermTable,
    workers: &mut [Worker],
) -> io::Result<u128>
    requires { All (IsReady table.now) workers.old }
    ensures { All (IsReady table.now) workers.new }
{
    let start = Start::new(Instant::now(rt)?, workers.len() as u64);
    thread::for_each_mut(
        rt,
        workers,
        4,
        &|_, worker| worker.intern_all(rt, table, &start),
    );
    Ok(span(workers))
}

/// Returns the nanoseconds from when the first worker began to when the last ended.
fn span(workers: &[Worker]) -> u128 {
    let mut began = u128::MAX;
    let mut ended = 0u128;
    for worker in workers {
        began = began.min(worker.began);
        ended = ended.max(worker.ended);
    }
    ended.saturating_sub(began)
}

/// What a run did: how many terms were linked, how many interns were answered, and the nanoseconds of both rounds.
#[derive(Clone, Copy)]
struct Figures {
    linked: u64,
    answered: u64,
    first: u128,
    again: u128,
}

/// Runs two rounds, and returns what the workers did.
fn two_rounds<R: Threads + Sync + Clock>(
    rt: &R,
    table: &TermTable,
    workers: &mut [Worker],
) -> io::Result<Figures>
    requires { All (IsReady table.now) workers.old }
{
    let first = round(rt, table, workers)?;
    let again = round(rt, table, workers)?;
    let mut linked = 0u64;
    let mut answered = 0u64;
    for worker in workers {
        linked = linked.saturating_add(worker.pass.linked());
        answered = answered.saturating_add(worker.answered);
    }
    Ok(Figures {
        linked,
        answered,
        first,
        again,
    })
}

/// Runs two rounds of `count` workers. None if memory ran out.
fn run<R: Threads + Sync + Clock>(
    rt: &R,
    alloc: Global,
    plan: Plan,
    count: u32,
    setting: Setting,
) -> io::Result<Option<Figures>> {
    let Setting { nodes, chains, .. } = setting;
    let Ok((table, passes)) = TermTable::open_large(alloc, u64::from(count), nodes, chains) else {
        return Ok(None);
    };
    let Some(mut workers) = staff(alloc, &table, passes, setting.terms, plan, count) else {
        return Ok(None);
    };
    Ok(Some(two_rounds(rt, &table, &mut workers)?))
}

/// Returns the fastest of both.
fn faster(best: Option<Figures>, now: Figures) -> Figures {
    let before = best.unwrap_or(now);
    Figures {
        first: now.first.min(before.first),
        again: now.again.min(before.again),
        ..now
    }
}

/// The fastest rounds of each plan by each number of threads.
type Best = [[Option<Figures>; 3]; 4];

/// Runs each plan as often as the setting says, in turn: other work on the machine slows all alike.
fn measure<R: Threads + Sync + Clock>(rt: &R, alloc: Global, setting: Setting) -> io::Result<Best> {
    let mut best = [[None; 3]; 4];
    for _ in 0..setting.runs {
        for p in 0..4 {
            for c in 0..3 {
                if let Some(now) = run(rt, alloc, PLANS[p], COUNTS[c], setting)? {
                    best[p][c] = Some(faster(best[p][c], now));
                }
            }
        }
    }
    Ok(best)
}

/// Returns interns a second.
fn rate(interns: u64, nanoseconds: u128) -> u128 {
    u128::from(interns) * 1_000_000_000 / nanoseconds.max(1)
}

fn print_row<R: Print>(
    rt: &R,
    count: u32,
    best: Option<Figures>,
    is_timed: bool,
) -> io::Result<()> {
    let Some(did) = best else {
        return println!(rt; "{count} threads: no memory");
    };
    println!(rt; "{count} threads: {} terms linked", did.linked)?;
    if !is_timed {
        return Ok(());
    }
    let first = rate(did.answered, did.first);
    let again = rate(did.answered, did.again);
    println!(rt; "  {first:>12} a second at first {again:>12} a second again")
}

/// Measures all plans, and prints of each how many terms were linked, which is the same in every run, and perhaps interns a second.
pub(crate) fn show<R: Threads + Sync + Clock + Print + AllocGlobal>(
    rt: &R,
    setting: Setting,
) -> io::Result<()> {
    let best = measure(rt, rt.alloc(), setting)?;
    println!(rt; "{} terms", setting.terms)?;
    for p in 0..4 {
        println!(rt; "{}:", PLANS[p].title)?;
        for c in 0..3 {
            print_row(rt, COUNTS[c], best[p][c], setting.is_timed)?;
        }
    }
    Ok(())
}
