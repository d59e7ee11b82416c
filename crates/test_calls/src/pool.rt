//! What the workers of a pool do with one table.
ghost use Rattle.std.specs.Prelude.{◌≡◌, ◌*◌, ◌%◌, ◌^◌};
ghost use Rattle.term_table.specs.Passes.{IsOf};

use std::alloc::Global;
use std::process::Abort;
use std::sync::Wait;
use std::sync::atomic::{AtomicBool, AtomicU64, Ordering};
use std::thread;
use std::thread::Threads;
use steal_pool::{Gate, Job, run};
use sym_terms::Label;
use term_table::{Pass, TermTable};

const TURNS: u32 = 10_000_000;

// A term for each task, and twice the task's number.
#[derive(Drop)]
struct Twice {
    table: TermTable,
}

impl Job for Twice {
    type Out = u64;

    ghost right = { λ job i out. out ≡ 2 * i % 2 ^ 64 };

    ghost suits = { λ job pass. IsOf job.table pass };

    fn work(&self, i: usize, pass: &mut Pass) -> u64 {
        let _term = self.table.intern(pass, Label::Const((i % 64) as u32), &[]);
        (i as u64).wrapping_mul(2)
    }
}

/// Two tasks that wait for each other at the gate.
#[derive(Drop)]
pub struct Meeting {
    first: usize,
    second: usize,
    here: AtomicBool,
    there: AtomicBool,
    late: AtomicBool,
}

impl Meeting {
    /// Returns a meeting of the tasks of these numbers.
    pub fn between(first: usize, second: usize) -> Meeting {
        Meeting {
            first,
            second,
            here: AtomicBool::new(false),
            there: AtomicBool::new(false),
            late: AtomicBool::new(false),
        }
    }

    /// Reports whether one has waited for the other in vain.
    pub fn is_late(&self) -> bool {
        self.late.load(Ordering::SeqCst)
    }
}

impl Gate for Meeting {
    fn enter(&self, i: usize) {
        if i == self.first {
            self.here.store(true, Ordering::SeqCst);
            wait_for(&self.there, &self.late);
        }
        if i == self.second {
            self.there.store(true, Ordering::SeqCst);
            wait_for(&self.here, &self.late);
        }
    }
}

fn wait_for(other: &AtomicBool, late: &AtomicBool) {
    for _ in 0..TURNS {
        if other.load(Ordering::SeqCst) {
            return;
        }
        thread::yield_now();
    }
    late.store(true, Ordering::SeqCst);
}

// Tells how many tasks began.
#[derive(Drop)]
struct Count {
    begun: AtomicU64,
}

impl Gate for Count {
    fn enter(&self, _i: usize) {
        self.begun.fetch_add(1, Ordering::SeqCst);
    }
}

/// Reports whether so many workers answer n tasks.
fn are_done<R: Abort + Threads + Wait + Sync, G: Gate + Sync>(
    rt: &R,
    alloc: Global,
    workers: u64,
    n: usize,
    gate: &G,
) -> bool {
    let (table, passes) = TermTable::open(alloc, workers, 128, 64).expect(rt, "a table");
    let all = run(rt, alloc, n, passes, &Twice { table }, gate);
    all.len() == n && !all.contains(&None)
}

/// Of two tasks that wait for each other, one has to be done while the other waits. Of three, the third is stolen from a worker that waits.
#[test]
fn tasks_that_meet_are_done_at_once(rt: HostRuntime) {
    for &(other, n) in [(1, 2), (2, 3)].as_slice() {
        let gate = Meeting::between(0, other);
        let are_done = are_done(&rt, rt.alloc(), 2, n, &gate);
        assert!(rt; are_done && !gate.is_late(), "of {n} tasks");
    }
}

// How many workers, and how many tasks.
const POOLS: &[(u64, usize)] = &[(1, 100), (3, 100), (64, 100), (2, 0)];

#[test]
fn each_task_is_done_once(rt: HostRuntime) {
    for &(workers, n) in POOLS {
        let gate = Count {
            begun: AtomicU64::new(0),
        };
        let are_done = are_done(&rt, rt.alloc(), workers, n, &gate);
        assert!(rt;
            are_done && gate.begun.load(Ordering::SeqCst) == n as u64,
            "with {workers} workers"
        );
    }
}
