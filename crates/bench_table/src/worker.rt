//! One thread's work: it interns a part of the terms, which have two children each.
ghost use Rattle.std.specs.Prelude.{◌≡◌, ◌+◌, ◌*◌, ◌<◌, ◌≤◌, IfSome, All, length};
ghost use Rattle.term_table.specs.Passes.{IsOf};
ghost use Rattle.term_table.specs.Terms.{HasSeenTerm};
ghost use Rattle.bench_table.specs.Labels.{label_coding};
ghost use Rattle.bench_table.specs.Ready.{IsReady};

use crate::label::Shape;
use std::alloc::Global;
use std::sync::atomic::{AtomicU64, Ordering};
use std::thread::yield_now;
use std::time::{Clock, Instant};
use term_table::{Pass, TermTable, Ticket};

/// How many leaves there are; each pair of leaves makes a term.
pub const LEAVES: u32 = 1024;

/// How long a thread is busy before a round begins, in nanoseconds.
const WARM_UP: u128 = 20_000_000;

/// Where the workers of a round wait for one another, so that the start of threads isn't measured.
#[derive(Drop)]
pub struct Start {
    clock_start: Instant,
    count: u64,
    come: AtomicU64,
}

impl Start {
    pub fn new(clock_start: Instant, count: u64) -> Start {
        Start {
            clock_start,
            count,
            come: AtomicU64::new(0),
        }
    }

    /// Returns when all have come; after some seconds in any case, since where no thread can be had the workers run one
    /// after another.
    fn wait(&self) {
        self.come.fetch_add(1, Ordering::SeqCst);
        for _ in 0..10_000_000u32 {
            if self.come.load(Ordering::SeqCst) >= self.count {
                return;
            }
            yield_now();
        }
    }

    /// Keeps the processor busy for a while, since one that slept comes to speed slowly, and the system spreads busy threads
    /// alone over processors.
    fn warm_up(&self, clock: &impl Clock) {
        let began = self.nanoseconds(clock);
        for _ in 0..10_000_000u32 {
            if self.nanoseconds(clock).saturating_sub(began) >= WARM_UP {
                return;
            }
        }
    }

    /// Returns nanoseconds by the clock, 0 if it fails.
    fn nanoseconds(&self, clock: &impl Clock) -> u128 {
        self.clock_start
            .elapsed(clock)
            .map_or(0, |time| time.as_nanos())
    }
}

/// The terms from `from` on and below `until`, as they come in an order: upward or downward, of the numbers or shuffled.
#[derive(Clone, Copy)]
pub struct Part {
    pub from: u32,
    pub until: u32,
    pub is_downward: bool,
    pub is_shuffled: bool,
}

/// A pass, the tickets of its leaves, how many terms there are, its own part of them, and when its last round began and ended.
#[derive(Drop)]
pub struct Worker {
    pub pass: Pass,
    pub leaves: Vec<Ticket>,
    pub terms: u32,
    pub part: Part,
    pub answered: u64,
    pub began: u128,
    pub ended: u128,
    // Keeps two workers of a list on different cache lines: a pass is written at each link.
    pub apart: [u64; 16],
}

impl Worker {
    /// Interns the leaves. None if memory ran out or the pass is full.
    pub fn new(
        alloc: Global,
        table: &TermTable,
        mut pass: Pass,
        terms: u32,
        part: Part,
    ) -> Option<Worker>
        requires pass { IsOf table.now pass }
        requires terms { terms ≤ LEAVES * LEAVES }
        ensures { IfSome result (IsReady table.now) }
    {
        let mut leaves = Vec::new(alloc);
        for n in 0..LEAVES {
            add_leaf(table, &mut pass, &mut leaves, n)?;
        }
        Some(Worker {
            pass,
            leaves,
            terms,
            part: Part {
                until: part.until.min(terms),
                ..part
            },
            answered: 0,
            began: 0,
            ended: 0,
            apart: [0; 16],
        })
    }

    /// Interns each of its terms once, from when all workers have come to the start.
    pub fn intern_all(&mut self, clock: &impl Clock, table: &TermTable, start: &Start)
        requires { IsReady table.now self.old }
        ensures { IsReady table.now self.new }
    {
        start.warm_up(clock);
        start.wait();
        self.began = start.nanoseconds(clock);
        self.intern_terms(table);
        self.ended = start.nanoseconds(clock);
    }

    /// Interns each of its terms once, and counts the tickets.
    fn intern_terms(&mut self, table: &TermTable)
        requires { IsReady table.now self.old }
        ensures { IsReady table.now self.new }
    {
        let mut answered = 0u64;
        for i in self.part.from..self.part.until {
            let n = term_at(self.part, self.terms, i);
            if self.intern_pair(table, n) {
                answered = answered.saturating_add(1);
            }
        }
        self.answered = answered;
    }

    /// Interns the term of one pair of leaves.
    fn intern_pair(&mut self, table: &TermTable, n: u32) -> bool
        requires ready { IsReady table.now self.old }
        requires term { n < self.old.terms }
        ensures ready { IsReady table.now self.new }
        ensures part { (self.new.terms ≡ self.old.terms) × (self.new.part ≡ self.old.part) }
    {
        let first = self.leaves[(n / LEAVES) as usize];
        let second = self.leaves[(n % LEAVES) as usize];
        table
            .intern(&mut self.pass, Shape::Pair, &[first, second])
            .is_ok()
    }
}

/// Returns the term that comes at `i` of so many. The multiplier has no divisor in common with 2,000, 200,000 and 1,000,000.
fn term_at(part: Part, terms: u32, i: u32) -> u32
    requires { i < terms }
    ensures { result < terms }
{
    let n = if part.is_downward { terms - 1 - i } else { i };
    if part.is_shuffled {
        (u64::from(n) * 123_607 % u64::from(terms)) as u32
    } else {
        n
    }
}

/// Interns one leaf more.
fn add_leaf(table: &TermTable, pass: &mut Pass, leaves: &mut Vec<Ticket>, n: u32) -> Option<()>
    requires pass { IsOf table.now pass.old }
    requires seen { All (HasSeenTerm label_coding pass.old) leaves.old.items }
    ensures pass { IsOf table.now pass.new }
    ensures seen { IfSome result (λ _. All (HasSeenTerm label_coding pass.new) leaves.new.items) }
    ensures count { IfSome result (λ _. length leaves.new.items ≡ length leaves.old.items + 1) }
{
    let Ok(made) = table.intern(pass, Shape::Leaf(n), &[]) else {
        return None;
    };
    let Ok(()) = leaves.push(made.ticket) else {
        return None;
    };
    Some(())
}
