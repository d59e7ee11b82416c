//! Whole calls on the nodes, over a pass's seat.
ghost use Rattle.std.specs.Prelude.{◌≡◌, ◌<◌, ◌≤◌, ◌%◌};
ghost use Rattle.term_core.specs.declared.Call.TheVariants.{Find, Intern};
ghost use Rattle.term_core.specs.World.{kid_word};
ghost use Rattle.term_table.specs.Rule.{mix, scattered, chain_of};
ghost use Rattle.term_table.specs.Seats.{Serves, IsSameSeat, MayBegin};
ghost use Rattle.term_table.specs.Calls.{before, Ended, Done};
ghost use Rattle.term_table.specs.Answers.{sought_answer};
ghost use Rattle.term_table.specs.declared.limits.TheConstants.{LARGE_MAX_HEADS};

use crate::nodes::Nodes;
use crate::rule::Act;
use crate::ticket::Ticket;
use crate::view::{InternEnd, View};
use atomic_table::Seat;

// An odd number near 2^64 divided by the golden ratio: multiples of it lie far apart modulo 2^64.
const SCATTER: u64 = 11400714819323198485;

/// Returns the content word of a child: its ticket and one, or 0.
fn kid_at(kids: &[Ticket], i: usize) -> u64
    ensures { result ≡ kid_word kids.now i }
{
    if i < kids.len() { kids[i].word() } else { 0 }
}

/// Returns one number more in a hash.
fn mix_in(hash: u64, number: u64) -> u64
    ensures { result ≡ mix hash number }
{
    hash.wrapping_mul(SCATTER).wrapping_add(number)
}

/// Returns the hash with all but its low eight bits scattered over the heads: numbers in sequence stay in sequence, and strides don't meet.
fn scatter_hash(heads: u64, hash: u64) -> u64
    requires { heads ≤ LARGE_MAX_HEADS }
    ensures { result ≡ scattered heads hash }
{
    (hash / 256).wrapping_mul(SCATTER) / 4294967296 * heads / 4294967296 + hash % 256
}

/// Returns what is left of a number by the heads. Where it lies below them, as most do, nothing is divided.
#[inline(always)]
fn below(heads: u64, number: u64) -> u64
    requires { 0 < heads }
    ensures value { result ≡ number % heads }
    ensures range { result < heads }
{
    if number < heads {
        number
    } else {
        number % heads
    }
}

/// Returns the chain of a term.
fn chain_at(heads: u64, word: u64, kids: &[Ticket]) -> u64
    requires { (0 < heads) × (heads ≤ LARGE_MAX_HEADS) }
    ensures value { result ≡ chain_of heads word kids.now }
    ensures range { result < heads }
{
    let mut hash = word;
    for kid in kids {
        hash = mix_in(hash, kid.number());
    }
    below(heads, scatter_hash(heads, hash))
}

impl Nodes {
    pub(crate) fn intern_with<C: Act>(
        &self,
        seat: &mut Seat<(), View>,
        word: u64,
        kids: &[Ticket],
        own: u64,
        room: u64,
    ) -> (InternEnd, u64)
        requires table { Serves self.now C.begun.shape seat.old }
        requires call { C.begun.call ≡ Intern word kids.now }
        requires own { (own ≡ C.begun.start.own) × (room ≡ C.begun.start.room) }
        requires may { MayBegin C.begun }
        requires before { seat.old.me ≡ before C.begun }
        ensures table { IsSameSeat seat.old seat.new }
        ensures ended { Done C.begun result.0 result.1 seat.new.me.0 }
    {
        let words = [word, kid_at(kids, 0), kid_at(kids, 1), kid_at(kids, 2)];
        self.intern_as::<C>(
            seat,
            &words,
            chain_at(self.size.heads, word, kids),
            own,
            room,
        )
    }

    pub(crate) fn find_with<C: Act>(
        &self,
        seat: &mut Seat<(), View>,
        word: u64,
        kids: &[Ticket],
    ) -> (Option<u64>, u64)
        requires table { Serves self.now C.begun.shape seat.old }
        requires call { C.begun.call ≡ Find word kids.now }
        requires may { MayBegin C.begun }
        requires before { seat.old.me ≡ before C.begun }
        ensures table { IsSameSeat seat.old seat.new }
        ensures ended { Ended C.begun (sought_answer result.0) C.begun.start.own C.begun.start.room result.1 seat.new.me.0 }
    {
        let words = [word, kid_at(kids, 0), kid_at(kids, 1), kid_at(kids, 2)];
        self.find_as::<C>(seat, &words, chain_at(self.size.heads, word, kids))
    }
}
