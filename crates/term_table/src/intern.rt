//! A walk along a chain, which links a node of one's own where the term is not there.
//!
//! Here and in `seek.rt` a `Walk` says where a pass stands. `same_word` takes it for its contract alone.
ghost use Rattle.std.specs.Prelude.{◌≡◌, suc, ◌+◌, ◌-◌, ◌<◌, true, false, slice_index, IfSome, IfNone};
ghost use Rattle.term_core.specs.declared.Stage.TheVariants.{AtLink, AtContent, Writing, Linking};
ghost use Rattle.term_core.specs.declared.Answer.TheVariants.{Ticket};
ghost use Rattle.term_core.specs.declared.TheConstants.{CONTENT_WORDS, LAST_WORD};
ghost use Rattle.term_core.specs.World.{content, first_stage, link_of, hit};
ghost use Rattle.term_table.specs.Rule.{node_count, word_count};
ghost use Rattle.term_table.specs.Seats.{Serves, IsSameSeat, MayBegin};
ghost use Rattle.term_table.specs.Calls.{before, at, inside, IsIntern, Ended, Done};
ghost use Rattle.term_table.specs.declared.view.View.TheVariants.{Walking};

use crate::nodes::Nodes;
use crate::rule::Act;
use crate::view::{InternEnd, View, Walk};
use atomic_table::Seat;
use term_core::{CONTENT_WORDS, LAST_WORD};

impl Nodes {
    /// Fills a node of one's own that is not linked.
    pub(crate) fn write_node<C: Act>(
        &self,
        seat: &mut Seat<(), View>,
        words: &[u64; CONTENT_WORDS],
        own: u64,
        walk: Walk,
    ) -> Walk
        requires table { Serves self.now C.begun.shape seat.old }
        requires words { words.now ≡ content C.begun.call }
        requires own { (own ≡ C.begun.start.own) × (own < node_count self.now.size) }
        requires before { seat.old.me ≡ at C.begun (Writing C.begun.call walk.link 0) walk.probes }
        ensures table { seat.new.table_id ≡ seat.old.table_id }
        ensures after { seat.new.me ≡ at C.begun (Linking C.begun.call walk.link) walk.probes }
        ensures walk { result ≡ record walk { written = true } }
    {
        self.store::<C>(seat, self.content_place(own, 0), words[0]);
        self.store::<C>(seat, self.content_place(own, 1), words[1]);
        self.store::<C>(seat, self.content_place(own, 2), words[2]);
        self.store::<C>(seat, self.content_place(own, 3), words[3]);
        Walk {
            written: true,
            ..walk
        }
    }

    /// Compares one content word of a node.
    pub(crate) fn same_word<C: Act>(
        &self,
        seat: &mut Seat<(), View>,
        expected: u64,
        node: u64,
        index: u64,
        walk: Walk,
    ) -> bool
        requires table { Serves self.now C.begun.shape seat.old }
        requires word { (expected ≡ slice_index (content C.begun.call) index) × (index < CONTENT_WORDS) }
        requires node { node < node_count self.now.size }
        requires before { seat.old.me ≡ at C.begun (AtContent C.begun.call walk.written node index) walk.probes }
        ensures table { IsSameSeat seat.old seat.new }
        ensures more { result ≡ true → index < LAST_WORD
            → seat.new.me ≡ at C.begun (AtContent C.begun.call walk.written node (suc index)) walk.probes }
        ensures same { result ≡ true → index ≡ LAST_WORD
            → Ended C.begun (hit C.begun.call node) C.begun.start.own C.begun.start.room walk.probes seat.new.me.0 }
        ensures differs { result ≡ false
            → seat.new.me ≡ at C.begun (AtLink C.begun.call walk.written (link_of C.begun.shape node)) walk.probes }
    {
        let _ = walk;
        let found = self.load::<C>(seat, self.content_place(node, index));
        found == expected
    }

    /// Links one's own node, where none was linked; else answers what was.
    pub(crate) fn join<C: Act>(&self, seat: &mut Seat<(), View>, walk: Walk, own: u64) -> u64
        requires table { Serves self.now C.begun.shape seat.old }
        requires link { walk.link < word_count self.now.size }
        requires own { (own ≡ C.begun.start.own) × (own < node_count self.now.size) }
        requires before { seat.old.me ≡ at C.begun (Linking C.begun.call walk.link) walk.probes }
        ensures table { IsSameSeat seat.old seat.new }
        ensures linked { result ≡ 0
            → Ended C.begun (Ticket own) (own + 1) (C.begun.start.room - 1) walk.probes seat.new.me.0 }
        ensures lost { 0 < result → (seat.new.me.0 ≡ Walking (inside C.begun.start (AtContent C.begun.call true (result - 1) 0) walk.probes) C.begun.told)
            × (result - 1 < node_count self.now.size) }
    {
        self.link::<C>(seat, walk.link, own + 1)
    }

    /// Compares the content of a node word by word. Where it differs, the walk goes on at the node's link.
    pub(crate) fn same_content<C: Act>(
        &self,
        seat: &mut Seat<(), View>,
        words: &[u64; CONTENT_WORDS],
        node: u64,
        walk: Walk,
    ) -> Option<Walk>
        requires table { Serves self.now C.begun.shape seat.old }
        requires words { words.now ≡ content C.begun.call }
        requires node { node < node_count self.now.size }
        requires before { seat.old.me ≡ at C.begun (AtContent C.begun.call walk.written node 0) walk.probes }
        ensures table { IsSameSeat seat.old seat.new }
        ensures same { IfNone result
            (Ended C.begun (hit C.begun.call node) C.begun.start.own C.begun.start.room walk.probes seat.new.me.0) }
        ensures differs { IfSome result
            (λ w. seat.new.me ≡ at C.begun (AtLink C.begun.call walk.written (link_of C.begun.shape node)) walk.probes) }
        ensures next { IfSome result (λ w. w ≡ record walk { link = link_of C.begun.shape node }) }
    {
        let next = Walk {
            link: self.link_place(node),
            ..walk
        };
        for i in 0..LAST_WORD {
            if !self.same_word::<C>(seat, words[i], node, i as u64, walk) {
                return Some(next);
            }
        }
        if self.same_word::<C>(seat, words[LAST_WORD], node, LAST_WORD as u64, walk) {
            None
        } else {
            Some(next)
        }
    }

    /// Runs a whole intern.
    pub(crate) fn intern_as<C: Act>(
        &self,
        seat: &mut Seat<(), View>,
        words: &[u64; CONTENT_WORDS],
        chain: u64,
        own: u64,
        room: u64,
    ) -> (InternEnd, u64)
        requires table { Serves self.now C.begun.shape seat.old }
        requires link { chain < word_count self.now.size }
        requires chain { first_stage C.begun.shape C.begun.call ≡ AtLink C.begun.call false chain }
        requires call { IsIntern C.begun.call }
        requires words { words.now ≡ content C.begun.call }
        requires own { (own ≡ C.begun.start.own) × (room ≡ C.begun.start.room) }
        requires may { MayBegin C.begun }
        requires before { seat.old.me ≡ before C.begun }
        ensures table { IsSameSeat seat.old seat.new }
        ensures ended { Done C.begun result.0 result.1 seat.new.me.0 }
    {
        let mut walk = Walk {
            link: chain,
            written: false,
            probes: 0,
        };
        loop {
            let mut found = self.follow::<C>(seat, walk);
            walk.probes += 1;
            if found == 0 {
                if room == 0 {
                    return (InternEnd::NoRoom, walk.probes);
                }
                if !walk.written {
                    walk = self.write_node::<C>(seat, words, own, walk);
                }
                found = self.join::<C>(seat, walk, own);
                if found == 0 {
                    return (InternEnd::Linked, walk.probes);
                }
            }
            let node = found - 1;
            let Some(next) = self.same_content::<C>(seat, words, node, walk) else {
                return (InternEnd::Hit(node), walk.probes);
            };
            walk = next;
        }
    }
}
