//! A walk along a chain that only looks, and the reading of a node.
ghost use Rattle.std.specs.Prelude.{◌≡◌, ◌+◌, ◌<◌, false, [], ◌∷◌, ◌++◌, length};
ghost use Rattle.term_core.specs.declared.Stage.TheVariants.{AtLink, Reading};
ghost use Rattle.term_core.specs.declared.Call.TheVariants.{Read};
ghost use Rattle.term_core.specs.World.{content, answer_of, first_stage};
ghost use Rattle.term_core.specs.declared.TheConstants.{CONTENT_WORDS, LAST_WORD};
ghost use Rattle.term_table.specs.Rule.{node_count, word_count};
ghost use Rattle.term_table.specs.Seats.{Serves, IsSameSeat, MayBegin};
ghost use Rattle.term_table.specs.Calls.{before, IsFind, IsAt, IsAtLink, Ended, Arrived};
ghost use Rattle.term_table.specs.Answers.{sought_answer};

use crate::nodes::Nodes;
use crate::rule::Act;
use crate::view::{View, Walk};
use atomic_table::Seat;
use term_core::CONTENT_WORDS;

impl Nodes {
    /// Loads the link that the walk looks at.
    pub(crate) fn follow<C: Act>(&self, seat: &mut Seat<(), View>, walk: Walk) -> u64
        requires table { Serves self.now C.begun.shape seat.old }
        requires link { walk.link < word_count self.now.size }
        requires before { IsAtLink C.begun walk seat.old.me }
        ensures table { IsSameSeat seat.old seat.new }
        ensures found { Arrived C.begun (record walk { probes = walk.probes + 1 }) result seat.new.me.0 }
    {
        self.load::<C>(seat, walk.link)
    }

    /// Runs a whole find: returns the node, if there is one, and how many links were loaded.
    pub(crate) fn find_as<C: Act>(
        &self,
        seat: &mut Seat<(), View>,
        words: &[u64; CONTENT_WORDS],
        chain: u64,
    ) -> (Option<u64>, u64)
        requires table { Serves self.now C.begun.shape seat.old }
        requires link { chain < word_count self.now.size }
        requires chain { first_stage C.begun.shape C.begun.call ≡ AtLink C.begun.call false chain }
        requires call { IsFind C.begun.call }
        requires words { words.now ≡ content C.begun.call }
        requires may { MayBegin C.begun }
        requires before { seat.old.me ≡ before C.begun }
        ensures table { IsSameSeat seat.old seat.new }
        ensures ended { Ended C.begun (sought_answer result.0) C.begun.start.own C.begun.start.room result.1 seat.new.me.0 }
    {
        let mut walk = Walk {
            link: chain,
            written: false,
            probes: 0,
        };
        loop {
            let found = self.follow::<C>(seat, walk);
            walk.probes += 1;
            if found == 0 {
                return (None, walk.probes);
            }
            let node = found - 1;
            let Some(next) = self.same_content::<C>(seat, words, node, walk) else {
                return (Some(node), walk.probes);
            };
            walk = next;
        }
    }

    /// Loads the next content word, after those that were read.
    pub(crate) fn next_word<C: Act>(&self, seat: &mut Seat<(), View>, node: u64, row: &[u64]) -> u64
        requires table { Serves self.now C.begun.shape seat.old }
        requires node { node < node_count self.now.size }
        requires call { C.begun.call ≡ Read node }
        requires few { length row.now < CONTENT_WORDS }
        requires before { IsAt C.begun (Reading node row.now) 0 seat.old.me }
        ensures table { IsSameSeat seat.old seat.new }
        ensures more { length row.now < LAST_WORD → IsAt C.begun (Reading node (row.now ++ result ∷ [])) 0 seat.new.me }
        ensures last { length row.now ≡ LAST_WORD
            → Ended C.begun (answer_of (row.now ++ result ∷ [])) C.begun.start.own C.begun.start.room 0 seat.new.me.0 }
    {
        self.load::<C>(seat, self.content_place(node, row.len() as u64))
    }

    /// Returns the four content words of a node.
    pub(crate) fn read_as<C: Act>(
        &self,
        seat: &mut Seat<(), View>,
        node: u64,
    ) -> [u64; CONTENT_WORDS]
        requires table { Serves self.now C.begun.shape seat.old }
        requires node { node < node_count self.now.size }
        requires call { C.begun.call ≡ Read node }
        requires may { MayBegin C.begun }
        requires before { seat.old.me ≡ before C.begun }
        ensures table { IsSameSeat seat.old seat.new }
        ensures ended { Ended C.begun (answer_of result) C.begun.start.own C.begun.start.room 0 seat.new.me.0 }
    {
        let first = self.next_word::<C>(seat, node, &[]);
        let second = self.next_word::<C>(seat, node, &[first]);
        let third = self.next_word::<C>(seat, node, &[first, second]);
        let fourth = self.next_word::<C>(seat, node, &[first, second, third]);
        [first, second, third, fourth]
    }
}
