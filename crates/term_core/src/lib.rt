//! The pure world of the shared table of terms: passes, words, and their single steps. It exists for proofs alone.
//!
//! Definitions: `specs/Terms.antt`, `specs/World.antt`.
//! Contract: `any_schedule`
//! - Every list of single steps of any handles leads to one legal history.
//! - Each step is of one of four kinds, on a word that this kind may touch.
#![tactic(auto)]

ghost use Rattle.std.specs.Prelude.{List};
ghost use Rattle.term_core.specs.World.{Shape, Item, IsShape, world_of};
ghost use Rattle.term_core.specs.Law.{Lawful};
ghost use Rattle.term_core.specs.Numbers.{CountsAreTheseNumbers};
ghost use Rattle.term_core.specs.Items.{EachItemDoes, OthersStand, SeenAgree, WordsStay, LinksStay, ContentStays, EachStepHasItsPlace};

use std::collections::LinkedList;

/// How many children a node has at most.
pub const MAX_CHILDREN: usize = 3;

/// The content words of a node: its label's word, then one for each child that it may have.
pub const CONTENT_WORDS: usize = MAX_CHILDREN + 1;

/// The index of the last content word.
pub const LAST_WORD: usize = CONTENT_WORDS - 1;

/// All words of a node: its link, and its content words.
pub const NODE_WORDS: u64 = 5;

/// States that each of these counts is the number that specs/Numbers.antt tells, so a change of one is a change there. A law: it computes
/// nothing.
pub fn counts_are_these_numbers()
    ensures { CountsAreTheseNumbers }
{}

/// A call on the table. Children and tickets are numbers.
pub enum Call {
    /// The label, over the terms of these tickets.
    Intern(u64, LinkedList<u64>),
    /// The same, but nothing is linked.
    Find(u64, LinkedList<u64>),
    /// The root of this ticket's term.
    Read(u64),
}

/// What a call answers.
pub enum Answer {
    /// An intern: the term's ticket.
    Ticket(u64),
    /// An intern: the term is not there, and the pass has linked as many as it may.
    Full,
    /// A find: the term's ticket.
    Found(u64),
    /// A find: the term is not there.
    Missing,
    /// A read: the label, and the children's tickets.
    Node(u64, LinkedList<u64>),
}

/// A finished call, by the number of the pass that made it.
pub struct Entry {
    pub by: u64,
    pub call: Call,
    pub answer: Answer,
}

/// Where a pass stands: between calls, or before its next single step.
pub enum Stage {
    /// Between calls.
    Idle,
    /// Before a look at this many entries of the history, or at more if it has seen more.
    Looking(u64),
    /// Before the load of this link. The flag tells whether the pass's own node is written.
    AtLink(Call, bool, u64),
    /// Before the load of a content word: the node, and which of its four words.
    AtContent(Call, bool, u64, u64),
    /// Before the store of a content word of its own node: the link where the chain ended, and which word.
    Writing(Call, u64, u64),
    /// Before the exchange of this link from none to its own node.
    Linking(Call, u64),
    /// Before the load of the next content word of this node, after those that were read.
    Reading(u64, LinkedList<u64>),
}

/// One pass: its number, its next own node, and how many it has left. Also the history that it has seen, its own finished calls, the
/// links that its call has loaded, and where it stands.
pub struct Walker {
    pub by: u64,
    pub own: u64,
    pub room: u64,
    pub seen: LinkedList<Entry>,
    pub mine: LinkedList<Entry>,
    pub probes: u64,
    pub stage: Stage,
}

/// States what every list of items keeps, for any number of passes and nodes and any function that picks the chain of a call.
///
/// `lawful`: the history is legal. What a pass has seen is a legal beginning of it, with each of the pass's own calls once. Two tickets in
/// it are equal exactly if their trees are. The pass's loads of links are at most the pairs and one. `does`: an item ends a call with
/// exactly one entry, of this call and its answer, which its pass has then seen. Or it goes on and says nothing. What was seen stays its
/// beginning, and the probes grow by one exactly at the load of a link. `others`: no other pass changes. `agree`: of what two passes have
/// seen, one is the beginning of the other. `words`: a word that an item changes is a link, from none to the pass's own node. Or it is a
/// content word of the pass's next node, which isn't linked yet. `links`, `content`: so a link that names a node names it for ever, and the
/// content of a linked node never changes, whatever items follow. `places`: a load of a link and an exchange are at the head of a chain or
/// at the link of a linked node. A load of content is at a content word of a linked node, a store at one of the pass's next node, which
/// isn't linked.
pub fn any_schedule()
    ensures lawful { (shape : Shape) (items : List Item) → IsShape shape → Lawful shape (world_of shape items) }
    ensures does { EachItemDoes }
    ensures others { OthersStand }
    ensures agree { SeenAgree }
    ensures words { WordsStay }
    ensures links { LinksStay }
    ensures content { ContentStays }
    ensures places { EachStepHasItsPlace }
{}
