//! The calls on terms over labels of one's own type.

#![tactic(auto, using(crate::proofs::TermCallers::seen_all))]

ghost use Rattle.std.specs.Prelude.{◌≡◌, ℕ, ◌+◌, ◌≤◌, ◌↔◌, IfOk, IfErr, IfSome, IfNone, length};
ghost use Rattle.term_core.specs.declared.Call.TheVariants.{Find, Intern, Read};
ghost use Rattle.term_labels.specs.Trees.{Tree, Trees, node};
ghost use Rattle.term_table.specs.Passes.{PassState, IsOf, Answered, linked};
ghost use Rattle.term_table.specs.Trees.{Extends, HasLegalHistory};
ghost use Rattle.term_table.specs.Terms.{HasTerm, HaveTerms, HasSeenTerm, HasSeenTerms, LacksTerm, IsTermNode};
ghost use Rattle.term_table.specs.Answers.{intern_answer, intern_probes, sought_answer, node_answer};

use crate::pass::Pass;
use crate::table::{Found, Interned, TableFull, TermTable};
use crate::ticket::Ticket;
use smallvec::SmallVec;
use term_core::MAX_CHILDREN;
use term_labels::Label;

/// The root of a term: its label, and the tickets of its children, as many as its arity.
#[derive(Drop)]
pub struct Node<L> {
    pub label: L,
    pub children: SmallVec<Ticket, MAX_CHILDREN>,
}

impl TermTable {
    /// Returns the ticket of the term of this label over the children's terms, as many as its arity. It is the one that it has, if it is
    /// there, else that of a node that the pass now links. The pass has seen the ticket from then on. It links one term at most.
    ///
    /// `TableFull` exactly if the term is not there and the pass has itself linked as many terms as it may. The table is then as before.
    /// Either tells how many links the call loaded.
    #[inline(always)]
    pub fn intern<L: Label>(
        &self,
        pass: &mut Pass,
        label: L,
        children: &[Ticket],
    ) -> Result<Interned, TableFull>
        requires table { IsOf self.now pass.old }
        requires arity { length children.now ≡ L.coding.arity label }
        requires seen { HasSeenTerms L.coding pass.old children.now }
        ensures answered { Answered pass.old (Intern (L.coding.word label) children.now) (intern_answer result) pass.new }
        ensures probes { intern_probes result ≡ pass.new.probes }

        // The same in the words of the crates above.
        ensures own { IsOf self.now pass.new }
        ensures extends { Extends pass.old pass.new }
        ensures legal { HasLegalHistory pass.new }
        ensures seen { IfOk result (λ i. HasSeenTerm L.coding pass.new i.ticket) }
        ensures tree { (xs : Trees L) → HaveTerms L.coding pass.old children.now xs
            → IfOk result (λ i. HasTerm L.coding pass.new i.ticket (node label xs)) }
        ensures full { IfErr result (λ _. linked pass.new ≡ pass.new.nodes) }
        ensures absent { (xs : Trees L) → HaveTerms L.coding pass.old children.now xs
            → IfErr result (λ _. LacksTerm L.coding pass.new (node label xs)) }
        ensures grows { linked pass.new ≤ linked pass.old + 1 }
    {
        self.intern_word(pass, label.word(), children)
    }

    /// Returns the ticket of the term of this label over the children's terms, None if it is not there. Links nothing.
    #[inline(always)]
    pub fn find<L: Label>(&self, pass: &mut Pass, label: L, children: &[Ticket]) -> Found
        requires table { IsOf self.now pass.old }
        requires arity { length children.now ≡ L.coding.arity label }
        requires seen { HasSeenTerms L.coding pass.old children.now }
        ensures answered { Answered pass.old (Find (L.coding.word label) children.now) (sought_answer result.ticket) pass.new }
        ensures probes { result.probes ≡ pass.new.probes }

        // The same in the words of the crates above.
        ensures own { IsOf self.now pass.new }
        ensures extends { Extends pass.old pass.new }
        ensures legal { HasLegalHistory pass.new }
        ensures seen { IfSome result.ticket (HasSeenTerm L.coding pass.new) }
        ensures tree { (xs : Trees L) → HaveTerms L.coding pass.old children.now xs
            → IfSome result.ticket (λ t. HasTerm L.coding pass.new t (node label xs)) }
        ensures absent { (xs : Trees L) → HaveTerms L.coding pass.old children.now xs
            → IfNone result.ticket (LacksTerm L.coding pass.new (node label xs)) }
        ensures stays { linked pass.new ≡ linked pass.old }
    {
        self.find_word(pass, label.word(), children)
    }

    /// Returns the label of a term that the pass has seen, and the tickets of its children, which it then has seen too. Links nothing.
    pub fn read<L: Label>(&self, pass: &mut Pass, ticket: Ticket) -> Node<L>
        requires table { IsOf self.now pass.old }
        requires seen { HasSeenTerm L.coding pass.old ticket }
        ensures answered { Answered pass.old (Read ticket) (node_answer (L.coding.word result.label) result.children.items) pass.new }

        // The same in the words of the crates above.
        ensures own { IsOf self.now pass.new }
        ensures extends { Extends pass.old pass.new }
        ensures legal { HasLegalHistory pass.new }
        ensures seen { HasSeenTerms L.coding pass.new result.children.items }
        ensures arity { length result.children.items ≡ L.coding.arity result.label }
        ensures tree { (x : Tree L) → HasTerm L.coding pass.old ticket x
            → IsTermNode L.coding pass.new result.label result.children.items x }
        ensures stays { linked pass.new ≡ linked pass.old }
    {
        let node = self.read_word(pass, ticket);
        // The word of a term over these labels is that of a label.
        let Some(label) = L::of_word(node.word) else {
            unreachable!();
        };
        Node {
            label,
            children: node.children,
        }
    }
}

impl Pass {
    ghost use Rattle.std.specs.Prelude.{◌≡◌, ◌↔◌, IsTrue};
    ghost use Rattle.term_labels.specs.Trees.{Tree};
    ghost use Rattle.term_table.specs.Trees.{HasLegalHistory};
    ghost use Rattle.term_table.specs.Terms.{HasTerm};

    /// Reports whether two tickets that the pass has seen have one term over these labels: exactly if the tickets are equal.
    pub fn same_term<L: Label>(&self, first: Ticket, second: Ticket) -> bool
        ensures legal { HasLegalHistory self.now }
        ensures same { (x y : Tree L) → HasTerm L.coding self.now first x → HasTerm L.coding self.now second y → IsTrue result ↔ (x ≡ y) }
    {
        // The history of each pass is legal.
        let _ = self.linked();
        first == second
    }
}

/// States that of two tickets that a pass has seen, the numbers are equal exactly if their terms over these labels are. A law: it computes
/// nothing.
pub fn same_terms_of<L: Label>()
    ensures { (p : PassState) (t u : ℕ) (x y : Tree L) → HasLegalHistory p → HasTerm L.coding p t x → HasTerm L.coding p u y
        → (t ≡ u) ↔ (x ≡ y) }
{}
