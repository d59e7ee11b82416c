//! The table and a pass of it as one value, which makes and reads terms. A call allocates nothing, so its only error is that
//! the pass is full.
ghost use Rattle.term_table.specs.Passes.{IsOf};

use sym_terms::Label;
use term_table::{Node, Pass, TableFull, TermTable, Ticket};

/// A table and one of its passes.
#[derive(Drop)]
pub(crate) struct Interner<'t> {
    table: &'t TermTable,
    pass: &'t mut Pass,
    ghost own: { IsOf table.now pass.now },
}

impl<'t> Interner<'t> {
    ghost use Rattle.std.specs.Prelude.{◌≡◌, ◌+◌, ◌≤◌, IfOk, OnErr, length};
    ghost use Rattle.sym_terms.specs.Labels.{label_arity};
    ghost use Rattle.sym_terms.specs.Trees.{Tree, leaf, binary, ternary};
    ghost use Rattle.term_table.specs.Passes.{linked};
    ghost use Rattle.term_table.specs.Trees.{HasLegalHistory};
    ghost use Rattle.sym_exec.specs.MipsTerms.{HasSeen, HasTree, HaveSeen, IsNode, Lacks};
    ghost use Rattle.sym_exec.specs.Interners.{GoesOn, Interns};

    pub(crate) fn new(table: &'t TermTable, pass: &'t mut Pass) -> Interner<'t>
        requires { IsOf table.now pass.old }
        ensures pass { result.pass.now ≡ pass.old }
        ensures same_reference { result.pass.ghost_name ≡ pass.entry.ghost_name }
    {
        Interner { table, pass }
    }

    /// Returns the term of a label without children.
    pub(crate) fn leaf(&mut self, label: Label) -> Result<Ticket, TableFull>
        requires { label_arity label ≡ 0 }
        ensures tree { IfOk result (λ t. HasTree self.new.pass.now t (leaf label)) }
        ensures absent { OnErr result (Lacks self.new.pass.now (leaf label)) }
        ensures legal { HasLegalHistory self.new.pass.now }
        ensures pass { Interns self.old result self.new }
        ensures grows { linked self.new.pass.now ≤ linked self.old.pass.now + 1 }
    {
        let interned = self.table.intern(self.pass, label, &[])?;
        Ok(interned.ticket)
    }

    pub(crate) fn binary(&mut self, label: Label, a: Ticket, b: Ticket) -> Result<Ticket, TableFull>
        requires arity { label_arity label ≡ 2 }
        requires a { HasSeen self.old.pass.now a }
        requires b { HasSeen self.old.pass.now b }
        ensures seen { IfOk result (λ t. HasSeen self.new.pass.now t) }
        ensures tree { (x y : Tree) → HasTree self.old.pass.now a x → HasTree self.old.pass.now b y
            → IfOk result (λ t. HasTree self.new.pass.now t (binary label x y)) }
        ensures absent { (x y : Tree) → HasTree self.old.pass.now a x → HasTree self.old.pass.now b y
            → OnErr result (Lacks self.new.pass.now (binary label x y)) }
        ensures pass { Interns self.old result self.new }
        ensures grows { linked self.new.pass.now ≤ linked self.old.pass.now + 1 }
    {
        let interned = self.table.intern(self.pass, label, &[a, b])?;
        Ok(interned.ticket)
    }

    pub(crate) fn ternary(
        &mut self,
        label: Label,
        a: Ticket,
        b: Ticket,
        c: Ticket,
    ) -> Result<Ticket, TableFull>
        requires arity { label_arity label ≡ 3 }
        requires a { HasSeen self.old.pass.now a }
        requires b { HasSeen self.old.pass.now b }
        requires c { HasSeen self.old.pass.now c }
        ensures seen { IfOk result (λ t. HasSeen self.new.pass.now t) }
        ensures tree { (x y z : Tree) → HasTree self.old.pass.now a x → HasTree self.old.pass.now b y → HasTree self.old.pass.now c z
            → IfOk result (λ t. HasTree self.new.pass.now t (ternary label x y z)) }
        ensures absent { (x y z : Tree) → HasTree self.old.pass.now a x → HasTree self.old.pass.now b y → HasTree self.old.pass.now c z
            → OnErr result (Lacks self.new.pass.now (ternary label x y z)) }
        ensures pass { Interns self.old result self.new }
        ensures grows { linked self.new.pass.now ≤ linked self.old.pass.now + 1 }
    {
        let interned = self.table.intern(self.pass, label, &[a, b, c])?;
        Ok(interned.ticket)
    }

    /// Returns the label of a term, and its children.
    pub(crate) fn read(&mut self, ticket: Ticket) -> Node<Label>
        requires { HasSeen self.old.pass.now ticket }
        ensures legal { HasLegalHistory self.new.pass.now }
        ensures seen { HaveSeen self.new.pass.now result.children.items }
        ensures arity { length result.children.items ≡ label_arity result.label }
        ensures tree { (x : Tree) → HasTree self.old.pass.now ticket x → IsNode self.new.pass.now result.label result.children.items x }
        ensures pass { GoesOn self.old self.new }
        ensures stays { linked self.new.pass.now ≡ linked self.old.pass.now }
    {
        self.table.read(self.pass, ticket)
    }
}
