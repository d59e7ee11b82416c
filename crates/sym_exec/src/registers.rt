//! The terms of registers, HI and LO, and what one action does to them, done to their tickets.
ghost use Rattle.std.specs.Prelude.{◌≡◌, ◌<◌, ◌+◌, ◌∷◌, [], OnOk, OnErr, IfOk, slice_index, vec_len};
ghost use Rattle.mips_isa.specs.declared.action.Action.TheVariants.{Computes, Loads, Stores};
ghost use Rattle.mips_isa.specs.States.{put};
ghost use Rattle.sym_terms.specs.Labels.{label_arity};
ghost use Rattle.sym_terms.specs.Trees.{Tree, leaf};
ghost use Rattle.sym_exec.specs.MipsTerms.{HasSeen, HasTree, Lacks};
ghost use Rattle.sym_exec.specs.Asked.{asked_by, LacksOne};
ghost use Rattle.sym_exec.specs.Symbolic.{TreeState, register_tree, operand_tree, address_tree, trees_after};
ghost use Rattle.sym_exec.specs.Standing.{Known, Hold, with_reg, with_halves};
ghost use Rattle.sym_exec.specs.Interners.{Interns};

use crate::address::{Reached, address_at, reach};
use crate::interner::Interner;
use crate::stores::{StoreChain, Stored};
use crate::terms::{fixed_term, op_term};
use mips_isa::{NonzeroReg, Operand, Reg};
use sym_terms::Label;
use term_table::{TableFull, Ticket};
use words::{Operator, Width};

/// What a load or a store reaches: how wide, and how many bytes after a register's word.
#[derive(Clone, Copy)]
pub(crate) struct Access {
    pub(crate) width: Width,
    pub(crate) base: Reg,
    pub(crate) offset: u32,
}

/// The terms that registers, HI and LO hold, by tickets. Register 0 holds the constant 0.
#[derive(Clone, Copy)]
pub(crate) struct TermRegisters {
    pub(crate) regs: [Ticket; 32],
    pub(crate) hi: Ticket,
    pub(crate) lo: Ticket,
}

impl TermRegisters {
    ghost use Rattle.std.specs.Prelude.{◌≡◌, ◌<◌, ◌≤◌, ◌+◌, ◌∷◌, [], OnOk, OnErr, IfOk, slice_index, length, vec_len, vec_capacity};
    ghost use Rattle.sym_exec.specs.MipsTerms.{HasTree, Lacks};
    ghost use Rattle.sym_exec.specs.Asked.{asked_by, LacksOne};
    ghost use Rattle.sym_exec.specs.Standing.{Known, Hold, IsAddress, with_reg, with_halves};
    ghost use Rattle.sym_terms.specs.NormalForms.{address_of, op_tree};
    ghost use Rattle.term_table.specs.Trees.{HasLegalHistory};
    ghost use Rattle.sym_exec.specs.Interners.{Interns};
    ghost use Rattle.sym_exec.specs.Growth.{operand_growth, op_growth};
    ghost use Rattle.term_table.specs.Passes.{linked};
    ghost use Rattle.sym_exec.specs.Stores.{MakeMemory, IsChain, HasStoreRoom};

    pub(crate) fn get(&self, r: Reg) -> Ticket
        ensures value { result ≡ slice_index self.now.regs r }
        ensures range { r < 32 }
    {
        self.regs[r.index() as usize]
    }

    /// Writes a register; a write to register 0 is lost.
    pub(crate) fn set(&mut self, d: Reg, ticket: Ticket)
        ensures value { self.new ≡ with_reg self.old d ticket }
        ensures range { d < 32 }
        ensures count { length self.old.regs ≡ 32 }
    {
        let index = d.index() as usize;
        if index > 0 {
            self.regs[index] = ticket;
        }
    }

    fn address(&self, terms: &mut Interner, base: Reg, offset: u32) -> Result<Reached, TableFull>
        requires { Known terms.old.pass.now self.now }
        ensures legal { HasLegalHistory terms.new.pass.now }
        ensures seen { IfOk result (λ r. HasSeen terms.new.pass.now r.address) }
        ensures at { IfOk result (λ r. (b : Tree) → HasTree terms.new.pass.now r.address b → IsAddress terms.new.pass.now r.at (address_of b)) }
        ensures tree { (t : TreeState) → Hold terms.old.pass.now self.now t
            → IfOk result (λ r. HasTree terms.new.pass.now r.address (address_tree t base offset)) }
        ensures absent { (t : TreeState) → Hold terms.old.pass.now self.now t
            → OnErr result (Lacks terms.new.pass.now (address_tree t base offset)) }
        ensures pass { Interns terms.old result terms.new }
        ensures grows { linked terms.new.pass.now ≤ linked terms.old.pass.now + 2 }
    {
        let from = address_at(terms, self.get(base));
        reach(terms, from.base, from.offset.wrapping_add(offset))
    }

    /// Returns the term of an operator's value at a register and an operand.
    fn value(
        &self,
        terms: &mut Interner,
        op: Operator,
        a: Reg,
        b: &Operand,
    ) -> Result<Ticket, TableFull>
        requires { Known terms.old.pass.now self.now }
        ensures seen { IfOk result (λ x. HasSeen terms.new.pass.now x) }
        ensures tree { (t : TreeState) → Hold terms.old.pass.now self.now t
            → IfOk result (λ x. HasTree terms.new.pass.now x (op_tree op (register_tree t a) (operand_tree t b.now))) }
        ensures absent { (t : TreeState) → Hold terms.old.pass.now self.now t
            → OnErr result (LacksOne terms.new.pass.now (operand_tree t b.now ∷ op_tree op (register_tree t a) (operand_tree t b.now) ∷ [])) }
        ensures pass { Interns terms.old result terms.new }
        ensures grows { linked terms.new.pass.now ≤ linked terms.old.pass.now + (operand_growth b.now + op_growth op) }
    {
        match *b {
            Operand::Held(r) => op_term(terms, op, self.get(a), self.get(r)),
            Operand::Fixed(word) => fixed_term(terms, op, self.get(a), word),
        }
    }

    pub(crate) fn computes(
        &mut self,
        terms: &mut Interner,
        d: Reg,
        op: Operator,
        a: Reg,
        b: &Operand,
    ) -> Result<(), TableFull>
        requires { Known terms.old.pass.now self.old }
        ensures known { OnOk result (Known terms.new.pass.now self.new) }
        ensures hold { (t : TreeState) → Hold terms.old.pass.now self.old t
            → OnOk result (Hold terms.new.pass.now self.new (trees_after (Computes d op a b.now) t)) }
        ensures absent { (t : TreeState) → Hold terms.old.pass.now self.old t
            → OnErr result (LacksOne terms.new.pass.now (asked_by (Computes d op a b.now) t)) }
        ensures pass { Interns terms.old result terms.new }
        ensures grows { linked terms.new.pass.now ≤ linked terms.old.pass.now + (operand_growth b.now + op_growth op) }
    {
        // What register 0 would get is lost, as all that a Nop does, so no term is asked for.
        if d.index() == 0 {
            return Ok(());
        }
        let value = self.value(terms, op, a, b)?;
        self.set(d, value);
        Ok(())
    }

    /// Puts the term of a label without children into register `d`.
    pub(crate) fn put_leaf(
        &mut self,
        terms: &mut Interner,
        d: Reg,
        label: Label,
    ) -> Result<(), TableFull>
        requires known { Known terms.old.pass.now self.old }
        requires leaf { label_arity label ≡ 0 }
        ensures known { OnOk result (Known terms.new.pass.now self.new) }
        ensures hold { (t : TreeState) → Hold terms.old.pass.now self.old t
            → OnOk result (Hold terms.new.pass.now self.new (record t { regs = put t.regs d (leaf label) })) }
        ensures absent { OnErr result (Lacks terms.new.pass.now (leaf label)) }
        ensures pass { Interns terms.old result terms.new }
        ensures grows { linked terms.new.pass.now ≤ linked terms.old.pass.now + 1 }
    {
        let value = terms.leaf(label)?;
        self.set(d, value);
        Ok(())
    }

    /// Answers the ticket of the address.
    pub(crate) fn loads(
        &mut self,
        terms: &mut Interner,
        chain: &mut StoreChain,
        d: NonzeroReg,
        access: Access,
    ) -> Result<Ticket, TableFull>
        requires known { Known terms.old.pass.now self.old }
        requires chain { IsChain terms.old.pass.now chain.old }
        requires room { HasStoreRoom chain.old }
        ensures known { OnOk result (Known terms.new.pass.now self.new) }
        ensures hold { (t : TreeState) → Hold terms.old.pass.now self.old t → MakeMemory terms.old.pass.now chain.old.stores.items t.memory
            → OnOk result (Hold terms.new.pass.now self.new (trees_after (Loads access.width d access.base access.offset) t)) }
        ensures address { (t : TreeState) → Hold terms.old.pass.now self.old t
            → IfOk result (λ x. HasTree terms.new.pass.now x (address_tree t access.base access.offset)) }
        ensures absent { (t : TreeState) → Hold terms.old.pass.now self.old t
            → MakeMemory terms.old.pass.now chain.old.stores.items t.memory
            → OnErr result (LacksOne terms.new.pass.now (asked_by (Loads access.width d access.base access.offset) t)) }
        ensures chain { OnOk result (IsChain terms.new.pass.now chain.new) }
        ensures stores { OnOk result (chain.new.stores ≡ chain.old.stores) }
        ensures room { OnOk result (HasStoreRoom chain.new) }
        ensures pass { Interns terms.old result terms.new }
        ensures grows { linked terms.new.pass.now ≤ linked terms.old.pass.now + (vec_len chain.old.stores + 3) }
    {
        let Reached { address, at } = self.address(terms, access.base, access.offset)?;
        let value = chain.load_term(terms, access.width, &at, address)?;
        self.set(d.reg(), value);
        Ok(address)
    }

    /// Answers the ticket of the address.
    pub(crate) fn stores(
        &self,
        terms: &mut Interner,
        chain: &mut StoreChain,
        r: Reg,
        access: Access,
    ) -> Result<Ticket, TableFull>
        requires known { Known terms.old.pass.now self.now }
        requires chain { IsChain terms.old.pass.now chain.old }
        requires room { HasStoreRoom chain.old }
        requires few { vec_len chain.old.stores < vec_capacity chain.old.stores }
        ensures memory { (t : TreeState) → Hold terms.old.pass.now self.now t
            → MakeMemory terms.old.pass.now chain.old.stores.items t.memory
            → OnOk result (MakeMemory terms.new.pass.now chain.new.stores.items
            (trees_after (Stores access.width r access.base access.offset) t).memory) }
        ensures address { (t : TreeState) → Hold terms.old.pass.now self.now t
            → IfOk result (λ x. HasTree terms.new.pass.now x (address_tree t access.base access.offset)) }
        ensures absent { (t : TreeState) → Hold terms.old.pass.now self.now t
            → OnErr result (Lacks terms.new.pass.now (address_tree t access.base access.offset)) }
        ensures chain { OnOk result (IsChain terms.new.pass.now chain.new) }
        ensures room { OnOk result (HasStoreRoom chain.new) }
        ensures count { OnOk result (vec_len chain.new.stores ≡ vec_len chain.old.stores + 1) }
        ensures capacity { OnOk result (vec_capacity chain.new.stores ≡ vec_capacity chain.old.stores) }
        ensures pass { Interns terms.old result terms.new }
        ensures grows { linked terms.new.pass.now ≤ linked terms.old.pass.now + 2 }
    {
        let Reached { address, at } = self.address(terms, access.base, access.offset)?;
        let value = self.get(r);
        chain.store(Stored {
            address,
            value,
            base: at.base,
            offset: at.offset,
            width: access.width,
        });
        Ok(address)
    }

    /// Puts the results of two operators at the same registers into HI and LO.
    pub(crate) fn put_halves(
        &mut self,
        terms: &mut Interner,
        high: Operator,
        low: Operator,
        a: Reg,
        b: Reg,
    ) -> Result<(), TableFull>
        requires { Known terms.old.pass.now self.old }
        ensures known { OnOk result (Known terms.new.pass.now self.new) }
        ensures hold { (t : TreeState) → Hold terms.old.pass.now self.old t
            → OnOk result (Hold terms.new.pass.now self.new (with_halves high low a b t)) }
        ensures absent { (t : TreeState) → Hold terms.old.pass.now self.old t
            → OnErr result (LacksOne terms.new.pass.now ((with_halves high low a b t).hi ∷ (with_halves high low a b t).lo ∷ [])) }
        ensures pass { Interns terms.old result terms.new }
        ensures grows { linked terms.new.pass.now ≤ linked terms.old.pass.now + (op_growth high + op_growth low) }
    {
        let (x, y) = (self.get(a), self.get(b));
        let hi = op_term(terms, high, x, y)?;
        let lo = op_term(terms, low, x, y)?;
        self.hi = hi;
        self.lo = lo;
        Ok(())
    }
}
