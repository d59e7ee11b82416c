//! The stores that a run's memory is made of. They are kept in the order of the term of memory. So a load finds the memory that it sees,
//! and a store its place, by one walk from the last store inward. Terms of memory are made where a load or the end of the run needs them. A
//! store that goes inside others makes none of theirs again.
ghost use Rattle.std.specs.Prelude.{◌≡◌, ◌<◌, ◌≤◌, ◌+◌, ◌&&◌, IfOk, OnErr, length, take, drop, vec_len};
ghost use Rattle.sym_terms.specs.declared.label.Label.TheVariants.{Load, Store};
ghost use Rattle.sym_terms.specs.Trees.{Tree, binary, ternary};
ghost use Rattle.sym_terms.specs.NormalForms.{address_of, are_disjoint, load_tree, store_tree};
ghost use Rattle.term_table.specs.Passes.{PassState};
ghost use Rattle.sym_exec.specs.MipsTerms.{HasSeen, HasTree, Lacks};
ghost use Rattle.term_table.specs.Trees.{HasLegalHistory};
ghost use Rattle.sym_exec.specs.Standing.{IsAddress};
ghost use Rattle.sym_exec.specs.Interners.{Interns};
ghost use Rattle.sym_exec.specs.Stores.{passes, passes_inward, LeadsTo, MakeMemory, IsChain, HasStoreRoom};

use crate::address::TermAddress;
use crate::interner::Interner;
use sym_terms::Label;
use term_table::{TableFull, Ticket};
use words::Width;

/// A store that memory is made of: how wide, where and what. The address's base and offset stand beside its ticket, in 32
/// bytes together, since a walk reads them and an insertion moves them.
#[derive(Clone, Copy)]
pub(crate) struct Stored {
    pub(crate) address: Ticket,
    pub(crate) value: Ticket,
    pub(crate) base: Ticket,
    pub(crate) offset: u32,
    pub(crate) width: Width,
}

/// The stores of a run, innermost first, and the terms of memory that were needed so far. The first is the memory at the start, each
/// further one the memory after one store more.
#[derive(Drop)]
pub(crate) struct StoreChain {
    pub(crate) stores: Vec<Stored>,
    pub(crate) memories: Vec<Ticket>,
}

/// Reports whether what stands at two offsets from one base shares no byte.
fn are_disjoint(v: Width, a: u32, w: Width, b: u32) -> bool
    ensures { result ≡ are_disjoint v a w b }
{
    match (v, w) {
        (Width::Word, Width::Word) => a != b && a.wrapping_sub(b) % 4 == 0,
        (Width::Byte, Width::Byte) => a != b,
        (Width::Byte, Width::Word) => a.wrapping_sub(b) >= 4,
        (Width::Word, Width::Byte) => b.wrapping_sub(a) >= 4,
    }
}

impl Stored {
    ghost use Rattle.std.specs.Prelude.{◌≡◌};
    ghost use Rattle.sym_exec.specs.Stores.{address_of_store, passes, passes_inward};

    fn at(&self) -> TermAddress
        ensures { result ≡ address_of_store self.now }
    {
        TermAddress {
            base: self.base,
            offset: self.offset,
        }
    }

    /// Reports whether an access doesn't meet this store.
    fn is_passed(&self, width: Width, at: &TermAddress) -> bool
        ensures { result ≡ passes self.now width at.now }
    {
        self.base == at.base && are_disjoint(self.width, self.offset, width, at.offset)
    }

    /// Reports whether a store at this address belongs inside this one.
    fn is_passed_inward(&self, width: Width, at: &TermAddress) -> bool
        ensures { result ≡ passes_inward self.now width at.now }
    {
        let (outer, inner) = (self.offset, at.offset);
        self.is_passed(width, at) && inner.cast_signed() < outer.cast_signed()
    }
}

/// Returns how many stores make the memory that a load sees: those inside all that it passes.
fn stores_seen(stores: &[Stored], width: Width, at: &TermAddress) -> usize
    ensures count { result ≤ length stores.now }
    ensures tree { (p : PassState) (m b : Tree) → HasLegalHistory p → MakeMemory p stores.now m → IsAddress p at.now (address_of b)
        → (n : Tree) × MakeMemory p (take result stores.now) n × (load_tree width m b ≡ binary (Load width) n b) }
{
    let mut inner = stores;
    while let Some((last, rest)) = inner.split_last() {
        if !last.is_passed(width, at) {
            return inner.len();
        }
        inner = rest;
    }
    0
}

/// Returns how many stores a store at this address goes outside of; it goes inside the others.
fn stores_inside(stores: &[Stored], width: Width, at: &TermAddress) -> usize
    ensures count { result ≤ length stores.now }
    ensures tree { (p : PassState) (m b v : Tree) → HasLegalHistory p → MakeMemory p stores.now m → IsAddress p at.now (address_of b)
        → (n : Tree) × MakeMemory p (take result stores.now) n
        × LeadsTo p (ternary (Store width) n b v) (drop result stores.now) (store_tree width m b v) }
{
    let mut inner = stores;
    while let Some((last, rest)) = inner.split_last() {
        if !last.is_passed_inward(width, at) {
            return inner.len();
        }
        inner = rest;
    }
    0
}

impl StoreChain {
    ghost use Rattle.std.specs.Prelude.{◌≡◌, ◌<◌, ◌≤◌, ◌+◌, IfOk, OnErr, take, vec_len, vec_capacity};
    ghost use Rattle.sym_terms.specs.Trees.{Tree};
    ghost use Rattle.sym_terms.specs.NormalForms.{address_of, load_tree, store_tree};
    ghost use Rattle.term_table.specs.Passes.{PassState, linked};
    ghost use Rattle.sym_exec.specs.MipsTerms.{HasSeen, HasTree, Lacks};
    ghost use Rattle.term_table.specs.Trees.{HasLegalHistory};
    ghost use Rattle.sym_exec.specs.Standing.{IsAddress};
    ghost use Rattle.sym_exec.specs.Interners.{Interns};
    ghost use Rattle.sym_exec.specs.Stores.{address_of_store, MakeMemory, IsChain, HasStoreRoom};

    /// Returns the term of the memory after so many stores; those of the memories before it are made with it.
    fn memory_behind(&mut self, terms: &mut Interner, count: usize) -> Result<Ticket, TableFull>
        requires chain { IsChain terms.old.pass.now self.old }
        requires room { HasStoreRoom self.old }
        requires count { count ≤ vec_len self.old.stores }
        ensures chain { IsChain terms.new.pass.now self.new }
        ensures stores { self.new.stores ≡ self.old.stores }
        ensures room { HasStoreRoom self.new }
        ensures tree { (t : Tree) → MakeMemory terms.old.pass.now (take count self.old.stores.items) t
            → IfOk result (λ k. HasTree terms.new.pass.now k t) }
        ensures absent { (t : Tree) → MakeMemory terms.old.pass.now (take count self.old.stores.items) t
            → OnErr result (Lacks terms.new.pass.now t) }
        ensures pass { Interns terms.old result terms.new }
        ensures grows { linked terms.new.pass.now ≤ linked terms.old.pass.now + count }
    {
        while self.memories.len() <= count {
            let made = self.memories.len();
            let stored = self.stores[made - 1];
            let label = Label::Store(stored.width);
            let before = self.memories[made - 1];
            let memory = terms.ternary(label, before, stored.address, stored.value)?;
            self.memories.push_reserved(memory);
        }
        Ok(self.memories[count])
    }

    /// Returns the term of the memory after all stores.
    pub(crate) fn memory_term(&mut self, terms: &mut Interner) -> Result<Ticket, TableFull>
        requires chain { IsChain terms.old.pass.now self.old }
        requires room { HasStoreRoom self.old }
        ensures tree { (t : Tree) → MakeMemory terms.old.pass.now self.old.stores.items t
            → IfOk result (λ k. HasTree terms.new.pass.now k t) }
        ensures absent { (t : Tree) → MakeMemory terms.old.pass.now self.old.stores.items t
            → OnErr result (Lacks terms.new.pass.now t) }
        ensures pass { Interns terms.old result terms.new }
        ensures grows { linked terms.new.pass.now ≤ linked terms.old.pass.now + vec_len self.old.stores }
    {
        let count = self.stores.len();
        self.memory_behind(terms, count)
    }

    /// Returns the term of a load from the memory that the stores make.
    pub(crate) fn load_term(
        &mut self,
        terms: &mut Interner,
        width: Width,
        at: &TermAddress,
        address: Ticket,
    ) -> Result<Ticket, TableFull>
        requires legal { HasLegalHistory terms.old.pass.now }
        requires chain { IsChain terms.old.pass.now self.old }
        requires room { HasStoreRoom self.old }
        requires address { HasSeen terms.old.pass.now address }
        requires at { (b : Tree) → HasTree terms.old.pass.now address b → IsAddress terms.old.pass.now at.now (address_of b) }
        ensures chain { IsChain terms.new.pass.now self.new }
        ensures stores { self.new.stores ≡ self.old.stores }
        ensures room { HasStoreRoom self.new }
        ensures seen { IfOk result (λ t. HasSeen terms.new.pass.now t) }
        ensures tree { (m b : Tree) → MakeMemory terms.old.pass.now self.old.stores.items m → HasTree terms.old.pass.now address b
            → IfOk result (λ t. HasTree terms.new.pass.now t (load_tree width m b)) }
        ensures absent { (m b : Tree) → MakeMemory terms.old.pass.now self.old.stores.items m → HasTree terms.old.pass.now address b
            → OnErr result (Lacks terms.new.pass.now (load_tree width m b)) }
        ensures pass { Interns terms.old result terms.new }
        ensures grows { linked terms.new.pass.now ≤ linked terms.old.pass.now + (vec_len self.old.stores + 1) }
    {
        let count = stores_seen(self.stores.as_slice(), width, at);
        let memory = self.memory_behind(terms, count)?;
        terms.binary(Label::Load(width), memory, address)
    }

    /// Adds one more store. It goes inside those that it doesn't meet and that have greater offsets. The terms of memory after its place
    /// are made again where they are needed.
    pub(crate) fn store(&mut self, stored: Stored)
        requires room { HasStoreRoom self.old }
        requires few { vec_len self.old.stores < vec_capacity self.old.stores }
        ensures chain { (p : PassState) (b v : Tree) → HasLegalHistory p → IsChain p self.old → HasTree p stored.address b
            → HasTree p stored.value v
            → IsAddress p (address_of_store stored) (address_of b) → IsChain p self.new }
        ensures tree { (p : PassState) (m b v : Tree) → HasLegalHistory p → MakeMemory p self.old.stores.items m
            → HasTree p stored.address b
            → HasTree p stored.value v → IsAddress p (address_of_store stored) (address_of b)
            → MakeMemory p self.new.stores.items (store_tree stored.width m b v) }
        ensures room { HasStoreRoom self.new }
        ensures count { vec_len self.new.stores ≡ vec_len self.old.stores + 1 }
        ensures capacity { vec_capacity self.new.stores ≡ vec_capacity self.old.stores }
    {
        let place = stores_inside(self.stores.as_slice(), stored.width, &stored.at());
        match self.stores.insert(place, stored) {
            Ok(()) => self.memories.truncate(place + 1),
            Err(_) => unreachable!(),
        }
    }
}
