//! Addresses by tickets: the constant that a term is, and the base and the constant of a sum.
ghost use Rattle.std.specs.Prelude.{◌≡◌, ◌+◌, ◌≤◌, IfOk, OnErr, IfSome, IfNone};
ghost use Rattle.sym_terms.specs.Trees.{Tree};
ghost use Rattle.sym_terms.specs.NormalForms.{label_constant, constant_of, is_sum, at_base, address_of, tree_plus};
ghost use Rattle.term_table.specs.Passes.{linked};
ghost use Rattle.term_table.specs.Trees.{HasLegalHistory};
ghost use Rattle.sym_exec.specs.MipsTerms.{HasSeen, HasTree, Lacks};
ghost use Rattle.sym_exec.specs.Standing.{IsAddress, AreSummands};
ghost use Rattle.sym_exec.specs.Interners.{GoesOn, Interns};

use crate::interner::Interner;
use sym_terms::Label;
use term_table::{TableFull, Ticket};
use words::Operator;

/// An address by its terms: a base, and how many bytes after it.
#[derive(Clone, Copy)]
pub(crate) struct TermAddress {
    pub(crate) base: Ticket,
    pub(crate) offset: u32,
}

/// The term of an address, and the address.
#[derive(Clone, Copy)]
pub(crate) struct Reached {
    pub(crate) address: Ticket,
    pub(crate) at: TermAddress,
}

fn label_constant(label: Label) -> Option<u32>
    ensures { result ≡ label_constant label }
{
    match label {
        Label::Const(word) => Some(word),
        _ => None,
    }
}

/// Returns the constant that a term is.
pub(crate) fn constant_at(terms: &mut Interner, ticket: Ticket) -> Option<u32>
    requires { HasSeen terms.old.pass.now ticket }
    ensures value { (x : Tree) → HasTree terms.old.pass.now ticket x → result ≡ constant_of x }
    ensures pass { GoesOn terms.old terms.new }
    ensures stays { linked terms.new.pass.now ≡ linked terms.old.pass.now }
{
    let node = terms.read(ticket);
    if node.children.len() > 0 {
        return None;
    }
    label_constant(node.label)
}

fn is_sum_label(label: Label) -> bool
    ensures { result ≡ is_sum label }
{
    match label {
        Label::Op(Operator::Addu) => true,
        _ => false,
    }
}

/// Returns the two terms that a sum is made of.
fn summands(terms: &mut Interner, ticket: Ticket) -> Option<(Ticket, Ticket)>
    requires { HasSeen terms.old.pass.now ticket }
    ensures seen { IfSome result (λ s. HasSeen terms.new.pass.now s.0 × HasSeen terms.new.pass.now s.1) }
    ensures none { (x : Tree) → HasTree terms.old.pass.now ticket x → IfNone result (address_of x ≡ at_base x) }
    ensures legal { HasLegalHistory terms.new.pass.now }
    ensures some { (x : Tree) → HasTree terms.old.pass.now ticket x → IfSome result (λ s. AreSummands terms.new.pass.now s.0 s.1 x) }
    ensures pass { GoesOn terms.old terms.new }
    ensures stays { linked terms.new.pass.now ≡ linked terms.old.pass.now }
{
    let node = terms.read(ticket);
    if !is_sum_label(node.label) {
        return None;
    }
    match *node.children.as_slice() {
        [left, right] => Some((left, right)),
        _ => None,
    }
}

/// Returns the base and the constant of an address.
pub(crate) fn address_at(terms: &mut Interner, ticket: Ticket) -> TermAddress
    requires { HasSeen terms.old.pass.now ticket }
    ensures legal { HasLegalHistory terms.new.pass.now }
    ensures seen { HasSeen terms.new.pass.now result.base }
    ensures tree { (x : Tree) → HasTree terms.old.pass.now ticket x → IsAddress terms.new.pass.now result (address_of x) }
    ensures pass { GoesOn terms.old terms.new }
    ensures stays { linked terms.new.pass.now ≡ linked terms.old.pass.now }
{
    let Some((base, constant)) = summands(terms, ticket) else {
        return TermAddress {
            base: ticket,
            offset: 0,
        };
    };
    match constant_at(terms, constant) {
        Some(offset) => TermAddress { base, offset },
        None => TermAddress {
            base: ticket,
            offset: 0,
        },
    }
}

/// Returns the term of a base and a constant after it.
pub(crate) fn plus_term(
    terms: &mut Interner,
    base: Ticket,
    offset: u32,
) -> Result<Ticket, TableFull>
    requires { HasSeen terms.old.pass.now base }
    ensures seen { IfOk result (λ t. HasSeen terms.new.pass.now t) }
    ensures tree { (x : Tree) → HasTree terms.old.pass.now base x → IfOk result (λ t. HasTree terms.new.pass.now t (tree_plus x offset)) }
    ensures absent { (x : Tree) → HasTree terms.old.pass.now base x → OnErr result (Lacks terms.new.pass.now (tree_plus x offset)) }
    ensures pass { Interns terms.old result terms.new }
    ensures grows { linked terms.new.pass.now ≤ linked terms.old.pass.now + 2 }
{
    if offset == 0 {
        return Ok(base);
    }
    let constant = terms.leaf(Label::Const(offset))?;
    terms.binary(Label::Op(Operator::Addu), base, constant)
}

/// Returns the same with its own base and constant, which are these, except that the base alone may be a sum.
pub(crate) fn reach(terms: &mut Interner, base: Ticket, offset: u32) -> Result<Reached, TableFull>
    requires legal { HasLegalHistory terms.old.pass.now }
    requires base { HasSeen terms.old.pass.now base }
    ensures legal { HasLegalHistory terms.new.pass.now }
    ensures seen { IfOk result (λ r. HasSeen terms.new.pass.now r.address) }
    ensures at { IfOk result (λ r. (b : Tree) → HasTree terms.new.pass.now r.address b → IsAddress terms.new.pass.now r.at (address_of b)) }
    ensures tree { (x : Tree) → HasTree terms.old.pass.now base x
        → IfOk result (λ r. HasTree terms.new.pass.now r.address (tree_plus x offset)) }
    ensures absent { (x : Tree) → HasTree terms.old.pass.now base x → OnErr result (Lacks terms.new.pass.now (tree_plus x offset)) }
    ensures pass { Interns terms.old result terms.new }
    ensures grows { linked terms.new.pass.now ≤ linked terms.old.pass.now + 2 }
{
    let address = plus_term(terms, base, offset)?;
    if offset == 0 {
        let at = address_at(terms, address);
        return Ok(Reached { address, at });
    }
    Ok(Reached {
        address,
        at: TermAddress { base, offset },
    })
}
