//! Terms of operations.
ghost use Rattle.std.specs.Prelude.{◌≡◌, ◌+◌, ◌≤◌, ◌∷◌, [], IfOk, OnErr, Some};
ghost use Rattle.sym_terms.specs.Trees.{Tree};
ghost use Rattle.sym_terms.specs.NormalForms.{const_tree, constant_of, is_addition, sum_tree, op_tree};
ghost use Rattle.sym_exec.specs.MipsTerms.{HasSeen, HasTree, Lacks};
ghost use Rattle.sym_exec.specs.Asked.{LacksOne};
ghost use Rattle.sym_exec.specs.Interners.{Interns};
ghost use Rattle.sym_exec.specs.Growth.{op_growth};
ghost use Rattle.term_table.specs.Passes.{linked};

use crate::address::{address_at, constant_at, plus_term};
use crate::interner::Interner;
use sym_terms::Label;
use term_table::{TableFull, Ticket};
use words::Operator;

fn is_addition(op: Operator) -> bool
    ensures { result ≡ is_addition op }
{
    match op {
        Operator::Addu => true,
        _ => false,
    }
}

/// Returns the sum of a term and a constant, which is added to the constant on the term's right.
fn constant_sum_term(terms: &mut Interner, a: Ticket, constant: u32) -> Result<Ticket, TableFull>
    requires { HasSeen terms.old.pass.now a }
    ensures seen { IfOk result (λ t. HasSeen terms.new.pass.now t) }
    ensures tree { (x y : Tree) → HasTree terms.old.pass.now a x → IfOk result (λ t. HasTree terms.new.pass.now t (sum_tree x y (Some constant))) }
    ensures absent { (x y : Tree) → HasTree terms.old.pass.now a x → OnErr result (Lacks terms.new.pass.now (sum_tree x y (Some constant))) }
    ensures pass { Interns terms.old result terms.new }
    ensures grows { linked terms.new.pass.now ≤ linked terms.old.pass.now + 2 }
{
    let at = address_at(terms, a);
    plus_term(terms, at.base, at.offset.wrapping_add(constant))
}

/// Returns a sum: a constant on its right is added to the constant on its left.
fn sum_term(terms: &mut Interner, a: Ticket, b: Ticket) -> Result<Ticket, TableFull>
    requires a { HasSeen terms.old.pass.now a }
    requires b { HasSeen terms.old.pass.now b }
    ensures seen { IfOk result (λ t. HasSeen terms.new.pass.now t) }
    ensures tree { (x y : Tree) → HasTree terms.old.pass.now a x → HasTree terms.old.pass.now b y
        → IfOk result (λ t. HasTree terms.new.pass.now t (sum_tree x y (constant_of y))) }
    ensures absent { (x y : Tree) → HasTree terms.old.pass.now a x → HasTree terms.old.pass.now b y
        → OnErr result (Lacks terms.new.pass.now (sum_tree x y (constant_of y))) }
    ensures pass { Interns terms.old result terms.new }
    ensures grows { linked terms.new.pass.now ≤ linked terms.old.pass.now + 2 }
{
    match constant_at(terms, b) {
        Some(constant) => constant_sum_term(terms, a, constant),
        None => terms.binary(Label::Op(Operator::Addu), a, b),
    }
}

#[tactic(auto, unfolding(sym_terms::specs::NormalForms::op_tree))]
pub(crate) fn op_term(
    terms: &mut Interner,
    op: Operator,
    a: Ticket,
    b: Ticket,
) -> Result<Ticket, TableFull>
    requires a { HasSeen terms.old.pass.now a }
    requires b { HasSeen terms.old.pass.now b }
    ensures seen { IfOk result (λ t. HasSeen terms.new.pass.now t) }
    ensures tree { (x y : Tree) → HasTree terms.old.pass.now a x → HasTree terms.old.pass.now b y
        → IfOk result (λ t. HasTree terms.new.pass.now t (op_tree op x y)) }
    ensures absent { (x y : Tree) → HasTree terms.old.pass.now a x → HasTree terms.old.pass.now b y
        → OnErr result (Lacks terms.new.pass.now (op_tree op x y)) }
    ensures pass { Interns terms.old result terms.new }
    ensures grows { linked terms.new.pass.now ≤ linked terms.old.pass.now + op_growth op }
{
    if is_addition(op) {
        sum_term(terms, a, b)
    } else {
        terms.binary(Label::Op(op), a, b)
    }
}

/// Returns the term of an operator's value at a term and a constant. A constant that is added needs no term of its own.
#[tactic(auto, unfolding(sym_terms::specs::NormalForms::op_tree))]
pub(crate) fn fixed_term(
    terms: &mut Interner,
    op: Operator,
    a: Ticket,
    word: u32,
) -> Result<Ticket, TableFull>
    requires { HasSeen terms.old.pass.now a }
    ensures seen { IfOk result (λ t. HasSeen terms.new.pass.now t) }
    ensures tree { (x : Tree) → HasTree terms.old.pass.now a x → IfOk result (λ t. HasTree terms.new.pass.now t (op_tree op x (const_tree word))) }
    ensures absent { (x : Tree) → HasTree terms.old.pass.now a x
        → OnErr result (LacksOne terms.new.pass.now (const_tree word ∷ op_tree op x (const_tree word) ∷ [])) }
    ensures pass { Interns terms.old result terms.new }
    ensures grows { linked terms.new.pass.now ≤ linked terms.old.pass.now + (1 + op_growth op) }
{
    if is_addition(op) {
        return constant_sum_term(terms, a, word);
    }
    let constant = terms.leaf(Label::Const(word))?;
    terms.binary(Label::Op(op), a, constant)
}
