//! The verdict on an order for a block, and the orders that were checked.
ghost use Rattle.std.specs.Prelude.{◌≡◌, ◌≤◌, ◌+◌, ◌++◌, IfOk, OnErr, MatchOption};
ghost use Rattle.mblock.specs.Clean.{IsClean};
ghost use Rattle.mblock.specs.BlockMeaning.{exit_shape};
ghost use Rattle.term_table.specs.Passes.{IsOf, linked};
ghost use Rattle.term_table.specs.Trees.{HasLegalHistory};
ghost use Rattle.sym_exec.specs.Symbolic.{block_trees, order_trees};
ghost use Rattle.sym_exec.specs.Standing.{Later};
ghost use Rattle.sym_exec.specs.Runs.{Runs};
ghost use Rattle.sym_exec.specs.Starts.{IsStart};
ghost use Rattle.sym_exec.specs.Asked.{LacksOne, block_asked, order_asked};
ghost use Rattle.sym_exec.specs.Growth.{block_growth, order_growth};
ghost use Rattle.mblock.specs.Orders.{Means};
ghost use Rattle.mblock.specs.declared.unclean.Unclean.{Unclean as ARule};
ghost use Rattle.block_validator.specs.Same.{SameTrees, DiffersFirst, EachCheckedOrderMeansItsBlock};
ghost use Rattle.block_validator.specs.Verdicts.{IsVerdict, OneDecision};

use crate::compare::first_difference;
use crate::place::Place;
use mblock::{Block, Order, Unclean, clean};
use std::alloc::{AllocError, Global};
use std::marker::Model;
use sym_exec::{TermPlaces, run_both, run_both_from};
use term_table::{Pass, TableFull, TermTable};

/// A lent block, and a clean order that has its terms in every place. Only `validate` makes one.
#[derive(Drop)]
pub struct Checked<'a> {
    block: &'a Block,
    order: Order,
}

impl<'a> Model for Checked<'a> {
    ghost use Rattle.block_validator.specs.Same.{CheckedParts, IsChecked};

    ghost Value = { CheckedParts };

    ghost view = { λ c. record { block = c.block.now; order = c.order } };

    ghost invariant = { λ c. IsChecked (record { block = c.block.now; order = c.order }) };
}

impl<'a> Checked<'a> {
    ghost use Rattle.mblock.specs.Clean.{IsClean, FitsSlot};
    ghost use Rattle.mblock.specs.BlockMeaning.{exit_shape};
    ghost use Rattle.sym_exec.specs.Symbolic.{block_trees, order_trees};
    ghost use Rattle.mblock.specs.Orders.{Means};
    ghost use Rattle.block_validator.specs.Same.{SameTrees};

    /// Returns the block.
    pub fn block(&self) -> &'a Block
        ensures { result.now ≡ self.now.block }
    {
        self.block
    }

    /// Returns the order. This holds from every start state of words, and whatever link a call would put in. Where the block isn't stuck,
    /// the order isn't, and leaves equal registers, HI, LO, memory and exit.
    pub fn order(&self) -> &Order
        ensures value { result.now ≡ self.now.order }
        ensures clean { IsClean self.now.order }
        ensures fits { FitsSlot self.now.order }
        ensures same { SameTrees (block_trees self.now.block) (order_trees self.now.order) }
        ensures exit { exit_shape self.now.block.exit ≡ exit_shape self.now.order.exit }
        ensures means { Means self.now.block self.now.order }
    {
        &self.order
    }

    /// Returns the order alone, with the same promises.
    pub fn into_order(self) -> Order
        ensures value { result ≡ self.entry.order }
        ensures clean { IsClean result }
        ensures fits { FitsSlot result }
        ensures same { SameTrees (block_trees self.entry.block) (order_trees result) }
        ensures exit { exit_shape self.entry.block.exit ≡ exit_shape result.exit }
        ensures means { Means self.entry.block result }
    {
        let Checked { block: _, order } = self;
        order
    }
}

/// What a validator says of an order for a block.
#[derive(Drop)]
pub enum Verdict<'a> {
    /// The order is clean and has the block's terms.
    Same(Checked<'a>),
    /// The least delay rule that the order breaks, whatever its terms are.
    Unclean(Unclean),
    /// The order is clean, and this is the first place in which the terms differ.
    Differs(Place),
    /// The order is clean, and the pass has linked as many terms as it may.
    Full,
    /// The order is clean, and memory was refused; the pass is as it was.
    NoMemory,
}

/// Returns the first place that differs, none if there is none.
fn compare(
    alloc: Global,
    table: &TermTable,
    pass: &mut Pass,
    block: &Block,
    order: &Order,
) -> Result<Result<Option<Place>, TableFull>, AllocError>
    requires { IsOf table.now pass.old }
    ensures exact { IfOk result (λ compared. IfOk compared (λ r. MatchOption r (SameTrees (block_trees block.now) (order_trees order.now))
        (DiffersFirst (block_trees block.now) (order_trees order.now)))) }
    ensures runs { IfOk result (λ compared. Runs (block_asked block.now ++ order_asked order.now)
        (block_growth block.now + order_growth order.now) table.now pass.old compared pass.new) }
    ensures refused { OnErr result (pass.new ≡ pass.old) }
{
    match run_both(alloc, table, pass, block, order)? {
        Ok((first, second)) => Ok(Ok(first_difference(&first, &second))),
        Err(full) => Ok(Err(full)),
    }
}

/// Returns the same, from a start whose terms the pass knows.
fn compare_from(
    alloc: Global,
    table: &TermTable,
    pass: &mut Pass,
    start: &TermPlaces,
    block: &Block,
    order: &Order,
) -> Result<Result<Option<Place>, TableFull>, AllocError>
    requires pass { IsOf table.now pass.old }
    requires start { IsStart pass.old start.now }
    ensures exact { IfOk result (λ compared. IfOk compared (λ r. MatchOption r (SameTrees (block_trees block.now) (order_trees order.now))
        (DiffersFirst (block_trees block.now) (order_trees order.now)))) }
    ensures runs { IfOk result (λ compared. Runs (block_asked block.now ++ order_asked order.now)
        (block_growth block.now + order_growth order.now) table.now pass.old compared pass.new) }
    ensures refused { OnErr result (pass.new ≡ pass.old) }
{
    match run_both_from(alloc, table, pass, start, block, order)? {
        Ok((first, second)) => Ok(Ok(first_difference(&first, &second))),
        Err(full) => Ok(Err(full)),
    }
}

/// Returns what a comparison says of a clean order.
fn verdict_of<'a>(
    block: &'a Block,
    order: Order,
    compared: Result<Option<Place>, TableFull>,
) -> Verdict<'a>
    requires clean { IsClean order }
    requires exact { IfOk compared (λ r. MatchOption r (SameTrees (block_trees block.now) (order_trees order))
        (DiffersFirst (block_trees block.now) (order_trees order))) }
    ensures exact { IsVerdict block.now order result }
    ensures full { result ≡ Verdict.Full → IfOk compared (λ _. ⊥) }
    ensures memory { result ≡ Verdict.NoMemory → ⊥ }
    ensures unclean { (rule : ARule) → result ≡ Verdict.Unclean rule → ⊥ }
{
    match compared {
        Err(_) => Verdict::Full,
        Ok(Some(place)) => Verdict::Differs(place),
        Ok(None) => Verdict::Same(Checked { block, order }),
    }
}

/// Returns the verdict on an order for a block. It is the least delay rule that it breaks, else the first place whose terms differ, else
/// that it means the block.
///
/// Memory is taken before any term is linked: where it is refused or a rule is broken, the pass is as it was. `Full` comes only if the
/// pass has linked all it may and a term that block or order asks for isn't in the table. Whatever the verdict, the terms that were
/// linked stay, and the pass is the table's. They are no more than the actions of block and order may link.
pub fn validate<'a>(
    alloc: Global,
    table: &TermTable,
    pass: &mut Pass,
    block: &'a Block,
    order: Order,
) -> Verdict<'a>
    requires { IsOf table.now pass.old }
    ensures exact { IsVerdict block.now order result }
    ensures table { IsOf table.now pass.new }
    ensures later { Later pass.old pass.new }
    ensures legal { HasLegalHistory pass.new }
    ensures full { result ≡ Verdict.Full → linked pass.new ≡ pass.new.nodes }
    ensures absent { result ≡ Verdict.Full → LacksOne pass.new (block_asked block.now ++ order_asked order) }
    ensures grows { linked pass.new ≤ linked pass.old + (block_growth block.now + order_growth order) }
    ensures memory { result ≡ Verdict.NoMemory → pass.new ≡ pass.old }
    ensures unclean { (rule : ARule) → result ≡ Verdict.Unclean rule → pass.new ≡ pass.old }
{
    // Tells the check that the history is legal, for the verdicts before the first term.
    let _linked = pass.linked();
    if let Err(rule) = clean(&order) {
        return Verdict::Unclean(rule);
    }
    let Ok(compared) = compare(alloc, table, pass, block, &order) else {
        return Verdict::NoMemory;
    };
    verdict_of(block, order, compared)
}

/// Returns the verdict on an order for a block, as `validate` gives it, from a start whose terms the pass knows. These are made once for
/// many blocks.
pub fn validate_from<'a>(
    alloc: Global,
    table: &TermTable,
    pass: &mut Pass,
    start: &TermPlaces,
    block: &'a Block,
    order: Order,
) -> Verdict<'a>
    requires pass { IsOf table.now pass.old }
    requires start { IsStart pass.old start.now }
    ensures exact { IsVerdict block.now order result }
    ensures table { IsOf table.now pass.new }
    ensures later { Later pass.old pass.new }
    ensures legal { HasLegalHistory pass.new }
    ensures full { result ≡ Verdict.Full → linked pass.new ≡ pass.new.nodes }
    ensures absent { result ≡ Verdict.Full → LacksOne pass.new (block_asked block.now ++ order_asked order) }
    ensures grows { linked pass.new ≤ linked pass.old + (block_growth block.now + order_growth order) }
    ensures memory { result ≡ Verdict.NoMemory → pass.new ≡ pass.old }
    ensures unclean { (rule : ARule) → result ≡ Verdict.Unclean rule → pass.new ≡ pass.old }
{
    // Tells the check that the history is legal, for the verdicts before the first term.
    let _linked = pass.linked();
    if let Err(rule) = clean(&order) {
        return Verdict::Unclean(rule);
    }
    let Ok(found) = compare_from(alloc, table, pass, start, block, &order) else {
        return Verdict::NoMemory;
    };
    verdict_of(block, order, found)
}

/// States that each clean order that has its block's trees means the block. A law: it computes nothing.
pub fn checked_orders_mean_their_blocks()
    ensures { EachCheckedOrderMeansItsBlock }
{}

/// States that a block and an order have one verdict: no two of what `Decides` says of them differ. A law: it computes nothing.
pub fn one_verdict()
    ensures { OneDecision }
{}
