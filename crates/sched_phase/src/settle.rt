//! From verdicts to one order for each block.
ghost use Rattle.std.specs.Prelude.{◌≡◌, ◌+◌, ◌<◌, Some, IfOk, OnOk, IfSome, is_some, true, length, slice_get};
ghost use Rattle.mblock.specs.declared.limits.TheConstants.{UNIT_BLOCKS};
ghost use Rattle.image.specs.Images.{total};
ghost use Rattle.image.specs.Views.{counts_of};
ghost use Rattle.sched_phase.specs.Phases.{Fits, IsPhase, Suits};
ghost use Rattle.sched_phase.specs.Settling.{AddsOne, AreDone, Serves, kind_of};
ghost use Rattle.mblock.specs.PlainOrders.{plain_order_of};

use crate::scheduled::Scheduled;
use block_validator::{Checked, Verdict};
use image::{Counts, NO_COUNTS};
use list_scheduler::Reorder;
use mblock::{BLOCK_INSTS, Block, Order, UNIT_BLOCKS, Unit, plain};
use std::alloc::{AllocError, Global};

/// Returns the plain order.
fn plain_order(alloc: Global, block: &Block) -> Result<Order, AllocError>
    ensures is { IfOk result (λ o. o ≡ plain_order_of block.now) }
    ensures serves { IfOk result (Serves block.now) }
{
    plain(alloc, block)
}

/// Returns the order that was checked.
fn checked_order<'a>(block: &Block, checked: Checked<'a>) -> Order
    requires { checked.block ≡ block.now }
    ensures is { result ≡ checked.entry.order }
    ensures serves { Serves block.now result }
{
    let few = block.insts().len() <= BLOCK_INSTS;
    prove!(few);
    checked.into_order()
}

/// Returns the order that a verdict gives its block, and counts it. It is the one that was proposed, where it means the block, else the
/// plain one. None stands for a block that was missed. An Err means out of memory.
fn order_by_verdict<'a, R: Reorder>(
    alloc: Global,
    reorder: &R,
    block: &Block,
    verdict: Option<Verdict<'a>>,
    report: &mut Counts,
) -> Result<Order, AllocError>
    requires room { total (counts_of report.old) < UNIT_BLOCKS }
    requires fits { IfSome verdict (Fits (R.proposes reorder.now) block.now) }
    ensures suits { IfOk result (λ o. Suits (R.proposes reorder.now) block.now o (kind_of verdict.entry)) }
    ensures counted { OnOk result (AddsOne (kind_of verdict.entry) (counts_of report.old) (counts_of report.new)) }
    ensures serves { IfOk result (Serves block.now) }
    ensures sum { OnOk result (total (counts_of report.new) ≡ total (counts_of report.old) + 1) }
    ensures asked { OnOk result (is_some verdict.entry ≡ true → report.new.missed ≡ report.old.missed) }
{
    match verdict {
        Some(Verdict::Same(checked)) => {
            report.same += 1;
            return Ok(checked_order(block, checked));
        }
        Some(Verdict::Unclean(_)) => report.unclean += 1,
        Some(Verdict::Differs(_)) => report.differs += 1,
        Some(Verdict::Full) => report.full += 1,
        Some(Verdict::NoMemory) => report.no_memory += 1,
        None => report.missed += 1,
    }
    plain_order(alloc, block)
}

/// The orders of the first blocks of a unit, and what these blocks came to.
#[derive(Drop)]
pub(crate) struct Progress {
    pub(crate) orders: Vec<Order>,
    pub(crate) report: Counts,
}

impl Progress {
    /// Returns the progress before the first block. There is room for all orders, if it may be had at once.
    pub(crate) fn new<R: Reorder>(alloc: Global, reorder: &R, unit: &Unit) -> Progress
        ensures none { length result.orders.items ≡ 0 }
        ensures done { AreDone (R.proposes reorder.now) unit.now.blocks result }
        ensures missed { result.report.missed ≡ 0 }
    {
        let _ = reorder;
        let orders = match Vec::with_capacity(alloc, unit.blocks().len()) {
            Ok(orders) => orders,
            Err(_) => Vec::new(alloc),
        };
        Progress {
            orders,
            report: NO_COUNTS,
        }
    }

    /// Gives one more block its order by the verdict, or as one that was missed.
    pub(crate) fn settle<'a, R: Reorder>(
        &mut self,
        alloc: Global,
        reorder: &R,
        unit: &Unit,
        block: &Block,
        verdict: Option<Verdict<'a>>,
    ) -> Result<(), AllocError>
        requires next { slice_get unit.now.blocks (length self.old.orders.items) ≡ Some block.now }
        requires done { AreDone (R.proposes reorder.now) unit.now.blocks self.old }
        requires fits { IfSome verdict (Fits (R.proposes reorder.now) block.now) }
        ensures more { OnOk result (length self.new.orders.items ≡ length self.old.orders.items + 1) }
        ensures done { OnOk result (AreDone (R.proposes reorder.now) unit.now.blocks self.new) }
        ensures asked { OnOk result (is_some verdict.entry ≡ true → self.new.report.missed ≡ self.old.report.missed) }
    {
        let few = unit.blocks().len() <= UNIT_BLOCKS;
        prove!(few);
        let order = order_by_verdict(alloc, reorder, block, verdict, &mut self.report)?;
        self.orders.push(order)?;
        Ok(())
    }

    /// Returns the unit with an order for each block.
    pub(crate) fn finish<'a, R: Reorder>(self, reorder: &R, unit: &'a Unit) -> Scheduled<'a>
        requires all { length self.orders.items ≡ length unit.now.blocks }
        requires done { AreDone (R.proposes reorder.now) unit.now.blocks self }
        ensures unit { result.unit ≡ unit.now }
        ensures phase { IsPhase (R.proposes reorder.now) result }
        ensures sum { total result.report ≡ length unit.now.blocks }
        ensures missed { result.report.missed ≡ self.report.missed }
    {
        let _ = reorder;
        let Progress { orders, report } = self;
        Scheduled::of(unit, orders, report)
    }
}
