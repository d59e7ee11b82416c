//! Scheduled units: an order for each block, which means it.
use image::Counts;
use mblock::{Order, UNIT_BLOCKS, Unit};
use std::marker::Model;

/// One order for each block of a unit that is lent, and how many blocks had which verdict.
#[derive(Drop)]
pub struct Scheduled<'a> {
    unit: &'a Unit,
    orders: Vec<Order>,
    report: Counts,
}

impl<'a> Model for Scheduled<'a> {
    ghost use Rattle.image.specs.Views.{counts_of};
    ghost use Rattle.sched_phase.specs.Schedules.{ScheduledParts, IsScheduled};

    ghost Value = { ScheduledParts };

    ghost view = { λ s. record { unit = s.unit.now; orders = s.orders.items; report = counts_of s.report } };

    ghost invariant = { λ s. IsScheduled (record { unit = s.unit.now; orders = s.orders.items; report = counts_of s.report }) };
}

impl<'a> Scheduled<'a> {
    ghost use Rattle.std.specs.Prelude.{◌≡◌, ◌≤◌, length};
    ghost use Rattle.image.specs.Images.{total};
    ghost use Rattle.image.specs.Views.{counts_of};
    ghost use Rattle.mblock.specs.Orders.{AreOrders};
    ghost use Rattle.sched_phase.specs.Schedules.{IsScheduled};

    /// Returns these orders of the unit's blocks, with these counts.
    pub(crate) fn of(unit: &'a Unit, orders: Vec<Order>, report: Counts) -> Scheduled<'a>
        requires orders { AreOrders unit.now.blocks orders.items }
        requires counted { total (counts_of report) ≤ length unit.now.blocks }
        ensures { result ≡ record { unit = unit.now; orders = orders.items; report = counts_of report } }
    {
        let few = unit.blocks().len() <= UNIT_BLOCKS;
        prove!(few);
        Scheduled {
            unit,
            orders,
            report,
        }
    }

    /// Returns the unit that is lent.
    pub fn unit(&self) -> &'a Unit
        ensures value { result.now ≡ self.now.unit }
        ensures sound { IsScheduled self.now }
    {
        self.unit
    }

    /// Returns the order of each block, in order of number.
    pub fn orders(&self) -> &[Order]
        ensures value { result.now ≡ self.now.orders }
        ensures sound { IsScheduled self.now }
    {
        self.orders.as_slice()
    }

    /// Returns how many blocks had which verdict; none has one where every order is plain without a check.
    pub fn report(&self) -> Counts
        ensures value { counts_of result ≡ self.now.report }
        ensures sound { IsScheduled self.now }
    {
        self.report
    }

    /// Returns how many blocks there are.
    pub fn count(&self) -> usize
        ensures { result ≡ length self.now.unit.blocks }
    {
        self.unit.blocks().len()
    }
}
