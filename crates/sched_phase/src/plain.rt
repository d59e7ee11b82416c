//! Every block in its plain order.

ghost use Rattle.std.specs.Prelude.{◌≡◌, IfOk};
ghost use Rattle.sched_phase.specs.Schedules.{ArePlain, no_counts};

use crate::scheduled::Scheduled;
use image::NO_COUNTS;
use mblock::{Unit, plain_orders};
use std::alloc::{AllocError, Global};

/// Returns the plain orders of a unit's blocks. None of them is checked, so all counts are 0.
pub fn schedule_plain<'a>(alloc: Global, unit: &'a Unit) -> Result<Scheduled<'a>, AllocError>
    ensures unit { IfOk result (λ s. s.unit ≡ unit.now) }
    ensures plain { IfOk result ArePlain }
    ensures report { IfOk result (λ s. s.report ≡ no_counts) }
{
    let orders = plain_orders(alloc, unit)?;
    Ok(Scheduled::of(unit, orders, NO_COUNTS))
}
