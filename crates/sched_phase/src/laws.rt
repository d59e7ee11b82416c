//! What follows of two phases over one unit.
ghost use Rattle.sched_phase.specs.Outcomes.{OneOutcome};

use list_scheduler::Reorder;

/// States that phases over one unit that decided each block have the same orders and counts, by any workers and batches. The scheduler may
/// propose one order for a block. A law: it computes nothing.
pub fn one_outcome<R: Reorder>(reorder: &R)
    ensures { OneOutcome (R.proposes reorder.now) }
{
    let _ = reorder;
}
