//! The image of a unit.

ghost use Rattle.std.specs.Prelude.{◌≡◌, ◌*◌, ◌<◌, IfOk, OnOk, IfErr, length, slice_index};
ghost use Rattle.mips_asm.specs.declared.limits.TheConstants.{FUNCTION_WORDS};
ghost use Rattle.mblock.specs.Orders.{AreOrders};
ghost use Rattle.image.specs.Images.{IsImage, FitsVersion, Second};
ghost use Rattle.image.specs.Views.{version_of};
ghost use Rattle.mips_asm.specs.Emitted.{IsWithin};
ghost use Rattle.mips_asm.specs.Assembled.{EachAssembledImageRuns, IsAssembled, RunsAsUnit};

use crate::emit::code_of;
use crate::fault::AsmFault;
use image::{Counts, Image};
use mblock::{Order, Unit};
use mips_isa::CODE_BASE;
use sched_phase::Scheduled;
use std::alloc::Global;

/// Returns the image of a unit whose blocks have these orders: their words, one order after another, and the unit's data. It runs as the
/// unit. `Limit` exactly if a function has more than 32,000 words, or the code more than 1,048,576.
pub fn image_of(
    alloc: Global,
    unit: &Unit,
    orders: &[Order],
    counts: Option<Counts>,
) -> Result<Image, AsmFault>
    requires orders { AreOrders unit.now.blocks orders.now }
    requires version { FitsVersion (version_of counts) unit.now.globals }
    ensures assembled { IfOk result (IsAssembled unit.now orders.now) }
    ensures version { IfOk result (λ i. i.version ≡ version_of counts) }
    ensures fits { IfOk result IsImage }
    ensures runs { IfOk result (RunsAsUnit unit.now orders.now) }
    ensures within { OnOk result (IsWithin (slice_index unit.now.owner) orders.now) }
    ensures limit { IfErr result (λ e. e ≡ AsmFault.Limit → IsWithin (slice_index unit.now.owner) orders.now → ⊥) }
    ensures many { IfErr result (λ e. e ≡ AsmFault.Limit → FUNCTION_WORDS < 2052 * length orders.now) }
{
    let code = code_of(alloc, unit.owner(), orders)?;
    let bytes = Vec::from_slice(alloc, unit.globals())?;
    Ok(Image::of(counts, CODE_BASE, code, bytes))
}

/// Returns the image of version 2 of a unit whose blocks are scheduled, with its counts. It runs as the unit. `Limit` exactly if a function
/// has more than 32,000 words, or the code more than 1,048,576.
pub fn assemble(alloc: Global, scheduled: &Scheduled<'_>) -> Result<Image, AsmFault>
    ensures assembled { IfOk result (IsAssembled scheduled.now.unit scheduled.now.orders) }
    ensures version { IfOk result (λ i. i.version ≡ Second scheduled.now.report) }
    ensures fits { IfOk result IsImage }
    ensures runs { IfOk result (RunsAsUnit scheduled.now.unit scheduled.now.orders) }
    ensures within { OnOk result (IsWithin (slice_index scheduled.now.unit.owner) scheduled.now.orders) }
    ensures limit { IfErr result (λ e. e ≡ AsmFault.Limit → IsWithin (slice_index scheduled.now.unit.owner) scheduled.now.orders → ⊥) }
    ensures many { IfErr result (λ e. e ≡ AsmFault.Limit → FUNCTION_WORDS < 2052 * length scheduled.now.orders) }
{
    let unit = scheduled.unit();
    let report = scheduled.report();
    image_of(alloc, unit, scheduled.orders(), Some(report))
}

/// States that an image that has the words of a unit's orders runs as the unit.
pub fn each_assembled_image_runs()
    ensures { EachAssembledImageRuns }
{}
