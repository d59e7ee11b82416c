//! The blocks that a branch leads to.
ghost use Rattle.std.specs.Prelude.{◌≡◌, ◌==◌, ◌+◌, ◌<◌, true, not, List, IfOk, IfErr, OnOk, length, if◌then◌else◌};
ghost use Rattle.rtl.specs.declared.block.RBlock.{RBlock};
ghost use Rattle.rtl.specs.declared.limits.TheConstants.{MAX_BLOCKS};
ghost use Rattle.rtl_emit.specs.Blocks.{open_code, goto, spot, insts_at, insts_in, Grows, Has};
ghost use Rattle.rtl_emit.specs.Expressions.{IsTruth};
ghost use Rattle.rtl_emit.specs.Sizes.{joint};
ghost use Rattle.rtl_emit.specs.Sound.{IsSoundSpot, KeepsSound};

use crate::block::{Continuation, OpenBlock, block_of, exit_block, put_first, seal};
use crate::fault::LowerFault;
use rtl::{BlockNumber, RBlock, RExit, RInst, Register};
use std::alloc::Global;

/// The block where a condition leads if it isn't 0, and the one if it is. The one that is likely stands first: `yes` if
/// `likely` is true.
#[derive(Clone, Copy)]
pub struct Targets {
    pub yes: BlockNumber,
    pub no: BlockNumber,
    pub likely: bool,
}

impl Targets {
    ghost use Rattle.rtl_emit.specs.Emits.{left_targets};

    /// Returns the targets of the contrary condition.
    pub(crate) fn of_contrary(self) -> Targets
        ensures { result ≡ record { yes = self.no; no = self.yes; likely = not self.likely } }
    {
        Targets {
            yes: self.no,
            no: self.yes,
            likely: !self.likely,
        }
    }

    /// Returns the targets of the left operand of `&&` (`both`) or `||`, whose right one is tested in a block of its own.
    pub(crate) fn of_left(self, both: bool, second: BlockNumber) -> Targets
        ensures { result ≡ left_targets both self second }
    {
        Targets {
            yes: if both { second } else { self.yes },
            no: if both { self.no } else { second },
            likely: self.likely,
        }
    }
}

/// Returns targets of which the first is likely.
pub(crate) fn likely_first(yes: BlockNumber, no: BlockNumber) -> Targets
    ensures { result ≡ record { yes = yes; no = no; likely = true } }
{
    Targets {
        yes,
        no,
        likely: true,
    }
}

/// Returns the branch of a condition that is this word.
pub(crate) fn branch_by(alloc: Global, word: u32, targets: Targets) -> OpenBlock
    ensures { open_code result ≡ goto (if word == 0 then targets.no else targets.yes) }
{
    let target = if word == 0 { targets.no } else { targets.yes };
    exit_block(alloc, RExit::Goto(target))
}

/// Adds two blocks that put 1 or 0 into a register and go on.
pub(crate) fn truth_blocks(
    alloc: Global,
    blocks: &mut Vec<RBlock>,
    to: Register,
    after: Continuation,
) -> Result<Targets, LowerFault>
    ensures grows { Grows blocks.old.items blocks.new.items }
    ensures count { OnOk result (length blocks.new.items ≡ length blocks.old.items + (joint (spot after) + 2)) }
    ensures insts { OnOk result (insts_in blocks.new.items ≡ insts_in blocks.old.items + (insts_at (spot after) + 2)) }
    ensures limit { IfErr result (λ f. f ≡ LowerFault.Limit → MAX_BLOCKS < length blocks.old.items + (joint (spot after) + 2)) }
    ensures sound { IfOk result (λ t. KeepsSound blocks.old.items blocks.new.items (λ s. (to < s.registers) × IsSoundSpot s (spot after))
        (λ s. (t.yes < s.blocks) × (t.no < s.blocks))) }
    ensures is_likely { IfOk result (λ t. t.likely ≡ true) }
    ensures truth { IfOk result (λ t. (bs : List RBlock) → Has bs blocks.old.items blocks.new.items
        → IsTruth bs to t.yes t.no (spot after)) }
{
    let join = block_of(blocks, after)?;
    let no_code = put_first(RInst::Const(to, 0), exit_block(alloc, RExit::Goto(join)))?;
    let no = seal(blocks, no_code)?;
    let yes_code = put_first(RInst::Const(to, 1), exit_block(alloc, RExit::Goto(join)))?;
    let yes = seal(blocks, yes_code)?;
    Ok(likely_first(yes, no))
}
