//! Where branches and jumps lead, seen from the word after them.

ghost use Rattle.std.specs.Prelude.{◌≡◌};
ghost use Rattle.mips_isa.specs.Controls.{branch_target, jump_target};

use crate::reg::JumpTarget;

/// Returns where a branch leads, by the address of its slot and its offset in words.
pub fn branch_target(slot: u32, offset: i16) -> u32
    ensures { result ≡ branch_target slot offset }
{
    let by = 4 * i32::from(offset);
    slot.wrapping_add(by.cast_unsigned())
}

/// Returns where a jump leads, by the address of its slot.
pub fn jump_target(slot: u32, target: JumpTarget) -> u32
    ensures { result ≡ jump_target slot target }
{
    slot / 0x1000_0000 * 0x1000_0000 + 4 * target.words()
}
