//! The sizes of frames, and how much is known.

ghost use Rattle.mips_emit.specs.Numbers.{LimitsAreTheseNumbers};

/// How many bytes a frame has at most: as far as an instruction reaches from the stack pointer.
pub const FRAME_BYTES: u32 = 32_000;

/// How many facts are looked at: the newest.
pub(crate) const KEPT_FACTS: usize = 16;

/// States that each limit is the number that specs/Numbers.antt tells, so a change of one is a change there. A law: it computes nothing.
pub fn limits_are_these_numbers()
    ensures { LimitsAreTheseNumbers }
{}
