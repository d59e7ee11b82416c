//! The sizes of an image.

ghost use Rattle.image.specs.Numbers.{LimitsAreTheseNumbers};

/// How many words of code an image has at most.
pub const CODE_WORDS: usize = 1_048_576;

/// How many bytes of data an image has at most.
pub const DATA_BYTES: usize = 1_048_576;

/// How many blocks the counts of an image tell of at most.
pub const COUNTED_BLOCKS: u64 = 1_048_576;

/// States that each limit is the number that specs/Numbers.antt tells, so a change of one is a change there. A law: it computes nothing.
pub fn limits_are_these_numbers()
    ensures { LimitsAreTheseNumbers }
{}
