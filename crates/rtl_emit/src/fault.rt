//! Why there is no code.
ghost use Rattle.std.specs.Prelude.{◌≡◌};

use std::alloc::AllocError;

/// Why a program has no RTL.
#[derive(Clone, Copy, Debug, PartialEq, Eq)]
pub enum LowerFault {
    /// 20: a function would have more than 8,000 pseudo-registers, or the program more than 1,048,575 blocks.
    Limit,
    /// 30: memory was refused.
    NoMemory,
}

impl From<AllocError> for LowerFault {
    ghost use Rattle.rtl_emit.specs.declared.fault.LowerFault.TheVariants.{NoMemory};

    ghost from_gives = { λ _ r. r ≡ NoMemory };

    fn from(_error: AllocError) -> LowerFault {
        LowerFault::NoMemory
    }
}
