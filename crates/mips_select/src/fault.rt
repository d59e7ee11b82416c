//! Why there is no unit: a limit, or memory.
use std::alloc::AllocError;

/// Why a program has no unit.
#[derive(Clone, Copy, Debug, PartialEq, Eq)]
pub enum SelectFault {
    /// 20: more than 1,048,576 blocks, a frame beyond 32,000 bytes, or more frames than the stack has room for.
    Limit,
    /// 30: memory was refused.
    NoMemory,
}

impl From<AllocError> for SelectFault {
    ghost use Rattle.std.specs.Prelude.{◌≡◌};
    ghost use Rattle.mips_select.specs.declared.fault.SelectFault.TheVariants.{NoMemory};

    ghost from_gives = { λ _ r. r ≡ NoMemory };

    fn from(_: AllocError) -> SelectFault {
        SelectFault::NoMemory
    }
}
