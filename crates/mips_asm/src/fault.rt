//! Why there is no image: a limit, or memory.
ghost use Rattle.std.specs.Prelude.{◌≡◌};
ghost use Rattle.mips_asm.specs.declared.fault.AsmFault.TheVariants as faults;

use std::alloc::{AllocError, AllocFailed};

/// Why there is no code.
#[derive(Clone, Copy, Debug, PartialEq, Eq)]
pub enum AsmFault {
    /// A function has more than 32,000 words, or the code more than 1,048,576.
    Limit,
    /// Memory was refused.
    NoMemory,
}

impl From<AllocError> for AsmFault {
    ghost from_gives = { λ _ e. e ≡ faults.NoMemory };

    fn from(_: AllocError) -> Self {
        AsmFault::NoMemory
    }
}

impl<T: Drop> From<AllocFailed<T>> for AsmFault {
    ghost from_gives = { λ _ e. e ≡ faults.NoMemory };

    fn from(_: AllocFailed<T>) -> Self {
        AsmFault::NoMemory
    }
}
