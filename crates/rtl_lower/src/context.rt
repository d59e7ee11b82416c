//! Where a statement stands.
ghost use Rattle.std.specs.Prelude.{◌≡◌};
ghost use Rattle.rtl_lower.specs.Emits.{made_of};

use rtl::{BlockNumber, Register};
use rtl_emit::{Continuation, LowerFault, OpenBlock};
use std::alloc::Global;

/// Where a statement stands: the first register that is free, the block that `break` leads to, and the one that `continue` does.
#[derive(Clone, Copy)]
pub(crate) struct Context {
    pub(crate) alloc: Global,
    pub(crate) free: Register,
    pub(crate) leave: BlockNumber,
    pub(crate) next: Option<BlockNumber>,
}

impl Context {
    /// Returns the context of a loop's body.
    pub(crate) fn inside_loop(self, leave: BlockNumber, next: Option<BlockNumber>) -> Context
        ensures { result ≡ record { alloc = self.alloc; free = self.free; leave = leave; next = next } }
    {
        Context {
            alloc: self.alloc,
            free: self.free,
            leave,
            next,
        }
    }
}

/// Returns the code as one that other code goes on at.
pub(crate) fn continuation_of(
    code: Result<OpenBlock, LowerFault>,
) -> Result<Continuation, LowerFault>
    ensures { result ≡ made_of code }
{
    match code {
        Ok(code) => Ok(Continuation::Made(code)),
        Err(fault) => Err(fault),
    }
}
