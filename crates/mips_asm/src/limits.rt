//! The sizes of laid out code, and whether each function is within its limit.

ghost use Rattle.std.specs.Prelude.{◌≡◌, ◌*◌, ◌<◌, ◌≤◌, ◌↔◌, ◌==◌, cond, false, IsTrue, length, slice_index};
ghost use Rattle.mips_asm.specs.declared.limits.TheConstants.{FUNCTION_WORDS};
ghost use Rattle.mips_asm.specs.Functions.{AreFunctions};
ghost use Rattle.mips_asm.specs.Limits.{FunctionsFit};

use crate::places::size;
use mblock::{BlockNumber, Order};

/// How many words a function has at most, so that its branches reach.
pub const FUNCTION_WORDS: u32 = 32_000;

/// How many words the code of a unit has at most.
pub const CODE_WORDS: u32 = 1_048_576;

/// Returns the words so far of the function of block `k`: none if it is the function's first.
fn words_before(first: usize, k: usize, words: u32) -> u32
    ensures value { result ≡ cond (first == k) 0 words }
    ensures small { result ≤ words }
{
    if first == k { 0 } else { words }
}

/// Reports whether no function has more than 32,000 words.
pub fn functions_fit(owner: &[BlockNumber], orders: &[Order]) -> bool
    requires length { length owner.now ≡ length orders.now }
    requires functions { AreFunctions (length orders.now) (slice_index owner.now) }
    ensures fit { IsTrue result ↔ FunctionsFit (slice_index owner.now) orders.now }
    ensures many { result ≡ false → FUNCTION_WORDS < 2052 * length orders.now }
{
    let mut words = 0;
    for (k, order) in orders.iter().enumerate() {
        let first = owner[k].number() as usize;
        words = words_before(first, k, words) + size(order);
        if words > FUNCTION_WORDS {
            return false;
        }
    }
    true
}
