//! What a run keeps, by the numbers of a program: the words of registers, and what an element of a global keeps.
ghost use Rattle.std.specs.Prelude.{◌≡◌, Option};
ghost use Rattle.words.specs.Words.{wrap};
ghost use Rattle.runs.specs.Kept.{places};
ghost use Rattle.rtl.specs.Meaning.{kept_in};

use crate::block::RGlobal;
use crate::instruction::{GlobalNumber, Register};
use runs::word_at;

/// Returns the word that a number of a program means.
#[inline(always)]
pub(crate) fn constant(word: u32) -> u32
    ensures { result ≡ wrap word }
{
    word
}

/// Returns the word of a register; None if it isn't set.
#[inline]
pub(crate) fn register(registers: &[Option<u32>], x: Register) -> Option<u32>
    ensures { result ≡ places registers.now x }
{
    word_at(registers, x as usize)
}

/// Returns what an element of a global keeps of a word; None if there is no such global.
#[inline]
pub(crate) fn kept_by(globals: &[RGlobal], global: GlobalNumber, v: u32) -> Option<u32>
    ensures { result ≡ kept_in globals.now global v }
{
    let global = globals.get(global as usize)?;
    Some(global.width.kept(v))
}
