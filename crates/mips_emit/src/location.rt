//! Where pseudo-registers live, and what operands are.

ghost use Rattle.std.specs.Prelude.{◌≡◌, slice_get};
ghost use Rattle.mips_emit.specs.Frames.{IsReachable};
ghost use Rattle.mips_emit.specs.Locations.{locations, inner_of, source, FitsPlace, FitsSource};

use mips_homes::{Frame, Home, SCRATCH_1, SCRATCH_3, register};
use mips_isa::NonzeroReg;
use rtl::Register;

/// What an operand is.
#[derive(Clone, Copy)]
pub enum Source {
    /// The word 0.
    Zero,
    /// A word that is known.
    Word(u32),
    /// What a register holds.
    InRegister(NonzeroReg),
    /// What a slot of the frame holds.
    InSlot(u32),
}

/// Returns a home of a list.
fn home_at(homes: &[Home], x: usize) -> Option<Home>
    ensures { result ≡ slice_get homes.now x }
{
    homes.get(x).copied()
}

/// Returns where a pseudo-register lives, if it has a home.
pub(crate) fn locate(frame: &Frame, x: Register) -> Option<Home>
    requires { IsReachable frame.now }
    ensures value { result ≡ locations frame.now x }
    ensures fits { FitsPlace result }
{
    home_at(frame.homes.as_slice(), x as usize)
}

/// Returns the inner temporary of a home: the first or the third scratch register, in turn.
pub(crate) fn inner_of(place: &Option<Home>) -> NonzeroReg
    ensures { result ≡ inner_of place.now }
{
    match *place {
        None => register(SCRATCH_1),
        Some(Home::Reg(r) | Home::Copied(r, _)) => register(SCRATCH_3 - 2 * (r.index() % 2)),
        Some(Home::Slot(k)) => register(SCRATCH_1 + 2 * (k % 2) as u8),
    }
}

/// Returns what an operand is, from the word that it is known to hold and where it is.
pub(crate) fn source_of(known: Option<u32>, place: &Option<Home>) -> Source
    requires { FitsPlace place.now }
    ensures value { result ≡ source known place.now }
    ensures fits { FitsSource result }
{
    if matches!(known, Some(0)) {
        return Source::Zero;
    }
    match *place {
        None => known.map_or(Source::Zero, Source::Word),
        Some(Home::Reg(r) | Home::Copied(r, _)) => Source::InRegister(r),
        Some(Home::Slot(k)) => known.map_or(Source::InSlot(k), Source::Word),
    }
}
