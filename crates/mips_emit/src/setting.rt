//! What code depends on besides its instructions.

ghost use Rattle.std.proofs.Props.{props};
ghost use Rattle.mips_emit.specs.Elements.{AreStarts};
ghost use Rattle.mips_emit.specs.Frames.{IsHome-prop, IsReachable};

use mips_homes::Frame;
use rtl::RGlobal;

/// Has what code depends on besides its instructions: the globals, where in the data each begins, and the frame.
#[derive(Clone, Copy)]
pub struct Setting<'a> {
    pub globals: &'a [RGlobal],
    pub starts: &'a [u32],
    pub frame: &'a Frame,
    ghost few: { AreStarts starts.now },
    ghost reachable: { IsReachable frame.now } by { Prim.hlevel (IsHome-prop, props) },
}
