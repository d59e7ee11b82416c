//! The limits of frames and of the stack.

ghost use Rattle.std.specs.Prelude.{◌↔◌, IsTrue};
ghost use Rattle.mips_select.specs.Limits.{IsLargest, HaveRoom};

use mips_emit::FRAME_BYTES;
use mips_homes::Frame;

/// How many bytes the stack has.
pub const STACK_BYTES: u32 = 16_777_216;

/// Returns the bytes of the largest frame, with its link, if none has too many.
fn largest_frame(frames: &[Frame]) -> Option<u32>
    ensures { IsLargest frames.now result }
{
    let mut largest: u32 = 0;
    for frame in frames {
        let homes = frame.homes.len();
        if homes >= (FRAME_BYTES / 4) as usize {
            return None;
        }
        largest = largest.max(4 * (homes as u32 + 1));
    }
    Some(largest)
}

/// Reports whether each frame is within reach of its instructions, and so many of the largest fit the stack.
pub(crate) fn have_room(frames: &[Frame], depth: u32) -> bool
    ensures { IsTrue result ↔ HaveRoom frames.now depth }
{
    match largest_frame(frames) {
        Some(largest) => u64::from(depth) * u64::from(largest) <= u64::from(STACK_BYTES),
        None => false,
    }
}
