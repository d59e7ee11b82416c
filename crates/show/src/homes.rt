//! Where the pseudo-registers of a function live.

use crate::names::Names;
use mips_homes::{Frame, Home};
use text::Writer;

/// Writes a line for each pseudo-register, and two for the frame.
pub(crate) fn put_homes(out: &mut Writer, names: &Names<'_>, function: usize, frame: &Frame) {
    let mut register = 0u32;
    for home in frame.homes.iter() {
        out.put(&format_args!("  {} in ", names.register(function, register)));
        match *home {
            Home::Reg(r) => out.put(&r),
            Home::Slot(slot) => out.put(&format_args!("slot {slot}")),
            // the register holds a copy of the slot's word
            Home::Copied(r, slot) => out.put(&format_args!("slot {slot}, copied in {r}")),
        }
        out.text("\n");
        register = register.saturating_add(1);
    }
    out.text("  saved:");
    for number in frame.saved.iter() {
        out.put(&format_args!(" ${number}"));
    }
    if frame.saved.is_empty() {
        out.text(" none");
    }
    out.put(&format_args!("\n  slots: {}\n", frame.slots));
}
