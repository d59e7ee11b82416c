//! Images as assembler source, for GNU as and for SPIM.
ghost use Rattle.std.specs.Prelude.{All, IfOk};
ghost use Rattle.text.specs.Shown.{IsShown};

use image::Image;
use mips_code::decode;
use mips_isa::{
    ByteDigits, CODE_BASE, Control, DATA_BASE, Inst, ListedControl, Plain, WordDigits,
    branch_target, jump_target,
};
use std::alloc::{AllocError, Global};
use text::{Page, Writer};

const HEAD: &str = "\
# An image of mcc: code at 0x00400000, data at 0x10000000, MIPS I, big-endian.
.set noreorder
.set noat
.text
.globl __start
";

/// The name of an address.
#[derive(Clone, Copy)]
pub struct Label<'a> {
    pub address: u32,
    pub name: &'a str,
}

/// Returns where a branch or jump of an address leads, of those that name a place.
fn target_of(control: &Control, address: u32) -> Option<u32> {
    let slot = address.wrapping_add(4);
    match control {
        Control::BranchPair { offset, .. } | Control::BranchZero { offset, .. } => {
            Some(branch_target(slot, *offset))
        }
        Control::JumpTo { target, .. } => Some(jump_target(slot, *target)),
        Control::JumpRegister { .. } | Control::SystemCall => None,
    }
}

/// Returns which word of the code stands at an address.
fn word_index(address: u32) -> usize {
    (address.wrapping_sub(CODE_BASE) / 4) as usize
}

/// Returns the instruction that a word of the code is written as, which has so many words. A division, and a branch or jump out of the
/// code, is written as its number.
fn written_as(word: u32, address: u32, count: usize) -> Option<Inst> {
    let inst = decode(word)?;
    let is_number = match &inst {
        Inst::Plain(plain) => matches!(*plain, Plain::Divide { .. }),
        Inst::Control(control) => matches!(
            target_of(control, address),
            Some(target) if target < CODE_BASE || word_index(target) >= count
        ),
    };
    (!is_number).then_some(inst)
}

/// Returns which code words a branch or jump leads to.
fn targets(alloc: Global, code: &[u32]) -> Result<Vec<bool>, AllocError> {
    let mut marks = vec![in alloc; false; code.len()]?;
    let mut address = CODE_BASE;
    for word in code {
        if let Some(Inst::Control(control)) = written_as(*word, address, code.len())
            && let Some(target) = target_of(&control, address)
            && let Some(mark) = marks.get_mut(word_index(target))
        {
            *mark = true;
        }
        address = address.wrapping_add(4);
    }
    Ok(marks)
}

/// Returns the name of an address, if it is like no label of the source itself. The labels stand in the order of their addresses, one for
/// each.
fn name_at<'a>(labels: &[Label<'a>], address: u32) -> Option<&'a str> {
    let place = labels.partition_point(|label| label.address < address);
    let label = labels.get(place)?;
    let is_like_own = label.name == "__start"
        || label.name.len() == 9 && label.name.starts_with("L");
    (label.address == address && !is_like_own).then_some(label.name)
}

/// Writes a branch or jump with a label in place of the address.
fn put_control(
    alloc: Global,
    out: &mut Writer,
    control: Control,
    address: u32,
    labels: &[Label<'_>],
) -> Result<(), AllocError> {
    let text = format!(in alloc; "{}", ListedControl { control, address })?;
    let (before, _) = text.split_once("0x").unwrap_or((text.as_str(), ""));
    out.text(before);
    if let Some(target) = target_of(&control, address) {
        match name_at(labels, target) {
            Some(name) => out.text(name),
            None => out.put(&format_args!("L{}", WordDigits(target))),
        }
    }
    Ok(())
}

/// Writes a word of the code. The word 0 is `sll $0,$0,0`, since SPIM on a bare machine knows no `nop`.
fn put_word(
    alloc: Global,
    out: &mut Writer,
    code: &[u32],
    word: u32,
    address: u32,
    labels: &[Label<'_>],
) -> Result<(), AllocError> {
    out.text("    ");
    match written_as(word, address, code.len()) {
        Some(Inst::Plain(plain)) if plain.is_nop() => out.text("sll $0,$0,0"),
        Some(Inst::Plain(plain)) => out.put(&plain),
        Some(Inst::Control(control)) => put_control(alloc, out, control, address, labels)?,
        None => out.put(&format_args!(".word 0x{}", WordDigits(word))),
    }
    out.text("\n");
    Ok(())
}

/// Writes the name of an address as a global label. A target without a name has a label of the source itself.
fn put_name(out: &mut Writer, labels: &[Label<'_>], address: u32, is_target: bool) {
    match name_at(labels, address) {
        Some(name) => out.put(&format_args!(".globl {name}\n{name}:\n")),
        None if is_target => out.put(&format_args!("L{}:\n", WordDigits(address))),
        None => {}
    }
}

/// Writes the data, four bytes a line, and those after the last whole word each alone.
fn put_data(out: &mut Writer, bytes: &[u8], labels: &[Label<'_>]) {
    if bytes.is_empty() {
        return;
    }
    out.text(".data\n");
    let mut address = DATA_BASE;
    for part in bytes.chunks(4) {
        put_name(out, labels, address, false);
        if let [a, b, c, d] = part {
            let word = u32::from_be_bytes([*a, *b, *c, *d]);
            out.put(&format_args!("    .word 0x{}\n", WordDigits(word)));
        } else {
            for byte in part {
                out.put(&format_args!("    .byte 0x{}\n", ByteDigits(*byte)));
            }
        }
        address = address.wrapping_add(4);
    }
}

/// Writes the assembler source of an image.
pub(crate) fn put_source(
    alloc: Global,
    out: &mut Writer,
    image: &Image,
    labels: &[Label<'_>],
) -> Result<(), AllocError> {
    out.text(HEAD);
    let code = image.code();
    let marks = targets(alloc, code)?;
    let mut address = CODE_BASE;
    for (word, is_target) in code.iter().zip(marks.iter()) {
        if address == image.entry() {
            out.text("__start:\n");
        }
        put_name(out, labels, address, *is_target);
        put_word(alloc, out, code, *word, address, labels)?;
        address = address.wrapping_add(4);
    }
    put_data(out, image.bytes(), labels);
    Ok(())
}

/// Returns the assembler source of an image, with labels where the image has names: functions at words of the code, globals at words of
/// the data. Labels come in the order of their addresses, one for each. A name that is like a label of the source itself (`__start`, `L`
/// and eight digits) is left out.
pub fn assembler_source(
    alloc: Global,
    image: &Image,
    labels: &[Label<'_>],
) -> Result<Page, AllocError>
    ensures { IfOk result (All IsShown) }
{
    let mut out = Writer::new(alloc);
    put_source(alloc, &mut out, image, labels)?;
    out.end()
}
