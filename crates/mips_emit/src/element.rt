//! Elements of globals: how they are reached.

#![tactic(auto, using(crate::proofs::Prefixes::prefix_behind, crate::proofs::Prefixes::prefix_among, crate::proofs::Prefixes::emits_behind))]

ghost use Rattle.std.specs.Prelude.{◌≡◌, ◌≤◌, ◌<◌, ◌&&◌, nat_eq};
ghost use Rattle.mblock.specs.declared.limits.TheConstants.{UNIT_BYTES};
ghost use Rattle.mips_emit.specs.Locations.{FitsSource};
ghost use Rattle.mips_emit.specs.Elements.{width_bytes, address_of_place, direct, near, page, low};
ghost use Rattle.mips_emit.specs.Elements.{base_sum, base_code, base_offset, base_word, element_base, element_offset};
ghost use Rattle.mips_emit.specs.Elements.{shifted_place, fits_offset, base_index, shifted_offset, reach_by};
ghost use Rattle.mips_emit.specs.Code.{element_code, element_load, element_store};
ghost use Rattle.mips_emit.specs.Prefixes.{Emits};

use crate::constant::{emit_one, emit_one_or_two};
use crate::location::Source;
use crate::offset::Offset;
use crate::plain::{alu, shift};
use crate::transfer::{emit_fetch, operand_register};
use mips_homes::{GLOBAL_POINTER, SCRATCH_1, SCRATCH_2, register};
use mips_isa::{AluOp, DATA_BASE, NonzeroReg, Plain, Reg, ShiftOp};
use std::alloc::AllocError;
use words::Width;

/// Keeps the base of an element for the next one: nothing else uses this register.
pub(crate) const KEPT_BASE: u8 = 30;

/// How an element is reached.
#[derive(Clone, Copy)]
pub enum Reach {
    /// From the global pointer, by its place.
    ByPointer(u16),
    /// From a base that is made in a scratch register.
    ByScratch,
    /// From the base that is kept, so many elements after it.
    ByKept(u32),
    /// From that base, made from a register, so many elements after it.
    ByNew(NonzeroReg, u32),
}

/// An element: its width, where its global begins, and how it is reached.
#[derive(Clone, Copy)]
pub(crate) struct Element {
    pub width: Width,
    pub start: u32,
    pub by: Reach,
    ghost few: { start ≤ UNIT_BYTES },
}

/// Returns how many bytes an element has.
fn bytes_of(width: Width) -> u32
    ensures value { result ≡ width_bytes width }
    ensures few { result ≤ 4 }
{
    match width {
        Width::Word => 4,
        Width::Byte => 1,
    }
}

/// Returns the place of an element whose index is known, where the global pointer reaches it.
pub(crate) fn direct(width: Width, start: u32, known: Option<u32>) -> Option<u16>
    requires { start ≤ UNIT_BYTES }
    ensures { result ≡ direct width start known }
{
    let index = known?;
    if index >= 65_536 {
        return None;
    }
    let place = start + bytes_of(width) * index;
    if place < 65_536 {
        Some(place as u16)
    } else {
        None
    }
}

/// Returns the way from the global pointer to a place.
fn near(place: u16) -> i16
    ensures { result ≡ near place }
{
    if place < 32_768 {
        -1 - (32_767 - place) as i16
    } else {
        (place - 32_768) as i16
    }
}

/// Returns the lower part of an address.
fn low(address: u32) -> i16
    ensures { result ≡ low address }
{
    let half = address % 65_536;
    if half < 32_768 {
        half as i16
    } else {
        -1 - (65_535 - half) as i16
    }
}

/// Returns the upper part of the address at which a global begins.
fn page_of(start: u32) -> u16
    requires { start ≤ UNIT_BYTES }
    ensures { result ≡ page (address_of_place start) }
{
    ((DATA_BASE + start + 32_768) / 65_536) as u16
}

/// Returns what a base is more than the index times the width.
fn base_word(start: u32) -> u32
    requires { start ≤ UNIT_BYTES }
    ensures { result ≡ base_word start }
{
    if start < 65_536 {
        DATA_BASE + 32_768
    } else {
        page_of(start) as u32 * 65_536
    }
}

/// Reports whether the elements of one global have the same bases as those of another.
pub(crate) fn same_base(w: Width, start: u32, v: Width, other: u32) -> bool
    requires first { start ≤ UNIT_BYTES }
    requires second { other ≤ UNIT_BYTES }
    ensures { result ≡ (nat_eq (width_bytes w) (width_bytes v) && nat_eq (base_word start) (base_word other)) }
{
    bytes_of(w) == bytes_of(v) && base_word(start) == base_word(other)
}

/// Returns the place of an element, some more of them after another one's.
fn shifted_place(width: Width, start: u32, word: u32) -> u32
    ensures { result ≡ shifted_place width start word }
{
    start.wrapping_add(bytes_of(width).wrapping_mul(word))
}

/// Reports whether the global pointer's offset to it is one of an instruction.
fn fits_offset(width: Width, start: u32, word: u32) -> bool
    ensures { result ≡ fits_offset width start word }
{
    start < 65_536 && shifted_place(width, start, word) < 65_536
}

/// Returns the register from which a base is made for an index.
pub(crate) fn base_index(width: Width, start: u32, index: &Offset) -> NonzeroReg
    ensures { result ≡ base_index width start index.now }
{
    if fits_offset(width, start, index.word) {
        index.base
    } else {
        index.register
    }
}

/// Returns the offset from that base.
fn shifted_offset(width: Width, start: u32, word: u32) -> i16
    requires { start ≤ UNIT_BYTES }
    ensures { result ≡ shifted_offset width start word }
{
    let place = shifted_place(width, start, word);
    if start < 65_536 && place < 65_536 {
        near(place as u16)
    } else {
        base_offset(start)
    }
}

/// Returns how an element is reached.
pub(crate) fn reach_by(
    width: Width,
    start: u32,
    place: Option<u16>,
    index: &Option<Offset>,
    is_kept: bool,
) -> Reach
    ensures { result ≡ reach_by width start place index.now is_kept }
{
    if let Some(p) = place {
        return Reach::ByPointer(p);
    }
    match index {
        None => Reach::ByScratch,
        Some(o) if is_kept => Reach::ByKept(o.word),
        Some(o) => Reach::ByNew(base_index(width, start, o), o.word),
    }
}

/// Emits the way from a scaled index to a base for the element, in a register.
fn emit_sum(code: &mut Vec<Plain>, t: NonzeroReg, start: u32, index: Reg) -> Result<(), AllocError>
    requires { start ≤ UNIT_BYTES }
    ensures { Emits result code.old.items (base_sum t start index) code.new.items }
{
    if start < 65_536 {
        let base = Reg::masked(GLOBAL_POINTER);
        return emit_one(code, alu(AluOp::Addu, t.reg(), index, base));
    }
    let rt = Reg::masked(SCRATCH_2);
    let imm = page_of(start);
    let sum = alu(AluOp::Addu, t.reg(), index, rt);
    emit_one_or_two(code, Plain::LoadUpper { rt, imm }, Some(sum))
}

/// Returns the offset from that base.
fn base_offset(start: u32) -> i16
    requires { start ≤ UNIT_BYTES }
    ensures { result ≡ base_offset start }
{
    if start < 65_536 {
        near(start as u16)
    } else {
        low(DATA_BASE + start)
    }
}

/// Emits a base for an element, in a register.
fn emit_base(
    code: &mut Vec<Plain>,
    width: Width,
    t: NonzeroReg,
    start: u32,
    index: Reg,
) -> Result<(), AllocError>
    requires { start ≤ UNIT_BYTES }
    ensures { Emits result code.old.items (base_code width t start index) code.new.items }
{
    match width {
        Width::Word => {
            emit_one(code, shift(ShiftOp::Sll, t.reg(), index, 2))?;
            emit_sum(code, t, start, t.reg())
        }
        Width::Byte => emit_sum(code, t, start, index),
    }
}

/// Emits what stands before an element is used; an Err means out of memory.
pub(crate) fn emit_element(
    code: &mut Vec<Plain>,
    element: &Element,
    x: &Source,
) -> Result<(), AllocError>
    requires { FitsSource x.now }
    ensures { Emits result code.old.items (element_code element.now.width element.now.start element.now.by x.now) code.new.items }
{
    let (width, start) = (element.width, element.start);
    match element.by {
        Reach::ByPointer(_) | Reach::ByKept(_) => Ok(()),
        Reach::ByScratch => {
            let t = register(SCRATCH_1);
            let index = operand_register(t, x);
            emit_fetch(code, t, x)?;
            emit_base(code, width, t, start, index)
        }
        Reach::ByNew(q, _) => emit_base(code, width, register(KEPT_BASE), start, q.reg()),
    }
}

/// Returns the register from which an element is reached.
fn element_base(by: &Reach) -> Reg
    ensures { result ≡ element_base by.now }
{
    match by {
        Reach::ByPointer(_) => Reg::masked(GLOBAL_POINTER),
        Reach::ByScratch => Reg::masked(SCRATCH_1),
        Reach::ByKept(_) | Reach::ByNew(_, _) => Reg::masked(KEPT_BASE),
    }
}

/// Returns the offset of an element from that register.
fn element_offset(element: &Element) -> i16
    ensures { result ≡ element_offset element.now.width element.now.start element.now.by }
{
    match element.by {
        Reach::ByPointer(p) => near(p),
        Reach::ByScratch => base_offset(element.start),
        Reach::ByKept(word) | Reach::ByNew(_, word) => {
            shifted_offset(element.width, element.start, word)
        }
    }
}

/// Returns a load of an element.
pub(crate) fn element_load(element: &Element, rt: NonzeroReg) -> Plain
    ensures { result ≡ element_load element.now.width rt element.now.start element.now.by }
{
    Plain::Load {
        width: element.width,
        rt,
        base: element_base(&element.by),
        offset: element_offset(element),
    }
}

/// Returns a store to an element.
pub(crate) fn element_store(element: &Element, rt: Reg) -> Plain
    ensures { result ≡ element_store element.now.width rt element.now.start element.now.by }
{
    Plain::Store {
        width: element.width,
        rt,
        base: element_base(&element.by),
        offset: element_offset(element),
    }
}
