//! The code of instructions.

#![tactic(auto, using(crate::proofs::Prefixes::prefix_behind, crate::proofs::Prefixes::prefix_among, crate::proofs::Prefixes::emits_behind))]

ghost use Rattle.std.specs.Prelude.{◌≡◌, ◌<◌, ◌≤◌, ◌++◌, All, length, slice_index, OnOk, OnErr, IfOk, Some, None};
ghost use Rattle.mblock.specs.declared.limits.TheConstants.{UNIT_BYTES};
ghost use Rattle.words.specs.Words.{wrap};
ghost use Rattle.rtl.specs.Programs.{IsInst};
ghost use Rattle.mips_homes.specs.declared.homed.Home.TheVariants.{Reg};
ghost use Rattle.mips_emit.specs.Locations.{facts_of, fresh_of, inner_of, learned, locations, operand, known_after, FitsPlace, FitsSource};
ghost use Rattle.mips_emit.specs.Comparisons.{FitsComparison, comparison_of, next_code, last_with, last_after, no_last, code_of_insts};
ghost use Rattle.mips_emit.specs.Elements.{AreStarts, width_of};
ghost use Rattle.mips_emit.specs.Code.{context_of, const_code, into, holds_base, reach_with, load_code, store_code, inst_code};
ghost use Rattle.mips_emit.specs.Locations.{index_register};
ghost use Rattle.mips_emit.specs.Offsets.{index_with};
ghost use Rattle.mips_emit.specs.Prefixes.{Emits, StopsAmong, emission};

use crate::comparison::{Asked, Comparison, comparison_of, emit_comparison};
use crate::constant::emit_one;
use crate::element::{
    Element, base_index, direct, element_load, element_store, emit_element, reach_by, same_base,
};
use crate::facts::{
    Kept, Knowledge, Last, fresh_of, index_register, known_word, last_with, learn, operand,
    operand_by,
};
use crate::location::{Source, inner_of, locate, source_of};
use crate::offset::{Offset, index_with};
use crate::operation::{emit_after, emit_op, operand_with};
use crate::setting::Setting;
use crate::transfer::{emit_finish, emit_put, into_of, operand_register};
use mips_homes::{Frame, Home, SCRATCH_2, is_callee_saved, register};
use mips_isa::Plain;
use rtl::{GlobalNumber, RGlobal, RInst};
use std::alloc::AllocError;
use words::Width;

/// Emits a word into a home, or nothing yet where that is a caller-saved register.
fn emit_const(code: &mut Vec<Plain>, place: &Option<Home>, word: u32) -> Result<(), AllocError>
    requires { FitsPlace place.now }
    ensures { Emits result code.old.items (const_code place.now (wrap word)) code.new.items }
{
    let source = source_of(Some(word), &None);
    match *place {
        Some(Home::Reg(r)) if !is_callee_saved(r.index()) => emit_one(code, Plain::nop()),
        _ => emit_put(code, place, &source),
    }
}

/// Emits an element into a home.
fn emit_load(
    code: &mut Vec<Plain>,
    element: &Element,
    x: &Source,
    place: &Option<Home>,
) -> Result<(), AllocError>
    requires place { FitsPlace place.now }
    requires fits { FitsSource x.now }
    ensures { Emits result code.old.items
        (load_code place.now element.now.width element.now.start element.now.by x.now)
        code.new.items }
{
    let rt = into_of(place);
    emit_element(code, element, x)?;
    emit_one(code, element_load(element, rt))?;
    emit_finish(code, place)
}

/// Emits an operand into an element.
fn emit_store(
    code: &mut Vec<Plain>,
    element: &Element,
    x: &Source,
    y: &Source,
) -> Result<(), AllocError>
    requires index { FitsSource x.now }
    requires value { FitsSource y.now }
    ensures { Emits result code.old.items
        (store_code element.now.width element.now.start element.now.by x.now y.now)
        code.new.items }
{
    let t = register(SCRATCH_2);
    let rt = operand_register(t, y);
    let store = element_store(element, rt);
    emit_element(code, element, x)?;
    emit_after(code, t, y, store, None)
}

/// Returns the width of a global's elements.
fn width_of(globals: &[RGlobal], a: GlobalNumber) -> Width
    ensures { result ≡ width_of globals.now a }
{
    globals
        .get(a as usize)
        .map_or(Width::Word, |global| global.width)
}

/// Returns where a global begins.
fn start_of(starts: &[u32], a: GlobalNumber) -> u32
    requires { AreStarts starts.now }
    ensures start { result ≡ slice_index starts.now a }
    ensures few { result ≤ UNIT_BYTES }
{
    starts.get(a as usize).copied().unwrap_or(0)
}

/// Says whether the base that is kept is one of a global's elements at an index.
fn holds_base(
    setting: &Setting<'_>,
    kept: &Option<Kept>,
    a: GlobalNumber,
    index: &Option<Offset>,
) -> bool
    ensures { result ≡ holds_base setting.now.globals.now (slice_index setting.now.starts.now) kept.now a index.now }
{
    let (Some(k), Some(o)) = (kept, index) else {
        return false;
    };
    let w = width_of(setting.globals, k.global);
    let v = width_of(setting.globals, a);
    let start = start_of(setting.starts, k.global);
    let other = start_of(setting.starts, a);
    base_index(w, start, &k.index) == base_index(v, other, o) && same_base(w, start, v, other)
}

/// Finds how an element of a global is reached, whose index is a pseudo-register.
fn element_at(
    setting: &Setting<'_>,
    facts: &Knowledge,
    a: GlobalNumber,
    known: Option<u32>,
    x: &Source,
) -> Element
    ensures width { result.width ≡ width_of setting.now.globals.now a }
    ensures start { result.start ≡ slice_index setting.now.starts.now a }
    ensures by { result.by ≡ reach_with setting.now.globals.now (slice_index setting.now.starts.now) (facts_of facts.now).kept a known (index_with (facts_of facts.now).offset (index_register known x.now)) }
{
    let width = width_of(setting.globals, a);
    let start = start_of(setting.starts, a);
    let index = index_with(&facts.offset, index_register(known, x));
    let is_kept = holds_base(setting, &facts.kept, a, &index);
    Element {
        width,
        start,
        by: reach_by(width, start, direct(width, start, known), &index, is_kept),
    }
}

/// Emits one instruction.
#[inline(always)]
fn emit_inst(
    code: &mut Vec<Plain>,
    setting: &Setting<'_>,
    facts: &Knowledge,
    inst: &RInst,
) -> Result<(), AllocError>
    requires named { IsInst (length setting.now.starts.now) inst.now }
    ensures { Emits result code.old.items
        (inst_code setting.now.globals.now (slice_index setting.now.starts.now) (locations setting.now.frame.now) (facts_of facts.now) inst.now)
        code.new.items }
{
    let frame = setting.frame;
    match inst {
        RInst::Const(d, word) => emit_const(code, &locate(frame, *d), *word),
        RInst::Move(d, a) => emit_put(code, &locate(frame, *d), &operand(facts, frame, *a)),
        RInst::Bin(op, d, a, b) => {
            let place = locate(frame, *d);
            let x = operand_with(facts, frame, *a);
            let y = operand_with(facts, frame, *b);
            emit_op(code, *op, inner_of(&place), into_of(&place).reg(), &x, &y)?;
            emit_finish(code, &place)
        }
        RInst::Load(d, a, i) => {
            let known = known_word(facts, *i);
            let x = operand_by(facts, frame, *i, known);
            let element = element_at(setting, facts, *a, known, &x);
            emit_load(code, &element, &x, &locate(frame, *d))
        }
        RInst::Store(a, i, b) => {
            let known = known_word(facts, *i);
            let x = operand_by(facts, frame, *i, known);
            let element = element_at(setting, facts, *a, known, &x);
            let y = operand(facts, frame, *b);
            emit_store(code, &element, &x, &y)
        }
    }
}

/// Emits one instruction, or the comparison that it is.
fn emit_next(
    code: &mut Vec<Plain>,
    setting: &Setting<'_>,
    facts: &Knowledge,
    comparison: &Option<Comparison>,
    inst: &RInst,
) -> Result<(), AllocError>
    requires named { IsInst (length setting.now.starts.now) inst.now }
    requires fits { FitsComparison comparison.now }
    ensures { Emits result code.old.items
        (next_code (context_of setting.now) (facts_of facts.now) comparison.now inst.now)
        code.new.items }
{
    match comparison {
        None => emit_inst(code, setting, facts, inst),
        Some(m) => emit_comparison(code, m),
    }
}

/// Emits the instruction before an exit that goes by the pseudo-register asked for, and learns what is known after it. Returns what is left
/// for the exit.
fn emit_last(
    code: &mut Vec<Plain>,
    facts: &mut Knowledge,
    setting: &Setting<'_>,
    asked: Asked,
    inst: &RInst,
) -> Result<Last, AllocError>
    requires named { IsInst (length setting.now.starts.now) inst.now }
    ensures code { Emits result code.old.items (next_code (context_of setting.now) (facts_of facts.old)
        (comparison_of (locations setting.now.frame.now) (facts_of facts.old) asked inst.now) inst.now) code.new.items }
    ensures last { IfOk result (λ l. l ≡ last_with (comparison_of (locations setting.now.frame.now) (facts_of facts.old) asked inst.now)
        (fresh_of (locations setting.now.frame.now) inst.now)) }
    ensures known { OnOk result (facts_of facts.new ≡ learned (locations setting.now.frame.now) inst.now (facts_of facts.old)) }
    ensures kept { OnErr result (facts_of facts.new ≡ facts_of facts.old) }
{
    let comparison = comparison_of(facts, setting.frame, asked, inst);
    let fresh = fresh_of(setting.frame, inst);
    emit_next(code, setting, facts, &comparison, inst)?;
    learn(facts, setting.frame, inst)?;
    Ok(last_with(&comparison, fresh))
}

/// Emits several instructions, learns what is known after them, and returns what is left for an exit that goes by the pseudo-register asked
/// for. What is known after them and left for an exit is learned, where that goes by the pseudo-register asked for. At an Err, which is
/// refused memory, what is known is what the whole instructions leave.
pub fn emit_insts(
    code: &mut Vec<Plain>,
    facts: &mut Knowledge,
    setting: &Setting<'_>,
    asked: Asked,
    insts: &[RInst],
) -> Result<Last, AllocError>
    requires named { All (IsInst (length setting.now.starts.now)) insts.now }
    ensures code { OnOk result (code.new.items ≡ code.old.items
        ++ code_of_insts (context_of setting.now) asked (facts_of facts.old) insts.now) }
    ensures last { IfOk result (λ l. l ≡ last_after (locations setting.now.frame.now) asked (facts_of facts.old) insts.now no_last) }
    ensures known { OnOk result (facts_of facts.new ≡ known_after (locations setting.now.frame.now) insts.now (facts_of facts.old)) }
    ensures left { OnErr result (StopsAmong (context_of setting.now) asked insts.now
        (emission (facts_of facts.old) code.old.items) (emission (facts_of facts.new) code.new.items)) }
{
    let mut left = insts.len();
    for inst in insts {
        left -= 1;
        if left == 0 {
            let last = emit_last(code, facts, setting, asked, inst)?;
            return Ok(last);
        }
        emit_inst(code, setting, facts, inst)?;
        learn(facts, setting.frame, inst)?;
    }
    Ok(Last::NONE)
}
