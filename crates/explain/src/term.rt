//! Terms as text.

use crate::terms::{Left, Root};
use mips_isa::{Mnemonic, PairTest, ZeroTest};
use std::alloc::{AllocError, Global};
use sym_terms::{Label, Origin};
use text::{Page, Writer};
use words::Operator;

/// What stands for the parts of a term that are cut off.
const CUT: &str = "..";

/// The parts of a term that are shown at most.
const MOST: u32 = 200;

pub(crate) fn pair_sign(test: PairTest) -> &'static str {
    match test {
        PairTest::Equal => " == ",
        PairTest::NotEqual => " != ",
    }
}

pub(crate) fn zero_sign(test: ZeroTest) -> &'static str {
    match test {
        ZeroTest::AtMostZero => " <= 0",
        ZeroTest::AboveZero => " > 0",
        ZeroTest::BelowZero => " < 0",
        ZeroTest::AtLeastZero => " >= 0",
    }
}

/// Returns the sign between the operands of a term, if its operator has one in C.
fn infix(label: &Label) -> Option<&'static str> {
    match label {
        Label::Op(Operator::Addu) => Some(" + "),
        Label::Op(Operator::Subu) => Some(" - "),
        Label::Op(Operator::And) => Some(" & "),
        Label::Op(Operator::Or) => Some(" | "),
        Label::Op(Operator::Xor) => Some(" ^ "),
        Label::Op(Operator::Sll) => Some(" << "),
        _ => None,
    }
}

/// Returns the operator's instruction, with the register that it is read from where there are two.
fn operator_name(operator: Operator) -> &'static str {
    match operator {
        Operator::Addu => "addu",
        Operator::Subu => "subu",
        Operator::And => "and",
        Operator::Or => "or",
        Operator::Xor => "xor",
        Operator::Nor => "nor",
        Operator::Slt => "slt",
        Operator::Sltu => "sltu",
        Operator::Sll => "sll",
        Operator::Srl => "srl",
        Operator::Sra => "sra",
        Operator::MultHigh => "mult.hi",
        Operator::MultLow => "mult.lo",
        Operator::MultuHigh => "multu.hi",
        Operator::MultuLow => "multu.lo",
        Operator::DivQuotient => "div.lo",
        Operator::DivRemainder => "div.hi",
        Operator::DivuQuotient => "divu.lo",
        Operator::DivuRemainder => "divu.hi",
    }
}

/// Writes the label of a term, if it has no operands; a word as a signed number.
fn put_label(out: &mut Writer, label: &Label) {
    match label {
        Label::Init(Origin::Register(register)) => out.put(register),
        Label::Init(Origin::Hi) => out.text("hi"),
        Label::Init(Origin::Lo) => out.text("lo"),
        Label::Init(Origin::Link) => out.text("link"),
        Label::Mem0 => out.text("mem"),
        Label::Const(word) => out.put(&word.cast_signed()),
        Label::Op(operator) => out.text(operator_name(*operator)),
        Label::Load(width) => out.text(Mnemonic::Load(*width).name()),
        Label::Store(width) => out.text(Mnemonic::Store(*width).name()),
    }
}

/// Writes the operands, the last of which stands first, between parentheses and with this between them.
fn put_operands(out: &mut Writer, operands: &[Page], between: &str) {
    out.text("(");
    for (k, operand) in operands.iter().rev().enumerate() {
        if k > 0 {
            out.text(between);
        }
        out.page(operand);
    }
    out.text(")");
}

/// Returns the term that is next, cut at a depth, and where so many parts were shown. Its label stands before its operands, or as a sign
/// between them.
fn next_page(
    alloc: Global,
    reader: &mut Left,
    depth: u32,
    left: &mut u32,
) -> Result<Page, AllocError> {
    let mut out = Writer::new(alloc);
    let Some((label, count)) = reader.next()? else {
        out.text(CUT);
        return out.end();
    };
    if count == 0 {
        put_label(&mut out, &label);
    } else if depth == 0 || *left == 0 {
        reader.skip(count);
        out.text(CUT);
    } else {
        *left = left.saturating_sub(1);
        let mut operands = Vec::new(alloc);
        for _ in 0..count {
            operands.push(next_page(alloc, reader, depth - 1, left)?)?;
        }
        if let Some(sign) = infix(&label) {
            put_operands(&mut out, operands.as_slice(), sign);
        } else {
            put_label(&mut out, &label);
            put_operands(&mut out, operands.as_slice(), ", ");
        }
    }
    out.end()
}

/// Returns a root's term, cut at a depth; empty where there is no such root.
pub(crate) fn root_page(
    alloc: Global,
    reader: &mut Left,
    root: Root,
    depth: u32,
) -> Result<Page, AllocError> {
    if !reader.start(root)? {
        return Ok(Page::empty(alloc));
    }
    let mut left = MOST;
    next_page(alloc, reader, depth, &mut left)
}
