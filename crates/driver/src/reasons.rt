//! Why a program's run is wrong, in lines for people.

use crate::builds::typed_of;
use crate::wrong_places::place_in_text;
use c_run::{Reason, reason_of, wrong_place_of};
use c_tokens::IntegerType;
use c_tree::{BinaryOp, UnaryOp};
use host::spot_of;
use show::Names;
use std::alloc::Global;
use text::{Page, WIDTH, Writer};

/// Returns what was written, its long lines cut; None if memory was refused to it.
pub(crate) fn page_of(alloc: Global, out: Writer) -> Option<Page> {
    out.end().ok()?.cut(alloc, WIDTH).ok()
}

/// Returns a word as its type reads it.
fn read_as(integer_type: IntegerType, word: u32) -> i64 {
    match integer_type {
        IntegerType::SignedInt if word >= 0x8000_0000 => i64::from(word) - 0x1_0000_0000,
        _ => i64::from(word),
    }
}

fn sign_of(operator: BinaryOp) -> &'static str {
    match operator {
        BinaryOp::Multiply => "*",
        BinaryOp::Divide => "/",
        BinaryOp::Remainder => "%",
        BinaryOp::Add => "+",
        BinaryOp::Subtract => "-",
        BinaryOp::ShiftLeft => "<<",
        BinaryOp::ShiftRight => ">>",
        _ => "?",
    }
}

const OVERFLOW: &str =
    "overflows: an int goes from -2147483648 to 2147483647\nhint: operands of type unsigned wrap";

/// Writes why an operator between two numbers has no value.
fn put_operation(out: &mut Writer, operator: BinaryOp, left: i64, right: i64) {
    let sign = sign_of(operator);
    let words = match operator {
        BinaryOp::Divide | BinaryOp::Remainder if right == 0 => "divides by 0",
        BinaryOp::ShiftLeft | BinaryOp::ShiftRight if right < 0 || right > 31 => {
            "shifts by a count that isn't from 0 to 31"
        }
        BinaryOp::ShiftLeft => {
            "shifts a negative int, or beyond 2147483647\nhint: shift an unsigned"
        }
        _ => OVERFLOW,
    };
    out.put(&format_args!("wrong: {left} {sign} {right} {words}\n"));
}

/// Writes why a run is wrong in the function of this number, and a hint where there is one.
fn put_reason(out: &mut Writer, why: Reason, depth: u32, names: &Names<'_>, function: usize) {
    match why {
        Reason::Unset {
            local,
            integer_type,
        } => {
            let name = names.local(function, local);
            let type_name = match integer_type {
                IntegerType::SignedInt => "int",
                IntegerType::UnsignedInt => "unsigned",
            };
            out.put(&format_args!(
                "wrong: '{name}' is read before it is set\nhint: give it a first value: {type_name} {name} = 0;\n"
            ));
        }
        Reason::Outside {
            array,
            index,
            integer_type,
            length,
        } => out.put(&format_args!(
            "wrong: the index {} is outside the array '{}' of length {length}\n",
            read_as(integer_type, index),
            names.global(array)
        )),
        Reason::Prefix {
            operator: UnaryOp::Negate,
            integer_type,
            operand,
        } => out.put(&format_args!("wrong: -({}) {OVERFLOW}\n", read_as(integer_type, operand))),
        Reason::Prefix { .. } => out.text("wrong: an operator has no value\n"),
        Reason::Operation {
            operator,
            integer_type,
            right_type,
            left,
            right,
        } => put_operation(
            out,
            operator,
            read_as(integer_type, left),
            read_as(right_type, right),
        ),
        Reason::TooDeep => out.put(&format_args!(
            "wrong: more than {depth} calls are active at once\nhint: --depth N lets N be active, 4096 at most\n"
        )),
        Reason::NoResult => out.text(
            "wrong: a function that gives a result ended without return\nhint: write a return before its last brace\n",
        ),
    }
}

/// Returns where and why the program that the text spells ends wrong within so many steps, in lines for people. None if it doesn't, or
/// memory was refused. `source` is the text's name.
pub fn wrong_page(
    alloc: Global,
    source: &str,
    text: &[u8],
    depth: u32,
    steps: u64,
) -> Option<Page> {
    let typed = typed_of(alloc, text).ok()?;
    let why = reason_of(alloc, &typed, depth, steps).ok()??;
    let place = wrong_place_of(alloc, &typed, depth, steps).ok()??;
    let names = Names::read(alloc, text).ok()?;
    let mut out = Writer::new(alloc);
    out.text(source);
    match place_in_text(alloc, text, &typed, place).ok()? {
        Some(at) => out.put(&spot_of(text, at)),
        None => out.text(":"),
    }
    out.put(&format_args!(" in function '{}':\n", names.function(place.function)));
    put_reason(&mut out, why, depth, &names, place.function);
    page_of(alloc, out)
}
