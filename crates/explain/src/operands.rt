//! Hints about the operands of a line: what assemblers take and check texts don't.

use block_text::cut;
use std::str;
use text::Said;

pub(crate) const NO_NUMBER: &str = "registers are $0 to $31";

pub(crate) const NO_LABELS: &str = "there are no labels: blocks have numbers";

/// Registers as assemblers name them, by their numbers; `$s8` is `$fp`.
#[rattlefmt::skip]
const REGISTERS: &[&[u8]] = &[
    b"$zero", b"$at", b"$v0", b"$v1", b"$a0", b"$a1", b"$a2", b"$a3",
    b"$t0", b"$t1", b"$t2", b"$t3", b"$t4", b"$t5", b"$t6", b"$t7",
    b"$s0", b"$s1", b"$s2", b"$s3", b"$s4", b"$s5", b"$s6", b"$s7",
    b"$t8", b"$t9", b"$k0", b"$k1", b"$gp", b"$sp", b"$fp", b"$ra",
];

/// What takes registers alone, what takes a number as its last operand in place of it, and the least and the greatest number.
const PAIRS: &[(&str, &str, i32, i32)] = &[
    ("addu", "addiu", -32768, 32767),
    ("slt", "slti", -32768, 32767),
    ("sltu", "sltiu", -32768, 32767),
    ("and", "andi", 0, 65535),
    ("or", "ori", 0, 65535),
    ("xor", "xori", 0, 65535),
    ("sllv", "sll", 0, 31),
    ("srlv", "srl", 0, 31),
    ("srav", "sra", 0, 31),
];

/// Returns the number that a text is.
fn number_in(text: &[u8]) -> Option<i32> {
    str::from_utf8(text).ok()?.parse::<i32>().ok()
}

/// Returns the number of a register that assemblers name.
fn number_of_name(name: &[u8]) -> Option<usize> {
    if name == b"$s8".as_slice() {
        return Some(30);
    }
    REGISTERS.iter().position(|row| *row == name)
}

/// Returns the sign and the value of a number that is written in hexadecimal.
fn hexadecimal(operand: &[u8]) -> Option<(&'static str, u32)> {
    let (sign, number) = match operand {
        [b'-', number @ ..] => ("-", number),
        number => ("", number),
    };
    let [b'0', b'x' | b'X', digits @ ..] = number else {
        return None;
    };
    let digits = str::from_utf8(digits).unwrap_or("");
    Some((sign, u32::from_str_radix(digits, 16).ok()?))
}

/// Says what is wrong with an operand that an assembler takes. Reports whether it said something.
fn say_hint_of_operand(said: &mut Said, operand: &[u8]) -> bool {
    if let Some(number) = number_of_name(operand) {
        said.hint(str::from_utf8(operand).unwrap_or("?"));
        said.hint(" is $");
        said.hint.put(&number);
        return true;
    }
    if let Some((sign, value)) = hexadecimal(operand) {
        said.hint("numbers are decimal: ");
        said.hint(sign);
        said.hint.put(&value);
        return true;
    }
    false
}

/// Reports whether a byte parts operands: a comma, a parenthesis or a bracket.
fn parts(byte: &u8) -> bool {
    matches!(*byte, b',' | b'(' | b')' | b'[' | b']')
}

/// Returns the first operand, and what follows it.
fn first_operand<'t>(operands: &'t [u8]) -> (&'t [u8], &'t [u8]) {
    for (k, byte) in operands.iter().enumerate() {
        if parts(byte) {
            return (&operands[..k], &operands[k + 1..]);
        }
    }
    (operands, b"")
}

/// Reports whether an operand has a register's sign and is none.
fn is_unknown(operand: &[u8]) -> bool {
    match operand {
        [b'$', digits @ ..] => {
            let is_numbered = matches!(number_in(digits), Some(n) if 0 <= n && n < 32);
            !is_numbered && !operand.contains(&b' ') && number_of_name(operand).is_none()
        }
        _ => false,
    }
}

/// Returns what is wrong with the blanks of operands that have some.
fn hint_of_blanks(operands: &[u8]) -> &'static str {
    if operands.starts_with(b" ") {
        return "write one space behind the mnemonic";
    }
    if operands.ends_with(b" ") {
        return "no blank stands at the line's end";
    }
    "no blank stands between operands"
}

/// Says how an address is written, if it is written otherwise behind the first comma. Reports whether it said something.
fn say_address(said: &mut Said, operands: &[u8]) -> bool {
    let Some(halves) = cut(operands, b',') else {
        return false;
    };
    let Some(parts) = cut(halves.after, b'$') else {
        return false;
    };
    let number = match parts.before {
        [] | [b'('] | [b'['] => Some(0),
        [digits @ .., b'['] => number_in(digits),
        _ => None,
    };
    let (digits, _) = first_operand(parts.after);
    let (Some(number), Some(register)) = (number, number_in(digits)) else {
        return false;
    };
    said.hint("write ");
    said.hint.put(&number);
    said.hint("($");
    said.hint.put(&register);
    said.hint(")");
    true
}

/// Returns the instruction that takes the last of three operands, where this one doesn't.
fn other_with(word: &[u8], operands: &[u8]) -> Option<&'static str> {
    let (_, others) = first_operand(operands);
    let (_, last) = first_operand(others);
    let number = number_in(last);
    for (registers, numbers, least, greatest) in PAIRS {
        if word == registers.as_bytes() {
            let fits = matches!(number, Some(n) if *least <= n && n <= *greatest);
            return fits.then_some(*numbers);
        }
        if word == numbers.as_bytes() {
            return matches!(last, [b'$', ..]).then_some(*registers);
        }
    }
    None
}

/// Returns what is wrong with an operand of this kind, if something else than a number's range is.
fn hint_of_kind(kind: &[u8], operand: &[u8]) -> Option<&'static str> {
    match (kind, operand) {
        ([b'$', ..], [b'$', ..]) => None,
        ([b'$', ..], [_, ..]) => Some(NO_NUMBER),
        ([b'T' | b'E' | b'F' | b'N'], [b'a'..=b'z' | b'A'..=b'Z' | b'_' | b'.', ..]) => {
            Some(NO_LABELS)
        }
        _ => None,
    }
}

/// Returns what is wrong with operands beside these kinds: with the first that is of another kind, or with their number, or else the range.
fn hint_of_kinds(kinds: &[u8], operands: &[u8], range: &'static str) -> &'static str {
    let (mut wanted, mut rest) = (kinds, operands);
    for _ in 0..kinds.len() {
        if wanted.is_empty() || rest.is_empty() {
            break;
        }
        let (kind, more_wanted) = first_operand(wanted);
        let (operand, others) = first_operand(rest);
        if let Some(hint) = hint_of_kind(kind, operand) {
            return hint;
        }
        wanted = more_wanted;
        rest = others;
    }
    if !wanted.is_empty() {
        return if wanted.ends_with(b"E") {
            "T where it is taken, E where it isn't"
        } else {
            ""
        };
    }
    if rest.is_empty() {
        return range;
    }
    // of the instructions with two registers alone
    if kinds == b"$rs,$rt".as_slice() {
        "mflo $rd takes the result"
    } else {
        ""
    }
}

/// Says what to write in place of an instruction or an exit whose operands aren't those of its form.
pub(crate) fn say_hint_of_operands(said: &mut Said, line: &[u8], form: &str, range: &'static str) {
    let Some(kinds) = cut(form.as_bytes(), b' ') else {
        return said.hint(range);
    };
    let Some(halves) = cut(line, b' ') else {
        return;
    };
    let operands = halves.after;
    if operands.split(|byte| parts(byte)).any(is_unknown) {
        return said.hint(NO_NUMBER);
    }
    for operand in operands.split(|byte| parts(byte)) {
        if say_hint_of_operand(said, operand) {
            return;
        }
    }
    if operands.contains(&b' ') {
        return said.hint(hint_of_blanks(operands));
    }
    if form.ends_with("($base)") && say_address(said, operands) {
        return;
    }
    let Some(other) = other_with(halves.before, operands) else {
        return said.hint(hint_of_kinds(kinds.after, operands, range));
    };
    said.hint("write ");
    said.hint(other);
    said.hint(" ");
    said.hint(str::from_utf8(operands).unwrap_or(""));
}
