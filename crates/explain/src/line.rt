//! What is said of the first line of a check text that can't stand in its place.

ghost use Rattle.std.specs.Prelude.{IfOk};
ghost use Rattle.text.specs.Shown.{IsPrintableExplanation};

use crate::operands::{NO_LABELS, NO_NUMBER, say_hint_of_operands};
use block_text::{ExitName, cut, exit_named, first_line, mnemonic_named};
use mblock::{BLOCK_INSTS, ORDER_INSTS};
use mips_isa::Mnemonic;
use std::alloc::{AllocError, Global};
use std::str;
use text::{Explanation, Said};

/// The most bytes of a word that are shown.
const SHOWN: usize = 63;

const SMALL: &str = "n from 0 to 31";

const SIGNED: &str = "n from -32768 to 32767";

const UNSIGNED: &str = "n from 0 to 65535";

const BLOCKS: &str = "numbers of blocks are from 0 to 1048575";

const ALONE: &str = "nothing stands behind it";

const NO_COMMENTS: &str = "there are no comments";

/// Operands as they are shown, and what they may be.
type Form = (&'static str, &'static str);

/// What can't be an instruction here, with what to write: words of assemblers, and a line that comes before its exit.
const OTHERS: &[(&[u8], &str)] = &[
    (b"add", "write addu, which doesn't trap"),
    (b"addi", "write addiu, which doesn't trap"),
    (b"sub", "write subu, which doesn't trap"),
    (b"subi", "write addiu with -n"),
    (b"subiu", "write addiu with -n"),
    (b"neg", "write subu $rd,$0,$rs"),
    (b"move", "write addu $rd,$rs,$0"),
    (b"li", "write addiu $rt,$0,n, or lui and ori"),
    (b"not", "write nor $rd,$rs,$0"),
    (b"lb", "write lbu"),
    (b"j", "write goto T"),
    (b"b", "write goto T"),
    (b"jal", "write call F,N"),
    (b"jr", "write return"),
    (b"beqz", "write beq $s,$0,T,E"),
    (b"bnez", "write bne $s,$0,T,E"),
    (b"mul", "write mult $rs,$rt and mflo $rd"),
    (b"syscall", "write out N or halt"),
    (b"order", "a block ends with an exit, as return or goto T"),
    (b"slot", "an order ends with an exit, as return or goto T"),
];

/// What has to stand next in a check text.
#[derive(Clone, Copy)]
enum Stage {
    Block,
    /// After so many instructions of the block.
    InBlock(usize),
    Order,
    InOrder(usize),
    Slot,
    /// After an order that ends in `out` or `halt`.
    NoSlot,
    Nothing,
}

/// Returns what stands before the first blank.
fn mnemonic<'t>(line: &'t [u8]) -> &'t [u8] {
    match cut(line, b' ') {
        Some(halves) => halves.before,
        None => line,
    }
}

/// Returns the form of an instruction that a word names.
fn instruction(word: &[u8]) -> Option<Form> {
    if word == b"nop".as_slice() {
        return Some(("", ALONE));
    }
    Some(match mnemonic_named(word)? {
        Mnemonic::Shift(_) => (" $rd,$rt,n", SMALL),
        Mnemonic::ShiftBy(_) => (" $rd,$rt,$rs", NO_NUMBER),
        Mnemonic::Alu(_) => (" $rd,$rs,$rt", NO_NUMBER),
        Mnemonic::Imm(_) => (" $rt,$rs,n", SIGNED),
        Mnemonic::Logic(_) => (" $rt,$rs,n", UNSIGNED),
        Mnemonic::LoadUpper => (" $rt,n", UNSIGNED),
        Mnemonic::MoveFrom(_) => (" $rd", NO_NUMBER),
        Mnemonic::Multiply(_) | Mnemonic::Divide(_) => (" $rs,$rt", NO_NUMBER),
        Mnemonic::Load(_) | Mnemonic::Store(_) => (" $rt,n($base)", SIGNED),
    })
}

/// Returns the form of an exit that a word names.
fn exit(word: &[u8]) -> Option<Form> {
    if matches!(word, b"return" | b"halt") {
        return Some(("", ALONE));
    }
    let operands = match exit_named(word)? {
        ExitName::Goto => " T",
        ExitName::BranchPair(_) => " $s,$t,T,E",
        ExitName::BranchZero(_) => " $s,T,E",
        ExitName::Call => " F,N",
        ExitName::Out => " N",
    };
    Some((operands, BLOCKS))
}

/// Returns what has to stand after a line that stands in its place.
fn stage_after(stage: Stage, line: &[u8]) -> Stage {
    let word = mnemonic(line);
    let is_exit = exit(word).is_some();
    match stage {
        Stage::Block => Stage::InBlock(0),
        Stage::InBlock(_) if is_exit => Stage::Order,
        Stage::InBlock(n) => Stage::InBlock(n.saturating_add(1)),
        Stage::Order => Stage::InOrder(0),
        Stage::InOrder(_) if matches!(word, b"out" | b"halt") => Stage::NoSlot,
        Stage::InOrder(_) if is_exit => Stage::Slot,
        Stage::InOrder(n) => Stage::InOrder(n.saturating_add(1)),
        Stage::Slot | Stage::NoSlot | Stage::Nothing => Stage::Nothing,
    }
}

/// Reports whether a line has a mark that begins a comment in assemblers.
fn has_comment(line: &[u8]) -> bool {
    line.contains(&b'#') || line.contains(&b';')
}

/// Reports whether a word that names nothing names an instruction or an exit in small letters.
fn has_capitals(word: &[u8]) -> bool {
    let mut small = [0; 6];
    for (k, byte) in word.iter().enumerate() {
        if let Some(place) = small.get_mut(k) {
            *place = byte.to_ascii_lowercase();
        }
    }
    let small = &small[..word.len().min(6)];
    word.len() <= 6 && instruction(small).or(exit(small)).is_some()
}

/// Returns what helps where a line begins with a word that is no instruction; nothing where nothing does.
fn hint_of_word(line: &[u8], word: &[u8]) -> &'static str {
    if let Some((_, instead)) = OTHERS.iter().find(|row| row.0 == word) {
        return *instead;
    }
    if has_comment(line) {
        return NO_COMMENTS;
    }
    if word.ends_with(b":") {
        return NO_LABELS;
    }
    if has_capitals(word) {
        return "write it in small letters";
    }
    ""
}

/// Says what is wrong with a line that should be an instruction or an exit.
fn say_instruction(said: &mut Said, line: &[u8]) {
    if line.is_empty() {
        return said.say("an empty line can't stand in a check text");
    }
    if line.contains(&b'\t') {
        return said.say_both("a line has a tab", "write one space behind the mnemonic");
    }
    let word = mnemonic(line);
    let Some((operands, range)) = instruction(word).or(exit(word)) else {
        let shown = &word[..word.len().min(SHOWN)];
        said.say_name(
            str::from_utf8(shown).unwrap_or("?"),
            "is no instruction here",
        );
        return said.hint(hint_of_word(line, word));
    };
    if line.starts_with(b"lw $0,") || line.starts_with(b"lbu $0,") {
        return said.say("register 0 can't be loaded");
    }
    said.say("expected ");
    said.say(str::from_utf8(word).unwrap_or("?"));
    said.say(operands);
    if has_comment(line) {
        return said.hint(NO_COMMENTS);
    }
    say_hint_of_operands(said, line, operands, range);
}

/// Says what is wrong with a line `slot INSTRUCTION`.
fn say_slot(said: &mut Said, inst: &[u8]) {
    let word = mnemonic(inst);
    if matches!(word, b"out" | b"halt" | b"syscall") {
        return said.say("no call to the system can be in a slot");
    }
    let is_jump = exit(word).is_some()
        || matches!(word, b"j" | b"b" | b"jal" | b"jr" | b"beqz" | b"bnez");
    if is_jump {
        return said.say("no branch or jump can be in a slot");
    }
    say_instruction(said, inst)
}

/// Says what is wrong with a line between the head of a block or an order and its exit.
fn say_inside(said: &mut Said, line: &[u8], before: usize, most: usize, part: &str) {
    if before < most || instruction(mnemonic(line)).is_none() {
        return say_instruction(said, line);
    }
    said.message.put(&before.saturating_add(1));
    said.say(" instructions in ");
    said.say(part);
    said.say(": at most ");
    said.message.put(&most);
}

/// Returns what has to stand at a stage.
fn expected_line(stage: Stage) -> &'static str {
    match stage {
        Stage::Block => "expected the line 'block'",
        Stage::InBlock(_) | Stage::InOrder(_) => "expected an instruction or an exit",
        Stage::Order => "expected the line 'order'",
        Stage::Slot => "expected the line 'slot INSTRUCTION'",
        Stage::NoSlot | Stage::Nothing => "the text is at its end",
    }
}

/// Says what has to stand at a stage in place of a line.
fn say_expected(said: &mut Said, stage: Stage, line: &[u8]) {
    said.say(expected_line(stage));
    if has_comment(line) {
        said.hint(NO_COMMENTS);
    }
}

/// Says what is wrong with a line at its stage.
fn say_line(said: &mut Said, stage: Stage, line: &[u8]) {
    if line.ends_with(b"\r") {
        return said.say_both(
            "the line ends with a carriage return",
            "save the text with LF at the ends of its lines",
        );
    }
    if line.starts_with(b" ") || line.starts_with(b"\t") {
        return said.say_both("a line begins with a blank", "leave it out");
    }
    if line.contains(&b'\r') {
        return said.say_both(
            "a line has a carriage return",
            "end each line by a line feed alone",
        );
    }
    match stage {
        Stage::InBlock(before) => say_inside(said, line, before, BLOCK_INSTS, "a block"),
        Stage::InOrder(before) => say_inside(said, line, before, ORDER_INSTS, "an order"),
        Stage::Slot => match line.strip_prefix(b"slot ") {
            Some(inst) => say_slot(said, inst),
            None => say_expected(said, stage, line),
        },
        Stage::NoSlot if line.starts_with(b"slot") => said.say("out and halt have no slot"),
        Stage::NoSlot | Stage::Nothing => said.say("nothing can stand behind the order"),
        Stage::Block | Stage::Order => say_expected(said, stage, line),
    }
}

/// Returns what is said of the first line, counted from 1, that can't stand in its place.
pub fn explain_line(alloc: Global, text: &[u8], line: u32) -> Result<Explanation, AllocError>
    ensures { IfOk result IsPrintableExplanation }
{
    let (mut stage, mut rest) = (Stage::Block, text);
    for _ in 1..line {
        if !rest.is_empty() {
            let halves = first_line(rest);
            stage = stage_after(stage, halves.before);
            rest = halves.after;
        }
    }
    let mut said = Said::new(alloc);
    if rest.is_empty() {
        said.say(expected_line(stage));
        said.say(" at the text's end");
    } else {
        say_line(&mut said, stage, first_line(rest).before);
    }
    said.end(alloc)
}
