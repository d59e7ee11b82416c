//! A start that refutes an order, as lines.

use crate::loaded::loaded_words;
use counterexample::{Departs, Difference, Left, Start, Witness, find_start, run_block, run_order};
use mblock::{Block, Exit, Order};
use mips_isa::{NonzeroReg, Plain, WordDigits};
use std::alloc::{AllocError, Global};
use text::Writer;

/// Reports whether the exit reads the register.
fn exit_reads(exit: &Exit, register: NonzeroReg) -> bool {
    let q = register.index();
    match *exit {
        Exit::BranchPair { rs, rt, .. } => rs.index() == q || rt.index() == q,
        Exit::BranchZero { rs, .. } => rs.index() == q,
        Exit::Return => q == 31,
        Exit::Out(_) | Exit::Halt => q == 4,
        _ => false,
    }
}

/// Reports whether a run of instructions, an exit and its slot reads what the register holds at the start.
fn run_reads(insts: &[Plain], exit: &Exit, slot: Option<Plain>, register: NonzeroReg) -> bool {
    let first = insts
        .iter()
        .find(|inst| inst.action().touches(register.reg()));
    match first {
        Some(inst) => inst.reads(register.reg()),
        None => {
            exit_reads(exit, register) || matches!(slot, Some(inst) if inst.reads(register.reg()))
        }
    }
}

/// Writes the registers that are read, and the one in which the two differ, with their words at the start.
fn put_start(
    out: &mut Writer,
    block: &Block,
    order: &Order,
    start: &Start,
    difference: &Difference,
) {
    for r in 1..32u8 {
        if let Some(register) = NonzeroReg::new(r) {
            let is_read = run_reads(block.insts(), &block.exit(), None, register)
                || run_reads(order.insts(), &order.exit(), order.slot(), register);
            // one of the two may leave this one as it was
            let is_left = matches!(*difference, Difference::Register(d) if d == register.reg());
            if is_read || is_left {
                let word = WordDigits(start.regs[r as usize]);
                out.put(&format_args!("  {register} = 0x{word}\n"));
            }
        }
    }
}

/// Reports whether one of them moves HI or LO, before a product or a division writes both.
fn moves_before_product(insts: &[Plain]) -> bool {
    let first = insts.iter().find(|inst| inst.action().is_product() || inst.action().is_move());
    matches!(first, Some(inst) if !inst.action().is_product())
}

/// Writes a word behind a text.
fn put_word(out: &mut Writer, before: &str, word: u32) {
    out.text(before);
    out.put(&WordDigits(word));
}

/// Writes the word of memory at an address.
fn put_filled(out: &mut Writer, start: &Start, address: u32) {
    put_word(out, "  the word at 0x", address);
    put_word(out, " = 0x", start.filling.word(address / 4));
    out.text("\n");
}

/// Writes HI and LO and the words of memory, if they are read or if the two differ there.
fn put_rest(
    alloc: Global,
    out: &mut Writer,
    block: &Block,
    order: &Order,
    start: &Start,
    difference: &Difference,
) -> Result<(), AllocError> {
    // one of the two may leave these as they were
    let is_left = matches!(*difference, Difference::Hi | Difference::Lo);
    if is_left || moves_before_product(block.insts()) || moves_before_product(order.insts()) {
        put_word(out, "  hi = 0x", start.hi);
        put_word(out, "\n  lo = 0x", start.lo);
        out.text("\n");
    }
    let words = loaded_words(alloc, block, order, start)?;
    for address in &words {
        put_filled(out, start, *address);
    }
    if let Difference::Memory(byte) = *difference {
        let address = byte - byte % 4;
        if !words.contains(&address) {
            put_filled(out, start, address);
        }
    }
    Ok(())
}

/// Writes what one side leaves where the two differ.
fn put_side(out: &mut Writer, side: &str, left: &Left, difference: &Difference) {
    out.text(side);
    let now = &left.registers;
    match *difference {
        Difference::Register(r) => {
            out.put(&r);
            put_word(out, " = 0x", now.regs[r.index() as usize]);
        }
        Difference::Hi => put_word(out, "hi = 0x", now.hi),
        Difference::Lo => put_word(out, "lo = 0x", now.lo),
        Difference::Memory(a) => {
            put_word(out, "the byte at 0x", a);
            put_word(out, " = 0x", u32::from(now.memory.byte(a)));
        }
        Difference::Exit => match left.goes {
            Departs::To(t) => out.put(&format_args!("goes to {}", t.number())),
            Departs::Calls { function, .. } => {
                out.put(&format_args!("calls {}", function.number()));
            }
            Departs::Back(link) => put_word(out, "returns to 0x", link),
            Departs::Prints { word, .. } => put_word(out, "prints 0x", word),
            Departs::Halts(word) => put_word(out, "ends with 0x", word),
        },
        Difference::Stuck => out.text("isn't stuck"),
    }
    out.text("\n");
}

/// Writes a start from which the order does otherwise than the block, or that none was found.
pub fn put_found(
    alloc: Global,
    out: &mut Writer,
    block: &Block,
    order: &Order,
) -> Result<(), AllocError> {
    // (rattle 13f: the parts are named here, or it "was not told which modules hold the type": CONTRIBUTING.md)
    let Some(
        Witness {
            start,
            link,
            difference,
        },
    ) = find_start(alloc, block, order)?
    else {
        out.text("no start that was tried tells them apart: the terms may tell too little\n");
        return Ok(());
    };
    out.text("the order is wrong: it does otherwise from a start with\n");
    put_start(out, block, order, &start, &difference);
    put_rest(alloc, out, block, order, &start, &difference)?;
    if let Some(left) = run_block(alloc, block, &start, link)? {
        put_side(out, "  block: ", &left, &difference);
    }
    match run_order(alloc, order, &start, link)? {
        Some(left) => put_side(out, "  order: ", &left, &difference),
        None => out.text("  order: is stuck\n"),
    }
    Ok(())
}
