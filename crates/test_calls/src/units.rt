//! Units to images, and images run. The expected words are those that GNU as gives the same program (-mips1 -EB, code at 0x00400000). The
//! texts are objdump's, with registers by number.

use block_text::{exit_of, plain_of};
use image::{Counts, Image, read_image, write_image};
use mblock::{Block, BlockNumber, Unit, plain_orders};
use mips_asm::{assemble, image_of};
use mips_code::Ending;
use mips_machine::run;
use sched_phase::schedule_plain;
use std::alloc::Global;

/// A block as lines, the last of which is its exit.
type Lines<'a> = &'a [&'a str];

/// Returns the block of these lines; None of each of these where there is none, or memory is refused.
fn block(alloc: Global, lines: Lines<'_>) -> Option<Block> {
    let (exit, before) = lines.split_last()?;
    let mut insts = Vec::new(alloc);
    for line in before {
        insts.push(plain_of(line.as_bytes())?).ok()?;
    }
    Block::new(insts, exit_of(exit.as_bytes())?)
}

/// Returns the unit of these blocks, the numbers of their functions' first blocks, and bytes of data.
fn unit(alloc: Global, parts: &[Lines<'_>], owners: &[u32], data: &[u8]) -> Option<Unit> {
    let mut blocks = Vec::new(alloc);
    for lines in parts {
        blocks.push(block(alloc, lines)?).ok()?;
    }
    let mut owner = Vec::new(alloc);
    for &first in owners {
        owner.push(BlockNumber::new(first)?).ok()?;
    }
    Unit::new(blocks, owner, Vec::from_slice(alloc, data).ok()?)
}

/// A unit, and the words of head and code of its image: of version 1, or of version 2 with COUNTS.
struct Row {
    blocks: &'static [Lines<'static>],
    owners: &'static [u32],
    data: &'static [u8],
    is_counted: bool,
    head: &'static [u32],
    code: &'static [u32],
    /// How many words it runs, what it ends with and what it prints.
    steps: u64,
    end: u32,
    output: &'static [u32],
}

// Loads the second word of data, and calls, prints what register 4 then has, and ends with 3. What is called adds 1 to register 4 and,
// if that is above 0, doubles it.
const PROGRAM: &[Lines<'static>] = &[
    &["lui $8,4096", "lw $4,4($8)", "call 3,1"],
    &["out 2"],
    &["addiu $4,$0,3", "halt"],
    &["addiu $4,$4,1", "bgtz $4,4,5"],
    &["sll $4,$4,1", "return"],
    &["return"],
];

const OWNERS: &[u32] = &[0, 0, 0, 3, 3, 3];

#[rattlefmt::skip]
const WORDS: &[u32] = &[
    0x3c08_1000, 0x8d04_0004, 0, 0x0c10_000e, 0, 0x0810_0007, 0, 0x2402_0001, 0x0000_000c, 0x0810_000b, 0, 0x2404_0003, 0x2402_000a,
    0x0000_000c, 0x2484_0001, 0x1c80_0003, 0, 0x0810_0016, 0, 0x0004_2040, 0x03e0_0008, 0, 0x03e0_0008, 0,
];

#[rattlefmt::skip]
const COUNTS: Counts = Counts { same: 6, unclean: 5, differs: 4, full: 3, no_memory: 2, missed: 1 };

#[rattlefmt::skip]
const ROWS: &[Row] = &[
    Row {blocks: PROGRAM, owners: OWNERS, data: &[0, 0, 0, 7, 0, 0, 0, 20], is_counted: false,
        head: &[0x4d43_4349, 1, 24, 0x0040_0000, 2], code: WORDS, steps: 20, end: 3, output: &[42]},
    Row {blocks: PROGRAM, owners: OWNERS, data: &[0, 0, 0, 7, 0, 0, 0, 20, 9], is_counted: true,
        head: &[0x4d43_4349, 2, 24, 0x0040_0000, 9, 6, 5, 4, 3, 2, 1], code: WORDS, steps: 20, end: 3, output: &[42]},
    // Adds 1 to a byte of data, writes it before another, and ends with the word that it then stands in. A loaded byte is waited
    // for as a loaded word is.
    Row {blocks: &[&["lui $8,4096", "lbu $4,5($8)", "addiu $4,$4,1", "sb $4,2($8)", "lw $4,0($8)", "halt"]], owners: &[0],
        data: &[1, 2, 3, 4, 5, 255, 7, 8], is_counted: false, head: &[0x4d43_4349, 1, 9, 0x0040_0000, 2],
        code: &[0x3c08_1000, 0x9104_0005, 0, 0x2484_0001, 0xa104_0002, 0x8d04_0000, 0, 0x2402_000a, 0x0000_000c], steps: 9,
        end: 0x0102_0004, output: &[]},
    Row {blocks: &[&["addiu $4,$0,7", "halt"]], owners: &[0], data: &[], is_counted: true,
        head: &[0x4d43_4349, 2, 3, 0x0040_0000, 0, 6, 5, 4, 3, 2, 1], code: &[0x2404_0007, 0x2402_000a, 0x0000_000c], steps: 3, end: 7,
        output: &[]},
];

/// Returns the bytes of words, as an image has them, and more bytes.
fn bytes_of(alloc: Global, words: &[&[u32]], more: &[u8]) -> Option<Vec<u8>> {
    let mut bytes = Vec::new(alloc);
    for part in words {
        for word in *part {
            bytes.extend_from_slice(&word.to_be_bytes()).ok()?;
        }
    }
    bytes.extend_from_slice(more).ok()?;
    Some(bytes)
}

/// Reports whether the image comes to this end and this output by so many words.
fn comes_to(alloc: Global, image: &Image, words: u64, end: Ending, output: &[u32]) -> bool {
    match run(alloc, image, words) {
        Ok(ran) => ran.end == end && ran.output.as_slice() == output,
        Err(_) => false,
    }
}

/// Reports whether the image is written as the row says and read back, and what is read ends and prints as it should, not before.
fn is_image(alloc: Global, image: &Image, row: &Row) -> Option<bool> {
    let bytes = bytes_of(alloc, &[row.head, row.code], row.data)?;
    let written = write_image(alloc, image).ok()?;
    let again = read_image(alloc, written.as_slice()).ok()?;
    let ends = comes_to(alloc, &again, row.steps, Ending::Halt(row.end), row.output);
    let before = row.steps.saturating_sub(1);
    let goes_on = comes_to(alloc, &again, before, Ending::More, row.output);
    Some(written.as_slice() == bytes.as_slice() && ends && goes_on)
}

/// Returns the image of a unit in plain orders; None if it has none of this version.
fn plain_image(alloc: Global, unit: &Unit, is_counted: bool) -> Option<Image> {
    if !is_counted && unit.globals().len() % 4 != 0 {
        return None;
    }
    let Ok(orders) = plain_orders(alloc, unit) else {
        return None;
    };
    let counts = if is_counted { Some(COUNTS) } else { None };
    image_of(alloc, unit, orders.as_slice(), counts).ok()
}

/// Reports whether the row's unit becomes its image in plain orders, and has the same code where it is scheduled.
fn becomes(alloc: Global, row: &Row) -> Option<bool> {
    let unit = unit(alloc, row.blocks, row.owners, row.data)?;
    let image = plain_image(alloc, &unit, row.is_counted)?;
    let scheduled = assemble(alloc, &schedule_plain(alloc, &unit).ok()?).ok()?;
    Some(is_image(alloc, &image, row)? && scheduled.code() == row.code)
}

#[test]
fn units_become_images(rt: HostRuntime) {
    for (k, row) in ROWS.iter().enumerate() {
        assert!(rt; becomes(rt.alloc(), row) == Some(true), "row {k}");
    }
}
