//! What a block or an order leaves, place by place.

use crate::term::{pair_sign, root_page, zero_sign};
use crate::terms::{Code, Left, Root, left_of};
use block_validator::Place;
use mblock::Block;
use mips_isa::{Mnemonic, NonzeroReg};
use std::alloc::{AllocError, Global};
use sym_exec::{Guard, TermExit};
use sym_terms::{Label, Origin};
use text::{Page, Writer};
use words::Width;

/// The places besides registers.
#[rattlefmt::skip]
const OTHERS: [Place; 5] = [Place::Hi, Place::Lo, Place::Memory, Place::Exit, Place::Guards];

/// Writes the exit by the terms that it reads and its targets.
fn put_exit(out: &mut Writer, exit: TermExit, first: &Page, second: &Page) {
    match exit {
        TermExit::Goto(target) => out.put(&format_args!("goto {}", target.number())),
        TermExit::BranchPair {
            test,
            then,
            other,
            ..
        } => {
            out.page(first);
            out.text(pair_sign(test));
            out.page(second);
            out.put(&format_args!(" ? {} : {}", then.number(), other.number()));
        }
        TermExit::BranchZero {
            test,
            then,
            other,
            ..
        } => {
            out.page(first);
            out.text(zero_sign(test));
            out.put(&format_args!(" ? {} : {}", then.number(), other.number()));
        }
        TermExit::Call { function, next } => {
            out.put(&format_args!("call {}, then {}", function.number(), next.number()));
        }
        TermExit::Return(_) => {
            out.text("return to ");
            out.page(first);
        }
        TermExit::Out { next, .. } => {
            out.text("out ");
            out.page(first);
            out.put(&format_args!(", then {}", next.number()));
        }
        TermExit::Halt(_) => {
            out.text("halt with ");
            out.page(first);
        }
    }
}

/// Returns the guard of a number by the terms that it reads.
fn guard_page(
    alloc: Global,
    left: &mut Left,
    number: usize,
    depth: u32,
) -> Result<Page, AllocError> {
    let first = root_page(alloc, left, Root::Guard(number, true), depth)?;
    let second = root_page(alloc, left, Root::Guard(number, false), depth)?;
    let mut out = Writer::new(alloc);
    if let Some(guard) = left.guards().get(number) {
        match *guard {
            Guard::Address { width, .. } => {
                out.text(match width {
                    Width::Word => "word at ",
                    Width::Byte => "byte at ",
                });
                out.page(&first);
            }
            Guard::Division { sign, .. } => {
                out.put(&format_args!("{} ", Mnemonic::Divide(sign).name()));
                out.page(&first);
                out.text(" by ");
                out.page(&second);
            }
        }
    }
    out.end()
}

/// Returns all guards one after another, each of them once.
fn guards_page(alloc: Global, left: &mut Left, depth: u32) -> Result<Page, AllocError> {
    let mut pages: Vec<Page> = Vec::new(alloc);
    let mut out = Writer::new(alloc);
    for number in 0..left.guards().len() {
        let page = guard_page(alloc, left, number, depth)?;
        if !pages.iter().any(|other| other.bytes() == page.bytes()) {
            out.text(if pages.is_empty() { "" } else { "; " });
            out.page(&page);
            pages.push(page)?;
        }
    }
    if pages.is_empty() {
        out.text("none");
    }
    out.end()
}

/// Returns the term of a place, and what is there at the start; None for exit and guards.
fn root_of(place: Place) -> Option<(Root, Label)> {
    match place {
        Place::Register(r) => Some((Root::Register(r), Label::Init(Origin::Register(r)))),
        Place::Hi => Some((Root::Hi, Label::Init(Origin::Hi))),
        Place::Lo => Some((Root::Lo, Label::Init(Origin::Lo))),
        Place::Memory => Some((Root::Memory, Label::Mem0)),
        Place::Exit | Place::Guards => None,
    }
}

/// Returns what is left in a place, as its term is written, cut at a depth.
pub(crate) fn place_page(
    alloc: Global,
    left: &mut Left,
    place: Place,
    depth: u32,
) -> Result<Page, AllocError> {
    match place {
        Place::Exit => {
            let first = root_page(alloc, left, Root::Exit(true), depth)?;
            let second = root_page(alloc, left, Root::Exit(false), depth)?;
            let mut out = Writer::new(alloc);
            put_exit(&mut out, left.exit(), &first, &second);
            out.end()
        }
        Place::Guards => guards_page(alloc, left, depth),
        _ => match root_of(place) {
            Some((root, _)) => root_page(alloc, left, root, depth),
            None => Ok(Page::empty(alloc)),
        },
    }
}

/// Writes the name of a place.
pub fn put_place(out: &mut Writer, place: Place) {
    match place {
        Place::Register(r) => out.put(&r),
        Place::Hi => out.text("hi"),
        Place::Lo => out.text("lo"),
        Place::Memory => out.text("mem"),
        Place::Exit => out.text("exit"),
        Place::Guards => out.text("guards"),
    }
}

/// Writes a line for a place, unless it keeps what was there at the start.
fn put_line(
    alloc: Global,
    out: &mut Writer,
    left: &mut Left,
    place: Place,
    depth: u32,
) -> Result<(), AllocError> {
    if let Some((root, before)) = root_of(place) {
        left.start(root)?;
        let is_kept = match left.next()? {
            Some((found, _)) => found == before,
            None => true,
        };
        if is_kept {
            return Ok(());
        }
    }
    out.text("    ");
    put_place(out, place);
    out.text(match place {
        Place::Exit | Place::Guards => ": ",
        _ => " = ",
    });
    out.page(&place_page(alloc, left, place, depth)?);
    out.text("\n");
    Ok(())
}

/// Writes what a block leaves: a line for each register, HI, LO and memory that changes, its term cut at a depth. The exit has one line,
/// and so have the guards. Where the table has no room, one line says so.
pub fn put_left(
    alloc: Global,
    out: &mut Writer,
    block: &Block,
    depth: u32,
) -> Result<(), AllocError> {
    let Some(mut left) = left_of(alloc, Code::Block(block))? else {
        out.text("    full\n");
        return Ok(());
    };
    for r in 1..32u8 {
        if let Some(register) = NonzeroReg::new(r) {
            put_line(alloc, out, &mut left, Place::Register(register), depth)?;
        }
    }
    for place in OTHERS {
        put_line(alloc, out, &mut left, place, depth)?;
    }
    Ok(())
}
