//! The homes of pseudo-registers.

use crate::homes::Ends::{Branch, Call, Goto, Out, Return};
use crate::homes::Want::{Reg, Slot};
use mips_homes::{Home, Homed, each_choice_never_forgets, each_homed_run_is_the_run, homes, place};
use rtl::RInst::{Bin, Const, Move};
use rtl::{Op, RBlock, RExit, RFunc, RInst, Rtl};
use std::alloc::Global;

/// How a block is left: an exit whose arguments are a constant's.
#[derive(Clone, Copy)]
enum Ends {
    Goto(u32),
    Branch(u32, u32, u32),
    Call(u32, &'static [u32], Option<u32>, u32),
    Return(Option<u32>),
    Out(u32, u32),
}

/// A function's number of parameters, and the instructions of its blocks, with how each is left.
type Function = (u32, &'static [(&'static [RInst], Ends)]);

/// A home as it is wanted: a register by its number, or a slot without a copy.
#[derive(Clone, Copy)]
enum Want {
    Reg(u8),
    Slot(u32),
}

/// A function, and the homes, the saved registers and the slots of its frame.
type Row = (Function, &'static [Want], &'static [u8], u32);

fn exit(alloc: Global, ends: Ends) -> Option<RExit> {
    Some(match ends {
        Goto(next) => RExit::Goto(next),
        Branch(test, then, other) => RExit::Branch(test, then, other),
        Call(function, arguments, to, next) => {
            RExit::Call(function, Vec::from_slice(alloc, arguments).ok()?, to, next)
        }
        Return(from) => RExit::Return(from),
        Out(from, next) => RExit::Out(from, next),
    })
}

/// Returns the function of these parts; None of each of these if memory runs out.
fn function(alloc: Global, (parameters, parts): Function) -> Option<RFunc> {
    let mut blocks = Vec::new(alloc);
    for &(insts, ends) in parts {
        let insts = Vec::from_slice(alloc, insts).ok()?;
        let exit = exit(alloc, ends)?;
        blocks.push(RBlock { insts, exit }).ok()?;
    }
    Some(RFunc { parameters, blocks })
}

const NOTHING: Function = (0, &[(&[], Return(None))]);

/// Returns a program of a main function that does nothing, and of this one, which may be called.
fn program(alloc: Global, parts: Function) -> Option<Rtl> {
    let mut functions = Vec::new(alloc);
    functions.push(function(alloc, NOTHING)?).ok()?;
    functions.push(function(alloc, parts)?).ok()?;
    Rtl::new(functions, Vec::new(alloc), 0)
}

fn is_wanted(home: &Home, want: &Want) -> bool {
    match (home, want) {
        (Home::Reg(r), Reg(number)) => r.index() == *number,
        (Home::Slot(slot), Slot(k)) => slot == k,
        _ => false,
    }
}

fn are_homes(homes: &[Home], wants: &[Want]) -> bool {
    homes.len() == wants.len()
        && homes
            .iter()
            .zip(wants)
            .all(|(home, want)| is_wanted(home, want))
}

/// Reports whether the second function has the row's frame.
fn has_frame(homed: &Homed<'_>, (_, wants, saved, slots): Row) -> Option<bool> {
    let frame = homed.frames.get(1)?;
    let is_frame = frame.saved.as_slice() == saved && frame.slots == slots;
    Some(is_frame && are_homes(frame.homes.as_slice(), wants))
}

// Homes by mentions.
#[rattlefmt::skip]
const CHOSEN: &[Row] = &[
    // -1 + 1, which is printed, and 1 is returned: 0 is mentioned twice, 1 three times, 2 twice. More mentions come first, and then lower
    // numbers.
    ((0, &[(&[Const(0, 4_294_967_295), Const(1, 1), Bin(Op::Add, 2, 0, 1)], Out(2, 1)), (&[], Return(Some(1)))]),
        &[Reg(17), Reg(16), Reg(18)], &[16, 17, 18], 0),
    // 0 is a parameter that isn't mentioned, 9 is mentioned three times, 1 to 8 once: all but eight live in slots
    ((1, &[(&[Bin(Op::Add, 9, 9, 9), Bin(Op::Sub, 1, 2, 3), Bin(Op::Sub, 4, 5, 6), Move(7, 8)], Return(None))]),
        &[Slot(0), Reg(17), Reg(18), Reg(19), Reg(20), Reg(21), Reg(22), Reg(23), Slot(1), Reg(16)], &[16, 17, 18, 19, 20, 21, 22, 23], 2),
    // 3 is mentioned twice, 2 once, and 0 and 1 are below the greatest: exits mention registers too
    ((2, &[(&[], Call(1, &[3, 3], Some(2), 0))]), &[Reg(18), Reg(19), Reg(17), Reg(16)], &[16, 17, 18, 19], 0),
];

// The same with local pseudo-registers in passing ones.
#[rattlefmt::skip]
const PLACED: &[Row] = &[
    // 0 and 3 are read first in block 1.
    ((1, &[(&[Const(1, 5), Bin(Op::Add, 3, 0, 1)], Goto(1)),
                (&[Const(2, 1), Bin(Op::Sub, 3, 3, 2), Bin(Op::Sub, 4, 3, 0)], Branch(4, 1, 2)), (&[], Return(Some(3)))]),
        &[Reg(17), Reg(8), Reg(9), Reg(16), Reg(10)], &[16, 17], 0),
    // A parameter that block 0 alone reads: it is local only where no exit goes back to that block.
    ((1, &[(&[Const(1, 1), Bin(Op::Sub, 2, 0, 1)], Branch(2, 0, 1)), (&[], Return(None))]), &[Reg(18), Reg(8), Reg(9)], &[18], 0),
    ((1, &[(&[Const(1, 1), Bin(Op::Sub, 2, 0, 1)], Branch(2, 1, 1)), (&[], Return(None))]), &[Reg(4), Reg(8), Reg(9)], &[], 0),
    // Neither a call's result nor what is set before it is local.
    ((1, &[(&[Move(2, 0)], Call(0, &[], Some(1), 1)), (&[Bin(Op::Add, 1, 1, 2)], Return(Some(1)))]), &[Reg(4), Reg(16), Reg(17)], &[16, 17],
        0),
    // Parameters that are passed on in another order. Parameter 1 may stay where it comes, since what is moved before it is no later
    // argument. Parameter 0 would be overwritten by 1.
    ((2, &[(&[], Call(1, &[1, 0], None, 1)), (&[], Return(None))]), &[Reg(8), Reg(5)], &[], 0),
    // Two words that are computed for a call, where the parameters have the registers; the result is printed at once.
    ((2, &[(&[Bin(Op::Add, 2, 0, 1), Bin(Op::Sub, 3, 0, 1)], Call(1, &[2, 3], Some(4), 1)), (&[], Out(4, 2)), (&[], Return(None))]),
        &[Reg(4), Reg(5), Reg(8), Reg(9), Reg(20)], &[20], 0),
    // One word for both arguments has the register of the second. Parameter 1 isn't local.
    ((2, &[(&[Const(2, 3)], Call(1, &[2, 2], None, 1)), (&[], Return(Some(1)))]), &[Reg(4), Reg(17), Reg(5)], &[17], 0),
    // What is printed is in register 4, the first of them.
    ((0, &[(&[Const(0, 5), Bin(Op::Add, 1, 0, 0)], Out(1, 1)), (&[Const(0, 7)], Out(0, 2)), (&[], Return(None))]), &[Reg(4), Reg(8)], &[],
        0),
    // The thirteenth local one without a hint keeps its home.
    ((0, &[(&[Const(0, 0), Const(1, 1), Const(2, 2), Const(3, 3), Const(4, 4), Const(5, 5), Const(6, 6), Const(7, 7), Const(8, 8),
                        Const(9, 9), Const(10, 10), Const(11, 11), Const(12, 12)], Return(None))]),
        &[Reg(8), Reg(9), Reg(10), Reg(11), Reg(12), Reg(13), Reg(14), Reg(15), Reg(24), Reg(25), Reg(26), Reg(27), Slot(4)], &[], 5),
];

/// Reports whether the row's function has its frame, where what is local to blocks may be placed.
fn is_homed(alloc: Global, row: Row, is_placed: bool) -> Option<bool> {
    let program = program(alloc, row.0)?;
    if is_placed {
        has_frame(&place(alloc, &program).ok()?, row)
    } else {
        has_frame(&homes(alloc, &program).ok()?, row)
    }
}

#[test]
fn frames_are_worked(rt: HostRuntime) {
    for &row in CHOSEN {
        assert!(rt; is_homed(rt.alloc(), row, false) == Some(true));
    }
    for &row in PLACED {
        assert!(rt; is_homed(rt.alloc(), row, true) == Some(true));
    }
    each_homed_run_is_the_run();
    each_choice_never_forgets();
}
