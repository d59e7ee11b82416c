//! A program of RTL under way: activations, globals and output.
ghost use Rattle.std.specs.Prelude.{◌≡◌, ℕ, List, IfOk, Some, None, map, Option, slice_get};
ghost use Rattle.std.specs.Option.{option_map};
ghost use Rattle.rtl.specs.declared.instruction.RInst.TheVariants.{Store};
ghost use Rattle.rtl.specs.Meaning.{rtl_step, code_of, words_in};
ghost use Rattle.runs.specs.Kept.{places, arrays};
ghost use Rattle.runs.specs.Calls.{state_by};
ghost use Rattle.rtl.specs.Interpreter.{result_at, load_at, frame_of, frame_at, Comes, after_put, after_inst, after_jump};
ghost use Rattle.rtl.specs.Interpreter.{after_call, after_call_from, after_return, after_exit};

use crate::block::{RBlock, RGlobal};
use crate::instruction::{BlockNumber, FunctionNumber, GlobalNumber, RExit, RInst, Register};
use crate::operator::Op;
use crate::program::Rtl;
use crate::stores::{constant, kept_by, register};
use runs::{Reached, element, set_word, store};
use std::alloc::{AllocError, Global};

/// An activation that runs or waits: the blocks of its function, its registers and what is left of its block. Its result may go to a
/// register of its caller's.
#[derive(Drop)]
pub struct Frame<'a> {
    pub blocks: &'a [RBlock],
    pub registers: Vec<Option<u32>>,
    pub insts: &'a [RInst],
    pub exit: &'a RExit,
    pub result_to: Option<Register>,
}

/// A program of RTL under way.
pub type Interpreter<'a> = runs::Interpreter<Frame<'a>>;

/// Returns the result of an operator at two registers.
fn result_of(registers: &[Option<u32>], op: Op, left: Register, right: Register) -> Option<u32>
    ensures { result ≡ result_at op (places registers.now) left right }
{
    let x = register(registers, left)?;
    let y = register(registers, right)?;
    op.result(x, y)
}

/// Returns the element of a global whose index a register has.
fn element_of(
    registers: &[Option<u32>],
    globals: &[Vec<u32>],
    global: GlobalNumber,
    index: Register,
) -> Option<u32>
    ensures { result ≡ load_at (places registers.now) (arrays globals.now) global index }
{
    let index = register(registers, index)?;
    element(globals, global as usize, index as usize)
}

/// Puts a value, if there is one, into a register.
fn put(
    interpreter: &mut Interpreter,
    to: Register,
    value: Option<u32>,
) -> Result<Reached, AllocError>
    ensures { IfOk result (λ r. Comes (after_put to value interpreter.old) r interpreter.new) }
{
    let Some(v) = value else {
        return Ok(Reached::Failed);
    };
    set_word(&mut interpreter.frame.registers, to as usize, v)?;
    Ok(Reached::Going)
}

/// Runs `Store(global, index, from)`.
fn store_at(
    globals: &[RGlobal],
    interpreter: &mut Interpreter,
    global: GlobalNumber,
    index: Register,
    from: Register,
) -> Reached
    ensures { Comes (after_inst globals.now (Store global index from) interpreter.old) result interpreter.new }
{
    let Some(index) = register(&interpreter.frame.registers, index) else {
        return Reached::Failed;
    };
    let Some(v) = register(&interpreter.frame.registers, from) else {
        return Reached::Failed;
    };
    let Some(v) = kept_by(globals, global, v) else {
        return Reached::Failed;
    };
    if store(&mut interpreter.globals, global as usize, index as usize, v) {
        Reached::Going
    } else {
        Reached::Failed
    }
}

/// Performs one instruction.
fn perform(
    globals: &[RGlobal],
    interpreter: &mut Interpreter,
    inst: RInst,
) -> Result<Reached, AllocError>
    ensures { IfOk result (λ r. Comes (after_inst globals.now inst interpreter.old) r interpreter.new) }
{
    match inst {
        RInst::Const(to, word) => put(interpreter, to, Some(constant(word))),
        RInst::Move(to, from) => {
            let v = register(&interpreter.frame.registers, from);
            put(interpreter, to, v)
        }
        RInst::Bin(op, to, left, right) => {
            let v = result_of(&interpreter.frame.registers, op, left, right);
            put(interpreter, to, v)
        }
        RInst::Load(to, global, index) => {
            let v = element_of(
                &interpreter.frame.registers,
                &interpreter.globals,
                global,
                index,
            );
            put(interpreter, to, v)
        }
        RInst::Store(global, index, from) => {
            Ok(store_at(globals, interpreter, global, index, from))
        }
    }
}

/// Returns the block of a number.
fn block_at(blocks: &[RBlock], number: BlockNumber) -> Option<&RBlock>
    ensures { option_map (λ b. b.now) result ≡ slice_get blocks.now number }
{
    blocks.get(number as usize)
}

/// Goes on at the start of a block.
fn go_to<'a>(frame: &mut Frame<'a>, block: &'a RBlock)
    ensures { frame_of frame.new ≡ frame_at block.now frame.old }
{
    frame.insts = block.insts.as_slice();
    frame.exit = &block.exit;
}

/// Goes on at a block of the same function.
fn jump(interpreter: &mut Interpreter, number: BlockNumber) -> Reached
    ensures { Comes (after_jump number interpreter.old) result interpreter.new }
{
    let Some(block) = block_at(interpreter.frame.blocks, number) else {
        return Reached::Failed;
    };
    go_to(&mut interpreter.frame, block);
    Reached::Going
}

/// Returns the words of the arguments, each a register that is set; None if one isn't.
fn arguments(
    alloc: Global,
    registers: &[Option<u32>],
    all: &[Register],
) -> Result<Option<Vec<Option<u32>>>, AllocError>
    ensures { let wanted = words_in (places registers.now) all.now in
        IfOk result (λ r. option_map (λ v. v.items) r ≡ option_map (map Some) wanted) }
{
    let mut values = Vec::with_capacity(alloc, all.len())?;
    for x in all {
        let Some(v) = register(registers, *x) else {
            return Ok(None);
        };
        values.push(Some(v))?;
    }
    Ok(Some(values))
}

/// Returns an activation of the function of these blocks, at the start of one of them.
fn first_frame<'a>(
    blocks: &'a [RBlock],
    entry: &'a RBlock,
    registers: Vec<Option<u32>>,
    result_to: Option<Register>,
) -> Frame<'a>
    ensures { frame_of result
        ≡ record { blocks = blocks.now; registers = places registers.items; code = code_of entry.now; result_to = result_to } }
{
    Frame {
        blocks,
        registers,
        insts: entry.insts.as_slice(),
        exit: &entry.exit,
        result_to,
    }
}

// A function that is called: its number, the registers of its arguments, and where its result goes, if anywhere.
#[derive(Clone, Copy)]
struct Callee<'a> {
    function: FunctionNumber,
    arguments: &'a [Register],
    result_to: Option<Register>,
}

/// Calls a function with these words.
fn enter<'a>(
    program: &'a Rtl,
    depth: u32,
    interpreter: &mut Interpreter<'a>,
    callee: Callee,
    registers: Vec<Option<u32>>,
) -> Result<Reached, AllocError>
    ensures { IfOk result (λ r. (vs : List ℕ) → registers.items ≡ map Some vs
        → Comes (after_call program.now depth callee.entry vs interpreter.old) r interpreter.new) }
{
    let Some(function) = program.functions().get(callee.function as usize) else {
        return Ok(Reached::Failed);
    };
    if !interpreter.has_room(depth) {
        return Ok(Reached::Failed);
    }
    if registers.len() != function.parameters as usize {
        return Ok(Reached::Failed);
    }
    let blocks = function.blocks.as_slice();
    let Some(entry) = block_at(blocks, 0) else {
        return Ok(Reached::Failed);
    };
    let frame = first_frame(blocks, entry, registers, callee.result_to);
    interpreter.enter(frame)?;
    Ok(Reached::Going)
}

/// Calls a function, whose caller goes on at a block.
fn call<'a>(
    alloc: Global,
    program: &'a Rtl,
    depth: u32,
    interpreter: &mut Interpreter<'a>,
    callee: Callee,
    next: BlockNumber,
) -> Result<Reached, AllocError>
    ensures { IfOk result (λ r. Comes (after_call_from program.now depth callee.entry next interpreter.old) r interpreter.new) }
{
    let Some(next) = block_at(interpreter.frame.blocks, next) else {
        return Ok(Reached::Failed);
    };
    let registers = &interpreter.frame.registers;
    let Some(values) = arguments(alloc, registers, callee.arguments)? else {
        return Ok(Reached::Failed);
    };
    go_to(&mut interpreter.frame, next);
    enter(program, depth, interpreter, callee, values)
}

/// Returns from an activation, with a word or without.
fn return_word(
    interpreter: &mut Interpreter,
    result_word: Option<u32>,
) -> Result<Reached, AllocError>
    ensures { IfOk result (λ r. Comes (after_return result_word interpreter.old) r interpreter.new) }
{
    let Some(done) = interpreter.leave() else {
        return Ok(Reached::of_last(result_word));
    };
    match done.result_to {
        Some(to) => put(interpreter, to, result_word),
        None => Ok(Reached::Going),
    }
}

/// Leaves a block.
fn leave<'a>(
    alloc: Global,
    program: &'a Rtl,
    depth: u32,
    interpreter: &mut Interpreter<'a>,
    exit: &'a RExit,
) -> Result<Reached, AllocError>
    ensures { IfOk result (λ r. Comes (after_exit program.now depth exit.now interpreter.old) r interpreter.new) }
{
    match exit {
        RExit::Goto(number) => Ok(jump(interpreter, *number)),
        RExit::Branch(test, then, other) => {
            let Some(v) = register(&interpreter.frame.registers, *test) else {
                return Ok(Reached::Failed);
            };
            Ok(jump(interpreter, if v == 0 { *other } else { *then }))
        }
        RExit::Call(function, all, to, next) => {
            let callee = Callee {
                function: *function,
                arguments: all.as_slice(),
                result_to: *to,
            };
            call(alloc, program, depth, interpreter, callee, *next)
        }
        RExit::Return(None) => return_word(interpreter, None),
        RExit::Return(Some(from)) => {
            let Some(v) = register(&interpreter.frame.registers, *from) else {
                return Ok(Reached::Failed);
            };
            return_word(interpreter, Some(v))
        }
        RExit::Out(from, next) => {
            let Some(v) = register(&interpreter.frame.registers, *from) else {
                return Ok(Reached::Failed);
            };
            interpreter.output.push(v)?;
            Ok(jump(interpreter, *next))
        }
    }
}

/// Takes one step of the program.
pub(crate) fn step<'a>(
    alloc: Global,
    program: &'a Rtl,
    depth: u32,
    interpreter: &mut Interpreter<'a>,
) -> Result<Reached, AllocError>
    ensures { IfOk result (λ r. Comes (rtl_step program.now depth (state_by frame_of interpreter.old)) r interpreter.new) }
{
    let Some((inst, rest)) = interpreter.frame.insts.split_first() else {
        let exit = interpreter.frame.exit;
        return leave(alloc, program, depth, interpreter, exit);
    };
    interpreter.frame.insts = rest;
    perform(program.globals(), interpreter, *inst)
}
