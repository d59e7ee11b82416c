//! Tail duplication: a block that goes to a short one ends with its code.

ghost use Rattle.std.specs.Prelude.{◌≡◌, ℕ, ◌<◌, ◌≤◌, false, [], ◌∷◌, ◌++◌, length, get_or, IfOk};
ghost use Rattle.rtl.specs.declared.tails.TheConstants.{TAIL_INSTS};
ghost use Rattle.rtl.specs.declared.instruction.RInst.TheVariants.{Const};
ghost use Rattle.rtl.specs.Meaning.{code_of};
ghost use Rattle.rtl.specs.Names.{is_in, inst_reads, inst_writes, goes_to, some_go_to};
ghost use Rattle.rtl.specs.Tails.{writes_first, spare_constant, operations, weight, is_short, again, tailed, AreTailed, is_reached, shortest, empty_code, AreKept, Marks, HasTails, HaveTails};

use crate::block::{RBlock, RFunc};
use crate::instruction::{BlockNumber, RExit, RInst, Register};
use std::alloc::{AllocError, Global};

/// The most instructions of a block that is copied.
pub const TAIL_INSTS: usize = 8;

/// The most of them that aren't constants.
pub const TAIL_OPERATIONS: usize = 4;

/// Reports whether an instruction reads a register.
fn reads(inst: RInst, d: Register) -> bool
    ensures { result ≡ is_in (inst_reads inst) d }
{
    match inst {
        RInst::Const(_, _) => false,
        RInst::Move(_, a) => d == a,
        RInst::Bin(_, _, a, b) => d == a || d == b,
        RInst::Load(_, _, i) => d == i,
        RInst::Store(_, i, a) => d == i || d == a,
    }
}

/// Reports whether it writes it.
fn writes(inst: RInst, d: Register) -> bool
    ensures { result ≡ is_in (inst_writes inst) d }
{
    match inst {
        RInst::Const(x, _) => d == x,
        RInst::Move(x, _) => d == x,
        RInst::Bin(_, x, _, _) => d == x,
        RInst::Load(x, _, _) => d == x,
        RInst::Store(_, _, _) => false,
    }
}

/// Reports whether instructions write a register before they read it.
fn writes_first(insts: &[RInst], d: Register) -> bool
    ensures { result ≡ writes_first insts.now d }
{
    for inst in insts {
        if reads(*inst, d) {
            return false;
        }
        if writes(*inst, d) {
            return true;
        }
    }
    false
}

/// Returns the first register that an instruction sets to a constant, and that all write before they read it.
fn spare_constant(insts: &[RInst]) -> Option<Register>
    ensures { result ≡ spare_constant insts.now }
{
    for inst in insts {
        if let RInst::Const(d, _) = inst
            && writes_first(insts, *d)
        {
            return Some(*d);
        }
    }
    None
}

/// Returns 0 for a constant, 1 for any other instruction.
fn weight(inst: RInst) -> usize
    ensures { result ≡ weight inst }
{
    match inst {
        RInst::Const(_, _) => 0,
        _ => 1,
    }
}

/// Returns how many instructions aren't constants.
fn operations(insts: &[RInst]) -> usize
    requires { length insts.now ≤ TAIL_INSTS }
    ensures { result ≡ operations insts.now }
{
    let mut count = 0;
    for inst in insts {
        count += weight(*inst);
    }
    count
}

/// Reports whether a block of these instructions is copied.
fn is_short(insts: &[RInst]) -> bool
    ensures { result ≡ is_short insts.now }
{
    if insts.len() > TAIL_INSTS {
        return false;
    }
    operations(insts) <= TAIL_OPERATIONS
}

/// Returns the exit once more, but for a call.
fn again(exit: &RExit) -> Option<RExit>
    ensures { result ≡ again exit.now }
{
    match exit {
        RExit::Goto(block) => Some(RExit::Goto(*block)),
        RExit::Branch(test, then, other) => Some(RExit::Branch(*test, *then, *other)),
        RExit::Call(_, _, _, _) => None,
        RExit::Return(from) => Some(RExit::Return(*from)),
        RExit::Out(from, next) => Some(RExit::Out(*from, *next)),
    }
}

/// Returns code with a copy of these instructions and this exit after it, by way of a constant for a register.
fn join(
    mut insts: Vec<RInst>,
    register: Register,
    tail: &[RInst],
    exit: RExit,
) -> Result<RBlock, AllocError>
    ensures { IfOk result (λ b. code_of b ≡ record { insts = insts.items ++ Const register 0 ∷ tail.now; exit = exit }) }
{
    insts.push(RInst::Const(register, 0))?;
    insts.extend_from_slice(tail)?;
    Ok(RBlock { insts, exit })
}

/// Returns a block with the code that it goes to, if that is one of these blocks and short.
fn with_tail(block: RBlock, before: &[RBlock]) -> Result<RBlock, AllocError>
    ensures { IfOk result (λ b. code_of b ≡ tailed before.now (code_of block)) }
{
    let RExit::Goto(number) = &block.exit else {
        return Ok(block);
    };
    let Some(tail) = before.get(*number as usize) else {
        return Ok(block);
    };
    if !is_short(tail.insts.as_slice()) {
        return Ok(block);
    }
    let Some(register) = spare_constant(tail.insts.as_slice()) else {
        return Ok(block);
    };
    let Some(exit) = again(&tail.exit) else {
        return Ok(block);
    };
    join(block.insts, register, tail.insts.as_slice(), exit)
}

/// Returns each block with its tail, from the last one on: those before it are as they were.
fn with_tails(alloc: Global, mut blocks: Vec<RBlock>) -> Result<Vec<RBlock>, AllocError>
    ensures { IfOk result (λ bs. AreTailed [] blocks.items bs.items) }
{
    let mut made = Vec::with_capacity(alloc, blocks.len())?;
    while let Some(block) = blocks.pop() {
        let next = with_tail(block, blocks.as_slice())?;
        made.push(next)?;
    }
    made.reverse();
    Ok(made)
}

/// Marks a block, if there is one.
fn mark(marks: &mut Vec<bool>, block: BlockNumber)
    ensures { Marks (block ∷ []) marks.old.items marks.new.items }
{
    if (block as usize) < marks.len() {
        marks[block as usize] = true;
    }
}

/// Marks the blocks that an exit goes to.
fn mark_exit(marks: &mut Vec<bool>, exit: &RExit)
    ensures { Marks (goes_to exit.now) marks.old.items marks.new.items }
{
    match exit {
        RExit::Goto(block) => mark(marks, *block),
        RExit::Branch(_, then, other) => {
            mark(marks, *then);
            mark(marks, *other);
        }
        RExit::Call(_, _, _, next) => mark(marks, *next),
        RExit::Return(_) => {}
        RExit::Out(_, next) => mark(marks, *next),
    }
}

/// Returns which blocks some exit goes to.
fn reached_blocks(alloc: Global, blocks: &[RBlock]) -> Result<Vec<bool>, AllocError>
    ensures { IfOk result (λ marks. (length marks.items ≡ length blocks.now)
        × ((x : ℕ) → x < length blocks.now → get_or marks.items x false ≡ some_go_to blocks.now x)) }
{
    let mut marks = vec![in alloc; false; blocks.len()]?;
    for block in blocks {
        mark_exit(&mut marks, &block.exit);
    }
    Ok(marks)
}

/// Returns the shortest exit that goes nowhere else.
fn shortest(exit: &RExit) -> RExit
    ensures { result ≡ shortest exit.now }
{
    match exit {
        RExit::Goto(block) => RExit::Goto(*block),
        RExit::Branch(_, then, _) => RExit::Goto(*then),
        RExit::Call(_, _, _, next) => RExit::Goto(*next),
        RExit::Return(_) => RExit::Return(None),
        RExit::Out(_, next) => RExit::Goto(*next),
    }
}

/// Makes a block empty, with the shortest exit that goes nowhere else.
fn clear(alloc: Global, block: &mut RBlock)
    ensures { code_of block.new ≡ empty_code block.old }
{
    block.insts = Vec::new(alloc);
    block.exit = shortest(&block.exit);
}

/// Returns the blocks, the entry and others that an exit goes to as they are, and the rest empty.
fn with_reached(alloc: Global, mut blocks: Vec<RBlock>) -> Result<Vec<RBlock>, AllocError>
    ensures { IfOk result (λ bs. AreKept (is_reached blocks.items) 0 blocks.items bs.items) }
{
    let marks = reached_blocks(alloc, blocks.as_slice())?;
    for number in (1..blocks.len()).rev() {
        if !marks[number] {
            clear(alloc, &mut blocks[number]);
        }
    }
    Ok(blocks)
}

/// Returns a function whose blocks have their tails, without those that nothing goes to then.
fn function_with_tails(alloc: Global, function: RFunc) -> Result<RFunc, AllocError>
    ensures { IfOk result (λ f. HasTails function f) }
{
    let RFunc { parameters, blocks } = function;
    let tailed = with_tails(alloc, blocks)?;
    let blocks = with_reached(alloc, tailed)?;
    Ok(RFunc { parameters, blocks })
}

/// Returns functions whose blocks have their tails; an Err means out of memory.
pub(crate) fn functions_with_tails(
    alloc: Global,
    mut functions: Vec<RFunc>,
) -> Result<Vec<RFunc>, AllocError>
    ensures { IfOk result (λ fs. HaveTails functions.items fs.items) }
{
    let mut made = Vec::with_capacity(alloc, functions.len())?;
    while let Some(function) = functions.pop() {
        let next = function_with_tails(alloc, function)?;
        made.push(next)?;
    }
    made.reverse();
    Ok(made)
}
