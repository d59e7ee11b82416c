//! Programs of RTL, and which parts make one.
ghost use Rattle.std.specs.Prelude.{◌≡◌, ◌<◌, ◌≤◌, ◌↔◌, IsTrue, IfOk, All, length, sum_by};
ghost use Rattle.std.specs.Option.{SomeIff};
ghost use Rattle.rtl.specs.Programs.{IsRegister, IsMaybeRegister, IsInst, IsCallee, IsExit, IsBlock, IsFunction, IsGlobal, IsProgram};
ghost use Rattle.rtl.specs.Programs.{program_of};
ghost use Rattle.rtl.specs.Tails.{IsTailed, RunsAlike};
ghost use Rattle.rtl.specs.Programs.{block_count, word_count};

use crate::block::{RBlock, RFunc, RGlobal};
use crate::instruction::{FunctionNumber, RExit, RInst, Register};
use crate::limits::{MAX_BLOCKS, MAX_GLOBAL_WORDS, MAX_PARAMETERS, MAX_REGISTERS};
use crate::tails::functions_with_tails;
use std::alloc::{AllocError, Global};
use std::marker::Model;

/// A program: functions, globals, and the number of the function that is run. What they name is there, and the sizes are
/// within the limits (`specs/Programs.antt`).
#[derive(Drop)]
pub struct Rtl {
    functions: Vec<RFunc>,
    globals: Vec<RGlobal>,
    main: FunctionNumber,
}

impl Model for Rtl {
    ghost use Rattle.rtl.specs.Programs.{Program, IsProgram, program_of};

    ghost Value = { Program };

    ghost view = { λ p. program_of p.functions.items p.globals.items p.main };

    ghost invariant = { λ p. IsProgram (program_of p.functions.items p.globals.items p.main) };
}

fn is_register(x: Register) -> bool
    ensures { IsTrue result ↔ IsRegister x }
{
    x < MAX_REGISTERS
}

fn is_maybe_register(x: Option<Register>) -> bool
    ensures { IsTrue result ↔ IsMaybeRegister x }
{
    match x {
        Some(x) => is_register(x),
        None => true,
    }
}

/// Reports whether an instruction names what is there, with so many globals.
fn is_inst(globals: usize, inst: RInst) -> bool
    ensures { IsTrue result ↔ IsInst globals inst }
{
    match inst {
        RInst::Const(to, _) => is_register(to),
        RInst::Move(to, from) => is_register(to) && is_register(from),
        RInst::Bin(_, to, left, right) => {
            is_register(to) && is_register(left) && is_register(right)
        }
        RInst::Load(to, global, index) => {
            is_register(to) && (global as usize) < globals && is_register(index)
        }
        RInst::Store(global, index, from) => {
            (global as usize) < globals && is_register(index) && is_register(from)
        }
    }
}

/// Reports whether a function is there and takes so many arguments.
fn is_callee(functions: &[RFunc], function: FunctionNumber, count: usize) -> bool
    ensures { IsTrue result ↔ IsCallee functions.now function count }
{
    match functions.get(function as usize) {
        Some(callee) => callee.parameters as usize == count,
        None => false,
    }
}

/// Reports whether an exit names what is there, in a function with so many blocks.
fn is_exit(functions: &[RFunc], blocks: usize, exit: &RExit) -> bool
    ensures { IsTrue result ↔ IsExit functions.now blocks exit.now }
{
    match exit {
        RExit::Goto(block) => (*block as usize) < blocks,
        RExit::Branch(test, then, other) => {
            is_register(*test) && (*then as usize) < blocks && (*other as usize) < blocks
        }
        RExit::Call(function, arguments, to, next) => {
            is_callee(functions, *function, arguments.len())
                && arguments.iter().all(|&x| x < MAX_REGISTERS)
                && is_maybe_register(*to)
                && (*next as usize) < blocks
        }
        RExit::Return(from) => is_maybe_register(*from),
        RExit::Out(from, next) => is_register(*from) && (*next as usize) < blocks,
    }
}

fn is_block(functions: &[RFunc], globals: usize, blocks: usize, block: &RBlock) -> bool
    ensures { IsTrue result ↔ IsBlock functions.now globals blocks block.now }
{
    block.insts.iter().all(|&inst| is_inst(globals, inst))
        && is_exit(functions, blocks, &block.exit)
}

fn is_function(functions: &[RFunc], globals: usize, function: &RFunc) -> bool
    ensures { IsTrue result ↔ IsFunction functions.now globals function.now }
{
    let blocks = function.blocks.as_slice();
    function.parameters <= MAX_PARAMETERS
        && !blocks.is_empty()
        && blocks
            .iter()
            .all(|block| is_block(functions, globals, blocks.len(), block))
}

fn are_functions(functions: &[RFunc], globals: usize) -> bool
    ensures { IsTrue result ↔ All (IsFunction functions.now globals) functions.now }
{
    functions
        .iter()
        .all(|function| is_function(functions, globals, function))
}

fn is_global(global: &RGlobal) -> bool
    ensures { IsTrue result ↔ IsGlobal global.now }
{
    global.length > 0 && global.first.len() == global.length as usize
}

fn are_globals(globals: &[RGlobal]) -> bool
    ensures { IsTrue result ↔ All IsGlobal globals.now }
{
    globals.iter().all(|global| is_global(global))
}

/// Reports whether the functions have no more blocks together than a program may have.
fn blocks_fit(functions: &[RFunc]) -> bool
    ensures { IsTrue result ↔ (sum_by block_count functions.now ≤ MAX_BLOCKS) }
{
    let mut total = 0;
    for function in functions {
        let count = function.blocks.len();
        if count > MAX_BLOCKS - total {
            return false;
        }
        total += count;
    }
    true
}

/// Reports whether the globals have no more words together than a program may have.
fn words_fit(globals: &[RGlobal]) -> bool
    ensures { IsTrue result ↔ (sum_by word_count globals.now ≤ MAX_GLOBAL_WORDS) }
{
    let mut total = 0;
    for global in globals {
        let count = global.width.words_of(global.length) as usize;
        if count > MAX_GLOBAL_WORDS - total {
            return false;
        }
        total += count;
    }
    true
}

fn is_program(functions: &[RFunc], globals: &[RGlobal], main: FunctionNumber) -> bool
    ensures { IsTrue result ↔ IsProgram (program_of functions.now globals.now main) }
{
    if !blocks_fit(functions) || !words_fit(globals) || !are_globals(globals) {
        return false;
    }
    is_callee(functions, main, 0) && are_functions(functions, globals.len())
}

impl Rtl {
    /// Returns a program of these parts, if they make one. Each function, block and global that is named exists. A function has a block and
    /// at most four parameters. A call has as many arguments as parameters, and `main` has none. Pseudo-registers are below 8,000. A global
    /// has at least one element and as many first values. There are at most 1,048,575 blocks and 262,144 words of globals, where four bytes
    /// or less are a word.
    pub fn new(functions: Vec<RFunc>, globals: Vec<RGlobal>, main: FunctionNumber) -> Option<Rtl>
        ensures { SomeIff result (IsProgram (program_of functions.items globals.items main))
            (program_of functions.items globals.items main) }
    {
        if is_program(functions.as_slice(), globals.as_slice(), main) {
            Some(Rtl {
                functions,
                globals,
                main,
            })
        } else {
            None
        }
    }

    /// Returns a program of these parts, if they make one. They do exactly if they have no more blocks than a program may have, so
    /// instructions aren't tested.
    pub fn if_blocks_fit(
        functions: Vec<RFunc>,
        globals: Vec<RGlobal>,
        main: FunctionNumber,
    ) -> Option<Rtl>
        requires { sum_by block_count functions.items ≤ MAX_BLOCKS → IsProgram (program_of functions.items globals.items main) }
        ensures { SomeIff result (IsProgram (program_of functions.items globals.items main))
            (program_of functions.items globals.items main) }
    {
        if blocks_fit(functions.as_slice()) {
            Some(Rtl {
                functions,
                globals,
                main,
            })
        } else {
            None
        }
    }

    /// Returns the same program, where each block that goes to a short one before it ends with that one's code. It has at most eight
    /// instructions, of which at most four aren't constants. A block that nothing goes to then is empty. Each run has the same steps. An
    /// Err means out of memory.
    pub fn with_tails(self, alloc: Global) -> Result<Rtl, AllocError>
        ensures tails { IfOk result (λ p. IsTailed self p) }
        ensures runs { IfOk result (λ p. RunsAlike self p) }
    {
        let Rtl {
            functions,
            globals,
            main,
        } = self;
        let functions = functions_with_tails(alloc, functions)?;
        Ok(Rtl {
            functions,
            globals,
            main,
        })
    }

    /// Returns the functions.
    pub fn functions(&self) -> &[RFunc]
        ensures value { result.now ≡ self.now.functions }
        ensures sound { IsProgram self.now }
    {
        self.functions.as_slice()
    }

    /// Returns the globals.
    pub fn globals(&self) -> &[RGlobal]
        ensures value { result.now ≡ self.now.globals }
        ensures sound { IsProgram self.now }
    {
        self.globals.as_slice()
    }

    /// Returns the number of the function that is run.
    pub fn main(&self) -> FunctionNumber
        ensures value { result ≡ self.now.main }
        ensures sound { IsProgram self.now }
    {
        self.main
    }
}
