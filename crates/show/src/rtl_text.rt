//! RTL as text.

use crate::listing::put_heading;
use crate::names::{Names, RegisterName};
use crate::wanted::Wanted;
use mblock::BlockNumber;
use rtl::{Op, RBlock, RExit, RGlobal, RInst, Register};
use text::Writer;

/// A function of RTL as it is shown: its number, its names, the globals, and the numbers of its blocks.
#[derive(Clone, Copy)]
pub(crate) struct RtlView<'a> {
    pub(crate) names: &'a Names<'a>,
    pub(crate) function: usize,
    pub(crate) globals: &'a [RGlobal],
    pub(crate) numbers: &'a [BlockNumber],
}

/// Returns an operator's sign; `u` after it where words are read without a sign.
fn sign(op: Op) -> &'static str {
    match op {
        Op::Add => " + ",
        Op::Sub => " - ",
        Op::Mul => " * ",
        Op::DivS => " / ",
        Op::DivU => " /u ",
        Op::RemS => " rem ",
        Op::RemU => " remu ",
        Op::And => " & ",
        Op::Or => " | ",
        Op::Xor => " ^ ",
        Op::Shl => " << ",
        Op::ShrU => " >>u ",
        Op::ShrS => " >> ",
        Op::Eq => " == ",
        Op::Ne => " != ",
        Op::LtS => " < ",
        Op::LtU => " <u ",
        Op::LeS => " <= ",
        Op::LeU => " <=u ",
    }
}

impl<'a> RtlView<'a> {
    /// Returns a register as it is shown.
    fn register(&self, register: Register) -> RegisterName<'a> {
        self.names.register(self.function, register)
    }

    /// Writes an element of a global; a variable by its name alone.
    fn element(&self, out: &mut Writer, global: u32, index: Register) {
        let name = self.names.global(global as usize);
        match self.globals.get(global as usize) {
            Some(global) if global.length <= 1 => out.text(name),
            _ => out.put(&format_args!("{name}[{}]", self.register(index))),
        }
    }

    /// Writes an instruction.
    fn inst(&self, out: &mut Writer, inst: RInst) {
        match inst {
            RInst::Const(to, word) => {
                out.put(&format_args!("{} = {}", self.register(to), word.cast_signed()));
            }
            RInst::Move(to, from) => {
                out.put(&format_args!("{} = {}", self.register(to), self.register(from)));
            }
            RInst::Bin(op, to, left, right) => {
                let (left, right) = (self.register(left), self.register(right));
                out.put(&format_args!("{} = {left}{}{right}", self.register(to), sign(op)));
            }
            RInst::Load(to, global, index) => {
                out.put(&format_args!("{} = ", self.register(to)));
                self.element(out, global, index);
            }
            RInst::Store(global, index, from) => {
                self.element(out, global, index);
                out.put(&format_args!(" = {}", self.register(from)));
            }
        }
    }

    /// Returns the number that a block has in all stages.
    pub(crate) fn number(&self, block: usize) -> usize {
        match self.numbers.get(block) {
            Some(number) => number.number() as usize,
            None => 0,
        }
    }

    /// Writes how a block is left.
    fn exit(&self, out: &mut Writer, exit: &RExit) {
        match exit {
            RExit::Goto(block) => out.put(&format_args!("goto {}", self.number(*block as usize))),
            RExit::Branch(test, then, other) => {
                let (then, other) = (self.number(*then as usize), self.number(*other as usize));
                out.put(&format_args!("if {} goto {then} else {other}", self.register(*test)));
            }
            RExit::Call(function, arguments, to, next) => {
                if let Some(to) = to {
                    out.put(&format_args!("{} = ", self.register(*to)));
                }
                out.put(&format_args!("{}(", self.names.function(*function as usize)));
                let mut before = "";
                for argument in arguments.iter() {
                    out.put(&format_args!("{before}{}", self.register(*argument)));
                    before = ", ";
                }
                out.put(&format_args!("), then {}", self.number(*next as usize)));
            }
            RExit::Return(None) => out.text("return"),
            RExit::Return(Some(from)) => {
                out.put(&format_args!("return {}", self.register(*from)));
            }
            RExit::Out(from, next) => {
                let next = self.number(*next as usize);
                out.put(&format_args!("out {}, then {next}", self.register(*from)));
            }
        }
    }

    /// Writes the lines of a block, each after a margin and before an end.
    pub(crate) fn lines(&self, out: &mut Writer, block: &RBlock, margin: &str, end: &str) {
        for inst in block.insts.iter() {
            out.text(margin);
            self.inst(out, *inst);
            out.text(end);
        }
        out.text(margin);
        self.exit(out, &block.exit);
        out.text(end);
    }

    /// Writes the blocks of a function, or the one that is asked for.
    pub(crate) fn blocks(&self, out: &mut Writer, blocks: &[RBlock], wanted: &Wanted) {
        for (k, block) in blocks.iter().enumerate() {
            let number = self.number(k);
            if wanted.has_block(number) {
                put_heading(out, number, None, "\n");
                self.lines(out, block, "    ", "\n");
            }
        }
    }
}
