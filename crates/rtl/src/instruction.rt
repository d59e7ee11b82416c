//! Instructions and exits of RTL.
use crate::operator::Op;

/// The number of a pseudo-register.
pub type Register = u32;

/// The number of a block in its function.
pub type BlockNumber = u32;

/// The number of a function.
pub type FunctionNumber = u32;

/// The number of a global.
pub type GlobalNumber = u32;

/// An instruction. Where it writes a pseudo-register, that one stands first.
#[derive(Clone, Copy)]
pub enum RInst {
    /// `Const(to, word)`
    Const(Register, u32),
    /// `Move(to, from)`
    Move(Register, Register),
    /// `Bin(op, to, left, right)`
    Bin(Op, Register, Register, Register),
    /// `Load(to, global, index)`: the element of a global at an index.
    Load(Register, GlobalNumber, Register),
    /// `Store(global, index, from)`: of an array of bytes, the low eight bits are stored.
    Store(GlobalNumber, Register, Register),
}

/// How a block is left.
#[derive(Drop)]
pub enum RExit {
    /// `Goto(block)`
    Goto(BlockNumber),
    /// `Branch(test, then, other)`: to `then` where the test isn't 0.
    Branch(Register, BlockNumber, BlockNumber),
    /// `Call(function, arguments, to, next)`: the result goes to a pseudo-register, if it is wanted.
    Call(FunctionNumber, Vec<Register>, Option<Register>, BlockNumber),
    /// `Return(from)`
    Return(Option<Register>),
    /// `Out(from, next)`: the word is written out.
    Out(Register, BlockNumber),
}
