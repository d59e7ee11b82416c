//! Instructions (Kane, MIPS RISC Architecture, appendix A).
use crate::reg::{Amount, JumpTarget, NonzeroReg, Reg};
use words::{Sign, Width};

/// The shifts, by a constant (`sll`) or by a register (`sllv`).
#[derive(Clone, Copy, PartialEq, Eq)]
pub enum ShiftOp {
    Sll,
    Srl,
    Sra,
}

/// What is computed from two registers.
#[derive(Clone, Copy, PartialEq, Eq)]
pub enum AluOp {
    Addu,
    Subu,
    And,
    Or,
    Xor,
    Nor,
    Slt,
    Sltu,
}

/// What is computed from a register and a constant whose sign is extended.
#[derive(Clone, Copy, PartialEq, Eq)]
pub enum ImmOp {
    Addiu,
    Slti,
    Sltiu,
}

/// What is computed from a register and a constant that zeros extend.
#[derive(Clone, Copy, PartialEq, Eq)]
pub enum LogicOp {
    Andi,
    Ori,
    Xori,
}

/// The two registers of products and divisions.
#[derive(Clone, Copy, PartialEq, Eq)]
pub enum HiLo {
    Hi,
    Lo,
}

/// What computes, loads or stores (Kane, MIPS RISC Architecture, appendix A), by form. `rd` and `rt`
/// are written, except that a store reads `rt`; offsets are in bytes.
#[derive(Clone, Copy, PartialEq, Eq)]
pub enum Plain {
    /// `sll $rd,$rt,amount`
    Shift {
        op: ShiftOp,
        rd: Reg,
        rt: Reg,
        amount: Amount,
    },
    /// `sllv $rd,$rt,$rs`: the low five bits of `rs` say how far.
    ShiftBy {
        op: ShiftOp,
        rd: Reg,
        rt: Reg,
        rs: Reg,
    },
    /// `addu $rd,$rs,$rt`
    Alu {
        op: AluOp,
        rd: Reg,
        rs: Reg,
        rt: Reg,
    },
    /// `addiu $rt,$rs,imm`
    Imm {
        op: ImmOp,
        rt: Reg,
        rs: Reg,
        imm: i16,
    },
    /// `andi $rt,$rs,imm`
    Logic {
        op: LogicOp,
        rt: Reg,
        rs: Reg,
        imm: u16,
    },
    /// `lui $rt,imm`
    LoadUpper {
        rt: Reg,
        imm: u16,
    },
    /// `mfhi $rd`, `mflo $rd`
    MoveFrom {
        place: HiLo,
        rd: Reg,
    },
    /// `mult $rs,$rt`, `multu $rs,$rt`
    Multiply {
        sign: Sign,
        rs: Reg,
        rt: Reg,
    },
    /// `div $rs,$rt`, `divu $rs,$rt`
    Divide {
        sign: Sign,
        rs: Reg,
        rt: Reg,
    },
    /// `lw $rt,offset($base)`, `lbu $rt,offset($base)`
    Load {
        width: Width,
        rt: NonzeroReg,
        base: Reg,
        offset: i16,
    },
    /// `sw $rt,offset($base)`, `sb $rt,offset($base)`
    Store {
        width: Width,
        rt: Reg,
        base: Reg,
        offset: i16,
    },
}

/// A branch on two registers.
#[derive(Clone, Copy, PartialEq, Eq)]
pub enum PairTest {
    /// `beq`
    Equal,
    /// `bne`
    NotEqual,
}

/// A branch on the sign of one register.
#[derive(Clone, Copy, PartialEq, Eq)]
pub enum ZeroTest {
    /// `blez`
    AtMostZero,
    /// `bgtz`
    AboveZero,
    /// `bltz`
    BelowZero,
    /// `bgez`
    AtLeastZero,
}

/// `j` and `jal`.
#[derive(Clone, Copy)]
pub enum JumpOp {
    Jump,
    JumpAndLink,
}

/// A branch, a jump or a system call. A branch's offset counts words from the word after the branch; a jump's
/// target is the number of a word within its 2^26 words.
#[derive(Clone, Copy)]
pub enum Control {
    BranchPair {
        test: PairTest,
        rs: Reg,
        rt: Reg,
        offset: i16,
    },
    BranchZero {
        test: ZeroTest,
        rs: Reg,
        offset: i16,
    },
    JumpTo {
        op: JumpOp,
        target: JumpTarget,
    },
    /// `jr $rs`
    JumpRegister {
        rs: Reg,
    },
    /// `syscall`
    SystemCall,
}

/// Any instruction of the set.
#[derive(Clone, Copy)]
pub enum Inst {
    Plain(Plain),
    Control(Control),
}
