//! The texts of instructions.

ghost use Rattle.std.specs.Prelude.{◌≡◌, ◌++◌, Some, codes};
ghost use Rattle.std.specs.Fmt.{DisplaysOnOk, WritesOnOk};
ghost use Rattle.mips_isa.specs.Actions.{nop};
ghost use Rattle.mips_isa.specs.Texts.{is_nop, mnemonic_of, mnemonic_text, operand_text, operands_text, instruction_text, register_text};
ghost use Rattle.mips_isa.specs.Texts.{control_name, control_operands, control_text};

use crate::digits::WordDigits;
use crate::inst::{
    AluOp, Control, HiLo, ImmOp, JumpOp, LogicOp, PairTest, Plain, ShiftOp, ZeroTest,
};
use crate::reg::{Amount, NonzeroReg, Reg};
use crate::targets::{branch_target, jump_target};
use std::fmt;
use words::{Sign, Width};

/// The name of an instruction that computes, loads or stores, without its operands.
#[derive(Clone, Copy)]
pub enum Mnemonic {
    Shift(ShiftOp),
    ShiftBy(ShiftOp),
    Alu(AluOp),
    Imm(ImmOp),
    Logic(LogicOp),
    LoadUpper,
    MoveFrom(HiLo),
    Multiply(Sign),
    Divide(Sign),
    Load(Width),
    Store(Width),
}

impl Mnemonic {
    /// Returns the name, as Kane writes it.
    pub fn name(self) -> &'static str
        ensures { result.now ≡ mnemonic_text self }
    {
        match self {
            Mnemonic::Shift(ShiftOp::Sll) => "sll",
            Mnemonic::Shift(ShiftOp::Srl) => "srl",
            Mnemonic::Shift(ShiftOp::Sra) => "sra",
            Mnemonic::ShiftBy(ShiftOp::Sll) => "sllv",
            Mnemonic::ShiftBy(ShiftOp::Srl) => "srlv",
            Mnemonic::ShiftBy(ShiftOp::Sra) => "srav",
            Mnemonic::Alu(AluOp::Addu) => "addu",
            Mnemonic::Alu(AluOp::Subu) => "subu",
            Mnemonic::Alu(AluOp::And) => "and",
            Mnemonic::Alu(AluOp::Or) => "or",
            Mnemonic::Alu(AluOp::Xor) => "xor",
            Mnemonic::Alu(AluOp::Nor) => "nor",
            Mnemonic::Alu(AluOp::Slt) => "slt",
            Mnemonic::Alu(AluOp::Sltu) => "sltu",
            Mnemonic::Imm(ImmOp::Addiu) => "addiu",
            Mnemonic::Imm(ImmOp::Slti) => "slti",
            Mnemonic::Imm(ImmOp::Sltiu) => "sltiu",
            Mnemonic::Logic(LogicOp::Andi) => "andi",
            Mnemonic::Logic(LogicOp::Ori) => "ori",
            Mnemonic::Logic(LogicOp::Xori) => "xori",
            Mnemonic::LoadUpper => "lui",
            Mnemonic::MoveFrom(HiLo::Hi) => "mfhi",
            Mnemonic::MoveFrom(HiLo::Lo) => "mflo",
            Mnemonic::Multiply(Sign::Signed) => "mult",
            Mnemonic::Multiply(Sign::Unsigned) => "multu",
            Mnemonic::Divide(Sign::Signed) => "div",
            Mnemonic::Divide(Sign::Unsigned) => "divu",
            Mnemonic::Load(Width::Word) => "lw",
            Mnemonic::Load(Width::Byte) => "lbu",
            Mnemonic::Store(Width::Word) => "sw",
            Mnemonic::Store(Width::Byte) => "sb",
        }
    }
}

/// As in a text.
impl fmt::Debug for Mnemonic {
    ghost debug_output = { λ m. Some (mnemonic_text m) };

    fn fmt<W: fmt::Write>(&self, f: &mut fmt::Formatter<W>) -> fmt::Result {
        f.write_str(self.name())
    }
}

impl Plain {
    /// Returns the instruction's mnemonic.
    pub fn mnemonic(&self) -> Mnemonic
        ensures { result ≡ mnemonic_of self.now }
    {
        match self {
            Plain::Shift { op, .. } => Mnemonic::Shift(*op),
            Plain::ShiftBy { op, .. } => Mnemonic::ShiftBy(*op),
            Plain::Alu { op, .. } => Mnemonic::Alu(*op),
            Plain::Imm { op, .. } => Mnemonic::Imm(*op),
            Plain::Logic { op, .. } => Mnemonic::Logic(*op),
            Plain::LoadUpper { .. } => Mnemonic::LoadUpper,
            Plain::MoveFrom { place, .. } => Mnemonic::MoveFrom(*place),
            Plain::Multiply { sign, .. } => Mnemonic::Multiply(*sign),
            Plain::Divide { sign, .. } => Mnemonic::Divide(*sign),
            Plain::Load { width, .. } => Mnemonic::Load(*width),
            Plain::Store { width, .. } => Mnemonic::Store(*width),
        }
    }

    /// Returns the word 0, `sll $0,$0,0`, which does nothing.
    pub fn nop() -> Plain
        ensures { result ≡ nop }
    {
        Plain::Shift {
            op: ShiftOp::Sll,
            rd: Reg::ZERO,
            rt: Reg::ZERO,
            amount: Amount::masked(0),
        }
    }

    /// Reports whether it is the word 0, `sll $0,$0,0`.
    pub fn is_nop(&self) -> bool
        ensures { result ≡ is_nop self.now }
    {
        match self {
            Plain::Shift { op, rd, rt, amount } => match op {
                ShiftOp::Sll => rd.index() == 0 && rt.index() == 0 && amount.bits() == 0,
                ShiftOp::Srl => false,
                ShiftOp::Sra => false,
            },
            _ => false,
        }
    }
}

impl fmt::Display for Reg {
    ghost output = { λ r. Some (register_text r) };

    fn fmt<W: fmt::Write>(&self, f: &mut fmt::Formatter<W>) -> fmt::Result {
        let number = self.index();
        write!(f, "${number}")
    }
}

impl fmt::Display for NonzeroReg {
    ghost output = { λ r. Some (register_text r) };

    fn fmt<W: fmt::Write>(&self, f: &mut fmt::Formatter<W>) -> fmt::Result {
        let number = self.index();
        write!(f, "${number}")
    }
}

/// The last operand of an instruction's text.
#[derive(Clone, Copy)]
pub(crate) enum Operand {
    Register(Reg),
    Signed(i16),
    Unsigned(u32),
    Address(Reg, i16),
    Target(u32),
}

impl fmt::Display for Operand {
    ghost output = { λ o. Some (operand_text o) };

    fn fmt<W: fmt::Write>(&self, f: &mut fmt::Formatter<W>) -> fmt::Result {
        match self {
            Operand::Register(reg) => fmt::Display::fmt(reg, f),
            Operand::Signed(number) => fmt::Display::fmt(number, f),
            Operand::Unsigned(number) => fmt::Display::fmt(number, f),
            Operand::Address(base, offset) => write!(f, "{offset}({base})"),
            Operand::Target(address) => {
                let digits = WordDigits(*address);
                write!(f, "0x{digits}")
            }
        }
    }
}

fn write_one<W: fmt::Write>(last: Operand, f: &mut fmt::Formatter<W>) -> fmt::Result
    ensures { WritesOnOk W.write_str_gives f.old result (codes " " ++ operand_text last) f.new }
{
    write!(f, " {last}")
}

fn write_pair<W: fmt::Write>(a: Reg, last: Operand, f: &mut fmt::Formatter<W>) -> fmt::Result
    ensures { WritesOnOk W.write_str_gives f.old result (codes " " ++ (register_text a ++ (codes "," ++ operand_text last))) f.new }
{
    write!(f, " {a},{last}")
}

fn write_triple<W: fmt::Write>(
    a: Reg,
    b: Reg,
    last: Operand,
    f: &mut fmt::Formatter<W>,
) -> fmt::Result
    ensures { WritesOnOk W.write_str_gives f.old result
        (codes " " ++ (register_text a ++ (codes "," ++ (register_text b ++ (codes "," ++ operand_text last))))) f.new }
{
    write!(f, " {a},{b},{last}")
}

fn write_operands<W: fmt::Write>(inst: &Plain, f: &mut fmt::Formatter<W>) -> fmt::Result
    ensures { DisplaysOnOk W.write_str_gives f.old result (Some (codes " " ++ operands_text inst.now)) f.new }
{
    match *inst {
        Plain::Shift { rd, rt, amount, .. } => {
            write_triple(rd, rt, Operand::Unsigned(u32::from(amount.bits())), f)
        }
        Plain::ShiftBy { rd, rt, rs, .. } => write_triple(rd, rt, Operand::Register(rs), f),
        Plain::Alu { rd, rs, rt, .. } => write_triple(rd, rs, Operand::Register(rt), f),
        Plain::Imm { rt, rs, imm, .. } => write_triple(rt, rs, Operand::Signed(imm), f),
        Plain::Logic { rt, rs, imm, .. } => {
            write_triple(rt, rs, Operand::Unsigned(u32::from(imm)), f)
        }
        Plain::LoadUpper { rt, imm } => write_pair(rt, Operand::Unsigned(u32::from(imm)), f),
        Plain::MoveFrom { rd, .. } => write_one(Operand::Register(rd), f),
        Plain::Multiply { rs, rt, .. } => write_pair(rs, Operand::Register(rt), f),
        Plain::Divide { rs, rt, .. } => write_pair(rs, Operand::Register(rt), f),
        Plain::Load {
            rt,
            base,
            offset,
            ..
        } => write_pair(rt.reg(), Operand::Address(base, offset), f),
        Plain::Store {
            rt,
            base,
            offset,
            ..
        } => write_pair(rt, Operand::Address(base, offset), f),
    }
}

/// Kane's text, with registers by number and numbers in decimal; `nop` for the word 0.
impl fmt::Display for Plain {
    ghost output = { λ i. Some (instruction_text i) };

    fn fmt<W: fmt::Write>(&self, f: &mut fmt::Formatter<W>) -> fmt::Result {
        if self.is_nop() {
            return f.write_str("nop");
        }
        f.write_str(self.mnemonic().name())?;
        write_operands(self, f)
    }
}

/// As in a text.
impl fmt::Debug for Plain {
    ghost debug_output = { λ i. Some (instruction_text i) };

    fn fmt<W: fmt::Write>(&self, f: &mut fmt::Formatter<W>) -> fmt::Result {
        fmt::Display::fmt(self, f)
    }
}

/// A branch, a jump or a call to the system at an address, as a listing shows it. It is Kane's text, with the target as an address in
/// hexadecimal.
#[derive(Clone, Copy)]
pub struct ListedControl {
    pub control: Control,
    pub address: u32,
}

fn control_name(control: &Control) -> &'static str
    ensures { result.now ≡ control_name control.now }
{
    match control {
        Control::BranchPair { test, .. } => match test {
            PairTest::Equal => "beq",
            PairTest::NotEqual => "bne",
        },
        Control::BranchZero { test, .. } => match test {
            ZeroTest::AtMostZero => "blez",
            ZeroTest::AboveZero => "bgtz",
            ZeroTest::BelowZero => "bltz",
            ZeroTest::AtLeastZero => "bgez",
        },
        Control::JumpTo { op, .. } => match op {
            JumpOp::Jump => "j",
            JumpOp::JumpAndLink => "jal",
        },
        Control::JumpRegister { .. } => "jr",
        Control::SystemCall => "syscall",
    }
}

fn write_control_operands<W: fmt::Write>(
    control: &Control,
    slot: u32,
    f: &mut fmt::Formatter<W>,
) -> fmt::Result
    ensures { DisplaysOnOk W.write_str_gives f.old result (Some (control_operands control.now slot)) f.new }
{
    match *control {
        Control::BranchPair { rs, rt, offset, .. } => {
            write_triple(rs, rt, Operand::Target(branch_target(slot, offset)), f)
        }
        Control::BranchZero { rs, offset, .. } => {
            write_pair(rs, Operand::Target(branch_target(slot, offset)), f)
        }
        Control::JumpTo { target, .. } => write_one(Operand::Target(jump_target(slot, target)), f),
        Control::JumpRegister { rs } => write_one(Operand::Register(rs), f),
        Control::SystemCall => Ok(()),
    }
}

impl fmt::Display for ListedControl {
    ghost output = { λ l. Some (control_text l.control l.address) };

    fn fmt<W: fmt::Write>(&self, f: &mut fmt::Formatter<W>) -> fmt::Result {
        f.write_str(control_name(&self.control))?;
        write_control_operands(&self.control, self.address.wrapping_add(4), f)
    }
}
