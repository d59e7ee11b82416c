//! From an instruction to its word.

ghost use Rattle.std.specs.Prelude.{◌≡◌, ◌+◌, ◌<◌};
ghost use Rattle.mips_isa.specs.Ranges.{IsPlain, IsControl, IsInst};
ghost use Rattle.mips_code.specs.Words.{register_word, immediate_word, jump_word, inst_word, word_of_plain, word_of_control};
ghost use Rattle.mips_code.specs.Words.{shift_code, shift_by_code, alu_code, move_code, multiply_code, divide_code, imm_code, logic_code};
ghost use Rattle.mips_code.specs.Words.{load_code, store_code, pair_code, jump_code, zero_code, zero_field};

use mips_isa::{
    AluOp, Amount, Control, HiLo, ImmOp, Inst, JumpOp, JumpTarget, LogicOp, PairTest, Plain, Reg,
    ShiftOp, ZeroTest,
};
use words::{Sign, Width};

fn shift_code(op: ShiftOp) -> u8
    ensures { result ≡ shift_code op }
{
    match op {
        ShiftOp::Sll => 0,
        ShiftOp::Srl => 2,
        ShiftOp::Sra => 3,
    }
}

fn shift_by_code(op: ShiftOp) -> u8
    ensures { result ≡ shift_by_code op }
{
    match op {
        ShiftOp::Sll => 4,
        ShiftOp::Srl => 6,
        ShiftOp::Sra => 7,
    }
}

fn alu_code(op: AluOp) -> u8
    ensures { result ≡ alu_code op }
{
    match op {
        AluOp::Addu => 33,
        AluOp::Subu => 35,
        AluOp::And => 36,
        AluOp::Or => 37,
        AluOp::Xor => 38,
        AluOp::Nor => 39,
        AluOp::Slt => 42,
        AluOp::Sltu => 43,
    }
}

fn move_code(op: HiLo) -> u8
    ensures { result ≡ move_code op }
{
    match op {
        HiLo::Hi => 16,
        HiLo::Lo => 18,
    }
}

fn multiply_code(op: Sign) -> u8
    ensures { result ≡ multiply_code op }
{
    match op {
        Sign::Signed => 24,
        Sign::Unsigned => 25,
    }
}

fn divide_code(op: Sign) -> u8
    ensures { result ≡ divide_code op }
{
    match op {
        Sign::Signed => 26,
        Sign::Unsigned => 27,
    }
}

fn imm_code(op: ImmOp) -> u8
    ensures { result ≡ imm_code op }
{
    match op {
        ImmOp::Addiu => 9,
        ImmOp::Slti => 10,
        ImmOp::Sltiu => 11,
    }
}

fn logic_code(op: LogicOp) -> u8
    ensures { result ≡ logic_code op }
{
    match op {
        LogicOp::Andi => 12,
        LogicOp::Ori => 13,
        LogicOp::Xori => 14,
    }
}

fn load_code(width: Width) -> u8
    ensures { result ≡ load_code width }
{
    match width {
        Width::Word => 35,
        Width::Byte => 36,
    }
}

fn store_code(width: Width) -> u8
    ensures { result ≡ store_code width }
{
    match width {
        Width::Word => 43,
        Width::Byte => 40,
    }
}

fn pair_code(op: PairTest) -> u8
    ensures { result ≡ pair_code op }
{
    match op {
        PairTest::Equal => 4,
        PairTest::NotEqual => 5,
    }
}

fn jump_code(op: JumpOp) -> u8
    ensures { result ≡ jump_code op }
{
    match op {
        JumpOp::Jump => 2,
        JumpOp::JumpAndLink => 3,
    }
}

fn zero_code(test: ZeroTest) -> u8
    ensures { result ≡ zero_code test }
{
    match test {
        ZeroTest::AtMostZero => 6,
        ZeroTest::AboveZero => 7,
        ZeroTest::BelowZero => 1,
        ZeroTest::AtLeastZero => 1,
    }
}

fn zero_field(test: ZeroTest) -> Reg
    ensures { result ≡ zero_field test }
{
    match test {
        ZeroTest::AtLeastZero => Reg::masked(1),
        _ => Reg::ZERO,
    }
}

fn register_form(rs: Reg, rt: Reg, rd: Reg, amount: u8, funct: u8) -> u32
    requires amount { amount < 32 }
    requires funct { funct < 64 }
    ensures { result ≡ register_word rs rt rd amount funct }
{
    (u32::from(rs.index()) << 21)
        + (u32::from(rt.index()) << 16)
        + (u32::from(rd.index()) << 11)
        + (u32::from(amount) << 6)
        + u32::from(funct)
}

fn immediate_form(op: u8, rs: Reg, rt: Reg, imm: u16) -> u32
    requires { op < 64 }
    ensures { result ≡ immediate_word op rs rt imm }
{
    (u32::from(op) << 26)
        + (u32::from(rs.index()) << 21)
        + (u32::from(rt.index()) << 16)
        + u32::from(imm)
}

fn jump_form(op: u8, target: JumpTarget) -> u32
    requires { op < 64 }
    ensures { result ≡ jump_word op target }
{
    (u32::from(op) << 26) + target.words()
}

/// Returns the word of an instruction that neither branches nor jumps nor calls the system.
#[inline(always)]
pub fn encode_plain(plain: Plain) -> u32
    ensures value { result ≡ word_of_plain plain }
    ensures range { IsPlain plain }
{
    let zero = Reg::ZERO;
    match plain {
        Plain::Shift { op, rd, rt, amount } => {
            register_form(zero, rt, rd, amount.bits(), shift_code(op))
        }
        Plain::ShiftBy { op, rd, rt, rs } => register_form(rs, rt, rd, 0, shift_by_code(op)),
        Plain::Alu { op, rd, rs, rt } => register_form(rs, rt, rd, 0, alu_code(op)),
        Plain::Imm { op, rt, rs, imm } => {
            immediate_form(imm_code(op), rs, rt, imm.cast_unsigned())
        }
        Plain::Logic { op, rt, rs, imm } => immediate_form(logic_code(op), rs, rt, imm),
        Plain::LoadUpper { rt, imm } => immediate_form(15, zero, rt, imm),
        Plain::MoveFrom { place, rd } => register_form(zero, zero, rd, 0, move_code(place)),
        Plain::Multiply { sign, rs, rt } => register_form(rs, rt, zero, 0, multiply_code(sign)),
        Plain::Divide { sign, rs, rt } => register_form(rs, rt, zero, 0, divide_code(sign)),
        Plain::Load {
            width,
            rt,
            base,
            offset,
        } => immediate_form(load_code(width), base, rt.reg(), offset.cast_unsigned()),
        Plain::Store {
            width,
            rt,
            base,
            offset,
        } => immediate_form(store_code(width), base, rt, offset.cast_unsigned()),
    }
}

fn encode_control(control: Control) -> u32
    ensures value { result ≡ word_of_control control }
    ensures range { IsControl control }
{
    let zero = Reg::ZERO;
    match control {
        Control::BranchPair {
            test,
            rs,
            rt,
            offset,
        } => immediate_form(pair_code(test), rs, rt, offset.cast_unsigned()),
        Control::BranchZero { test, rs, offset } => {
            immediate_form(
                zero_code(test),
                rs,
                zero_field(test),
                offset.cast_unsigned(),
            )
        }
        Control::JumpTo { op, target } => jump_form(jump_code(op), target),
        Control::JumpRegister { rs } => register_form(rs, zero, zero, 0, 8),
        Control::SystemCall => register_form(zero, zero, zero, 0, 12),
    }
}

/// Returns the word of an instruction (Kane, MIPS RISC Architecture, appendix A).
pub fn encode(inst: Inst) -> u32
    ensures value { result ≡ inst_word inst }
    ensures range { IsInst inst }
{
    match inst {
        Inst::Plain(plain) => encode_plain(plain),
        Inst::Control(control) => encode_control(control),
    }
}
