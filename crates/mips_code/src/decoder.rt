//! From a word to the instruction that has it.

ghost use Rattle.std.specs.Prelude.{◌≡◌, ◌/◌, ◌%◌, ◌^◌, ◌<◌, ◌↔◌, IsTrue, IfSome, Some};
ghost use Rattle.mips_isa.specs.declared.inst.Inst.{Inst as AnInst};
ghost use Rattle.mips_isa.specs.Ranges.{IsInst};
ghost use Rattle.mips_code.specs.Words.{inst_word};
ghost use Rattle.mips_code.specs.Candidates.{shift_at, shift_by_at, alu_at, move_at, multiply_at, divide_at, imm_at, logic_at, pair_at};
ghost use Rattle.mips_code.specs.Candidates.{jump_at, zero_at, fields_of, computing_of, moving_of, special_of, arithmetic_of, loading_of};
ghost use Rattle.mips_code.specs.Candidates.{storing_of, memory_of, branch_of, candidate_of};
ghost use Rattle.mips_code.specs.Decoding.{instruction_of, DecodingIsExact};

use crate::encoder::encode;
use mips_isa::{
    AluOp, Amount, Control, HiLo, ImmOp, Inst, JumpOp, JumpTarget, LogicOp, NonzeroReg, PairTest,
    Plain, Reg, ShiftOp, ZeroTest,
};
use words::{Sign, Width};

fn shift_at(code: u8) -> Option<ShiftOp>
    ensures { result ≡ shift_at code }
{
    match code {
        0 => Some(ShiftOp::Sll),
        2 => Some(ShiftOp::Srl),
        3 => Some(ShiftOp::Sra),
        _ => None,
    }
}

fn shift_by_at(code: u8) -> Option<ShiftOp>
    ensures { result ≡ shift_by_at code }
{
    match code {
        4 => Some(ShiftOp::Sll),
        6 => Some(ShiftOp::Srl),
        7 => Some(ShiftOp::Sra),
        _ => None,
    }
}

fn alu_at(code: u8) -> Option<AluOp>
    ensures { result ≡ alu_at code }
{
    match code {
        33 => Some(AluOp::Addu),
        35 => Some(AluOp::Subu),
        36 => Some(AluOp::And),
        37 => Some(AluOp::Or),
        38 => Some(AluOp::Xor),
        39 => Some(AluOp::Nor),
        42 => Some(AluOp::Slt),
        43 => Some(AluOp::Sltu),
        _ => None,
    }
}

fn move_at(code: u8) -> Option<HiLo>
    ensures { result ≡ move_at code }
{
    match code {
        16 => Some(HiLo::Hi),
        18 => Some(HiLo::Lo),
        _ => None,
    }
}

fn multiply_at(code: u8) -> Option<Sign>
    ensures { result ≡ multiply_at code }
{
    match code {
        24 => Some(Sign::Signed),
        25 => Some(Sign::Unsigned),
        _ => None,
    }
}

fn divide_at(code: u8) -> Option<Sign>
    ensures { result ≡ divide_at code }
{
    match code {
        26 => Some(Sign::Signed),
        27 => Some(Sign::Unsigned),
        _ => None,
    }
}

fn imm_at(code: u8) -> Option<ImmOp>
    ensures { result ≡ imm_at code }
{
    match code {
        9 => Some(ImmOp::Addiu),
        10 => Some(ImmOp::Slti),
        11 => Some(ImmOp::Sltiu),
        _ => None,
    }
}

fn logic_at(code: u8) -> Option<LogicOp>
    ensures { result ≡ logic_at code }
{
    match code {
        12 => Some(LogicOp::Andi),
        13 => Some(LogicOp::Ori),
        14 => Some(LogicOp::Xori),
        _ => None,
    }
}

fn pair_at(code: u8) -> Option<PairTest>
    ensures { result ≡ pair_at code }
{
    match code {
        4 => Some(PairTest::Equal),
        5 => Some(PairTest::NotEqual),
        _ => None,
    }
}

fn jump_at(code: u8) -> Option<JumpOp>
    ensures { result ≡ jump_at code }
{
    match code {
        2 => Some(JumpOp::Jump),
        3 => Some(JumpOp::JumpAndLink),
        _ => None,
    }
}

fn zero_at(op: u8, rt: Reg) -> Option<ZeroTest>
    ensures { result ≡ zero_at op rt }
{
    match op {
        6 => Some(ZeroTest::AtMostZero),
        7 => Some(ZeroTest::AboveZero),
        1 => match rt.index() {
            0 => Some(ZeroTest::BelowZero),
            1 => Some(ZeroTest::AtLeastZero),
            _ => None,
        },
        _ => None,
    }
}

fn field(word: u32, from: u32) -> u8
    requires { from < 32 }
    ensures value { result ≡ word / 2 ^ from % 32 }
    ensures range { result < 32 }
{
    ((word >> from) % 32) as u8
}

fn reg_at(word: u32, from: u32) -> Reg
    requires { from < 32 }
    ensures { result ≡ word / 2 ^ from % 32 }
{
    let index = field(word, from);
    Reg::masked(index)
}

fn op_at(word: u32) -> u8
    ensures { result ≡ word / 2 ^ 26 }
{
    (word >> 26) as u8
}

fn imm_of(word: u32) -> u16
    ensures { result ≡ word % 2 ^ 16 }
{
    (word % 65536) as u16
}

fn computing(word: u32) -> Option<Plain>
    ensures { result ≡ computing_of (fields_of word) }
{
    let rs = reg_at(word, 21);
    let rt = reg_at(word, 16);
    let rd = reg_at(word, 11);
    let funct = (word % 64) as u8;
    if let Some(op) = shift_at(funct) {
        let amount = Amount::masked(field(word, 6));
        return Some(Plain::Shift { op, rd, rt, amount });
    }
    if let Some(op) = shift_by_at(funct) {
        return Some(Plain::ShiftBy { op, rd, rt, rs });
    }
    let op = alu_at(funct)?;
    Some(Plain::Alu { op, rd, rs, rt })
}

fn moving(word: u32) -> Option<Plain>
    ensures { result ≡ moving_of (fields_of word) }
{
    let rs = reg_at(word, 21);
    let rt = reg_at(word, 16);
    let funct = (word % 64) as u8;
    if let Some(place) = move_at(funct) {
        let rd = reg_at(word, 11);
        return Some(Plain::MoveFrom { place, rd });
    }
    if let Some(sign) = multiply_at(funct) {
        return Some(Plain::Multiply { sign, rs, rt });
    }
    let sign = divide_at(funct)?;
    Some(Plain::Divide { sign, rs, rt })
}

fn special(word: u32) -> Option<Inst>
    ensures { result ≡ special_of (fields_of word) }
{
    if let Some(plain) = computing(word) {
        return Some(Inst::Plain(plain));
    }
    if let Some(plain) = moving(word) {
        return Some(Inst::Plain(plain));
    }
    let funct = (word % 64) as u8;
    if funct == 8 {
        let rs = reg_at(word, 21);
        return Some(Inst::Control(Control::JumpRegister { rs }));
    }
    if funct == 12 {
        return Some(Inst::Control(Control::SystemCall));
    }
    None
}

fn arithmetic(word: u32) -> Option<Plain>
    ensures { result ≡ arithmetic_of (fields_of word) }
{
    let code = op_at(word);
    let rs = reg_at(word, 21);
    let rt = reg_at(word, 16);
    let imm = imm_of(word);
    if let Some(op) = imm_at(code) {
        let imm = imm.cast_signed();
        return Some(Plain::Imm { op, rt, rs, imm });
    }
    if let Some(op) = logic_at(code) {
        return Some(Plain::Logic { op, rt, rs, imm });
    }
    if code == 15 {
        return Some(Plain::LoadUpper { rt, imm });
    }
    None
}

fn loading(width: Width, word: u32) -> Option<Plain>
    ensures { result ≡ loading_of width (fields_of word) }
{
    let base = reg_at(word, 21);
    let rt = NonzeroReg::new(field(word, 16))?;
    let offset = imm_of(word).cast_signed();
    Some(Plain::Load {
        width,
        rt,
        base,
        offset,
    })
}

fn storing(width: Width, word: u32) -> Plain
    ensures { result ≡ storing_of width (fields_of word) }
{
    Plain::Store {
        width,
        rt: reg_at(word, 16),
        base: reg_at(word, 21),
        offset: imm_of(word).cast_signed(),
    }
}

fn memory(word: u32) -> Option<Plain>
    ensures { result ≡ memory_of (fields_of word) }
{
    match op_at(word) {
        35 => loading(Width::Word, word),
        36 => loading(Width::Byte, word),
        40 => Some(storing(Width::Byte, word)),
        43 => Some(storing(Width::Word, word)),
        _ => None,
    }
}

fn branch(word: u32) -> Option<Control>
    ensures { result ≡ branch_of (fields_of word) }
{
    let code = op_at(word);
    let rs = reg_at(word, 21);
    let rt = reg_at(word, 16);
    let offset = imm_of(word).cast_signed();
    if let Some(test) = pair_at(code) {
        return Some(Control::BranchPair {
            test,
            rs,
            rt,
            offset,
        });
    }
    let test = zero_at(code, rt)?;
    Some(Control::BranchZero { test, rs, offset })
}

fn candidate(word: u32) -> Option<Inst>
    ensures { result ≡ candidate_of word }
{
    if word >> 26 == 0 {
        return special(word);
    }
    if let Some(plain) = arithmetic(word) {
        return Some(Inst::Plain(plain));
    }
    if let Some(plain) = memory(word) {
        return Some(Inst::Plain(plain));
    }
    if let Some(control) = branch(word) {
        return Some(Inst::Control(control));
    }
    let op = jump_at(op_at(word))?;
    let target = JumpTarget::masked(word);
    Some(Inst::Control(Control::JumpTo { op, target }))
}

fn has_word(inst: &Inst, word: u32) -> bool
    ensures value { IsTrue result ↔ (inst_word inst.now ≡ word) }
    ensures range { IsInst inst.now }
{
    encode(*inst) == word
}

/// Returns the instruction that has this word: None exactly if none has it, so also where a field that the instruction doesn't use isn't 0.
pub fn decode(word: u32) -> Option<Inst>
    ensures found { IfSome result (λ i. IsInst i × (inst_word i ≡ word)) }
    ensures only { (i : AnInst) → IsInst i → inst_word i ≡ word → result ≡ Some i }
    ensures value { result ≡ instruction_of word }
{
    let inst = candidate(word)?;
    if has_word(&inst, word) {
        return Some(inst);
    }
    None
}

/// States that `instruction_of` has each instruction at its word, and nothing else.
pub fn decoding_is_exact()
    ensures { DecodingIsExact }
{}
