//! Operands, form by form of instruction.
ghost use Rattle.std.specs.Prelude.{◌≡◌, ℕ, ℤ, ◌<◌, IfSome, Some, FitsSigned};
ghost use Rattle.std.specs.Int.{w16};
ghost use Rattle.mips_isa.specs.Texts.{address_text};
ghost use Rattle.mips_isa.specs.declared.inst.Plain.TheVariants as plains;
ghost use Rattle.mips_isa.specs.declared.inst.Plain.{Plain};
ghost use Rattle.mips_isa.specs.declared.text.Mnemonic.TheVariants as mnemonics;
ghost use Rattle.mips_isa.specs.declared.text.Mnemonic.{Mnemonic};
ghost use Rattle.block_text.specs.Spelling.{HasOperands};

use crate::cuts::cut;
use crate::spelled::{Spelled, three, two};
use mips_isa::{AluOp, Amount, HiLo, ImmOp, LogicOp, Mnemonic, NonzeroReg, Plain, Reg, ShiftOp};
use words::{Sign, Width};

fn shift(op: ShiftOp, text: &[u8]) -> Option<Plain>
    ensures found { IfSome result (HasOperands (mnemonics.Shift op) text.now) }
    ensures only { (rd rt n : ℕ) → HasOperands (mnemonics.Shift op) text.now (plains.Shift op rd rt n)
        → result ≡ Some (plains.Shift op rd rt n) }
{
    let (rd, rt, amount) = three::<Reg, Reg, Amount>(text)?;
    Some(Plain::Shift { op, rd, rt, amount })
}

fn shift_by(op: ShiftOp, text: &[u8]) -> Option<Plain>
    ensures found { IfSome result (HasOperands (mnemonics.ShiftBy op) text.now) }
    ensures only { (rd rt rs : ℕ) → HasOperands (mnemonics.ShiftBy op) text.now (plains.ShiftBy op rd rt rs)
        → result ≡ Some (plains.ShiftBy op rd rt rs) }
{
    let (rd, rt, rs) = three::<Reg, Reg, Reg>(text)?;
    Some(Plain::ShiftBy { op, rd, rt, rs })
}

fn alu(op: AluOp, text: &[u8]) -> Option<Plain>
    ensures found { IfSome result (HasOperands (mnemonics.Alu op) text.now) }
    ensures only { (rd rs rt : ℕ) → HasOperands (mnemonics.Alu op) text.now (plains.Alu op rd rs rt)
        → result ≡ Some (plains.Alu op rd rs rt) }
{
    let (rd, rs, rt) = three::<Reg, Reg, Reg>(text)?;
    Some(Plain::Alu { op, rd, rs, rt })
}

fn imm(op: ImmOp, text: &[u8]) -> Option<Plain>
    ensures found { IfSome result (HasOperands (mnemonics.Imm op) text.now) }
    ensures only { (rt rs : ℕ) (n : ℤ) → HasOperands (mnemonics.Imm op) text.now (plains.Imm op rt rs n)
        → result ≡ Some (plains.Imm op rt rs n) }
{
    let (rt, rs, imm) = three::<Reg, Reg, i16>(text)?;
    Some(Plain::Imm { op, rt, rs, imm })
}

fn logic(op: LogicOp, text: &[u8]) -> Option<Plain>
    ensures found { IfSome result (HasOperands (mnemonics.Logic op) text.now) }
    ensures only { (rt rs n : ℕ) → HasOperands (mnemonics.Logic op) text.now (plains.Logic op rt rs n)
        → result ≡ Some (plains.Logic op rt rs n) }
{
    let (rt, rs, imm) = three::<Reg, Reg, u16>(text)?;
    Some(Plain::Logic { op, rt, rs, imm })
}

fn load_upper(text: &[u8]) -> Option<Plain>
    ensures found { IfSome result (HasOperands mnemonics.LoadUpper text.now) }
    ensures only { (rt n : ℕ) → HasOperands mnemonics.LoadUpper text.now (plains.LoadUpper rt n) → result ≡ Some (plains.LoadUpper rt n) }
{
    let (rt, imm) = two::<Reg, u16>(text)?;
    Some(Plain::LoadUpper { rt, imm })
}

fn move_from(place: HiLo, text: &[u8]) -> Option<Plain>
    ensures found { IfSome result (HasOperands (mnemonics.MoveFrom place) text.now) }
    ensures only { (rd : ℕ) → HasOperands (mnemonics.MoveFrom place) text.now (plains.MoveFrom place rd)
        → result ≡ Some (plains.MoveFrom place rd) }
{
    let rd = Reg::read(text)?;
    Some(Plain::MoveFrom { place, rd })
}

fn multiply(sign: Sign, text: &[u8]) -> Option<Plain>
    ensures found { IfSome result (HasOperands (mnemonics.Multiply sign) text.now) }
    ensures only { (rs rt : ℕ) → HasOperands (mnemonics.Multiply sign) text.now (plains.Multiply sign rs rt)
        → result ≡ Some (plains.Multiply sign rs rt) }
{
    let (rs, rt) = two::<Reg, Reg>(text)?;
    Some(Plain::Multiply { sign, rs, rt })
}

fn divide(sign: Sign, text: &[u8]) -> Option<Plain>
    ensures found { IfSome result (HasOperands (mnemonics.Divide sign) text.now) }
    ensures only { (rs rt : ℕ) → HasOperands (mnemonics.Divide sign) text.now (plains.Divide sign rs rt)
        → result ≡ Some (plains.Divide sign rs rt) }
{
    let (rs, rt) = two::<Reg, Reg>(text)?;
    Some(Plain::Divide { sign, rs, rt })
}

/// An address as a register and an offset from it, in bytes.
#[derive(Clone, Copy)]
struct Address {
    base: Reg,
    offset: i16,
}

impl Spelled for Address {
    ghost fits = { λ a. (a.base < 32) × FitsSigned w16 a.offset };

    ghost spelling = { λ a. address_text a.base a.offset };

    fn read(text: &[u8]) -> Option<Address> {
        let halves = cut(text, b'(')?;
        let offset = i16::read(halves.before)?;
        let rest = cut(halves.after, b')')?;
        let base = Reg::read(rest.before)?;
        if !rest.after.is_empty() {
            return None;
        }
        Some(Address { base, offset })
    }
}

fn load(width: Width, text: &[u8]) -> Option<Plain>
    ensures found { IfSome result (HasOperands (mnemonics.Load width) text.now) }
    ensures only { (rt base : ℕ) (n : ℤ) → HasOperands (mnemonics.Load width) text.now (plains.Load width rt base n)
        → result ≡ Some (plains.Load width rt base n) }
{
    let (rt, address) = two::<NonzeroReg, Address>(text)?;
    Some(Plain::Load {
        width,
        rt,
        base: address.base,
        offset: address.offset,
    })
}

fn store(width: Width, text: &[u8]) -> Option<Plain>
    ensures found { IfSome result (HasOperands (mnemonics.Store width) text.now) }
    ensures only { (rt base : ℕ) (n : ℤ) → HasOperands (mnemonics.Store width) text.now (plains.Store width rt base n)
        → result ≡ Some (plains.Store width rt base n) }
{
    let (rt, address) = two::<Reg, Address>(text)?;
    Some(Plain::Store {
        width,
        rt,
        base: address.base,
        offset: address.offset,
    })
}

/// Returns the instruction of this mnemonic with the operands that the text spells.
pub fn operands(name: Mnemonic, text: &[u8]) -> Option<Plain>
    ensures found { IfSome result (HasOperands name text.now) }
    ensures only { (i : Plain) → HasOperands name text.now i → result ≡ Some i }
{
    match name {
        Mnemonic::Shift(op) => shift(op, text),
        Mnemonic::ShiftBy(op) => shift_by(op, text),
        Mnemonic::Alu(op) => alu(op, text),
        Mnemonic::Imm(op) => imm(op, text),
        Mnemonic::Logic(op) => logic(op, text),
        Mnemonic::LoadUpper => load_upper(text),
        Mnemonic::MoveFrom(place) => move_from(place, text),
        Mnemonic::Multiply(sign) => multiply(sign, text),
        Mnemonic::Divide(sign) => divide(sign, text),
        Mnemonic::Load(width) => load(width, text),
        Mnemonic::Store(width) => store(width, text),
    }
}
