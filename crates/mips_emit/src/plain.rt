//! Instructions, from their parts.

ghost use Rattle.std.specs.Prelude.{◌≡◌, ◌/◌, ◌%◌, true};
ghost use Rattle.mips_isa.specs.declared.inst.Plain.TheVariants.{Shift, Alu, Imm, Logic, LoadUpper};
ghost use Rattle.mips_emit.specs.Code.{is_small, half};

use mips_isa::{AluOp, Amount, ImmOp, LogicOp, Plain, Reg, ShiftOp};

/// Returns an instruction on two registers.
pub(crate) fn alu(op: AluOp, rd: Reg, rs: Reg, rt: Reg) -> Plain
    ensures { result ≡ Alu op rd rs rt }
{
    Plain::Alu { op, rd, rs, rt }
}

/// Returns a shift by a known amount.
pub(crate) fn shift(op: ShiftOp, rd: Reg, rt: Reg, word: u32) -> Plain
    ensures { result ≡ Shift op rd rt (word % 32) }
{
    Plain::Shift {
        op,
        rd,
        rt,
        amount: Amount::masked((word % 32) as u8),
    }
}

/// Returns an instruction with a word below 2^16.
pub(crate) fn logic(op: LogicOp, rt: Reg, rs: Reg, imm: u16) -> Plain
    ensures { result ≡ Logic op rt rs imm }
{
    Plain::Logic { op, rt, rs, imm }
}

/// Returns the load of a word's upper half.
pub(crate) fn load_upper(rt: Reg, word: u32) -> Plain
    ensures { result ≡ LoadUpper rt (word / 65536 % 65536) }
{
    Plain::LoadUpper {
        rt,
        imm: (word / 65_536 % 65_536) as u16,
    }
}

/// Reports whether a word fits the 16 bits of an instruction, signed.
pub(crate) fn is_small(word: u32) -> bool
    ensures { result ≡ is_small word }
{
    word < 32_768 || 4_294_934_527 < word
}

/// Returns an instruction with such a word.
pub(crate) fn imm(op: ImmOp, rt: Reg, rs: Reg, word: u32) -> Plain
    requires { is_small word ≡ true }
    ensures { result ≡ Imm op rt rs (half word) }
{
    let imm = if word < 32_768 {
        word as i16
    } else {
        -1 - (4_294_967_295 - word) as i16
    };
    Plain::Imm { op, rt, rs, imm }
}
