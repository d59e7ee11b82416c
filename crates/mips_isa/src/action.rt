//! What each instruction does, one of eight kinds of action.
ghost use Rattle.std.specs.Prelude.{◌≡◌, ◌*◌, ◌<◌, ◌||◌, ◌==◌};
ghost use Rattle.mips_isa.specs.declared.action.Operand.TheVariants.{Fixed, Held};
ghost use Rattle.mips_isa.specs.declared.action.Action.TheVariants.{Computes};
ghost use Rattle.mips_isa.specs.Actions.{action_of, sign_extension, shift_operator, alu_operator, imm_operator, logic_operator};
ghost use Rattle.mips_isa.specs.Actions.{product_high, product_low, quotient_operator, remainder_operator, operand_touches, touches, reads};
ghost use Rattle.mips_isa.specs.Actions.{writes, is_load, is_move, is_product};

use crate::inst::{AluOp, HiLo, ImmOp, LogicOp, Plain, ShiftOp};
use crate::reg::{NonzeroReg, Reg};
use words::{Operator, Sign, Width};

/// A register, or a word of the instruction itself.
#[derive(Clone, Copy)]
pub enum Operand {
    Held(Reg),
    Fixed(u32),
}

/// What an instruction does, in one of few ways; the layers above go by these alone. Offsets are the
/// instruction's, extended to a word; an address is the base's word plus the offset, modulo 2^32.
#[derive(Clone, Copy)]
pub enum Action {
    /// `d` becomes the operator's value at `a` and `b`.
    Computes {
        d: Reg,
        op: Operator,
        a: Reg,
        b: Operand,
    },
    /// `d` becomes the word.
    Sets {
        d: Reg,
        word: u32,
    },
    /// `d` becomes the word in memory, or the byte, extended with zeros.
    Loads {
        width: Width,
        d: NonzeroReg,
        base: Reg,
        offset: u32,
    },
    /// The word in memory becomes `r`, or the byte its low eight bits.
    Stores {
        width: Width,
        r: Reg,
        base: Reg,
        offset: u32,
    },
    /// HI and LO become the halves of the product.
    Multiplies {
        sign: Sign,
        a: Reg,
        b: Reg,
    },
    /// HI and LO become remainder and quotient.
    Divides {
        sign: Sign,
        a: Reg,
        b: Reg,
    },
    /// `d` becomes HI.
    MovesHigh {
        d: Reg,
    },
    /// `d` becomes LO.
    MovesLow {
        d: Reg,
    },
}

impl ShiftOp {
    fn operator(self) -> Operator
        ensures { result ≡ shift_operator self }
    {
        match self {
            ShiftOp::Sll => Operator::Sll,
            ShiftOp::Srl => Operator::Srl,
            ShiftOp::Sra => Operator::Sra,
        }
    }
}

impl AluOp {
    fn operator(self) -> Operator
        ensures { result ≡ alu_operator self }
    {
        match self {
            AluOp::Addu => Operator::Addu,
            AluOp::Subu => Operator::Subu,
            AluOp::And => Operator::And,
            AluOp::Or => Operator::Or,
            AluOp::Xor => Operator::Xor,
            AluOp::Nor => Operator::Nor,
            AluOp::Slt => Operator::Slt,
            AluOp::Sltu => Operator::Sltu,
        }
    }
}

impl ImmOp {
    fn operator(self) -> Operator
        ensures { result ≡ imm_operator self }
    {
        match self {
            ImmOp::Addiu => Operator::Addu,
            ImmOp::Slti => Operator::Slt,
            ImmOp::Sltiu => Operator::Sltu,
        }
    }
}

impl LogicOp {
    fn operator(self) -> Operator
        ensures { result ≡ logic_operator self }
    {
        match self {
            LogicOp::Andi => Operator::And,
            LogicOp::Ori => Operator::Or,
            LogicOp::Xori => Operator::Xor,
        }
    }
}

fn extend(imm: i16) -> u32
    ensures { result ≡ sign_extension imm }
{
    i32::from(imm).cast_unsigned()
}

fn with_register(d: Reg, op: Operator, a: Reg, b: Reg) -> Action
    ensures { result ≡ Computes d op a (Held b) }
{
    Action::Computes {
        d,
        op,
        a,
        b: Operand::Held(b),
    }
}

fn with_word(d: Reg, op: Operator, a: Reg, word: u32) -> Action
    ensures { result ≡ Computes d op a (Fixed word) }
{
    Action::Computes {
        d,
        op,
        a,
        b: Operand::Fixed(word),
    }
}

impl Plain {
    /// Returns what the instruction does.
    pub fn action(&self) -> Action
        ensures { result ≡ action_of self.now }
    {
        match *self {
            Plain::Shift { op, rd, rt, amount } => {
                with_word(rd, op.operator(), rt, u32::from(amount.bits()))
            }
            Plain::ShiftBy { op, rd, rt, rs } => with_register(rd, op.operator(), rt, rs),
            Plain::Alu { op, rd, rs, rt } => with_register(rd, op.operator(), rs, rt),
            Plain::Imm { op, rt, rs, imm } => with_word(rt, op.operator(), rs, extend(imm)),
            Plain::Logic { op, rt, rs, imm } => with_word(rt, op.operator(), rs, u32::from(imm)),
            Plain::LoadUpper { rt, imm } => Action::Sets {
                d: rt,
                word: u32::from(imm) << 16,
            },
            Plain::MoveFrom { place, rd } => match place {
                HiLo::Hi => Action::MovesHigh { d: rd },
                HiLo::Lo => Action::MovesLow { d: rd },
            },
            Plain::Multiply { sign, rs, rt } => Action::Multiplies { sign, a: rs, b: rt },
            Plain::Divide { sign, rs, rt } => Action::Divides { sign, a: rs, b: rt },
            Plain::Load {
                width,
                rt,
                base,
                offset,
            } => Action::Loads {
                width,
                d: rt,
                base,
                offset: extend(offset),
            },
            Plain::Store {
                width,
                rt,
                base,
                offset,
            } => Action::Stores {
                width,
                r: rt,
                base,
                offset: extend(offset),
            },
        }
    }

    /// Reports whether it reads the register.
    pub fn reads(&self, r: Reg) -> bool
        ensures { result ≡ reads (action_of self.now) r }
    {
        self.action().reads(r)
    }

    /// Reports whether it writes the register.
    pub fn writes(&self, r: Reg) -> bool
        ensures { result ≡ writes (action_of self.now) r }
    {
        self.action().writes(r)
    }
}

/// Returns the operator whose value a product leaves in HI.
pub fn product_high(sign: Sign) -> Operator
    ensures { result ≡ product_high sign }
{
    match sign {
        Sign::Signed => Operator::MultHigh,
        Sign::Unsigned => Operator::MultuHigh,
    }
}

/// Returns the operator whose value a product leaves in LO.
pub fn product_low(sign: Sign) -> Operator
    ensures { result ≡ product_low sign }
{
    match sign {
        Sign::Signed => Operator::MultLow,
        Sign::Unsigned => Operator::MultuLow,
    }
}

/// Returns the operator whose value a division leaves in LO.
pub fn quotient_operator(sign: Sign) -> Operator
    ensures { result ≡ quotient_operator sign }
{
    match sign {
        Sign::Signed => Operator::DivQuotient,
        Sign::Unsigned => Operator::DivuQuotient,
    }
}

/// Returns the operator whose value a division leaves in HI.
pub fn remainder_operator(sign: Sign) -> Operator
    ensures { result ≡ remainder_operator sign }
{
    match sign {
        Sign::Signed => Operator::DivRemainder,
        Sign::Unsigned => Operator::DivuRemainder,
    }
}

impl Operand {
    /// Reports whether it is this register.
    pub fn touches(&self, r: Reg) -> bool
        ensures { result ≡ operand_touches self.now r }
    {
        match *self {
            Operand::Held(a) => a == r,
            Operand::Fixed(_) => false,
        }
    }
}

impl Action {
    /// Reports whether it reads or writes the register.
    pub fn touches(&self, r: Reg) -> bool
        ensures { result ≡ touches self.now r }
    {
        self.writes(r) || self.reads(r)
    }

    /// Reports whether it reads the register.
    pub fn reads(&self, r: Reg) -> bool
        ensures { result ≡ reads self.now r }
    {
        match *self {
            Action::Computes { a, b, .. } => a == r || b.touches(r),
            Action::Loads { base, .. } => base == r,
            Action::Stores { r: q, base, .. } => q == r || base == r,
            Action::Multiplies { a, b, .. } => a == r || b == r,
            Action::Divides { a, b, .. } => a == r || b == r,
            Action::Sets { .. } | Action::MovesHigh { .. } | Action::MovesLow { .. } => false,
        }
    }

    /// Reports whether it writes the register.
    pub fn writes(&self, r: Reg) -> bool
        ensures { result ≡ writes self.now r }
    {
        match *self {
            Action::Computes { d, .. } => d == r,
            Action::Sets { d, .. } => d == r,
            Action::Loads { d, .. } => d.reg() == r,
            Action::MovesHigh { d } => d == r,
            Action::MovesLow { d } => d == r,
            Action::Stores { .. } | Action::Multiplies { .. } | Action::Divides { .. } => false,
        }
    }

    /// Reports whether it loads a register.
    pub fn is_load(&self) -> bool
        ensures { result ≡ is_load self.now }
    {
        matches!(self, Action::Loads { .. })
    }

    /// Reports whether it reads HI or LO.
    pub fn is_move(&self) -> bool
        ensures { result ≡ is_move self.now }
    {
        matches!(self, Action::MovesHigh { .. } | Action::MovesLow { .. })
    }

    /// Reports whether it writes HI and LO.
    pub fn is_product(&self) -> bool
        ensures { result ≡ is_product self.now }
    {
        matches!(self, Action::Multiplies { .. } | Action::Divides { .. })
    }
}
