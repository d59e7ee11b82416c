//! Which operation of RTL computes an operator of C.
ghost use Rattle.std.specs.Prelude.{◌≡◌, true, false, is_some, IfSome};
ghost use Rattle.rtl_emit.specs.Sizes.{has_contrary, is_logical, is_by_branches};
ghost use Rattle.c_typed.specs.Values.{sign_of};
ghost use Rattle.rtl_emit.specs.Operations.{by_sign, inst_of, IsForm, IsPrefix, ComputesContrary};

use c_tokens::IntegerType;
use c_tree::{BinaryOp, UnaryOp};
use rtl::{Op, RInst, Register};

// An operator of RTL at two words, or at the same words turned round.
#[derive(Clone, Copy)]
pub(crate) struct Operation {
    pub(crate) op: Op,
    pub(crate) turned: bool,
}

// An operator of RTL whose other word is a constant.
#[derive(Clone, Copy)]
pub(crate) struct Combination {
    pub(crate) operation: Operation,
    pub(crate) word: u32,
}

// How a binary operator of C is computed: `&&`, for which both operands have to hold, and `||` by branches, any other by one operation.
#[derive(Clone, Copy)]
pub(crate) enum Form {
    Logical { both: bool },
    Plain(Operation),
}

/// Returns the operator at the words as they stand.
pub(crate) fn straight_op(op: Op) -> Operation
    ensures { result ≡ record { op = op; turned = false } }
{
    Operation { op, turned: false }
}

/// Returns the operator at the words turned round.
pub(crate) fn turned_op(op: Op) -> Operation
    ensures { result ≡ record { op = op; turned = true } }
{
    Operation { op, turned: true }
}

impl Operation {
    /// Returns the instruction that puts the result at two registers into a third.
    pub(crate) fn instruction(self, to: Register, left: Register, right: Register) -> RInst
        ensures { result ≡ inst_of self to left right }
    {
        if self.turned {
            RInst::Bin(self.op, to, right, left)
        } else {
            RInst::Bin(self.op, to, left, right)
        }
    }
}

/// Returns one operator for words read as signed numbers, another for words as they are.
fn by_type(integer_type: IntegerType, signed: Op, unsigned: Op) -> Op
    ensures { result ≡ by_sign (sign_of integer_type) signed unsigned }
{
    match integer_type {
        IntegerType::SignedInt => signed,
        IntegerType::UnsignedInt => unsigned,
    }
}

/// Returns how an operator that computes in a type is computed.
pub(crate) fn form_of(operator: BinaryOp, integer_type: IntegerType) -> Form
    ensures form { IsForm operator (sign_of integer_type) result }
    ensures branches { is_logical operator ≡ is_by_branches result }
{
    match operator {
        BinaryOp::Multiply => Form::Plain(straight_op(Op::Mul)),
        BinaryOp::Divide => Form::Plain(straight_op(by_type(integer_type, Op::DivS, Op::DivU))),
        BinaryOp::Remainder => Form::Plain(straight_op(by_type(integer_type, Op::RemS, Op::RemU))),
        BinaryOp::Add => Form::Plain(straight_op(Op::Add)),
        BinaryOp::Subtract => Form::Plain(straight_op(Op::Sub)),
        BinaryOp::ShiftLeft => Form::Plain(straight_op(Op::Shl)),
        BinaryOp::ShiftRight => Form::Plain(straight_op(by_type(integer_type, Op::ShrS, Op::ShrU))),
        BinaryOp::Less => Form::Plain(straight_op(by_type(integer_type, Op::LtS, Op::LtU))),
        BinaryOp::Greater => Form::Plain(turned_op(by_type(integer_type, Op::LtS, Op::LtU))),
        BinaryOp::LessOrEqual => Form::Plain(straight_op(by_type(integer_type, Op::LeS, Op::LeU))),
        BinaryOp::GreaterOrEqual => Form::Plain(turned_op(by_type(integer_type, Op::LeS, Op::LeU))),
        BinaryOp::Equal => Form::Plain(straight_op(Op::Eq)),
        BinaryOp::NotEqual => Form::Plain(straight_op(Op::Ne)),
        BinaryOp::BitAnd => Form::Plain(straight_op(Op::And)),
        BinaryOp::BitXor => Form::Plain(straight_op(Op::Xor)),
        BinaryOp::BitOr => Form::Plain(straight_op(Op::Or)),
        BinaryOp::LogicalAnd => Form::Logical { both: true },
        BinaryOp::LogicalOr => Form::Logical { both: false },
    }
}

// How a prefix operator is computed: its value is its operand's, or branches tell it, or one operation computes it.
#[derive(Clone, Copy)]
pub(crate) enum Prefix {
    Same,
    Branches,
    Combined(Combination),
}

/// Returns how a prefix operator is computed at an operand whose own value may be told by branches.
pub(crate) fn prefix_of(operator: UnaryOp, by_branches: bool) -> Prefix
    ensures { IsPrefix operator by_branches result }
{
    match operator {
        UnaryOp::Identity => Prefix::Same,
        UnaryOp::Negate => Prefix::Combined(Combination {
            operation: turned_op(Op::Sub),
            word: 0,
        }),
        UnaryOp::Complement => Prefix::Combined(Combination {
            operation: straight_op(Op::Xor),
            word: u32::MAX,
        }),
        UnaryOp::Not => {
            if by_branches {
                Prefix::Branches
            } else {
                Prefix::Combined(Combination {
                    operation: straight_op(Op::Eq),
                    word: 0,
                })
            }
        }
    }
}

/// Returns the operation that computes the contrary of a comparison; None for other operators.
pub(crate) fn contrary_of(operator: BinaryOp, integer_type: IntegerType) -> Option<Operation>
    ensures is { is_some result ≡ has_contrary operator }
    ensures computes { IfSome result (λ op. ComputesContrary operator (sign_of integer_type) op) }
{
    match operator {
        BinaryOp::Less => Some(turned_op(by_type(integer_type, Op::LeS, Op::LeU))),
        BinaryOp::Greater => Some(straight_op(by_type(integer_type, Op::LeS, Op::LeU))),
        BinaryOp::LessOrEqual => Some(turned_op(by_type(integer_type, Op::LtS, Op::LtU))),
        BinaryOp::GreaterOrEqual => Some(straight_op(by_type(integer_type, Op::LtS, Op::LtU))),
        BinaryOp::Equal => Some(straight_op(Op::Ne)),
        BinaryOp::NotEqual => Some(straight_op(Op::Eq)),
        _ => None,
    }
}
