//! Typed trees, whose names are numbers.
ghost use Rattle.std.specs.Prelude.{◌≡◌};
ghost use Rattle.c_typed.specs.Shape.{typed_expression_of};
ghost use Rattle.c_typed.specs.Trees.{type_of};

use c_tokens::{IntegerType, Literal};
use c_tree::{BinaryOp, UnaryOp};
use words::Width;

/// A typed expression. A local, a global variable and an array stand as their numbers. An operator keeps the type that
/// it computes in: for a comparison that is the operands' common type. (rattle 13f keeps fields in their order: a type stands before a
/// number, and a node has 16 bytes.)
#[derive(Drop, PartialEq)]
pub enum TypedExpression {
    Constant(Literal),
    Local(IntegerType, usize),
    Global(IntegerType, usize),
    Element(IntegerType, Box<(usize, TypedExpression)>),
    Unary(UnaryOp, IntegerType, Box<TypedExpression>),
    Binary(BinaryOp, IntegerType, Box<(TypedExpression, TypedExpression)>),
    Conditional(IntegerType, Box<(TypedExpression, TypedExpression, TypedExpression)>),
}

/// Where a value is stored: a local of the function, or a global variable.
#[derive(Clone, Copy, PartialEq, Eq)]
pub enum Destination {
    Local(usize),
    Global(usize),
}

/// A statement whose names are numbers (C99 6.8). `Unset` is a declaration without a first value. `Call` has the place that its result goes
/// to, if it goes anywhere, the function and the arguments. `Loop` has its test, its last part and its body. A `while` has an empty last
/// part, and a `for` is the block of its first part and the loop.
#[derive(Drop, PartialEq)]
pub enum TypedStatement {
    Empty,
    Block(Vec<TypedStatement>),
    Unset(usize),
    Assign(Destination, TypedExpression),
    Store(usize, TypedExpression, TypedExpression),
    Call(Option<Destination>, usize, Vec<TypedExpression>),
    Output(TypedExpression),
    If(TypedExpression, Box<TypedStatement>, Box<TypedStatement>),
    Loop(TypedExpression, Box<TypedStatement>, Box<TypedStatement>),
    Break,
    Continue,
    Return(Option<TypedExpression>),
}

/// A function: the type of its result, if it has one, the numbers of its parameters and of all its locals, and its body. Parameters are the
/// first locals. The last statement is the return at the end brace of a function without result, or the `return 0` at that of `main`.
/// Control never leaves the body otherwise.
#[derive(Drop)]
pub struct Function {
    pub result: Option<IntegerType>,
    pub parameters: usize,
    pub locals: usize,
    pub body: Vec<TypedStatement>,
}

/// A global variable or array: the width and the number of its elements, 1 for a variable. Each keeps at first what its width lets it of
/// the word.
#[derive(Clone, Copy, PartialEq, Eq)]
pub struct Global {
    pub width: Width,
    pub length: usize,
    pub first: u32,
}

impl TypedExpression {
    /// Returns the type of the expression's value (C99 6.5): `int` for comparisons, `!`, `&&` and `||`.
    pub fn integer_type(&self) -> IntegerType
        ensures { result ≡ type_of (typed_expression_of self.now) }
    {
        match self {
            TypedExpression::Constant(literal) => literal.integer_type,
            TypedExpression::Local(integer_type, _) => *integer_type,
            TypedExpression::Global(integer_type, _) => *integer_type,
            TypedExpression::Element(integer_type, _) => *integer_type,
            TypedExpression::Unary(_, integer_type, _) => *integer_type,
            TypedExpression::Binary(operator, integer_type, _) => match operator {
                BinaryOp::Less
                | BinaryOp::Greater
                | BinaryOp::LessOrEqual
                | BinaryOp::GreaterOrEqual
                | BinaryOp::Equal
                | BinaryOp::NotEqual
                | BinaryOp::LogicalAnd
                | BinaryOp::LogicalOr => IntegerType::SignedInt,
                _ => *integer_type,
            },
            TypedExpression::Conditional(integer_type, _) => *integer_type,
        }
    }
}

const _: () = prove!(size_of::<TypedExpression>() == 16);
