//! The syntax tree of a program, as C99 6.5 to 6.9 name its parts.

ghost use Rattle.std.specs.Prelude.{◌≡◌};
ghost use Rattle.c_tree.specs.Texts.{spelling_of};

use c_tokens::{Identifier, IntegerType, Literal};
use words::Width;

/// An operator before its operand: `-`, `+`, `~`, `!`.
#[derive(Clone, Copy, PartialEq, Eq)]
pub enum UnaryOp {
    Negate,
    Identity,
    Complement,
    Not,
}

/// An operator between its operands, in the order of C99 6.5.5 to 6.5.14.
#[derive(Clone, Copy, PartialEq, Eq)]
pub enum BinaryOp {
    Multiply,
    Divide,
    Remainder,
    Add,
    Subtract,
    ShiftLeft,
    ShiftRight,
    Less,
    Greater,
    LessOrEqual,
    GreaterOrEqual,
    Equal,
    NotEqual,
    BitAnd,
    BitXor,
    BitOr,
    LogicalAnd,
    LogicalOr,
}

/// An expression: a constant, a name, a name with an index, an operator with operands, or `c ? a : b`.
#[derive(Drop)]
pub enum Expression {
    Constant(Literal),
    Name(Identifier),
    Index(Box<(Identifier, Expression)>),
    Unary(UnaryOp, Box<Expression>),
    Binary(BinaryOp, Box<(Expression, Expression)>),
    Conditional(Box<(Expression, Expression, Expression)>),
}

/// A call: the name and its arguments.
#[derive(Drop)]
pub struct Call {
    pub name: Identifier,
    pub arguments: Vec<Expression>,
}

/// What a variable may be given: an expression or a call's result.
#[derive(Drop)]
pub enum Value {
    Plain(Expression),
    Called(Call),
}

/// A simple statement: `x = v`, `x[i] = e` or a call.
#[derive(Drop)]
pub enum Simple {
    Assign(Identifier, Value),
    AssignAt(Identifier, Expression, Expression),
    CallStatement(Call),
}

/// The three parts of a `for`, each of which may be missing.
#[derive(Drop)]
pub struct ForParts {
    pub first: Option<Simple>,
    pub test: Option<Expression>,
    pub last: Option<Simple>,
}

/// A statement. `Break`, `Continue` and `Return` have the offset of their keyword.
#[derive(Drop)]
#[cycle(statements)]
pub enum Statement {
    Empty,
    Block(Vec<Item>),
    If(Expression, Box<Statement>),
    IfElse(Expression, Box<Statement>, Box<Statement>),
    While(Expression, Box<Statement>),
    For(Box<ForParts>, Box<Statement>),
    Break(usize),
    Continue(usize),
    Return(usize, Option<Expression>),
    Simply(Simple),
}

/// A declaration of a local variable with its first value, if it has one, or a statement.
#[derive(Drop)]
#[cycle(statements)]
pub enum Item {
    Declare(IntegerType, Identifier, Option<Value>),
    Statement(Statement),
}

/// The first value of a global variable: a constant or its negation.
#[derive(Clone, Copy, PartialEq, Eq)]
pub struct Initial {
    pub negative: bool,
    pub literal: Literal,
}

/// A parameter of a function.
#[derive(Clone, Copy, PartialEq, Eq)]
pub struct Parameter {
    pub integer_type: IntegerType,
    pub name: Identifier,
}

/// A function with its body; `result` is `None` for `void`.
#[derive(Drop)]
pub struct FunctionDefinition {
    pub result: Option<IntegerType>,
    pub name: Identifier,
    pub parameters: Vec<Parameter>,
    pub body: Vec<Item>,
}

/// A declaration at file scope: a variable with its first value, an array, or a function. An array has the width of its elements, the
/// type that one of them is read as (`int` for bytes), and its length.
#[derive(Drop)]
pub enum Declaration {
    Variable(IntegerType, Identifier, Option<Initial>),
    Array(Width, IntegerType, Identifier, Literal),
    Function(FunctionDefinition),
}

/// A program: its declarations in order, and the text that its names stand in.
#[derive(Drop)]
pub struct Program {
    pub declarations: Vec<Declaration>,
    pub text: Vec<u8>,
}

impl Program {
    /// Returns the bytes of a name in the program's text.
    pub fn spelling(&self, name: Identifier) -> &[u8]
        ensures { result.now ≡ spelling_of self.now.text.items name.at name.length }
    {
        let text = self.text.as_slice();
        let (at, length) = (name.at as usize, name.length as usize);
        let after = if at < text.len() {
            &text[at..]
        } else {
            &text[text.len()..]
        };
        if length < after.len() {
            &after[..length]
        } else {
            after
        }
    }
}

const _: () = prove!(size_of::<Expression>() == 16);
