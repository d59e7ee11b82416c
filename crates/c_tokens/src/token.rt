/// A name where it stands in a text: its offset and its length, in bytes.
#[derive(Clone, Copy, PartialEq, Eq)]
pub struct Identifier {
    pub at: u32,
    pub length: u32,
}

/// The type of a constant or a variable: `int` or `unsigned int`.
#[derive(Clone, Copy, PartialEq, Eq)]
pub enum IntegerType {
    SignedInt,
    UnsignedInt,
}

/// The value of a constant, and its type.
#[derive(Clone, Copy, PartialEq, Eq)]
pub struct Literal {
    pub value: u32,
    pub integer_type: IntegerType,
}

/// A keyword that leaves a place in the tree.
#[derive(Clone, Copy, PartialEq, Eq)]
pub enum JumpWord {
    Break,
    Continue,
    Return,
}

/// A keyword, an operator or a bracket without anything of its own.
#[derive(Clone, Copy, PartialEq, Eq)]
pub enum Mark {
    Int,
    Unsigned,
    Char,
    Void,
    If,
    Else,
    While,
    For,
    Semicolon,
    Comma,
    LeftBrace,
    RightBrace,
    LeftParen,
    RightParen,
    LeftBracket,
    RightBracket,
    Assign,
    Question,
    Colon,
    Plus,
    Minus,
    Star,
    Slash,
    Percent,
    Bang,
    Tilde,
    BarBar,
    AndAnd,
    Bar,
    Caret,
    Ampersand,
    EqualEqual,
    BangEqual,
    LessSign,
    GreaterSign,
    LessEqual,
    GreaterEqual,
    LessLess,
    GreaterGreater,
}

/// A token: a name, a constant, `break`, `continue` or `return` with its offset, or a mark.
#[derive(Clone, Copy)]
pub enum Token {
    Name(Identifier),
    Constant(Literal),
    Jump(JumpWord, u32),
    The(Mark),
}
