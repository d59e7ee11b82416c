//! What is said of the first token that can't stand.

use crate::headers::{NO_CASTS, type_hint, word_hint};
use crate::missing::{hint_brace, hint_semicolon};
use crate::near_names::nearest_keyword;
use crate::source::{Source, TYPES, after, before};
use Fact::{
    AfterAssign, AfterCall, AfterDeclared, AfterName, AfterNoOperand, AfterOperand, AfterUnknown,
    AtFileScope, Before, BeginsWithName, BeginsWithReturn, BeginsWithType, InBrackets, InFor,
    InFunction, InNoBrackets, InNoParentheses, InParentheses, Is, IsConstant, IsFirst, IsName,
    IsOperator, IsPointerSign, IsSecond, IsType, NameBefore, Next,
};
use c_tokens::{JumpWord, Mark, Token};
use std::alloc::{AllocError, Global};
use text::Said;

/// What can be found of a token that can't stand there.
enum Fact {
    Is(Mark),
    IsName,
    IsConstant,
    IsType,
    IsOperator,
    /// In C it could make or follow a pointer.
    IsPointerSign,
    /// This stands so many tokens before it, or a name.
    Before(usize, Mark),
    NameBefore(usize),
    /// This is the next token.
    Next(Mark),
    AfterName,
    /// What stands before it is declared nowhere.
    AfterUnknown,
    /// A name stands before it that is declared there.
    AfterDeclared,
    /// Just before it a call ends.
    AfterCall,
    /// An operand ends just before it, or none does.
    AfterOperand,
    AfterNoOperand,
    /// An `=` stands before it in its declaration.
    AfterAssign,
    /// It is the first token of its statement or declaration, or the second one.
    IsFirst,
    IsSecond,
    /// What its statement or declaration begins with.
    BeginsWithName,
    BeginsWithType,
    BeginsWithReturn,
    InFunction,
    /// It stands outside of functions.
    AtFileScope,
    InParentheses,
    InNoParentheses,
    InBrackets,
    InNoBrackets,
    /// In the parentheses of a `for`.
    InFor,
}

#[rattlefmt::skip]
const OPERATORS: &[Mark] = &[
    Mark::Question, Mark::BarBar, Mark::AndAnd, Mark::Bar, Mark::Caret, Mark::Ampersand, Mark::EqualEqual, Mark::BangEqual,
    Mark::LessSign, Mark::GreaterSign, Mark::LessEqual, Mark::GreaterEqual, Mark::LessLess, Mark::GreaterGreater,
    Mark::Plus, Mark::Minus, Mark::Star, Mark::Slash, Mark::Percent,
];

const POINTER_SIGNS: &[Mark] = &[Mark::Star, Mark::Ampersand];

const CALL: &str = "a call stands alone or behind 'name =': int r; r = f(1); out(r);";

const CHAR: &str = "write int; an array of bytes stands at file scope: unsigned char line[80];";

const NEEDS_BRACES: &str = "a declaration stands in a block: put braces around it";

const PARAMETER: &str = "each parameter has its type and its name: int f(int a, int b) { .. }";

const ARRAY_VALUES: &str = "an array begins with 0: write a[0] = 1; a[1] = 2; in main";

const ARRAY_LENGTH: &str = "an array's length is a number: int a[16];";

const COMPARES: &str = "'==' compares: write '=' to assign";

const COMPARES_ALONE: &str = "'==' compares";

const VOID: &str = "a variable is int or unsigned";

const FOR: &str = "a for has two ';': for (i = 0; i < 3; i = i + 1)";

const ONE_INDEX: &str = "an array has one index: write a[8 * i + j]";

const STATEMENT: &str = "a statement is an assignment or a call: x = x + 1; f(x);";

/// What is written in place of signs and words that stand together and mean something elsewhere. The first hint holds whose facts hold, of
/// these and then of the others.
#[rattlefmt::skip]
const PAIR_HINTS: &[(&[Fact], &str)] = &[
    (&[Is(Mark::Star), Next(Mark::Slash)], "this '*/' ends no comment: comments don't nest"),
    (&[Is(Mark::Star), Before(1, Mark::Star)], "there is no power: multiply"),
    (&[Is(Mark::Assign), Next(Mark::LessSign)], "write <="),
    (&[Is(Mark::Assign), Next(Mark::GreaterSign)], "write >="),
    (&[Is(Mark::Assign), Next(Mark::Bang)], "write !="),
    (&[Is(Mark::Assign), Before(1, Mark::EqualEqual)], COMPARES_ALONE),
    (&[Is(Mark::GreaterSign), Before(1, Mark::LessSign)], "write !="),
    (&[Is(Mark::Colon), Next(Mark::Assign)], "write = to assign"),
    (&[Is(Mark::LeftParen), Before(1, Mark::Else)], "write else if (..)"),
    (&[Is(Mark::Unsigned), Before(1, Mark::Int)], "write unsigned"),
    (&[Is(Mark::Semicolon), Before(2, Mark::LeftParen), Before(3, Mark::For)], "what a for begins with is an assignment, or nothing: for (; i < 3; i = i + 1)"),
    (&[Is(Mark::Semicolon), InFor], FOR),
    (&[Is(Mark::RightParen), InFor], FOR),
    (&[IsType, Before(1, Mark::LeftParen), NameBefore(2), InFunction], "what a call passes has no type: f() or f(1)"),
    (&[AtFileScope, IsFirst, Is(Mark::Semicolon), Before(1, Mark::RightBrace)], "leave out the ';' behind a function"),
    (&[AtFileScope, Is(Mark::Semicolon), Before(1, Mark::RightParen)], "there are no prototypes: put the function before its callers"),
    (&[AtFileScope, Is(Mark::Char), InParentheses], "a parameter is int or unsigned, and main is int main(void)"),
    (&[Is(Mark::Comma), InBrackets], ONE_INDEX),
];

/// What is written in place of calls that the subset leaves out.
#[rattlefmt::skip]
const CALL_HINTS: &[(&[Fact], &str)] = &[
    (&[InFunction, Is(Mark::LeftParen), AfterDeclared],
        "a local has its value behind '=': int x = 1;"),
    (&[InFunction, Is(Mark::LeftParen), AfterName, BeginsWithReturn],
        "a call stands alone or behind 'name =': int r; r = f(1); return r;"),
    (&[InFunction, Is(Mark::LeftParen), AfterName, Before(2, Mark::Assign), Before(3, Mark::RightBracket)],
        "a call stands alone or behind 'name =': int r; r = f(1); a[0] = r;"),
    (&[InFunction, Is(Mark::LeftParen), AfterName], CALL),
];

/// What is written in place of the rest that C has and the subset leaves out. (rattle 13f: `--backend rattle` has no room for all
/// hints in one function)
#[rattlefmt::skip]
const HINTS: &[(&[Fact], &str)] = &[
    (&[InFunction, IsOperator, AfterCall], CALL),
    (&[IsPointerSign, AfterNoOperand], "there are no pointers: write an index into an array at file scope"),
    (&[IsType, Before(1, Mark::LeftParen), Before(2, Mark::For)], "declare it before the loop: int i; for (i = 0; i < 3; i = i + 1)"),
    (&[IsType, Before(1, Mark::LeftParen), InFunction], NO_CASTS),
    (&[Is(Mark::Char)], CHAR),
    (&[InFunction, IsType, Before(1, Mark::RightParen)], NEEDS_BRACES),
    (&[InFunction, IsType, Before(1, Mark::Else)], NEEDS_BRACES),
    (&[Is(Mark::Void)], VOID),
    (&[Is(Mark::Comma), BeginsWithType, InNoParentheses], "one declaration has one name: int i; int j;"),
    (&[Is(Mark::Comma), InFunction, AfterOperand], "there is no comma operator: write two statements"),
    (&[Is(Mark::Comma), AtFileScope], PARAMETER),
    (&[Is(Mark::LeftBracket), Before(1, Mark::RightBracket)], ONE_INDEX),
    (&[Is(Mark::LeftBracket), AfterDeclared, InFunction], "an array stands at file scope: put its declaration before the function"),
    (&[Is(Mark::LeftBracket), AfterDeclared, InParentheses], "an array can't be passed: pass an index into one at file scope"),
    (&[Before(1, Mark::LeftBracket), BeginsWithType, AtFileScope], ARRAY_LENGTH),
    (&[IsOperator, Before(2, Mark::LeftBracket), BeginsWithType, AtFileScope], ARRAY_LENGTH),
    (&[Is(Mark::EqualEqual), AfterName], COMPARES),
    (&[Is(Mark::EqualEqual), Before(1, Mark::RightBracket)], COMPARES),
    (&[Is(Mark::LeftBrace), Before(1, Mark::Assign)], ARRAY_VALUES),
    (&[Is(Mark::Assign), Before(1, Mark::RightBracket), BeginsWithType], ARRAY_VALUES),
    (&[Is(Mark::Assign), AfterOperand, InFunction, InNoBrackets, InParentheses], "'=' assigns and is a statement of its own: write '==' to compare"),
    (&[Is(Mark::Assign), AfterOperand, InFunction, InNoBrackets], "an assignment is a statement of its own: b = c; a = b;"),
    (&[AtFileScope, Is(Mark::Semicolon), Before(2, Mark::Void)], VOID),
    (&[AtFileScope, BeginsWithType, Before(2, Mark::Char)], CHAR),
    (&[AtFileScope, BeginsWithType, AfterAssign], "a variable at file scope begins with a number: compute its value in main"),
    (&[AtFileScope, Is(Mark::RightParen), Before(1, Mark::LeftParen)], "write (void) where there are no parameters"),
    (&[AtFileScope, InParentheses], PARAMETER),
    (&[Is(Mark::Else)], "put the statements between if and else into braces"),
    (&[AtFileScope, Is(Mark::RightBrace)], "it closes nothing: a '{' before it is missing, or this is one too many"),
    (&[Is(Mark::Colon), IsSecond, BeginsWithName], "there are no labels: write a loop with break"),
    (&[AtFileScope, IsFirst], "a declaration begins with int, unsigned or void; statements stand in functions"),
    (&[IsFirst, IsConstant], STATEMENT),
    (&[IsFirst, Is(Mark::LeftParen)], STATEMENT),
    (&[IsSecond, BeginsWithName, IsName, AfterUnknown], "the types are int and unsigned"),
    (&[IsSecond, BeginsWithName, Is(Mark::Semicolon)], STATEMENT),
    (&[IsSecond, BeginsWithName, IsOperator], STATEMENT),
];

/// Where a token stands that can't stand there.
#[derive(Clone, Copy)]
struct Found<'s, 't> {
    source: &'s Source<'t>,
    token: usize,
    /// The first token of its statement or declaration.
    first: usize,
}

impl<'s, 't> Found<'s, 't> {
    /// Reports whether an operand ends just before it.
    fn is_after_operand(&self) -> bool {
        match self.source.token(before(self.token, 1)) {
            Some(Token::Name(_) | Token::Constant(_)) => true,
            Some(Token::The(mark)) => mark == Mark::RightParen || mark == Mark::RightBracket,
            _ => false,
        }
    }

    /// Reports whether it stands in brackets that this one opens.
    fn is_in(&self, opening: Mark) -> bool {
        self.source.open_before(self.token, opening).is_some()
    }

    fn holds(&self, fact: &Fact) -> bool {
        let source = self.source;
        let last = before(self.token, 1);
        let first = source.token(self.first);
        match fact {
            Is(mark) => source.is(self.token, *mark),
            IsName => source.is_name(self.token),
            IsConstant => matches!(source.token(self.token), Some(Token::Constant(_))),
            IsType => source.is_one(self.token, TYPES),
            IsOperator => source.is_one(self.token, OPERATORS),
            IsPointerSign => source.is_one(self.token, POINTER_SIGNS),
            Before(n, mark) => source.is(before(self.token, *n), *mark),
            NameBefore(n) => source.is_name(before(self.token, *n)),
            Next(mark) => source.is(after(self.token, 1), *mark),
            AfterName => source.is_name(last),
            AfterUnknown => source.declaration_of(source.spelling(last)).is_none(),
            AfterDeclared => source.is_declared(last),
            AfterCall => {
                source.is(last, Mark::RightParen)
                    && source
                        .open_before(last, Mark::LeftParen)
                        .is_some_and(|open| source.is_name(before(open, 1)))
            }
            AfterOperand => self.is_after_operand(),
            AfterNoOperand => !self.is_after_operand(),
            AfterAssign => (self.first..self.token).any(|k| source.is(k, Mark::Assign)),
            IsFirst => self.token == self.first,
            IsSecond => last == self.first,
            BeginsWithName => source.is_name(self.first),
            BeginsWithType => source.is_one(self.first, TYPES),
            BeginsWithReturn => matches!(first, Some(Token::Jump(JumpWord::Return, _))),
            InFunction => self.is_in(Mark::LeftBrace),
            AtFileScope => !self.is_in(Mark::LeftBrace),
            InParentheses => self.is_in(Mark::LeftParen),
            InNoParentheses => !self.is_in(Mark::LeftParen),
            InBrackets => self.is_in(Mark::LeftBracket),
            InNoBrackets => !self.is_in(Mark::LeftBracket),
            InFor => source
                .open_before(self.token, Mark::LeftParen)
                .is_some_and(|open| source.is(before(open, 1), Mark::For)),
        }
    }

    /// Returns the first hint whose facts hold, or none.
    fn first_hint(&self, hints: &[(&[Fact], &'static str)]) -> &'static str {
        for (facts, hint) in hints {
            if facts.iter().all(|fact| self.holds(fact)) {
                return *hint;
            }
        }
        ""
    }
}

/// Returns the first hint about signs that stand together or about a call whose facts hold, or none.
fn call_hint(found: &Found<'_, '_>) -> &'static str {
    match found.first_hint(PAIR_HINTS) {
        "" => found.first_hint(CALL_HINTS),
        hint => hint,
    }
}

/// Returns the first hint whose facts hold, or none.
fn hint_by_facts(found: &Found<'_, '_>) -> &'static str {
    match call_hint(found) {
        "" => found.first_hint(HINTS),
        hint => hint,
    }
}

/// Says what can stand in a token's place, as `a, b or c`, or that this token can't.
fn say_expected(said: &mut Said, source: &Source<'_>, k: usize, expected: &[&str]) {
    let is_end = k >= source.count();
    let found = source.token_text(k);
    if expected.is_empty() && is_end {
        return said.say("the text ends too early");
    }
    if expected.is_empty() {
        return said.say_name(found, "can't stand here");
    }
    said.say("expected ");
    for (n, word) in expected.iter().enumerate() {
        if n > 0 {
            said.say(if n + 1 == expected.len() {
                " or "
            } else {
                ", "
            });
        }
        said.say(*word);
    }
    if is_end {
        said.say(" at the text's end");
    } else {
        said.message.put(&format_args!(" before '{found}'"));
    }
}

/// Says what is wrong with the first token that can't stand, or of a text that ends too early.
pub(crate) fn say_syntax(
    alloc: Global,
    said: &mut Said,
    source: &Source<'_>,
    k: usize,
    expected: &[&str],
) -> Result<(), AllocError> {
    say_expected(said, source, k, expected);
    if k >= source.count() {
        if let Some(open) = source.open_before(source.count(), Mark::LeftBrace) {
            said.hint("the '{' of ");
            source.put_spot(&mut said.hint, open);
            said.hint(" isn't closed");
        }
    } else if let Some(word) = nearest_keyword(alloc, source, k)? {
        said.hint.put(&format_args!("did you mean '{word}'?"));
    } else if !hint_brace(said, source, k) && !hint_semicolon(said, source, k, expected) {
        let by_facts = hint_by_facts(&Found {
            source,
            token: k,
            first: source.first_of(k),
        });
        let by_words = word_hint(source, k).or(type_hint(source, k));
        said.hint(by_words.unwrap_or(by_facts));
    }
    Ok(())
}
