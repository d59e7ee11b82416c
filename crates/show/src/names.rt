//! The names of functions, globals and locals, by their numbers.

use c_tokens::{Identifier, MAX_TEXT, Mark, Token, lex};
use std::alloc::{AllocError, Global};
use std::{fmt, str};

/// A function's name, and those of its locals, the parameters first.
#[derive(Drop)]
pub(crate) struct FunctionNames {
    name: Identifier,
    locals: Vec<Identifier>,
}

/// The names of a text, as its tokens have them: each stands after its type.
#[derive(Drop)]
pub struct Names<'t> {
    text: &'t [u8],
    functions: Vec<FunctionNames>,
    globals: Vec<Identifier>,
}

fn tokens_of(alloc: Global, text: &[u8]) -> Result<Vec<Token>, AllocError> {
    if text.len() > MAX_TEXT {
        return Ok(Vec::new(alloc));
    }
    match lex(alloc, text) {
        Ok((tokens, _)) => Ok(tokens),
        Err(_) => Err(AllocError),
    }
}

impl<'t> Names<'t> {
    /// Returns the names that a text declares. An Err means out of memory.
    pub fn read(alloc: Global, text: &'t [u8]) -> Result<Names<'t>, AllocError> {
        let tokens = tokens_of(alloc, text)?;
        let mut names = Names {
            text,
            functions: Vec::new(alloc),
            globals: Vec::new(alloc),
        };
        let (mut is_after_type, mut open) = (false, 0usize);
        for (k, token) in tokens.iter().enumerate() {
            match *token {
                Token::Name(name) if is_after_type => {
                    let is_function = matches!(
                        tokens.get(k + 1),
                        Some(Token::The(Mark::LeftParen))
                    );
                    names.declare(alloc, name, open, is_function)?;
                }
                Token::The(Mark::LeftParen | Mark::LeftBrace) => open = open.saturating_add(1),
                Token::The(Mark::RightParen | Mark::RightBrace) => open = open.saturating_sub(1),
                _ => {}
            }
            is_after_type = matches!(
                *token,
                Token::The(Mark::Int | Mark::Unsigned | Mark::Char | Mark::Void)
            );
        }
        Ok(names)
    }

    /// Adds a declared name: at file scope a function or a global, else a local of the last function.
    fn declare(
        &mut self,
        alloc: Global,
        name: Identifier,
        open: usize,
        is_function: bool,
    ) -> Result<(), AllocError> {
        if open > 0 {
            if let Some(function) = self.functions.last_mut() {
                function.locals.push(name)?;
            }
        } else if is_function {
            let locals = Vec::new(alloc);
            self.functions.push(FunctionNames { name, locals })?;
        } else {
            self.globals.push(name)?;
        }
        Ok(())
    }

    fn spelling(&self, name: Identifier) -> &'t str {
        let rest = self.text.get(name.at as usize..).unwrap_or(b"");
        let bytes = rest.get(..name.length as usize).unwrap_or(b"");
        str::from_utf8(bytes).unwrap_or("?")
    }

    /// Returns the name of a function; `?` where there is none of this number.
    pub fn function(&self, number: usize) -> &'t str {
        let function = self.functions.get(number);
        function.map_or("?", |function| self.spelling(function.name))
    }

    /// Returns the name of a global; `?` where there is none of this number.
    pub fn global(&self, number: usize) -> &'t str {
        self.globals
            .get(number)
            .map_or("?", |name| self.spelling(*name))
    }

    /// Returns the number of the function of this name.
    pub(crate) fn function_named(&self, name: &str) -> Option<usize> {
        (0..self.functions.len()).find(|number| self.function(*number) == name)
    }

    fn find_local(&self, function: usize, number: usize) -> Option<&'t str> {
        let name = self.functions.get(function)?.locals.get(number)?;
        Some(self.spelling(*name))
    }

    /// Returns the name of a function's local; `?` where there is none of this number.
    pub fn local(&self, function: usize, number: usize) -> &'t str {
        self.find_local(function, number).unwrap_or("?")
    }

    /// Returns the pseudo-register of a function, as it is shown.
    pub(crate) fn register(&self, function: usize, register: u32) -> RegisterName<'t> {
        let number = register as usize;
        let name = self.find_local(function, number);
        let is_shared = name.is_none()
            || (0..number).any(|earlier| self.find_local(function, earlier) == name);
        RegisterName {
            name: name.unwrap_or(""),
            number: is_shared.then_some(register),
        }
    }
}

/// A pseudo-register as it is shown. A local has its name, with its number where an earlier one has the name too, and any other its number
/// alone.
#[derive(Clone, Copy)]
pub(crate) struct RegisterName<'t> {
    name: &'t str,
    number: Option<u32>,
}

impl fmt::Display for RegisterName<'_> {
    fn fmt<W: fmt::Write>(&self, f: &mut fmt::Formatter<W>) -> fmt::Result {
        let name = self.name;
        match self.number {
            Some(number) => write!(f, "{name}%{number}"),
            None => f.write_str(name),
        }
    }
}
