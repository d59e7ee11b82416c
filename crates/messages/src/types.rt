//! What is said of the faults of a program: names used as what they aren't, and what is missing or too much.

use crate::headers::written_for;
use crate::names::{last_function, names_before};
use crate::near_names::nearest;
use crate::source::{Source, Told, after, before, told_of};
use c_statements::{TypeFault, TypeFaultKind};
use c_tokens::{Mark, Token};
use std::alloc::{AllocError, Global};
use text::Said;

/// Names of C's library, and of its headers, with what to write.
#[rattlefmt::skip]
const LIBRARY: &[Told] = &[
    (&[b"printf", b"print", b"puts", b"putchar"], "out(e); prints a word in decimal"),
    (&[b"scanf", b"getchar", b"gets", b"fgets"], "there is no input: write the number"),
    (&[b"exit", b"abort"], "return from main ends the program"),
    (&[b"assert"], "write if (!(e)) out(e);"),
    (&[b"NULL"], "there are no pointers: write an index, as 0"),
    (&[b"true"], "write 1"),
    (&[b"false"], "write 0"),
];

/// How many arguments a function takes, by how many those are.
#[rattlefmt::skip]
const TAKEN: &[&str] = &["no arguments", "1 argument", "2 arguments", "3 arguments", "4 arguments"];

/// Says what is wrong with a name that isn't in sight, given the names that are.
fn say_undeclared(
    alloc: Global,
    said: &mut Said,
    source: &Source<'_>,
    names: &[usize],
    k: usize,
) -> Result<(), AllocError> {
    let (shown, name) = (source.token_text(k), source.spelling(k));
    said.say_name(shown, "isn't declared");
    if let Some(other) = source.declaration_of(name) {
        let line = source.spot(other).line;
        said.hint.put(&format_args!("'{shown}' of line {line}"));
        said.hint(if other < k {
            " ends with its block: declare it further out"
        } else {
            " comes too late: put it before its first use"
        });
    } else if let Some(told) = told_of(LIBRARY, name).or(written_for(name)) {
        said.hint(told);
    } else if let Some(near) = nearest(alloc, source, names, k)? {
        said.hint.put(&format_args!("did you mean '{near}'?"));
    }
    Ok(())
}

fn say_redeclared(said: &mut Said, source: &Source<'_>, k: usize, first: Option<usize>) {
    let name = source.token_text(k);
    if let Some(first) = first {
        said.say_name(name, "is declared twice in this scope");
        said.hint("the first one stands at ");
        source.put_spot(&mut said.hint, first);
    } else {
        said.say_name(name, "is there from the beginning: it prints a word");
        said.hint("give yours another name");
    }
}

/// Says what is wrong with a `return` that doesn't fit its function.
fn say_return(said: &mut Said, source: &Source<'_>, k: usize) {
    let function = last_function(source, k).unwrap_or(source.count());
    let name = source.token_text(function);
    if source.is(before(function, 1), Mark::Void) {
        said.say_name(name, "is void: it returns no value");
        said.hint("write return; or give the function a type");
    } else {
        said.say_name(name, "gives a result: return needs a value");
        said.hint("write return 0; or another value");
    }
}

/// Says what is wrong with the use of the name of a function, or of a variable or an array, by what stands after it.
fn say_use(said: &mut Said, name: &str, is_function: bool, after: Option<Mark>) {
    match (after, is_function) {
        (Some(Mark::LeftParen), true) => {
            said.say_name(name, "is void: its call has no value");
            said.hint.put(&format_args!("call it alone: {name}(..);"));
        }
        (Some(Mark::LeftBracket), true) => said.say_name(name, "is a function: it has no elements"),
        (Some(Mark::Assign), true) => said.say_name(name, "is a function: it can't be assigned to"),
        (_, true) => {
            said.say_name(name, "is a function: call it");
            said.hint("a call stands alone or behind 'name =': int r; r = f(1); out(r);");
        }
        (Some(Mark::LeftParen), false) => {
            said.say_name(name, "is no function: it can't be called");
        }
        (Some(Mark::LeftBracket), false) => said.say_name(name, "is no array: it has no elements"),
        (_, false) => {
            said.say_name(name, "is an array: name one of its elements");
            said.hint
                .put(&format_args!("write {name}[0] or another index"));
        }
    }
}

/// Says what is wrong with the use of a name; `out`, which no text declares, is a function's.
fn say_other_kind(said: &mut Said, source: &Source<'_>, k: usize, declared: Option<usize>) {
    let (name, next) = (source.token_text(k), source.mark(after(k, 1)));
    if let Some(Token::Jump(_, _)) = source.token(k) {
        say_return(said, source, k);
    } else if source.is_declared(k) && name == "main" {
        said.say_name(name, "has to be int main(void)");
    } else if source.is_declared(k) {
        said.say_name(name, "has length 0: an array has an element at least");
    } else {
        let is_function = declared.is_none_or(|token| source.is(after(token, 1), Mark::LeftParen));
        say_use(said, name, is_function, next);
    }
}

/// Returns how many arguments or parameters stand between the parentheses that begin at this token.
fn arguments(source: &Source<'_>, open: usize) -> usize {
    if source.is_one(after(open, 1), &[Mark::RightParen, Mark::Void]) {
        return 0;
    }
    let (mut depth, mut count) = (0usize, 1usize);
    for k in open..source.count() {
        match source.mark(k) {
            Some(Mark::LeftParen) => depth = depth.saturating_add(1),
            Some(Mark::RightParen) if depth <= 1 => return count,
            Some(Mark::RightParen) => depth = depth.saturating_sub(1),
            Some(Mark::Comma) if depth == 1 => count = count.saturating_add(1),
            _ => {}
        }
    }
    count
}

fn say_other_count(said: &mut Said, source: &Source<'_>, k: usize, declared: Option<usize>) {
    if source.is_declared(k) {
        let function = last_function(source, k).unwrap_or(source.count());
        said.say_name(source.token_text(function), "has more than 4 parameters");
        return said.hint("more values go through variables at file scope");
    }
    let taken = declared.map_or(1, |token| arguments(source, after(token, 1)));
    let taken = TAKEN.get(taken).copied().unwrap_or("4 arguments");
    let (name, count) = (source.token_text(k), arguments(source, after(k, 1)));
    said.message
        .put(&format_args!("'{name}' takes {taken}, not {count}"));
}

fn say_limit(said: &mut Said, source: &Source<'_>, k: usize) {
    if source.open_before(k, Mark::LeftBrace).is_some() {
        said.say_both(
            "a function has more than 128 locals, parameters counted",
            "split the function, or put variables at file scope",
        );
    } else if source.is(after(k, 1), Mark::LeftParen) {
        said.say("the program has more than 256 functions");
    } else {
        said.say_both(
            "the variables at file scope take more than 262144 words",
            "each variable takes a word, and an array of unsigned char a word for four elements",
        );
    }
}

/// Says what the first fault of a program is.
pub(crate) fn say_types(
    alloc: Global,
    said: &mut Said,
    source: &Source<'_>,
    fault: TypeFault,
) -> Result<(), AllocError> {
    let k = source.index_of(fault.at);
    let names = names_before(alloc, source, k)?;
    let name = source.spelling(k);
    let declared = names
        .iter()
        .rev()
        .find(|token| source.spelling(**token) == name)
        .copied();
    match fault.kind {
        TypeFaultKind::Undeclared => {
            return say_undeclared(alloc, said, source, names.as_slice(), k);
        }
        TypeFaultKind::Redeclared => say_redeclared(said, source, k, declared),
        TypeFaultKind::Kind => say_other_kind(said, source, k, declared),
        TypeFaultKind::Count => say_other_count(said, source, k, declared),
        TypeFaultKind::NoMain => said.say_both(
            "the program has no 'main'",
            "a program begins at int main(void) { .. }",
        ),
        TypeFaultKind::Outside => said.say_name(source.token_text(k), "stands in no loop"),
        TypeFaultKind::Limit => say_limit(said, source, k),
        TypeFaultKind::NoMemory => said.say("memory was refused"),
    }
    Ok(())
}
