//! A whole text: its bytes, its tokens, its program, or the fault that comes first.
ghost use Rattle.std.specs.Prelude.{◌≡◌, ◌≢◌, ◌≤◌, ℕ, List, true, length, IfOk, IfErr, IfSome, IfNone};
ghost use Rattle.c_tree.specs.Shape.{declarations_of};
ghost use Rattle.c_front.specs.Texts.{SpellsText, IsTextFault, is_text, AllText, place_or, refusal_kind};
ghost use Rattle.c_tree.specs.Tree.{Declaration};
ghost use Rattle.c_front.specs.declared.fault.FrontFaultKind.{FrontFaultKind};
ghost use Rattle.c_front.specs.declared.fault.FrontFaultKind.TheVariants.{NoMemory};
ghost use Rattle.c_tokens.specs.declared.sizes.TheConstants.{MAX_TEXT};
ghost use Rattle.c_front.specs.Faults.{lexical_fault, memory_fault, IsToldAs};

use crate::declaration::{SyntaxFault, parse};
use crate::fault::{FrontFault, FrontFaultKind};
use c_tokens::{LexFault, MAX_TEXT, Refusal, places, tokens};
use c_tree::Program;
use std::alloc::{AllocError, AllocFailed, Global};

fn is_text(byte: u8) -> bool
    ensures { result ≡ is_text byte }
{
    // (one comparison tells the bytes from b' ' to b'~', and without branches many bytes are tested at once)
    (byte.wrapping_sub(b' ') <= b'~' - b' ') | (byte == b'\t') | (byte == b'\n') | (byte == b'\r')
}

/// Reports whether a text may have each of its bytes. The loop goes through all of them, so that it takes many at once.
fn all_text(text: &[u8]) -> bool
    ensures { result ≡ true → AllText text.now }
{
    let mut good = true;
    'bytes: for at in 0..text.len() {
        good = good & is_text(text[at]);
    }
    good
}

/// Returns what is wrong with the size or the bytes of a text.
fn unreadable(text: &[u8]) -> Option<FrontFault>
    ensures short { IfNone result (length text.now ≤ MAX_TEXT) }
    ensures bytes { IfNone result (AllText text.now) }
    ensures some { IfSome result (λ f. IsTextFault text.now f.kind f.at) }
{
    if text.len() > MAX_TEXT {
        return Some(FrontFault {
            kind: FrontFaultKind::Size,
            at: MAX_TEXT,
        });
    }
    if all_text(text) {
        return None;
    }
    for at in 0..text.len() {
        if !is_text(text[at]) {
            return Some(FrontFault {
                kind: FrontFaultKind::Byte,
                at,
            });
        }
    }
    None
}

/// Returns the offset of the token of a number, or the text's length.
fn place(length: usize, places: &[u32], k: usize) -> usize
    ensures { result ≡ place_or length places.now k }
{
    if k < places.len() {
        places[k] as usize
    } else {
        length
    }
}

fn refusal(why: Refusal) -> FrontFaultKind
    ensures { result ≡ refusal_kind why }
{
    match why {
        Refusal::BadToken => FrontFaultKind::Token,
        Refusal::BadConstant => FrontFaultKind::Constant,
        Refusal::BadSize => FrontFaultKind::Size,
    }
}

fn lexical(fault: LexFault, length: usize) -> FrontFault
    ensures { result ≡ lexical_fault length fault }
{
    match fault {
        LexFault::Refused(why, at) => FrontFault {
            kind: refusal(why),
            at,
        },
        LexFault::NoMemory => FrontFault {
            kind: FrontFaultKind::NoMemory,
            at: length,
        },
    }
}

fn no_memory(text: &[u8]) -> FrontFault
    ensures { result ≡ memory_fault (length text.now) }
{
    FrontFault {
        kind: FrontFaultKind::NoMemory,
        at: text.len(),
    }
}

/// Returns the fault of tokens that spell no program. The offsets of tokens are found only now.
fn syntactic(alloc: Global, fault: SyntaxFault, text: &[u8]) -> FrontFault
    requires { length text.now ≤ MAX_TEXT }
    ensures { IsToldAs text.now fault result }
{
    let SyntaxFault::Wrong(k) = fault else {
        return no_memory(text);
    };
    match places(alloc, text) {
        Ok(places) => FrontFault {
            kind: FrontFaultKind::Syntax,
            at: place(text.len(), &places, k),
        },
        Err(_) => no_memory(text),
    }
}

/// Returns the program that a text spells (C99 6.4 to 6.9, in the profile of `specs/Grammar.antt`), or why it is refused. First its length
/// is tested, then its bytes, then its tokens with their constants and sizes, then their order.
///
/// It descends into the text: about 1,400 bytes of stack for each nested statement, and as much to drop the program. The sizes allow about
/// 163,000 nested statements. Read a hostile text on a thread with 256 MB of stack.
pub fn read(alloc: Global, text: &[u8]) -> Result<Program, FrontFault>
    ensures ok { IfOk result (λ p. SpellsText text.now (declarations_of p.declarations.items)) }
    ensures text { IfOk result (λ p. p.text.items ≡ text.now) }
    ensures err { IfErr result (λ f. IsTextFault text.now f.kind f.at) }
{
    if let Some(fault) = unreadable(text) {
        return Err(fault);
    }
    match tokens(alloc, text) {
        Err(fault) => Err(lexical(fault, text.len())),
        Ok(tokens) => match parse(alloc, &tokens) {
            Ok(declarations) => match Vec::from_slice(alloc, text) {
                Ok(text) => Ok(Program { declarations, text }),
                Err(_) => Err(no_memory(text)),
            },
            Err(fault) => Err(syntactic(alloc, fault, text)),
        },
    }
}

/// Returns what is wrong with a text, as `read` reports it, and nothing if it spells a program. Its caller has no program to drop.
pub fn fault_of(alloc: Global, text: &[u8]) -> Option<FrontFault>
    ensures none { IfNone result ((p : List Declaration) × SpellsText text.now p) }
    ensures some { IfSome result (λ f. IsTextFault text.now f.kind f.at) }
{
    match read(alloc, text) {
        Ok(_) => None,
        Err(fault) => Some(fault),
    }
}

/// States that a text spells one program at most, and none if it has a fault other than lack of memory. Of these it has one at most, at one
/// place. A law: it computes nothing.
pub fn one_reading()
    ensures once { (text : List ℕ) (p q : List Declaration) → SpellsText text p → SpellsText text q → p ≡ q }
    ensures refused { (text : List ℕ) (k : FrontFaultKind) (at : ℕ) (p : List Declaration) → IsTextFault text k at → k ≢ NoMemory
        → SpellsText text p → ⊥ }
    ensures one_fault { (text : List ℕ) (k j : FrontFaultKind) (at n : ℕ) → IsTextFault text k at → IsTextFault text j n
        → k ≢ NoMemory → j ≢ NoMemory → (k ≡ j) × (at ≡ n) }
{}
