//! The faults that types find, with their places.
ghost use Rattle.std.specs.Prelude.{◌≡◌, ◌≢◌, IfOk, IfErr, Err, Some, ⊤};
ghost use Rattle.c_statements.specs.Faults.{number_of, kind_name, fault_text, is_later, first_of, both_of};
ghost use Rattle.c_statements.specs.Made.{MadeOf};
ghost use Rattle.c_statements.specs.declared.fault.TypeStop.TheVariants.{NoMemory};

use std::alloc::{AllocError, AllocFailed};
use std::error::Error;
use std::fmt;

/// What is wrong with a program.
#[derive(Clone, Copy, PartialEq, Eq, Debug)]
pub enum TypeFaultKind {
    /// A name with no declaration in sight.
    Undeclared,
    /// A second declaration of a name in one scope.
    Redeclared,
    /// A name that is used as what it isn't, a void result used, or an array of length 0. Or a `return` that doesn't fit its function, or
    /// a `main` that isn't `int main(void)`.
    Kind,
    /// Another number of arguments than parameters, or a fifth parameter.
    Count,
    /// No `main`; told at the text's length.
    NoMain,
    /// `break` or `continue` outside a loop.
    Outside,
    /// The 257th function, the 129th local of a function, or the global with which the globals exceed 262,144 words.
    Limit,
    /// Memory was refused; told at the text's length.
    NoMemory,
}

impl TypeFaultKind {
    /// Returns the number that messages show.
    pub fn number(self) -> u8
        ensures { result ≡ number_of self }
    {
        self.number_and_name().0
    }

    /// Returns the number and the name that messages show.
    fn number_and_name(self) -> (u8, &'static str)
        ensures number { result.0 ≡ number_of self }
        ensures name { result.1.now ≡ kind_name self }
    {
        match self {
            TypeFaultKind::Undeclared => (10, "Undeclared"),
            TypeFaultKind::Redeclared => (11, "Redeclared"),
            TypeFaultKind::Kind => (12, "Kind"),
            TypeFaultKind::Count => (13, "Count"),
            TypeFaultKind::NoMain => (15, "NoMain"),
            TypeFaultKind::Outside => (17, "Outside"),
            TypeFaultKind::Limit => (20, "Limit"),
            TypeFaultKind::NoMemory => (30, "NoMemory"),
        }
    }
}

/// Why a program is refused, and at which offset of its text.
#[derive(Clone, Copy, PartialEq, Eq, Debug)]
pub struct TypeFault {
    pub kind: TypeFaultKind,
    pub at: usize,
}

impl fmt::Display for TypeFault {
    ghost output = { λ fault. Some (fault_text fault) };

    fn fmt<W: fmt::Write>(&self, f: &mut fmt::Formatter<W>) -> fmt::Result {
        let (number, name) = self.kind.number_and_name();
        let at = self.at;
        write!(f, "fault {number} {name} at {at}")
    }
}

impl Error for TypeFault {}

/// Why a part of a program gets no type: its first fault, or lack of memory.
#[derive(Clone, Copy)]
pub enum TypeStop {
    Fault(TypeFault),
    NoMemory,
}

impl<T: Drop> From<AllocFailed<T>> for TypeStop {
    ghost from_gives = { λ _ r. r ≡ NoMemory };

    fn from(_: AllocFailed<T>) -> Self {
        TypeStop::NoMemory
    }
}

impl From<AllocError> for TypeStop {
    ghost from_gives = { λ _ r. r ≡ NoMemory };

    fn from(_: AllocError) -> Self {
        TypeStop::NoMemory
    }
}

/// Reports whether a fault comes after another: at a greater offset, or at the same with a greater number.
fn is_later(a: TypeFault, b: TypeFault) -> bool
    ensures { result ≡ is_later a b }
{
    b.at < a.at || (a.at == b.at && b.kind.number() < a.kind.number())
}

/// Returns the one of two stops that comes first; lack of memory comes before all faults.
pub fn first(a: TypeStop, b: TypeStop) -> TypeStop
    ensures { result ≡ first_of a b }
{
    match (a, b) {
        (TypeStop::Fault(left), TypeStop::Fault(right)) => {
            if is_later(left, right) { b } else { a }
        }
        _ => TypeStop::NoMemory,
    }
}

/// Returns two parts of a program together: both answers, or the stop that comes first.
#[inline(always)]
pub fn both<A: Drop, B: Drop>(
    a: Result<A, TypeStop>,
    b: Result<B, TypeStop>,
) -> Result<(A, B), TypeStop>
    ensures { result ≡ both_of a b }
{
    match (a, b) {
        (Ok(left), Ok(right)) => Ok((left, right)),
        (Ok(_), Err(stop)) => Err(stop),
        (Err(stop), Ok(_)) => Err(stop),
        (Err(left), Err(right)) => Err(first(left, right)),
    }
}

/// Returns the faults of two parts that have no answer.
pub fn either(a: Result<(), TypeStop>, b: Result<(), TypeStop>) -> Result<(), TypeStop>
    ensures ok { IfOk result (MadeOf (both_of a b) (λ _ _. ⊤)) }
    ensures err { IfErr result (λ s. both_of a b ≡ Err s) }
{
    both(a, b)?;
    Ok(())
}

/// Returns an answer that isn't lack of memory; lack of memory is an error at once, since the scopes after it aren't known.
pub fn lasting<T: Drop>(answer: Result<T, TypeStop>) -> Result<Result<T, TypeStop>, TypeStop>
    ensures ok { IfOk result (λ r. (r ≡ answer) × (answer ≢ Err NoMemory)) }
    ensures err { IfErr result (λ s. s ≡ NoMemory) }
{
    match answer {
        Ok(typed) => Ok(Ok(typed)),
        Err(stop) => match stop {
            TypeStop::NoMemory => Err(TypeStop::NoMemory),
            TypeStop::Fault(fault) => Ok(Err(TypeStop::Fault(fault))),
        },
    }
}
