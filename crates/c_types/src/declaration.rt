//! What declarations at file scope count, and which of them are faults.
ghost use Rattle.std.specs.Prelude.{◌≡◌, ◌<◌, ◌≤◌, ◌+◌, ◌^◌, IfOk, IfErr, true, false, bytes_eq, ⊤};
ghost use Rattle.c_tree.specs.Shape.{declaration_of};
ghost use Rattle.c_statements.specs.Faults.{Answers, HasNone, StopsAtFirst};
ghost use Rattle.c_statements.specs.Shape.{scopes_of};
ghost use Rattle.c_statements.specs.Names.{spelling_in};
ghost use Rattle.c_types.specs.Files.{counts_of, file_of, Exceeds, IsOtherKind, is_array_of_nothing};
ghost use Rattle.c_types.specs.Programs.{FaultyName, FaultyParameter, FaultyParameters, IsFifth, behind_parameters, IsNotMain, first_word};
ghost use Rattle.c_types.specs.Programs.{main_name, name_of, named_by, counts_after, words_of};

use c_statements::{Named, Scopes, TypeFaultKind, TypeStop, declarator, either, misuse};
use c_tokens::{Identifier, IntegerType};
use c_tree::{Declaration, Initial, Parameter, Program};
use c_typed::{MAX_FUNCTIONS, MAX_GLOBAL_WORDS, MAX_PARAMETERS};
use std::alloc::AllocError;

/// How many globals and functions are declared so far, and how many words the globals have together. An array has less
/// than 2^32 words and a program less than 2^64 declarations, so 128 bits hold the sum.
#[derive(Clone, Copy)]
pub struct Tally {
    pub globals: usize,
    pub functions: usize,
    pub words: u128,
}

/// Reports whether a name is `main`.
pub fn is_main(program: &Program, name: Identifier) -> bool
    ensures { result ≡ bytes_eq (spelling_in program.now.text.items name) main_name }
{
    program.spelling(name) == b"main".as_slice()
}

/// Returns the name that is declared.
pub fn declared_name(declaration: &Declaration) -> Identifier
    ensures { result ≡ name_of (declaration_of declaration.now) }
{
    match declaration {
        Declaration::Variable(_, name, _) => *name,
        Declaration::Array(_, _, name, _) => *name,
        Declaration::Function(function) => function.name,
    }
}

/// Returns the words that a declaration takes of those for globals: four bytes of an array are one, and so are those that are left.
fn words(declaration: &Declaration) -> u32
    ensures { result ≡ words_of (declaration_of declaration.now) }
{
    match declaration {
        Declaration::Variable(_, _, _) => 1,
        Declaration::Array(width, _, _, length) => width.words_of(length.value),
        Declaration::Function(_) => 0,
    }
}

/// Reports whether a declaration is of a function without parameters whose result is `int`.
fn is_int_function(declaration: &Declaration) -> bool
    ensures other { result ≡ false → IsNotMain (declaration_of declaration.now) }
    ensures fits { result ≡ true → IsNotMain (declaration_of declaration.now) → ⊥ }
{
    match declaration {
        Declaration::Function(function) => {
            function.parameters.is_empty() && function.result == Some(IntegerType::SignedInt)
        }
        _ => false,
    }
}

/// Reports whether a declaration is of an array of length 0.
fn is_empty_array(declaration: &Declaration) -> bool
    ensures { result ≡ is_array_of_nothing (declaration_of declaration.now) }
{
    match declaration {
        Declaration::Array(_, _, _, length) => length.value == 0,
        _ => false,
    }
}

/// Returns the word of a first value; 0 without one.
pub fn initial_word(initial: &Option<Initial>) -> u32
    ensures { result ≡ first_word initial.now }
{
    match initial {
        None => 0,
        Some(initial) => {
            if initial.negative {
                initial.literal.value.wrapping_neg()
            } else {
                initial.literal.value
            }
        }
    }
}

impl Tally {
    /// Returns what the name of the next declaration stands for.
    pub fn next_named(&self, declaration: &Declaration) -> Named
        ensures { result ≡ named_by (counts_of self.now) (declaration_of declaration.now) }
    {
        match declaration {
            Declaration::Variable(integer_type, _, _) => Named::Global(self.globals, *integer_type),
            Declaration::Array(_, integer_type, _, _) => Named::Array(self.globals, *integer_type),
            Declaration::Function(function) => Named::Function(
                self.functions,
                function.parameters.len(),
                function.result.is_some(),
            ),
        }
    }

    /// Reports whether a declaration is the 257th function, or the global with which the words are exceeded.
    fn exceeded_by(&self, declaration: &Declaration) -> bool
        ensures yes { result ≡ true → Exceeds (counts_of self.now) (declaration_of declaration.now) }
        ensures no { result ≡ false → Exceeds (counts_of self.now) (declaration_of declaration.now) → ⊥ }
    {
        if let Declaration::Function(_) = declaration {
            return self.functions == MAX_FUNCTIONS;
        }
        let most = u128::from(MAX_GLOBAL_WORDS);
        self.words <= most && most < self.words + u128::from(words(declaration))
    }

    /// Returns the tally after a declaration.
    pub fn after(&self, declaration: &Declaration) -> Tally
        requires globals { self.now.globals + 1 < 2 ^ 64 }
        requires functions { self.now.functions + 1 < 2 ^ 64 }
        requires words { self.now.words + 2 ^ 32 < 2 ^ 128 }
        ensures value { counts_of result ≡ counts_after (counts_of self.now) (declaration_of declaration.now) }
        ensures words { result.words ≤ self.now.words + 2 ^ 32 }
    {
        match declaration {
            Declaration::Function(_) => Tally {
                globals: self.globals,
                functions: self.functions + 1,
                words: self.words,
            },
            _ => Tally {
                globals: self.globals + 1,
                functions: self.functions,
                words: self.words + u128::from(words(declaration)),
            },
        }
    }
}

/// Reports whether a declaration is of a `main` that isn't `int main(void)`, or of an array of length 0.
fn is_other_kind(program: &Program, declaration: &Declaration) -> bool
    ensures yes { result ≡ true → IsOtherKind program.now.text.items (declaration_of declaration.now) }
    ensures no { result ≡ false → IsOtherKind program.now.text.items (declaration_of declaration.now) → ⊥ }
{
    if is_empty_array(declaration) {
        return true;
    }
    is_main(program, declared_name(declaration)) && !is_int_function(declaration)
}

/// Returns what is wrong with the name of a declaration at file scope.
pub fn name_fault(
    program: &Program,
    scopes: &Scopes,
    tally: &Tally,
    declaration: &Declaration,
) -> Result<(), TypeStop>
    ensures none { IfOk result (λ _. HasNone (FaultyName program.now.text.items (file_of scopes.now tally.now)
        (declaration_of declaration.now))) }
    ensures err { IfErr result (StopsAtFirst (FaultyName program.now.text.items (file_of scopes.now tally.now)
        (declaration_of declaration.now))) }
{
    let name = declared_name(declaration);
    if scopes.declares(program, name) {
        return Err(misuse(TypeFaultKind::Redeclared, name));
    }
    if is_other_kind(program, declaration) {
        return Err(misuse(TypeFaultKind::Kind, name));
    }
    if tally.exceeded_by(declaration) {
        return Err(misuse(TypeFaultKind::Limit, name));
    }
    Ok(())
}

/// Reports whether a parameter is one too many, a fault at its name.
fn fifth_parameter(scopes: &Scopes, name: Identifier) -> Result<(), TypeStop>
    ensures none { IfOk result (λ _. HasNone (IsFifth (scopes_of scopes.now) name)) }
    ensures err { IfErr result (StopsAtFirst (IsFifth (scopes_of scopes.now) name)) }
{
    if scopes.locals() == MAX_PARAMETERS {
        return Err(misuse(TypeFaultKind::Count, name));
    }
    Ok(())
}

/// Returns what is wrong with the name of a parameter.
fn parameter_fault(program: &Program, scopes: &Scopes, name: Identifier) -> Result<(), TypeStop>
    ensures { Answers (λ _. ⊤) (FaultyParameter program.now.text.items (scopes_of scopes.now) name) result }
{
    either(
        fifth_parameter(scopes, name),
        declarator(program, scopes, name),
    )
}

/// Puts the parameters of a function into its scope.
pub fn parameters<'a>(
    program: &'a Program,
    scopes: &mut Scopes<'a>,
    all: &[Parameter],
) -> Result<Result<(), TypeStop>, AllocError>
    ensures faults { IfOk result (Answers (λ _. ⊤) (FaultyParameters program.now.text.items (scopes_of scopes.old) all.now)) }
    ensures scopes { IfOk result (λ r. scopes_of scopes.new ≡ behind_parameters program.now.text.items (scopes_of scopes.old) all.now) }
{
    let mut fault = Ok(());
    for parameter in all {
        fault = either(fault, parameter_fault(program, scopes, parameter.name));
        scopes.declare_local(program, parameter.integer_type, parameter.name)?;
    }
    Ok(fault)
}
