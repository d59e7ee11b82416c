//! Types of a whole program (C99 6.9).
ghost use Rattle.std.specs.Prelude.{◌≡◌, ℕ, List, Some, true, IfOk, IfErr, OnOk, Err};
ghost use Rattle.c_tree.specs.Shape.{declaration_of, declarations_of, items_of};
ghost use Rattle.c_tree.specs.Tree.{function, Declaration as DeclarationTree};
ghost use Rattle.c_statements.specs.declared.fault.TypeStop.TheVariants.{NoMemory};
ghost use Rattle.c_statements.specs.declared.names.Named.TheVariants.{Function as NamedFunction};
ghost use Rattle.c_statements.specs.Faults.{Answers, HasNone, IsTypeFault, StopsAtFirst, both_of};
ghost use Rattle.c_statements.specs.Made.{MadeOf, Stops};
ghost use Rattle.c_statements.specs.Shape.{scopes_of};
ghost use Rattle.c_typed.specs.Shape.{function_of, statements_of};
ghost use Rattle.c_typed.specs.Trees.{TypedProgram};
ghost use Rattle.c_types.specs.Files.{AreTyped, HasDeclared, IsFunction, declared_of, file_of, file_scopes};
ghost use Rattle.c_types.specs.Programs.{File, FaultyBody, FaultyDeclaration, FaultyDeclarations, FaultyProgram, LacksMain};
ghost use Rattle.c_types.specs.Programs.{TypesDeclaration};
ghost use Rattle.c_types.specs.Programs.{TypesProgram, after, after_all, closing, no_declarations, with_last};
ghost use Rattle.c_types.specs.Shape.{program_of};
ghost use Rattle.c_types.specs.Typed.{EachTypedProgramIsWellFormed, SpellsTyped};

use crate::declaration::{Tally, declared_name, initial_word, is_main, name_fault, parameters};
use crate::typed_program::Typed;
use c_statements::{
    Context, Named, Scopes, TypeFault, TypeFaultKind, TypeStop, both, items, lasting,
};
use c_tokens::{IntegerType, Literal};
use c_tree::{Declaration, FunctionDefinition, Program};
use c_typed::{Function, Global as Variable, TypedExpression, TypedStatement};
use std::alloc::{AllocError, AllocFailed, Global};
use words::Width;

/// What a declaration at file scope comes to.
#[derive(Drop)]
enum Declared {
    Variable(Variable),
    Function(Function),
}

/// What the declarations so far come to.
#[derive(Drop)]
struct Parts {
    functions: Vec<Function>,
    globals: Vec<Variable>,
}

/// Puts what the end brace does after a body: `main` returns 0, and a function without result returns.
fn close(
    body: &mut Vec<TypedStatement>,
    main: bool,
    gives: Option<IntegerType>,
) -> Result<(), AllocError>
    ensures { OnOk result (statements_of body.new.items ≡ with_last (statements_of body.old.items) (closing main gives)) }
{
    if main {
        let zero = Literal {
            value: 0,
            integer_type: IntegerType::SignedInt,
        };
        body.push(TypedStatement::Return(Some(TypedExpression::Constant(zero))))?;
        return Ok(());
    }
    match gives {
        None => {
            body.push(TypedStatement::Return(None))?;
            Ok(())
        }
        Some(_) => Ok(()),
    }
}

/// Returns the parameters and the body of a function, in a scope of its own.
fn function<'a>(
    alloc: Global,
    program: &'a Program,
    scopes: &mut Scopes<'a>,
    f: &FunctionDefinition,
) -> Result<Function, TypeStop>
    requires { scopes_of scopes.now ≡ file_scopes (scopes_of scopes.now).inner }
    ensures typed { Answers (λ t. IsFunction program.now.text.items (scopes_of scopes.old).inner f.now (function_of t))
        (FaultyBody program.now.text.items (scopes_of scopes.old).inner
        (function f.now.result f.now.name f.now.parameters.items (items_of f.now.body.items))) result }
    ensures scopes { (result ≡ Err NoMemory → ⊥) → scopes_of scopes.new ≡ scopes_of scopes.old }
{
    scopes.enter(alloc)?;
    let fault = parameters(program, scopes, f.parameters.as_slice())?;
    let context = Context {
        alloc,
        program,
        gives: f.result.is_some(),
        in_loop: false,
    };
    let typed = lasting(items(&context, scopes, f.body.as_slice()))?;
    let locals = scopes.locals();
    scopes.leave();
    scopes.start_function();
    let (_, mut body) = both(fault, typed)?;
    close(&mut body, is_main(program, f.name), f.result)?;
    Ok(Function {
        result: f.result,
        parameters: f.parameters.len(),
        locals,
        body,
    })
}

/// Returns what a declaration comes to, after its name.
fn body<'a>(
    alloc: Global,
    program: &'a Program,
    scopes: &mut Scopes<'a>,
    d: &Declaration,
) -> Result<Declared, TypeStop>
    requires { scopes_of scopes.now ≡ file_scopes (scopes_of scopes.now).inner }
    ensures typed { Answers (λ t. (f : File) → (after program.now.text.items f (declaration_of d.now)).names ≡ (scopes_of scopes.old).inner
        → TypesDeclaration program.now.text.items f (declaration_of d.now) (declared_of t))
        (FaultyBody program.now.text.items (scopes_of scopes.old).inner (declaration_of d.now)) result }
    ensures scopes { (result ≡ Err NoMemory → ⊥) → scopes_of scopes.new ≡ scopes_of scopes.old }
{
    match d {
        Declaration::Variable(_, _, initial) => Ok(Declared::Variable(Variable {
            width: Width::Word,
            length: 1,
            first: initial_word(initial),
        })),
        Declaration::Array(width, _, _, length) => Ok(Declared::Variable(Variable {
            width: *width,
            length: length.value as usize,
            first: 0,
        })),
        Declaration::Function(f) => match function(alloc, program, scopes, f) {
            Ok(typed) => Ok(Declared::Function(typed)),
            Err(stop) => Err(stop),
        },
    }
}

/// Returns what a declaration comes to; its name is in sight after it.
fn declaration<'a>(
    alloc: Global,
    program: &'a Program,
    scopes: &mut Scopes<'a>,
    tally: &Tally,
    d: &Declaration,
) -> Result<Declared, TypeStop>
    requires { scopes_of scopes.now ≡ file_scopes (scopes_of scopes.now).inner }
    ensures typed { Answers (λ t. TypesDeclaration program.now.text.items (file_of scopes.old tally.now) (declaration_of d.now)
        (declared_of t))
        (FaultyDeclaration program.now.text.items (file_of scopes.old tally.now) (declaration_of d.now)) result }
    ensures scopes { (result ≡ Err NoMemory → ⊥)
        → scopes_of scopes.new ≡ file_scopes (after program.now.text.items (file_of scopes.old tally.now) (declaration_of d.now)).names }
{
    let fault = name_fault(program, scopes, tally, d);
    scopes.declare(program, declared_name(d), tally.next_named(d))?;
    let typed = lasting(body(alloc, program, scopes, d))?;
    let (_, typed) = both(fault, typed)?;
    Ok(typed)
}

/// Returns one declaration more.
fn with_declared(
    parts: Result<Parts, TypeStop>,
    next: Result<Declared, TypeStop>,
) -> Result<Parts, TypeStop>
    ensures ok { IfOk result (MadeOf (both_of parts next) HasDeclared) }
    ensures err { IfErr result (Stops (both_of parts next)) }
{
    let (mut parts, next) = both(parts, next)?;
    match next {
        Declared::Variable(global) => parts.globals.push(global)?,
        Declared::Function(function) => parts.functions.push(function)?,
    }
    Ok(parts)
}

/// Returns what the declarations come to; their names are in sight after them.
fn declarations<'a>(
    alloc: Global,
    program: &'a Program,
    scopes: &mut Scopes<'a>,
    all: &[Declaration],
) -> Result<Parts, TypeStop>
    requires { scopes_of scopes.now ≡ file_scopes no_declarations.names }
    ensures typed { Answers (AreTyped program.now.text.items (declarations_of all.now))
        (FaultyDeclarations program.now.text.items no_declarations (declarations_of all.now)) result }
    ensures scopes { (result ≡ Err NoMemory → ⊥)
        → scopes_of scopes.new ≡ file_scopes (after_all program.now.text.items no_declarations (declarations_of all.now)).names }
{
    let mut tally = Tally {
        globals: 0,
        functions: 0,
        words: 0,
    };
    let mut parts = Ok(Parts {
        functions: Vec::new(alloc),
        globals: Vec::new(alloc),
    });
    for one in all {
        let next = lasting(declaration(alloc, program, scopes, &tally, one))?;
        parts = with_declared(parts, next);
        tally = tally.after(one);
    }
    parts
}

/// Reports whether a name `main` is declared; if not it is a fault, at the text's length.
fn has_main(program: &Program, scopes: &Scopes) -> Result<(), TypeStop>
    ensures none { IfOk result (λ _. HasNone (LacksMain program.now.text.items (scopes_of scopes.now).inner)) }
    ensures err { IfErr result (StopsAtFirst (LacksMain program.now.text.items (scopes_of scopes.now).inner)) }
{
    match scopes.innermost(b"main") {
        Some(_) => Ok(()),
        None => {
            let kind = TypeFaultKind::NoMain;
            let at = program.text.len();
            Err(TypeStop::Fault(TypeFault { kind, at }))
        }
    }
}

/// Returns the number of `main`, which a program without faults has.
fn number_of(found: Option<Named>) -> usize
    requires { (n : ℕ) × (found ≡ Some (NamedFunction n 0 true)) }
    ensures { found ≡ Some (NamedFunction result 0 true) }
{
    let Some(named) = found else {
        unreachable!();
    };
    match named {
        Named::Function(main, _, _) => main,
        _ => unreachable!(),
    }
}

/// Returns the typed program, or its first fault.
fn type_program(alloc: Global, program: &Program) -> Result<Typed, TypeStop>
    ensures { Answers (λ t. TypesProgram program.now.text.items (declarations_of program.now.declarations.items) (program_of t))
        (FaultyProgram program.now.text.items (declarations_of program.now.declarations.items)) result }
{
    let mut scopes = Scopes::new(alloc);
    scopes.declare_spelling(b"out", Named::Out)?;
    let all = program.declarations.as_slice();
    let parts = lasting(declarations(alloc, program, &mut scopes, all))?;
    let (parts, _) = both(parts, has_main(program, &scopes))?;
    let main = number_of(scopes.innermost(b"main"));
    Ok(Typed::new(parts.functions, parts.globals, main))
}

/// Returns the typed program of a program that was read, exactly if it has no fault. Else it returns the fault with the least offset, and
/// of these the least number. If memory runs out that is told in place of any of these, at the text's length.
pub fn check(alloc: Global, program: &Program) -> Result<Typed, TypeFault>
    ensures ok { IfOk result (λ t. TypesProgram program.now.text.items (declarations_of program.now.declarations.items) (program_of t)) }
    ensures none { IfOk result (λ t. HasNone (FaultyProgram program.now.text.items (declarations_of program.now.declarations.items))) }
    ensures err { IfErr result (IsTypeFault program.now.text.items
        (FaultyProgram program.now.text.items (declarations_of program.now.declarations.items))) }
{
    match type_program(alloc, program) {
        Ok(typed) => Ok(typed),
        Err(TypeStop::Fault(fault)) => Err(fault),
        Err(TypeStop::NoMemory) => Err(TypeFault {
            kind: TypeFaultKind::NoMemory,
            at: program.text.len(),
        }),
    }
}

/// States that a program has at most one typed program.
pub fn one_typing_of_programs()
    ensures { (text : List ℕ) (all : List DeclarationTree) (p q : TypedProgram) → TypesProgram text all p → TypesProgram text all q
        → p ≡ q }
{}

/// States that a text has at most one typed program. A law: it computes nothing.
pub fn one_typed_program()
    ensures { (text : List ℕ) (p q : TypedProgram) → SpellsTyped text p → SpellsTyped text q → p ≡ q }
{}

/// States that each typed program is well formed. A law: it computes nothing.
pub fn each_typed_program_is_well_formed()
    ensures { EachTypedProgramIsWellFormed }
{}
