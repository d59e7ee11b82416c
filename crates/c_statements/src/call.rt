//! What a called name stands for.
ghost use Rattle.std.specs.Prelude.{IfSome, IfNone, Some};
ghost use Rattle.c_statements.specs.Calls.{Signs, IsNoFunction, IsTarget};
ghost use Rattle.c_statements.specs.Faults.{Answers};
ghost use Rattle.c_statements.specs.Shape.{environment_of};
ghost use Rattle.c_statements.specs.Uses.{Misused, as_call};

use crate::expression::{declared_name, misuse};
use crate::fault::{TypeFaultKind, TypeStop};
use crate::names::Named;
use crate::symbol_table::Scopes;
use c_tokens::Identifier;
use c_tree::Program;

/// What a call goes to: a function of the program, by its number, or `out`.
#[derive(Clone, Copy)]
pub enum Target {
    Function(usize),
    Out,
}

/// Returns what a call of the name goes to, the number of its parameters and whether it gives a result, if it is a function.
fn signature(named: Named) -> Option<(Target, usize, bool)>
    ensures some { IfSome result (λ s. Signs named s.0 s.1 s.2) }
    ensures none { IfNone result (IsNoFunction named) }
{
    match named {
        Named::Function(number, parameters, gives) => {
            Some((Target::Function(number), parameters, gives))
        }
        Named::Out => Some((Target::Out, 1, false)),
        _ => None,
    }
}

/// Returns what a call with so many arguments goes to; `wanted` says that its result is used. A call of what isn't a function and a void
/// result that is used come before another number of arguments than parameters. All are at the name.
pub fn callee(
    program: &Program,
    scopes: &Scopes,
    name: Identifier,
    count: usize,
    wanted: bool,
) -> Result<Target, TypeStop>
    ensures { Answers (IsTarget (environment_of program.now scopes.now name))
        (Misused (environment_of program.now scopes.now) name (as_call count wanted)) result }
{
    let named = declared_name(program, scopes, name)?;
    let Some((target, parameters, gives)) = signature(named) else {
        return Err(misuse(TypeFaultKind::Kind, name));
    };
    if wanted && !gives {
        return Err(misuse(TypeFaultKind::Kind, name));
    }
    if count != parameters {
        return Err(misuse(TypeFaultKind::Count, name));
    }
    Ok(target)
}
