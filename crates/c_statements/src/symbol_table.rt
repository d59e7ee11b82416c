//! The names in sight, scope by scope (C99 6.2.1).
ghost use Rattle.std.specs.Prelude.{◌≡◌, OnOk, OnErr, IfNone, IfSome, None, Some, is_some};
ghost use Rattle.c_statements.specs.Shape.{bindings_of, scopes_of};
ghost use Rattle.c_statements.specs.Names.{Scopes, named_in, environment_in, with_spelling, no_scopes, within};
ghost use Rattle.c_statements.specs.Names.{outside, with_declared, with_local, without_locals, spelling_in};

use crate::names::Named;
use c_tokens::{Identifier, IntegerType};
use c_tree::Program;
use std::alloc::{AllocError, AllocFailed, Global};
use std::collections::HashMap;
use std::mem::replace;

/// The names of one scope by their spelling.
type Scope<'a> = HashMap<&'a [u8], Named>;

/// The names in sight at a place of a program, scope by scope, and the locals that the function has declared so far.
#[derive(Drop)]
pub struct Scopes<'a> {
    inner: Scope<'a>,
    around: Vec<Scope<'a>>,
    locals: Vec<IntegerType>,
}

/// Returns what a spelling stands for in a scope, if it is declared there. In a scope without names nothing is looked up.
fn named_at<'s>(scope: &'s Scope<'_>, spelling: &[u8]) -> Option<&'s Named>
    ensures none { IfNone result (bindings_of scope.now spelling.now ≡ None) }
    ensures some { IfSome result (λ named. bindings_of scope.now spelling.now ≡ Some named.now) }
{
    if scope.is_empty() {
        return None;
    }
    scope.get(spelling)
}

impl<'a> Scopes<'a> {
    /// Returns scopes with no name in sight, and no local.
    pub fn new(alloc: Global) -> Scopes<'a>
        ensures { scopes_of result ≡ no_scopes }
    {
        Scopes {
            inner: HashMap::new(alloc),
            around: Vec::new(alloc),
            locals: Vec::new(alloc),
        }
    }

    /// Returns what a name of this spelling stands for in the innermost scope, if it is declared there.
    pub fn innermost(&self, spelling: &[u8]) -> Option<Named>
        ensures { result ≡ (scopes_of self.now).inner spelling.now }
    {
        match self.inner.get(spelling) {
            Some(named) => Some(*named),
            None => None,
        }
    }

    /// Returns what a name of this spelling stands for: its declaration in the innermost scope that has one.
    pub fn find_spelling(&self, spelling: &[u8]) -> Option<Named>
        ensures { result ≡ named_in (scopes_of self.now) spelling.now }
    {
        if let Some(named) = named_at(&self.inner, spelling) {
            return Some(*named);
        }
        for i in (0..self.around.len()).rev() {
            if let Some(named) = named_at(&self.around[i], spelling) {
                return Some(*named);
            }
        }
        None
    }

    /// Returns what a name stands for.
    pub fn find(&self, program: &Program, name: Identifier) -> Option<Named>
        ensures { result ≡ environment_in program.now.text.items (scopes_of self.now) name }
    {
        self.find_spelling(program.spelling(name))
    }

    /// Reports whether the innermost scope declares the name.
    pub fn declares(&self, program: &Program, name: Identifier) -> bool
        ensures { result ≡ is_some ((scopes_of self.now).inner (spelling_in program.now.text.items name)) }
    {
        self.inner.contains_key(program.spelling(name))
    }

    /// Returns how many locals the function has declared so far.
    pub fn locals(&self) -> usize
        ensures { result ≡ (scopes_of self.now).locals }
    {
        self.locals.len()
    }

    /// Puts a spelling into the innermost scope. `Err` only if memory runs out, and then all is as before.
    pub fn declare_spelling(&mut self, spelling: &'a [u8], named: Named) -> Result<(), AllocError>
        ensures scopes { OnOk result (scopes_of self.new ≡ with_spelling (scopes_of self.old) spelling.now named) }
        ensures left { OnErr result (scopes_of self.new ≡ scopes_of self.old) }
    {
        self.inner.insert(spelling, named)?;
        Ok(())
    }

    /// Puts a name into the innermost scope, as `declare_spelling` does.
    pub fn declare(
        &mut self,
        program: &'a Program,
        name: Identifier,
        named: Named,
    ) -> Result<(), AllocError>
        ensures scopes { OnOk result (scopes_of self.new ≡ with_declared program.now.text.items (scopes_of self.old) name named) }
        ensures left { OnErr result (scopes_of self.new ≡ scopes_of self.old) }
    {
        self.declare_spelling(program.spelling(name), named)
    }

    /// Puts a local into the innermost scope, as `declare_spelling` does; it has the next number.
    pub fn declare_local(
        &mut self,
        program: &'a Program,
        integer_type: IntegerType,
        name: Identifier,
    ) -> Result<(), AllocError>
        ensures scopes { OnOk result (scopes_of self.new ≡ with_local program.now.text.items (scopes_of self.old) integer_type name) }
        ensures left { OnErr result (scopes_of self.new ≡ scopes_of self.old) }
    {
        let number = self.locals();
        self.locals.push(integer_type)?;
        let declared = self.declare(program, name, Named::Local(number, integer_type));
        if declared.is_err() {
            self.locals.pop();
        }
        declared
    }

    /// Opens a scope. `Err` only if memory runs out, and then all is as before.
    pub fn enter(&mut self, alloc: Global) -> Result<(), AllocError>
        ensures scopes { OnOk result (scopes_of self.new ≡ within (scopes_of self.old)) }
        ensures left { OnErr result (scopes_of self.new ≡ scopes_of self.old) }
    {
        self.around.reserve(1)?;
        let outer = replace(&mut self.inner, HashMap::new(alloc));
        self.around.push(outer)?;
        Ok(())
    }

    /// Closes the innermost scope; the locals stay counted. Without a scope around nothing changes.
    pub fn leave(&mut self)
        ensures { scopes_of self.new ≡ outside (scopes_of self.old) }
    {
        if let Some(outer) = self.around.pop() {
            self.inner = outer;
        }
    }

    /// Forgets how many locals there were, at the beginning of a function.
    pub fn start_function(&mut self)
        ensures { scopes_of self.new ≡ without_locals (scopes_of self.old) }
    {
        self.locals.clear();
    }
}
