//! Programs that were typed, and so have no fault.
ghost use Rattle.std.specs.Prelude.{◌≡◌};

use c_typed::{Function, Global};
use std::marker::Model;

/// A program whose names are numbers: its functions and globals in order, and the number of `main`. Only `program::check` makes one, of a
/// program without faults. So it is well formed. Names stand for what is there, calls fit their functions, jumps stand in loops, and the
/// sizes are within the limits.
#[derive(Drop)]
pub struct Typed {
    functions: Vec<Function>,
    globals: Vec<Global>,
    main: usize,
}

impl Model for Typed {
    ghost use Rattle.std.specs.Coded.{codes};
    ghost use Rattle.c_typed.specs.contracts.tree.TypedStatement as statement;
    ghost use Rattle.c_types.specs.Shape.{TypedParts, program_of};
    ghost use Rattle.c_types.specs.Typed.{IsTyped};

    ghost Value = { TypedParts };

    ghost coded = { Prim.hlevel (codes, statement.the_row.coded) };

    ghost view = { λ t. record { functions = t.functions.items; globals = t.globals.items; main = t.main } };

    ghost invariant = { λ t. IsTyped (program_of (record { functions = t.functions.items; globals = t.globals.items; main = t.main })) };
}

impl Typed {
    ghost use Rattle.std.specs.Prelude.{◌<◌, length};
    ghost use Rattle.c_types.specs.Shape.{program_of};
    ghost use Rattle.c_types.specs.Typed.{IsTyped};
    ghost use Rattle.c_typed.specs.WellFormed.{IsWellFormed};

    /// Returns the typed program of these parts.
    pub(crate) fn new(functions: Vec<Function>, globals: Vec<Global>, main: usize) -> Typed
        requires { IsTyped (program_of (record { functions = functions.items; globals = globals.items; main = main })) }
        ensures { result ≡ record { functions = functions.items; globals = globals.items; main = main } }
    {
        Typed {
            functions,
            globals,
            main,
        }
    }

    /// Returns the functions, in the order of their numbers.
    pub fn functions(&self) -> &[Function]
        ensures value { result.now ≡ self.now.functions }
        ensures fits { IsWellFormed (program_of self.now) }
    {
        self.functions.as_slice()
    }

    /// Returns the global variables and arrays, in the order of their numbers.
    pub fn globals(&self) -> &[Global]
        ensures { result.now ≡ self.now.globals }
    {
        self.globals.as_slice()
    }

    /// Returns the number of `main`.
    pub fn main(&self) -> usize
        ensures value { result ≡ self.now.main }
        ensures there { result < length self.now.functions }
    {
        self.main
    }
}
