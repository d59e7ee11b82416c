//! Members of whom nothing is noted.
ghost use Rattle.std.specs.Prelude.{⊤};

use crate::rule::{Fact, Note};

/// What is noted of a member: nothing.
pub struct Unmarked;

impl Fact for Unmarked {
    ghost real = { λ items views. ⊤ };
}

impl Note for Unmarked {
    ghost empty = { λ v. ⊤ };
}
