//! The rule of a deque of tasks, and what a step on it tells.
ghost use Rattle.std.specs.Prelude.{List, ℕ, ◌≡◌};
ghost use Rattle.steal_pool.specs.declared.view.View.{View};
ghost use Rattle.steal_pool.specs.Rule.{Dealt, after_taking, after_putting, maker, shared};

use crate::view::View;
use crossbeam_deque::protocol::{Outcome, Protocol, Split};
use std::marker::PhantomData;

/// A fact of one deque that its steps carry on: of the tasks that lie there, and of what its passes know. It is known of no
/// tasks and views but those that the deque had.
pub trait Fact {
    ghost real: { List ℕ → List View → Type 0 };
}

/// What a caller has noted of a view whose deque was found empty.
pub trait Note {
    ghost empty: { View → Type 0 };
}

/// What is left on the deque and what its passes took is what was put there.
pub struct Shared<K>(PhantomData<K>);

impl<K: Fact> Protocol<usize, View> for Shared<K> {
    ghost holds = { λ items views. Dealt items views × K.real items views };

    ghost first = { maker };

    // No pass comes with it: the rule doesn't let one.
    ghost guest = { maker };
}

// Of a new pass for another member.
pub(crate) struct Shares;

impl Split<View> for Shares {
    ghost left = { λ v. v };

    ghost right = { shared };
}

// Of a step that puts tasks.
pub(crate) struct Puts;

impl Outcome<usize, View> for Puts {
    ghost then = { λ v xs w. w ≡ after_putting v xs };
}

// Of a step that takes a task.
pub(crate) struct Takes<N>(PhantomData<N>);

impl<N: Note> Outcome<usize, View> for Takes<N> {
    ghost then = { λ v xs w. w ≡ after_taking v xs };

    ghost empty = { N.empty };
}
