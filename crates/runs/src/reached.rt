//! What one step of a run comes to.
ghost use Rattle.std.specs.Prelude.{◌≡◌};

use crate::ran::End;

/// What a step has come to.
#[derive(Clone, Copy)]
pub enum Reached {
    /// The run goes on.
    Going,
    /// The program ended with this word.
    Ended(u32),
    /// It did what has no meaning.
    Failed,
}

impl Reached {
    ghost use Rattle.runs.specs.Steps.{end_of, last_reached};

    /// Returns what the return of the last call comes to: its word ends the program, and without one it has no meaning.
    pub fn of_last(word: Option<u32>) -> Reached
        ensures { result ≡ last_reached word }
    {
        match word {
            Some(word) => Reached::Ended(word),
            None => Reached::Failed,
        }
    }

    /// Returns how the run ended; None if it goes on.
    #[inline]
    pub fn end(self) -> Option<End>
        ensures { result ≡ end_of self }
    {
        match self {
            Reached::Going => None,
            Reached::Ended(word) => Some(End::Done(word)),
            Reached::Failed => Some(End::Wrong),
        }
    }
}
