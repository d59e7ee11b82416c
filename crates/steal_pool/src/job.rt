//! What a pool runs, and whom it tells of each start.
ghost use Rattle.std.specs.Prelude.{ℕ};
ghost use Rattle.term_table.specs.Passes.{PassState};

use term_table::Pass;

/// Work that is cut into tasks by number. Threads share it.
pub trait Job {
    /// What a task answers.
    type Out: Send + Drop;

    /// The answer is right for the task of this number.
    ghost right: { Self → ℕ → Self.Out → Type 0 };

    /// The pass may be used for this job.
    ghost suits: { Self → PassState → Type 0 };

    /// Does the task of this number.
    fn work(&self, i: usize, pass: &mut Pass) -> Self::Out
        requires { suits self.now pass.old }
        ensures right { right self.now i result }
        ensures suits { suits self.now pass.new };
}

/// Is told of each task just before a worker begins it.
pub trait Gate {
    /// Notes that the task of this number is about to begin.
    fn enter(&self, i: usize);
}

/// A gate that does nothing.
#[derive(Clone, Copy)]
pub struct Open;

impl Gate for Open {
    fn enter(&self, _i: usize) {}
}
