//! A program under way, with its calls, its globals and its output.
ghost use Rattle.std.specs.Prelude.{◌≡◌, ◌∷◌, [], length, nat_lt, IfSome, OnOk, OnErr, None};

use std::alloc::{AllocError, Global};
use std::mem;

/// A program under way: the call that runs, the calls that wait, the latest one last, the words of globals, and the output so far. Each
/// level has frames of its own kind.
#[derive(Drop)]
pub struct Interpreter<F> {
    pub frame: F,
    pub waiting: Vec<F>,
    pub globals: Vec<Vec<u32>>,
    pub output: Vec<u32>,
}

impl<F: Drop> Interpreter<F> {
    ghost use Rattle.runs.specs.Calls.{calls_of, callers_of};

    /// Returns a program before its first step: one call runs.
    pub fn new(alloc: Global, frame: F, globals: Vec<Vec<u32>>) -> Interpreter<F>
        ensures calls { calls_of result ≡ frame ∷ [] }
        ensures globals { result.globals ≡ globals }
        ensures output { result.output.items ≡ [] }
    {
        Interpreter {
            frame,
            waiting: Vec::new(alloc),
            globals,
            output: Vec::new(alloc),
        }
    }

    /// Reports whether fewer calls than `depth` are active, so that one more may begin.
    pub fn has_room(&self, depth: u32) -> bool
        ensures { result ≡ nat_lt (length (calls_of self.now)) depth }
    {
        self.waiting.len() < depth.saturating_sub(1) as usize
    }

    /// Begins a call, for which the one that ran waits. `Err` only if memory runs out, and then all is as before.
    pub fn enter(&mut self, frame: F) -> Result<(), AllocError>
        ensures calls { OnOk result (calls_of self.new ≡ frame ∷ calls_of self.old) }
        ensures left { OnErr result (calls_of self.new ≡ calls_of self.old) }
        ensures globals { self.new.globals ≡ self.old.globals }
        ensures output { self.new.output ≡ self.old.output }
    {
        self.waiting.reserve(1)?;
        let caller = mem::replace(&mut self.frame, frame);
        self.waiting.push(caller)?;
        Ok(())
    }

    /// Ends the call that runs, whose caller goes on, and returns its frame, or None if no caller waits.
    pub fn leave(&mut self) -> Option<F>
        ensures none { result ≡ None → callers_of self.old ≡ [] }
        ensures done { IfSome result (λ done. done ≡ self.old.frame) }
        ensures caller { IfSome result (λ _. callers_of self.old ≡ calls_of self.new) }
        ensures globals { self.new.globals ≡ self.old.globals }
        ensures output { self.new.output ≡ self.old.output }
    {
        let caller = self.waiting.pop()?;
        Some(mem::replace(&mut self.frame, caller))
    }
}
