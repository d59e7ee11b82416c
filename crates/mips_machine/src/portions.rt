//! A machine's run in portions.
ghost use Rattle.std.specs.Prelude.{◌≡◌, ◌<◌, ◌+◌, ℕ, IfOk, OnErr};
ghost use Rattle.runs.specs.Portions.{StopsAt, WentOn};
ghost use Rattle.mips_code.specs.declared.steps.Ending.TheVariants.{More};
ghost use Rattle.mips_machine.specs.Views.{machine_of};
ghost use Rattle.mips_machine.specs.Portions.{OutputGoesBefore, comes_to, emptied};

use crate::machine::Machine;
use mips_code::Ending;
use runs::Advance;
use std::alloc::AllocError;

impl<'a> Machine<'a> {
    /// Goes on for at most so many words, until it holds so many words of output. `Err` only if memory runs out: then fewer words than asked
    /// for ran.
    pub fn go_on(&mut self, words: u64, outputs: usize) -> Result<Advance<Ending>, AllocError>
        ensures went { IfOk result (λ a. WentOn comes_to More words self.old self.new a) }
        ensures moved { IfOk result (λ a. 0 < words → 0 < a.ran) }
        ensures outputs { IfOk result (λ a. StopsAt comes_to outputs words self.old self.new a) }
        ensures err { OnErr result ((k : ℕ) × (k < words) × ((n : ℕ) → comes_to self.old (k + n) ≡ comes_to self.new n)) }
        ensures code { self.new.code ≡ self.old.code }
    {
        let mut ran = 0;
        while ran < words {
            let ended = self.step()?;
            ran += 1;
            if let Some(end) = ended {
                return Ok(Advance {
                    end: Some(end),
                    ran,
                });
            }
            if outputs <= self.state.output.len() {
                return Ok(Advance { end: None, ran });
            }
        }
        Ok(Advance { end: None, ran })
    }

    /// Forgets what was written so far.
    pub fn clear_output(&mut self)
        ensures machine { machine_of self.new ≡ emptied (machine_of self.old) }
        ensures code { self.new.code ≡ self.old.code }
    {
        self.state.output.clear();
    }
}

/// States that a run doesn't depend on what was written before it.
pub fn output_goes_before()
    ensures { OutputGoesBefore }
{}
