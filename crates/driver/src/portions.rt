//! A run in portions: what a portion wrote is printed and sent on before the next one begins.

ghost use Rattle.std.specs.Prelude.{◌≡◌, ◌<◌, ℕ, [], ◌∷◌, ◌++◌, None, IfErr, IfOk, IfSome, MatchOption, OnErr, OnOk};
ghost use Rattle.std.specs.Io.KnownBytes.{Appends};
ghost use Rattle.host.specs.Requests.{IsSent, WasRefused};
ghost use Rattle.runs.specs.Runs.{RunOutcome};
ghost use Rattle.runs.specs.Portions.{IsCount, WentOn, after_output};
ghost use Rattle.driver.specs.RunCommand.{CutsOff, IsLast, words_in};

use host::{Broken, FormedWord, Output, WordForm};
use runs::Advance;
use std::alloc::{AllocError, Global};
use std::{fmt, io};

/// The most words or steps of a portion.
const PORTION: u64 = 1000000;

/// The words of output that end a portion.
const OUTPUTS: usize = 8192;

/// How a run ended, and how many words or steps it took.
#[derive(Clone, Copy)]
pub struct Finish<E> {
    pub end: E,
    pub count: u64,
}

/// What runs in portions and writes words.
pub trait Resumable {
    type End: Copy + Drop;

    // what so many words or steps more come to
    ghost comes_to: { Self → ℕ → RunOutcome Self.End };

    // the end of a run that would go on
    ghost more: { Self.End };

    /// Goes on for at most so many words or steps, until so many words are written. `Err` only if memory runs out.
    fn go_on(
        &mut self,
        alloc: Global,
        most: u64,
        outputs: usize,
    ) -> Result<Advance<Self::End>, AllocError>
        ensures went { IfOk result (λ a. WentOn comes_to more most self.old self.new a) }
        ensures moved { IfOk result (λ a. 0 < most → 0 < a.ran) };

    /// Returns what was written so far, the first word first.
    fn output(&self) -> &[u32]
        ensures { result.now ≡ (comes_to self.now 0).output };

    /// Forgets what was written so far.
    fn clear_output(&mut self)
        ensures { (n : ℕ) → comes_to self.old n ≡ after_output (comes_to self.old 0).output (comes_to self.new n) };

    /// Returns the end of a run that would go on.
    fn more(&self) -> Self::End
        ensures end { result ≡ more }
        ensures now { (comes_to self.now 0).end ≡ more };
}

/// Prints each word in its form on a line.
pub(crate) fn put_words<W: Output>(out: &mut W, form: WordForm, words: &[u32]) -> io::Result<()>
    ensures lines { OnOk result (Appends (W.contents out.old) (W.contents out.new) (words_in form words.now)) }
    ensures refused { OnErr result (WasRefused W.refuses out.new) }
{
    for word in words {
        let word = *word;
        out.put_line(&FormedWord { word, form })?;
    }
    Ok(())
}

/// Prints a run's last line, and sends on all that was printed.
pub(crate) fn put_end<W: Output, L: fmt::Display>(out: &mut W, end: &L) -> io::Result<()>
    ensures line { OnOk result (IfSome (L.output end.now)
        (λ last. Appends (W.contents out.old) (W.contents out.new) (last ++ 10 ∷ []))) }
    ensures sent { OnOk result (IsSent W.sends out.new) }
    ensures refused { OnErr result (WasRefused W.refuses out.new) }
{
    out.put_line(end)?;
    out.send()
}

/// Returns how a run ends behind a portion, if it does: as the portion says, or, where nothing is left, as one that would go on.
fn end_of<R: Resumable>(run: &R, end: Option<R::End>, left: u64) -> Option<R::End>
    ensures last { MatchOption result ((end ≡ None) × (0 < left)) (IsLast R.comes_to run.now end left) }
    ensures all { IfSome result (λ _. end ≡ None → left ≡ 0) }
{
    match end {
        Some(end) => Some(end),
        None if left == 0 => Some(run.more()),
        None => None,
    }
}

/// Runs for at most so many words or steps. The output of each portion is printed and sent on before the next one begins; the last portion's
/// isn't sent yet. A portion takes at most a million words or steps, or writes 8192 words.
pub(crate) fn stream<R: Resumable, W: Output, F: Drop>(
    alloc: Global,
    run: &mut R,
    form: WordForm,
    most: u64,
    out: &mut W,
) -> Result<Finish<R::End>, Broken<F>>
    ensures took { IfOk result (λ f. Appends (W.contents out.old) (W.contents out.new) (words_in form (R.comes_to run.old most).output)) }
    ensures end { IfOk result (λ f. f.end ≡ (R.comes_to run.old most).end) }
    ensures count { IfOk result (λ f. IsCount (R.comes_to run.old) R.more most f.count) }
    ensures cut { IfErr result (CutsOff form (R.comes_to run.old most).output (W.contents out.old) (W.contents out.new)
        (WasRefused W.refuses out.new)) }
{
    let mut left = most;
    loop {
        let Ok(advance) = run.go_on(alloc, left.min(PORTION), OUTPUTS) else {
            return Err(Broken::Midway);
        };
        left -= advance.ran;
        put_words(out, form, run.output())?;
        if let Some(end) = end_of(run, advance.end, left) {
            let count = most - left;
            return Ok(Finish { end, count });
        }
        out.send()?;
        run.clear_output();
    }
}
