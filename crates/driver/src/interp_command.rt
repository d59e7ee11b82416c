//! The command `mcc interp`: the run of a C text, at the level that is asked for.

ghost use Rattle.std.specs.Prelude.{◌≡◌, ◌≤◌, [], ◌∷◌, ◌++◌, Some, IfErr, IfOk, OnErr, OnOk};
ghost use Rattle.std.specs.Io.KnownBytes.{Appends};
ghost use Rattle.c_run.specs.Portions.{comes_to};
ghost use Rattle.runs.specs.Runs.{outcome_of};
ghost use Rattle.host.specs.OneFile.{IsAnswerStatus};
ghost use Rattle.host.specs.Requests.{IsSent, WasRefused};
ghost use Rattle.driver.specs.BuildFaults.{IsBeforeAssembly, IsBeforeSelection, IsBuildFault};
ghost use Rattle.driver.specs.Interps.{IsInterpFault, IsRun};
ghost use Rattle.driver.specs.Levels.{IsBlocksRun, IsRtlRun, IsStepCountAt, counts_at, interpreting};
ghost use Rattle.driver.specs.RunCommand.{words_in};
ghost use Rattle.driver.specs.Texts.{end_status, end_text};

use crate::build_command::tell_build;
use crate::builds::{BuildFault, rtl_of, typed_of, unit_of};
use crate::portions::{Resumable, put_end, put_words, stream};
use crate::reasons::wrong_page;
use crate::remarks::{Spent, tell_run};
use c_run::{UnderWay, begin};
use command_line::{AskedInterp, Level};
use host::{Broken, Complaints, Ended, FileCommand, HostFault, Output, ReadFile, WordForm};
use mips_machine::run_unit;
use runs::{Advance, End, Ran};
use std::alloc::{AllocError, Global};
use std::{fmt, io};

/// Returns what the program that the text spells does within so many steps, with so many calls active at most. It descends into the text:
/// run it on a thread with a large stack where the text may be hostile.
pub fn interp(alloc: Global, text: &[u8], depth: u32, steps: u64) -> Result<Ran, BuildFault>
    ensures ran { IfOk result (λ r. IsRun text.now depth steps (outcome_of r)) }
    ensures fault { IfErr result (IsInterpFault text.now) }
{
    let typed = typed_of(alloc, text)?;
    Ok(c_run::run(alloc, &typed, depth, steps)?)
}

/// Returns what RTL of the program that the text spells does within so many steps, with so many calls active at most.
pub fn interp_rtl(alloc: Global, text: &[u8], depth: u32, steps: u64) -> Result<Ran, BuildFault>
    ensures ran { IfOk result (λ r. IsRtlRun text.now depth steps (outcome_of r)) }
    ensures fault { IfErr result (IsBuildFault text.now 1) }
    ensures stage { IfErr result IsBeforeSelection }
{
    let lowered = rtl_of(alloc, text)?;
    Ok(rtl::run(alloc, &lowered, depth, steps)?)
}

/// Returns what the blocks of the program that the text spells do within so many items, with a stack for so many calls at once. Each runs
/// in its own order, and a load shows at once. An item is one instruction or one exit.
pub fn interp_blocks(alloc: Global, text: &[u8], depth: u32, steps: u64) -> Result<Ran, BuildFault>
    requires { 1 ≤ depth }
    ensures ran { IfOk result (λ r. IsBlocksRun text.now depth steps (outcome_of r)) }
    ensures fault { IfErr result (IsBuildFault text.now depth) }
    ensures stage { IfErr result IsBeforeAssembly }
{
    let unit = unit_of(alloc, text, depth)?;
    Ok(run_unit(alloc, &unit, steps)?)
}

/// The last line of a program's run.
#[derive(Clone, Copy)]
struct EndLine(End);

impl fmt::Display for EndLine {
    ghost output = { λ e. Some (end_text e.0) };

    fn fmt<W: fmt::Write>(&self, f: &mut fmt::Formatter<W>) -> fmt::Result {
        match self.0 {
            End::Done(word) => write!(f, "done {word}"),
            End::Wrong => f.write_str("wrong"),
            End::More => f.write_str("more"),
        }
    }
}

/// Returns the status of a program's run.
fn end_status(end: End) -> u8
    ensures status { result ≡ end_status end }
    ensures possible { IsAnswerStatus result }
{
    match end {
        End::Done(_) => 0,
        End::Wrong => 3,
        End::More => 4,
    }
}

impl Resumable for UnderWay<'_> {
    type End = End;

    ghost use Rattle.runs.specs.declared.ran.End.TheVariants.{More};

    ghost comes_to = { λ m n. comes_to m n };

    ghost more = { More };

    fn go_on(
        &mut self,
        alloc: Global,
        most: u64,
        outputs: usize,
    ) -> Result<Advance<End>, AllocError> {
        UnderWay::go_on(self, alloc, most, outputs)
    }

    fn output(&self) -> &[u32] {
        UnderWay::output(self)
    }

    fn clear_output(&mut self) {
        UnderWay::clear_output(self)
    }

    fn more(&self) -> End {
        End::More
    }
}

/// Prints a run that is over: each word of output in its form and how it ended, each on a line.
fn print_run<W: Output>(out: &mut W, form: WordForm, ran: &Ran) -> io::Result<()>
    ensures sent { OnOk result (IsSent W.sends out.new) }
    ensures refused { OnErr result (WasRefused W.refuses out.new) }
    ensures lines { OnOk result (Appends (W.contents out.old) (W.contents out.new)
        (words_in form (outcome_of ran.now).output ++ (end_text ran.now.end ++ 10 ∷ []))) }
{
    put_words(out, form, ran.output.as_slice())?;
    put_end(out, &EndLine(ran.end))
}

/// Reports whether the steps of a run are counted: only at the level of C are they known.
fn counts_steps(asked: &AskedInterp<'_>) -> bool
    ensures { result ≡ counts_at asked.now.level asked.now.count }
{
    match asked.level {
        Level::C => asked.count,
        Level::Rtl | Level::Blocks => false,
    }
}

/// `mcc interp`. At the level of C it prints while the program runs.
#[derive(Clone, Copy)]
pub struct InterpCommand<'a> {
    pub asked: AskedInterp<'a>,
}

impl FileCommand for InterpCommand<'_> {
    ghost use Rattle.runs.specs.Runs.{Outcome};

    // how many steps ran; of a level below C 0
    type End = u64;

    type Fault = BuildFault;

    ghost Answer = { Outcome };

    ghost meaning = { λ s. interpreting s.asked.level s.asked.depth s.asked.steps s.asked.form s.asked.count };

    ghost knows = { λ s text count. IsStepCountAt s.asked.level text s.asked.depth s.asked.steps count };

    fn run<W: Output>(&self, alloc: Global, bytes: &[u8], out: &mut W) -> Ended<Self> {
        let AskedInterp {
            depth,
            steps,
            form,
            ..
        } = self.asked;
        match self.asked.level {
            Level::C => {
                let typed = match typed_of(alloc, bytes) {
                    Ok(typed) => typed,
                    Err(fault) => return Err(Broken::Faulty(BuildFault::Source(fault))),
                };
                let Ok(mut running) = begin(alloc, &typed, depth) else {
                    return Err(Broken::Faulty(BuildFault::NoMemory));
                };
                let finish = match stream(alloc, &mut running, form, steps, out) {
                    Ok(finish) => finish,
                    Err(broken) => return Err(broken),
                };
                match put_end(out, &EndLine(finish.end)) {
                    Ok(()) => Ok((end_status(finish.end), finish.count)),
                    Err(_) => Err(Broken::Unprinted(HostFault::CannotWrite)),
                }
            }
            Level::Rtl => {
                let ran = match interp_rtl(alloc, bytes, depth, steps) {
                    Ok(ran) => ran,
                    Err(fault) => return Err(Broken::Faulty(fault)),
                };
                match print_run(out, form, &ran) {
                    Ok(()) => Ok((end_status(ran.end), 0)),
                    Err(_) => Err(Broken::Unprinted(HostFault::CannotWrite)),
                }
            }
            Level::Blocks => {
                let ran = match interp_blocks(alloc, bytes, depth, steps) {
                    Ok(ran) => ran,
                    Err(fault) => return Err(Broken::Faulty(fault)),
                };
                match print_run(out, form, &ran) {
                    Ok(()) => Ok((end_status(ran.end), 0)),
                    Err(_) => Err(Broken::Unprinted(HostFault::CannotWrite)),
                }
            }
        }
    }

    fn remark<E: Complaints>(&self, alloc: Global, of: &ReadFile<'_, (u8, u64)>, err: &mut E) {
        let AskedInterp { depth, steps, .. } = self.asked;
        let (status, count) = of.found;
        let page = match self.asked.level {
            Level::C if status == 3 => wrong_page(alloc, of.file, of.bytes, depth, steps),
            _ => None,
        };
        let spent = Spent {
            unit: "steps",
            count,
            most: steps,
            counts: counts_steps(&self.asked),
        };
        tell_run(err, spent, status, page);
    }

    fn tell<E: Complaints>(&self, alloc: Global, of: &ReadFile<'_, BuildFault>, err: &mut E) -> u8 {
        tell_build(alloc, err, of.file, of.bytes, of.found)
    }
}
