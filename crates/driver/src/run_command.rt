//! The command `mcc run`.

ghost use Rattle.std.specs.Prelude.{◌≡◌, Some, IfErr, IfOk};
ghost use Rattle.image.specs.Images.{IsImageFault};
ghost use Rattle.mips_machine.specs.Portions.{comes_to};
ghost use Rattle.mips_machine.specs.Views.{outcome_of};
ghost use Rattle.host.specs.OneFile.{IsAnswerStatus};
ghost use Rattle.driver.specs.ImageRuns.{IsImageRun, IsWordCount};
ghost use Rattle.driver.specs.RunCommand.{running};
ghost use Rattle.driver.specs.RunTexts.{ending_status, ending_text};

use crate::image_faults::tell_image;
use crate::portions::{Finish, Resumable, put_end, stream};
use crate::reasons::page_of;
use crate::remarks::{Spent, tell_run};
use command_line::AskedRun;
use host::{Broken, Complaints, Ended, FileCommand, HostFault, Output, ReadFile};
use image::{ImageFault, read_image};
use mips_asm::list;
use mips_code::Ending;
use mips_isa::{CODE_BASE, Rule};
use mips_machine::{Machine, MachineRan, load, run};
use runs::Advance;
use std::alloc::{AllocError, Global};
use std::fmt;
use text::{Page, Writer};

/// Returns what the image of these bytes does within so many words.
pub fn run_image(alloc: Global, bytes: &[u8], steps: u64) -> Result<MachineRan, ImageFault>
    ensures ran { IfOk result (λ r. IsImageRun bytes.now steps (outcome_of r)) }
    ensures fault { IfErr result (IsImageFault bytes.now) }
{
    let image = read_image(alloc, bytes)?;
    Ok(run(alloc, &image, steps)?)
}

/// The last line of a machine's run.
#[derive(Clone, Copy)]
struct EndingLine(Ending);

impl fmt::Display for EndingLine {
    ghost output = { λ e. Some (ending_text e.0) };

    fn fmt<W: fmt::Write>(&self, f: &mut fmt::Formatter<W>) -> fmt::Result {
        match self.0 {
            Ending::Halt(word) => write!(f, "done {word}"),
            Ending::Stuck(rule) => write!(f, "stuck {rule}"),
            Ending::More => f.write_str("more"),
        }
    }
}

/// Returns the status of an image's run.
fn ending_status(end: Ending) -> u8
    ensures status { result ≡ ending_status end }
    ensures possible { IsAnswerStatus result }
{
    match end {
        Ending::Halt(_) => 0,
        Ending::Stuck(_) => 3,
        Ending::More => 4,
    }
}

impl Resumable for Machine<'_> {
    type End = Ending;

    ghost use Rattle.mips_code.specs.declared.steps.Ending.TheVariants.{More};

    ghost comes_to = { λ m n. comes_to m n };

    ghost more = { More };

    fn go_on(
        &mut self,
        _alloc: Global,
        most: u64,
        outputs: usize,
    ) -> Result<Advance<Ending>, AllocError> {
        Machine::go_on(self, most, outputs)
    }

    fn output(&self) -> &[u32] {
        Machine::output(self)
    }

    fn clear_output(&mut self) {
        Machine::clear_output(self)
    }

    fn more(&self) -> Ending {
        Ending::More
    }
}

/// Returns a rule of the machine in words.
fn rule_words(rule: Rule) -> &'static str {
    match rule {
        Rule::M1 => "it reads or writes the register that the word before it loads",
        Rule::M2 =>
            "fewer than two words stand between mfhi or mflo and this multiplication or division",
        Rule::M3 => "a branch or jump is in a delay slot",
        Rule::M4 => "a division by 0, or of -2147483648 by -1",
        Rule::M5 => "the address of the word is no multiple of 4",
        Rule::M6 => "the address isn't mapped: data and stack are",
        Rule::M7 => "no code word is there",
        Rule::M8 => "the word is no instruction",
        Rule::M9 => "register 2 has neither 1 (print register 4) nor 10 (halt)",
    }
}

/// Returns why the image of these bytes is stuck at an address, by a rule.
fn stuck_page(alloc: Global, bytes: &[u8], at: u32, rule: Rule) -> Option<Page> {
    let image = read_image(alloc, bytes).ok()?;
    let words = rule_words(rule);
    let mut out = Writer::new(alloc);
    out.put(&format_args!("stuck: at 0x{at:x}: {words}\n"));
    // the line of the listing that has the code word there, if there is one
    let number = at.saturating_sub(CODE_BASE) as usize / 4;
    if at >= CODE_BASE && at % 4 == 0 && number < image.code().len() {
        let listing = list(alloc, &image).ok()?;
        if let Some(line) = listing.as_str().lines().nth(number) {
            out.text(line);
            out.text("\n");
        }
    }
    page_of(alloc, out)
}

/// `mcc run`.
#[derive(Clone, Copy)]
pub struct RunCommand<'a> {
    pub asked: AskedRun<'a>,
}

impl FileCommand for RunCommand<'_> {
    ghost use Rattle.mips_code.specs.Machines.{MachineOutcome};

    // how the run ended, after so many words, and at which address
    type End = (Finish<Ending>, u32);

    type Fault = ImageFault;

    ghost Answer = { MachineOutcome };

    ghost meaning = { λ s. running s.asked.steps s.asked.form s.asked.count };

    ghost knows = { λ s bytes end. IsWordCount bytes s.asked.steps end.0.count };

    fn run<W: Output>(&self, alloc: Global, bytes: &[u8], out: &mut W) -> Ended<Self> {
        let image = match read_image(alloc, bytes) {
            Ok(image) => image,
            Err(fault) => return Err(Broken::Faulty(fault)),
        };
        let Ok(mut machine) = load(alloc, &image) else {
            return Err(Broken::Faulty(ImageFault::NoMemory));
        };
        let finish = match stream(alloc, &mut machine, self.asked.form, self.asked.steps, out) {
            Ok(finish) => finish,
            Err(broken) => return Err(broken),
        };
        match put_end(out, &EndingLine(finish.end)) {
            Ok(()) => Ok((ending_status(finish.end), (finish, machine.pc()))),
            Err(_) => Err(Broken::Unprinted(HostFault::CannotWrite)),
        }
    }

    fn remark<E: Complaints>(
        &self,
        alloc: Global,
        of: &ReadFile<'_, (u8, (Finish<Ending>, u32))>,
        err: &mut E,
    ) {
        let (status, (finish, at)) = of.found;
        let page = match finish.end {
            Ending::Stuck(rule) => stuck_page(alloc, of.bytes, at, rule),
            Ending::Halt(_) | Ending::More => None,
        };
        let spent = Spent {
            unit: "words",
            count: finish.count,
            most: self.asked.steps,
            counts: self.asked.count,
        };
        tell_run(err, spent, status, page);
    }

    fn tell<E: Complaints>(&self, alloc: Global, of: &ReadFile<'_, ImageFault>, err: &mut E) -> u8 {
        tell_image(alloc, err, of.file, of.bytes, of.found)
    }
}
