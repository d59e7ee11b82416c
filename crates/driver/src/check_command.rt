//! The command `mcc check` over one file, and `mcc check --explain`.

ghost use Rattle.std.specs.Prelude.{◌≡◌, ◌≤◌, ◌^◌, [], ◌∷◌, ◌++◌, true, All, length, IfOk, IfErr, OnErr, OnOk};
ghost use Rattle.std.specs.Io.KnownBytes.{Appends};
ghost use Rattle.text.specs.Shown.{IsShown};
ghost use Rattle.host.specs.Requests.{IsSent, TellsLine, WasRefused};
ghost use Rattle.driver.specs.CheckCommand.{IsMore, checking};
ghost use Rattle.driver.specs.CheckTexts.{IsCheckStatus, answer_text, check_fault_text, exit_status};

use crate::verdicts::{CheckAnswer, CheckFault, check};
use block_text::{PairFault, Text, read};
use explain::{explain_line, put_differing, put_unclean};
use host::{
    Broken, Complaints, Ended, FileCommand, HostFault, LONGEST_TEXT, Output, Place, ReadFile,
    line_offset, tell_placed,
};
use std::alloc::{AllocError, Global};
use std::io;
use text::{Explanation, Page, WIDTH, Writer};

/// Returns the status of an answer, with which the program ends: 0 for `same`, else 3.
pub(crate) fn status_of(answer: &CheckAnswer) -> u8
    ensures status { result ≡ exit_status answer.now }
    ensures possible { IsCheckStatus result }
{
    match answer {
        CheckAnswer::Same => 0,
        _ => 3,
    }
}

/// Returns what is said of a verdict on the block and order of a text; nothing of `same`.
fn explanation(alloc: Global, text: &[u8], answer: &CheckAnswer) -> Result<Page, AllocError>
    requires { length text.now ≤ 2 ^ 20 }
    ensures { IfOk result (All IsShown) }
{
    let mut out = Writer::new(alloc);
    match read(alloc, text) {
        Ok(Text { block, order }) => match answer {
            CheckAnswer::Same => {}
            CheckAnswer::Full => out.text("the table has no room for more than 16384 terms\n"),
            CheckAnswer::Unclean(rule) => put_unclean(&mut out, *rule, &order),
            CheckAnswer::Differs(place) => put_differing(alloc, &mut out, place, &block, &order)?,
        },
        // (no text that has a verdict)
        Err(PairFault::Line(_)) => {}
        Err(PairFault::NoMemory) => return Err(AllocError),
    }
    out.end()?.cut(alloc, WIDTH)
}

/// Returns what stands after the line of an answer: what explains it, if that is asked for. Err if memory runs out to it.
pub(crate) fn more_of(
    alloc: Global,
    explain: bool,
    text: &[u8],
    answer: &CheckAnswer,
) -> Result<Page, AllocError>
    requires { length text.now ≤ 2 ^ 20 }
    ensures more { IfOk result (IsMore explain) }
    ensures refused { IfErr result (λ _. explain ≡ true) }
{
    if explain {
        explanation(alloc, text, answer)
    } else {
        Ok(Page::empty(alloc))
    }
}

fn print<W: Output>(out: &mut W, answer: &CheckAnswer, more: &Page) -> io::Result<()>
    ensures sent { OnOk result (IsSent W.sends out.new) }
    ensures refused { OnErr result (WasRefused W.refuses out.new) }
    ensures lines { OnOk result (Appends (W.contents out.old) (W.contents out.new) ((answer_text answer.now ++ 10 ∷ []) ++ more.now)) }
{
    out.put_line(answer)?;
    out.put_bytes(more.bytes())?;
    out.send()
}

/// Tells the line of a fault of a text, and below it where it lies and what is said of it.
pub(crate) fn tell_check<E: Complaints>(
    alloc: Global,
    err: &mut E,
    file: &str,
    text: &[u8],
    fault: CheckFault,
) -> u8
    ensures status { result ≡ 1 }
    ensures told { TellsLine E.tells err.old (check_fault_text fault) err.new }
{
    let (at, about) = match fault {
        CheckFault::Line(line) => (
            Some(line_offset(text, line)),
            explain_line(alloc, text, line).ok(),
        ),
        // at the first byte too many
        CheckFault::Size => (
            Some(LONGEST_TEXT),
            Explanation::new(alloc, "the file has more than 1048576 bytes", None).ok(),
        ),
        CheckFault::NoMemory => (None, None),
    };
    let place = Place {
        source: file,
        text,
        at,
        about,
    };
    tell_placed(alloc, err, &fault, &place)
}

/// `mcc check` over one file, with `--explain` or without.
#[derive(Clone, Copy)]
pub struct CheckCommand {
    pub explain: bool,
}

impl FileCommand for CheckCommand {
    ghost use Rattle.driver.specs.declared.verdicts.CheckAnswer.{CheckAnswer};

    type End = ();

    type Fault = CheckFault;

    ghost Answer = { CheckAnswer };

    ghost meaning = { λ s. checking s.explain };

    fn run<W: Output>(&self, alloc: Global, bytes: &[u8], out: &mut W) -> Ended<Self> {
        let answer = match check(alloc, bytes) {
            Ok(answer) => answer,
            Err(fault) => return Err(Broken::Faulty(fault)),
        };
        let Ok(more) = more_of(alloc, self.explain, bytes, &answer) else {
            return Err(Broken::Unprinted(HostFault::NoMemory));
        };
        match print(out, &answer, &more) {
            Ok(()) => Ok((status_of(&answer), ())),
            Err(_) => Err(Broken::Unprinted(HostFault::CannotWrite)),
        }
    }

    fn remark<E: Complaints>(&self, _alloc: Global, _of: &ReadFile<'_, (u8, ())>, _err: &mut E) {}

    fn tell<E: Complaints>(&self, alloc: Global, of: &ReadFile<'_, CheckFault>, err: &mut E) -> u8 {
        tell_check(alloc, err, of.file, of.bytes, of.found)
    }
}
