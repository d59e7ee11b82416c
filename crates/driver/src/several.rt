//! The command `mcc check` over several files: a line each, in their order.

ghost use Rattle.std.specs.Prelude.{◌≡◌, ◌⊎◌, [], Some, OnErr, OnOk, map};
ghost use Rattle.std.specs.Io.KnownBytes.{Appends};
ghost use Rattle.host.specs.Hosts.{IsSameHost, state_of};
ghost use Rattle.host.specs.Requests.{Asks, IsSent, Request, WasRefused, relations};
ghost use Rattle.driver.specs.CheckTexts.{IsCheckStatus};
ghost use Rattle.driver.specs.FileLine.{IsChecked, file_of, kept_more};
ghost use Rattle.driver.specs.Several.{BreaksOff, ChecksAll, line_text, no_totals, said_status, said_text, totals_after, worse};

use crate::check_command::{more_of, status_of, tell_check};
use crate::verdicts::{CheckAnswer, CheckFault, check};
use host::{
    Complaints, Files, Host, HostFault, Output, print_name, read_file, tell, tell_unprinted,
    tell_unread,
};
use std::alloc::Global;
use std::{fmt, io};
use text::Page;

/// What the line of a file says after its name.
#[derive(Clone, Copy)]
pub enum Said {
    Answer(CheckAnswer),
    Text(CheckFault),
    Host(HostFault),
}

impl fmt::Display for Said {
    ghost output = { λ said. Some (said_text said) };

    fn fmt<W: fmt::Write>(&self, f: &mut fmt::Formatter<W>) -> fmt::Result {
        match self {
            Said::Answer(answer) => write!(f, "{answer}"),
            Said::Text(fault) => write!(f, "{fault}"),
            Said::Host(fault) => write!(f, "{fault}"),
        }
    }
}

/// What is printed of a file: its line, and the lines after that.
#[derive(Drop)]
pub struct FileLine {
    pub said: Said,
    pub more: Page,
}

impl Said {
    /// Returns 1 for a fault, else the answer's status.
    pub(crate) fn status(self) -> u8
        ensures status { result ≡ said_status self }
        ensures possible { IsCheckStatus result }
    {
        match self {
            Said::Answer(answer) => status_of(&answer),
            Said::Text(_) | Said::Host(_) => 1,
        }
    }
}

/// Returns a line after which there are no others.
fn bare(alloc: Global, said: Said) -> FileLine
    ensures { result ≡ record { said = said; more = [] } }
{
    let more = Page::empty(alloc);
    FileLine { said, more }
}

/// Reads a file and checks its text. The answer is what is printed of it. Its fault is told, if it has one, or that memory was refused to what
/// explains the answer.
fn check_one<F: Files, E: Complaints>(
    alloc: Global,
    name: &str,
    explain: bool,
    files: &mut F,
    err: &mut E,
) -> FileLine
    ensures { (r : Request) × F.answers files.old r files.new × IsChecked E.tells err.old err.new explain (file_of name.now r result) }
{
    let text = match read_file(alloc, name, files) {
        Ok(text) => text,
        Err(fault) => {
            let _one = tell_unread(alloc, err, name, fault);
            return bare(alloc, Said::Host(fault));
        }
    };
    let text = text.as_slice();
    let answer = match check(alloc, text) {
        Ok(answer) => answer,
        Err(fault) => {
            let _one = tell_check(alloc, err, name, text, fault);
            return bare(alloc, Said::Text(fault));
        }
    };
    match more_of(alloc, explain, text, &answer) {
        Ok(more) => FileLine {
            said: Said::Answer(answer),
            more,
        },
        Err(_) => {
            let _one = tell(err, &HostFault::NoMemory);
            bare(alloc, Said::Host(HostFault::NoMemory))
        }
    }
}

fn print_line<W: Output>(out: &mut W, name: &str, line: &FileLine) -> io::Result<()>
    ensures line { OnOk result (Appends (W.contents out.old) (W.contents out.new) (line_text name.now line.now.said line.now.more)) }
    ensures refused { OnErr result (WasRefused W.refuses out.new) }
{
    print_name(out, name)?;
    out.put_bytes(b": ")?;
    out.put_line(&line.said)?;
    out.put_bytes(line.more.bytes())
}

/// How many files have which answer, and the worst status.
#[derive(Clone, Copy)]
pub struct Totals {
    pub status: u8,
    pub same: u64,
    pub unclean: u64,
    pub differs: u64,
    pub full: u64,
    /// Files with a fault.
    pub faulty: u64,
}

/// Returns the worse of two statuses: a fault's 1 before any other, else the greater.
fn worse(a: u8, b: u8) -> u8
    requires { IsCheckStatus a × IsCheckStatus b }
    ensures worse { result ≡ worse a b }
    ensures possible { IsCheckStatus result }
{
    if a == 1 || b == 1 { 1 } else { a.max(b) }
}

impl Totals {
    /// Returns the totals of no file.
    fn none() -> Totals
        ensures { result ≡ no_totals }
    {
        Totals {
            status: 0,
            same: 0,
            unclean: 0,
            differs: 0,
            full: 0,
            faulty: 0,
        }
    }

    /// Counts one more file, of which this is said.
    fn with(self, said: Said) -> Totals
        requires { IsCheckStatus self.status }
        ensures totals { result ≡ totals_after kept_more self said }
        ensures possible { IsCheckStatus result.status }
    {
        let mut totals = self;
        totals.status = worse(self.status, said.status());
        match &said {
            Said::Answer(answer) => match answer {
                CheckAnswer::Same => totals.same = self.same.saturating_add(1),
                CheckAnswer::Unclean(_) => totals.unclean = self.unclean.saturating_add(1),
                CheckAnswer::Differs(_) => totals.differs = self.differs.saturating_add(1),
                CheckAnswer::Full => totals.full = self.full.saturating_add(1),
            },
            Said::Text(_) | Said::Host(_) => totals.faulty = self.faulty.saturating_add(1),
        }
        totals
    }
}

/// Prints the verdicts on the texts of files, each on a line after the file's name, and, to explain them, lines after that. Each file
/// is read, checked and printed before the next one is read. A file with a fault has the fault's line there, and standard error is
/// told of it as of one file; the others go on. The answer is the exit status, the worst: 1 where a file has a fault, else 3 where an
/// answer isn't `same`, else 0. It ends early where standard output is refused; else the last line on standard error has the totals.
pub(crate) fn check_files<F: Files, W: Output, E: Complaints>(
    host: &mut Host<F, W, E>,
    names: &[&str],
    explain: bool,
) -> u8
    ensures possible { IsCheckStatus result }
    ensures same { IsSameHost host.old host.new }
    ensures each { (ChecksAll (relations F.answers W.contents W.sends W.refuses E.tells) (state_of host.old) (state_of host.new) explain
        (map (λ s. s.now) names.now) result × IsSent W.sends host.new.out.now)
        ⊎ ((result ≡ 1) × Asks (relations F.answers W.contents W.sends W.refuses E.tells) (state_of host.old) (state_of host.new)
        (BreaksOff explain (map (λ s. s.now) names.now))) }
{
    let mut totals = Totals::none();
    for name in names {
        let line = check_one(host.alloc, name, explain, host.files, host.err);
        match print_line(host.out, name, &line) {
            Ok(()) => totals = totals.with(line.said),
            Err(_) => return tell_unprinted(host.err, HostFault::CannotWrite),
        }
    }
    match host.out.send() {
        Ok(()) => {
            let files = names.len();
            let Totals {
                status,
                same,
                unclean,
                differs,
                full,
                faulty,
            } = totals;
            host.err.line(&format_args!(
                "{files} files: {same} same, {unclean} unclean, {differs} differs, {full} full, {faulty} faulty"
            ));
            status
        }
        Err(_) => tell_unprinted(host.err, HostFault::CannotWrite),
    }
}
