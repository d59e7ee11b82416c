//! What a command has of its host, and a command over one file: it reads it, and prints its answer or tells its fault.

ghost use Rattle.std.specs.Prelude.{◌≡◌, ◌≢◌, ◌≤◌, ℕ, List, IfErr, IfOk, OnOk, ⊤};
ghost use Rattle.host.specs.OneFile.{BreaksBy, FileMeaning, IsAnswerStatus, TookAnswer, file_meaning};
ghost use Rattle.host.specs.Hosts.{RanOn};
ghost use Rattle.host.specs.Requests.{IsSent, TellsBeside, TellsLine, WasRefused, relations};

use crate::fault::{Complaints, HostFault, tell};
use crate::files::{Files, read_file};
use crate::host_faults::{tell_unprinted, tell_unread};
use crate::output::Output;
use std::alloc::Global;
use std::io;

/// What a command has of its host: memory, files, standard output and standard error. A command that is lent one keeps its references
/// (`IsSameHost`), so its caller knows what became of them. (rattle 13b: three references at one lifetime aren't covered: CONTRIBUTING.md)
#[derive(Drop)]
pub struct Host<'f, 'o, 'e, F, W, E> {
    pub alloc: Global,
    pub files: &'f mut F,
    pub out: &'o mut W,
    pub err: &'e mut E,
}

/// A file that was read, and what was found of its bytes.
#[derive(Drop)]
pub struct ReadFile<'a, T> {
    /// The file as it was named.
    pub file: &'a str,
    pub bytes: &'a [u8],
    pub found: T,
}

/// Why a command has not printed its answer.
#[derive(Drop)]
pub enum Broken<F> {
    /// The bytes have a fault, and nothing was printed.
    Faulty(F),
    /// The answer was left unprinted: standard output was refused, or memory before anything was printed.
    Unprinted(HostFault),
    /// Memory was refused once it had begun, and a beginning was printed.
    Midway,
}

impl<F> From<io::Error> for Broken<F> {
    ghost use Rattle.host.specs.declared.fault.HostFault.TheVariants.{CannotWrite};
    ghost use Rattle.host.specs.declared.one_file.Broken.TheVariants.{Unprinted};

    ghost from_gives = { λ _ broken. broken ≡ Unprinted CannotWrite };

    fn from(_refused: io::Error) -> Broken<F> {
        Broken::Unprinted(HostFault::CannotWrite)
    }
}

/// What came of the bytes: an answer that was printed, by its status and what is known of it, or why there is none.
pub type Ended<C> = Result<(u8, <C as FileCommand>::End), Broken<<C as FileCommand>::Fault>>;

/// What a command does with the bytes of its file.
pub trait FileCommand {
    // what is known of an answer that is printed
    type End: Drop;

    type Fault: Drop;

    ghost Answer: { Type 0 };

    ghost meaning: { Self → FileMeaning Self.Answer Self.Fault };

    // what is known of an end by these bytes
    ghost knows: { Self → List ℕ → Self.End → Type 0 } = { λ _ _ _. ⊤ };

    /// Works out the answer to these bytes, and prints and sends it.
    fn run<W: Output>(&self, alloc: Global, bytes: &[u8], out: &mut W) -> Ended<Self>
        ensures took { IfOk result (λ e. TookAnswer (meaning self.now) bytes.now (W.contents out.old) (W.contents out.new) e.0) }
        ensures possible { IfOk result (λ e. IsAnswerStatus e.0) }
        ensures knows { IfOk result (λ e. knows self.now bytes.now e.1) }
        ensures sent { OnOk result (IsSent W.sends out.new) }
        ensures broken { IfErr result (BreaksBy (meaning self.now) bytes.now (W.contents out.old) (W.contents out.new) (out.new ≡ out.old)
            (WasRefused W.refuses out.new)) };

    /// Tells what is said beside an answer that was printed.
    fn remark<E: Complaints>(&self, alloc: Global, of: &ReadFile<'_, (u8, Self::End)>, err: &mut E)
        requires { knows self.now of.now.bytes.now of.now.found.1 }
        ensures { TellsBeside E.tells err.old ((meaning self.now).Remarks of.now.bytes.now of.now.found.0) err.new };

    /// Tells the line of a fault, and below it what is known of it.
    fn tell<E: Complaints>(&self, alloc: Global, of: &ReadFile<'_, Self::Fault>, err: &mut E) -> u8
        ensures status { result ≡ 1 }
        ensures told { TellsLine E.tells err.old ((meaning self.now).line of.now.found) err.new };
}

/// Runs a command over its file and the streams. The answer is the exit status: 1 if it ended by a fault.
pub fn answer_file<C: FileCommand, F: Files, W: Output, E: Complaints>(
    host: &mut Host<F, W, E>,
    command: &C,
    file: &str,
) -> u8
    ensures most { result ≤ 4 }
    ensures not_wrong_words { result ≢ 2 }
    ensures ran { RanOn (relations F.answers W.contents W.sends W.refuses E.tells) host.old host.new (file_meaning (C.meaning command.now) file.now)
        result }
{
    let alloc = host.alloc;
    let text = match read_file(alloc, file, host.files) {
        Ok(text) => text,
        Err(fault) => return tell_unread(alloc, host.err, file, fault),
    };
    let bytes = text.as_slice();
    match command.run(alloc, bytes, host.out) {
        Ok(found) => {
            let of = ReadFile { file, bytes, found };
            command.remark(alloc, &of, host.err);
            of.found.0
        }
        Err(Broken::Faulty(found)) => command.tell(
            alloc,
            &ReadFile { file, bytes, found },
            host.err,
        ),
        Err(Broken::Unprinted(fault)) => tell_unprinted(host.err, fault),
        Err(Broken::Midway) => tell(host.err, &HostFault::NoMemory),
    }
}
