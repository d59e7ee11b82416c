//! What is told of wrong words, and the help.
ghost use Rattle.std.specs.Prelude.{◌≡◌, ◌≤◌, OnErr, OnOk};
ghost use Rattle.clap.specs.declared.error.ErrorKind.TheVariants.{OutOfMemory};
ghost use Rattle.clap.specs.Words.{kind_of};
ghost use Rattle.host.specs.declared.fault.HostFault.{HostFault};
ghost use Rattle.host.specs.declared.fault.HostFault.TheVariants.{CannotWrite, NoMemory};
ghost use Rattle.host.specs.Requests.{IsSent, LeavesOutput, TellsLine, WasRefused};
ghost use Rattle.host.specs.Texts.{host_fault_text};
ghost use Rattle.host.specs.WrongWords.{IsFaultOfWords, IsHelp, IsMistake};

use crate::fault::{Complaints, HostFault, tell};
use crate::host_faults::tell_unprinted;
use crate::output::Output;
use clap::Error;
use clap::error::ErrorKind;
use std::alloc::{AllocError, Global};
use std::io;

/// Words that other compilers take before the name of an image.
const IMAGE_WORDS: &[&str] = &["-o", "--output"];

/// What is said of them in place of clap's tip.
const IMAGE_TIP: &str = "  tip: the image is the second name: mcc build SOURCE IMAGE\n";

/// How clap's text on a build's words goes on after its tip.
const BUILD_USAGE: &str = "\nUsage: mcc build";

/// Prints the help or the version.
fn print_help<W: Output>(out: &mut W, error: &Error) -> io::Result<()>
    ensures sent { OnOk result (IsSent W.sends out.new) }
    ensures refused { OnErr result (WasRefused W.refuses out.new) }
{
    out.put_text(error)?;
    out.send()
}

/// Returns clap's text, with a tip of ours if its own misleads.
fn text_with_tip(alloc: Global, error: &Error) -> Result<String, AllocError> {
    let mut text = format!(in alloc; "{error}")?;
    for word in IMAGE_WORDS {
        let tip = format!(in alloc;
            "  tip: to pass '{word}' as a value, use '-- {word}'\n{BUILD_USAGE}"
        )?;
        let ours = format!(in alloc; "{IMAGE_TIP}{BUILD_USAGE}")?;
        text = text.as_str().replace(alloc, tip.as_str(), ours.as_str())?;
    }
    Ok(text)
}

/// Tells clap's text: help on standard output, wrong words on standard error. The answer is the exit status.
pub fn tell_words<W: Output, E: Complaints>(
    alloc: Global,
    error: &Error,
    out: &mut W,
    err: &mut E,
) -> u8
    ensures most { result ≤ 2 }
    ensures help { result ≡ 0 → IsHelp (kind_of error.now) }
    ensures sent { result ≡ 0 → IsSent W.sends out.new }
    ensures wrong { result ≡ 2 → IsMistake (kind_of error.now) × (out.new ≡ out.old) }
    ensures refused { kind_of error.now ≡ OutOfMemory → result ≡ 1 }
    ensures told { result ≡ 1 → (fault : HostFault) × TellsLine E.tells err.old (host_fault_text fault) err.new
        × LeavesOutput fault (out.new ≡ out.old) (WasRefused W.refuses out.new) × IsFaultOfWords (kind_of error.now) fault }
{
    match error.kind() {
        ErrorKind::OutOfMemory => tell(err, &HostFault::NoMemory),
        ErrorKind::DisplayHelp | ErrorKind::DisplayVersion => match print_help(out, error) {
            Ok(()) => 0,
            Err(_) => tell_unprinted(err, HostFault::CannotWrite),
        },
        _ => {
            // clap's own text if memory runs out to ours
            match text_with_tip(alloc, error) {
                Ok(text) => err.text(&text),
                Err(_) => err.text(error),
            }
            2
        }
    }
}
