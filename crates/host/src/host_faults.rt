//! What is told of the faults of files and of standard output: their lines, and below them which file and why.

ghost use Rattle.std.specs.Prelude.{◌≡◌, IfSome};
ghost use Rattle.host.specs.Requests.{TellsLine};
ghost use Rattle.host.specs.Texts.{host_fault_text};

use crate::fault::{Complaints, HostFault, tell};
use crate::place::file_page;
use std::alloc::Global;
use std::fmt;

/// Tells the line of a fault, and below it the file as it was named, what is wrong with it, and a hint. If memory is refused, it tells the
/// line alone.
pub fn tell_file<E: Complaints, F: fmt::Display>(
    alloc: Global,
    err: &mut E,
    fault: &F,
    file: &str,
    message: &str,
    hint: Option<&str>,
) -> u8
    ensures status { result ≡ 1 }
    ensures told { IfSome (F.output fault.now) (λ text. TellsLine E.tells err.old text err.new) }
{
    err.line(fault);
    if let Ok(page) = file_page(alloc, file, message, hint) {
        err.bytes(page.bytes());
    }
    1
}

/// Tells why a file isn't read; of refused memory the line alone.
pub fn tell_unread<E: Complaints>(alloc: Global, err: &mut E, file: &str, fault: HostFault) -> u8
    ensures status { result ≡ 1 }
    ensures told { TellsLine E.tells err.old (host_fault_text fault) err.new }
{
    match fault {
        HostFault::NoMemory => tell(err, &fault),
        _ => tell_file(alloc, err, &fault, file, "this file can't be read", None),
    }
}

const IMAGE_HINT: &str = "it has to be a new file, or one that may be written and isn't the source";

/// Tells why an image isn't written; of refused memory the line alone.
pub fn tell_unwritten<E: Complaints>(alloc: Global, err: &mut E, file: &str, fault: HostFault) -> u8
    ensures status { result ≡ 1 }
    ensures told { TellsLine E.tells err.old (host_fault_text fault) err.new }
{
    match fault {
        HostFault::NoMemory => tell(err, &fault),
        _ => tell_file(
            alloc,
            err,
            &fault,
            file,
            "the image can't be written",
            Some(IMAGE_HINT),
        ),
    }
}

/// What is told below a refusal of standard output.
const UNPRINTED: &str = "error: standard output can't be written";

/// Tells why an answer isn't printed.
pub fn tell_unprinted<E: Complaints>(err: &mut E, fault: HostFault) -> u8
    ensures status { result ≡ 1 }
    ensures told { TellsLine E.tells err.old (host_fault_text fault) err.new }
{
    let status = tell(err, &fault);
    match fault {
        HostFault::CannotWrite => err.line(&UNPRINTED),
        HostFault::CannotRead | HostFault::NoMemory => {}
    }
    status
}
