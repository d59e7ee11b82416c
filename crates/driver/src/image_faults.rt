//! What is told of a file that is no image.

ghost use Rattle.std.specs.Prelude.{◌≡◌};
ghost use Rattle.host.specs.Requests.{TellsLine};
ghost use Rattle.image.specs.Texts.{image_fault_text};

use host::{Complaints, tell, tell_file};
use image::ImageFault;
use std::alloc::Global;

/// The bytes of the shortest head.
const HEAD: usize = 20;

/// The bytes by which a text is told from other files.
const BEGINNING: usize = 16;

/// Returns what is wrong with a file that has this fault as an image.
fn image_message(fault: ImageFault, bytes: &[u8]) -> Option<&'static str> {
    match fault {
        ImageFault::Magic => Some("this is no image of mcc"),
        ImageFault::Version => Some("the version of this image is neither 1 nor 2"),
        ImageFault::Length if bytes.len() < HEAD => {
            Some("this is no image of mcc: it has fewer than 20 bytes")
        }
        ImageFault::Length => {
            Some("the head of this image has a number out of its range, or asks for another length")
        }
        ImageFault::Entry => Some("the entry of this image is the address of no code word"),
        ImageFault::Counts => {
            Some("the counts of this image's report are more than 1048576 together")
        }
        ImageFault::NoMemory => None,
    }
}

/// Reports whether the file may be a source instead of its image.
fn may_be_source(file: &str, bytes: &[u8], fault: ImageFault) -> bool {
    let has_head = match fault {
        ImageFault::Magic => false,
        ImageFault::Length => bytes.len() >= HEAD,
        _ => true,
    };
    let is_of_text = |byte: &u8| matches!(byte, b' '..=b'~' | b'\t' | b'\n' | b'\r');
    let begins_as_text = !bytes.is_empty() && bytes.iter().take(BEGINNING).all(is_of_text);
    !has_head && (file.ends_with(".c") || begins_as_text)
}

/// Prints the line of an image's fault, and below it the file and what is wrong with it. For a source it says how its image is made.
pub(crate) fn tell_image<E: Complaints>(
    alloc: Global,
    err: &mut E,
    file: &str,
    bytes: &[u8],
    fault: ImageFault,
) -> u8
    ensures status { result ≡ 1 }
    ensures told { TellsLine E.tells err.old (image_fault_text fault) err.new }
{
    let Some(message) = image_message(fault, bytes) else {
        return tell(err, &fault);
    };
    let hint = if may_be_source(file, bytes, fault) {
        let name = file.strip_suffix(".c").unwrap_or(file);
        format!(in alloc; "build it first: mcc build {file} {name}.image").ok()
    } else {
        None
    };
    tell_file(alloc, err, &fault, file, message, hint.as_deref())
}
