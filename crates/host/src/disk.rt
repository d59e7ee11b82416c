//! The files of the host.

ghost use Rattle.std.specs.Prelude.{⊤};

use crate::files::{FileFault, Files};
use std::alloc::Global;
use std::fs::{File, Metadata, OpenFile, OpenOptions};
use std::io::{ErrorKind, Read, Write};
use std::path::PathBuf;
use std::rt::Files as HostFiles;
use std::{fs, io};

/// The longest text that a command reads deeply, in bytes. It refuses a longer one at once.
pub const LONGEST_TEXT: usize = 1_048_576;

/// The bytes of the longest legal file, an image: its head and counts, 1,048,576 words of code and 1,048,576 bytes of data.
const LONGEST_FILE: u64 = 44 + 4 * 1_048_576 + 1_048_576;

/// How many names are tried for the file that is written beside an image.
const NAMES: u32 = 100;

/// The host's files. `/dev/stdin` is read from standard input itself, since a pipe can't always be
/// opened by that name.
#[derive(Drop)]
pub struct Disk<'a, R: HostFiles + AllocGlobal + Input> {
    pub rt: &'a R,
    /// The bytes of the longest text for which there is stack.
    pub longest: usize,
    /// The file that was read last, by its one path without links: it isn't written over.
    pub source: Option<PathBuf>,
}

impl<'a, R: HostFiles + AllocGlobal + Input> Files for Disk<'a, R> {
    // nothing is known of the host's files; what is asked of them is said over any files
    ghost answers = { λ old request new. ⊤ };

    /// Reads no more than the longest legal file and one byte. A text that has grown since its stack was asked for is as if memory
    /// was refused.
    fn read(&mut self, alloc: Global, name: &str) -> Result<Vec<u8>, FileFault> {
        let text = match name {
            "/dev/stdin" => told(start_of(alloc, self.rt.reader()))?,
            _ => told(start_of(alloc, told(File::open(self.rt, name))?))?,
        };
        if text.len().min(LONGEST_TEXT) > self.longest {
            return Err(FileFault::NoMemory);
        }
        self.source = match fs::canonicalize(self.rt, name) {
            Ok(place) => Some(place),
            Err(e) if e.kind() == ErrorKind::OutOfMemory => return Err(FileFault::NoMemory),
            Err(_) => None,
        };
        Ok(text)
    }

    fn write(&mut self, name: &str, bytes: &[u8]) -> Result<(), FileFault> {
        told(replace(self.rt, self.source.as_ref(), name, bytes))
    }
}

/// Reads the longest legal file and one byte at most.
fn start_of<I: Read + Drop>(alloc: Global, input: I) -> io::Result<Vec<u8>> {
    let mut bytes = Vec::new(alloc);
    input.take(LONGEST_FILE + 1).read_to_end(&mut bytes)?;
    Ok(bytes)
}

/// Makes these bytes the file of this name, unless it is the source: written beside it and renamed, so that an interrupt or a full disk
/// leaves the old file. What isn't a file yet is made in place where it stands for something else: a link, a device, a pipe.
fn replace<R: HostFiles + AllocGlobal>(
    rt: &R,
    source: Option<&PathBuf>,
    name: &str,
    bytes: &[u8],
) -> io::Result<()> {
    match rt.metadata(name) {
        Ok(old) if old.is_file() => {
            // (a file that can't be written stays, and a link leads to the same file as before)
            let _may_write = OpenOptions::new().write(true).open(rt, name)?;
            let place = fs::canonicalize(rt, name)?;
            if source == Some(&place) {
                return Err(ErrorKind::AlreadyExists.into());
            }
            write_beside(rt, place.as_str(), bytes, Some(&old))
        }
        Ok(_) => fs::write(rt, name, bytes),
        Err(_) if rt.symlink_metadata(name).is_ok() => fs::write(rt, name, bytes),
        Err(_) => write_beside(rt, name, bytes, None),
    }
}

/// Writes a new file beside the place and renames it, or in place if the folder takes no new file.
fn write_beside<R: HostFiles + AllocGlobal>(
    rt: &R,
    place: &str,
    bytes: &[u8],
    old: Option<&Metadata>,
) -> io::Result<()> {
    for number in 0..NAMES {
        let beside = format!(in rt.alloc(); "{place}.{number}.new")?;
        match File::create_new(rt, beside.as_str()) {
            Ok(file) => return fill_and_rename(rt, file, beside.as_str(), place, bytes, old),
            Err(e) if e.kind() == ErrorKind::AlreadyExists => {}
            Err(_) => return fs::write(rt, place, bytes),
        }
    }
    fs::write(rt, place, bytes)
}

/// Writes the bytes to a new file, which gets the permissions of the old one and its name, or is removed after an error.
fn fill_and_rename<R: HostFiles>(
    rt: &R,
    mut file: R::File,
    beside: &str,
    place: &str,
    bytes: &[u8],
    old: Option<&Metadata>,
) -> io::Result<()> {
    let mut done = file.write_all(bytes);
    if let (Ok(()), Some(old)) = (&done, old) {
        done = file.set_permissions(old.permissions());
    }
    if done.is_ok() {
        done = rt.rename(beside, place);
    }
    if done.is_err() {
        let _ = rt.remove_file(beside);
    }
    done
}

/// Returns what is told of an answer of the host: of a fault whether memory was refused.
fn told<T: Drop>(answer: io::Result<T>) -> Result<T, FileFault> {
    match answer {
        Ok(value) => Ok(value),
        Err(e) if e.kind() == ErrorKind::OutOfMemory => Err(FileFault::NoMemory),
        Err(_) => Err(FileFault::Failed),
    }
}
