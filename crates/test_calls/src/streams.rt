//! Streams that fail, also half way.
ghost use Rattle.std.specs.Prelude.{◌≡◌, ◌≢◌, ◌≤◌, ℕ, List, map, true};
ghost use Rattle.std.specs.List.{FoldsTo};
ghost use Rattle.clap.specs.Words.{takes};
ghost use Rattle.command_line.specs.Commands.{mcc_app};
ghost use Rattle.host.specs.Requests.{Request};
ghost use Rattle.command_line.specs.Programs.{IsAnswered};
ghost use Rattle.driver.specs.Program.{Answers as AnswersCommand};
ghost use Rattle.test_calls.specs.Files.{Answers};

use crate::files::OneFile;
use driver::mcc;
use std::alloc::{AllocError, Global};
use std::io::{self, Write};
use std::sync::Wait;
use std::thread::Threads;

const TEXT: &[u8] = b"block\naddiu $10,$10,1\nreturn\norder\nreturn\nslot addiu $10,$10,1\n";

const THREE: &[u8] = b"int main(void){out(10);out(200);out(3000);}";

const PRINTED: &[u8] = b"10\n200\n3000\ndone 0\n";

const CHECK: &[&str] = &["mcc", "check", "x"];

const PLAIN: &[&str] = &["mcc", "build", "x", "y", "--plain"];

const CANNOT_PRINT: &str = "fault 61 CannotWrite\nerror: standard output can't be written\n";

/// A writer that takes so many bytes and no more, and that can't be flushed where it took them all.
#[derive(Drop)]
struct Short {
    room: usize,
    taken: Vec<u8>,
}

impl Short {
    fn of(alloc: Global, room: usize) -> Short {
        let taken = Vec::new(alloc);
        Short { room, taken }
    }
}

impl Write for Short {
    fn write(&mut self, buf: &[u8]) -> io::Result<usize> {
        let count = buf.len().min(self.room);
        if count == 0 && !buf.is_empty() {
            return Err(io::Error::from(io::ErrorKind::BrokenPipe));
        }
        if self.taken.extend_from_slice(&buf[..count]).is_err() {
            return Err(io::Error::from(io::ErrorKind::OutOfMemory));
        }
        self.room -= count;
        Ok(count)
    }

    fn flush(&mut self) -> io::Result<()> {
        Err(io::Error::from(io::ErrorKind::BrokenPipe))
    }
}

/// Returns the status of `mcc` with these words over this file, and what it writes to standard output.
fn printed_by<T: Threads + Wait + Sync>(
    threads: &T,
    alloc: Global,
    file: &mut OneFile<'_>,
    words: &[&str],
) -> (u8, Vec<u8>)
    ensures most { result.0 ≤ 4 }
    ensures answered { takes mcc_app (map (λ s. s.now) words.entry.now) ≡ true → result.0 ≢ 1
        → (requests : List Request) × (told : List (List ℕ)) × FoldsTo Answers file.old requests file.new
        × IsAnswered AnswersCommand (map (λ s. s.now) words.entry.now) result.0 requests result.1.items told }
{
    let mut out = Vec::new(alloc);
    let mut err = Vec::new(alloc);
    let status = mcc(threads, alloc, words, file, &mut out, &mut err);
    (status, out)
}

/// Reports whether `mcc` tells that it can't write, and leaves the beginning of what it has to print, where standard output takes so many
/// bytes.
fn breaks_off<T: Threads + Wait + Sync>(
    threads: &T,
    alloc: Global,
    words: &[&str],
    bytes: &[u8],
    printed: &[u8],
    room: usize,
) -> bool {
    let mut file = OneFile::of(alloc, bytes);
    let mut out = Short::of(alloc, room);
    let mut err = Vec::new(alloc);
    let status = mcc(threads, alloc, words, &mut file, &mut out, &mut err);
    let is_told = status == 1 && err.as_slice() == CANNOT_PRINT.as_bytes();
    is_told && out.taken.len() == room && printed.starts_with(out.taken.as_slice())
}

/// Returns the first number of bytes after which `mcc` doesn't tell that.
fn first_untold<T: Threads + Wait + Sync>(
    threads: &T,
    alloc: Global,
    words: &[&str],
    bytes: &[u8],
    printed: &[u8],
) -> Option<usize> {
    for room in 0..=printed.len() {
        if !breaks_off(threads, alloc, words, bytes, printed, room) {
            return Some(room);
        }
    }
    None
}

#[test]
fn output_that_breaks_off_is_told(rt: HostRuntime) {
    let mut file = OneFile::of(rt.alloc(), THREE);
    let (_, line) = printed_by(&rt, rt.alloc(), &mut file, PLAIN);
    let image = file.written.as_slice();
    let rows: &[(&[&str], &[u8], &[u8])] = &[
        (CHECK, TEXT, b"same\n"),
        (&["mcc", "interp", "x"], THREE, PRINTED),
        (&["mcc", "run", "x"], image, PRINTED),
        (PLAIN, THREE, line.as_slice()),
    ];
    for &(words, bytes, printed) in rows {
        let untold = first_untold(&rt, rt.alloc(), words, bytes, printed);
        assert!(rt; untold.is_none(), "after {untold:?} bytes");
    }
}

#[test]
fn standard_error_that_takes_nothing_keeps_the_status(rt: HostRuntime) {
    for &(words, status) in [(CHECK, 1), (&["mcc", "frob"], 2)].as_slice() {
        let mut out = Vec::new(rt.alloc());
        let mut err = Short::of(rt.alloc(), 0);
        let mut file = OneFile::of(rt.alloc(), b"");
        let got = mcc(&rt, rt.alloc(), words, &mut file, &mut out, &mut err);
        assert!(rt; got == status && out.is_empty(), "not status {status}");
    }
}
