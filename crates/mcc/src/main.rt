//! The program `mcc`: `driver::mcc` over the real arguments, files and streams.
//!
//! Contract: `answer`
//! - What `main` runs does what `driver::mcc` does, over any files and streams; that these are the host's, no contract says.
//!
//! | Tested | In |
//! |---|---|
//! | the whole program | tests/ |
//! | the stack holds the deepest sources | tests/c/deepest.case |
//! | scarce stack, memory and disk, endless files, refused writes | `.ci/limits` |
#![tactic(auto)]

ghost use Rattle.std.specs.Prelude.{◌≤◌, map};
ghost use Rattle.host.specs.Requests.{host_of, relations};
ghost use Rattle.driver.specs.Program.{RanWords};

use driver::mcc;
use host::{Complaints, Disk, Files, HostFault, LONGEST_TEXT, Output, UntilRefused, tell};
use std::alloc::{AllocError, Global};
use std::env::Env;
use std::io::{BufWriter, Write};
use std::process::ExitCode;
use std::rt::Files as HostFiles;
use std::sync::Wait;
use std::thread::{Builder, Threads};
use std::{env, io, thread};

/// What a program has of its host: its threads and memory, its words (the first is its name), files, and two streams.
#[derive(Drop)]
struct System<'a, T, F, W, E> {
    threads: &'a T,
    alloc: Global,
    words: &'a [&'a str],
    files: F,
    out: W,
    err: E,
}

/// Runs `driver::mcc` over what its host has. The answer is the exit status.
fn answer<T: Threads + Wait + Sync, F: Files, W: Output, E: Complaints>(
    system: &mut System<'_, T, F, W, E>,
) -> u8
    ensures { RanWords (relations F.answers W.contents W.sends W.refuses E.tells) (host_of system.old.files system.old.out system.old.err)
        (host_of system.new.files system.new.out system.new.err) (map (λ s. s.now) system.old.words.now) result }
{
    let out = &mut system.out;
    let err = &mut system.err;
    mcc(
        system.threads,
        system.alloc,
        system.words,
        &mut system.files,
        out,
        err,
    )
}

/// Returns the words of the command line, the program's name first.
fn owned_words<R: Env + AllocGlobal>(rt: &R) -> io::Result<Vec<String>> {
    let words = env::args(rt)?.collect::<Vec<String>>(rt.alloc())?;
    Ok(words)
}

/// Returns the words of the command line after `mcc`, as which help and errors name every program that has some of its commands.
fn named_words<'a>(alloc: Global, owned: &'a [String]) -> Result<Vec<&'a str>, AllocError> {
    let mut args = Vec::new(alloc);
    args.push("mcc")?;
    for word in owned.iter().skip(1) {
        args.push(word.as_str())?;
    }
    Ok(args)
}

/// Tells why the words could not be had: memory was refused, or one isn't UTF-8. The answer is the exit status.
fn tell_no_words<E: Write>(err: &mut E, e: &io::Error) -> u8
    ensures { result ≤ 2 }
{
    if e.kind() == io::ErrorKind::OutOfMemory {
        return tell(err, &HostFault::NoMemory);
    }
    let _ = err.write_all(b"error: a word isn't UTF-8\n");
    2
}

/// What a command needs whatever its text is, in bytes.
const LEAST: usize = 0x100_0000;

/// What one byte of text may need, in bytes: a statement in another takes up to 6,600 of stack, and five of text (`if(1)`).
const FOR_A_BYTE: usize = 1_400;

/// What holds the deepest text that the sizes allow, in bytes (tests/c/deepest.case).
const MOST: usize = 0x4000_0000;

/// Returns a bound of the bytes of text that the words name: the length of the longest of these files.
fn longest_text<R: HostFiles>(rt: &R, words: &[&str]) -> usize {
    let mut longest = 0usize;
    for word in words {
        longest = longest.max(length_of(rt, word));
    }
    longest
}

/// Returns the length of the text of this name, at most `LONGEST_TEXT`, which is also the length of a stream. It is 0 if there is no such
/// file.
fn length_of<R: HostFiles>(rt: &R, name: &str) -> usize {
    match rt.metadata(name) {
        Ok(found) if found.is_file() => found.len().min(LONGEST_TEXT as u64) as usize,
        Ok(_) => LONGEST_TEXT,
        Err(_) => 0,
    }
}

/// Returns how much stack a command asks for whose text has at most so many bytes. It is bytes of address space: memory is had as the stack
/// grows.
fn stack_for(longest: usize) -> usize {
    MOST.min(LEAST + FOR_A_BYTE * longest.min(LONGEST_TEXT))
}

/// The bytes of a block that glibc asks the system for apart from its heap. From one of 32 MiB with its head it learns nothing.
const APART: usize = 31 << 20;

/// Has the allocator reuse the memory of large lists. From its heap, glibc takes what is smaller than a block that it gave back to the
/// system (`M_MMAP_THRESHOLD` of mallopt(3)). Nothing changes if the block is refused.
fn reuse_large_memory(alloc: Global) {
    let _block: Result<Vec<u8>, _> = Vec::with_capacity(alloc, APART);
}

/// Has the heap of this thread grow at once, by one call of the system in place of one for each page. After `reuse_large_memory`
/// glibc keeps what is freed there. Nothing changes if the block is refused.
fn grow_heap(alloc: Global) {
    let _block: Result<Vec<u8>, _> = Vec::with_capacity(alloc, APART - (1 << 20));
}

/// Has `mcc` answer on this thread, whose stack holds texts of `longest` bytes.
fn work<
    T: Threads + Wait + Sync,
    R: HostFiles + AllocGlobal + Input,
    W: Write + Drop,
    E: Write + Drop,
>(threads: &T, rt: &R, words: &[&str], longest: usize, out: W, mut err: E) -> u8 {
    let alloc = rt.alloc();
    grow_heap(alloc);
    let files = Disk {
        rt,
        longest,
        source: None,
    };
    match BufWriter::new(alloc, UntilRefused::new(out)) {
        Ok(out) => answer(&mut System {
            threads,
            alloc,
            words,
            files,
            out,
            err,
        }),
        Err(_) => tell(&mut err, &HostFault::NoMemory),
    }
}

/// Has `mcc` answer on a thread whose stack is as large as the texts ask that its words name. If no such thread can be
/// had, memory was refused.
fn work_apart(threads: &(impl Threads + Wait + Sync), rt: &HostRuntime, words: &[&str]) -> u8 {
    let longest = longest_text(rt, words);
    thread::scope(thread::scope_env(), threads, |scope| {
        let started = Builder::new().stack_size(stack_for(longest)).spawn_scoped(
            scope,
            move || work(threads, rt, words, longest, rt.stdout(), rt.stderr()),
        );
        match started {
            Ok(worker) => worker.join(threads),
            Err(_) => tell(&mut rt.stderr(), &HostFault::NoMemory),
        }
    })
}

/// Runs `mcc` over the words of the command line, the host's files and the standard streams, on a thread of its own. Both
/// `threads` and `rt` are the host, which hands on its threads in `main` alone.
fn run(threads: &(impl Threads + Wait + Sync), rt: &HostRuntime) -> ExitCode {
    reuse_large_memory(rt.alloc());
    let mut err = rt.stderr();
    let owned = match owned_words(rt) {
        Ok(owned) => owned,
        Err(e) => return ExitCode::from(tell_no_words(&mut err, &e)),
    };
    let words = match named_words(rt.alloc(), owned.as_slice()) {
        Ok(words) => words,
        Err(e) => return ExitCode::from(tell_no_words(&mut err, &io::Error::from(e))),
    };
    ExitCode::from(work_apart(threads, rt, words.as_slice()))
}

fn main(rt: HostRuntime) -> ExitCode {
    run(&rt, &rt)
}
