//! The command `mcc build`. After an error standard output is as it was (`StopsBuild`).

ghost use Rattle.std.specs.Prelude.{◌≡◌, ◌≤◌, ℕ, List, All, Some, IfErr, IfOk, OnErr, OnOk};
ghost use Rattle.std.specs.Io.KnownBytes.{Appends};
ghost use Rattle.c_types.specs.Shape.{program_of};
ghost use Rattle.c_types.specs.Typed.{SpellsTyped};
ghost use Rattle.text.specs.Shown.{IsTold};
ghost use Rattle.host.specs.Hosts.{RanOn};
ghost use Rattle.host.specs.Requests.{IsSent, TellsBeside, TellsLine, WasRefused, relations};
ghost use Rattle.driver.specs.BuildTexts.{build_fault_text};
ghost use Rattle.driver.specs.Halves.{IsUnitOf};
ghost use Rattle.driver.specs.BuildCommand.{IsBuiltAs, IsUnbuilt, apart_meaning, build_meaning, built_text};

use crate::builds::{
    BuildFault, Built, Limit, front_of, phase_of, unit_of, unit_of_typed, workers_for, write,
};
use c_tree::Program;
use c_types::Typed;
use command_line::AskedBuild;
use host::{
    Complaints, Files, Host, HostFault, Output, Place, read_file, spot_of, tell_placed,
    tell_unprinted, tell_unread, tell_unwritten, write_file,
};
use list_scheduler::{FilledOrder, ListOrder};
use mblock::{BlockNumber, Order, Unit};
use messages::{Warning, explain, warnings_of};
use sched_phase::{schedule_all, schedule_plain};
use show::{Names, order_words};
use std::alloc::{AllocError, Global};
use std::io;
use std::mem::forget;
use std::sync::Wait;
use std::thread::Threads;
use steal_pool::Open;
use text::{Page, Writer};

/// Returns what a limit is about, for the line below its fault.
fn limit_text(limit: Limit) -> &'static str
    ensures { All IsTold result.now }
{
    match limit {
        Limit::Lowering => {
            "a function has more than 8000 values, or the program more than 1048575 branches and calls"
        }
        Limit::Selection => {
            "a call takes more than 32000 bytes of stack, all calls of --depth more than 16777216, \
             or the program has more than 1048576 blocks"
        }
        Limit::Assembly => {
            "a function has more than 32000 words of code, or the program more than 1048576"
        }
    }
}

/// Returns the number of the function that has most words, and how many; 0 is the code that calls main.
fn most_words(owner: &[BlockNumber], orders: &[Order]) -> (usize, usize) {
    let (mut number, mut words) = (0usize, 0usize);
    let mut most = (0, 0);
    for (k, order) in orders.iter().enumerate() {
        if k > 0
            && let Some(first) = owner.get(k)
            && first.number() as usize == k
        {
            number = number.saturating_add(1);
            words = 0;
        }
        words = words.saturating_add(order_words(order));
        if words > most.1 {
            most = (number, words);
        }
    }
    most
}

/// Returns the line that names the function of a text with most words of code; None if memory runs out to it.
pub(crate) fn largest_line(alloc: Global, text: &[u8]) -> Option<Page> {
    let unit = unit_of(alloc, text, 1).ok()?;
    let scheduled = schedule_plain(alloc, &unit).ok()?;
    let (number, words) = most_words(unit.owner(), scheduled.orders());
    let names = Names::read(alloc, text).ok()?;
    let name = names.function(number.checked_sub(1)?);
    let mut out = Writer::new(alloc);
    out.put(&format_args!("the largest function, '{name}', has {words} words in plain order\n"));
    out.end().ok()
}

/// Tells what a limit is about, and which function has most code, if that is limited.
fn tell_limit<E: Complaints>(alloc: Global, err: &mut E, text: &[u8], limit: Limit)
    ensures { TellsBeside E.tells err.old (All (All IsTold)) err.new }
{
    let about = limit_text(limit);
    err.line(&about);
    if limit == Limit::Assembly
        && let Some(line) = largest_line(alloc, text)
    {
        err.bytes(line.bytes());
    }
}

/// Returns where the fault of a text lies, and what is said of it. Other faults have no place.
fn place_of<'a>(alloc: Global, source: &'a str, text: &'a [u8], fault: BuildFault) -> Place<'a> {
    let mut place = Place {
        source,
        text,
        at: None,
        about: None,
    };
    if let BuildFault::Source(found) = fault {
        place.at = found.offset();
        if place.at.is_some() {
            place.about = explain(alloc, text, found).ok();
        }
    }
    place
}

/// Tells the line of a build's fault, and below it where it lies and what is said of it, or what the limit is about.
pub fn tell_build<E: Complaints>(
    alloc: Global,
    err: &mut E,
    source: &str,
    text: &[u8],
    fault: BuildFault,
) -> u8
    ensures status { result ≡ 1 }
    ensures told { TellsLine E.tells err.old (build_fault_text fault) err.new }
{
    let place = place_of(alloc, source, text, fault);
    let status = tell_placed(alloc, err, &fault, &place);
    // what is said of the fault is let go before a limit's line
    drop(place);
    if let BuildFault::Limit(limit) = fault {
        tell_limit(alloc, err, text, limit);
    }
    status
}

/// Prints the line of a build: how many blocks there are, and how many of them had which verdict.
pub fn print_built<W: Output>(out: &mut W, plain: bool, built: &Built) -> io::Result<()>
    ensures sent { OnOk result (IsSent W.sends out.new) }
    ensures refused { OnErr result (WasRefused W.refuses out.new) }
    ensures line { OnOk result (Appends (W.contents out.old) (W.contents out.new) (built_text plain built.now)) }
{
    let (blocks, report) = (built.blocks, built.report);
    if plain {
        out.put_text(&format_args!("blocks {blocks} plain\n"))?;
    } else {
        out.put_text(&format_args!("blocks {blocks} {report}\n"))?;
    }
    out.send()
}

/// Returns the image of a unit, its blocks in the order that is asked for. The schedule stays to the end of the program, since to let go of
/// each order takes longer than new memory does.
fn ordered_as_asked<T: Threads + Wait + Sync>(
    rt: &T,
    alloc: Global,
    unit: &Unit,
    asked: &AskedBuild<'_>,
) -> Result<Built, BuildFault>
    ensures built { IfOk result (λ b. (text : List ℕ) → IsUnitOf text asked.now.depth unit.now → IsBuiltAs text asked.now.depth asked.now.plain b) }
    ensures fault { IfErr result (λ f. (text : List ℕ) → IsUnitOf text asked.now.depth unit.now → IsUnbuilt text asked.now.depth f) }
{
    if asked.plain {
        let scheduled = schedule_plain(alloc, unit)?;
        let built = write(alloc, &scheduled);
        forget(scheduled);
        built
    } else {
        let workers = workers_for(unit.blocks().len(), asked.workers);
        let phase = phase_of(workers, asked.nodes, asked.heads);
        let reorder = FilledOrder(ListOrder);
        let scheduled = schedule_all(rt, alloc, unit, phase, &reorder, &Open)?;
        let built = write(alloc, &scheduled);
        forget(scheduled);
        built
    }
}

/// Returns the build of a typed program, as is asked.
fn built_as_asked<T: Threads + Wait + Sync>(
    rt: &T,
    alloc: Global,
    typed: &Typed,
    asked: &AskedBuild<'_>,
) -> Result<Built, BuildFault>
    ensures built { IfOk result (λ b. (text : List ℕ) → SpellsTyped text (program_of typed.now)
        → IsBuiltAs text asked.now.depth asked.now.plain b) }
    ensures fault { IfErr result (λ f. (text : List ℕ) → SpellsTyped text (program_of typed.now) → IsUnbuilt text asked.now.depth f) }
{
    let unit = unit_of_typed(alloc, typed, asked.depth)?;
    let built = ordered_as_asked(rt, alloc, &unit, asked);
    // the program ends soon, and nothing would use the memory of the blocks
    forget(unit);
    built
}

/// So many warnings are told at most.
const MOST: usize = 20;

/// Returns the lines of a text's warnings, in the order of their places, and how many more there are.
fn warnings_page(
    alloc: Global,
    source: &str,
    text: &[u8],
    program: &Program,
    typed: &Typed,
) -> Result<Page, AllocError> {
    let mut warnings = warnings_of(alloc, text, program, typed.globals(), typed.functions())?;
    warnings.sort_by_key(|warning: &Warning| warning.at)?;
    let mut out = Writer::new(alloc);
    for warning in warnings.iter().take(MOST) {
        out.within_line(source.as_bytes());
        out.put(&spot_of(text, warning.at));
        out.text(" warning: ");
        out.within_line(warning.message.as_bytes());
        out.text("\n");
    }
    let more = warnings.len().saturating_sub(MOST);
    if more > 0 {
        out.within_line(source.as_bytes());
        out.put(&format_args!(": and {more} more\n"));
    }
    out.end()
}

/// Returns the build of a text, and the lines of its warnings.
fn built_with_warnings<T: Threads + Wait + Sync>(
    rt: &T,
    alloc: Global,
    text: &[u8],
    asked: &AskedBuild<'_>,
) -> Result<(Built, Page), BuildFault>
    ensures built { IfOk result (λ both. IsBuiltAs text.now asked.now.depth asked.now.plain both.0) }
    ensures fault { IfErr result (IsUnbuilt text.now asked.now.depth) }
{
    let (program, typed) = front_of(alloc, text)?;
    // none are told if memory runs out to them
    let warnings = warnings_page(alloc, asked.source, text, &program, &typed);
    let warnings = warnings.unwrap_or(Page::empty(alloc));
    let built = built_as_asked(rt, alloc, &typed, asked);
    // the program ends soon, and to let go of trees node by node takes longer than new memory does
    forget(program);
    forget(typed);
    Ok((built?, warnings))
}

/// Tells lines of warnings, if there are any.
pub(crate) fn tell_warnings<E: Complaints>(err: &mut E, lines: &Page)
    ensures { TellsBeside E.tells err.old (All (All IsTold)) err.new }
{
    if !lines.bytes().is_empty() {
        err.bytes(lines.bytes());
    }
}

/// What is told if IMAGE is SOURCE, in the form of wrong words.
const ONE_NAME: &str = "\
error: SOURCE and IMAGE are one file

  tip: give the image a name of its own, as in 'mcc build prog.c prog.image'

For more information, try '--help'.
";

/// Builds the C program of a file, which isn't the image's.
fn build_apart<T: Threads + Wait + Sync, F: Files, W: Output, E: Complaints>(
    rt: &T,
    host: &mut Host<F, W, E>,
    asked: &AskedBuild<'_>,
) -> u8
    ensures most { result ≤ 1 }
    ensures ran { RanOn (relations F.answers W.contents W.sends W.refuses E.tells) host.old host.new (apart_meaning asked.now) result }
{
    let alloc = host.alloc;
    let text = match read_file(alloc, asked.source, host.files) {
        Ok(text) => text,
        Err(fault) => return tell_unread(alloc, host.err, asked.source, fault),
    };
    let both = match built_with_warnings(rt, alloc, text.as_slice(), asked) {
        Ok(both) => both,
        Err(fault) => return tell_build(alloc, host.err, asked.source, text.as_slice(), fault),
    };
    let (built, warnings) = (&both.0, &both.1);
    if let Err(fault) = write_file(asked.image, built.image.as_slice(), host.files) {
        return tell_unwritten(alloc, host.err, asked.image, fault);
    }
    match print_built(host.out, asked.plain, built) {
        Ok(()) => {
            tell_warnings(host.err, warnings);
            0
        }
        Err(_) => tell_unprinted(host.err, HostFault::CannotWrite),
    }
}

/// Builds the C program of a file. The image's file is written before anything is printed, and isn't touched where the
/// build fails. The answer is the exit status: 2 exactly if both names are the same, and then nothing is done.
pub fn build_file<T: Threads + Wait + Sync, F: Files, W: Output, E: Complaints>(
    rt: &T,
    host: &mut Host<F, W, E>,
    asked: &AskedBuild<'_>,
) -> u8
    ensures most { result ≤ 2 }
    ensures one_name { asked.now.source.now ≡ asked.now.image.now → result ≡ 2 }
    ensures refused { result ≡ 2 → (asked.now.source.now ≡ asked.now.image.now) × (host.new.files.now ≡ host.old.files.now)
        × (host.new.out.now ≡ host.old.out.now) }
    ensures ran { RanOn (relations F.answers W.contents W.sends W.refuses E.tells) host.old host.new (build_meaning asked.now) result }
{
    if asked.source == asked.image {
        host.err.text(&ONE_NAME);
        return 2;
    }
    build_apart(rt, host, asked)
}
