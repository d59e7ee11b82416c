//! The values of a command, out of the matches of its words.

ghost use Rattle.std.specs.Prelude.{◌≡◌, true, Some, IfOk, IfErr, IfNone, IfSome, map, codes};
ghost use Rattle.clap.specs.declared.error.ErrorKind.TheVariants.{OutOfMemory};
ghost use Rattle.clap.specs.Words.{FailsBy, HasMatchesOf, fault_of, first_of, found_of, kind_of, one_of, rows_of, subcommand_rows_of, takes};
ghost use Rattle.host.specs.declared.numbers.WordForm.TheVariants.{Unsigned};
ghost use Rattle.command_line.specs.declared.command.Choice.TheVariants.{Form, Level as LevelOf};
ghost use Rattle.command_line.specs.declared.command.Level.TheVariants.{C};
ghost use Rattle.command_line.specs.Commands.{mcc_app, HasValues, IsBounded, IsCommand, IsFlag, IsMaybeNumber, IsNamed, IsNoChoice, IsNumber, NamesNone, form_name, level_name};

use crate::command::{AskedBuild, AskedInterp, AskedRun, Choice, Command, Level};
use crate::grammar::grammar;
use clap::{ArgMatches, Error};
use host::WordForm;
use std::alloc::{AllocError, Global};
use term_table::{MAX_HEADS, MAX_NODES, MAX_PASSES};

fn flag(values: &ArgMatches<'_>, id: &str) -> bool
    ensures { IsFlag (one_of id.now (rows_of (found_of values.now))) result }
{
    values.get_flag(id)
}

/// Returns a check of one file or of several; None also if memory runs out to their list.
fn entered_check<'a>(alloc: Global, values: &ArgMatches<'a>) -> Option<Command<'a>>
    ensures { IfSome result (HasValues (codes "check") (rows_of (found_of values.now))) }
{
    let files = values.get_strs("FILE")?;
    let explain = flag(values, "explain");
    match files {
        [] => None,
        [file] => Some(Command::Check {
            file: *file,
            explain,
        }),
        _ => {
            let Ok(files) = Vec::from_slice(alloc, files) else {
                return None;
            };
            Some(Command::CheckEach { files, explain })
        }
    }
}

/// Returns the value of an option, or the number that stands for it; None if its text is no number.
fn number_or(values: &ArgMatches<'_>, id: &str, default: u32) -> Option<u32>
    ensures { IfSome result (IsNumber (one_of id.now (rows_of (found_of values.now))) default) }
{
    match values.try_get_one::<u32>(id) {
        Err(_) => None,
        Ok(None) => Some(default),
        Ok(Some(n)) => Some(n),
    }
}

/// Returns the value of an option from low to high, or its default.
fn bounded_number(
    values: &ArgMatches<'_>,
    id: &str,
    default: u32,
    low: u32,
    high: u32,
) -> Option<u32>
    ensures { IfSome result (IsBounded (one_of id.now (rows_of (found_of values.now))) default low high) }
{
    let n = number_or(values, id, default)?;
    if n < low || n > high {
        return None;
    }
    Some(n)
}

fn form_named(name: &str) -> Option<WordForm>
    ensures form { IfSome result (λ form. name.now ≡ form_name form) }
    ensures none { IfNone result (NamesNone Form name.now) }
{
    match name {
        "unsigned" => Some(WordForm::Unsigned),
        "signed" => Some(WordForm::Signed),
        "hex" => Some(WordForm::Hex),
        _ => None,
    }
}

fn level_named(name: &str) -> Option<Level>
    ensures level { IfSome result (λ level. name.now ≡ level_name level) }
    ensures none { IfNone result (NamesNone LevelOf name.now) }
{
    match name {
        "c" => Some(Level::C),
        "rtl" => Some(Level::Rtl),
        "blocks" => Some(Level::Blocks),
        _ => None,
    }
}

/// Returns the form that the option names, or its value where that names none.
fn entered_form<'a>(values: &ArgMatches<'a>) -> Result<WordForm, &'a str>
    ensures form { IfOk result (IsNamed form_name Unsigned (first_of (codes "as") (rows_of (found_of values.now)))) }
    ensures none { IfErr result (λ name. IsNoChoice Form (rows_of (found_of values.now)) name.now) }
{
    let Some(name) = values.get_str("as") else {
        return Ok(WordForm::Unsigned);
    };
    match form_named(name) {
        Some(form) => Ok(form),
        None => Err(name),
    }
}

/// Returns the level that the option names, or its value where that names none.
fn entered_level<'a>(values: &ArgMatches<'a>) -> Result<Level, &'a str>
    ensures level { IfOk result (IsNamed level_name C (first_of (codes "at") (rows_of (found_of values.now)))) }
    ensures none { IfErr result (λ name. IsNoChoice LevelOf (rows_of (found_of values.now)) name.now) }
{
    let Some(name) = values.get_str("at") else {
        return Ok(Level::C);
    };
    match level_named(name) {
        Some(level) => Ok(level),
        None => Err(name),
    }
}

/// Returns the value of an option, if it is given; the outer None if its text is no number.
fn maybe_number(values: &ArgMatches<'_>, id: &str) -> Option<Option<u32>>
    ensures { IfSome result (IsMaybeNumber (one_of id.now (rows_of (found_of values.now)))) }
{
    match values.try_get_one::<u32>(id) {
        Err(_) => None,
        Ok(None) => Some(None),
        Ok(Some(n)) => Some(Some(n)),
    }
}

fn entered_interp<'a>(values: &ArgMatches<'a>) -> Option<Command<'a>>
    ensures { IfSome result (HasValues (codes "interp") (rows_of (found_of values.now))) }
{
    let source = values.get_str("SOURCE")?;
    let depth = bounded_number(values, "depth", 256, 1, 4096)?;
    let steps = number_or(values, "steps", 1000000)?;
    let level = match entered_level(values) {
        Ok(level) => level,
        Err(value) => {
            let choice = Choice::Level;
            return Some(Command::NoChoice { choice, value });
        }
    };
    let form = match entered_form(values) {
        Ok(form) => form,
        Err(value) => {
            let choice = Choice::Form;
            return Some(Command::NoChoice { choice, value });
        }
    };
    Some(Command::Interp(AskedInterp {
        source,
        depth,
        steps: steps as u64,
        level,
        form,
        count: flag(values, "count"),
    }))
}

fn entered_build<'a>(values: &ArgMatches<'a>) -> Option<Command<'a>>
    ensures { IfSome result (HasValues (codes "build") (rows_of (found_of values.now))) }
{
    let source = values.get_str("SOURCE")?;
    let image = values.get_str("IMAGE")?;
    let plain = flag(values, "plain");
    let depth = bounded_number(values, "depth", 256, 1, 4096)?;
    let workers = bounded_number(values, "workers", 4, 1, MAX_PASSES as u32)?;
    let nodes = bounded_number(values, "nodes", 65536, 1, MAX_NODES as u32)?;
    let heads = bounded_number(values, "heads", 1024, 1, MAX_HEADS as u32)?;
    Some(Command::Build(AskedBuild {
        source,
        image,
        plain,
        depth,
        workers,
        nodes,
        heads,
    }))
}

fn entered_run<'a>(values: &ArgMatches<'a>) -> Option<Command<'a>>
    ensures { IfSome result (HasValues (codes "run") (rows_of (found_of values.now))) }
{
    let image = values.get_str("IMAGE")?;
    let steps = number_or(values, "steps", 1000000)?;
    let form = match entered_form(values) {
        Ok(form) => form,
        Err(value) => {
            let choice = Choice::Form;
            return Some(Command::NoChoice { choice, value });
        }
    };
    Some(Command::Run(AskedRun {
        image,
        steps: steps as u64,
        form,
        count: flag(values, "count"),
    }))
}

fn entered_list<'a>(values: &ArgMatches<'a>) -> Option<Command<'a>>
    ensures { IfSome result (HasValues (codes "list") (rows_of (found_of values.now))) }
{
    let image = values.get_str("IMAGE")?;
    let asm = flag(values, "asm");
    Some(Command::List { image, asm })
}

fn entered_show<'a>(values: &ArgMatches<'a>) -> Option<Command<'a>>
    ensures { IfSome result (HasValues (codes "show") (rows_of (found_of values.now))) }
{
    let source = values.get_str("SOURCE")?;
    let stage = values.get_str("stage");
    let function = values.get_str("function");
    let block = maybe_number(values, "block")?;
    let dot = flag(values, "dot");
    Some(Command::Show {
        source,
        stage,
        function,
        block,
        dot,
    })
}

/// Returns the command of the matches, with its values.
fn entered_command<'a>(alloc: Global, matches: &ArgMatches<'a>) -> Option<Command<'a>>
    ensures { IfSome result (λ w. (name : _) × (rows : _) × (subcommand_rows_of matches.now ≡ Some (name, rows)) × HasValues name rows w) }
{
    let (name, values) = matches.subcommand()?;
    match name {
        "check" => entered_check(alloc, values),
        "interp" => entered_interp(values),
        "build" => entered_build(values),
        "run" => entered_run(values),
        "list" => entered_list(values),
        "show" => entered_show(values),
        _ => None,
    }
}

/// Returns clap's matches of the words.
fn matches_of<'a>(alloc: Global, words: &'a [&'a str]) -> Result<ArgMatches<'a>, Error>
    ensures kinds { FailsBy (fault_of mcc_app (map (λ s. s.now) words.entry.now)) result }
    ensures matches { IfOk result (HasMatchesOf mcc_app (map (λ s. s.now) words.entry.now)) }
    ensures refused { IfErr result (λ e. takes mcc_app (map (λ s. s.now) words.entry.now) ≡ true → kind_of e ≡ OutOfMemory) }
{
    let command = grammar(alloc)?;
    command.try_get_matches_from(words)
}

/// Finds what the words ask for; the first is the program's name. An error is clap's, of the first kind of fault that its grammar has for
/// them: help, wrong words, or out of memory. Where clap takes the words it can only be out of memory.
pub fn words<'a>(alloc: Global, words: &'a [&'a str]) -> Result<Command<'a>, Error>
    ensures kinds { FailsBy (fault_of mcc_app (map (λ s. s.now) words.entry.now)) result }
    ensures command { IfOk result (IsCommand (map (λ s. s.now) words.entry.now)) }
    ensures refused { IfErr result (λ e. takes mcc_app (map (λ s. s.now) words.entry.now) ≡ true → kind_of e ≡ OutOfMemory) }
{
    let matches = matches_of(alloc, words)?;
    entered_command(alloc, &matches).ok_or(Error::from(AllocError))
}
