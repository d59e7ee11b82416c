//! The parts of a command line, as the grammar puts them together.

ghost use Rattle.std.specs.Prelude.{◌≡◌, Bool, false, IfOk};
ghost use Rattle.clap.specs.Words.{App, app_of, new_app, rule_of, with_rule, with_subcommand};
ghost use Rattle.clap.specs.declared.builder.command.Command.TheViews.{out-Command};
ghost use Rattle.command_line.specs.Commands.{with_required_subcommand, with_version};
ghost use Rattle.command_line.specs.Parts.{app_over, command_app, rule_for};

use crate::pages::Page;
use clap::builder::ValueParser;
use clap::{Arg, ArgAction, Command as CommandLine};
use std::alloc::{AllocError, Global};

/// How an argument is given.
#[derive(Clone, Copy)]
pub(crate) enum Form {
    /// By its place, once: it must be there.
    Required,
    /// By its place, one or more of them.
    Several,
    /// `--id N` with N from low to high.
    Number { low: u64, high: u64 },
    /// `--id`.
    Flag,
    /// `--id TEXT`.
    Text,
}

/// An argument with its help.
#[derive(Clone, Copy)]
pub(crate) struct Part<'a> {
    pub(crate) id: &'a str,
    pub(crate) form: Form,
    pub(crate) about: &'a str,
}

/// A command with its help and its arguments.
#[derive(Clone, Copy)]
pub(crate) struct CommandParts<'a> {
    pub(crate) name: &'a str,
    pub(crate) about: &'a str,
    pub(crate) page: Page,
    pub(crate) parts: &'a [Part<'a>],
}

/// A command line that is built part by part. The grammar is written over any such type, so that clap's, which has some fifty
/// fields, is one place for the borrow checker there.
pub(crate) trait CommandBuilder<'a>: Sized + Drop {
    ghost app: { Self → App };

    ghost has_globals: { Self → Bool };

    /// Returns a command with no argument yet.
    fn new_command(alloc: Global, name: &'a str, about: &'a str, page: Page) -> Self
        ensures app { app result ≡ new_app name.entry.now }
        ensures local { has_globals result ≡ false };

    /// Adds an argument.
    fn with(self, alloc: Global, part: &Part<'a>) -> Result<Self, AllocError>
        ensures app { IfOk result (λ c. app c ≡ with_rule (app self) (rule_for part.now)) }
        ensures local { has_globals self ≡ false → IfOk result (λ c. has_globals c ≡ false) };

    /// Makes a subcommand mandatory, and adds the option `--version`, which prints this.
    fn as_program(self, version: &'a str) -> Self
        ensures { app result ≡ with_version (with_required_subcommand (app self)) };

    /// Adds a subcommand.
    fn over(self, command: Self) -> Result<Self, AllocError>
        requires { has_globals command ≡ false }
        ensures { IfOk result (λ c. app c ≡ with_subcommand (app self) (app command).top) };
}

impl<'a> CommandBuilder<'a> for CommandLine<'a> {
    ghost app = { app_of };

    ghost has_globals = { λ c. (out-Command c).has_globals };

    fn new_command(alloc: Global, name: &'a str, about: &'a str, page: Page) -> Self {
        CommandLine::new(alloc, name)
            .about(about)
            .after_help(page.text())
    }

    fn with(self, alloc: Global, part: &Part<'a>) -> Result<Self, AllocError> {
        self.arg(argument(alloc, part))
    }

    fn as_program(self, version: &'a str) -> Self {
        self.subcommand_required(true).version(version)
    }

    fn over(self, command: Self) -> Result<Self, AllocError> {
        self.subcommand(command)
    }
}

/// Returns a command with its arguments.
fn command_of<'a, C: CommandBuilder<'a>>(
    alloc: Global,
    parts: &CommandParts<'a>,
) -> Result<C, AllocError>
    ensures app { IfOk result (λ c. C.app c ≡ command_app parts.now) }
    ensures local { IfOk result (λ c. C.has_globals c ≡ false) }
{
    let mut command = C::new_command(alloc, parts.name, parts.about, parts.page);
    for part in parts.parts {
        command = command.with(alloc, part)?;
    }
    Ok(command)
}

/// Returns a command with subcommands.
pub(crate) fn with_commands<'a, C: CommandBuilder<'a>>(
    alloc: Global,
    command: C,
    commands: &[CommandParts<'a>],
) -> Result<C, AllocError>
    ensures { IfOk result (λ c. C.app c ≡ app_over (C.app command) commands.now) }
{
    let mut whole = command;
    for parts in commands {
        whole = whole.over(command_of(alloc, parts)?)?;
    }
    Ok(whole)
}

/// Returns an argument, as clap has it.
fn argument<'a>(alloc: Global, part: &Part<'a>) -> Arg<'a>
    ensures rule { rule_of result ≡ rule_for part.now }
    ensures local { result.global ≡ false }
{
    let argument = Arg::new(alloc, part.id).help(part.about);
    match part.form {
        Form::Required => argument.required(true).action(ArgAction::Set),
        Form::Several => argument.required(true).action(ArgAction::Append),
        Form::Number { low, high } => argument
            .long(part.id)
            .action(ArgAction::Set)
            .value_parser(ValueParser::unsigned(low, high)),
        Form::Flag => argument.long(part.id).action(ArgAction::SetTrue),
        Form::Text => argument.long(part.id).action(ArgAction::Set),
    }
}
