//! The whole program: its words, its files and its streams.
ghost use Rattle.std.specs.Prelude.{◌≡◌, map};
ghost use Rattle.host.specs.Hosts.{IsSameHost, state_of};
ghost use Rattle.host.specs.Requests.{TellsLine, host_of, relations};
ghost use Rattle.driver.specs.Program.{RanWords};
ghost use Rattle.driver.specs.Texts.{no_choice_text};

use crate::build_command::build_file;
use crate::check_command::CheckCommand;
use crate::interp_command::InterpCommand;
use crate::run_command::RunCommand;
use crate::several::check_files;
use crate::show_commands::{ImageCommand, ShowCommand};
use command_line::{Choice, Command, words};
use host::{Complaints, Files, Host, Output, answer_file, tell, tell_file, tell_words};
use show::Asked;
use std::alloc::Global;
use std::sync::Wait;
use std::thread::Threads;

/// The line of the fault of an option that has none of its names.
const NO_CHOICE: &str = "fault 19 NoChoice";

/// Returns the option, and its names as a hint has them.
fn option_and_names(choice: Choice) -> (&'static str, &'static str) {
    match choice {
        Choice::Form => ("--as", "write --as signed, --as hex or --as unsigned"),
        Choice::Level => ("--at", "write --at rtl, --at blocks or --at c"),
    }
}

/// Tells that fault, and below it which names the option has.
fn tell_choice<E: Complaints>(alloc: Global, err: &mut E, choice: Choice, value: &str) -> u8
    ensures status { result ≡ 1 }
    ensures told { TellsLine E.tells err.old no_choice_text err.new }
{
    let (option, hint) = option_and_names(choice);
    match format!(in alloc; "{option} takes no '{value}'") {
        Ok(message) => tell_file(alloc, err, &NO_CHOICE, "mcc", message.as_str(), Some(hint)),
        Err(_) => tell(err, &NO_CHOICE),
    }
}

/// Does what the words ask for, over a host that is lent.
fn answer_words<T: Threads + Wait + Sync, F: Files, W: Output, E: Complaints>(
    rt: &T,
    host: &mut Host<F, W, E>,
    args: &[&str],
) -> u8
    ensures ran { RanWords (relations F.answers W.contents W.sends W.refuses E.tells) (state_of host.old) (state_of host.new)
        (map (λ s. s.now) args.entry.now) result }
    ensures same { IsSameHost host.old host.new }
{
    let alloc = host.alloc;
    match words(alloc, args) {
        Ok(Command::Check { file, explain }) => answer_file(host, &CheckCommand { explain }, file),
        Ok(Command::CheckEach { files, explain }) => check_files(host, files.as_slice(), explain),
        Ok(Command::Interp(asked)) => answer_file(host, &InterpCommand { asked }, asked.source),
        Ok(Command::Build(asked)) => build_file(rt, host, &asked),
        Ok(Command::Run(asked)) => answer_file(host, &RunCommand { asked }, asked.image),
        Ok(Command::List { image, asm }) => answer_file(host, &ImageCommand { asm }, image),
        Ok(
            Command::Show {
                source,
                stage,
                function,
                block,
                dot,
            },
        ) => {
            let asked = Asked {
                stage,
                function,
                block,
                dot,
            };
            answer_file(host, &ShowCommand { asked }, source)
        }
        Ok(Command::NoChoice { choice, value }) => tell_choice(alloc, host.err, choice, value),
        Err(error) => tell_words(alloc, &error, host.out, host.err),
    }
}

/// Does what the words ask for (the first is the program's name), over its files and two writers; a build starts threads. The answer is the
/// exit status: 0 for `same`, `done`, a build, a listing, stages and help. It is 1 for a fault, 2 for wrong words and a build onto its
/// source, 4 for `more`, 3 for any other answer. Of several check texts it is the worst.
pub fn mcc<T: Threads + Wait + Sync, F: Files, W: Output, E: Complaints>(
    rt: &T,
    alloc: Global,
    args: &[&str],
    files: &mut F,
    out: &mut W,
    err: &mut E,
) -> u8
    ensures { RanWords (relations F.answers W.contents W.sends W.refuses E.tells) (host_of files.old out.old err.old)
        (host_of files.new out.new err.new) (map (λ s. s.now) args.entry.now) result }
{
    let mut host = Host {
        alloc,
        files,
        out,
        err,
    };
    answer_words(rt, &mut host, args)
}
