//! The grammar of the command line, with its help.

ghost use Rattle.std.specs.Prelude.{◌≡◌, IfOk};
ghost use Rattle.clap.specs.Words.{app_of};
ghost use Rattle.command_line.specs.Commands.{mcc_app};

use crate::pages::Page;
use crate::parts::{CommandBuilder, CommandParts, Form, Part, with_commands};
use clap::Command as CommandLine;
use std::alloc::{AllocError, Global};
use term_table::{MAX_HEADS, MAX_NODES, MAX_PASSES};

const VERSION: &str = "0.1.0";

#[rattlefmt::skip]
const SOURCE: Part<'static> = Part { id: "SOURCE", form: Form::Required, about: "The C program" };

#[rattlefmt::skip]
const DEPTH: Part<'static> = Part { id: "depth", form: Form::Number { low: 1, high: 4096 },
        about: "Calls active at once, main counted: 1 to 4096, or 256 if left out" };

#[rattlefmt::skip]
const FORM: Part<'static> = Part { id: "as", form: Form::Text,
        about: "Print the output's words as signed, hex or unsigned numbers; unsigned if left out" };

#[rattlefmt::skip]
const CHECK: &[Part<'static>] = &[
    Part { id: "FILE", form: Form::Several, about: "The check text, or several" },
    Part { id: "explain", form: Form::Flag, about: "Say why: the two terms that differ, or the rule and the words that break it" },
];

#[rattlefmt::skip]
const INTERP: &[Part<'static>] = &[
    SOURCE,
    DEPTH,
    Part { id: "steps", form: Form::Number { low: 0, high: 4294967295 },
        about: "Steps until the run stops: 0 to 4294967295, or 1000000 if left out" },
    Part { id: "at", form: Form::Text,
        about: "Run it as its RTL (rtl), as the machine's blocks (blocks), or by its meaning in C (c), as if left out" },
    FORM,
    Part { id: "count", form: Form::Flag, about: "Say on standard error how many steps ran; of C alone" },
];

#[rattlefmt::skip]
const BUILD: &[Part<'static>] = &[
    SOURCE,
    Part { id: "IMAGE", form: Form::Required, about: "The image, which is written" },
    Part { id: "plain", form: Form::Flag, about: "Leave the instructions of every block in their own order" },
    DEPTH,
    Part { id: "workers", form: Form::Number { low: 1, high: MAX_PASSES },
        about: "Workers that check orders at once: 1 to 64, or 4 if left out" },
    Part { id: "nodes", form: Form::Number { low: 1, high: MAX_NODES },
        about: "Terms that each worker may add to the table: 1 to 1048576, or 65536 if left out" },
    Part { id: "heads", form: Form::Number { low: 1, high: MAX_HEADS }, about: "Chains of the table: 1 to 65536, or 1024 if left out" },
];

#[rattlefmt::skip]
const IMAGE: Part<'static> = Part { id: "IMAGE", form: Form::Required, about: "The image" };

#[rattlefmt::skip]
const RUN: &[Part<'static>] = &[
    IMAGE,
    Part { id: "steps", form: Form::Number { low: 0, high: 4294967295 },
        about: "Words until the run stops: 0 to 4294967295, or 1000000 if left out" },
    FORM,
    Part { id: "count", form: Form::Flag, about: "Say on standard error how many words ran" },
];

#[rattlefmt::skip]
const LIST: &[Part<'static>] = &[
    IMAGE,
    Part { id: "asm", form: Form::Flag, about: "Assembler source for GNU as (MIPS I, big-endian) and SPIM in place of the listing" },
];

#[rattlefmt::skip]
const SHOW: &[Part<'static>] = &[
    SOURCE,
    Part { id: "stage", form: Form::Text,
        about: "One of rtl, homes, blocks, orders, check, terms, listing, asm; else rtl, blocks and orders" },
    Part { id: "function", form: Form::Text, about: "The function that is shown alone" },
    Part { id: "block", form: Form::Number { low: 0, high: 1048575 },
        about: "One block alone, by its number; homes, asm and --dot show all" },
    Part { id: "dot", form: Form::Flag, about: "Graphs for Graphviz: of RTL with --stage rtl, else of the machine's blocks" },
];

#[rattlefmt::skip]
const COMMANDS: &[CommandParts<'static>] = &[
    CommandParts { name: "check", about: "Says whether an order may stand for a block", page: Page::Check, parts: CHECK },
    CommandParts { name: "interp", about: "Runs a C program by its meaning", page: Page::Interp, parts: INTERP },
    CommandParts { name: "build", about: "Compiles a C program to an image for MIPS I", page: Page::Build, parts: BUILD },
    CommandParts { name: "run", about: "Runs an image on the machine", page: Page::Run, parts: RUN },
    CommandParts { name: "list", about: "Prints the listing of an image", page: Page::List, parts: LIST },
    CommandParts { name: "show", about: "Shows what becomes of a C program, stage by stage", page: Page::Show, parts: SHOW },
];

/// Returns `mcc` with its commands.
fn whole_command<'a, C: CommandBuilder<'a>>(alloc: Global) -> Result<C, AllocError>
    ensures { IfOk result (λ c. C.app c ≡ mcc_app) }
{
    let command = C::new_command(
        alloc,
        "mcc",
        "A C compiler for MIPS I, its checks, a C interpreter and a machine",
        Page::Whole,
    );
    with_commands(alloc, command.as_program(VERSION), COMMANDS)
}

/// Returns the command line of `mcc`.
pub fn grammar<'a>(alloc: Global) -> Result<CommandLine<'a>, AllocError>
    ensures { IfOk result (λ c. app_of c ≡ mcc_app) }
{
    whole_command(alloc)
}
