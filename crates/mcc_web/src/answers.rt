//! The exports that print what a command prints.

ghost use Rattle.std.specs.Prelude.{◌≡◌, ◌≢◌, true, false};
ghost use Rattle.command_line.specs.declared.command.Level.TheVariants.{C};
ghost use Rattle.host.specs.declared.numbers.WordForm.TheVariants.{Unsigned};
ghost use Rattle.driver.specs.CheckCommand.{checking};
ghost use Rattle.driver.specs.Levels.{interpreting};
ghost use Rattle.driver.specs.Program.{listing_image, showing};
ghost use Rattle.driver.specs.RunCommand.{running};
ghost use Rattle.mcc_web.specs.Answers.{KeepsRefused, SaysAnswer, SaysAsCommand, SaysFaultOf, SaysReason};
ghost use Rattle.mcc_web.specs.declared.told.TheConstants.{REFUSED};

pub use crate::told::REFUSED;
use crate::told::{Told, put, refuse};
use driver::{
    AskedInterp, AskedRun, CheckCommand, ImageCommand, InterpCommand, Level, RunCommand,
    ShowCommand, wrong_page,
};
use host::{Broken, FileCommand, ReadFile, WordForm};
use show::Asked;
use std::alloc::Global;
use std::str;

/// Gives the host what a command prints of the bytes, or the line of their fault and what is said of it.
fn give<C: FileCommand>(
    alloc: Global,
    command: &C,
    file: &str,
    bytes: &[u8],
    out: &mut [u8],
    status: &mut u8,
) -> usize
    ensures answered { status.new ≢ 1 → status.new ≢ REFUSED → SaysAnswer (C.meaning command.now) bytes.now status.new result out.old out.new }
    ensures faulty { status.new ≡ 1 → SaysFaultOf (C.meaning command.now) bytes.now result out.old out.new }
    ensures refused { KeepsRefused status.new result out.old out.new }
{
    let mut printed = Vec::new(alloc);
    match command.run(alloc, bytes, &mut printed) {
        Ok((ends, _)) => {
            *status = ends;
            put(out, printed.as_slice())
        }
        Err(Broken::Faulty(found)) => {
            let mut told = Told::new(alloc);
            *status = command.tell(alloc, &ReadFile { file, bytes, found }, &mut told);
            told.give(out, status)
        }
        Err(Broken::Unprinted(_) | Broken::Midway) => refuse(status),
    }
}

/// The verdict on the block and the order that the text spells: what `mcc check order.check` prints or tells, and its status.
#[unsafe(no_mangle)]
pub extern "C" fn mcc_web_check(
    alloc: Global,
    text: &[u8],
    out: &mut [u8],
    status: &mut u8,
) -> usize
    ensures { SaysAsCommand (checking false) text.now status.new result out.old out.new }
{
    let command = CheckCommand { explain: false };
    give(alloc, &command, "order.check", text, out, status)
}

/// The verdict, and why it isn't `same`: what `mcc check --explain order.check` prints or tells, and its status.
#[unsafe(no_mangle)]
pub extern "C" fn mcc_web_explain(
    alloc: Global,
    text: &[u8],
    out: &mut [u8],
    status: &mut u8,
) -> usize
    ensures { SaysAsCommand (checking true) text.now status.new result out.old out.new }
{
    let command = CheckCommand { explain: true };
    give(alloc, &command, "order.check", text, out, status)
}

/// The run of the C program that the text spells: what `mcc interp program.c` prints or tells, and its status.
#[unsafe(no_mangle)]
pub extern "C" fn mcc_web_interp(
    alloc: Global,
    text: &[u8],
    depth: u32,
    steps: u64,
    out: &mut [u8],
    status: &mut u8,
) -> usize
    ensures { SaysAsCommand (interpreting C depth steps Unsigned false) text.now status.new result out.old out.new }
{
    let asked = AskedInterp {
        source: "program.c",
        depth,
        steps,
        level: Level::C,
        form: WordForm::Unsigned,
        count: false,
    };
    give(
        alloc,
        &InterpCommand { asked },
        asked.source,
        text,
        out,
        status,
    )
}

/// Where and why the run of the C program is wrong: what `mcc interp program.c` tells below `wrong`. The status is `REFUSED`, and
/// there is no text, where the run isn't wrong or memory was refused.
#[unsafe(no_mangle)]
pub extern "C" fn mcc_web_wrong(
    alloc: Global,
    text: &[u8],
    depth: u32,
    steps: u64,
    out: &mut [u8],
    status: &mut u8,
) -> usize
    ensures told { status.new ≢ REFUSED → SaysReason status.new result out.old out.new }
    ensures refused { KeepsRefused status.new result out.old out.new }
{
    match wrong_page(alloc, "program.c", text, depth, steps) {
        Some(page) => {
            *status = 0;
            put(out, page.bytes())
        }
        None => refuse(status),
    }
}

/// What the image does within so many words: what `mcc run program.image` prints or tells, and its status.
#[unsafe(no_mangle)]
pub extern "C" fn mcc_web_run(
    alloc: Global,
    image: &[u8],
    steps: u64,
    out: &mut [u8],
    status: &mut u8,
) -> usize
    ensures { SaysAsCommand (running steps Unsigned false) image.now status.new result out.old out.new }
{
    let asked = AskedRun {
        image: "program.image",
        steps,
        form: WordForm::Unsigned,
        count: false,
    };
    give(
        alloc,
        &RunCommand { asked },
        asked.image,
        image,
        out,
        status,
    )
}

/// The listing of the image: what `mcc list program.image` prints or tells, and its status.
#[unsafe(no_mangle)]
pub extern "C" fn mcc_web_list(
    alloc: Global,
    image: &[u8],
    out: &mut [u8],
    status: &mut u8,
) -> usize
    ensures { SaysAsCommand (listing_image false) image.now status.new result out.old out.new }
{
    let command = ImageCommand { asm: false };
    give(alloc, &command, "program.image", image, out, status)
}

/// Returns a name, if there is one. What isn't UTF-8 is no name of anything.
fn name_of(bytes: &[u8]) -> Option<&str> {
    if bytes.is_empty() {
        None
    } else {
        Some(str::from_utf8(bytes).unwrap_or("?"))
    }
}

/// The stage of this name, or RTL, blocks and orders where there is none, of the function of this name or of all. It is what `mcc show
/// program.c --stage STAGE --function NAME` prints, and its status.
#[unsafe(no_mangle)]
pub extern "C" fn mcc_web_show(
    alloc: Global,
    text: &[u8],
    stage: &[u8],
    function: &[u8],
    out: &mut [u8],
    status: &mut u8,
) -> usize
    ensures { SaysAsCommand showing text.now status.new result out.old out.new }
{
    let asked = Asked {
        stage: name_of(stage),
        function: name_of(function),
        block: None,
        dot: false,
    };
    give(
        alloc,
        &ShowCommand { asked },
        "program.c",
        text,
        out,
        status,
    )
}
