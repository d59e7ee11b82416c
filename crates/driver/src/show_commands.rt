//! The commands that show what becomes of a program, stage by stage, and an image.

ghost use Rattle.std.specs.Prelude.{ℕ, List, IfErr, IfOk, Some};
ghost use Rattle.std.specs.String.{string_bytes};
ghost use Rattle.image.specs.Images.{IsImageFault};
ghost use Rattle.driver.specs.Listings.{IsListing};
ghost use Rattle.driver.specs.Program.{IsImagePage, listing_image, showing};
ghost use Rattle.driver.specs.SourceFaults.{IsFaultless};
ghost use Rattle.driver.specs.Stages.{IsStagesFault, stages_fault_text};

use crate::build_command::tell_build;
use crate::builds::{BuildFault, Limit, rtl_of};
use crate::image_faults::tell_image;
use crate::reasons::page_of;
use crate::remarks::tell_page;
use c_front::read;
use c_tree::{Declaration, Program};
use host::{Broken, Complaints, Ended, FileCommand, Output, ReadFile, tell};
use image::{ImageFault, read_image};
use mips_asm::list;
use mips_select::{Numbered, SelectFault, select_numbered};
use rtl::Rtl;
use show::{Asked, ShowFault, Shown, assembler_source, show};
use std::alloc::Global;
use std::error::Error;
use std::fmt;
use text::{Page, Writer};

/// Why nothing of a text is shown.
#[derive(Clone, Copy, Debug)]
pub enum StagesFault {
    /// A build of the text ends by this fault.
    Build(BuildFault),
    /// 18: there is no stage of this name.
    NoStage,
    /// 16: the program has no function of this name.
    NoFunction,
    /// 14: the function, or the program, has no block of this number: it has those from the first to the last.
    NoBlock { first: usize, last: usize },
}

impl fmt::Display for StagesFault {
    ghost output = { λ e. Some (stages_fault_text e) };

    fn fmt<W: fmt::Write>(&self, f: &mut fmt::Formatter<W>) -> fmt::Result {
        match self {
            StagesFault::Build(fault) => write!(f, "{fault}"),
            StagesFault::NoStage => f.write_str("fault 18 NoStage"),
            StagesFault::NoFunction => f.write_str("fault 16 NoFunction"),
            StagesFault::NoBlock { .. } => f.write_str("fault 14 NoBlock"),
        }
    }
}

impl Error for StagesFault {}

/// Returns what is asked for of a program at its stages.
fn shown_of(
    alloc: Global,
    text: &[u8],
    rtl: &Rtl,
    numbered: &Numbered,
    asked: &Asked<'_>,
) -> Result<Page, StagesFault>
    requires { IsFaultless text.now }
    ensures { IfErr result (IsStagesFault text.now) }
{
    let unit = &numbered.unit;
    let numbers = numbered.numbers.as_slice();
    let shown = Shown {
        text,
        rtl,
        unit,
        numbers,
    };
    match show(alloc, shown, asked) {
        Ok(page) => Ok(page),
        Err(ShowFault::NoStage) => Err(StagesFault::NoStage),
        Err(ShowFault::NoFunction) => Err(StagesFault::NoFunction),
        Err(ShowFault::NoBlock { first, last }) => Err(StagesFault::NoBlock { first, last }),
        Err(ShowFault::Limit) => Err(StagesFault::Build(BuildFault::Limit(Limit::Assembly))),
        Err(ShowFault::NoMemory) => Err(StagesFault::Build(BuildFault::NoMemory)),
    }
}

/// Returns what is asked for of the program that the text spells.
pub fn stages(alloc: Global, text: &[u8], asked: &Asked<'_>) -> Result<Page, StagesFault>
    ensures spelled { IfOk result (λ _. IsFaultless text.now) }
    ensures fault { IfErr result (IsStagesFault text.now) }
{
    let rtl = match rtl_of(alloc, text) {
        Ok(rtl) => rtl,
        Err(fault) => return Err(StagesFault::Build(fault)),
    };
    // (one call is active at most: nothing is run)
    match select_numbered(alloc, &rtl, 1) {
        Ok(numbered) => shown_of(alloc, text, &rtl, &numbered, asked),
        Err(SelectFault::Limit) => Err(StagesFault::Build(BuildFault::Limit(Limit::Selection))),
        Err(SelectFault::NoMemory) => Err(StagesFault::Build(BuildFault::NoMemory)),
    }
}

/// Writes the functions of the program that the text spells, as `f, g, main`.
fn put_functions(out: &mut Writer, program: &Program) {
    let mut before = "";
    for declaration in &program.declarations {
        if let Declaration::Function(function) = declaration {
            out.text(before);
            out.within_line(program.spelling(function.name));
            before = ", ";
        }
    }
}

/// Writes what is said of a function that isn't there.
fn put_no_function(alloc: Global, out: &mut Writer, text: &[u8], function: &str) {
    out.put(&format_args!("error: the program has no function '{function}'\n"));
    if let Ok(program) = read(alloc, text) {
        out.text("hint: it has ");
        put_functions(out, &program);
        out.text("\n");
    }
}

/// Writes what is said of a block that isn't there.
fn put_no_block(out: &mut Writer, function: Option<&str>, block: u32, first: usize, last: usize) {
    match function {
        Some(name) => out.put(&format_args!("error: the function '{name}' has no block {block}\n")),
        None => out.put(&format_args!("error: the program has no block {block}\n")),
    }
    out.put(&format_args!("hint: it has {first} to {last}\n"));
}

const STAGES: &str = "hint: stages are rtl, homes, blocks, orders, check, terms, listing and asm\n";

/// `mcc show`, with what is asked for.
#[derive(Clone, Copy)]
pub struct ShowCommand<'a> {
    pub asked: Asked<'a>,
}

impl FileCommand for ShowCommand<'_> {
    type End = ();

    type Fault = StagesFault;

    ghost Answer = { List ℕ };

    ghost meaning = { λ s. showing };

    fn run<W: Output>(&self, alloc: Global, bytes: &[u8], out: &mut W) -> Ended<Self> {
        let page = stages(alloc, bytes, &self.asked).map_err(Broken::Faulty)?;
        out.put_bytes(page.bytes())?;
        out.send()?;
        Ok((0, ()))
    }

    fn remark<E: Complaints>(&self, _alloc: Global, _of: &ReadFile<'_, (u8, ())>, _err: &mut E) {}

    fn tell<E: Complaints>(
        &self,
        alloc: Global,
        of: &ReadFile<'_, StagesFault>,
        err: &mut E,
    ) -> u8 {
        let Asked {
            stage,
            function,
            block,
            ..
        } = self.asked;
        let mut out = Writer::new(alloc);
        match of.found {
            StagesFault::Build(fault) => return tell_build(alloc, err, of.file, of.bytes, fault),
            StagesFault::NoStage => {
                let stage = stage.unwrap_or("");
                out.put(&format_args!("error: there is no stage '{stage}'\n{STAGES}"));
            }
            StagesFault::NoFunction => {
                put_no_function(alloc, &mut out, of.bytes, function.unwrap_or(""));
            }
            StagesFault::NoBlock { first, last } => {
                put_no_block(&mut out, function, block.unwrap_or(0), first, last);
            }
        }
        let status = tell(err, &of.found);
        tell_page(err, page_of(alloc, out));
        status
    }
}

/// Returns the listing of the image of these bytes.
pub fn list_image(alloc: Global, bytes: &[u8]) -> Result<String, ImageFault>
    ensures listed { IfOk result (λ text. IsListing bytes.now (string_bytes text)) }
    ensures fault { IfErr result (IsImageFault bytes.now) }
{
    let image = read_image(alloc, bytes)?;
    Ok(list(alloc, &image)?)
}

/// `mcc list`, or with `asm` `mcc list --asm`.
#[derive(Clone, Copy)]
pub struct ImageCommand {
    pub asm: bool,
}

impl ImageCommand {
    /// Returns what is printed of an image's bytes.
    fn page(self, alloc: Global, bytes: &[u8]) -> Result<Vec<u8>, ImageFault>
        ensures page { IfOk result (λ page. IsImagePage self.asm bytes.now page.items) }
        ensures fault { IfErr result (IsImageFault bytes.now) }
    {
        if self.asm {
            let image = read_image(alloc, bytes)?;
            let source = assembler_source(alloc, &image, &[])?;
            Ok(source.into_bytes())
        } else {
            let listing = list_image(alloc, bytes)?;
            Ok(listing.into_bytes())
        }
    }
}

impl FileCommand for ImageCommand {
    type End = ();

    type Fault = ImageFault;

    ghost Answer = { List ℕ };

    ghost meaning = { λ s. listing_image s.asm };

    fn run<W: Output>(&self, alloc: Global, bytes: &[u8], out: &mut W) -> Ended<Self> {
        let page = self.page(alloc, bytes).map_err(Broken::Faulty)?;
        out.put_bytes(page.as_slice())?;
        out.send()?;
        Ok((0, ()))
    }

    fn remark<E: Complaints>(&self, _alloc: Global, _of: &ReadFile<'_, (u8, ())>, _err: &mut E) {}

    fn tell<E: Complaints>(&self, alloc: Global, of: &ReadFile<'_, ImageFault>, err: &mut E) -> u8 {
        tell_image(alloc, err, of.file, of.bytes, of.found)
    }
}
