//! The stages of a program, function by function.

ghost use Rattle.std.specs.Prelude.{All, IfOk};
ghost use Rattle.text.specs.Shown.{IsShown};

use crate::assembler::put_source;
use crate::back_edges::Node;
use crate::dot::{exit_places, put_nodes, rtl_places};
use crate::homes::put_homes;
use crate::listing::{put_heading, put_title};
use crate::names::Names;
use crate::numbers::{Range, functions_of};
use crate::orders::{put_check, put_needed, put_settled};
use crate::rtl_text::RtlView;
use crate::wanted::{Asked, ShowFault, Stage, Wanted};
use explain::put_left;
use list_scheduler::{FilledOrder, ListOrder};
use mblock::{BlockNumber, Exit, Unit};
use mips_asm::{assemble, list};
use mips_homes::{Frame, place};
use rtl::{RBlock, Rtl};
use sched_phase::{PhaseOpts, schedule_one};
use std::alloc::{AllocError, Global};
use text::{Page, WIDTH, Writer};

/// How deep terms are shown.
const DEPTH: u32 = 8;

/// A program at its stages, with the text that it is of.
#[derive(Clone, Copy)]
pub struct Shown<'a> {
    pub text: &'a [u8],
    pub rtl: &'a Rtl,
    pub unit: &'a Unit,
    /// The number of the unit's block with which each block of RTL begins, one function after another.
    pub numbers: &'a [BlockNumber],
}

/// A program with what is asked of it, its names, its functions, and the frames that are wanted.
#[derive(Drop)]
pub(crate) struct View<'a> {
    pub(crate) alloc: Global,
    pub(crate) shown: Shown<'a>,
    pub(crate) wanted: Wanted,
    pub(crate) names: Names<'a>,
    pub(crate) ranges: Vec<Range>,
    frames: Vec<Frame>,
}

impl<'a> View<'a> {
    pub(crate) fn range(&self, number: usize) -> Range {
        self.ranges.get(number).copied().unwrap_or_default()
    }

    /// Returns the name of the function that a call goes to; none if the block is left otherwise.
    pub(crate) fn callee(&self, exit: Exit) -> Option<&'a str> {
        let Exit::Call { function, .. } = exit else {
            return None;
        };
        let first = function.number() as usize;
        let number = self.ranges.partition_point(|range| range.from < first);
        Some(self.names.function(number.checked_sub(1)?))
    }

    /// Returns RTL of the function of this number among the ranges, the first of which is none of the program's.
    fn rtl(&self, number: usize) -> Option<(RtlView<'_>, &'a [RBlock])> {
        let number = number.checked_sub(1)?;
        let functions = self.shown.rtl.functions();
        let blocks = functions.get(number)?.blocks.as_slice();
        let mut before = 0usize;
        for function in functions.iter().take(number) {
            before = before.saturating_add(function.blocks.len());
        }
        let view = RtlView {
            names: &self.names,
            function: number,
            globals: self.shown.rtl.globals(),
            numbers: self.shown.numbers.get(before..).unwrap_or_default(),
        };
        Some((view, blocks))
    }

    /// Writes the blocks of a function in one of their stages.
    fn put_blocks(&self, out: &mut Writer, stage: Stage, number: usize) -> Result<(), AllocError> {
        let range = self.range(number);
        let end = if stage == Stage::Orders { ": " } else { "\n" };
        for (k, block) in range.of(self.shown.unit.blocks()).iter().enumerate() {
            let k = range.from.saturating_add(k);
            if self.wanted.has_block(k) {
                put_heading(out, k, self.callee(block.exit()), end);
                match stage {
                    Stage::Orders => put_settled(self.alloc, out, block)?,
                    Stage::Terms => put_left(self.alloc, out, block, DEPTH)?,
                    _ => put_needed(out, block, "    ", "\n"),
                }
            }
        }
        Ok(())
    }

    /// Writes one stage of a function, but for the listing.
    fn put_function(
        &self,
        out: &mut Writer,
        stage: Stage,
        number: usize,
    ) -> Result<(), AllocError> {
        put_title(out, &self.names, number);
        match stage {
            Stage::Rtl => {
                if let Some((view, blocks)) = self.rtl(number) {
                    view.blocks(out, blocks, &self.wanted);
                }
            }
            Stage::Homes => {
                if number > 0
                    && let Some(frame) = self.frames.get(number - 1)
                {
                    put_homes(out, &self.names, number - 1, frame);
                }
            }
            _ => self.put_blocks(out, stage, number)?,
        }
        Ok(())
    }

    /// Returns the graph of a function's blocks.
    fn nodes(&self, number: usize) -> Result<Vec<Node>, AllocError> {
        let range = self.range(number);
        let mut nodes = Vec::new(self.alloc);
        for (k, block) in range.of(self.shown.unit.blocks()).iter().enumerate() {
            let mut lines = Writer::new(self.alloc);
            put_needed(&mut lines, block, "", "\\l");
            nodes.push(Node {
                number: range.from.saturating_add(k),
                lines: lines.end()?,
                edges: exit_places(block.exit(), range.from),
            })?;
        }
        Ok(nodes)
    }

    /// Returns the graph of a function's blocks of RTL.
    fn rtl_nodes(&self, number: usize) -> Result<Vec<Node>, AllocError> {
        let Some((view, blocks)) = self.rtl(number) else {
            return Ok(Vec::new(self.alloc));
        };
        let mut nodes = Vec::new(self.alloc);
        for (k, block) in blocks.iter().enumerate() {
            let mut lines = Writer::new(self.alloc);
            view.lines(&mut lines, block, "", "\\l");
            nodes.push(Node {
                number: view.number(k),
                lines: lines.end()?,
                edges: rtl_places(&block.exit),
            })?;
        }
        Ok(nodes)
    }

    /// Writes a function's graph, as a cluster.
    fn put_graph(&self, out: &mut Writer, number: usize) -> Result<(), AllocError> {
        let name = if number == 0 {
            "start"
        } else {
            self.names.function(number - 1)
        };
        out.put(&format_args!("  subgraph cluster_{number} {{\n    label=\"{name}\";\n"));
        let nodes = match self.wanted.stage {
            Some(Stage::Rtl) => self.rtl_nodes(number)?,
            _ => self.nodes(number)?,
        };
        put_nodes(self.alloc, out, &nodes)?;
        out.text("  }\n");
        Ok(())
    }

    /// Writes the whole image, each block in its order, as assembler source or as a listing. It is a fault if memory ran out for one of the
    /// blocks: that one would keep its own order.
    fn put_image(&self, out: &mut Writer) -> Result<(), ShowFault> {
        let Some(options) = PhaseOpts::new(1, 65536, 1024) else {
            return Ok(());
        };
        let scheduler = FilledOrder(ListOrder);
        let scheduled = schedule_one(self.alloc, self.shown.unit, options, &scheduler)?;
        if scheduled.report().no_memory > 0 {
            return Err(ShowFault::NoMemory);
        }
        let image = assemble(self.alloc, &scheduled)?;
        let orders = scheduled.orders();
        if self.wanted.stage == Some(Stage::Asm) {
            let labels = self.labels(orders)?;
            return Ok(put_source(self.alloc, out, &image, labels.as_slice())?);
        }
        let listing = list(self.alloc, &image)?;
        self.put_listing(out, orders, listing.as_str());
        Ok(())
    }

    /// Writes all that is asked of a function: RTL, blocks and orders, if no stage is.
    fn put_asked(&self, out: &mut Writer, number: usize) -> Result<(), AllocError> {
        if self.wanted.dot {
            return self.put_graph(out, number);
        }
        if let Some(stage) = self.wanted.stage {
            return self.put_function(out, stage, number);
        }
        if number > 0 {
            out.text("rtl: ");
            self.put_function(out, Stage::Rtl, number)?;
        }
        out.text("blocks: ");
        self.put_function(out, Stage::Blocks, number)?;
        out.text("orders: ");
        self.put_function(out, Stage::Orders, number)
    }

    /// Writes what is asked of each function, or of the one that is named.
    fn put_all(&self, out: &mut Writer) -> Result<(), AllocError> {
        if self.wanted.dot {
            out.text("digraph blocks {\n  node [shape=box fontname=monospace];\n");
        }
        let (first, end) = match (self.wanted.only, self.wanted.stage) {
            (Some(number), _) => (number, number.saturating_add(1)),
            // the code that calls main has neither RTL nor homes
            (None, Some(Stage::Rtl | Stage::Homes)) => (1, self.ranges.len()),
            (None, _) => (0, self.ranges.len()),
        };
        for number in first..end {
            self.put_asked(out, number)?;
        }
        if self.wanted.dot {
            out.text("}\n");
        }
        Ok(())
    }

    /// Returns what is asked for. Lines that another program reads aren't cut.
    fn page(&self) -> Result<Page, ShowFault>
        ensures { IfOk result (All IsShown) }
    {
        let mut out = Writer::new(self.alloc);
        match self.wanted.stage {
            Some(Stage::Listing | Stage::Asm) if !self.wanted.dot => self.put_image(&mut out)?,
            Some(Stage::Check) if !self.wanted.dot => {
                let number = self.wanted.checked(self.ranges.as_slice());
                if let Some(block) = self.shown.unit.blocks().get(number) {
                    put_check(self.alloc, &mut out, block)?;
                }
            }
            _ => self.put_all(&mut out)?,
        }
        let page = out.end()?;
        if self.wanted.dot || self.wanted.stage == Some(Stage::Asm) {
            return Ok(page);
        }
        Ok(page.cut(self.alloc, WIDTH)?)
    }
}

/// Returns what is asked for of a program: lines of printable ASCII, of at most 120 bytes but for graphs and assembler source.
pub fn show(alloc: Global, shown: Shown<'_>, asked: &Asked<'_>) -> Result<Page, ShowFault>
    ensures { IfOk result (All IsShown) }
{
    let names = Names::read(alloc, shown.text)?;
    let ranges = functions_of(alloc, shown.unit)?;
    let wanted = Wanted::of(&names, ranges.as_slice(), asked)?;
    let frames = if wanted.stage == Some(Stage::Homes) {
        place(alloc, shown.rtl)?.frames
    } else {
        Vec::new(alloc)
    };
    let view = View {
        alloc,
        shown,
        wanted,
        names,
        ranges,
        frames,
    };
    view.page()
}
