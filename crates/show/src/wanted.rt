//! What is asked for of a program.

use crate::names::Names;
use crate::numbers::Range;
use mips_asm::AsmFault;
use std::alloc::AllocError;

/// What is asked for.
#[derive(Clone, Copy)]
pub struct Asked<'a> {
    /// One stage by its name, or RTL, blocks and orders of each function.
    pub stage: Option<&'a str>,
    /// One function, or all.
    pub function: Option<&'a str>,
    /// One block by its number, or all; of a check text the first, if none is named.
    pub block: Option<u32>,
    /// Graphs for Graphviz: of RTL where that stage is asked for, else of the unit's blocks.
    pub dot: bool,
}

/// Why there is nothing to show.
#[derive(Clone, Copy, Debug, PartialEq, Eq)]
pub enum ShowFault {
    /// There is no stage of this name.
    NoStage,
    /// The program has no function of this name.
    NoFunction,
    /// The function, or the program, has no block of this number: it has those from the first to the last.
    NoBlock { first: usize, last: usize },
    /// A function has more than 32,000 words of code, or the program more than 1,048,576: there is no listing.
    Limit,
    /// Memory was refused.
    NoMemory,
}

impl From<AllocError> for ShowFault {
    fn from(_refused: AllocError) -> ShowFault {
        ShowFault::NoMemory
    }
}

impl From<AsmFault> for ShowFault {
    fn from(fault: AsmFault) -> ShowFault {
        match fault {
            AsmFault::Limit => ShowFault::Limit,
            AsmFault::NoMemory => ShowFault::NoMemory,
        }
    }
}

/// What is shown of a program.
#[derive(Clone, Copy, PartialEq, Eq)]
pub(crate) enum Stage {
    Rtl,
    /// Where pseudo-registers live.
    Homes,
    /// The machine's blocks, each in its plain order.
    Blocks,
    /// As scheduled.
    Orders,
    /// A block and its order as a check text.
    Check,
    /// What each block leaves.
    Terms,
    Listing,
    /// Assembler source.
    Asm,
}

impl Stage {
    /// Returns the stage of this name.
    pub(crate) fn from_name(name: &str) -> Option<Stage> {
        match name {
            "rtl" => Some(Stage::Rtl),
            "homes" => Some(Stage::Homes),
            "blocks" => Some(Stage::Blocks),
            "orders" => Some(Stage::Orders),
            "check" => Some(Stage::Check),
            "terms" => Some(Stage::Terms),
            "listing" => Some(Stage::Listing),
            "asm" => Some(Stage::Asm),
            _ => None,
        }
    }
}

/// What is asked for, by what it stands for.
#[derive(Clone, Copy)]
pub(crate) struct Wanted {
    pub(crate) stage: Option<Stage>,
    /// The function, by its number among the ranges; that of the block, if only a block is named.
    pub(crate) only: Option<usize>,
    pub(crate) block: Option<usize>,
    pub(crate) dot: bool,
}

/// Returns the blocks of a function, or of all.
fn blocks_of(ranges: &[Range], only: Option<usize>) -> Range {
    match only {
        Some(number) => ranges.get(number).copied().unwrap_or_default(),
        None => Range {
            from: 0,
            to: ranges.last().copied().unwrap_or_default().to,
        },
    }
}

/// Returns the block that is asked for, if it is one of these.
fn block_of(asked: &Asked<'_>, blocks: Range) -> Result<Option<usize>, ShowFault> {
    match asked.block {
        Some(number) if !blocks.has(number as usize) => Err(ShowFault::NoBlock {
            first: blocks.from,
            last: blocks.to.saturating_sub(1),
        }),
        Some(number) => Ok(Some(number as usize)),
        None => Ok(None),
    }
}

impl Wanted {
    /// Returns what is asked for, if it is there.
    pub(crate) fn of(
        names: &Names<'_>,
        ranges: &[Range],
        asked: &Asked<'_>,
    ) -> Result<Wanted, ShowFault> {
        let stage = match asked.stage {
            Some(name) => Some(Stage::from_name(name).ok_or(ShowFault::NoStage)?),
            None => None,
        };
        let named = match asked.function {
            Some(name) => {
                let number = names.function_named(name).ok_or(ShowFault::NoFunction)?;
                Some(number.saturating_add(1))
            }
            None => None,
        };
        let block = block_of(asked, blocks_of(ranges, named))?;
        let only = match block {
            Some(block) => named.or(ranges.iter().position(|range| range.has(block))),
            None => named,
        };
        Ok(Wanted {
            stage,
            only,
            block,
            dot: asked.dot,
        })
    }

    /// Reports whether the block of this number is shown.
    pub(crate) fn has_block(&self, number: usize) -> bool {
        !matches!(self.block, Some(only) if only != number)
    }

    /// Returns the block of a check text: the one that is named, or the function's first, or the first of all.
    pub(crate) fn checked(&self, ranges: &[Range]) -> usize {
        self.block.unwrap_or(blocks_of(ranges, self.only).from)
    }
}
