//! The verdict of a check text, or its fault.
ghost use Rattle.std.specs.Prelude.{◌≡◌, ◌≤◌, ◌^◌, length, Some, IfOk, IfErr, MatchResult};
ghost use Rattle.std.specs.Fmt.{DisplaysOnOk};
ghost use Rattle.mblock.specs.Parts.{BlockParts, OrderParts};
ghost use Rattle.block_text.specs.Lines.{lines_of};
ghost use Rattle.block_text.specs.Whole.{SpellsPair};
ghost use Rattle.driver.specs.Checks.{IsAnswer, IsCheckFault};
ghost use Rattle.driver.specs.CheckTexts.{answer_text, check_fault_text, place_text};

use block_text::{PairFault, Text, read};
use block_validator::{Place, Verdict, validate};
use host::LONGEST_TEXT;
use mblock::{Block, Order, Unclean};
use std::alloc::Global;
use std::error::Error;
use std::fmt;
use term_table::{OpenFault, TermTable};

/// The verdict on the order of a text.
#[derive(Clone, Copy, Debug, PartialEq, Eq)]
pub enum CheckAnswer {
    /// The order is clean, and has the terms of the block in every place.
    Same,
    /// The order breaks this delay rule, and no lesser one.
    Unclean(Unclean),
    /// The order is clean, and this is the first place whose terms differ.
    Differs(Place),
    /// The order is clean, and the table of terms was full.
    Full,
}

/// Why a text has no verdict.
#[derive(Clone, Copy, Debug, PartialEq, Eq)]
pub enum CheckFault {
    /// The text is longer than 1,048,576 bytes, which is tested first.
    Size,
    /// The first line, from 1, that can't stand in its place, or the number of lines plus 1 where the
    /// text ends too early.
    Line(u32),
    /// Memory was refused.
    NoMemory,
}

fn write_place<W: fmt::Write>(place: &Place, f: &mut fmt::Formatter<W>) -> fmt::Result
    ensures { DisplaysOnOk W.write_str_gives f.old result (Some (place_text place.now)) f.new }
{
    match place {
        Place::Register(r) => {
            let number = r.index();
            write!(f, "${number}")
        }
        Place::Hi => f.write_str("hi"),
        Place::Lo => f.write_str("lo"),
        Place::Memory => f.write_str("mem"),
        Place::Exit => f.write_str("exit"),
        Place::Guards => f.write_str("guards"),
    }
}

impl fmt::Display for CheckAnswer {
    ghost output = { λ a. Some (answer_text a) };

    fn fmt<W: fmt::Write>(&self, f: &mut fmt::Formatter<W>) -> fmt::Result {
        match self {
            CheckAnswer::Same => f.write_str("same"),
            CheckAnswer::Unclean(rule) => write!(f, "unclean {rule}"),
            CheckAnswer::Differs(place) => {
                f.write_str("differs ")?;
                write_place(place, f)
            }
            CheckAnswer::Full => f.write_str("full"),
        }
    }
}

impl fmt::Display for CheckFault {
    ghost output = { λ e. Some (check_fault_text e) };

    fn fmt<W: fmt::Write>(&self, f: &mut fmt::Formatter<W>) -> fmt::Result {
        match self {
            CheckFault::Size => f.write_str("fault 5 Size"),
            CheckFault::Line(line) => {
                let fault = PairFault::Line(*line);
                write!(f, "{fault}")
            }
            CheckFault::NoMemory => f.write_str("fault 30 NoMemory"),
        }
    }
}

impl Error for CheckFault {}

/// Returns the verdict on a block and an order; no other fault than refused memory.
fn judge(alloc: Global, block: &Block, order: Order) -> Result<CheckAnswer, CheckFault>
    ensures { MatchResult result (IsAnswer block.now order) (λ e. e ≡ CheckFault.NoMemory) }
{
    let (table, mut pass) = match TermTable::open_one(alloc, 16384, 256) {
        Ok(opened) => opened,
        Err(OpenFault::NoMemory) => return Err(CheckFault::NoMemory),
        Err(OpenFault::Range) => unreachable!(),
    };
    match validate(alloc, &table, &mut pass, block, order) {
        Verdict::Same(_) => Ok(CheckAnswer::Same),
        Verdict::Unclean(rule) => Ok(CheckAnswer::Unclean(rule)),
        Verdict::Differs(place) => Ok(CheckAnswer::Differs(place)),
        Verdict::Full => Ok(CheckAnswer::Full),
        Verdict::NoMemory => Err(CheckFault::NoMemory),
    }
}

/// Returns the verdict on the block and the order that the text spells.
pub fn check(alloc: Global, text: &[u8]) -> Result<CheckAnswer, CheckFault>
    ensures spelled { IfOk result (λ _. (length text.now ≤ 2 ^ 20) × (b : BlockParts) × (o : OrderParts)
        × SpellsPair (lines_of text.now) b o) }
    ensures answer { length text.now ≤ 2 ^ 20 → (b : BlockParts) (o : OrderParts) → SpellsPair (lines_of text.now) b o
        → MatchResult result (IsAnswer b o) (λ e. e ≡ CheckFault.NoMemory) }
    ensures fault { IfErr result (IsCheckFault text.now) }
{
    if text.len() > LONGEST_TEXT {
        return Err(CheckFault::Size);
    }
    match read(alloc, text) {
        Ok(Text { block, order }) => judge(alloc, &block, order),
        Err(PairFault::Line(line)) => Err(CheckFault::Line(line)),
        Err(PairFault::NoMemory) => Err(CheckFault::NoMemory),
    }
}
