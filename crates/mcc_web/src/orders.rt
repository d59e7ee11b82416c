//! The export that lists the blocks of a build and the orders that they have.

ghost use Rattle.std.specs.Prelude.{◌≡◌, ◌≢◌, OnOk, length};
ghost use Rattle.std.specs.Io.KnownBytes.{Appends};
ghost use Rattle.mcc_web.specs.Answers.{KeepsRefused, SaysBuildFault};
ghost use Rattle.mcc_web.specs.Orders.{SaysOrders, insts_text, pair_text, pairs_text};
ghost use Rattle.mcc_web.specs.declared.told.TheConstants.{REFUSED};

use crate::builds::{give_build_fault, phase_for};
use crate::told::{put, refuse};
use block_text::ExitLine;
use driver::unit_of;
use list_scheduler::{FilledOrder, ListOrder};
use mblock::{Block, BlockNumber, Order};
use mips_isa::Plain;
use sched_phase::schedule_one;
use std::alloc::Global;
use std::io::{self, Write};

fn print_insts<W: Write>(out: &mut W, insts: &[Plain]) -> io::Result<()>
    ensures { OnOk result (Appends (W.contents out.old) (W.contents out.new) (insts_text insts.now)) }
{
    for inst in insts {
        writeln!(out, "{inst}")?;
    }
    Ok(())
}

fn print_pair<W: Write>(
    out: &mut W,
    number: usize,
    owner: BlockNumber,
    block: &Block,
    order: &Order,
) -> io::Result<()>
    ensures { OnOk result (Appends (W.contents out.old) (W.contents out.new) (pair_text number owner block.now order.now)) }
{
    let owner = owner.number();
    write!(out, "# {number} {owner}\nblock\n")?;
    print_insts(out, block.insts())?;
    let exit = ExitLine(block.exit());
    write!(out, "{exit}\norder\n")?;
    print_insts(out, order.insts())?;
    let exit = ExitLine(order.exit());
    write!(out, "{exit}\n")?;
    match order.slot() {
        Some(inst) => writeln!(out, "slot {inst}"),
        None => Ok(()),
    }
}

fn print_pairs<W: Write>(
    out: &mut W,
    owners: &[BlockNumber],
    blocks: &[Block],
    orders: &[Order],
) -> io::Result<()>
    requires owners { length owners.now ≡ length blocks.now }
    requires orders { length orders.now ≡ length blocks.now }
    ensures { OnOk result (Appends (W.contents out.old) (W.contents out.new) (pairs_text 0 owners.now blocks.now orders.now)) }
{
    for number in 0..blocks.len() {
        print_pair(
            out,
            number,
            owners[number],
            &blocks[number],
            &orders[number],
        )?;
    }
    Ok(())
}

/// The blocks of the program that the text spells, each with an order that a build may give it. Else it is the fault of
/// `mcc build program.c IMAGE`, and its status.
#[unsafe(no_mangle)]
pub extern "C" fn mcc_web_orders(
    alloc: Global,
    text: &[u8],
    depth: u32,
    out: &mut [u8],
    status: &mut u8,
) -> usize
    ensures wrong_words { status.new ≡ 2 → depth ≡ 0 }
    ensures no_depth { depth ≡ 0 → (status.new ≡ 2) × (result ≡ 0) × (out.new ≡ out.old) }
    ensures answered { status.new ≢ 1 → status.new ≢ 2 → status.new ≢ REFUSED
        → SaysOrders text.now depth status.new result out.old out.new }
    ensures faulty { status.new ≡ 1 → SaysBuildFault text.now depth result out.old out.new }
    ensures refused { KeepsRefused status.new result out.old out.new }
{
    if depth == 0 {
        *status = 2;
        return 0;
    }
    let unit = match unit_of(alloc, text, depth) {
        Ok(unit) => unit,
        Err(fault) => return give_build_fault(alloc, text, depth, fault, out, status),
    };
    let Ok(scheduled) = schedule_one(alloc, &unit, phase_for(text.len()), &FilledOrder(ListOrder))
    else {
        return refuse(status);
    };
    let mut printed = Vec::new(alloc);
    match print_pairs(
        &mut printed,
        unit.owner(),
        unit.blocks(),
        scheduled.orders(),
    ) {
        Ok(()) => {
            *status = 0;
            put(out, printed.as_slice())
        }
        Err(_) => refuse(status),
    }
}
