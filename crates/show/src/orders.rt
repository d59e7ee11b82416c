//! Orders as the scheduler proposes them, and what the validator says of them.

use block_text::{ExitLine, put_insts, put_order};
use block_validator::{Verdict, validate};
use explain::{Room, put_found, put_place, table_of};
use list_scheduler::{FilledOrder, ListOrder, Reorder};
use mblock::{Block, Order, plain};
use std::alloc::{AllocError, Global};
use text::Writer;

/// Returns the order that the scheduler gives a block.
fn proposed_order(alloc: Global, block: &Block) -> Result<Order, AllocError> {
    FilledOrder(ListOrder).reorder(alloc, block)
}

/// Returns the verdict on the order that is proposed for a block, by a table of some room.
fn verdict_by<'a>(alloc: Global, block: &'a Block, room: Room) -> Result<Verdict<'a>, AllocError> {
    let order = proposed_order(alloc, block)?;
    let Some((table, mut pass)) = table_of(alloc, room) else {
        return Err(AllocError);
    };
    Ok(validate(alloc, &table, &mut pass, block, order))
}

/// Writes a block after a margin, without its Nops: a block has no delays, so they do nothing.
pub(crate) fn put_needed(out: &mut Writer, block: &Block, margin: &str, end: &str) {
    for inst in block.insts() {
        if !inst.is_nop() {
            put_insts(out, &[*inst], margin, end);
        }
    }
    out.put(&format_args!("{margin}{}{end}", ExitLine(block.exit())));
}

/// Writes the verdict on the order that is proposed for a block, in the words of `mcc check`, and the order that is taken. One that was
/// refused stands before it, with why it is wrong, if that was found.
pub(crate) fn put_settled(
    alloc: Global,
    out: &mut Writer,
    block: &Block,
) -> Result<(), AllocError> {
    let verdict = match verdict_by(alloc, block, Room::Few)? {
        Verdict::Full => verdict_by(alloc, block, Room::Many)?,
        verdict => verdict,
    };
    match verdict {
        Verdict::Same(checked) => {
            out.text("same\n");
            put_order(out, &checked.into_order(), "    ", "\n");
            return Ok(());
        }
        Verdict::Unclean(rule) => out.put(&format_args!("unclean {rule}")),
        Verdict::Differs(place) => {
            out.text("differs ");
            put_place(out, place);
        }
        Verdict::Full => out.text("full"),
        Verdict::NoMemory => return Err(AllocError),
    }
    let refused = proposed_order(alloc, block)?;
    out.text("\n    proposed:\n");
    put_order(out, &refused, "      ", "\n");
    put_found(alloc, out, block, &refused)?;
    out.text("    taken:\n");
    put_order(out, &plain(alloc, block)?, "      ", "\n");
    Ok(())
}

/// Writes a block without its Nops and the order that is proposed for it, as `mcc check` reads them.
pub(crate) fn put_check(alloc: Global, out: &mut Writer, block: &Block) -> Result<(), AllocError> {
    let order = proposed_order(alloc, block)?;
    out.text("block\n");
    put_needed(out, block, "", "\n");
    out.text("order\n");
    put_order(out, &order, "", "\n");
    Ok(())
}
