//! The orders that schedulers propose for worked blocks, and the verdicts on them.
use block_text::read;
use block_validator::{Place, Verdict, validate};
use list_scheduler::{FilledOrder, Hostile, ListOrder, Reorder, fill};
use mblock::{Block, Order, Unclean, plain};
use mips_isa::Plain;
use std::alloc::Global;
use term_table::TermTable;

/// Reports whether two orders are equal.
fn is_equal(left: &Order, right: &Order) -> bool {
    left.insts() == right.insts() && left.exit() == right.exit() && left.slot() == right.slot()
}

/// Who proposes an order.
#[derive(Clone, Copy)]
enum By {
    Plain,
    List,
    Filled,
    Kind(Hostile),
    /// Who fills the slot of the block's own order.
    Refilled,
}

fn proposed(alloc: Global, by: By, block: &Block) -> Option<Order> {
    match by {
        By::Plain => plain(alloc, block).ok(),
        By::List => ListOrder.reorder(alloc, block).ok(),
        By::Filled => FilledOrder(ListOrder).reorder(alloc, block).ok(),
        By::Kind(kind) => kind.reorder(alloc, block).ok(),
        By::Refilled => {
            let insts = Vec::from_slice(alloc, block.insts()).ok()?;
            let order = Order::new(insts, block.exit(), Some(Plain::nop()))?;
            fill(alloc, block, order).ok()
        }
    }
}

/// What the validator says of the order.
#[derive(Clone, Copy)]
enum Said {
    Same,
    Unclean(Unclean),
    Memory,
    Exit,
    /// They differ in the register of this number.
    Register(u8),
    /// One thing or another.
    Anything,
    /// There is no order to ask it of.
    NoOrder,
}

/// Reports whether the validator says that of an order.
fn is_said(alloc: Global, block: &Block, order: Order, said: Said) -> Option<bool> {
    let (table, mut pass) = TermTable::open_one(alloc, 256, 16).ok()?;
    let verdict = validate(alloc, &table, &mut pass, block, order);
    Some(match (said, &verdict) {
        (Said::Anything, _) | (Said::Same, Verdict::Same(_)) => true,
        (Said::Unclean(rule), Verdict::Unclean(broken)) => rule == *broken,
        (Said::Memory, Verdict::Differs(place)) => *place == Place::Memory,
        (Said::Exit, Verdict::Differs(place)) => *place == Place::Exit,
        (Said::Register(index), Verdict::Differs(Place::Register(register))) => {
            register.index() == index
        }
        _ => false,
    })
}

/// Reports whether the row's order is proposed for its block, and the validator says that of it, and accepts the plain order. Or none is
/// proposed, as it should be.
fn is_proposed(alloc: Global, (by, said, block, order): Row) -> Option<bool> {
    let text = format!(in alloc; "block\n{block}order\n{order}").ok()?;
    if text.len() > 1048576 {
        return None;
    }
    let pair = read(alloc, text.as_bytes()).ok()?;
    let own = plain(alloc, &pair.block).ok()?;
    let is_plain_same = is_said(alloc, &pair.block, own, Said::Same)?;
    let Some(proposed) = proposed(alloc, by, &pair.block) else {
        return Some(matches!(said, Said::NoOrder));
    };
    let is_same = is_equal(&proposed, &pair.order);
    Some(is_plain_same && is_same && is_said(alloc, &pair.block, proposed, said)?)
}

/// Who proposes an order, what the validator says of it, the block and the order.
type Row = (By, Said, &'static str, &'static str);

const BLOCK: &str = "lw $8,0($4)\naddu $9,$8,$8\nsw $9,4($4)\nbne $9,$0,1,2\n";

#[rattlefmt::skip]
const PROPOSED: &[Row] = &[
    // Plain orders: what is loaded or moved is waited for.
    (By::Plain, Said::Same, "lw $8,0($4)\nmflo $9\nreturn\n", "lw $8,0($4)\nnop\nmflo $9\nnop\nnop\nreturn\nslot nop\n"),
    (By::Plain, Said::Same, "halt\n", "halt\n"),
    // Lists have nops where a rule needs them.
    // Something stands after the load.
    (By::List, Said::Same, "lw $8,0($29)\naddu $9,$8,$8\naddiu $10,$10,1\nreturn\n",
        "lw $8,0($29)\naddiu $10,$10,1\naddu $9,$8,$8\nreturn\nslot nop\n"),
    // Nothing can.
    (By::List, Said::Same, "lw $8,0($29)\naddu $9,$8,$8\nreturn\n", "lw $8,0($29)\nnop\naddu $9,$8,$8\nreturn\nslot nop\n"),
    // The block overwrites a result, and does nothing in between.
    (By::List, Said::Same, "addiu $8,$0,1\nnop\naddiu $8,$0,2\nreturn\n", "addiu $8,$0,2\nreturn\nslot nop\n"),
    // The branch waits for the load.
    (By::List, Said::Same, "lw $8,0($29)\nbne $8,$0,1,2\n", "lw $8,0($29)\nnop\nbne $8,$0,1,2\nslot nop\n"),
    // Two words before a product after mflo.
    (By::List, Said::Same, "mult $8,$9\nmflo $10\nmult $10,$9\nmflo $11\nreturn\n",
        "mult $8,$9\nmflo $10\nnop\nnop\nmult $10,$9\nmflo $11\nreturn\nslot nop\n"),
    // A load passes a store beside it.
    (By::List, Said::Same, "sw $9,4($29)\nlw $8,0($29)\naddu $10,$8,$8\nreturn\n",
        "lw $8,0($29)\nsw $9,4($29)\naddu $10,$8,$8\nreturn\nslot nop\n"),
    // One that loads what was stored passes no store at all.
    (By::List, Said::Same, "sw $9,0($29)\nsw $10,4($29)\nlw $8,0($29)\naddu $11,$8,$8\nreturn\n",
        "sw $9,0($29)\nsw $10,4($29)\nlw $8,0($29)\nnop\naddu $11,$8,$8\nreturn\nslot nop\n"),
    // And none that may be at its own address.
    (By::List, Said::Same, "sw $9,0($4)\nlw $8,0($5)\naddu $10,$8,$8\nreturn\n",
        "sw $9,0($4)\nlw $8,0($5)\nnop\naddu $10,$8,$8\nreturn\nslot nop\n"),
    // Slots are filled where they can be.
    (By::Filled, Said::Same, "addiu $10,$10,1\nreturn\n", "return\nslot addiu $10,$10,1\n"),
    // The last that nothing depends on.
    (By::Filled, Said::Same, "addiu $10,$10,1\nslt $8,$9,$11\nbne $8,$0,1,2\n", "slt $8,$9,$11\nbne $8,$0,1,2\nslot addiu $10,$10,1\n"),
    // The branch reads it.
    (By::Filled, Said::Same, "slt $8,$9,$10\nbne $8,$0,1,2\n", "slt $8,$9,$10\nbne $8,$0,1,2\nslot nop\n"),
    // No load stands in a slot.
    (By::Filled, Said::Same, "lw $8,0($29)\nreturn\n", "lw $8,0($29)\nreturn\nslot nop\n"),
    // Without it a load would stand before who reads it.
    (By::Filled, Said::Same, "lw $8,0($29)\naddiu $10,$10,1\naddu $9,$8,$8\nsw $9,0($29)\nreturn\n",
        "lw $8,0($29)\naddiu $10,$10,1\naddu $9,$8,$8\nreturn\nslot sw $9,0($29)\n"),
    // A store passes a load beside it.
    (By::Filled, Said::Same, "sw $9,4($29)\nlw $8,0($29)\nreturn\n", "lw $8,0($29)\nreturn\nslot sw $9,4($29)\n"),
    // But none that loads what was stored before.
    (By::Filled, Said::Same, "sw $9,0($29)\nsw $10,4($29)\nlw $8,0($29)\nreturn\n",
        "sw $9,0($29)\nsw $10,4($29)\nlw $8,0($29)\nreturn\nslot nop\n"),
    // The link is loaded first, so that the stack pointer goes up in the slot.
    (By::Filled, Said::Same, "lw $16,0($29)\nlw $31,4($29)\naddiu $29,$29,8\nreturn\n",
        "lw $31,4($29)\nlw $16,0($29)\nreturn\nslot addiu $29,$29,8\n"),
    // The next one is tried: without `addiu $10,$10,1` the load would stand before who reads it.
    (By::Refilled, Said::Same, "addiu $12,$12,1\nlw $8,0($29)\naddiu $10,$10,1\nslt $9,$8,$11\nbne $9,$0,1,2\n",
        "lw $8,0($29)\naddiu $10,$10,1\nslt $9,$8,$11\nbne $9,$0,1,2\nslot addiu $12,$12,1\n"),
    // Each wrong order has its verdict.
    (By::Kind(Hostile::Drop), Said::Memory, BLOCK, "lw $8,0($4)\nnop\naddu $9,$8,$8\nbne $9,$0,1,2\nslot nop\n"),
    (By::Kind(Hostile::Double), Said::Unclean(Unclean::LoadUse), BLOCK,
        "lw $8,0($4)\nlw $8,0($4)\nnop\naddu $9,$8,$8\nsw $9,4($4)\nbne $9,$0,1,2\nslot nop\n"),
    (By::Kind(Hostile::Swap), Said::Unclean(Unclean::LoadUse), BLOCK,
        "nop\nlw $8,0($4)\naddu $9,$8,$8\nsw $9,4($4)\nbne $9,$0,1,2\nslot nop\n"),
    (By::Kind(Hostile::Foreign), Said::Register(8), BLOCK,
        "sw $0,0($29)\nlw $8,0($4)\nnop\naddu $9,$8,$8\nsw $9,4($4)\nbne $9,$0,1,2\nslot nop\n"),
    (By::Kind(Hostile::Rename), Said::Register(8), BLOCK, "lw $9,0($4)\nnop\naddu $9,$8,$8\nsw $9,4($4)\nbne $9,$0,1,2\nslot nop\n"),
    (By::Kind(Hostile::Exit), Said::Exit, BLOCK, "lw $8,0($4)\nnop\naddu $9,$8,$8\nsw $9,4($4)\nbne $9,$0,2,1\nslot nop\n"),
    (By::Kind(Hostile::Slot), Said::Unclean(Unclean::LoadUse), BLOCK, "lw $8,0($4)\naddu $9,$8,$8\nbne $9,$0,1,2\nslot sw $9,4($4)\n"),
    // Orders are as their kind says.
    // The Nop after the load stays.
    (By::Kind(Hostile::Drop), Said::Anything, "addiu $8,$8,1\nlw $9,0($4)\nreturn\n", "addiu $8,$8,1\nnop\nreturn\nslot nop\n"),
    (By::Kind(Hostile::Swap), Said::Anything, "addiu $8,$8,1\nhalt\n", "addiu $8,$8,1\nhalt\n"),
    // Register 0, none, register 31, register 30.
    (By::Kind(Hostile::Rename), Said::Anything, "addu $0,$8,$9\nsw $8,0($4)\nori $31,$31,4\nmflo $30\nreturn\n",
        "addu $0,$8,$9\nsw $8,0($4)\nori $31,$31,4\nmflo $31\nnop\nnop\nreturn\nslot nop\n"),
    (By::Kind(Hostile::Rename), Said::Anything, "sll $1,$2,3\nlui $8,1\nreturn\n", "sll $2,$2,3\nlui $8,1\nreturn\nslot nop\n"),
    (By::Kind(Hostile::Exit), Said::Anything, "blez $8,1,2\n", "blez $8,2,1\nslot nop\n"),
    (By::Kind(Hostile::Exit), Said::Anything, "goto 1\n", "goto 1\nslot nop\n"),
    // Nops of the block are left out as well.
    (By::Kind(Hostile::Slot), Said::Anything, "nop\nmflo $8\naddiu $9,$9,1\nreturn\n", "mflo $8\nreturn\nslot addiu $9,$9,1\n"),
    (By::Kind(Hostile::Slot), Said::Anything, "lw $8,0($4)\nsw $8,4($4)\nhalt\n", "lw $8,0($4)\nnop\nsw $8,4($4)\nhalt\n"),
    (By::Kind(Hostile::Foreign), Said::Anything, "out 1\n", "sw $0,0($29)\nout 1\n"),
    // Empty blocks keep their order.
    (By::Kind(Hostile::Drop), Said::Anything, "return\n", "return\nslot nop\n"),
    (By::Kind(Hostile::Double), Said::Anything, "return\n", "return\nslot nop\n"),
    (By::Kind(Hostile::Swap), Said::Anything, "return\n", "return\nslot nop\n"),
    (By::Kind(Hostile::Rename), Said::Anything, "return\n", "return\nslot nop\n"),
    (By::Kind(Hostile::Exit), Said::Anything, "return\n", "return\nslot nop\n"),
    (By::Kind(Hostile::Slot), Said::Anything, "return\n", "return\nslot nop\n"),
    // Nothing is proposed.
    (By::Kind(Hostile::Silent), Said::NoOrder, "return\n", "return\nslot nop\n"),
    (By::Kind(Hostile::Silent), Said::NoOrder, BLOCK, "lw $8,0($4)\nnop\naddu $9,$8,$8\nbne $9,$0,1,2\nslot nop\n"),
];

#[test]
fn worked_orders_are_proposed(rt: HostRuntime) {
    for &row in PROPOSED {
        assert!(rt; is_proposed(rt.alloc(), row) == Some(true), "of {}", row.2);
    }
}
