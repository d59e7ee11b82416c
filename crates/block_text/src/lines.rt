//! Blocks and orders in the lines of a check text.

ghost use Rattle.std.specs.Prelude.{◌≡◌, Some};
ghost use Rattle.block_text.specs.Spelling.{exit_text, insts_text, name_of_exit, order_text, targets_text};
ghost use Rattle.text.specs.Shown.{shown_text};
ghost use Rattle.text.specs.Written.{Writes};

use crate::ExitName;
use mblock::{Exit, Order};
use mips_isa::Plain;
use std::fmt;
use text::Writer;

/// Returns the name of an exit that names blocks.
fn name_of(exit: &Exit) -> Option<ExitName>
    ensures { result ≡ name_of_exit exit.now }
{
    match *exit {
        Exit::Goto(_) => Some(ExitName::Goto),
        Exit::BranchPair { test, .. } => Some(ExitName::BranchPair(test)),
        Exit::BranchZero { test, .. } => Some(ExitName::BranchZero(test)),
        Exit::Call { .. } => Some(ExitName::Call),
        Exit::Out(_) => Some(ExitName::Out),
        Exit::Return | Exit::Halt => None,
    }
}

/// What stands after the name of an exit, or alone.
#[derive(Clone, Copy)]
struct Targets<'a>(&'a Exit);

impl<'a> fmt::Display for Targets<'a> {
    ghost output = { λ e. Some (targets_text e.0.now) };

    fn fmt<W: fmt::Write>(&self, f: &mut fmt::Formatter<W>) -> fmt::Result {
        match *self.0 {
            Exit::Goto(then) => {
                let then = then.number();
                write!(f, "{then}")
            }
            Exit::BranchPair {
                rs,
                rt,
                then,
                other,
                ..
            } => {
                let (then, other) = (then.number(), other.number());
                write!(f, "{rs},{rt},{then},{other}")
            }
            Exit::BranchZero {
                rs,
                then,
                other,
                ..
            } => {
                let (then, other) = (then.number(), other.number());
                write!(f, "{rs},{then},{other}")
            }
            Exit::Call { function, next } => {
                let (function, next) = (function.number(), next.number());
                write!(f, "{function},{next}")
            }
            Exit::Return => f.write_str("return"),
            Exit::Out(next) => {
                let next = next.number();
                write!(f, "{next}")
            }
            Exit::Halt => f.write_str("halt"),
        }
    }
}

/// How a block is left, as check texts spell it.
#[derive(Clone, Copy)]
pub struct ExitLine(pub Exit);

impl fmt::Display for ExitLine {
    ghost output = { λ e. Some (exit_text e.0) };

    fn fmt<W: fmt::Write>(&self, f: &mut fmt::Formatter<W>) -> fmt::Result {
        let targets = Targets(&self.0);
        match name_of(&self.0) {
            Some(name) => {
                let name = name.name();
                write!(f, "{name} {targets}")
            }
            None => write!(f, "{targets}"),
        }
    }
}

/// Writes instructions, each after a margin and before an end.
pub fn put_insts(out: &mut Writer, insts: &[Plain], margin: &str, end: &str)
    ensures { Writes out.old (shown_text (insts_text margin.now end.now insts.now)) out.new }
{
    for inst in insts {
        out.text(margin);
        out.put(inst);
        out.text(end);
    }
}

/// Writes an order: its instructions, its exit and its slot.
pub fn put_order(out: &mut Writer, order: &Order, margin: &str, end: &str)
    ensures { Writes out.old (shown_text (order_text margin.now end.now order.now)) out.new }
{
    put_insts(out, order.insts(), margin, end);
    out.text(margin);
    out.put(&ExitLine(order.exit()));
    out.text(end);
    if let Some(slot) = order.slot() {
        out.text(margin);
        out.text("slot ");
        out.put(&slot);
        out.text(end);
    }
}
