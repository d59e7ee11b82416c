//! Why lines spell no block and order.
ghost use Rattle.std.specs.Prelude.{Some};
ghost use Rattle.block_text.specs.Faults.{pair_fault_text};

use std::fmt;

/// Why a text gives no block and order.
#[derive(Clone, Copy, Debug, Drop)]
pub enum PairFault {
    /// The first line, from 1, that can't stand in its place, or the number of lines plus 1 where the
    /// text ends too early.
    Line(u32),
    /// Memory was refused.
    NoMemory,
}

impl fmt::Display for PairFault {
    ghost output = { λ e. Some (pair_fault_text e) };

    fn fmt<W: fmt::Write>(&self, f: &mut fmt::Formatter<W>) -> fmt::Result {
        match self {
            PairFault::Line(line) => write!(f, "fault 70 Line {line}"),
            PairFault::NoMemory => f.write_str("fault 30 NoMemory"),
        }
    }
}
