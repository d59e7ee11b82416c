//! Where orders stand, in words.

ghost use Rattle.std.specs.Prelude.{◌≡◌, ◌*◌, ◌≤◌, IfOk, length};
ghost use Rattle.mblock.specs.declared.limits.TheConstants.{UNIT_BLOCKS};
ghost use Rattle.mips_asm.specs.Layout.{exit_size, place, size};
ghost use Rattle.mips_asm.specs.Emitted.{places_from};

use mblock::{Exit, Order};
use std::alloc::{AllocError, Global};

fn exit_size(exit: Exit) -> u32
    ensures { result ≡ exit_size exit }
{
    match exit {
        Exit::Goto(_) | Exit::Return | Exit::Halt => 2,
        _ => 4,
    }
}

/// Returns how many words an order has.
pub fn size(order: &Order) -> u32
    ensures value { result ≡ size order.now }
    ensures small { result ≤ 2052 }
{
    order.insts().len() as u32 + exit_size(order.exit())
}

/// Returns where each order begins, in words.
pub fn places(alloc: Global, orders: &[Order]) -> Result<Vec<u32>, AllocError>
    requires { length orders.now ≤ UNIT_BLOCKS }
    ensures { IfOk result (λ p. p.items ≡ places_from 0 orders.now) }
{
    let mut places = Vec::with_capacity(alloc, orders.len())?;
    let mut here = 0;
    for order in orders {
        places.push(here)?;
        here += size(order);
    }
    Ok(places)
}

/// Returns how many words there are.
pub fn total(orders: &[Order]) -> u32
    requires { length orders.now ≤ UNIT_BLOCKS }
    ensures value { result ≡ place orders.now (length orders.now) }
    ensures small { result ≤ 2052 * length orders.now }
{
    let mut words = 0;
    for order in orders {
        words += size(order);
    }
    words
}
