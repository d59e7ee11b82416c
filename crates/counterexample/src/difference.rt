//! Where what two runs leave differs.
ghost use Rattle.std.specs.Prelude.{◌≡◌, ◌≢◌, ℕ, ◌+◌, ◌%◌, ◌<◌, IfSome, IfNone, Contains, slice_index, Some};
ghost use Rattle.counterexample.specs.declared.memory.Stored.{Stored as AStored};
ghost use Rattle.counterexample.specs.Memories.{bytes_of, SameReached};
ghost use Rattle.counterexample.specs.Views.{effect_of};
ghost use Rattle.counterexample.specs.Refuting.{DiffersIn};

use crate::left::Left;
use crate::memory::{Memory, Stored};
use crate::registers::Registers;
use mips_isa::Reg;
use words::Width;

/// What an order does otherwise than its block.
#[derive(Clone, Copy)]
pub enum Difference {
    /// It is stuck.
    Stuck,
    /// It leaves another word in the register.
    Register(Reg),
    Hi,
    Lo,
    /// It leaves another byte at the address.
    Memory(u32),
    /// It goes elsewhere, prints or ends with another word.
    Exit,
}

fn first_register(a: &Registers, b: &Registers) -> Option<Reg>
    ensures some { IfSome result (λ r. slice_index a.now.regs r ≢ slice_index b.now.regs r) }
    ensures none { IfNone result ((q : ℕ) → q < 32 → slice_index a.now.regs q ≡ slice_index b.now.regs q) }
{
    let number = (0..32).find(|r: &u8| a.regs[*r as usize] != b.regs[*r as usize])?;
    Reg::new(number)
}

/// Returns a byte that a store reaches and that differs.
fn byte_of_store(a: &Memory, b: &Memory, stored: &Stored) -> Option<u32>
    ensures some { IfSome result (λ x. bytes_of a.now x ≢ bytes_of b.now x) }
    ensures none { IfNone result (SameReached a.now b.now stored.now) }
{
    let address = stored.address;
    match stored.width {
        Width::Word if address % 4 == 0 => {
            for k in 0..4u32 {
                if a.byte(address + k) != b.byte(address + k) {
                    return Some(address + k);
                }
            }
            None
        }
        Width::Byte if a.byte(address) != b.byte(address) => Some(address),
        _ => None,
    }
}

/// Returns a byte that one of the stores reaches and that differs.
fn byte_of_stores(a: &Memory, b: &Memory, stores: &[Stored]) -> Option<u32>
    ensures some { IfSome result (λ x. bytes_of a.now x ≢ bytes_of b.now x) }
    ensures none { IfNone result ((s : AStored) → Contains stores.now s → SameReached a.now b.now s) }
{
    stores.iter().find_map(|stored| byte_of_store(a, b, stored))
}

/// Returns a byte that differs, of memories that are filled alike.
fn first_byte(a: &Memory, b: &Memory) -> Option<u32>
    requires { a.now.filling ≡ b.now.filling }
    ensures some { IfSome result (λ x. bytes_of a.now x ≢ bytes_of b.now x) }
    ensures none { IfNone result (bytes_of a.now ≡ bytes_of b.now) }
{
    match byte_of_stores(a, b, a.stores.as_slice()) {
        Some(address) => Some(address),
        None => byte_of_stores(a, b, b.stores.as_slice()),
    }
}

/// Returns a difference of what two runs leave.
pub(crate) fn difference_of(a: &Left, b: &Left) -> Option<Difference>
    requires { a.now.registers.memory.filling ≡ b.now.registers.memory.filling }
    ensures some { IfSome result (λ d. DiffersIn d (effect_of a.now) (Some (effect_of b.now))) }
    ensures none { IfNone result (effect_of a.now ≡ effect_of b.now) }
{
    if let Some(r) = first_register(&a.registers, &b.registers) {
        return Some(Difference::Register(r));
    }
    if a.registers.hi != b.registers.hi {
        return Some(Difference::Hi);
    }
    if a.registers.lo != b.registers.lo {
        return Some(Difference::Lo);
    }
    if let Some(address) = first_byte(&a.registers.memory, &b.registers.memory) {
        return Some(Difference::Memory(address));
    }
    if a.goes != b.goes {
        return Some(Difference::Exit);
    }
    None
}
