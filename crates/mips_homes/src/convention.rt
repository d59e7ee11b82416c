//! The calling convention: what each register is for. Register 0 is always 0, and register 30 keeps bases of elements within a block.

ghost use Rattle.std.specs.Prelude.{◌≡◌, ◌<◌};
ghost use Rattle.mips_homes.specs.Convention.{is_callee_saved};

use mips_isa::NonzeroReg;

/// Free between instructions: one of two inner temporaries, and the base of an element.
pub const SCRATCH_1: u8 = 1;

/// Free between instructions: the right operand of an operator.
pub const SCRATCH_2: u8 = 2;

/// Free between instructions: the other inner temporary, and what a branch tests.
pub const SCRATCH_3: u8 = 3;

/// The result of a call.
pub const RESULT: u8 = 2;

/// The first argument of a call; the next registers have up to three more.
pub const FIRST_ARGUMENT: u8 = 4;

/// The first of the temporaries, which are caller-saved.
pub const FIRST_TEMPORARY: u8 = 8;

/// The temporaries, in the order in which they are given away: to pseudo-registers local to blocks, and to copies of slots.
pub(crate) const TEMPORARIES: [u8; 12] = [8, 9, 10, 11, 12, 13, 14, 15, 24, 25, 26, 27];

/// The first of the eight callee-saved registers.
pub const FIRST_CALLEE_SAVED: u8 = 16;

/// The middle of the data that an instruction reaches.
pub const GLOBAL_POINTER: u8 = 28;

/// The lower end of the frame.
pub const STACK_POINTER: u8 = 29;

/// The return address of a call.
pub const LINK: u8 = 31;

/// Returns the register with this number, 1 to 31.
pub fn register(number: u8) -> NonzeroReg
    requires nonzero { 0 < number }
    requires range { number < 32 }
    ensures { result ≡ number }
{
    match NonzeroReg::new(number) {
        Some(r) => r,
        None => unreachable!(),
    }
}

/// Reports whether a call leaves a register as it was.
pub fn is_callee_saved(register: u8) -> bool
    ensures { result ≡ is_callee_saved register }
{
    15 < register && register < 24
}
