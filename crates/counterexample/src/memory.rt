//! Memory: what fills it at the start, and the stores since.
ghost use Rattle.std.specs.Prelude.{◌≡◌, IfOk, IfSome, is_some, true, false};
ghost use Rattle.mips_isa.specs.States.{is_open, load_at, store_at};
ghost use Rattle.counterexample.specs.Memories.{everywhere, bytes_of, byte_behind};

use crate::filling::{Filling, byte_at_place};
use std::alloc::AllocError;
use words::Width;

/// A store that was made.
#[derive(Clone, Copy)]
pub struct Stored {
    pub width: Width,
    pub address: u32,
    pub word: u32,
}

/// Memory: what fills it, and the stores since, the first one first.
#[derive(Drop)]
pub struct Memory {
    pub filling: Filling,
    pub stores: Vec<Stored>,
}

impl Stored {
    /// Returns the byte at an address after the store, where this one stands before.
    #[tactic(auto, unfolding(mips_isa::specs::States::store_word, mips_isa::specs::States::store_byte))]
    pub fn byte_behind(&self, a: u32, before: u8) -> u8
        ensures { result ≡ byte_behind self.now a before }
    {
        match self.width {
            Width::Word if self.address % 4 == 0 && self.address <= a && a - self.address < 4 => {
                byte_at_place(self.word, (a - self.address) as usize)
            }
            Width::Byte if a == self.address => (self.word % 256) as u8,
            _ => before,
        }
    }
}

impl Memory {
    /// Returns the byte at an address.
    pub fn byte(&self, a: u32) -> u8
        ensures { result ≡ bytes_of self.now a }
    {
        let mut byte = self.filling.byte(a);
        for stored in self.stores.as_slice() {
            byte = stored.byte_behind(a, byte);
        }
        byte
    }

    /// Returns the word at an address, or the byte, extended with zeros; None if no word may stand there.
    #[tactic(auto, unfolding(mips_isa::specs::States::load_word, mips_isa::specs::States::load_byte))]
    pub fn load(&self, width: Width, a: u32) -> Option<u32>
        ensures open { is_some result ≡ is_open width everywhere a }
        ensures word { IfSome result (λ w. w ≡ load_at width everywhere (bytes_of self.now) a) }
    {
        match width {
            Width::Word if a % 4 == 0 => Some(u32::from_be_bytes([
                self.byte(a),
                self.byte(a + 1),
                self.byte(a + 2),
                self.byte(a + 3),
            ])),
            Width::Word => None,
            Width::Byte => Some(u32::from(self.byte(a))),
        }
    }

    /// Writes the word at an address, or its low eight bits as the byte there; false if no word may stand there.
    pub fn store(&mut self, width: Width, address: u32, word: u32) -> Result<bool, AllocError>
        ensures open { IfOk result (λ b. b ≡ is_open width everywhere address) }
        ensures bytes { IfOk result (λ b. b ≡ true → bytes_of self.new ≡ store_at width everywhere (bytes_of self.old) address word) }
        ensures closed { IfOk result (λ b. b ≡ false → bytes_of self.new ≡ bytes_of self.old) }
        ensures filling { self.new.filling ≡ self.old.filling }
    {
        if matches!(width, Width::Word) && address % 4 != 0 {
            return Ok(false);
        }
        self.stores.push(Stored {
            width,
            address,
            word,
        })?;
        Ok(true)
    }
}
