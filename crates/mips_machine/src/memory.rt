//! Data and stack, kept as words.
ghost use Rattle.std.specs.Prelude.{IfOk, ◌≡◌, ℕ, ◌<◌, ◌≤◌, ◌+◌, ◌-◌, ◌/◌, ◌^◌, slice_index, true, []};
ghost use Rattle.std.specs.Prelude.{length, vec_capacity, if◌then◌else◌, ◌==◌};
ghost use Rattle.mips_isa.specs.MemoryMap.{stack_base, stack_end};
ghost use Rattle.mips_isa.specs.States.{is_open, byte_of, load_at, store_at};
ghost use Rattle.mips_isa.specs.Starting.{words_mapped, first_bytes};
ghost use Rattle.mips_machine.specs.Places.{bytes_in, word_holding, with_word, word_in};

use mips_isa::{DATA_BASE, STACK_BASE, STACK_END};
use std::alloc::{AllocError, Global};
use words::Width;

const STACK_WORDS: usize = ((STACK_END - STACK_BASE) / 4) as usize;

/// The words of data and stack. The stack is kept from its end down, as far as it was written; there is room for all of it.
#[derive(Drop)]
pub struct Memory {
    pub globals: Vec<u32>,
    pub stack: Vec<u32>,
    ghost globals_fit: { length globals.items ≤ 262144 },
    ghost stack_fits: { 4194304 ≤ vec_capacity stack },
}

/// Returns the place of the stack's word that holds the byte at an address.
#[inline(always)]
fn stack_place(a: u32) -> usize
    requires { a < stack_end }
    ensures value { result ≡ (stack_end - 1 - a) / 4 }
    ensures below { stack_base ≤ a → result < 4194304 }
{
    ((STACK_END - 1 - a) / 4) as usize
}

/// Adds zeros up to a place.
fn reach(stack: &mut Vec<u32>, place: usize)
    requires { place < vec_capacity stack.old }
    ensures held { place < length stack.new.items }
    ensures same { (k : ℕ) → slice_index stack.new.items k ≡ slice_index stack.old.items k }
    ensures room { vec_capacity stack.new ≡ vec_capacity stack.old }
{
    while stack.len() <= place {
        stack.push_reserved(0);
    }
}

/// Returns the byte at a place of a word, the highest first.
#[inline(always)]
fn byte_at_place(word: u32, place: usize) -> u8
    requires { place < 4 }
    ensures { result ≡ byte_of word place }
{
    word.to_be_bytes()[place]
}

/// Returns the word with this byte at a place.
#[inline(always)]
fn with_byte(word: u32, place: usize, byte: u8) -> u32
    requires { place < 4 }
    ensures { (i : ℕ) → i < 4 → byte_of result i ≡ (if i == place then byte else byte_of word i) }
{
    let mut bytes = word.to_be_bytes();
    bytes[place] = byte;
    u32::from_be_bytes(bytes)
}

impl Memory {
    /// Reports whether the address of a byte is mapped.
    #[inline(always)]
    pub fn is_mapped(&self, a: u32) -> bool
        ensures { result ≡ words_mapped (length self.now.globals.items) a }
    {
        (DATA_BASE <= a && u64::from(a) < u64::from(DATA_BASE) + 4 * self.globals.len() as u64)
            || (STACK_BASE <= a && a < STACK_END)
    }

    /// Returns the word that holds the byte at an address.
    #[inline(always)]
    fn word_at(&self, a: u32) -> u32
        requires { words_mapped (length self.now.globals.items) a ≡ true }
        ensures value { result ≡ word_holding self.now.globals.items self.now.stack.items a }
        ensures range { result < 2 ^ 32 }
    {
        if STACK_BASE <= a {
            self.stack.get(stack_place(a)).copied().unwrap_or(0)
        } else {
            self.globals[((a - DATA_BASE) / 4) as usize]
        }
    }

    /// Replaces the word that holds the byte at an address.
    #[inline(always)]
    fn put_word(&mut self, a: u32, word: u32)
        requires { words_mapped (length self.old.globals.items) a ≡ true }
        ensures bytes { bytes_in self.new.globals.items self.new.stack.items
            ≡ with_word (bytes_in self.old.globals.items self.old.stack.items) a word }
        ensures length { length self.new.globals.items ≡ length self.old.globals.items }
    {
        if STACK_BASE <= a {
            let place = stack_place(a);
            reach(&mut self.stack, place);
            self.stack[place] = word;
        } else {
            self.globals[((a - DATA_BASE) / 4) as usize] = word;
        }
    }

    /// Returns the word at an address, or the byte, extended with zeros.
    #[inline(always)]
    pub fn load(&self, width: Width, a: u32) -> u32
        requires { is_open width (words_mapped (length self.now.globals.items)) a ≡ true }
        ensures { result ≡ load_at width (words_mapped (length self.now.globals.items))
            (bytes_in self.now.globals.items self.now.stack.items) a }
    {
        let word = self.word_at(a);
        match width {
            Width::Word => word,
            Width::Byte => u32::from(byte_at_place(word, (a % 4) as usize)),
        }
    }

    /// Writes the word at an address, or its low eight bits as the byte there.
    #[inline(always)]
    pub fn store(&mut self, width: Width, a: u32, word: u32)
        requires { is_open width (words_mapped (length self.old.globals.items)) a ≡ true }
        ensures bytes { bytes_in self.new.globals.items self.new.stack.items
            ≡ store_at width (words_mapped (length self.old.globals.items)) (bytes_in self.old.globals.items self.old.stack.items) a word }
        ensures length { length self.new.globals.items ≡ length self.old.globals.items }
    {
        match width {
            Width::Word => self.put_word(a, word),
            Width::Byte => {
                let held = self.word_at(a);
                let whole = with_byte(held, (a % 4) as usize, (word % 256) as u8);
                self.put_word(a, whole);
            }
        }
    }
}

/// Returns a stack that holds nothing yet, with room for all of it.
fn empty_stack(alloc: Global) -> Result<Vec<u32>, AllocError>
    ensures items { IfOk result (λ v. v.items ≡ []) }
    ensures room { IfOk result (λ v. 4194304 ≤ vec_capacity v) }
{
    Vec::with_capacity(alloc, STACK_WORDS)
}

/// Returns a byte, 0 after the end.
fn byte_at(bytes: &[u8], at: usize) -> u32
    ensures value { result ≡ slice_index bytes.now at }
    ensures small { result < 2 ^ 8 }
{
    match bytes.get(at) {
        Some(byte) => u32::from(*byte),
        None => 0,
    }
}

fn word_in(bytes: &[u8], k: usize) -> u32
    requires { k < 262144 }
    ensures { result ≡ word_in bytes.now k }
{
    let at = 4 * k;
    (byte_at(bytes, at) << 24)
        + (byte_at(bytes, at + 1) << 16)
        + (byte_at(bytes, at + 2) << 8)
        + byte_at(bytes, at + 3)
}

/// Returns the words of bytes, the last one filled up with zeros.
fn words_of(alloc: Global, bytes: &[u8]) -> Result<Vec<u32>, AllocError>
    requires { length bytes.now ≤ 1048576 }
    ensures count { IfOk result (λ w. length w.items ≡ (length bytes.now + 3) / 4) }
    ensures words { IfOk result (λ w. (k : ℕ) → k < (length bytes.now + 3) / 4 → slice_index w.items k ≡ word_in bytes.now k) }
{
    (0..(bytes.len() + 3) / 4)
        .map(|k| word_in(bytes, k))
        .collect(alloc)
}

/// Returns the memory at the start: these bytes of data, and a stack of zeros.
pub fn memory_of(alloc: Global, bytes: &[u8]) -> Result<Memory, AllocError>
    requires { length bytes.now ≤ 1048576 }
    ensures words { IfOk result (λ m. length m.globals.items ≡ (length bytes.now + 3) / 4) }
    ensures bytes { IfOk result (λ m. bytes_in m.globals.items m.stack.items ≡ first_bytes bytes.now) }
{
    let globals = words_of(alloc, bytes)?;
    let stack = empty_stack(alloc)?;
    Ok(Memory { globals, stack })
}
