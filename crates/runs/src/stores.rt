//! What a run keeps: a word for each local or register that is set, and the words of each global.
ghost use Rattle.std.specs.Prelude.{◌≡◌, ◌<◌, length, Option, OnOk, OnErr, None, Some, if◌then◌else◌, false};
ghost use Rattle.runs.specs.Stores.{places_with, element_at, arrays_with};
ghost use Rattle.runs.specs.Kept.{places, arrays};

use std::alloc::AllocError;

/// Returns the word of a local or a register; None if it isn't set.
#[inline]
pub fn word_at(words: &[Option<u32>], number: usize) -> Option<u32>
    ensures { result ≡ places words.now number }
{
    if number < words.len() {
        words[number]
    } else {
        None
    }
}

/// Makes places up to a number, the new ones unset.
fn make_room(words: &mut Vec<Option<u32>>, number: usize) -> Result<(), AllocError>
    ensures same { places words.new.items ≡ places words.old.items }
    ensures room { OnOk result (number < length words.new.items) }
{
    while words.len() <= number {
        words.push(None)?;
    }
    Ok(())
}

/// Sets a local or a register. `Err` only if memory runs out; then all are as they were.
pub fn set_word(words: &mut Vec<Option<u32>>, number: usize, v: u32) -> Result<(), AllocError>
    ensures ok { OnOk result (places words.new.items ≡ places_with (places words.old.items) number (Some v)) }
    ensures err { OnErr result (places words.new.items ≡ places words.old.items) }
{
    make_room(words, number)?;
    words[number] = Some(v);
    Ok(())
}

/// Returns the word of a global at an index; None outside.
#[inline]
pub fn element(globals: &[Vec<u32>], global: usize, index: usize) -> Option<u32>
    ensures { result ≡ element_at (arrays globals.now) global index }
{
    if global < globals.len() {
        let elements = &globals[global];
        if index < elements.len() {
            return Some(elements[index]);
        }
    }
    None
}

/// Writes a word of a global; false outside, and then all stay as they were.
pub fn store(globals: &mut [Vec<u32>], global: usize, index: usize, v: u32) -> bool
    ensures stored { arrays_with (arrays globals.old) global index v ≡ (if result then Some (arrays globals.new) else None) }
    ensures outside { result ≡ false → globals.new ≡ globals.old }
{
    if global < globals.len() {
        let elements = &mut globals[global];
        if index < elements.len() {
            elements[index] = v;
            return true;
        }
    }
    false
}
