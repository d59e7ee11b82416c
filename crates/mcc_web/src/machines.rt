//! The export that shows the machine between two words.

ghost use Rattle.std.specs.Prelude.{◌≡◌, ◌≢◌, ◌≤◌, ◌+◌, IfOk, Some, false, true};
ghost use Rattle.mips_code.specs.Machines.{words_code};
ghost use Rattle.mips_machine.specs.Views.{machine_of};
ghost use Rattle.mcc_web.specs.Machines.{IsFar, Shows, ShowsMachine, ShowsMemory, WasNotAt, behind};

use image::read_image;
use mips_machine::{Load, Machine, load};
use std::alloc::{AllocError, Global};

/// How many words of memory a view shows.
const SHOWN: usize = 32;

/// The machine between two words, as its host sees it.
#[repr(C)]
#[derive(Drop)]
pub struct View {
    /// How many words ran.
    pub words: u64,
    /// The address of the next word.
    pub pc: u32,
    /// Where it goes on after that word, while this is in a slot.
    pub target: u32,
    pub in_slot: bool,
    /// The register of the load under way, 0 where there is none, and what was loaded.
    pub loads: u8,
    /// For how many more words a product or division would come too early.
    pub hold: u8,
    /// How many words of `memory` are mapped.
    pub mapped: u8,
    pub loaded: u32,
    pub high: u32,
    pub low: u32,
    pub registers: [u32; 32],
    /// The words from the address on that was asked for.
    pub memory: [u32; 32],
}

/// Which words run: `from` of them, and then at most `most` more, up to the first at the address `stop`.
#[derive(Clone, Copy)]
struct Stretch {
    from: u64,
    most: u64,
    stop: u32,
}

/// Reports whether the machine is at the address at which it stops, after so many words.
fn is_stopped(machine: &Machine<'_>, k: u64, stretch: Stretch) -> bool
    ensures stopped { result ≡ true → (stretch.from ≤ k) × ((machine_of machine.now).pc ≡ stretch.stop) }
    ensures passed { result ≡ false → stretch.from ≤ k → (machine_of machine.now).pc ≢ stretch.stop }
{
    k >= stretch.from && machine.pc() == stretch.stop
}

/// Runs words, and reports how many ran; none of them ended the run.
fn advance(machine: &mut Machine<'_>, stretch: Stretch) -> Result<u64, AllocError>
    ensures ran { let code = words_code machine.old.code.words.now in
        IfOk result (λ k. behind code k (machine_of machine.old) ≡ Some (machine_of machine.new)) }
    ensures within { IfOk result (λ k. k ≤ stretch.from + stretch.most) }
    ensures far { IfOk result (λ k. IsFar (words_code machine.old.code.words.now) stretch.from stretch.most stretch.stop k
        (machine_of machine.new)) }
    ensures passed { IfOk result (WasNotAt (words_code machine.old.code.words.now) (machine_of machine.old) stretch.from stretch.stop) }
{
    let end = stretch.from.saturating_add(stretch.most);
    for k in 0..end {
        if is_stopped(machine, k, stretch) {
            return Ok(k);
        }
        if machine.step()?.is_some() {
            return Ok(k);
        }
    }
    Ok(end)
}

/// Returns the words of memory from an address on, up to the first that isn't mapped, and how many there are.
fn words_from(machine: &Machine<'_>, address: u32) -> (u8, [u32; 32])
    ensures { ShowsMemory (machine_of machine.now) address result.0 result.1 }
{
    let mut words = [0; SHOWN];
    for k in 0..SHOWN {
        match machine.word_at(address.wrapping_add(4 * k as u32)) {
            Ok(word) => words[k] = word,
            Err(_) => return (k as u8, words),
        }
    }
    (SHOWN as u8, words)
}

/// Returns what a machine holds, after so many words, and its memory from an address on.
fn view_of(machine: &Machine<'_>, words: u64, address: u32) -> View
    ensures words { result.words ≡ words }
    ensures shows { ShowsMachine (machine_of machine.now) result }
    ensures memory { ShowsMemory (machine_of machine.now) address result.mapped result.memory }
{
    let (in_slot, target) = match machine.target() {
        Some(target) => (true, target),
        None => (false, 0),
    };
    let (loads, loaded) = match machine.loading() {
        Load::Nothing => (0, 0),
        Load::Loaded { register, word } => (register.index(), word),
    };
    let (high, low) = machine.high_low();
    let (mapped, memory) = words_from(machine, address);
    View {
        words,
        pc: machine.pc(),
        target,
        in_slot,
        loads,
        hold: machine.hold(),
        mapped,
        loaded,
        high,
        low,
        registers: machine.registers(),
        memory,
    }
}

/// Shows the machine of an image after `from` words, or after at most `most` more, up to the first at the address `stop`. A run that ends
/// before is shown before its last word. The memory is that from `address` on. The answer is a status: 1 where the bytes are no image, or
/// memory was refused; the view is as it was then.
#[unsafe(no_mangle)]
pub extern "C" fn mcc_web_machine(
    alloc: Global,
    image: &[u8],
    from: u64,
    most: u64,
    stop: u32,
    address: u32,
    view: &mut View,
) -> u8
    ensures shows { result ≡ 0 → Shows image.now from most stop address view.new }
    ensures kept { result ≡ 1 → view.new ≡ view.old }
    ensures status { result ≤ 1 }
{
    let Ok(image) = read_image(alloc, image) else {
        return 1;
    };
    let Ok(mut machine) = load(alloc, &image) else {
        return 1;
    };
    let Ok(words) = advance(&mut machine, Stretch { from, most, stop }) else {
        return 1;
    };
    *view = view_of(&machine, words, address);
    0
}
