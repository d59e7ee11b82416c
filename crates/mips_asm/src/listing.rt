//! Images as a reader sees them, line by line.

ghost use Rattle.std.specs.Prelude.{◌≡◌, ◌+◌, ◌*◌, ◌^◌, ◌<◌, ◌≤◌, ◌++◌, length, OnOk, IfOk, Some};
ghost use Rattle.std.specs.String.{string_bytes};
ghost use Rattle.mips_isa.specs.Starting.{data_base};
ghost use Rattle.mips_code.specs.Decoding.{instruction_of};
ghost use Rattle.image.specs.Images.{code_base, word_at_byte, words_of};
ghost use Rattle.image.specs.declared.limits.TheConstants as image_limits;
ghost use Rattle.mips_asm.specs.Listing.{byte_line, code_line, data_lines, decoded_text, lines_at, listing, word_line};

use image::Image;
use mips_code::decode;
use mips_isa::{ByteDigits, CODE_BASE, DATA_BASE, Inst, ListedControl, WordDigits};
use std::alloc::{AllocError, Global};
use std::fmt;

// What a word of code says.
#[derive(Clone, Copy)]
struct Decoded {
    address: u32,
    word: u32,
}

impl fmt::Display for Decoded {
    ghost output = { λ d. Some (decoded_text (instruction_of d.word) d.address) };

    fn fmt<W: fmt::Write>(&self, f: &mut fmt::Formatter<W>) -> fmt::Result {
        match decode(self.word) {
            None => f.write_str(".word"),
            Some(Inst::Plain(plain)) => write!(f, "{plain}"),
            Some(Inst::Control(control)) => {
                let address = self.address;
                let listed = ListedControl { control, address };
                write!(f, "{listed}")
            }
        }
    }
}

fn put_code(out: &mut String, code: &[u32]) -> Result<(), AllocError>
    requires { length code.now ≤ image_limits.CODE_WORDS }
    ensures { OnOk result (string_bytes out.new ≡ string_bytes out.old ++ lines_at code_line 4 code_base code.now) }
{
    let mut address = CODE_BASE;
    for word in code {
        let (place, digits) = (WordDigits(address), WordDigits(*word));
        let decoded = Decoded {
            address,
            word: *word,
        };
        writeln!(out, "{place}  {digits}  {decoded}")?;
        address += 4;
    }
    Ok(())
}

fn word_at_byte(bytes: &[u8]) -> u32
    requires { 4 ≤ length bytes.now }
    ensures { result ≡ word_at_byte bytes.now 0 }
{
    (u32::from(bytes[0]) << 24)
        + (u32::from(bytes[1]) << 16)
        + (u32::from(bytes[2]) << 8)
        + u32::from(bytes[3])
}

/// Writes so many words, the first one at the first byte.
fn put_words(out: &mut String, count: usize, bytes: &[u8]) -> Result<(), AllocError>
    requires room { 4 * count ≤ length bytes.now }
    requires few { length bytes.now ≤ image_limits.DATA_BYTES }
    ensures { OnOk result (string_bytes out.new ≡ string_bytes out.old ++ lines_at word_line 4 data_base (words_of count bytes.now)) }
{
    let mut address = DATA_BASE;
    let mut rest = bytes;
    for _ in 0..count {
        let (_, behind) = rest.split_at(4);
        let (place, digits) = (WordDigits(address), WordDigits(word_at_byte(rest)));
        writeln!(out, "{place}  {digits}  .word")?;
        address += 4;
        rest = behind;
    }
    Ok(())
}

fn put_bytes(out: &mut String, first: u32, bytes: &[u8]) -> Result<(), AllocError>
    requires { first + length bytes.now < 2 ^ 32 }
    ensures { OnOk result (string_bytes out.new ≡ string_bytes out.old ++ lines_at byte_line 1 first bytes.now) }
{
    let mut address = first;
    for byte in bytes {
        let (place, digits) = (WordDigits(address), ByteDigits(*byte));
        writeln!(out, "{place}  {digits}  .byte")?;
        address += 1;
    }
    Ok(())
}

fn put_data(out: &mut String, bytes: &[u8]) -> Result<(), AllocError>
    requires { length bytes.now ≤ image_limits.DATA_BYTES }
    ensures { OnOk result (string_bytes out.new ≡ string_bytes out.old ++ data_lines bytes.now) }
{
    let count = bytes.len() / 4;
    let (_, odd) = bytes.split_at(4 * count);
    put_words(out, count, bytes)?;
    put_bytes(out, DATA_BASE + 4 * count as u32, odd)
}

/// Returns the listing of an image: exactly `listing` of `specs/Listing.antt`. `Err` only if memory runs out.
pub fn list(alloc: Global, image: &Image) -> Result<String, AllocError>
    ensures { IfOk result (λ text. string_bytes text ≡ listing image.now) }
{
    let mut out = String::new(alloc);
    put_code(&mut out, image.code())?;
    put_data(&mut out, image.bytes())?;
    if let Some(counts) = image.counts() {
        writeln!(out, "report {counts}")?;
    }
    Ok(out)
}
