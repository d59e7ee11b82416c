//! The bytes of images, written and read.
ghost use Rattle.std.specs.Prelude.{◌≡◌, ◌+◌, ◌*◌, ◌≤◌, ◌^◌, ◌++◌, None, length, vec_len, vec_capacity, OnOk, IfOk, IfErr, MatchResult};
ghost use Rattle.image.specs.declared.limits.TheConstants.{CODE_WORDS};
ghost use Rattle.std.specs.Int.{w32, to_be_bytes};
ghost use Rattle.image.specs.Images.{ImageParts, IsImage, EachImageHasItsBytes, head_of, image_bytes, words_bytes, word_at_byte, words_of};
ghost use Rattle.image.specs.Images.{counts_at, total, first_version_fault, second_version_fault, image_fault, is_entry, has_sizes};
ghost use Rattle.image.specs.Images.{parts_behind, parts_of, IsImageFault};
ghost use Rattle.image.specs.Views.{counts_of, version_of};
ghost use Rattle.image.specs.declared.fault.ImageFault.{ImageFault as Fault};

use crate::fault::ImageFault;
use crate::image::{Counts, Image};
use crate::limits::{CODE_WORDS, COUNTED_BLOCKS, DATA_BYTES};
use mips_isa::CODE_BASE;
use std::alloc::{AllocError, Global};

/// The four bytes `MCCI`.
const MAGIC: u32 = 0x4d43_4349;

/// Puts the four bytes of a word after others, where there is room for them.
fn put_word(out: &mut Vec<u8>, word: u32)
    requires { vec_len out.old + 4 ≤ vec_capacity out.old }
    ensures bytes { out.new.items ≡ out.old.items ++ to_be_bytes w32 word }
    ensures len { vec_len out.new ≡ vec_len out.old + 4 }
    ensures capacity { vec_capacity out.new ≡ vec_capacity out.old }
{
    let [first, second, third, last] = word.to_be_bytes();
    out.push_reserved(first);
    out.push_reserved(second);
    out.push_reserved(third);
    out.push_reserved(last);
}

fn put_words(out: &mut Vec<u8>, words: &[u32]) -> Result<(), AllocError>
    requires { length words.now ≤ CODE_WORDS }
    ensures { OnOk result (out.new.items ≡ out.old.items ++ words_bytes words.now) }
{
    out.reserve(4 * words.len())?;
    for word in words {
        put_word(out, *word);
    }
    Ok(())
}

fn put_head(out: &mut Vec<u8>, image: &Image) -> Result<(), AllocError>
    ensures { OnOk result (out.new.items ≡ out.old.items
        ++ words_bytes (head_of image.now.version (length image.now.code) image.now.entry (length image.now.bytes))) }
{
    let code = image.code().len() as u32;
    let bytes = image.bytes().len() as u32;
    let entry = image.entry();
    match image.counts() {
        None => put_words(out, &[MAGIC, 1, code, entry, bytes / 4]),
        Some(c) => put_words(
            out,
            &[
                MAGIC,
                2,
                code,
                entry,
                bytes,
                c.same,
                c.unclean,
                c.differs,
                c.full,
                c.no_memory,
                c.missed,
            ],
        ),
    }
}

/// Returns the bytes of an image.
pub fn write_image(alloc: Global, image: &Image) -> Result<Vec<u8>, AllocError>
    ensures { IfOk result (λ bytes. bytes.items ≡ image_bytes image.now) }
{
    let code = image.code();
    let bytes = image.bytes();
    let mut out = Vec::with_capacity(alloc, 44 + 4 * code.len() + bytes.len())?;
    put_head(&mut out, image)?;
    put_words(&mut out, code)?;
    out.extend_from_slice(bytes)?;
    Ok(out)
}

fn word_at_byte(bytes: &[u8], at: usize) -> u32
    requires { at + 4 ≤ length bytes.now }
    ensures { result ≡ word_at_byte bytes.now at }
{
    (u32::from(bytes[at]) << 24)
        + (u32::from(bytes[at + 1]) << 16)
        + (u32::from(bytes[at + 2]) << 8)
        + u32::from(bytes[at + 3])
}

fn words_of(alloc: Global, count: usize, bytes: &[u8]) -> Result<Vec<u32>, AllocError>
    requires { 4 * count ≤ length bytes.now }
    ensures { IfOk result (λ words. words.items ≡ words_of count bytes.now) }
{
    let mut words = Vec::with_capacity(alloc, count)?;
    let mut rest = bytes;
    for _ in 0..count {
        let (_, behind) = rest.split_at(4);
        words.push(word_at_byte(rest, 0))?;
        rest = behind;
    }
    Ok(words)
}

/// Reports whether the address is that of one of so many code words.
fn is_entry(count: u32, address: u32) -> bool
    ensures { result ≡ is_entry count address }
{
    address >= CODE_BASE && address % 4 == 0 && (address - CODE_BASE) / 4 < count
}

fn has_sizes(head: usize, most: usize, rest: usize, bytes: &[u8]) -> bool
    requires long { 20 ≤ length bytes.now }
    requires head { head ≤ 44 }
    requires rest { rest ≤ 2 ^ 34 }
    ensures { result ≡ has_sizes head most rest bytes.now }
{
    let code = word_at_byte(bytes, 8) as usize;
    1 <= code
        && code <= CODE_WORDS
        && word_at_byte(bytes, 16) as usize <= most
        && bytes.len() == head + 4 * code + rest
}

fn first_version_fault(bytes: &[u8]) -> Option<ImageFault>
    requires { 20 ≤ length bytes.now }
    ensures { result ≡ first_version_fault bytes.now }
{
    let data = 4 * word_at_byte(bytes, 16) as usize;
    if !has_sizes(20, DATA_BYTES / 4, data, bytes) {
        return Some(ImageFault::Length);
    }
    if !is_entry(word_at_byte(bytes, 8), word_at_byte(bytes, 12)) {
        return Some(ImageFault::Entry);
    }
    None
}

fn counts_at(bytes: &[u8]) -> Counts
    requires { 44 ≤ length bytes.now }
    ensures { counts_of result ≡ counts_at bytes.now }
{
    Counts {
        same: word_at_byte(bytes, 20),
        unclean: word_at_byte(bytes, 24),
        differs: word_at_byte(bytes, 28),
        full: word_at_byte(bytes, 32),
        no_memory: word_at_byte(bytes, 36),
        missed: word_at_byte(bytes, 40),
    }
}

fn total(c: Counts) -> u64
    ensures { result ≡ total (counts_of c) }
{
    u64::from(c.same)
        + u64::from(c.unclean)
        + u64::from(c.differs)
        + u64::from(c.full)
        + u64::from(c.no_memory)
        + u64::from(c.missed)
}

fn second_version_fault(bytes: &[u8]) -> Option<ImageFault>
    requires { 20 ≤ length bytes.now }
    ensures { result ≡ second_version_fault bytes.now }
{
    if bytes.len() < 44 {
        return Some(ImageFault::Length);
    }
    let data = word_at_byte(bytes, 16) as usize;
    if !has_sizes(44, DATA_BYTES, data, bytes) {
        return Some(ImageFault::Length);
    }
    if !is_entry(word_at_byte(bytes, 8), word_at_byte(bytes, 12)) {
        return Some(ImageFault::Entry);
    }
    if total(counts_at(bytes)) > COUNTED_BLOCKS {
        return Some(ImageFault::Counts);
    }
    None
}

fn image_fault(bytes: &[u8]) -> Option<ImageFault>
    ensures { result ≡ image_fault bytes.now }
{
    if bytes.len() < 20 {
        return Some(ImageFault::Length);
    }
    if word_at_byte(bytes, 0) != MAGIC {
        return Some(ImageFault::Magic);
    }
    match word_at_byte(bytes, 4) {
        1 => first_version_fault(bytes),
        2 => second_version_fault(bytes),
        _ => Some(ImageFault::Version),
    }
}

/// Returns the image after a head of so many bytes.
fn image_behind(
    alloc: Global,
    counts: Option<Counts>,
    head: usize,
    bytes: &[u8],
) -> Result<Image, AllocError>
    requires image { IsImage (parts_behind (version_of counts) head bytes.now) }
    requires head { 20 ≤ head }
    requires length { head + 4 * word_at_byte bytes.now 8 ≤ length bytes.now }
    ensures { IfOk result (λ i. i ≡ parts_behind (version_of counts) head bytes.now) }
{
    let code = word_at_byte(bytes, 8) as usize;
    let entry = word_at_byte(bytes, 12);
    let (_, behind) = bytes.split_at(head);
    let (_, data) = behind.split_at(4 * code);
    let code_words = words_of(alloc, code, behind)?;
    let data_bytes = Vec::from_slice(alloc, data)?;
    Ok(Image::of(counts, entry, code_words, data_bytes))
}

/// Returns the image that the bytes say.
fn image_of(alloc: Global, bytes: &[u8]) -> Result<Image, AllocError>
    requires { image_fault bytes.now ≡ None }
    ensures { IfOk result (λ i. i ≡ parts_of bytes.now) }
{
    if word_at_byte(bytes, 4) == 1 {
        image_behind(alloc, None, 20, bytes)
    } else {
        image_behind(alloc, Some(counts_at(bytes)), 44, bytes)
    }
}

/// Returns the image whose bytes these are.
pub fn read_image(alloc: Global, bytes: &[u8]) -> Result<Image, ImageFault>
    ensures read { IfOk result (λ i. IsImage i × (image_bytes i ≡ bytes.now)) }
    ensures each { (i : ImageParts) → IsImage i → image_bytes i ≡ bytes.now
        → MatchResult result (λ r. r ≡ i) (λ e. e ≡ Fault.NoMemory) }
    ensures passed { IfOk result (λ _. image_fault bytes.now ≡ None) }
    ensures fault { IfErr result (IsImageFault bytes.now) }
{
    if let Some(fault) = image_fault(bytes) {
        return Err(fault);
    }
    let image = image_of(alloc, bytes)?;
    Ok(image)
}

/// States that the bytes of an image are those of no other.
pub fn one_image()
    ensures { EachImageHasItsBytes }
{}
