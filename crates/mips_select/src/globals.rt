//! The data of a program: where its globals begin, and their bytes.

ghost use Rattle.std.specs.Prelude.{◌≡◌, ◌*◌, ◌≤◌, ◌++◌, IfOk, OnOk, map, sum_by};
ghost use Rattle.words.specs.Words.{wrap};
ghost use Rattle.words.specs.Widths.{kept};
ghost use Rattle.rtl.specs.declared.limits.TheConstants.{MAX_GLOBAL_WORDS};
ghost use Rattle.rtl.specs.Meaning.{first_values};
ghost use Rattle.rtl.specs.Programs.{word_count};
ghost use Rattle.mips_select.specs.Data.{element_bytes, elements_bytes, gap_behind, zeros, global_bytes, padded_bytes, bare_bytes};
ghost use Rattle.mips_select.specs.Data.{data_bytes, starts_from};

use crate::push::push;
use rtl::RGlobal;
use std::alloc::{AllocError, Global};
use words::Width;

/// Pushes a word, its highest byte first.
fn push_word(bytes: &mut Vec<u8>, v: u32) -> Result<(), AllocError>
    ensures { OnOk result (bytes.new.items ≡ bytes.old.items ++ element_bytes Width.Word v) }
{
    push(bytes, (v / 16_777_216 % 256) as u8)?;
    push(bytes, (v / 65_536 % 256) as u8)?;
    push(bytes, (v / 256 % 256) as u8)?;
    push(bytes, (v % 256) as u8)
}

/// Pushes an element, of which an array of bytes has the low eight bits.
fn push_element(bytes: &mut Vec<u8>, width: Width, v: u32) -> Result<(), AllocError>
    ensures { OnOk result (bytes.new.items ≡ bytes.old.items ++ element_bytes width (kept width (wrap v))) }
{
    match width {
        Width::Word => push_word(bytes, v),
        Width::Byte => push(bytes, (v % 256) as u8),
    }
}

fn push_elements(bytes: &mut Vec<u8>, width: Width, values: &[u32]) -> Result<(), AllocError>
    ensures { OnOk result (bytes.new.items ≡ bytes.old.items ++ elements_bytes width (map (λ v. kept width (wrap v)) values.now)) }
{
    for v in values {
        push_element(bytes, width, *v)?;
    }
    Ok(())
}

fn push_zeros(bytes: &mut Vec<u8>, n: u32) -> Result<(), AllocError>
    ensures { OnOk result (bytes.new.items ≡ bytes.old.items ++ zeros n) }
{
    for _i in 0..n {
        push(bytes, 0)?;
    }
    Ok(())
}

/// Returns how many bytes stand after so many elements, up to a whole word.
fn gap_behind(width: Width, n: u32) -> u32
    ensures { result ≡ gap_behind width n }
{
    match width {
        Width::Word => 0,
        Width::Byte => (4 - n % 4) % 4,
    }
}

fn push_values(bytes: &mut Vec<u8>, global: &RGlobal) -> Result<(), AllocError>
    ensures { OnOk result (bytes.new.items ≡ bytes.old.items ++ elements_bytes global.now.width (first_values global.now)) }
{
    push_elements(bytes, global.width, global.first.as_slice())
}

fn push_global(bytes: &mut Vec<u8>, global: &RGlobal) -> Result<(), AllocError>
    ensures { OnOk result (bytes.new.items ≡ bytes.old.items ++ global_bytes global.now) }
{
    push_values(bytes, global)?;
    push_zeros(bytes, gap_behind(global.width, global.length))
}

/// Pushes the elements of globals without gaps.
fn push_bare(bytes: &mut Vec<u8>, globals: &[RGlobal]) -> Result<(), AllocError>
    ensures { OnOk result (bytes.new.items ≡ bytes.old.items ++ bare_bytes globals.now) }
{
    for global in globals {
        push_values(bytes, global)?;
    }
    Ok(())
}

/// Returns the bytes of a program's globals.
pub(crate) fn globals_bytes(alloc: Global, globals: &[RGlobal]) -> Result<Vec<u8>, AllocError>
    ensures { IfOk result (λ d. d.items ≡ data_bytes globals.now) }
{
    let (others, last) = globals.split_at(globals.len().saturating_sub(1));
    let mut bytes = padded_bytes(alloc, others)?;
    push_bare(&mut bytes, last)?;
    Ok(bytes)
}

/// Returns the bytes of globals, each with its gap.
fn padded_bytes(alloc: Global, globals: &[RGlobal]) -> Result<Vec<u8>, AllocError>
    ensures { IfOk result (λ d. d.items ≡ padded_bytes globals.now) }
{
    let mut bytes = Vec::new(alloc);
    for global in globals {
        push_global(&mut bytes, global)?;
    }
    Ok(bytes)
}

/// Returns where each global begins.
pub(crate) fn globals_starts(alloc: Global, globals: &[RGlobal]) -> Result<Vec<u32>, AllocError>
    requires { sum_by word_count globals.now ≤ MAX_GLOBAL_WORDS }
    ensures { IfOk result (λ s. s.items ≡ starts_from 0 globals.now) }
{
    let mut starts = Vec::new(alloc);
    let mut n: u32 = 0;
    for global in globals {
        push(&mut starts, n)?;
        n += 4 * global.width.words_of(global.length);
    }
    Ok(starts)
}
