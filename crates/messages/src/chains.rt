//! Comparisons that may compare comparisons, as far as the bytes of a text tell.

/// Reports whether a comparison may stand beside another one in the same parentheses. A text without its tokens is asked this, so only a no
/// is sure: `<<` is taken for two signs, and where a comment may begin, or many parentheses are open, the answer is yes.
pub(crate) fn may_chain(text: &[u8]) -> bool {
    // whether a comparison stands before, a bit for each parenthesis that is open, the last bit for the innermost one
    let mut compared = 0u64;
    for byte in text {
        match byte {
            b'(' if compared >> 63 == 0 => compared <<= 1,
            b')' => compared >>= 1,
            b';' => compared &= !1,
            b'<' | b'>' if compared % 2 == 0 => compared |= 1,
            b'(' | b'/' | b'<' | b'>' => return true,
            _ => {}
        }
    }
    false
}
