//! Classes of bytes, and how far a run of one class goes.
ghost use Rattle.std.specs.Prelude.{◌≡◌, ◌+◌, ◌∷◌, [], true, false, ◌<◌, ◌≤◌, length, drop, IfNone, IfSome};
ghost use Rattle.c_tokens.specs.Lexing.{goes_on, is_word, is_exponent, is_space, is_letter, is_digit, comment_length, escape_at, is_front};
ghost use Rattle.c_tokens.specs.Fronts.{blank_length, word_length, run_length, line_length};

/// Reports whether a byte separates tokens: a space, a tab, LF or CR.
pub fn is_space(byte: u8) -> bool
    ensures { result ≡ is_space byte }
{
    matches!(byte, b' ' | b'\t' | b'\n' | b'\r')
}

/// Reports whether a byte is a letter or `_`.
pub fn is_letter(byte: u8) -> bool
    ensures { result ≡ is_letter byte }
{
    (b'A' <= byte && byte <= b'Z') || (b'a' <= byte && byte <= b'z') || byte == b'_'
}

/// Reports whether a byte is a decimal digit.
pub fn is_digit(byte: u8) -> bool
    ensures { result ≡ is_digit byte }
{
    b'0' <= byte && byte <= b'9'
}

/// Reports whether a word goes on with a byte: a letter, `_` or a digit.
pub fn is_word(byte: u8) -> bool
    ensures { result ≡ is_word byte }
{
    is_letter(byte) || is_digit(byte)
}

fn is_exponent(byte: u8) -> bool
    ensures { result ≡ is_exponent byte }
{
    byte == b'e' || byte == b'E' || byte == b'p' || byte == b'P'
}

fn goes_on(after_exponent: bool, byte: u8) -> bool
    ensures { result ≡ goes_on after_exponent byte }
{
    is_word(byte) || byte == b'.' || (after_exponent && (byte == b'+' || byte == b'-'))
}

/// Returns the first byte and what is after it; None for the empty text.
pub fn split(text: &[u8]) -> Option<(u8, &[u8])>
    ensures none { IfNone result (text.now ≡ []) }
    ensures some { IfSome result (λ r. text.now ≡ r.0 ∷ r.1.now) }
{
    if text.is_empty() {
        return None;
    }
    Some((text[0], &text[1..]))
}

/// Returns the text after its first `n` bytes.
pub fn after(text: &[u8], n: usize) -> &[u8]
    requires { n ≤ length text.now }
    ensures { result.now ≡ drop n text.now }
{
    &text[n..]
}

/// Returns where the blanks end that stand at a place.
pub fn after_blanks(text: &[u8], at: usize) -> usize
    requires { at ≤ length text.now }
    ensures same { result ≡ at + blank_length (drop at text.now) }
    ensures fits { result ≤ length text.now }
{
    let mut place = at;
    'blanks: while place < text.len() {
        let byte = text[place];
        // few texts have other control characters, so the first two tests tell most bytes
        if byte > b' ' || (byte != b' ' && !is_space(byte)) {
            return place;
        }
        place += 1;
    }
    place
}

/// Returns the length of the longest word at the front, where one stands.
pub fn word_length(text: &[u8]) -> usize
    requires { 0 < word_length text.now }
    ensures same { result ≡ word_length text.now }
    ensures fits { result ≤ length text.now }
{
    let mut n: usize = 1;
    'word: while n < text.len() {
        if !is_word(text[n]) {
            return n;
        }
        n += 1;
    }
    n
}

/// Returns the length of the run that a number begins: letters, digits, `_`, `.`, and a sign after an exponent's letter.
pub fn run_length(text: &[u8]) -> usize
    ensures same { result ≡ run_length false text.now }
    ensures fits { result ≤ length text.now }
{
    let mut n: usize = 0;
    let mut after_exponent = false;
    'run: while n < text.len() {
        let byte = text[n];
        // most bytes of numbers are digits
        if is_digit(byte) {
            after_exponent = false;
        } else if goes_on(after_exponent, byte) {
            after_exponent = is_exponent(byte);
        } else {
            return n;
        }
        n += 1;
    }
    n
}

/// Reports whether a number's run ends at a place where none of its letters is an exponent's.
pub fn run_ends(text: &[u8], at: usize) -> bool
    requires { at ≤ length text.now }
    ensures { result ≡ true → run_length false (drop at text.now) ≡ 0 }
{
    at == text.len() || !goes_on(false, text[at])
}

/// Reports whether the two bytes stand at the front.
pub fn begins(text: &[u8], first: u8, second: u8) -> bool
    ensures { result ≡ is_front (first ∷ second ∷ []) text.now }
{
    match split(text) {
        None => false,
        Some((one, rest)) => match split(rest) {
            None => false,
            Some((two, _)) => one == first && two == second,
        },
    }
}

/// Returns how far it is past the end of a comment.
pub fn comment_length(text: &[u8]) -> Option<usize>
    ensures same { result ≡ comment_length text.now }
    ensures fits { IfSome result (λ n. n ≤ length text.now) }
{
    let mut n: usize = 0;
    let mut rest = text;
    'comment: loop {
        if begins(rest, b'*', b'/') {
            return Some(n + 2);
        }
        match split(rest) {
            None => return None,
            Some((_, next)) => {
                n += 1;
                rest = next;
            }
        }
    }
}

/// Returns where the first backslash or pair of question marks stands.
pub fn escape_at(text: &[u8]) -> Option<usize>
    ensures same { result ≡ escape_at text.now }
    ensures fits { IfSome result (λ n. n < length text.now) }
{
    let mut n: usize = 0;
    let mut rest = text;
    'escape: loop {
        match split(rest) {
            None => return None,
            Some((byte, next)) => {
                if byte == b'\\' {
                    return Some(n);
                }
                if begins(rest, b'?', b'?') {
                    return Some(n);
                }
                n += 1;
                rest = next;
            }
        }
    }
}

/// Returns how far it is to the next line feed, or the end.
pub fn line_length(text: &[u8]) -> usize
    ensures same { result ≡ line_length text.now }
    ensures fits { result ≤ length text.now }
{
    let mut n: usize = 0;
    let mut rest = text;
    'line: loop {
        match split(rest) {
            None => return n,
            Some((byte, next)) => {
                if byte == b'\n' {
                    return n;
                }
                n += 1;
                rest = next;
            }
        }
    }
}
