//! Bytes that steer no terminal.

ghost use Rattle.std.specs.Prelude.{◌≡◌};
ghost use Rattle.text.specs.Shown.{IsPrintable, IsShown, shown_byte, shown_in_lines};

/// Returns the byte itself if it is printable, else `?`.
pub fn printable_byte(byte: u8) -> u8
    ensures exact { result ≡ shown_byte byte }
    ensures printable { IsPrintable result }
{
    match byte {
        b' '..=b'~' => byte,
        _ => b'?',
    }
}

/// Returns the same of a byte in a text of several lines: a line feed stays.
pub(crate) fn shown_in_lines(byte: u8) -> u8
    ensures exact { result ≡ shown_in_lines byte }
    ensures shown { IsShown result }
{
    if byte == b'\n' {
        byte
    } else {
        printable_byte(byte)
    }
}
