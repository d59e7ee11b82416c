//! Where answers go.
ghost use Rattle.std.specs.Prelude.{[], ◌∷◌, ◌++◌, IfSome, OnErr, OnOk, ⊤};
ghost use Rattle.std.specs.Io.KnownBytes.{Appends, Keeps};
ghost use Rattle.host.specs.Requests.{WasRefused};
ghost use Rattle.text.specs.Shown.{shown_name};

use std::fmt;
use std::io::{self, ErrorKind, Write};
use text::printable_byte;

/// Where answers go. It may keep what is written until it is asked to send that on. `sends` and `refuses` are its own and relate it
/// before and after such a call. So a contract over any such place says that nothing was kept, or that it refused.
pub trait Output: Write {
    ghost sends: { Self → Self → Type 0 };

    ghost refuses: { Self → Self → Type 0 };

    /// Writes the text.
    fn put_text<F: fmt::Display>(&mut self, text: &F) -> io::Result<()>
        ensures text { OnOk result (IfSome (F.output text.now) (Appends (Self.contents self.old) (Self.contents self.new))) }
        ensures refused { OnErr result (refuses self.old self.new) };

    /// Writes the text and a line feed.
    fn put_line<F: fmt::Display>(&mut self, text: &F) -> io::Result<()>
        ensures line { OnOk result (IfSome (F.output text.now)
            (λ bytes. Appends (Self.contents self.old) (Self.contents self.new) (bytes ++ 10 ∷ []))) }
        ensures refused { OnErr result (refuses self.old self.new) };

    /// Writes the bytes.
    fn put_bytes(&mut self, bytes: &[u8]) -> io::Result<()>
        ensures bytes { OnOk result (Appends (Self.contents self.old) (Self.contents self.new) bytes.now) }
        ensures refused { OnErr result (refuses self.old self.new) };

    /// Sends on all that was written.
    fn send(&mut self) -> io::Result<()>
        ensures bytes { Keeps (Self.contents self.old) (Self.contents self.new) }
        ensures sent { OnOk result (sends self.old self.new) }
        ensures refused { OnErr result (refuses self.old self.new) };
}

impl<W: Write> Output for W {
    ghost sends = { λ old new. ⊤ };

    ghost refuses = { λ old new. ⊤ };

    fn put_text<F: fmt::Display>(&mut self, text: &F) -> io::Result<()> {
        write!(self, "{text}")
    }

    fn put_line<F: fmt::Display>(&mut self, text: &F) -> io::Result<()> {
        writeln!(self, "{text}")
    }

    fn put_bytes(&mut self, bytes: &[u8]) -> io::Result<()> {
        self.write_all(bytes)
    }

    fn send(&mut self) -> io::Result<()> {
        self.flush()
    }
}

/// Prints a name with `?` for each byte that isn't printable ASCII, so that it steers no terminal.
pub fn print_name<W: Output>(out: &mut W, name: &str) -> io::Result<()>
    ensures name { OnOk result (Appends (W.contents out.old) (W.contents out.new) (shown_name name.now)) }
    ensures refused { OnErr result (WasRefused W.refuses out.new) }
{
    for byte in name.as_bytes() {
        let shown = [printable_byte(*byte)];
        out.put_bytes(&shown)?;
    }
    Ok(())
}

/// A stream that takes nothing after a write that it refused. So a buffer in front of it, which writes what it holds when it is dropped, adds
/// nothing then.
#[derive(Drop)]
pub struct UntilRefused<W> {
    inner: W,
    is_refused: bool,
}

impl<W: Write> UntilRefused<W> {
    /// Returns the stream before any write.
    pub fn new(inner: W) -> UntilRefused<W> {
        UntilRefused {
            inner,
            is_refused: false,
        }
    }
}

impl<W: Write> Write for UntilRefused<W> {
    fn write(&mut self, buf: &[u8]) -> io::Result<usize> {
        if self.is_refused {
            return Err(io::Error::from(ErrorKind::BrokenPipe));
        }
        match self.inner.write(buf) {
            Ok(count) => Ok(count),
            Err(e) => {
                self.is_refused = e.kind() != ErrorKind::Interrupted;
                Err(e)
            }
        }
    }

    fn flush(&mut self) -> io::Result<()> {
        self.inner.flush()
    }
}
