//! Where faults are told, and how a text is given to the host.

ghost use Rattle.std.specs.Prelude.{◌≡◌, ◌≢◌, [], false, true};
ghost use Rattle.mcc_web.specs.Answers.{Gives};
ghost use Rattle.mcc_web.specs.Telling.{Tells};
ghost use Rattle.mcc_web.specs.declared.told.TheConstants.{REFUSED};

use host::Complaints;
use std::alloc::Global;
use std::fmt;
use std::io::Write;

/// The status where memory was refused to an answer's text; there is no text then.
pub const REFUSED: u8 = 5;

/// Gives the text to the host: at the front of `out`, where it fits.
pub(crate) fn put(out: &mut [u8], text: &[u8]) -> usize
    ensures { Gives text.now result out.old out.new }
{
    if text.len() <= out.len() {
        out[..text.len()].copy_from_slice(text);
    }
    text.len()
}

/// Refuses memory to the text of an answer.
pub(crate) fn refuse(status: &mut u8) -> usize
    ensures status { status.new ≡ REFUSED }
    ensures said { result ≡ 0 }
{
    *status = REFUSED;
    0
}

/// All that was told; not whole where memory was refused to a part of it.
#[derive(Drop)]
pub(crate) struct Told {
    pub lines: Vec<u8>,
    pub is_whole: bool,
}

impl Told {
    pub(crate) fn new(alloc: Global) -> Told
        ensures lines { result.lines.items ≡ [] }
        ensures whole { result.is_whole ≡ true }
    {
        Told {
            lines: Vec::new(alloc),
            is_whole: true,
        }
    }

    /// Gives all of it to the host.
    pub(crate) fn give(&self, out: &mut [u8], status: &mut u8) -> usize
        ensures given { status.new ≢ REFUSED → (self.now.is_whole ≡ true) × (status.new ≡ status.old)
            × Gives self.now.lines.items result out.old out.new }
        ensures refused { self.now.is_whole ≡ false → (status.new ≡ REFUSED) × (result ≡ 0) × (out.new ≡ out.old) }
        ensures kept { self.now.is_whole ≡ true → status.new ≡ status.old }
    {
        if self.is_whole {
            put(out, self.lines.as_slice())
        } else {
            refuse(status)
        }
    }
}

impl Complaints for Told {
    ghost tells = { Tells };

    fn line<F: fmt::Display>(&mut self, text: &F) {
        if writeln!(self.lines, "{text}").is_err() {
            self.is_whole = false;
        }
    }

    fn text<F: fmt::Display>(&mut self, text: &F) {
        if write!(self.lines, "{text}").is_err() {
            self.is_whole = false;
        }
    }

    fn bytes(&mut self, bytes: &[u8]) {
        if self.lines.extend_from_slice(bytes).is_err() {
            self.is_whole = false;
        }
    }
}
