//! What keeps a command from its answer, and where it is told.
ghost use Rattle.std.specs.Prelude.{◌≡◌, ℕ, List, [], ◌∷◌, ◌++◌, Some, IfSome, ⊤};
ghost use Rattle.host.specs.Requests.{TellsLine};
ghost use Rattle.host.specs.Texts.{host_fault_text};

use std::error::Error;
use std::fmt;
use std::io::Write;

/// What files, streams and memory keep a command from.
#[derive(Clone, Copy, Debug, PartialEq, Eq)]
pub enum HostFault {
    CannotRead,
    CannotWrite,
    NoMemory,
}

impl fmt::Display for HostFault {
    ghost output = { λ e. Some (host_fault_text e) };

    fn fmt<W: fmt::Write>(&self, f: &mut fmt::Formatter<W>) -> fmt::Result {
        match self {
            HostFault::CannotRead => f.write_str("fault 60 CannotRead"),
            HostFault::CannotWrite => f.write_str("fault 61 CannotWrite"),
            HostFault::NoMemory => f.write_str("fault 30 NoMemory"),
        }
    }
}

impl Error for HostFault {}

/// Where faults are told. It may lose what it is told. `tells` is its own, so that a contract over any such place says all that it was
/// told, in order.
pub trait Complaints {
    ghost tells: { Self → List ℕ → Self → Type 0 };

    /// Tells the text and a line feed.
    fn line<F: fmt::Display>(&mut self, text: &F)
        ensures { IfSome (F.output text.now) (λ bytes. tells self.old (bytes ++ 10 ∷ []) self.new) };

    /// Tells the text alone.
    fn text<F: fmt::Display>(&mut self, text: &F)
        ensures { IfSome (F.output text.now) (λ bytes. tells self.old bytes self.new) };

    fn bytes(&mut self, bytes: &[u8])
        ensures { tells self.old bytes.now self.new };
}

impl<W: Write> Complaints for W {
    ghost tells = { λ old bytes new. ⊤ };

    fn line<F: fmt::Display>(&mut self, text: &F) {
        let _ = writeln!(self, "{text}");
    }

    fn text<F: fmt::Display>(&mut self, text: &F) {
        let _ = write!(self, "{text}");
    }

    fn bytes(&mut self, bytes: &[u8]) {
        let _ = self.write_all(bytes);
    }
}

/// Tells the fault's line, which standard error may lose; the status stays.
pub fn tell<E: Complaints, F: fmt::Display>(err: &mut E, fault: &F) -> u8
    ensures status { result ≡ 1 }
    ensures told { IfSome (F.output fault.now) (λ text. TellsLine E.tells err.old text err.new) }
{
    err.line(fault);
    1
}
