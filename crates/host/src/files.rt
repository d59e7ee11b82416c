//! The files that the program may reach.
ghost use Rattle.std.specs.Prelude.{◌≡◌, ◌≢◌, IfErr, MatchResult};
ghost use Rattle.host.specs.Requests.{Request, reading_fault, writing_fault};
ghost use Rattle.host.specs.declared.files.FileFault.{FileFault};
ghost use Rattle.host.specs.Requests.Request.{NotRead, NotWritten, Read, Written};
ghost use Rattle.host.specs.declared.fault.HostFault.TheVariants.{CannotRead, CannotWrite};

use crate::fault::HostFault;
use std::alloc::Global;

/// Why a file could not be read or written.
#[derive(Clone, Copy, Debug, PartialEq, Eq)]
pub enum FileFault {
    /// The system refused.
    Failed,
    /// Memory was refused.
    NoMemory,
}

/// The files that the program may reach. What a request does to them is their own: `answers` relates the files before a request and after
/// it. So a contract over any such files says all that was asked of them, in order.
pub trait Files {
    ghost answers: { Self → Request → Self → Type 0 };

    /// Returns the bytes of the file of this name.
    fn read(&mut self, alloc: Global, name: &str) -> Result<Vec<u8>, FileFault>
        ensures { MatchResult result (λ bytes. answers self.old (Read name.now bytes.items) self.new)
            (λ fault. answers self.old (NotRead name.now fault) self.new) };

    /// Makes these bytes the file of this name; after a fault nothing is said of the file.
    fn write(&mut self, name: &str, bytes: &[u8]) -> Result<(), FileFault>
        ensures { MatchResult result (λ _. answers self.old (Written name.now bytes.now) self.new)
            (λ fault. answers self.old (NotWritten name.now bytes.now fault) self.new) };
}

/// Returns the bytes of a file; an Err tells why they could not be had (`reading_fault`).
pub fn read_file<F: Files>(alloc: Global, name: &str, files: &mut F) -> Result<Vec<u8>, HostFault>
    ensures asked { MatchResult result (λ bytes. F.answers files.old (Read name.now bytes.items) files.new)
        (λ e. (fault : FileFault) × (e ≡ reading_fault fault) × F.answers files.old (NotRead name.now fault) files.new) }
    ensures fault { IfErr result (λ e. e ≢ CannotWrite) }
{
    match files.read(alloc, name) {
        Ok(bytes) => Ok(bytes),
        Err(FileFault::Failed) => Err(HostFault::CannotRead),
        Err(FileFault::NoMemory) => Err(HostFault::NoMemory),
    }
}

/// Makes these bytes the file of this name; an Err tells why it could not (`writing_fault`).
pub fn write_file<F: Files>(name: &str, bytes: &[u8], files: &mut F) -> Result<(), HostFault>
    ensures asked { MatchResult result (λ _. F.answers files.old (Written name.now bytes.now) files.new)
        (λ e. (fault : FileFault) × (e ≡ writing_fault fault) × F.answers files.old (NotWritten name.now bytes.now fault) files.new) }
    ensures fault { IfErr result (λ e. e ≢ CannotRead) }
{
    match files.write(name, bytes) {
        Ok(()) => Ok(()),
        Err(FileFault::Failed) => Err(HostFault::CannotWrite),
        Err(FileFault::NoMemory) => Err(HostFault::NoMemory),
    }
}
