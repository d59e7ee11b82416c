//! A file in memory.

ghost use Rattle.test_calls.specs.Files.{Answers};

use driver::{FileFault, Files};
use std::alloc::Global;

/// Files of one row of bytes, whatever their names; what is written to them stands in `written`, write after write.
#[derive(Drop)]
pub struct OneFile<'a> {
    pub bytes: &'a [u8],
    pub written: Vec<u8>,
}

impl<'a> OneFile<'a> {
    /// Returns the file of these bytes, before anything is written.
    pub fn of(alloc: Global, bytes: &'a [u8]) -> OneFile<'a> {
        let written = Vec::new(alloc);
        OneFile { bytes, written }
    }
}

impl<'a> Files for OneFile<'a> {
    ghost answers = { Answers };

    fn read(&mut self, alloc: Global, _name: &str) -> Result<Vec<u8>, FileFault> {
        Vec::from_slice(alloc, self.bytes).map_err(|_e| FileFault::NoMemory)
    }

    fn write(&mut self, _name: &str, bytes: &[u8]) -> Result<(), FileFault> {
        self.written
            .extend_from_slice(bytes)
            .map_err(|_e| FileFault::NoMemory)
    }
}
