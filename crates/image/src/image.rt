//! Images, and the counts of a build's report.
ghost use Rattle.std.specs.Prelude.{Some};
ghost use Rattle.image.specs.Texts.{counts_text};
ghost use Rattle.image.specs.Views.{counts_of};

use std::fmt;
use std::marker::Model;

/// How many blocks of a build had which verdict.
#[derive(Clone, Copy, Debug, PartialEq, Eq)]
pub struct Counts {
    pub same: u32,
    pub unclean: u32,
    pub differs: u32,
    pub full: u32,
    pub no_memory: u32,
    pub missed: u32,
}

/// The counts of no block.
pub const NO_COUNTS: Counts = Counts {
    same: 0,
    unclean: 0,
    differs: 0,
    full: 0,
    no_memory: 0,
    missed: 0,
};

/// Each count after the name of its verdict.
impl fmt::Display for Counts {
    ghost output = { λ c. Some (counts_text (counts_of c)) };

    fn fmt<W: fmt::Write>(&self, f: &mut fmt::Formatter<W>) -> fmt::Result {
        let (same, unclean, differs) = (self.same, self.unclean, self.differs);
        let (full, no_memory, missed) = (self.full, self.no_memory, self.missed);
        write!(
            f,
            "same {same} unclean {unclean} differs {differs} full {full} nomemory {no_memory} missed {missed}"
        )
    }
}

/// A program as the machine runs it: version 1 where there are no counts, else version 2.
#[derive(Debug, Drop)]
pub struct Image {
    counts: Option<Counts>,
    entry: u32,
    code: Vec<u32>,
    bytes: Vec<u8>,
}

impl Model for Image {
    ghost use Rattle.image.specs.Images.{ImageParts, IsImage};
    ghost use Rattle.image.specs.Views.{version_of};

    ghost Value = { ImageParts };

    ghost view = { λ i. record { version = version_of i.counts; entry = i.entry; code = i.code.items; bytes = i.bytes.items } };

    ghost invariant = { λ i.
        IsImage (record { version = version_of i.counts; entry = i.entry; code = i.code.items; bytes = i.bytes.items }) };
}

impl Image {
    ghost use Rattle.std.specs.Prelude.{◌≡◌};
    ghost use Rattle.image.specs.Images.{IsImage};
    ghost use Rattle.image.specs.Views.{version_of};

    /// Returns the image of these parts.
    pub fn of(counts: Option<Counts>, entry: u32, code: Vec<u32>, bytes: Vec<u8>) -> Image
        requires { IsImage (record { version = version_of counts; entry = entry; code = code.items; bytes = bytes.items }) }
        ensures { result ≡ record { version = version_of counts; entry = entry; code = code.items; bytes = bytes.items } }
    {
        Image {
            counts,
            entry,
            code,
            bytes,
        }
    }

    /// Returns the counts, of version 2.
    pub fn counts(&self) -> Option<Counts>
        ensures value { version_of result ≡ self.now.version }
    {
        self.counts
    }

    /// Returns the address of the word that runs first.
    pub fn entry(&self) -> u32
        ensures value { result ≡ self.now.entry }
        ensures fits { IsImage self.now }
    {
        self.entry
    }

    /// Returns the code words, the first one at `CODE_BASE`.
    pub fn code(&self) -> &[u32]
        ensures value { result.now ≡ self.now.code }
        ensures fits { IsImage self.now }
    {
        self.code.as_slice()
    }

    /// Returns the data bytes, the first one at `DATA_BASE`.
    pub fn bytes(&self) -> &[u8]
        ensures value { result.now ≡ self.now.bytes }
        ensures fits { IsImage self.now }
    {
        self.bytes.as_slice()
    }
}
