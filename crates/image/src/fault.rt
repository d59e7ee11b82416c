//! Why bytes are those of no image.
ghost use Rattle.std.specs.Prelude.{◌≡◌, Some};
ghost use Rattle.image.specs.Texts.{image_fault_text};
ghost use Rattle.image.specs.declared.fault.ImageFault.TheVariants as faults;

use std::alloc::{AllocError, AllocFailed};
use std::error::Error;
use std::fmt;

/// Why bytes are no image: the first test that fails.
#[derive(Clone, Copy, PartialEq, Eq, Debug)]
pub enum ImageFault {
    /// 40: the bytes don't begin with `MCCI`.
    Magic,
    /// 41: another version.
    Version,
    /// 42: fewer bytes than a head, a count out of its range, or another number of bytes than the counts say.
    Length,
    /// 43: the entry is no address of a code word.
    Entry,
    /// 44: the counts add up to more than an image has blocks.
    Counts,
    /// 30: memory was refused.
    NoMemory,
}

impl fmt::Display for ImageFault {
    ghost output = { λ fault. Some (image_fault_text fault) };

    fn fmt<W: fmt::Write>(&self, f: &mut fmt::Formatter<W>) -> fmt::Result {
        match self {
            ImageFault::Magic => f.write_str("fault 40 Magic"),
            ImageFault::Version => f.write_str("fault 41 Version"),
            ImageFault::Length => f.write_str("fault 42 Length"),
            ImageFault::Entry => f.write_str("fault 43 Entry"),
            ImageFault::Counts => f.write_str("fault 44 Counts"),
            ImageFault::NoMemory => f.write_str("fault 30 NoMemory"),
        }
    }
}

impl Error for ImageFault {}

impl From<AllocError> for ImageFault {
    ghost from_gives = { λ _ e. e ≡ faults.NoMemory };

    fn from(_: AllocError) -> Self {
        ImageFault::NoMemory
    }
}

impl<T: Drop> From<AllocFailed<T>> for ImageFault {
    ghost from_gives = { λ _ e. e ≡ faults.NoMemory };

    fn from(_: AllocFailed<T>) -> Self {
        ImageFault::NoMemory
    }
}
