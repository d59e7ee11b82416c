//! The two widths that memory is reached by: words and bytes.
ghost use Rattle.std.specs.Prelude.{◌≡◌};
ghost use Rattle.words.specs.Widths.{kept, words_of_elements};

/// How much of memory a load or a store reaches, and what the elements of an array are.
#[derive(Clone, Copy, Debug, PartialEq, Eq)]
pub enum Width {
    /// A whole word: four bytes.
    Word,
    /// One byte: the low eight bits of a word.
    Byte,
}

impl Width {
    /// Returns what an element of this width keeps of a word.
    #[inline]
    pub fn kept(self, w: u32) -> u32
        ensures { result ≡ kept self w }
    {
        match self {
            Width::Word => w,
            Width::Byte => w % 256,
        }
    }

    /// Returns the words that so many elements take: four bytes are one, and so are those that are left.
    pub fn words_of(self, length: u32) -> u32
        ensures { result ≡ words_of_elements self length }
    {
        match self {
            Width::Word => length,
            Width::Byte if length % 4 == 0 => length / 4,
            Width::Byte => length / 4 + 1,
        }
    }
}
