//! What memory holds at the start, by a few numbers.
ghost use Rattle.std.specs.Prelude.{◌≡◌, ◌<◌, ◌%◌, ◌/◌};
ghost use Rattle.mips_isa.specs.States.{byte_of};
ghost use Rattle.counterexample.specs.Fillings.{filled_word, filled_byte};

/// Words of memory: each is `base` and the bits of `mask` of a number that depends on the word's address. So a small mask fills memory
/// with addresses that are near to each other, and a large one with any words.
#[derive(Clone, Copy)]
pub struct Filling {
    pub base: u32,
    pub mask: u32,
    pub factor: u32,
    pub offset: u32,
}

/// Returns the byte at a place of a word, the highest first.
pub(crate) fn byte_at_place(word: u32, place: usize) -> u8
    requires { place < 4 }
    ensures { result ≡ byte_of word place }
{
    word.to_be_bytes()[place]
}

impl Filling {
    /// Returns the word with this number: that at four times the number.
    #[tactic(auto, unfolding(crate::specs::Fillings::filled_word))]
    pub fn word(&self, number: u32) -> u32
        ensures { result ≡ filled_word self.now number }
    {
        let mixed = number.wrapping_mul(self.factor).wrapping_add(self.offset);
        self.base.wrapping_add((mixed >> 8) & self.mask)
    }

    /// Returns the byte at an address.
    pub fn byte(&self, a: u32) -> u8
        ensures { result ≡ filled_byte self.now a }
    {
        byte_at_place(self.word(a / 4), (a % 4) as usize)
    }
}
