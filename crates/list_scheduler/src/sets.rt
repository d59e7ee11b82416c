//! Sets of a block's instructions, by number, in one memory.
use std::alloc::{AllocError, Global};

/// So many sets of the numbers below some number: a bit for each.
#[derive(Drop)]
pub struct Sets {
    words: Vec<u64>,
    // How many words a set has.
    width: usize,
}

impl Sets {
    /// Returns so many empty sets.
    pub fn new(alloc: Global, sets: usize, numbers: usize) -> Result<Sets, AllocError> {
        let width = numbers.div_ceil(64);
        let mut words = Vec::new(alloc);
        words.resize(sets.saturating_mul(width), 0)?;
        Ok(Sets { words, width })
    }

    /// Returns how many words a set has.
    pub fn width(&self) -> usize {
        self.width
    }

    /// Returns a word of a set: its bits are 64 numbers. A word that isn't there has none.
    pub fn word(&self, set: usize, w: usize) -> u64 {
        let at = set.wrapping_mul(self.width).wrapping_add(w);
        self.words.get(at).copied().unwrap_or(0)
    }

    fn word_mut(&mut self, set: usize, w: usize) -> Option<&mut u64> {
        let at = set.wrapping_mul(self.width).wrapping_add(w);
        self.words.get_mut(at)
    }

    /// Reports whether a number is in a set.
    pub fn contains(&self, set: usize, number: usize) -> bool {
        self.word(set, number / 64) & (1 << (number % 64)) != 0
    }

    /// Puts a number into a set.
    pub fn insert(&mut self, set: usize, number: usize) {
        if let Some(word) = self.word_mut(set, number / 64) {
            *word |= 1 << (number % 64);
        }
    }

    /// Puts all numbers of another set into a set.
    pub fn insert_all(&mut self, set: usize, other: usize) {
        for w in 0..self.width {
            let more = self.word(other, w);
            if let Some(word) = self.word_mut(set, w) {
                *word |= more;
            }
        }
    }

    /// Takes all numbers out of a set.
    pub fn clear(&mut self, set: usize) {
        for w in 0..self.width {
            if let Some(word) = self.word_mut(set, w) {
                *word = 0;
            }
        }
    }
}

/// Returns the greatest number of a word of a set, if it has one.
pub fn greatest(w: usize, word: u64) -> Option<u32> {
    let bit = 63u32.checked_sub(word.leading_zeros())?;
    u32::try_from(w).ok()?.checked_mul(64)?.checked_add(bit)
}
