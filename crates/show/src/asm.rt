//! Where functions and globals are in an image.

use crate::assembler::Label;
use crate::listing::order_words;
use crate::program::View;
use mblock::Order;
use mips_isa::{CODE_BASE, DATA_BASE};
use std::alloc::AllocError;

/// Returns the address after so many words.
fn address_after(address: u32, words: usize) -> u32 {
    let words = u32::try_from(words).unwrap_or(u32::MAX);
    address.wrapping_add(words.wrapping_mul(4))
}

impl<'a> View<'a> {
    /// Returns the labels of the program's functions and globals, in the order of their addresses.
    pub(crate) fn labels(&self, orders: &[Order]) -> Result<Vec<Label<'a>>, AllocError> {
        let mut labels = Vec::new(self.alloc);
        let mut address = CODE_BASE;
        for (number, range) in self.ranges.iter().enumerate() {
            if number > 0 {
                let name = self.names.function(number - 1);
                labels.push(Label { address, name })?;
            }
            for order in range.of(orders) {
                address = address_after(address, order_words(order));
            }
        }
        address = DATA_BASE;
        for (k, global) in self.shown.rtl.globals().iter().enumerate() {
            let name = self.names.global(k);
            labels.push(Label { address, name })?;
            address = address_after(address, global.width.words_of(global.length) as usize);
        }
        Ok(labels)
    }
}
