//! The listing of an image, with the functions and the blocks of its code, and the globals of its data.

use crate::names::Names;
use crate::program::View;
use mblock::{Exit, Order};
use std::str::Lines;
use text::Writer;

/// Returns how many words of code an order has.
pub fn order_words(order: &Order) -> usize {
    // those of the exit, with its slot
    let last = match order.exit() {
        Exit::Goto(_) | Exit::Return | Exit::Halt => 2,
        _ => 4,
    };
    order.insts().len().saturating_add(last)
}

/// Writes the lines of so many words, shown or left out.
fn put_words(out: &mut Writer, lines: &mut Lines<'_>, words: usize, is_shown: bool) {
    for _ in 0..words {
        if let Some(line) = lines.next()
            && is_shown
        {
            out.put(&format_args!("    {line}\n"));
        }
    }
}

impl<'a> View<'a> {
    fn list_function(
        &self,
        out: &mut Writer,
        lines: &mut Lines<'_>,
        number: usize,
        orders: &[Order],
    ) {
        let range = self.range(number);
        let is_shown = !matches!(self.wanted.only, Some(only) if only != number);
        if is_shown {
            put_title(out, &self.names, number);
        }
        for (k, order) in range.of(orders).iter().enumerate() {
            let k = range.from.saturating_add(k);
            let is_shown = is_shown && self.wanted.has_block(k);
            if is_shown {
                put_heading(out, k, self.callee(order.exit()), "\n");
            }
            put_words(out, lines, order_words(order), is_shown);
        }
    }

    /// Writes the listing of an image, function by function, and the lines of data, under the global's name.
    pub(crate) fn put_listing(&self, out: &mut Writer, orders: &[Order], listing: &str) {
        let mut lines = listing.lines();
        for number in 0..self.ranges.len() {
            self.list_function(out, &mut lines, number, orders);
        }
        if self.wanted.only.is_some() {
            return;
        }
        for (k, global) in self.shown.rtl.globals().iter().enumerate() {
            out.put(&format_args!("data {}\n", self.names.global(k)));
            let words = global.width.words_of(global.length) as usize;
            put_words(out, &mut lines, words, true);
        }
        // each byte after the last whole word has a line; the report of a build isn't shown
        for line in lines {
            if !line.starts_with("report") {
                out.put(&format_args!("    {line}\n"));
            }
        }
    }
}

/// Writes the line over a function, by its number among the ranges: 0 is the code that calls main.
pub(crate) fn put_title(out: &mut Writer, names: &Names<'_>, number: usize) {
    if number == 0 {
        out.text("start\n");
    } else {
        out.put(&format_args!("function {}\n", names.function(number - 1)));
    }
}

/// Writes the line over a block: its number, the function that it calls, and an end.
pub(crate) fn put_heading(out: &mut Writer, number: usize, called: Option<&str>, end: &str) {
    out.put(&format_args!("  block {number}"));
    if let Some(name) = called {
        out.put(&format_args!(" (calls {name})"));
    }
    out.text(end);
}
