//! The labels of terms: numbered leaves, and pairs.
ghost use Rattle.term_labels.specs.Kinds.{coding_of};
ghost use Rattle.bench_table.specs.Labels.{label_kinds};
ghost use Rattle.bench_table.specs.Back.{label_back};

use term_labels::{Label, parts_of, word_of};

/// A leaf with its number, or a pair of two terms.
#[derive(Clone, Copy)]
pub enum Shape {
    Leaf(u32),
    Pair,
}

impl Label for Shape {
    ghost coding = { coding_of label_kinds };

    fn word(self) -> u64 {
        match self {
            Shape::Leaf(n) => word_of(1, u64::from(n)),
            Shape::Pair => word_of(2, 0),
        }
    }

    fn of_word(word: u64) -> Option<Shape> {
        let (kind, content) = parts_of(word);
        match kind {
            1 if content < 4_294_967_296 => Some(Shape::Leaf(content as u32)),
            2 if content == 0 => Some(Shape::Pair),
            _ => None,
        }
    }

    ghost back = { label_back };
}
