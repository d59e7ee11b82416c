//! Labels of terms, and the trees that carry them: for tables of anyone's terms.
//!
//! Definitions: `specs/Trees.antt`, `specs/Codings.antt`, `specs/Kinds.antt`.
//! Contract: `Label`, `word_of`, `parts_of`
//! - A type of labels gives each label a word, and reads the label back from it, so no two labels share one. Each has an arity, the number
//!   of its children, which is three at most.
#![tactic(auto)]

mod parts;

pub use parts::{parts_of, word_of};

/// A type of labels. Each label has a word of 64 bits, which no other has, and an arity, the number of its children.
pub trait Label: Copy {
    ghost use Rattle.std.specs.Prelude.{◌≡◌, true};
    ghost use Rattle.term_labels.specs.Codings.{Coding, IsCoding};

    ghost coding: { Coding Self };

    /// Returns the word of the label.
    fn word(self) -> u64
        ensures value { result ≡ coding.word self }
        ensures range { coding.is_label self ≡ true };

    /// Returns the label that has this word. The table asks it of the words of labels alone.
    fn of_word(word: u64) -> Option<Self>
        ensures { result ≡ coding.label_with word };

    ghost back: { IsCoding coding };
}
