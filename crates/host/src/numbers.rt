//! Words as a run prints them.

ghost use Rattle.std.specs.Prelude.{Some};
ghost use Rattle.host.specs.Numbers.{word_text};

use std::fmt;

/// A form in which the words of a run's output are printed.
#[derive(Clone, Copy)]
pub enum WordForm {
    /// From 0 to 4294967295.
    Unsigned,
    /// From -2147483648 to 2147483647, as an `int`.
    Signed,
    /// `0x` and hexadecimal digits, without leading zeros.
    Hex,
}

/// A word in its form.
#[derive(Clone, Copy)]
pub struct FormedWord {
    pub word: u32,
    pub form: WordForm,
}

impl fmt::Display for FormedWord {
    ghost output = { λ w. Some (word_text w.form w.word) };

    fn fmt<W: fmt::Write>(&self, f: &mut fmt::Formatter<W>) -> fmt::Result {
        let word = self.word;
        match self.form {
            WordForm::Signed if word > i32::MAX as u32 => write!(
                f,
                "-{}",
                4294967296 - word as u64
            ),
            WordForm::Unsigned | WordForm::Signed => write!(f, "{word}"),
            WordForm::Hex => write!(f, "0x{word:x}"),
        }
    }
}
