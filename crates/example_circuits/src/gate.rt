//! The labels of terms: gates.
ghost use Rattle.term_labels.specs.Kinds.{coding_of};
ghost use Rattle.example_circuits.specs.Gates.{gate_kinds};
ghost use Rattle.example_circuits.specs.Back.{gate_back};

use term_labels::{Label, parts_of, word_of};

/// A gate, or what circuits begin with: a level that stays, or an input by its number.
#[derive(Clone, Copy)]
pub enum Gate {
    Level(bool),
    Input(u32),
    Not,
    And,
    Or,
}

impl Label for Gate {
    ghost coding = { coding_of gate_kinds };

    fn word(self) -> u64 {
        match self {
            Gate::Level(level) => word_of(1, u64::from(level)),
            Gate::Input(n) => word_of(2, u64::from(n)),
            Gate::Not => word_of(3, 0),
            Gate::And => word_of(4, 0),
            Gate::Or => word_of(5, 0),
        }
    }

    fn of_word(word: u64) -> Option<Gate> {
        let (kind, content) = parts_of(word);
        match kind {
            1 if content < 2 => Some(Gate::Level(content == 1)),
            2 if content < 4_294_967_296 => Some(Gate::Input(content as u32)),
            3 if content == 0 => Some(Gate::Not),
            4 if content == 0 => Some(Gate::And),
            5 if content == 0 => Some(Gate::Or),
            _ => None,
        }
    }

    ghost back = { gate_back };
}
