//! What makes a value: the operator of an instruction, and the label at the root of a term.
ghost use Rattle.std.specs.Prelude.{◌≡◌, [], ◌∷◌, IfSome};
ghost use Rattle.term_labels.specs.Kinds.{coding_of};
ghost use Rattle.example_terms.specs.Labels.{op_kinds, op_arity};
ghost use Rattle.example_terms.specs.Back.{op_back};
ghost use Rattle.example_terms.specs.Meaning.{Environment, made, just};

use term_labels::{Label, parts_of, word_of};

/// An operator. Words have 32 bits.
#[derive(Clone, Copy)]
pub enum Op {
    /// The word itself. No operands.
    Constant(u32),
    /// The word of a variable. No operands.
    Variable(u16),
    /// The sum of two words, modulo 2^32.
    Add,
    /// The product of two words, modulo 2^32.
    Multiply,
    /// 1 where the first word is less than the second, else 0.
    Less,
    /// The second value where the first's word isn't 0, else the third.
    Select,
    /// Memory as it is before the block. No operands.
    Memory,
    /// The word in a memory at an address.
    Load,
    /// A memory in which a word stands at an address: of the memory before, the address and the word.
    Store,
}

impl Op {
    /// Returns how many operands it has.
    pub fn arity(self) -> usize
        ensures { result ≡ op_arity self }
    {
        match self {
            Op::Constant(_) | Op::Variable(_) | Op::Memory => 0,
            Op::Select | Op::Store => 3,
            Op::Add | Op::Multiply | Op::Less | Op::Load => 2,
        }
    }

    /// Returns what an operator on words makes of two; None for all others.
    pub fn word(self, a: u32, b: u32) -> Option<u32>
        ensures { IfSome result (λ n. (e : Environment) → made self e (just e a ∷ just e b ∷ []) ≡ just e n) }
    {
        match self {
            Op::Add => Some(a.wrapping_add(b)),
            Op::Multiply => Some(a.wrapping_mul(b)),
            Op::Less => Some(u32::from(a < b)),
            _ => None,
        }
    }
}

impl Label for Op {
    ghost coding = { coding_of op_kinds };

    fn word(self) -> u64 {
        match self {
            Op::Constant(n) => word_of(1, u64::from(n)),
            Op::Variable(v) => word_of(2, u64::from(v)),
            Op::Add => word_of(3, 0),
            Op::Multiply => word_of(4, 0),
            Op::Less => word_of(5, 0),
            Op::Select => word_of(6, 0),
            Op::Memory => word_of(7, 0),
            Op::Load => word_of(8, 0),
            Op::Store => word_of(9, 0),
        }
    }

    fn of_word(word: u64) -> Option<Op> {
        let (kind, content) = parts_of(word);
        match kind {
            1 if content < 4_294_967_296 => Some(Op::Constant(content as u32)),
            2 if content < 65_536 => Some(Op::Variable(content as u16)),
            3 if content == 0 => Some(Op::Add),
            4 if content == 0 => Some(Op::Multiply),
            5 if content == 0 => Some(Op::Less),
            6 if content == 0 => Some(Op::Select),
            7 if content == 0 => Some(Op::Memory),
            8 if content == 0 => Some(Op::Load),
            9 if content == 0 => Some(Op::Store),
            _ => None,
        }
    }

    ghost back = { op_back };
}
