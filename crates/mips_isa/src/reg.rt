//! Registers and amounts of shifts, by their numbers.
ghost use Rattle.std.specs.Prelude.{◌≡◌, ℕ, ◌%◌, ◌<◌, ◌^◌};
ghost use Rattle.std.specs.Option.{SomeIff};

use std::marker::Model;

/// One of the 32 registers, by its number.
#[derive(Clone, Copy, PartialEq, Eq)]
pub struct Reg {
    index: u8,
}

impl Model for Reg {
    ghost Value = { ℕ };

    ghost view = { λ r. r.index };

    ghost invariant = { λ r. r.index < 32 };

    ghost inverse = { λ n. record { index = n } };
}

impl Reg {
    /// The register that reads as 0.
    pub const ZERO: Reg = Reg { index: 0 };

    /// Register 2: the number of a system call, and a function's result.
    pub const RESULT: Reg = Reg { index: 2 };

    /// Register 4: a function's first argument, and what a system call prints.
    pub const ARGUMENT: Reg = Reg { index: 4 };

    /// Register 31: where a call puts its link.
    pub const LINK: Reg = Reg { index: 31 };

    /// Returns the register of the low five bits.
    pub fn masked(index: u8) -> Reg
        ensures { result ≡ index % 32 }
    {
        Reg { index: index % 32 }
    }

    /// Returns the register with this number, if it is below 32.
    pub fn new(index: u8) -> Option<Reg>
        ensures { SomeIff result (index < 32) index }
    {
        if index < 32 {
            Some(Reg { index })
        } else {
            None
        }
    }

    /// Returns the register's number, 0 to 31.
    pub fn index(self) -> u8
        ensures value { result ≡ self }
        ensures range { self < 32 }
    {
        self.index
    }
}

/// How far a shift by a constant goes, 0 to 31 bits.
#[derive(Clone, Copy, PartialEq, Eq)]
pub struct Amount {
    bits: u8,
}

impl Model for Amount {
    ghost Value = { ℕ };

    ghost view = { λ a. a.bits };

    ghost invariant = { λ a. a.bits < 32 };

    ghost inverse = { λ n. record { bits = n } };
}

impl Amount {
    /// Returns a shift by the low five bits of a number.
    pub fn masked(bits: u8) -> Amount
        ensures { result ≡ bits % 32 }
    {
        Amount { bits: bits % 32 }
    }

    /// Returns a shift by so many bits, if there are fewer than 32.
    pub fn new(bits: u8) -> Option<Amount>
        ensures { SomeIff result (bits < 32) bits }
    {
        if bits < 32 {
            Some(Amount { bits })
        } else {
            None
        }
    }

    /// Returns how many bits, 0 to 31.
    pub fn bits(self) -> u8
        ensures value { result ≡ self }
        ensures range { self < 32 }
    {
        self.bits
    }
}

/// A register that can be written, 1 to 31: register 0 loses what is written to it.
#[derive(Clone, Copy, Debug, PartialEq, Eq)]
pub struct NonzeroReg {
    number: u8,
}

impl Model for NonzeroReg {
    ghost use Rattle.std.specs.Prelude.{◌<◌, ℕ};

    ghost Value = { ℕ };

    ghost view = { λ r. r.number };

    ghost invariant = { λ r. (0 < r.number) × (r.number < 32) };

    ghost inverse = { λ n. record { number = n } };
}

impl NonzeroReg {
    /// Returns the register with this number, if it is 1 to 31.
    pub fn new(index: u8) -> Option<NonzeroReg>
        ensures { SomeIff result ((0 < index) × (index < 32)) index }
    {
        if 0 < index && index < 32 {
            Some(NonzeroReg { number: index })
        } else {
            None
        }
    }

    /// Returns the register's number, 1 to 31.
    pub fn index(self) -> u8
        ensures value { result ≡ self }
        ensures nonzero { 0 < self }
        ensures range { self < 32 }
    {
        self.number
    }

    /// Returns the same register among all 32.
    pub fn reg(self) -> Reg
        ensures value { result ≡ self }
        ensures nonzero { 0 < self }
        ensures range { self < 32 }
    {
        Reg { index: self.number }
    }
}

/// The target field of `j` and `jal`: a number of words, below 2^26.
#[derive(Clone, Copy)]
pub struct JumpTarget {
    words: u32,
}

impl Model for JumpTarget {
    ghost use Rattle.std.specs.Prelude.{◌<◌, ◌^◌, ℕ};

    ghost Value = { ℕ };

    ghost view = { λ t. t.words };

    ghost invariant = { λ t. t.words < 2 ^ 26 };

    ghost inverse = { λ n. record { words = n } };
}

impl JumpTarget {
    /// Returns the low 26 bits of a word.
    pub fn masked(word: u32) -> JumpTarget
        ensures { result ≡ word % 2 ^ 26 }
    {
        JumpTarget {
            words: word % 0x0400_0000,
        }
    }

    /// Returns a target, if it is below 2^26 words.
    pub fn new(words: u32) -> Option<JumpTarget>
        ensures { SomeIff result (words < 2 ^ 26) words }
    {
        if words < 0x0400_0000 {
            Some(JumpTarget { words })
        } else {
            None
        }
    }

    /// Returns the number of words, below 2^26.
    pub fn words(self) -> u32
        ensures value { result ≡ self }
        ensures range { self < 2 ^ 26 }
    {
        self.words
    }
}
