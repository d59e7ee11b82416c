//! What symbolic execution answers: the terms of the machine's places, of an exit and of the guards, by tickets.
use mblock::BlockNumber;
use mips_isa::{PairTest, ZeroTest};
use term_table::Ticket;
use words::{Sign, Width};

/// What the code relies on, by the terms' tickets. Either an address is that of a word or a byte that is mapped, or a division has a value.
#[derive(Clone, Copy, PartialEq, Eq)]
pub enum Guard {
    Address {
        width: Width,
        address: Ticket,
    },
    Division {
        sign: Sign,
        dividend: Ticket,
        divisor: Ticket,
    },
}

/// The terms that registers, HI, LO and memory hold, by tickets. Register 0 holds the constant 0.
#[derive(Clone, Copy)]
pub struct TermPlaces {
    pub regs: [Ticket; 32],
    pub hi: Ticket,
    pub lo: Ticket,
    pub memory: Ticket,
}

/// An exit by its kind, condition and targets, with its operands' tickets in place of registers.
#[derive(Clone, Copy, PartialEq, Eq)]
pub enum TermExit {
    Goto(BlockNumber),
    BranchPair {
        test: PairTest,
        a: Ticket,
        b: Ticket,
        then: BlockNumber,
        other: BlockNumber,
    },
    BranchZero {
        test: ZeroTest,
        a: Ticket,
        then: BlockNumber,
        other: BlockNumber,
    },
    Call {
        function: BlockNumber,
        next: BlockNumber,
    },
    Return(Ticket),
    Out {
        word: Ticket,
        next: BlockNumber,
    },
    Halt(Ticket),
}

/// What a block or an order leaves, by tickets: its places, its exit and its guards.
#[derive(Drop)]
pub struct SymState {
    pub places: TermPlaces,
    pub exit: TermExit,
    pub guards: Vec<Guard>,
}
