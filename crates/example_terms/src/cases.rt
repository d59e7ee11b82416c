//! Blocks and other forms of them: right ones, and wrong ones, which are not shown to be the same.
use crate::block::Place;
use crate::label::Op;
use crate::label::Op::{Add, Constant, Less, Load, Memory, Multiply, Select, Store, Variable};

/// What is tried, a block, and what stands in its place.
pub type Case = (
    &'static str,
    &'static [(Op, &'static [Place])],
    &'static [(Op, &'static [Place])],
);

/// (x + 3 * 5) * (x + 3 * 5) + the words at x and at 15, each computed where it is used. The sum is stored at x.
const SUMS: &[(Op, &[Place])] = &[
    (Variable(7), &[]),
    (Constant(3), &[]),
    (Constant(5), &[]),
    (Multiply, &[1, 2]),
    (Add, &[0, 3]),
    (Add, &[0, 3]),
    (Multiply, &[4, 5]),
    (Memory, &[]),
    (Load, &[7, 0]),
    (Load, &[7, 3]),
    (Add, &[8, 9]),
    (Add, &[6, 10]),
    (Store, &[7, 0, 11]),
];

const STORED: &[(Op, &[Place])] = &[
    (Memory, &[]),
    (Variable(1), &[]),
    (Variable(2), &[]),
    (Store, &[0, 1, 2]),
    (Load, &[3, 2]),
    (Store, &[0, 1, 2]),
];

const DOUBLED: &[(Op, &[Place])] = &[
    (Constant(2_147_483_648), &[]),
    (Add, &[0, 0]),
    (Memory, &[]),
];

const EARLY: &[(Op, &[Place])] = &[(Load, &[0, 0]), (Memory, &[])];

const MANY: &[(Op, &[Place])] = &[(Memory, &[]), (Select, &[0, 0, 0, 0])];

/// What the program prints of each is in the file stdout.
#[rattlefmt::skip]
pub const CASES: &[Case] = &[
    // with the product folded, one sum left out, and the loads first and in the other order
    ("3 * 5 as 15", SUMS, &[(Constant(15), &[]), (Variable(7), &[]), (Memory, &[]), (Load, &[2, 0]), (Load, &[2, 1]), (Add, &[1, 0]),
            (Multiply, &[5, 5]), (Add, &[4, 3]), (Add, &[6, 7]), (Store, &[2, 1, 8])]),
    ("3 * 5 as 16", SUMS, &[(Constant(16), &[]), (Variable(7), &[]), (Memory, &[]), (Load, &[2, 0]), (Load, &[2, 1]), (Add, &[1, 0]),
            (Multiply, &[5, 5]), (Add, &[4, 3]), (Add, &[6, 7]), (Store, &[2, 1, 8])]),
    ("loads in the other order",
        &[(Memory, &[]), (Variable(1), &[]), (Variable(2), &[]), (Load, &[0, 1]), (Load, &[0, 2]), (Less, &[3, 4]), (Memory, &[])],
        &[(Memory, &[]), (Variable(2), &[]), (Load, &[0, 1]), (Variable(1), &[]), (Load, &[0, 3]), (Less, &[4, 2]), (Memory, &[])]),
    ("a load behind a store, as it is", STORED, STORED),
    // the store may be to the address that is loaded
    ("a load before a store", STORED,
        &[(Memory, &[]), (Variable(1), &[]), (Variable(2), &[]), (Store, &[0, 1, 2]), (Load, &[0, 2]), (Store, &[0, 1, 2])]),
    ("sums of two variables as one",
        &[(Variable(1), &[]), (Variable(2), &[]), (Add, &[0, 0]), (Add, &[0, 1]), (Multiply, &[2, 3]), (Memory, &[])],
        &[(Variable(1), &[]), (Variable(2), &[]), (Add, &[0, 0]), (Add, &[0, 1]), (Multiply, &[2, 2]), (Memory, &[])]),
    // in 32 bits
    ("2^31 + 2^31 as 0", DOUBLED, &[(Constant(0), &[]), (Memory, &[])]),
    ("2^31 + 2^31 as 2^32 - 1", DOUBLED, &[(Constant(4_294_967_295), &[]), (Memory, &[])]),
    ("a store left out", &[(Memory, &[]), (Variable(1), &[]), (Variable(2), &[]), (Store, &[0, 1, 2])],
        &[(Variable(2), &[]), (Memory, &[])]),
    // which of the two is chosen is known only where the block runs
    ("a choice as one of its values", &[(Variable(1), &[]), (Constant(2), &[]), (Select, &[0, 1, 0]), (Memory, &[])],
        &[(Constant(2), &[]), (Memory, &[])]),
    ("an operand that is its own", EARLY, EARLY),
    ("no instructions", &[], &[]),
    ("a choice of four operands", MANY, MANY),
];
