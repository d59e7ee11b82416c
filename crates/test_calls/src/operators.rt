//! The operators of the machine at their edges (Kane, MIPS RISC Architecture, appendix A).

use words::Operator;

/// Pairs of words, and the values of operators at each of them.
type Values = (
    &'static [(u32, u32)],
    &'static [(Operator, &'static [Option<u32>])],
);

#[rattlefmt::skip]
const VALUES: &[Values] = &[
    (&[(0xffffffff, 0x1), (0x80000000, 0x21), (0x7fffffff, 0xffffffff)], &[
        (Operator::Addu, &[Some(0x0), Some(0x80000021), Some(0x7ffffffe)]),
        (Operator::Subu, &[Some(0xfffffffe), Some(0x7fffffdf), Some(0x80000000)]),
        (Operator::And, &[Some(0x1), Some(0x0), Some(0x7fffffff)]),
        (Operator::Or, &[Some(0xffffffff), Some(0x80000021), Some(0xffffffff)]),
        (Operator::Xor, &[Some(0xfffffffe), Some(0x80000021), Some(0x80000000)]),
        (Operator::Nor, &[Some(0x0), Some(0x7fffffde), Some(0x0)]),
        (Operator::Slt, &[Some(0x1), Some(0x1), Some(0x0)]),
        (Operator::Sltu, &[Some(0x0), Some(0x0), Some(0x1)]),
        (Operator::Sll, &[Some(0xfffffffe), Some(0x0), Some(0x80000000)]),
        (Operator::Srl, &[Some(0x7fffffff), Some(0x40000000), Some(0x0)]),
        (Operator::Sra, &[Some(0xffffffff), Some(0xc0000000), Some(0x0)]),
        (Operator::MultHigh, &[Some(0xffffffff), Some(0xffffffef), Some(0xffffffff)]),
        (Operator::MultLow, &[Some(0xffffffff), Some(0x80000000), Some(0x80000001)]),
        (Operator::MultuHigh, &[Some(0x0), Some(0x10), Some(0x7ffffffe)]),
        (Operator::MultuLow, &[Some(0xffffffff), Some(0x80000000), Some(0x80000001)]),
    ]),
    (&[(0xfffffff9, 0x2), (0x7, 0xfffffffe), (0x80000000, 0xffffffff), (0x5, 0x0)], &[
        (Operator::DivQuotient, &[Some(0xfffffffd), Some(0xfffffffd), None, None]),
        (Operator::DivRemainder, &[Some(0xffffffff), Some(0x1), None, None]),
        (Operator::DivuQuotient, &[Some(0x7ffffffc), Some(0x0), Some(0x0), None]),
        (Operator::DivuRemainder, &[Some(0x1), Some(0x7), Some(0x80000000), None]),
    ]),
];

#[test]
fn operators_have_their_values(rt: HostRuntime) {
    for &(words, rows) in VALUES {
        for &(op, values) in rows {
            for (&(a, b), &want) in words.iter().zip(values) {
                assert!(rt; op.value(a, b) == want, "at {op:?} {a} {b}");
            }
        }
    }
}
