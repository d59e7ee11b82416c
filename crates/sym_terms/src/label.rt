//! Labels, and the 64-bit word of each.
ghost use Rattle.std.specs.Prelude.{◌≡◌, ◌⊎◌, ◌<◌, IfSome, Some, true};
ghost use Rattle.sym_terms.specs.declared.label.Label.{Label};
ghost use Rattle.sym_terms.specs.Labels.{operator_code, operator_at, origin_code, origin_at, width_code, width_at, label_word, label_with};
ghost use Rattle.sym_terms.specs.Labels.{is_label, is_origin};

use mips_isa::NonzeroReg;
use words::{Operator, Width};

/// Where a value comes from that is there at the start of a block: a register 1 to 31, HI, LO, or a call's link.
#[derive(Clone, Copy, Debug, PartialEq, Eq)]
pub enum Origin {
    Register(NonzeroReg),
    Hi,
    Lo,
    Link,
}

/// The root of a term.
#[derive(Clone, Copy, Debug, PartialEq, Eq)]
pub enum Label {
    /// What is there at the start. No children.
    Init(Origin),
    /// The memory at the start. No children.
    Mem0,
    /// The word itself. No children.
    Const(u32),
    /// The operator, applied to two children.
    Op(Operator),
    /// The word or the byte that a memory holds at an address: two children, memory and address.
    Load(Width),
    /// A memory with one word or byte replaced: three children, memory, address and what is stored.
    Store(Width),
}

fn operator_number(operator: Operator) -> u32
    ensures { result ≡ operator_code operator }
{
    match operator {
        Operator::Addu => 0,
        Operator::Subu => 1,
        Operator::And => 2,
        Operator::Or => 3,
        Operator::Xor => 4,
        Operator::Nor => 5,
        Operator::Slt => 6,
        Operator::Sltu => 7,
        Operator::Sll => 8,
        Operator::Srl => 9,
        Operator::Sra => 10,
        Operator::MultHigh => 11,
        Operator::MultLow => 12,
        Operator::MultuHigh => 13,
        Operator::MultuLow => 14,
        Operator::DivQuotient => 15,
        Operator::DivRemainder => 16,
        Operator::DivuQuotient => 17,
        Operator::DivuRemainder => 18,
    }
}

fn operator_of(number: u32) -> Option<Operator>
    ensures { result ≡ operator_at number }
{
    match number {
        0 => Some(Operator::Addu),
        1 => Some(Operator::Subu),
        2 => Some(Operator::And),
        3 => Some(Operator::Or),
        4 => Some(Operator::Xor),
        5 => Some(Operator::Nor),
        6 => Some(Operator::Slt),
        7 => Some(Operator::Sltu),
        8 => Some(Operator::Sll),
        9 => Some(Operator::Srl),
        10 => Some(Operator::Sra),
        11 => Some(Operator::MultHigh),
        12 => Some(Operator::MultLow),
        13 => Some(Operator::MultuHigh),
        14 => Some(Operator::MultuLow),
        15 => Some(Operator::DivQuotient),
        16 => Some(Operator::DivRemainder),
        17 => Some(Operator::DivuQuotient),
        18 => Some(Operator::DivuRemainder),
        _ => None,
    }
}

fn width_number(width: Width) -> u32
    ensures { result ≡ width_code width }
{
    match width {
        Width::Word => 0,
        Width::Byte => 1,
    }
}

fn width_of(number: u32) -> Option<Width>
    ensures { result ≡ width_at number }
{
    match number {
        0 => Some(Width::Word),
        1 => Some(Width::Byte),
        _ => None,
    }
}

impl Origin {
    fn number(self) -> u32
        ensures value { result ≡ origin_code self }
        ensures range { is_origin self ≡ true }
    {
        match self {
            Origin::Register(r) => u32::from(r.index()),
            Origin::Hi => 32,
            Origin::Lo => 33,
            Origin::Link => 34,
        }
    }

    fn at(number: u32) -> Option<Origin>
        ensures { result ≡ origin_at number }
    {
        match number {
            32 => Some(Origin::Hi),
            33 => Some(Origin::Lo),
            34 => Some(Origin::Link),
            _ => register_at(number),
        }
    }
}

fn register_at(number: u32) -> Option<Origin>
    requires { (number < 32) ⊎ (34 < number) }
    ensures { result ≡ origin_at number }
{
    if number >= 32 {
        return None;
    }
    let r = NonzeroReg::new(number as u8)?;
    Some(Origin::Register(r))
}

/// Returns the word of a label: its kind in the upper 32 bits, its content in the lower.
pub fn word_of(label: Label) -> u64
    ensures value { result ≡ label_word label }
    ensures range { is_label label ≡ true }
{
    match label {
        Label::Init(origin) => 4294967296 + u64::from(origin.number()),
        Label::Mem0 => 2 * 4294967296,
        Label::Const(n) => 3 * 4294967296 + u64::from(n),
        Label::Op(operator) => 4 * 4294967296 + u64::from(operator_number(operator)),
        Label::Load(width) => 5 * 4294967296 + u64::from(width_number(width)),
        Label::Store(width) => 6 * 4294967296 + u64::from(width_number(width)),
    }
}

/// Returns the label that has this word, and None if no label has it.
pub fn label_of(word: u64) -> Option<Label>
    ensures value { result ≡ label_with word }
    ensures found { IfSome result (λ l. (is_label l ≡ true) × (label_word l ≡ word)) }
    ensures only { (l : Label) → is_label l ≡ true → label_word l ≡ word → result ≡ Some l }
{
    let content = (word % 4294967296) as u32;
    match word / 4294967296 {
        1 => {
            let origin = Origin::at(content)?;
            Some(Label::Init(origin))
        }
        2 => if content == 0 {
            Some(Label::Mem0)
        } else {
            None
        },
        3 => Some(Label::Const(content)),
        4 => {
            let operator = operator_of(content)?;
            Some(Label::Op(operator))
        }
        5 => {
            let width = width_of(content)?;
            Some(Label::Load(width))
        }
        6 => {
            let width = width_of(content)?;
            Some(Label::Store(width))
        }
        _ => None,
    }
}

impl term_labels::Label for Label {
    ghost use Rattle.sym_terms.specs.Labels.{label_coding};
    ghost use Rattle.sym_terms.specs.Back.{label_with-back};

    ghost coding = { label_coding };

    fn word(self) -> u64 {
        word_of(self)
    }

    fn of_word(word: u64) -> Option<Label> {
        label_of(word)
    }

    ghost back = { label_with-back };
}
