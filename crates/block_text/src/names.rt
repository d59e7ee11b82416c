//! Names of instructions and exits.
ghost use Rattle.std.specs.Prelude.{◌≡◌, ℕ, List, IfSome, Some, bytes_eq};
ghost use Rattle.mips_isa.specs.Texts.{mnemonic_text};
ghost use Rattle.mips_isa.specs.declared.text.Mnemonic.{Mnemonic};
ghost use Rattle.std.specs.List.{find};
ghost use Rattle.block_text.specs.Spelling.{exit_name_text};
ghost use Rattle.block_text.specs.declared.names.ExitName.{ExitName};

use mips_isa::{AluOp, HiLo, ImmOp, LogicOp, Mnemonic, PairTest, ShiftOp, ZeroTest};
use words::{Sign, Width};

/// What one word names.
trait Named: Copy {
    ghost text: { Self → List ℕ };

    /// Returns the word.
    fn word(self) -> &'static str
        ensures { result.now ≡ text self };
}

impl Named for Mnemonic {
    ghost text = { λ n. mnemonic_text n };

    fn word(self) -> &'static str {
        self.name()
    }
}

/// All mnemonics.
const MNEMONICS: &[Mnemonic] = &[
    Mnemonic::Shift(ShiftOp::Sll),
    Mnemonic::Shift(ShiftOp::Srl),
    Mnemonic::Shift(ShiftOp::Sra),
    Mnemonic::ShiftBy(ShiftOp::Sll),
    Mnemonic::ShiftBy(ShiftOp::Srl),
    Mnemonic::ShiftBy(ShiftOp::Sra),
    Mnemonic::Alu(AluOp::Addu),
    Mnemonic::Alu(AluOp::Subu),
    Mnemonic::Alu(AluOp::And),
    Mnemonic::Alu(AluOp::Or),
    Mnemonic::Alu(AluOp::Xor),
    Mnemonic::Alu(AluOp::Nor),
    Mnemonic::Alu(AluOp::Slt),
    Mnemonic::Alu(AluOp::Sltu),
    Mnemonic::Imm(ImmOp::Addiu),
    Mnemonic::Imm(ImmOp::Slti),
    Mnemonic::Imm(ImmOp::Sltiu),
    Mnemonic::Logic(LogicOp::Andi),
    Mnemonic::Logic(LogicOp::Ori),
    Mnemonic::Logic(LogicOp::Xori),
    Mnemonic::LoadUpper,
    Mnemonic::MoveFrom(HiLo::Hi),
    Mnemonic::MoveFrom(HiLo::Lo),
    Mnemonic::Multiply(Sign::Signed),
    Mnemonic::Multiply(Sign::Unsigned),
    Mnemonic::Divide(Sign::Signed),
    Mnemonic::Divide(Sign::Unsigned),
    Mnemonic::Load(Width::Word),
    Mnemonic::Load(Width::Byte),
    Mnemonic::Store(Width::Word),
    Mnemonic::Store(Width::Byte),
];

/// Returns the first of some things that the word names.
fn first_named<N: Named>(all: &[N], word: &[u8]) -> Option<N>
    ensures { result ≡ find (λ n. bytes_eq word.now (N.text n)) all.now }
{
    all.iter().copied().find(|n| word == n.word().as_bytes())
}

/// Returns the mnemonic that the word is.
pub fn mnemonic_named(word: &[u8]) -> Option<Mnemonic>
    ensures found { IfSome result (λ n. word.now ≡ mnemonic_text n) }
    ensures only { (n : Mnemonic) → word.now ≡ mnemonic_text n → result ≡ Some n }
{
    first_named(MNEMONICS, word)
}

/// The name of an exit that names blocks.
#[derive(Clone, Copy)]
pub enum ExitName {
    Goto,
    BranchPair(PairTest),
    BranchZero(ZeroTest),
    Call,
    Out,
}

impl ExitName {
    ghost use Rattle.std.specs.Prelude.{◌≡◌};
    ghost use Rattle.block_text.specs.Spelling.{exit_name_text};

    /// Returns the word.
    pub fn name(self) -> &'static str
        ensures { result.now ≡ exit_name_text self }
    {
        match self {
            ExitName::Goto => "goto",
            ExitName::BranchPair(PairTest::Equal) => "beq",
            ExitName::BranchPair(PairTest::NotEqual) => "bne",
            ExitName::BranchZero(ZeroTest::AtMostZero) => "blez",
            ExitName::BranchZero(ZeroTest::AboveZero) => "bgtz",
            ExitName::BranchZero(ZeroTest::BelowZero) => "bltz",
            ExitName::BranchZero(ZeroTest::AtLeastZero) => "bgez",
            ExitName::Call => "call",
            ExitName::Out => "out",
        }
    }
}

impl Named for ExitName {
    ghost text = { λ n. exit_name_text n };

    fn word(self) -> &'static str {
        self.name()
    }
}

/// All names of exits.
const EXIT_NAMES: &[ExitName] = &[
    ExitName::Goto,
    ExitName::BranchPair(PairTest::Equal),
    ExitName::BranchPair(PairTest::NotEqual),
    ExitName::BranchZero(ZeroTest::AtMostZero),
    ExitName::BranchZero(ZeroTest::AboveZero),
    ExitName::BranchZero(ZeroTest::BelowZero),
    ExitName::BranchZero(ZeroTest::AtLeastZero),
    ExitName::Call,
    ExitName::Out,
];

/// Returns the exit that the word names.
pub fn exit_named(word: &[u8]) -> Option<ExitName>
    ensures found { IfSome result (λ n. word.now ≡ exit_name_text n) }
    ensures only { (n : ExitName) → word.now ≡ exit_name_text n → result ≡ Some n }
{
    first_named(EXIT_NAMES, word)
}
