//! Lines of instructions and exits.
ghost use Rattle.std.specs.Prelude.{◌≡◌, ℕ, ◌++◌, ◌∷◌, ◌<◌, ◌^◌, decimal, IfSome, Some};
ghost use Rattle.mips_isa.specs.declared.inst.Plain.{Plain};
ghost use Rattle.mblock.specs.declared.exit.Exit.{Exit};
ghost use Rattle.mblock.specs.declared.exit.Exit.TheVariants as exits;
ghost use Rattle.block_text.specs.Spelling.{SpellsPlain, SpellsExit, HasTargets};
ghost use Rattle.block_text.specs.declared.names.ExitName.TheVariants as names;
ghost use Rattle.block_text.specs.declared.names.ExitName.{ExitName};

use crate::cuts::cut;
use crate::names::{ExitName, exit_named, mnemonic_named};
use crate::operands::operands;
use crate::spelled::{Spelled, three, two};
use mblock::{BlockNumber, Exit};
use mips_isa::{PairTest, Plain, Reg, ZeroTest};

/// Returns the instruction that the line spells, if it spells one: as it is printed by Plain's Display, or `sll $0,$0,0` for `nop`.
pub fn plain_of(line: &[u8]) -> Option<Plain>
    ensures found { IfSome result (SpellsPlain line.now) }
    ensures only { (i : Plain) → SpellsPlain line.now i → result ≡ Some i }
{
    if line == b"nop".as_slice() {
        return Some(Plain::nop());
    }
    let halves = cut(line, b' ')?;
    let name = mnemonic_named(halves.before)?;
    operands(name, halves.after)
}

/// The numbers of two blocks.
#[derive(Clone, Copy)]
struct TwoBlocks {
    first: BlockNumber,
    second: BlockNumber,
}

impl Spelled for TwoBlocks {
    ghost fits = { λ t. (t.first < 2 ^ 20) × (t.second < 2 ^ 20) };

    ghost spelling = { λ t. decimal t.first ++ 44 ∷ decimal t.second };

    fn read(text: &[u8]) -> Option<TwoBlocks> {
        let (first, second) = two::<BlockNumber, BlockNumber>(text)?;
        Some(TwoBlocks { first, second })
    }
}

fn pair(test: PairTest, text: &[u8]) -> Option<Exit>
    ensures found { IfSome result (HasTargets (names.BranchPair test) text.now) }
    ensures only { (rs rt t e : ℕ) → HasTargets (names.BranchPair test) text.now (exits.BranchPair test rs rt t e)
        → result ≡ Some (exits.BranchPair test rs rt t e) }
{
    let (rs, rt, targets) = three::<Reg, Reg, TwoBlocks>(text)?;
    Some(Exit::BranchPair {
        test,
        rs,
        rt,
        then: targets.first,
        other: targets.second,
    })
}

fn zero(test: ZeroTest, text: &[u8]) -> Option<Exit>
    ensures found { IfSome result (HasTargets (names.BranchZero test) text.now) }
    ensures only { (rs t e : ℕ) → HasTargets (names.BranchZero test) text.now (exits.BranchZero test rs t e)
        → result ≡ Some (exits.BranchZero test rs t e) }
{
    let (rs, targets) = two::<Reg, TwoBlocks>(text)?;
    Some(Exit::BranchZero {
        test,
        rs,
        then: targets.first,
        other: targets.second,
    })
}

fn call(text: &[u8]) -> Option<Exit>
    ensures found { IfSome result (HasTargets names.Call text.now) }
    ensures only { (f n : ℕ) → HasTargets names.Call text.now (exits.Call f n) → result ≡ Some (exits.Call f n) }
{
    let targets = TwoBlocks::read(text)?;
    Some(Exit::Call {
        function: targets.first,
        next: targets.second,
    })
}

/// Returns the exit of this name with the targets that the text spells.
fn targets(name: ExitName, text: &[u8]) -> Option<Exit>
    ensures found { IfSome result (HasTargets name text.now) }
    ensures only { (e : Exit) → HasTargets name text.now e → result ≡ Some e }
{
    match name {
        ExitName::Goto => Some(Exit::Goto(BlockNumber::read(text)?)),
        ExitName::BranchPair(test) => pair(test, text),
        ExitName::BranchZero(test) => zero(test, text),
        ExitName::Call => call(text),
        ExitName::Out => Some(Exit::Out(BlockNumber::read(text)?)),
    }
}

/// Returns the exit that the line spells, if it spells one. It is `goto T`, `beq $s,$t,T,E` (`bne`), `blez $s,T,E` (`bgtz`, `bltz`,
/// `bgez`), `call F,N`, `return`, `out N` or `halt`. Numbers of blocks are below 2^20.
pub fn exit_of(line: &[u8]) -> Option<Exit>
    ensures found { IfSome result (SpellsExit line.now) }
    ensures only { (e : Exit) → SpellsExit line.now e → result ≡ Some e }
{
    if line == b"return".as_slice() {
        return Some(Exit::Return);
    }
    if line == b"halt".as_slice() {
        return Some(Exit::Halt);
    }
    let halves = cut(line, b' ')?;
    let name = exit_named(halves.before)?;
    targets(name, halves.after)
}
