//! Blocks and orders, instruction by instruction.
ghost use Rattle.std.specs.Prelude.{◌≡◌, ◌+◌, ◌<◌, ◌≤◌, OnOk, OnErr, IfOk, ◌++◌, map, length, take, vec_len, vec_capacity};
ghost use Rattle.mips_isa.specs.Actions.{action_of};
ghost use Rattle.mblock.specs.BlockMeaning.{exit_shape};
ghost use Rattle.mblock.specs.Clean.{slot_actions};
ghost use Rattle.sym_terms.specs.declared.label.Origin.TheVariants.{Register};
ghost use Rattle.sym_terms.specs.declared.label.Label.TheVariants.{Init};
ghost use Rattle.sym_terms.specs.Trees.{leaf};
ghost use Rattle.term_table.specs.Passes.{PassState, IsOf, linked};
ghost use Rattle.term_table.specs.Trees.{HasLegalHistory};
ghost use Rattle.sym_exec.specs.MipsTerms.{HasTree, Lacks};
ghost use Rattle.sym_exec.specs.Asked.{asked_by, asked_by_all, asked_first, asked_by_shape, asked_from, code_asked};
ghost use Rattle.sym_exec.specs.Asked.{block_asked, order_asked, LacksOne};
ghost use Rattle.sym_exec.specs.Symbolic.{TreeState, start_trees, trees_after, all_trees, exit_trees, exit_operands, trees_from, code_trees};
ghost use Rattle.sym_exec.specs.Symbolic.{block_trees, order_trees};
ghost use Rattle.sym_exec.specs.Standing.{Known, Hold, LeavesBy, StandsFor};
ghost use Rattle.sym_exec.specs.Interners.{Interns};
ghost use Rattle.sym_exec.specs.Growth.{growth_by, growth_by_all, growth_by_shape, stores_after, all_stores, growth_from, code_growth};
ghost use Rattle.sym_exec.specs.Growth.{block_growth, order_growth, GrowthHasBound};
ghost use Rattle.sym_exec.specs.Stores.{IsChain, HasRoom, IsEmpty, IsRoomFor, Tracks, spare};
ghost use Rattle.sym_exec.specs.Starts.{IsStart};
ghost use Rattle.sym_exec.specs.Runs.{Runs, needed};

use crate::interner::Interner;
use crate::registers::{Access, TermRegisters};
use crate::room::RunLists;
use crate::state::{Guard, SymState, TermExit, TermPlaces};
use mblock::{Block, Exit, Order};
use mips_isa::{
    Action, NonzeroReg, Plain, Reg, product_high, product_low, quotient_operator,
    remainder_operator,
};
use std::alloc::{AllocError, Global};
use sym_terms::{Label, Origin};
use term_table::{Pass, TableFull, TermTable, Ticket};

impl RunLists {
    ghost use Rattle.std.specs.Prelude.{◌≡◌, ◌<◌, ◌+◌, ◌++◌, [], ◌∷◌, vec_len, vec_capacity};

    /// Pushes one more guard, in memory that was taken before.
    fn push_guard(&mut self, guard: Guard)
        requires { vec_len self.old.guards < vec_capacity self.old.guards }
        ensures pushed { self.new.guards.items ≡ self.old.guards.items ++ guard ∷ [] }
        ensures count { vec_len self.new.guards ≡ vec_len self.old.guards + 1 }
        ensures capacity { vec_capacity self.new.guards ≡ vec_capacity self.old.guards }
        ensures chain { self.new.chain ≡ self.old.chain }
    {
        self.guards.push_reserved(guard);
    }
}

/// Does to the tickets what an action does to the trees.
fn step(
    terms: &mut Interner,
    registers: &mut TermRegisters,
    lists: &mut RunLists,
    action: &Action,
) -> Result<(), TableFull>
    requires known { Known terms.old.pass.now registers.old }
    requires chain { IsChain terms.old.pass.now lists.old.chain }
    requires room { HasRoom lists.old }
    requires few { 0 < spare lists.old }
    ensures known { OnOk result (Known terms.new.pass.now registers.new) }
    ensures chain { OnOk result (IsChain terms.new.pass.now lists.new.chain) }
    ensures tracks { (t : TreeState) → Tracks terms.old.pass.now registers.old lists.old t
        → OnOk result (Tracks terms.new.pass.now registers.new lists.new (trees_after action.now t)) }
    ensures absent { (t : TreeState) → Tracks terms.old.pass.now registers.old lists.old t
        → OnErr result (LacksOne terms.new.pass.now (asked_by action.now t)) }
    ensures pass { Interns terms.old result terms.new }
    ensures grows { linked terms.new.pass.now ≤ linked terms.old.pass.now + growth_by action.now (vec_len lists.old.chain.stores) }
    ensures stores { OnOk result (vec_len lists.new.chain.stores ≡ stores_after action.now (vec_len lists.old.chain.stores)) }
    ensures room { OnOk result (HasRoom lists.new) }
    ensures guards { OnOk result (vec_len lists.new.guards ≤ vec_len lists.old.guards + 1) }
    ensures capacity { OnOk result (vec_capacity lists.new.guards ≡ vec_capacity lists.old.guards) }
{
    match *action {
        Action::Computes { d, op, a, b } => { registers.computes(terms, d, op, a, &b) }
        Action::Sets { d, word } => { registers.put_leaf(terms, d, Label::Const(word)) }
        Action::Loads {
            width,
            d,
            base,
            offset,
        } => {
            let access = Access {
                width,
                base,
                offset,
            };
            let address = registers.loads(terms, &mut lists.chain, d, access)?;
            lists.push_guard(Guard::Address { width, address });
            Ok(())
        }
        Action::Stores {
            width,
            r,
            base,
            offset,
        } => {
            let access = Access {
                width,
                base,
                offset,
            };
            let address = registers.stores(terms, &mut lists.chain, r, access)?;
            lists.push_guard(Guard::Address { width, address });
            Ok(())
        }
        Action::Multiplies { sign, a, b } => {
            registers.put_halves(terms, product_high(sign), product_low(sign), a, b)
        }
        Action::Divides { sign, a, b } => {
            let dividend = registers.get(a);
            let divisor = registers.get(b);
            registers.put_halves(
                terms,
                remainder_operator(sign),
                quotient_operator(sign),
                a,
                b,
            )?;
            lists.push_guard(Guard::Division {
                sign,
                dividend,
                divisor,
            });
            Ok(())
        }
        Action::MovesHigh { d } => {
            registers.set(d, registers.hi);
            Ok(())
        }
        Action::MovesLow { d } => {
            registers.set(d, registers.lo);
            Ok(())
        }
    }
}

fn steps(
    terms: &mut Interner,
    registers: &mut TermRegisters,
    lists: &mut RunLists,
    insts: &[Plain],
) -> Result<(), TableFull>
    requires known { Known terms.old.pass.now registers.old }
    requires chain { IsChain terms.old.pass.now lists.old.chain }
    requires room { HasRoom lists.old }
    requires few { length insts.now ≤ spare lists.old }
    ensures known { OnOk result (Known terms.new.pass.now registers.new) }
    ensures chain { OnOk result (IsChain terms.new.pass.now lists.new.chain) }
    ensures tracks { (t : TreeState) → Tracks terms.old.pass.now registers.old lists.old t
        → OnOk result (Tracks terms.new.pass.now registers.new lists.new (all_trees (map action_of insts.now) t)) }
    ensures absent { (t : TreeState) → Tracks terms.old.pass.now registers.old lists.old t
        → OnErr result (LacksOne terms.new.pass.now (asked_by_all (map action_of insts.now) t)) }
    ensures pass { Interns terms.old result terms.new }
    ensures grows { linked terms.new.pass.now ≤ linked terms.old.pass.now + growth_by_all (map action_of insts.now) (vec_len lists.old.chain.stores) }
    ensures stores { OnOk result (vec_len lists.new.chain.stores ≡ all_stores (map action_of insts.now) (vec_len lists.old.chain.stores)) }
    ensures room { OnOk result (HasRoom lists.new) }
    ensures guards { OnOk result (vec_len lists.new.guards ≤ vec_len lists.old.guards + length (needed insts.now)) }
    ensures capacity { OnOk result (vec_capacity lists.new.guards ≡ vec_capacity lists.old.guards) }
{
    for inst in insts {
        if inst.is_nop() {
            continue;
        }
        step(terms, registers, lists, &inst.action())?;
    }
    Ok(())
}

/// Returns what register `r` holds at the start.
fn start_reg(terms: &mut Interner, r: u8) -> Result<Ticket, TableFull>
    requires nonzero { 0 < r }
    requires low { r < 32 }
    ensures tree { IfOk result (λ t. HasTree terms.new.pass.now t (leaf (Init (Register r)))) }
    ensures absent { OnErr result (Lacks terms.new.pass.now (leaf (Init (Register r)))) }
    ensures legal { HasLegalHistory terms.new.pass.now }
    ensures pass { Interns terms.old result terms.new }
    ensures grows { linked terms.new.pass.now ≤ linked terms.old.pass.now + 1 }
{
    let Some(reg) = NonzeroReg::new(r) else {
        unreachable!();
    };
    terms.leaf(Label::Init(Origin::Register(reg)))
}

/// Returns what registers, HI and LO hold at the start: the constant 0 in register 0, in any other its own label.
fn start_registers(terms: &mut Interner) -> Result<TermRegisters, TableFull>
    ensures known { IfOk result (Known terms.new.pass.now) }
    ensures hold { IfOk result (λ s. Hold terms.new.pass.now s start_trees) }
    ensures absent { OnErr result (LacksOne terms.new.pass.now asked_first) }
    ensures legal { HasLegalHistory terms.new.pass.now }
    ensures pass { Interns terms.old result terms.new }
    ensures grows { linked terms.new.pass.now ≤ linked terms.old.pass.now + 34 }
{
    let zero = terms.leaf(Label::Const(0))?;
    let mut regs = [zero; 32];
    for r in 1..32u8 {
        regs[r as usize] = start_reg(terms, r)?;
    }
    let hi = terms.leaf(Label::Init(Origin::Hi))?;
    let lo = terms.leaf(Label::Init(Origin::Lo))?;
    Ok(TermRegisters { regs, hi, lo })
}

/// Returns what registers, HI, LO and memory hold at the start.
fn start(terms: &mut Interner) -> Result<TermPlaces, TableFull>
    ensures start { IfOk result (IsStart terms.new.pass.now) }
    ensures absent { OnErr result (LacksOne terms.new.pass.now asked_first) }
    ensures legal { HasLegalHistory terms.new.pass.now }
    ensures pass { Interns terms.old result terms.new }
    ensures grows { linked terms.new.pass.now ≤ linked terms.old.pass.now + 35 }
{
    let TermRegisters { regs, hi, lo } = start_registers(terms)?;
    let memory = terms.leaf(Label::Mem0)?;
    Ok(TermPlaces {
        regs,
        hi,
        lo,
        memory,
    })
}

/// Begins the chain of stores with the memory at the start, and returns what the registers hold.
fn begin(start: &TermPlaces, lists: &mut RunLists) -> TermRegisters
    requires room { HasRoom lists.old }
    requires empty { IsEmpty lists.old }
    ensures known { (p : PassState) → IsStart p start.now → Known p result }
    ensures chain { (p : PassState) → IsStart p start.now → IsChain p lists.new.chain }
    ensures tracks { (p : PassState) → IsStart p start.now → Tracks p result lists.new start_trees }
    ensures room { HasRoom lists.new }
    ensures guards { lists.new.guards ≡ lists.old.guards }
    ensures stores { vec_len lists.new.chain.stores ≡ 0 }
{
    lists.chain.memories.push_reserved(start.memory);
    TermRegisters {
        regs: start.regs,
        hi: start.hi,
        lo: start.lo,
    }
}

/// Returns the exit, with the tickets of what it reads.
fn leave(registers: &TermRegisters, exit: &Exit) -> TermExit
    ensures { (p : PassState) (t : TreeState) → Hold p registers.now t
        → LeavesBy p result (exit_shape exit.now) (exit_operands exit.now t) }
{
    match *exit {
        Exit::Goto(t) => TermExit::Goto(t),
        Exit::BranchPair {
            test,
            rs,
            rt,
            then,
            other,
        } => TermExit::BranchPair {
            test,
            a: registers.get(rs),
            b: registers.get(rt),
            then,
            other,
        },
        Exit::BranchZero {
            test,
            rs,
            then,
            other,
        } => TermExit::BranchZero {
            test,
            a: registers.get(rs),
            then,
            other,
        },
        Exit::Call { function, next } => TermExit::Call { function, next },
        Exit::Return => TermExit::Return(registers.get(Reg::LINK)),
        Exit::Out(next) => TermExit::Out {
            word: registers.get(Reg::ARGUMENT),
            next,
        },
        Exit::Halt => TermExit::Halt(registers.get(Reg::ARGUMENT)),
    }
}

/// Writes what the exit itself writes: a call its link, Out and Halt the number of the system call.
fn put_own(
    terms: &mut Interner,
    registers: &mut TermRegisters,
    exit: &Exit,
) -> Result<(), TableFull>
    requires { Known terms.old.pass.now registers.old }
    ensures known { OnOk result (Known terms.new.pass.now registers.new) }
    ensures hold { (t : TreeState) → Hold terms.old.pass.now registers.old t
        → OnOk result (Hold terms.new.pass.now registers.new (exit_trees exit.now t)) }
    ensures absent { OnErr result (LacksOne terms.new.pass.now (asked_by_shape (exit_shape exit.now))) }
    ensures pass { Interns terms.old result terms.new }
    ensures grows { linked terms.new.pass.now ≤ linked terms.old.pass.now + growth_by_shape (exit_shape exit.now) }
{
    match *exit {
        Exit::Call {
            function: _,
            next: _,
        } => registers.put_leaf(terms, Reg::LINK, Label::Init(Origin::Link)),
        Exit::Out(_) => registers.put_leaf(terms, Reg::RESULT, Label::Const(1)),
        Exit::Halt => registers.put_leaf(terms, Reg::RESULT, Label::Const(10)),
        _ => Ok(()),
    }
}

/// Runs the slot, if there is one.
fn run_slot(
    terms: &mut Interner,
    registers: &mut TermRegisters,
    lists: &mut RunLists,
    slot: &Option<Plain>,
) -> Result<(), TableFull>
    requires known { Known terms.old.pass.now registers.old }
    requires chain { IsChain terms.old.pass.now lists.old.chain }
    requires room { HasRoom lists.old }
    requires few { 0 < spare lists.old }
    ensures chain { OnOk result (IsChain terms.new.pass.now lists.new.chain) }
    ensures room { OnOk result (HasRoom lists.new) }
    ensures tracks { (t : TreeState) → Tracks terms.old.pass.now registers.old lists.old t
        → OnOk result (Tracks terms.new.pass.now registers.new lists.new (all_trees (slot_actions slot.now) t)) }
    ensures absent { (t : TreeState) → Tracks terms.old.pass.now registers.old lists.old t
        → OnErr result (LacksOne terms.new.pass.now (asked_by_all (slot_actions slot.now) t)) }
    ensures pass { Interns terms.old result terms.new }
    ensures grows { linked terms.new.pass.now ≤ linked terms.old.pass.now + growth_by_all (slot_actions slot.now) (vec_len lists.old.chain.stores) }
    ensures stores { OnOk result (vec_len lists.new.chain.stores ≡ all_stores (slot_actions slot.now) (vec_len lists.old.chain.stores)) }
{
    match slot {
        Some(inst) => step(terms, registers, lists, &inst.action()),
        None => Ok(()),
    }
}

/// Returns what code leaves that has come as far as some trees, by its last instructions.
fn finish(
    terms: &mut Interner,
    mut registers: TermRegisters,
    mut lists: RunLists,
    insts: &[Plain],
    exit: &Exit,
    slot: &Option<Plain>,
) -> Result<SymState, TableFull>
    requires known { Known terms.old.pass.now registers }
    requires chain { IsChain terms.old.pass.now lists.chain }
    requires room { HasRoom lists }
    requires few { length insts.now < spare lists }
    ensures trees { (t : TreeState) → Tracks terms.old.pass.now registers lists t → IfOk result (λ s. StandsFor terms.new.pass.now
        s.places s.exit s.guards.items (trees_from t (map action_of insts.now) exit.now (slot_actions slot.now))) }
    ensures absent { (t : TreeState) → Tracks terms.old.pass.now registers lists t
        → OnErr result (LacksOne terms.new.pass.now (asked_from t (map action_of insts.now) exit.now (slot_actions slot.now))) }
    ensures pass { Interns terms.old result terms.new }
    ensures grows { linked terms.new.pass.now ≤ linked terms.old.pass.now
        + growth_from (vec_len lists.chain.stores) (map action_of insts.now) exit.now (slot_actions slot.now) }
{
    steps(terms, &mut registers, &mut lists, insts)?;
    let left = leave(&registers, exit);
    put_own(terms, &mut registers, exit)?;
    run_slot(terms, &mut registers, &mut lists, slot)?;
    let memory = lists.chain.memory_term(terms)?;
    let TermRegisters { regs, hi, lo } = registers;
    Ok(SymState {
        places: TermPlaces {
            regs,
            hi,
            lo,
            memory,
        },
        exit: left,
        guards: lists.guards,
    })
}

/// Returns what code leaves from the start on.
fn run_from(
    terms: &mut Interner,
    start: &TermPlaces,
    insts: &[Plain],
    exit: &Exit,
    slot: &Option<Plain>,
    mut lists: RunLists,
) -> Result<SymState, TableFull>
    requires start { IsStart terms.old.pass.now start.now }
    requires room { IsRoomFor (length insts.now) lists }
    ensures trees { IfOk result (λ s. StandsFor terms.new.pass.now s.places s.exit s.guards.items
        (code_trees (map action_of insts.now) exit.now (slot_actions slot.now))) }
    ensures absent { OnErr result (LacksOne terms.new.pass.now (code_asked (map action_of insts.now) exit.now (slot_actions slot.now))) }
    ensures pass { Interns terms.old result terms.new }
    ensures grows { linked terms.new.pass.now + 35 ≤ linked terms.old.pass.now + code_growth (map action_of insts.now) exit.now (slot_actions slot.now) }
{
    let registers = begin(start, &mut lists);
    finish(terms, registers, lists, insts, exit, slot)
}

/// Returns what code leaves.
fn run_code(
    terms: &mut Interner,
    insts: &[Plain],
    exit: &Exit,
    slot: &Option<Plain>,
    lists: RunLists,
) -> Result<SymState, TableFull>
    requires { IsRoomFor (length insts.now) lists }
    ensures trees { IfOk result (λ s. StandsFor terms.new.pass.now s.places s.exit s.guards.items
        (code_trees (map action_of insts.now) exit.now (slot_actions slot.now))) }
    ensures absent { OnErr result (LacksOne terms.new.pass.now (code_asked (map action_of insts.now) exit.now (slot_actions slot.now))) }
    ensures legal { HasLegalHistory terms.new.pass.now }
    ensures pass { Interns terms.old result terms.new }
    ensures grows { linked terms.new.pass.now ≤ linked terms.old.pass.now + code_growth (map action_of insts.now) exit.now (slot_actions slot.now) }
{
    let start = start(terms)?;
    run_from(terms, &start, insts, exit, slot, lists)
}

/// Returns the tickets of what a block leaves: those of its trees. Memory is taken before any term is linked: where it is refused, the pass
/// is as it was.
///
/// `TableFull` comes only if the pass has linked all it may and a term that the block asks for isn't in the table. The terms that were
/// linked stay, and they are no more than the block's actions may link.
pub fn run_block(
    alloc: Global,
    table: &TermTable,
    pass: &mut Pass,
    block: &Block,
) -> Result<Result<SymState, TableFull>, AllocError>
    requires { IsOf table.now pass.old }
    ensures trees { IfOk result (λ run. IfOk run (λ s. StandsFor pass.new s.places s.exit s.guards.items (block_trees block.now))) }
    ensures runs { IfOk result (λ run. Runs (block_asked block.now) (block_growth block.now) table.now pass.old run pass.new) }
    ensures refused { OnErr result (pass.new ≡ pass.old) }
{
    let lists = RunLists::new(alloc, block.insts())?;
    let mut terms = Interner::new(table, pass);
    Ok(run_code(&mut terms, block.insts(), &block.exit(), &None, lists))
}

/// Returns the tickets of what an order leaves, its slot run after the exit; else as `run_block`.
pub fn run_order(
    alloc: Global,
    table: &TermTable,
    pass: &mut Pass,
    order: &Order,
) -> Result<Result<SymState, TableFull>, AllocError>
    requires { IsOf table.now pass.old }
    ensures trees { IfOk result (λ run. IfOk run (λ s. StandsFor pass.new s.places s.exit s.guards.items (order_trees order.now))) }
    ensures runs { IfOk result (λ run. Runs (order_asked order.now) (order_growth order.now) table.now pass.old run pass.new) }
    ensures refused { OnErr result (pass.new ≡ pass.old) }
{
    let lists = RunLists::new(alloc, order.insts())?;
    let mut terms = Interner::new(table, pass);
    Ok(run_code(
        &mut terms,
        order.insts(),
        &order.exit(),
        &order.slot(),
        lists,
    ))
}

/// Returns how many instructions of two lists are the same, from the first on, where Nops don't count.
fn shared_counts(insts: &[Plain], others: &[Plain]) -> (usize, usize)
    ensures within { (result.0 ≤ length insts.now) × (result.1 ≤ length others.now) }
    ensures same { needed (take result.0 insts.now) ≡ needed (take result.1 others.now) }
{
    let (mut i, mut j) = (0, 0);
    'walk: while i < insts.len() && j < others.len() {
        if insts[i].is_nop() {
            i += 1;
        } else if others[j].is_nop() {
            j += 1;
        } else if insts[i] == others[j] {
            i += 1;
            j += 1;
        } else {
            break 'walk;
        }
    }
    (i, j)
}

/// Returns what a block and an order leave from the start on. The instructions that they begin with both are run once.
fn run_pair_from(
    terms: &mut Interner,
    start: &TermPlaces,
    block: &Block,
    order: &Order,
    lists: (RunLists, RunLists),
) -> Result<(SymState, SymState), TableFull>
    requires start { IsStart terms.old.pass.now start.now }
    requires block_room { IsRoomFor (length block.now.insts) lists.0 }
    requires order_room { IsRoomFor (length order.now.insts) lists.1 }
    ensures block { IfOk result (λ s. StandsFor terms.new.pass.now s.0.places s.0.exit s.0.guards.items (block_trees block.now)) }
    ensures order { IfOk result (λ s. StandsFor terms.new.pass.now s.1.places s.1.exit s.1.guards.items (order_trees order.now)) }
    ensures absent { OnErr result (LacksOne terms.new.pass.now (block_asked block.now ++ order_asked order.now)) }
    ensures pass { Interns terms.old result terms.new }
    ensures grows { linked terms.new.pass.now + 35 ≤ linked terms.old.pass.now + (block_growth block.now + order_growth order.now) }
{
    let (mut block_lists, mut order_lists) = lists;
    let mut registers = begin(start, &mut block_lists);
    let (ours, theirs) = (block.insts(), order.insts());
    let shared = shared_counts(ours, theirs);
    let (both, insts) = ours.split_at(shared.0);
    let (_, others) = theirs.split_at(shared.1);
    steps(terms, &mut registers, &mut block_lists, both)?;
    order_lists.copy_from(&block_lists);
    let first = finish(terms, registers, block_lists, insts, &block.exit(), &None)?;
    let second = finish(
        terms,
        registers,
        order_lists,
        others,
        &order.exit(),
        &order.slot(),
    )?;
    Ok((first, second))
}

/// Returns what a block and an order leave.
fn run_pair(
    terms: &mut Interner,
    block: &Block,
    order: &Order,
    lists: (RunLists, RunLists),
) -> Result<(SymState, SymState), TableFull>
    requires block_room { IsRoomFor (length block.now.insts) lists.0 }
    requires order_room { IsRoomFor (length order.now.insts) lists.1 }
    ensures block { IfOk result (λ s. StandsFor terms.new.pass.now s.0.places s.0.exit s.0.guards.items (block_trees block.now)) }
    ensures order { IfOk result (λ s. StandsFor terms.new.pass.now s.1.places s.1.exit s.1.guards.items (order_trees order.now)) }
    ensures absent { OnErr result (LacksOne terms.new.pass.now (block_asked block.now ++ order_asked order.now)) }
    ensures legal { HasLegalHistory terms.new.pass.now }
    ensures pass { Interns terms.old result terms.new }
    ensures grows { linked terms.new.pass.now ≤ linked terms.old.pass.now + (block_growth block.now + order_growth order.now) }
{
    let start = start(terms)?;
    run_pair_from(terms, &start, block, order, lists)
}

/// Returns the tickets of what a block and an order leave, as `run_block` and `run_order` give them. The terms of the start are made once
/// for both.
pub fn run_both(
    alloc: Global,
    table: &TermTable,
    pass: &mut Pass,
    block: &Block,
    order: &Order,
) -> Result<Result<(SymState, SymState), TableFull>, AllocError>
    requires { IsOf table.now pass.old }
    ensures block { IfOk result (λ run. IfOk run (λ s. StandsFor pass.new s.0.places s.0.exit s.0.guards.items (block_trees block.now))) }
    ensures order { IfOk result (λ run. IfOk run (λ s. StandsFor pass.new s.1.places s.1.exit s.1.guards.items (order_trees order.now))) }
    ensures runs { IfOk result (λ run. Runs (block_asked block.now ++ order_asked order.now) (block_growth block.now + order_growth order.now)
        table.now pass.old run pass.new) }
    ensures refused { OnErr result (pass.new ≡ pass.old) }
{
    let block_lists = RunLists::new(alloc, block.insts())?;
    let order_lists = RunLists::new(alloc, order.insts())?;
    let mut terms = Interner::new(table, pass);
    Ok(run_pair(&mut terms, block, order, (block_lists, order_lists)))
}

/// Returns the tickets of what registers, HI, LO and memory hold at the start, for runs of many blocks by passes that know them.
///
/// `TableFull` comes only if the pass has linked all it may and one of these terms isn't in the table. At most 35 terms are linked.
pub fn start_places(table: &TermTable, pass: &mut Pass) -> Result<TermPlaces, TableFull>
    requires { IsOf table.now pass.old }
    ensures start { IfOk result (IsStart pass.new) }
    ensures runs { Runs asked_first 35 table.now pass.old result pass.new }
{
    let mut terms = Interner::new(table, pass);
    start(&mut terms)
}

/// Returns the same as `run_both`, from a start whose terms the pass knows.
pub fn run_both_from(
    alloc: Global,
    table: &TermTable,
    pass: &mut Pass,
    start: &TermPlaces,
    block: &Block,
    order: &Order,
) -> Result<Result<(SymState, SymState), TableFull>, AllocError>
    requires pass { IsOf table.now pass.old }
    requires start { IsStart pass.old start.now }
    ensures block { IfOk result (λ run. IfOk run (λ s. StandsFor pass.new s.0.places s.0.exit s.0.guards.items (block_trees block.now))) }
    ensures order { IfOk result (λ run. IfOk run (λ s. StandsFor pass.new s.1.places s.1.exit s.1.guards.items (order_trees order.now))) }
    ensures runs { IfOk result (λ run. Runs (block_asked block.now ++ order_asked order.now) (block_growth block.now + order_growth order.now)
        table.now pass.old run pass.new) }
    ensures refused { OnErr result (pass.new ≡ pass.old) }
{
    let block_lists = RunLists::new(alloc, block.insts())?;
    let order_lists = RunLists::new(alloc, order.insts())?;
    // Tells the check that the history is legal.
    let _linked = pass.linked();
    let mut terms = Interner::new(table, pass);
    Ok(run_pair_from(&mut terms, start, block, order, (block_lists, order_lists)))
}

/// States that what a run may link is at most quadratic in the number of its actions. A law: it computes nothing.
pub fn growth_has_bound()
    ensures { GrowthHasBound }
{}
