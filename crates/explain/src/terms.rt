//! The terms of what a block or an order leaves, read out of a table.

ghost use Rattle.std.specs.Prelude.{◌≡◌, All, IfOk, IfSome, OnOk};
ghost use Rattle.term_table.specs.Passes.{IsOf, PassState, new_pass};
ghost use Rattle.sym_exec.specs.MipsTerms.{HasSeen, HaveSeen};
ghost use Rattle.sym_exec.specs.Standing.{tickets_of};
ghost use Rattle.explain.specs.Readers.{IsReader, IsSeenState, guard_tickets, room_terms};

use mblock::{Block, Order};
use mips_isa::NonzeroReg;
use std::alloc::{AllocError, Global};
use std::marker::Model;
use sym_exec::{Guard, SymState, TermExit, run_block, run_order};
use sym_terms::Label;
use term_table::{Node, Pass, TableFull, TermTable, Ticket};

/// A table with its pass, what a block or an order leaves, and the tickets that are to be read, the last one first.
#[derive(Drop)]
pub(crate) struct Open {
    pub(crate) table: TermTable,
    pub(crate) pass: Pass,
    pub(crate) state: SymState,
    pub(crate) waiting: Vec<Ticket>,
}

/// What a block or an order leaves: its terms, how it is left, and what it relies on.
#[derive(Drop)]
pub(crate) struct Left {
    open: Open,
}

impl Model for Left {
    ghost use Rattle.explain.specs.declared.terms.Open.{Open};
    ghost use Rattle.explain.specs.Readers.{IsReader};

    ghost Value = { Open };

    ghost view = { λ r. r.open };

    ghost invariant = { λ r. IsReader r.open };
}

/// A term that is left.
#[derive(Clone, Copy)]
pub(crate) enum Root {
    Register(NonzeroReg),
    Hi,
    Lo,
    Memory,
    /// The first that the exit reads, or else the second.
    Exit(bool),
    /// The first of the guard of this number, or else the second.
    Guard(usize, bool),
}

/// How many terms a table has room for.
#[derive(Clone, Copy)]
pub enum Room {
    /// 4,096, more than most blocks have.
    Few,
    /// 65,536.
    Many,
}

impl Room {
    fn terms(self) -> u64
        ensures { result ≡ room_terms self }
    {
        match self {
            Room::Few => 4096,
            Room::Many => 65536,
        }
    }
}

/// Returns a table for one pass, and its pass; none if memory runs out.
pub fn table_of(alloc: Global, room: Room) -> Option<(TermTable, Pass)>
    ensures own { IfSome result (λ t. IsOf t.0 t.1) }
    ensures room { IfSome result (λ t. (t.0.nodes ≡ room_terms room) × (t.1 ≡ new_pass t.0 0)) }
{
    let terms = room.terms();
    TermTable::open_one(alloc, terms, terms / 64).ok()
}

/// Returns the tickets of the terms that an exit reads.
fn exit_tickets(exit: &TermExit) -> (Option<Ticket>, Option<Ticket>)
    ensures first { (p : PassState) → HaveSeen p (tickets_of exit.now) → IfSome result.0 (HasSeen p) }
    ensures second { (p : PassState) → HaveSeen p (tickets_of exit.now) → IfSome result.1 (HasSeen p) }
{
    match *exit {
        TermExit::Goto(_) | TermExit::Call { .. } => (None, None),
        TermExit::BranchPair { a, b, .. } => (Some(a), Some(b)),
        TermExit::BranchZero { a, .. } | TermExit::Return(a) | TermExit::Halt(a) => (Some(a), None),
        TermExit::Out { word, .. } => (Some(word), None),
    }
}

/// Returns the tickets of a guard's terms.
fn tickets_of_guard(guard: &Guard) -> (Option<Ticket>, Option<Ticket>)
    ensures first { (p : PassState) → HaveSeen p (guard_tickets guard.now) → IfSome result.0 (HasSeen p) }
    ensures second { (p : PassState) → HaveSeen p (guard_tickets guard.now) → IfSome result.1 (HasSeen p) }
{
    match *guard {
        Guard::Address { address, .. } => (Some(address), None),
        Guard::Division {
            dividend,
            divisor,
            ..
        } => (Some(dividend), Some(divisor)),
    }
}

/// What is run: a block or an order.
#[derive(Clone, Copy)]
pub(crate) enum Code<'a> {
    Block(&'a Block),
    Order(&'a Order),
}

/// Returns the tickets of what a block or an order leaves.
fn run(
    alloc: Global,
    table: &TermTable,
    pass: &mut Pass,
    code: Code<'_>,
) -> Result<Result<SymState, TableFull>, AllocError>
    requires { IsOf table.now pass.old }
    ensures own { OnOk result (IsOf table.now pass.new) }
    ensures seen { IfOk result (λ run. IfOk run (IsSeenState pass.new)) }
{
    match code {
        Code::Block(block) => run_block(alloc, table, pass, block),
        Code::Order(order) => run_order(alloc, table, pass, order),
    }
}

/// Returns what a block or an order leaves, over a table of some room; None if that is too little.
fn left_in(alloc: Global, code: Code<'_>, room: Room) -> Result<Option<Left>, AllocError> {
    let Some((table, mut pass)) = table_of(alloc, room) else {
        return Err(AllocError);
    };
    let Ok(state) = run(alloc, &table, &mut pass, code)? else {
        return Ok(None);
    };
    let open = Open {
        table,
        pass,
        state,
        waiting: Vec::new(alloc),
    };
    Ok(Some(Left { open }))
}

/// Returns what a block or an order leaves; None if it has more terms than a table has room for.
pub(crate) fn left_of(alloc: Global, code: Code<'_>) -> Result<Option<Left>, AllocError> {
    match left_in(alloc, code, Room::Few)? {
        None => left_in(alloc, code, Room::Many),
        left => Ok(left),
    }
}

impl Open {
    /// Returns the root of the term that is next, and how many children it has, which are next then, the last one first.
    fn next(&mut self) -> Result<Option<(Label, usize)>, AllocError>
        requires { IsReader self.old }
        ensures { IsReader self.new }
    {
        let Some(ticket) = self.waiting.pop() else {
            return Ok(None);
        };
        let Node { label, children } = self.table.read::<Label>(&mut self.pass, ticket);
        self.waiting.extend_from_slice(children.as_slice())?;
        Ok(Some((label, children.len())))
    }

    /// Returns the ticket of a term that is left, if there is one.
    fn ticket(&self, root: Root) -> Option<Ticket>
        requires { IsReader self.now }
        ensures { IfSome result (HasSeen self.now.pass) }
    {
        match root {
            Root::Register(r) => Some(self.state.places.regs[r.index() as usize]),
            Root::Hi => Some(self.state.places.hi),
            Root::Lo => Some(self.state.places.lo),
            Root::Memory => Some(self.state.places.memory),
            Root::Exit(is_first) => {
                let (first, second) = exit_tickets(&self.state.exit);
                if is_first { first } else { second }
            }
            Root::Guard(number, is_first) => {
                let (first, second) = tickets_of_guard(self.state.guards.get(number)?);
                if is_first { first } else { second }
            }
        }
    }
}

impl Left {
    /// Returns how it is left.
    pub(crate) fn exit(&self) -> TermExit {
        self.open.state.exit
    }

    /// Lends what it relies on.
    pub(crate) fn guards(&self) -> &[Guard] {
        self.open.state.guards.as_slice()
    }

    /// Goes to a term that is left; false if there is none.
    pub(crate) fn start(&mut self, root: Root) -> Result<bool, AllocError> {
        self.open.waiting.clear();
        let Some(ticket) = self.open.ticket(root) else {
            return Ok(false);
        };
        self.open.waiting.push(ticket)?;
        Ok(true)
    }

    /// Returns the label of the term that is next, and how many children it has, which are next then, the last one first. None if nothing
    /// is left.
    pub(crate) fn next(&mut self) -> Result<Option<(Label, usize)>, AllocError> {
        self.open.next()
    }

    /// Leaves out so many terms that are next.
    pub(crate) fn skip(&mut self, count: usize) {
        let kept = self.open.waiting.len().saturating_sub(count);
        self.open.waiting.truncate(kept);
    }
}
