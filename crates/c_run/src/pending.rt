//! What an active call still has to do.
ghost use Rattle.std.specs.Prelude.{◌≡◌, [], ◌∷◌, OnOk, IfOk, None, length, ◌+◌, ◌≤◌};
ghost use Rattle.runs.specs.Stores.{places_with};
ghost use Rattle.c_typed.specs.Meaning.{before, before_all, next_point, Going, Next};
ghost use Rattle.c_typed.specs.Shape.{statement_of, statements_of};
ghost use Rattle.runs.specs.Kept.{places};
ghost use Rattle.c_run.specs.Interpreter.{point_at, todos, with_head, with_part};
ghost use Rattle.c_run.specs.Sizes.{load, sizes, head_size};
ghost use Rattle.c_run.specs.Turns.{past_turn, at_turn};

use crate::places::statements_of;
use c_typed::TypedStatement;
use std::alloc::{AllocError, Global};

/// What waits after a list of statements: a list, a statement, or the end of a turn (its last part, and the loop). The last two have
/// the list that comes after them. A list is lent, so to enter a block is one push.
#[derive(Clone, Copy)]
pub enum Pending<'a> {
    Rest(&'a [TypedStatement]),
    One(&'a TypedStatement, &'a [TypedStatement]),
    Turn(&'a TypedStatement, &'a TypedStatement, &'a [TypedStatement]),
}

/// What a call still has to do: what is left of the list that it is in, and what waits after that. The first one to do stands last.
#[derive(Drop)]
pub struct Agenda<'a> {
    pub list: &'a [TypedStatement],
    pub behind: Vec<Pending<'a>>,
}

/// What comes first: nothing, a statement that is no list, or the end of a turn.
#[derive(Clone, Copy)]
pub enum Head<'a> {
    Nothing,
    Statement(&'a TypedStatement),
    Turn(&'a TypedStatement, &'a TypedStatement),
}

/// Unsets a local.
fn unset(locals: &mut Vec<Option<u32>>, number: usize)
    ensures { places locals.new.items ≡ places_with (places locals.old.items) number None }
{
    if number < locals.len() {
        locals[number] = None;
    }
}

impl<'a> Agenda<'a> {
    /// Returns a list of statements to do, and nothing after it.
    pub(crate) fn of(alloc: Global, list: &'a [TypedStatement]) -> Agenda<'a>
        ensures { todos result ≡ before_all (statements_of list.now) [] }
    {
        Agenda {
            list,
            behind: Vec::new(alloc),
        }
    }

    /// Counts the statements that are left of the lists, with those inside them.
    pub(crate) fn left(&self) -> usize {
        let mut left = statements_of(self.list);
        for t in &self.behind {
            match t {
                Pending::Rest(list) | Pending::One(_, list) | Pending::Turn(_, _, list) => {
                    left = left.saturating_add(statements_of(list));
                }
            }
        }
        left
    }

    /// Puts another list first; what is left of the one before waits.
    #[inline(always)]
    fn put_list(&mut self, list: &'a [TypedStatement]) -> Result<(), AllocError>
        ensures todo { OnOk result (todos self.new ≡ before_all (statements_of list.now) (todos self.old)) }
        ensures more { OnOk result (load self.new ≤ sizes (statements_of list.now) + load self.old + 1) }
    {
        if self.list.len() == 0 {
            self.list = list;
            return Ok(());
        }
        self.behind.push(Pending::Rest(self.list))?;
        self.list = list;
        Ok(())
    }

    /// Puts one more statement first; a block is the list that it is.
    #[inline(always)]
    pub(crate) fn put(&mut self, s: &'a TypedStatement) -> Result<(), AllocError>
        ensures { OnOk result (todos self.new ≡ before (statement_of s.now) (todos self.old)) }
    {
        match s {
            TypedStatement::Block(all) => self.put_list(all.as_slice()),
            _ => {
                self.behind.push(Pending::One(s, self.list))?;
                self.list = &[];
                Ok(())
            }
        }
    }

    /// Puts a turn of a loop first: its body, and then its last part and the loop again.
    #[inline(always)]
    pub(crate) fn put_turn(
        &mut self,
        body: &'a TypedStatement,
        last: &'a TypedStatement,
        again: &'a TypedStatement,
    ) -> Result<(), AllocError>
        ensures { OnOk result (todos self.new
            ≡ before (statement_of body.now) (Next (statement_of last.now) (statement_of again.now) ∷ todos self.old)) }
    {
        self.behind.push(Pending::Turn(last, again, self.list))?;
        self.list = &[];
        self.put(body)
    }

    /// Takes what waits after a list that is done, which may be a list.
    fn take_behind(&mut self) -> Head<'a>
        requires { length self.old.list.now ≡ 0 }
        ensures same { todos self.old ≡ with_part result (todos self.new) }
        ensures less { load self.new + head_size result ≤ load self.old }
    {
        while let Some(t) = self.behind.pop() {
            match t {
                Pending::Turn(last, again, list) => {
                    self.list = list;
                    return Head::Turn(last, again);
                }
                Pending::One(s, list) => {
                    self.list = list;
                    return Head::Statement(s);
                }
                Pending::Rest(list) => {
                    if let Some((s, rest)) = list.split_first() {
                        self.list = rest;
                        return Head::Statement(s);
                    }
                }
            }
        }
        Head::Nothing
    }

    /// Takes a statement, which may be a list of them, or the end of a turn.
    #[inline(always)]
    fn take_one(&mut self) -> Head<'a>
        ensures same { todos self.old ≡ with_part result (todos self.new) }
        ensures less { load self.new + head_size result ≤ load self.old }
    {
        match self.list.split_first() {
            None => self.take_behind(),
            Some((s, rest)) => {
                self.list = rest;
                Head::Statement(s)
            }
        }
    }

    /// Takes what comes first.
    #[inline(always)]
    fn take_first(&mut self) -> Result<Head<'a>, AllocError>
        ensures { IfOk result (λ h. todos self.old ≡ with_head h (todos self.new)) }
    {
        loop {
            let head = self.take_one();
            match head {
                Head::Statement(s) => match s {
                    TypedStatement::Empty => {}
                    TypedStatement::Block(all) => self.put_list(all.as_slice())?,
                    _ => return Ok(head),
                },
                Head::Nothing | Head::Turn(_, _) => return Ok(head),
            }
        }
    }

    /// Goes past the end of the turn, as `break` does.
    fn leave_turn(&mut self)
        ensures { todos self.new ≡ past_turn (todos self.old) }
    {
        self.list = &[];
        while let Some(t) = self.behind.pop() {
            match t {
                Pending::Turn(_, _, list) => {
                    self.list = list;
                    return;
                }
                Pending::One(_, _) | Pending::Rest(_) => {}
            }
        }
    }

    /// Goes to the end of the turn, as `continue` does.
    fn to_turn(&mut self)
        ensures { todos self.new ≡ at_turn (todos self.old) }
    {
        self.list = &[];
        while let Some(t) = self.behind.pop() {
            match t {
                Pending::Turn(_, _, _) => {
                    self.behind.push_reserved(t);
                    return;
                }
                Pending::One(_, _) | Pending::Rest(_) => {}
            }
        }
    }

    /// Takes the first part of the next turn, after the end of one: a `while` has no last part, so that is the loop.
    #[inline(always)]
    fn take_turn(
        &mut self,
        last: &'a TypedStatement,
        again: &'a TypedStatement,
    ) -> Result<Head<'a>, AllocError>
        ensures { IfOk result (λ h. before (statement_of last.now) (before (statement_of again.now) (todos self.old))
            ≡ with_head h (todos self.new)) }
    {
        match (last, again) {
            (TypedStatement::Empty, TypedStatement::Loop(_, _, _)) => Ok(Head::Statement(again)),
            _ => {
                self.put(again)?;
                self.put(last)?;
                self.take_first()
            }
        }
    }

    /// Goes on to the next statement that takes a step, which is taken off the list. (The locals are seldom looked at, so that their slice
    /// isn't made here.)
    #[inline(always)]
    pub(crate) fn settle(&mut self, locals: &mut Vec<Option<u32>>) -> Result<Head<'a>, AllocError>
        ensures { IfOk result (λ h. next_point Going (places locals.old.items) (todos self.old)
            ≡ point_at (places locals.new.items) h (todos self.new)) }
    {
        loop {
            let head = self.take_first()?;
            match head {
                Head::Nothing => return Ok(head),
                Head::Turn(last, again) => {
                    let head = self.take_turn(last, again)?;
                    return Ok(head);
                }
                Head::Statement(s) => match s {
                    TypedStatement::Unset(number) => unset(locals, *number),
                    TypedStatement::Break => self.leave_turn(),
                    TypedStatement::Continue => self.to_turn(),
                    _ => return Ok(head),
                },
            }
        }
    }
}
