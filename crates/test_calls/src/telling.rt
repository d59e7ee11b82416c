//! Tickets that cross threads while both run, each with a note that tells of it.
ghost use Rattle.std.specs.Prelude.{◌≡◌};
ghost use Rattle.sym_terms.specs.Labels.{label_coding};
ghost use Rattle.term_table.specs.Passes.{IsOf};
ghost use Rattle.term_table.specs.Terms.{HasSeenTerm};

use crossbeam_channel::{Receiver, Sender};
use std::alloc::Global;
use std::marker::{Brand, Model, PhantomData};
use std::process::Abort;
use std::sync::Wait;
use std::thread;
use std::thread::Threads;
use sym_terms::Label;
use term_table::{Note, Pass, TermTable, Ticket};

/// The table that tickets are of. Nothing runs it: a message's type names it, so that who receives the message knows the table.
trait Home {
    ghost use Rattle.term_table.specs.Passes.{TableState};

    ghost table: { TableState };
}

impl Home for Brand {
    ghost use Rattle.std.specs.Prelude.{[]};

    ghost table = { record {
      table = record { words = 0; slots = 0; views_name = 0; atom = 0; block = 0; offset = 0; slot_names = [] };
      workers = 0;
      nodes = 0;
      heads = 0;
    } };
}

/// A ticket of the table, and a note that tells of it.
#[derive(Drop)]
struct Told<H: Home> {
    ticket: Ticket,
    note: Note,
    home: PhantomData<H>,
}

impl<H: Home> Model for Told<H> {
    ghost use Rattle.std.specs.Prelude.{◌≡◌, ℕ};
    ghost use Rattle.sym_terms.specs.Labels.{label_coding};
    ghost use Rattle.term_table.specs.Passes.{NoteState, noted};
    ghost use Rattle.term_table.specs.Terms.{HasSeenTerm};

    ghost Value = { ℕ × NoteState };

    ghost view = { λ t. (t.ticket, t.note) };

    ghost invariant = { λ t. (t.note.table ≡ H.table.table) × HasSeenTerm label_coding (noted t.note) t.ticket };
}

fn tell<H: Home>(table: &TermTable, pass: &mut Pass, ticket: Ticket) -> Told<H>
    requires home { table.now ≡ H.table }
    requires table { IsOf table.now pass.old }
    requires seen { HasSeenTerm label_coding pass.old ticket }
    ensures { pass.new ≡ pass.old }
{
    let note = table.note(pass);
    Told {
        ticket,
        note,
        home: PhantomData,
    }
}

/// Interns the constants below `count`, and sends the ticket of each.
fn tell_constants<H: Home>(
    rt: &impl Wait,
    table: &TermTable,
    mut pass: Pass,
    count: u32,
    to: Sender<Told<H>>,
) -> Pass
    requires home { table.now ≡ H.table }
    requires table { IsOf table.now pass }
    ensures { IsOf table.now result }
{
    for n in 0..count {
        let Ok(made) = table.intern(&mut pass, Label::Const(n), &[]) else {
            return pass;
        };
        let told = tell::<H>(table, &mut pass, made.ticket);
        if to.send(rt, told).is_err() {
            return pass;
        }
    }
    pass
}

/// Reports whether what was told is the constant `n`, which the pass then finds under the same ticket.
#[tactic(auto, using(term_table::proofs::TermCallers::learns_seen_term))]
fn is_constant<H: Home>(table: &TermTable, pass: &mut Pass, told: Told<H>, n: u32) -> bool
    requires home { table.now ≡ H.table }
    requires table { IsOf table.now pass.old }
    ensures { IsOf table.now pass.new }
{
    let Told {
        ticket,
        note,
        home: _,
    } = told;
    table.learn(pass, note);
    let node = table.read::<Label>(pass, ticket);
    let found = table.find(pass, Label::Const(n), &[]);
    node.label == Label::Const(n) && node.children.is_empty() && found.ticket == Some(ticket)
}

/// Reports whether the constants below `count` come, each in its turn.
fn hear_constants<H: Home>(
    rt: &impl Wait,
    table: &TermTable,
    mut pass: Pass,
    count: u32,
    from: Receiver<Told<H>>,
) -> (Pass, bool)
    requires home { table.now ≡ H.table }
    requires table { IsOf table.now pass }
    ensures { IsOf table.now result.0 }
{
    let mut all = true;
    for n in 0..count {
        let Ok(told) = from.recv(rt) else {
            return (pass, false);
        };
        if !is_constant::<H>(table, &mut pass, told, n) {
            all = false;
        }
    }
    (pass, all)
}

/// Reports whether a thousand tickets come, which one thread sends while the other reads them.
fn relay<H: Home + Send>(
    rt: &(impl Abort + Threads + Wait + Sync),
    alloc: Global,
    table: &TermTable,
    first: Pass,
    second: Pass,
) -> bool
    requires home { table.now ≡ H.table }
    requires first { IsOf table.now first }
    requires second { IsOf table.now second }
{
    let (to, from) = crossbeam_channel::bounded::<Told<H>, Global>(alloc, 16).expect(
        rt,
        "a channel",
    );
    let (first, (second, all)) = thread::join(
        rt,
        move || tell_constants::<H>(rt, table, first, 1000, to),
        move || hear_constants::<H>(rt, table, second, 1000, from),
    );
    all && first.linked() == 1000 && second.linked() == 0
}

#[test]
fn a_thousand_tickets_are_told(rt: HostRuntime) {
    let (table, first, second) = TermTable::open_two(rt.alloc(), 1000, 64).expect(&rt, "a table");
    assert!(rt; relay::<Brand>(&rt, rt.alloc(), &table, first, second));
}
