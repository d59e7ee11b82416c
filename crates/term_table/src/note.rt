//! A note of what a pass has seen, for a pass of another thread.
use crate::view::View;
use atomic_table::Seat;
use std::marker::Model;

/// What a pass of a table had seen when the note was written, for another pass of that table. It may cross threads while both run. It has
/// no bytes.
#[derive(Drop)]
pub struct Note {
    pub(crate) seat: Seat<(), View>,
}

impl Model for Note {
    ghost use Rattle.term_table.specs.Passes.{NoteState};

    ghost Value = { NoteState };

    ghost use Rattle.term_table.specs.Noting.{note_state, IsNote};

    ghost view = { note_state };

    ghost invariant = { IsNote };
}
