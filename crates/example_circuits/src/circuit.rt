//! Circuits of gates.
use std::alloc::Global;

/// A circuit with one output: its last gate, and the circuits that go into it.
#[derive(Drop)]
pub enum Circuit {
    Level(bool),
    Input(u32),
    Not(Box<Circuit>),
    And(Box<Circuit>, Box<Circuit>),
    Or(Box<Circuit>, Box<Circuit>),
}

impl Circuit {
    /// Returns the inverse. None if memory is refused, as of the other two.
    pub fn inverse(alloc: Global, input: Circuit) -> Option<Circuit> {
        Some(Circuit::Not(Box::new(alloc, input).ok()?))
    }

    pub fn both(alloc: Global, first: Circuit, second: Circuit) -> Option<Circuit> {
        let first = Box::new(alloc, first).ok()?;
        Some(Circuit::And(first, Box::new(alloc, second).ok()?))
    }

    pub fn either(alloc: Global, first: Circuit, second: Circuit) -> Option<Circuit> {
        let first = Box::new(alloc, first).ok()?;
        Some(Circuit::Or(first, Box::new(alloc, second).ok()?))
    }
}
