//! What a pass of a deque knows. The program makes no value of it.
use std::collections::LinkedList;

/// What a pass of a deque knows. The program makes no value of it.
pub struct View {
    /// It may put tasks on the deque.
    pub puts: bool,
    /// What was put on the deque, as far as this pass knows: all of it where it may put.
    pub put: LinkedList<usize>,
    /// What this pass took.
    pub taken: LinkedList<usize>,
}
