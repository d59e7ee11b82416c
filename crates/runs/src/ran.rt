/// How a run ended within its bound.
#[derive(Clone, Copy, Debug, PartialEq, Eq)]
pub enum End {
    /// The program ended with this word.
    Done(u32),
    /// It did what has no meaning.
    Wrong,
    /// It would go on.
    More,
}

/// The end of a run, and the words that it wrote until then, the first one first.
#[derive(Drop)]
pub struct Ran {
    pub end: End,
    pub output: Vec<u32>,
}

/// How far a run went on.
#[derive(Clone, Copy)]
pub struct Advance<E> {
    /// How it ended; None where it would go on.
    pub end: Option<E>,
    /// How many steps or words of code ran, with the last one, at which it ended.
    pub ran: u64,
}
