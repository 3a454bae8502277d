//! What the words wish for.

/// What is to be done.
#[derive(Clone, Copy, Debug, PartialEq, Eq)]
pub enum Mode {
    /// Read an input from the source and search it.
    Search,
    /// Read nothing, and search the problem that is made of this number.
    Make(u32),
    /// Read an input from the source and search it, and write a checkpoint at the start, after each so many turns, 1 to
    /// 2^63 - 1, and at the end.
    Trail(u64),
    /// Read what such a search wrote, and write its last whole checkpoint.
    Last,
    /// Read an input from the source, and write it as so many checkpoints, 1 to 1,024, that can be searched apart.
    Cut(u32),
    /// Read such checkpoints, and write them as one.
    Join,
    /// Read a problem from the source and search it, and write the problem, its book and a log of the whole search.
    Log,
    /// Read what such a search wrote, and tell whether the log proves the book.
    Audit,
}

/// What the words wish for.
#[derive(Clone, Copy, Debug, PartialEq, Eq)]
pub struct Wish {
    /// How many workers search: 1 to 64.
    pub workers: u32,
    /// After how many turns the search stops, if it is to stop before its end: at most 2^63 - 1.
    pub turns: Option<u64>,
    pub mode: Mode,
}
