//! What may happen on a board.

/// An event, by the number of the worker that it is of.
#[derive(Clone, Copy, Debug, PartialEq, Eq)]
pub enum Event {
    /// The worker asks for its next job.
    Next(u32),
    /// The worker asks for the job of a number.
    Claim(u32, u64),
    /// The worker explores what it holds, with its grant, and hands it in. Nothing where it holds nothing.
    Work(u32),
    /// The worker resigns. Nothing where there is no worker of this number.
    Resign(u32),
    /// All held jobs go back, and nobody has resigned.
    Recall,
}
