//! The entries of a board's journal.

/// What happened to a job. Workers and lanes are numbered from 0.
#[derive(Clone, Copy, Debug, PartialEq, Eq)]
pub enum Entry {
    /// A worker took a job from a lane, to work on it for at most so many turns.
    Take {
        worker: u32,
        lane: u32,
        job: u64,
        grant: u64,
    },
    /// A worker handed in a job: the turns used, how many touches were found, and as how many jobs its rest was opened.
    Hand {
        worker: u32,
        job: u64,
        used: u64,
        touches: u64,
        opened: u64,
    },
    /// A job went back to its worker's lane.
    Back {
        worker: u32,
        job: u64,
    },
}
