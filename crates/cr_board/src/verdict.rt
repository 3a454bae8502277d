//! What finished work that is handed in deserves.

/// The first of these that holds.
#[derive(Clone, Copy)]
pub enum Verdict {
    NotHeld(Option<u64>),
    OtherProblem,
    OtherJob,
    Over(u64),
    Due,
}
