//! What a worker that hands in finished work is answered.

use cr_node::Done;

/// The answer to finished work that is handed in: the first that applies, but `NoMemory` may come in place of `In`.
/// Each refusal gives the work back.
#[derive(Drop)]
pub enum Handed {
    /// The worker does not hold the job of this number; it holds that one, if any.
    NotHeld(Done, Option<u64>),
    /// The work is of another problem than the board's.
    OtherProblem(Done),
    /// The work is on other nodes than those of the held job, which has this number.
    OtherJob(Done, u64),
    /// The work used more turns than were granted, which were so many.
    Over(Done, u64),
    /// The work is taken.
    In,
    /// No memory is left.
    NoMemory(Done),
}
