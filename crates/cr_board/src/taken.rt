//! What a worker that asks for a job is answered.

use crate::job::Ticket;

/// The answer to a worker that asks for its next job: the first that applies.
#[derive(Drop)]
pub enum Taken {
    /// There is no worker of this number, or it resigned.
    Stranger,
    /// The worker holds the job of this number.
    Holding(u64),
    /// There is a budget, and all its turns are spent or granted.
    Spent,
    /// The last job of the worker's own lane, else the first job of the next lane that has one, counted upwards from
    /// the worker's number and round.
    Job(Ticket),
    /// No lane has a job, and this is the least other worker that holds one.
    Wait(u32),
    /// No lane has a job, and no worker holds one.
    Empty,
}

/// The answer to a worker that asks for the job of a number: the first that applies.
#[derive(Drop)]
pub enum Claimed {
    /// There is no worker of this number, or it resigned.
    Stranger,
    /// The worker holds the job of this number.
    Holding(u64),
    /// There is a budget, and all its turns are spent or granted.
    Spent,
    /// No lane has a job of the number that was asked for.
    Stale,
    /// The job that was asked for.
    Job(Ticket),
}
