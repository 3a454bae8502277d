//! What a worker holds.

use crate::job::LaneJob;

/// A job that a worker holds, and how many turns it may use.
#[derive(Drop)]
pub struct Held {
    pub job: LaneJob,
    pub grant: u64,
}
