//! Why a worker gets no job, whatever stands in the lanes.

/// The first reason of these that holds.
#[derive(Clone, Copy)]
pub enum Refusal {
    Stranger,
    Holding(u64),
    Spent,
}
