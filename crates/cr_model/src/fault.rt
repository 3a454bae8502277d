//! Why parts are no problem.

use thiserror::Error;

/// An item of `counts` or of `method_counts`, by its index from 0.
#[derive(Clone, Copy, Debug, PartialEq, Eq, Drop, Error)]
pub enum CountAt {
    #[error("count {0}")]
    Mark(u64),
    #[error("count {0} of leads")]
    Method(u64),
}

/// Why parts are no problem: the first check that does not hold, in the order of the variants. Indices are from 0.
#[derive(Clone, Copy, Debug, PartialEq, Eq, Drop, Error)]
pub enum PartFault {
    /// This letter is not `A` to `Z`, is an earlier one again, or is the ninth. With no letters it is 0.
    #[error("letter {0} is not A to Z, is an earlier one again, or is one too many")]
    Letters(u64),
    /// This lead has not 1 to 128 changes, all of the stage, a mark `a` to `z`, and the next step. With no leads it
    /// is 0, and where a method has no lead it is the number of leads.
    #[error("lead {0} is not the next step, or its changes are none, too many or of another stage")]
    Leads(u64),
    /// There are more than 24 leads: their number.
    #[error("{0} steps are too many")]
    Steps(u64),
    /// Not `1 <= min <= max <= 12,000`: both numbers.
    #[error("the lengths from {0} to {1} are no range from 1 to 12000")]
    Range(i64, i64),
    /// The greatest length over the shortest lead's, rounded down, where that is more than 1,024.
    #[error("touches of up to {0} leads are too long")]
    Deep(u64),
    /// The number of parts is not 1 to 64.
    #[error("{0} parts are not 1 to 64")]
    Parts(i64),
    /// This count is of a mark that no lead has or of a letter that no method has, has not
    /// `0 <= min <= max <= 12,000`, or is the seventeenth.
    #[error("{0} is of nothing that is rung, or its limits are no range from 0 to 12000")]
    Count(CountAt),
    /// This pattern names a bell above the stage, or one twice, has a second run or a wrong number of cells, has not
    /// `0 <= min <= max <= 12,000`, or is the thirty-third.
    #[error("pattern {0} does not fit the stage, or its limits are no range from 0 to 12000")]
    Pattern(u64),
    /// The limits on changes of method are not `0 <= min <= max <= 12,000`.
    #[error("the limits on changes of method are no range from 0 to 12000")]
    Com,
}
