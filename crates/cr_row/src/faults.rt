//! What can be wrong with the places of a change.

use thiserror::Error;

/// The first place that is not as in a change.
#[derive(Debug, Drop, Clone, Copy, PartialEq, Eq, Error)]
pub enum PlaceFault {
    /// It exceeds the stage.
    #[error("place {0} is above the stage")]
    Above(u8),
    /// It does not exceed the place before it.
    #[error("place {0} does not come after the place before it")]
    Order(u8),
    /// An odd number of places stands between it and the one before. At the end it is the stage's next number.
    #[error("an odd number of places stands before place {0}")]
    Gap(u8),
}
