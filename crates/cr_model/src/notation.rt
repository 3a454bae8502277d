//! Why a text is no place notation.

ghost use Rattle.std.specs.Prelude.{◌≡◌};
ghost use Rattle.cr_model.specs.declared.notation.NotationFault.TheVariants.{NoMemory};

use std::alloc::{AllocError, AllocFailed};
use thiserror::Error;

/// The first fault of a text, and the place of the byte at which it comes, counted from 0.
#[derive(Debug, Drop, PartialEq, Eq, Clone, Copy, Error)]
pub enum NotationFault {
    /// A byte that is no blank, cross, dot, comma or place symbol.
    #[error("byte {0} is no symbol of place notation")]
    Symbol(u64),
    /// A place symbol above the stage.
    #[error("the place at byte {0} is above the stage")]
    Above(u64),
    /// A place symbol not above the one before it in its group.
    #[error("the place at byte {0} does not come after the place before it")]
    Order(u64),
    /// A place symbol with an odd number of places between it and the one before it in its group.
    #[error("an odd number of places stands before the place at byte {0}")]
    Gap(u64),
    /// A cross on an odd stage.
    #[error("the cross at byte {0} is on an odd stage")]
    CrossOnOdd(u64),
    /// A dot at the start of a block, after a dot, or before a comma or the end.
    #[error("the dot at byte {0} parts nothing")]
    Dot(u64),
    /// A comma or the end, where the block has no item. At the end it is the text's length.
    #[error("the block that ends at byte {0} is empty")]
    EmptyBlock(u64),
    /// A second comma.
    #[error("the comma at byte {0} is a second one")]
    SecondComma(u64),
    /// The end of a text of more than 128 changes: the text's length.
    #[error("there are more than 128 changes in {0} bytes")]
    Long(u64),
    /// No memory was left.
    #[error("there is no memory")]
    NoMemory,
}

impl From<AllocError> for NotationFault {
    ghost from_gives = { λ _ e. e ≡ NoMemory };

    fn from(_refused: AllocError) -> NotationFault {
        NotationFault::NoMemory
    }
}

impl<T: Drop> From<AllocFailed<T>> for NotationFault {
    ghost from_gives = { λ _ e. e ≡ NoMemory };

    fn from(_refused: AllocFailed<T>) -> NotationFault {
        NotationFault::NoMemory
    }
}
