//! Why numbering stops.

use cr_row::NoMemory;
use std::alloc::{AllocError, AllocFailed};

/// Why a problem gets no numbers.
#[derive(Debug, Drop, Clone, Copy, PartialEq, Eq)]
pub enum Stopped {
    /// No memory is left.
    NoMemory,
    /// There are more heads or rows than are numbered.
    TooMany,
}

impl From<NoMemory> for Stopped {
    fn from(_refused: NoMemory) -> Stopped {
        Stopped::NoMemory
    }
}

impl From<AllocError> for Stopped {
    fn from(_refused: AllocError) -> Stopped {
        Stopped::NoMemory
    }
}

impl<T: Drop> From<AllocFailed<T>> for Stopped {
    fn from(_refused: AllocFailed<T>) -> Stopped {
        Stopped::NoMemory
    }
}
