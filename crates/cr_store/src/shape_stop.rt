//! Why reading a shape stops.

use std::alloc::{AllocError, AllocFailed};

/// Why reading a shape stops.
#[derive(Clone, Copy, Drop)]
pub enum Stop {
    /// On the line on which that byte stands that has so many bytes from it to the end, the text goes wrong first.
    Wrong(usize),
    /// There are fewer bytes than the problem has.
    Short,
    /// There was not enough memory.
    NoMemory,
}

impl From<AllocError> for Stop {
    ghost use Rattle.std.specs.Prelude.{◌≡◌};
    ghost use Rattle.cr_store.specs.declared.shape_stop.Stop.TheVariants.{NoMemory};

    ghost from_gives = { λ _ e. e ≡ NoMemory };

    fn from(_refused: AllocError) -> Stop {
        Stop::NoMemory
    }
}

impl<T: Drop> From<AllocFailed<T>> for Stop {
    ghost use Rattle.std.specs.Prelude.{◌≡◌};
    ghost use Rattle.cr_store.specs.declared.shape_stop.Stop.TheVariants.{NoMemory};

    ghost from_gives = { λ _ e. e ≡ NoMemory };

    fn from(_refused: AllocFailed<T>) -> Stop {
        Stop::NoMemory
    }
}
