//! Why a text is no calling.

use cr_row::NoMemory;
use std::alloc::{AllocError, AllocFailed};
use thiserror::Error;

/// Why a text is no calling.
#[derive(Clone, Copy, Debug, PartialEq, Eq, Drop, Error)]
pub enum CallingFault {
    /// The text is not that of 1 to 1,024 steps: the place of the first byte that cannot be, from 0, or of
    /// the text's end.
    #[error("the byte at {0} cannot be in a calling's text, or the text ends there too early")]
    At(u64),
    /// There was not enough memory.
    #[error("there is no memory")]
    NoMemory,
}

impl From<AllocError> for CallingFault {
    ghost use Rattle.std.specs.Prelude.{◌≡◌};
    ghost use Rattle.cr_book.specs.declared.fault.CallingFault.TheVariants.{NoMemory};

    ghost from_gives = { λ _ e. e ≡ NoMemory };

    fn from(_refused: AllocError) -> CallingFault {
        CallingFault::NoMemory
    }
}

impl<T: Drop> From<AllocFailed<T>> for CallingFault {
    ghost use Rattle.std.specs.Prelude.{◌≡◌};
    ghost use Rattle.cr_book.specs.declared.fault.CallingFault.TheVariants.{NoMemory};

    ghost from_gives = { λ _ e. e ≡ NoMemory };

    fn from(_refused: AllocFailed<T>) -> CallingFault {
        CallingFault::NoMemory
    }
}

impl From<NoMemory> for CallingFault {
    ghost use Rattle.std.specs.Prelude.{◌≡◌};
    ghost use Rattle.cr_book.specs.declared.fault.CallingFault.TheVariants as fault;

    ghost from_gives = { λ _ e. e ≡ fault.NoMemory };

    fn from(_refused: NoMemory) -> CallingFault {
        CallingFault::NoMemory
    }
}
