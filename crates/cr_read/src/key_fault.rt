//! Why the keys of a file are not right.

use cr_model::KeyPath;
use std::alloc::{AllocError, AllocFailed};

/// The first key at fault, or want of memory.
#[derive(Drop)]
pub enum KeyFault {
    At(KeyPath),
    NoMemory,
}

impl From<AllocError> for KeyFault {
    ghost use Rattle.std.specs.Prelude.{◌≡◌};
    ghost use Rattle.cr_read.specs.declared.key_fault.KeyFault.TheVariants.{NoMemory};

    ghost from_gives = { λ _ e. e ≡ NoMemory };

    fn from(_refused: AllocError) -> KeyFault {
        KeyFault::NoMemory
    }
}

impl<T: Drop> From<AllocFailed<T>> for KeyFault {
    ghost use Rattle.std.specs.Prelude.{◌≡◌};
    ghost use Rattle.cr_read.specs.declared.key_fault.KeyFault.TheVariants.{NoMemory};

    ghost from_gives = { λ _ e. e ≡ NoMemory };

    fn from(_refused: AllocFailed<T>) -> KeyFault {
        KeyFault::NoMemory
    }
}
