//! Why bytes are no checkpoint.

use cr_model::ProblemFault;
use cr_row::NoMemory;
use std::alloc::{AllocError, AllocFailed};
use thiserror::Error;

/// Why bytes are no checkpoint: the first check that does not hold, in the order of the variants, but for `NoMemory`,
/// which may come at any point. Lines are counted from 1 over the whole file, the problem's bytes included.
#[derive(Debug, Drop, Error)]
pub enum CheckFault {
    /// The file has not the shape of a checkpoint: the first line that is not as it must be, or on which the next byte
    /// would stand. It is 2 where fewer bytes are left than line 2 says that the problem has.
    #[error("line {0} is not that of a checkpoint")]
    Form(u64),
    /// The problem's bytes are no problem file.
    #[error("the checkpoint's problem: {0}")]
    Problem(ProblemFault),
    /// The first line that is no touch's or no node's: not its calling, not its length, not equal parts, or not the
    /// steps that it shares with the node before.
    #[error("line {0} is not that of a touch or of a node of the problem")]
    Calling(u64),
    /// The first node that is longer than a part may be.
    #[error("the node on line {0} is longer than a part may be")]
    NodeLong(u64),
    /// The first found touch that is not kept: it is not true, does not meet the query, or has a lesser rotation that
    /// is wanted.
    #[error("the touch on line {0} is not one that the search keeps")]
    NotKept(u64),
    /// The first found touch that is not greater than the one before it, by length and then by calling.
    #[error("the touch on line {0} does not come after the one before it")]
    FoundOrder(u64),
    /// Two lines overlap: of two nodes one begins the other, or a node is above a found touch.
    #[error("lines {0} and {1} overlap")]
    Overlap(u64, u64),
    /// There was not enough memory.
    #[error("there is no memory")]
    NoMemory,
}

impl From<AllocError> for CheckFault {
    ghost use Rattle.std.specs.Prelude.{◌≡◌};
    ghost use Rattle.cr_store.specs.declared.fault.CheckFault.TheVariants as fault;

    ghost from_gives = { λ _ e. e ≡ fault.NoMemory };

    fn from(_refused: AllocError) -> CheckFault {
        CheckFault::NoMemory
    }
}

impl<T: Drop> From<AllocFailed<T>> for CheckFault {
    ghost use Rattle.std.specs.Prelude.{◌≡◌};
    ghost use Rattle.cr_store.specs.declared.fault.CheckFault.TheVariants as fault;

    ghost from_gives = { λ _ e. e ≡ fault.NoMemory };

    fn from(_refused: AllocFailed<T>) -> CheckFault {
        CheckFault::NoMemory
    }
}

impl From<NoMemory> for CheckFault {
    ghost use Rattle.std.specs.Prelude.{◌≡◌};
    ghost use Rattle.cr_store.specs.declared.fault.CheckFault.TheVariants as fault;

    ghost from_gives = { λ _ e. e ≡ fault.NoMemory };

    fn from(_refused: NoMemory) -> CheckFault {
        CheckFault::NoMemory
    }
}
