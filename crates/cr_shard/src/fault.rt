//! Why blocks can't be joined.

use cr_row::NoMemory;
use cr_store::CheckFault;
use std::alloc::{AllocError, AllocFailed};
use thiserror::Error;

/// Why blocks can't be joined: the first check that does not hold, in the order of the variants, but for `NoMemory`,
/// which may come at any point. Bodies and bytes are counted from 0.
#[derive(Debug, Drop, Error)]
pub enum JoinFault {
    /// The text is not of whole blocks alone: the first byte that cannot be, or the text's length where it ends within
    /// a block.
    #[error("byte {0} is not that of a block")]
    Form(u64),
    /// The number of blocks, which is 0 or above 1,024.
    #[error("there are {0} blocks, and not 1 to 1024")]
    Blocks(u64),
    /// The first body that is no checkpoint, and why.
    #[error("body {0} is no checkpoint: {1}")]
    Check(u64, CheckFault),
    /// The first body whose problem's bytes are not those of the first body, and the first byte at which they differ,
    /// or the length of the shorter ones where these begin the others.
    #[error("body {0} has another problem, from its byte {1} on")]
    OtherProblem(u64, u64),
    /// Two bodies overlap: both found one touch, or a node of one is above a touch that the other found or begins a
    /// node of it. The second number is the least body that overlaps one before it, the first the least that it
    /// overlaps.
    #[error("bodies {0} and {1} overlap")]
    Overlap(u64, u64),
    /// There was not enough memory.
    #[error("there is no memory")]
    NoMemory,
}

impl From<AllocError> for JoinFault {
    ghost use Rattle.std.specs.Prelude.{◌≡◌};
    ghost use Rattle.cr_shard.specs.declared.fault.JoinFault.TheVariants as fault;

    ghost from_gives = { λ _ e. e ≡ fault.NoMemory };

    fn from(_refused: AllocError) -> JoinFault {
        JoinFault::NoMemory
    }
}

impl<T: Drop> From<AllocFailed<T>> for JoinFault {
    ghost use Rattle.std.specs.Prelude.{◌≡◌};
    ghost use Rattle.cr_shard.specs.declared.fault.JoinFault.TheVariants as fault;

    ghost from_gives = { λ _ e. e ≡ fault.NoMemory };

    fn from(_refused: AllocFailed<T>) -> JoinFault {
        JoinFault::NoMemory
    }
}

impl From<NoMemory> for JoinFault {
    ghost use Rattle.std.specs.Prelude.{◌≡◌};
    ghost use Rattle.cr_shard.specs.declared.fault.JoinFault.TheVariants as fault;

    ghost from_gives = { λ _ e. e ≡ fault.NoMemory };

    fn from(_refused: NoMemory) -> JoinFault {
        JoinFault::NoMemory
    }
}
