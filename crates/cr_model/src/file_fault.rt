//! Why bytes are no problem file.

use crate::fault::CountAt;
use crate::notation::NotationFault;
use cr_row::NoMemory;
use std::alloc::{AllocError, AllocFailed};
use std::fmt;
use std::fmt::Write;
use std::marker::Model;
use thiserror::Error;

/// The path of a key, as `stage`, `query.min` or `method[0].letter`. Items are counted from 0. Contracts see its bytes.
#[derive(Debug, Drop)]
pub struct KeyPath {
    pub bytes: Vec<u8>,
}

impl Model for KeyPath {
    ghost use Rattle.std.specs.Prelude.{ℕ, List};

    ghost Value = { List ℕ };

    ghost view = { λ path. path.bytes.items };
}

/// Its text, where its bytes are one.
impl fmt::Display for KeyPath {
    fn fmt<W: fmt::Write>(&self, f: &mut fmt::Formatter<W>) -> fmt::Result {
        match std::str::from_utf8(&self.bytes) {
            Ok(text) => f.write_str(text),
            Err(_) => f.write_str("whose name is no text"),
        }
    }
}

/// The method or the call that has a notation, by its index from 0.
#[derive(Clone, Copy, Debug, PartialEq, Eq, Drop, Error)]
pub enum Whose {
    #[error("method {0}")]
    Method(u64),
    #[error("call {0}")]
    Call(u64),
}

/// Why bytes are no problem file: the first check that does not hold, in the order of the variants, but for
/// `NoMemory`, which may come at any point. Indices are from 0.
#[derive(Debug, Drop, Error)]
pub enum ProblemFault {
    /// The bytes are not read as a TOML table.
    #[error("this is no TOML")]
    NotToml,
    /// This key is missing, unknown or of the wrong kind, or this array has a wrong number of items.
    #[error("the key {0} is missing, unknown or of the wrong kind")]
    Key(KeyPath),
    /// The stage is not 3 to 16.
    #[error("the stage {0} is not 3 to 16")]
    Stage(i64),
    /// This method's letter is not one byte `A` to `Z`, or is an earlier method's.
    #[error("the letter of method {0} is not A to Z, or is an earlier one again")]
    Letter(u64),
    /// This notation is not place notation on the stage. Methods come before calls.
    #[error("the notation of {0}: {1}")]
    Notation(Whose, NotationFault),
    /// This call's `over` is not 0 to 128.
    #[error("the number of changes that call {0} replaces is not 0 to 128")]
    Over(u64),
    /// This call's mark is not one byte `a` to `z`, or is `p`.
    #[error("the mark of call {0} is not a to z, or is p")]
    Mark(u64),
    /// The call replaces more changes than the method has, or gives a lead of more than 128: the call, then the method.
    #[error("call {0} replaces more changes than method {1} has, or makes its lead too long")]
    CallLength(u64, u64),
    /// Two calls have one mark and a method in common: the first, then the second.
    #[error("the calls {0} and {1} have one mark and a method in common")]
    Clash(u64, u64),
    /// There are more than 24 leads: their number.
    #[error("{0} steps are too many")]
    Steps(u64),
    /// Not `1 <= min <= max <= 12,000`: both numbers.
    #[error("the lengths from {0} to {1} are no range from 1 to 12000")]
    Range(i64, i64),
    /// The greatest length over the shortest lead's, rounded down, where that is more than 1,024.
    #[error("touches of up to {0} leads are too long")]
    Deep(u64),
    /// The number of parts is not 1 to 64.
    #[error("{0} parts are not 1 to 64")]
    Parts(i64),
    /// This count is of a mark that no lead has or of a letter that no method has, or has not
    /// `0 <= min <= max <= 12,000`.
    #[error("{0} is of nothing that is rung, or its limits are no range from 0 to 12000")]
    Count(CountAt),
    /// This pattern has a byte that is no cell, names a bell above the stage, or one twice, has a second run or a
    /// wrong number of cells, or has not `0 <= min <= max <= 12,000`.
    #[error("pattern {0} does not fit the stage, or its limits are no range from 0 to 12000")]
    Pattern(u64),
    /// No memory was left.
    #[error("there is no memory")]
    NoMemory,
    /// The limits on changes of method are not `0 <= min <= max <= 12,000`.
    #[error("the limits on changes of method are no range from 0 to 12000")]
    Com,
}

impl From<AllocError> for ProblemFault {
    ghost use Rattle.std.specs.Prelude.{◌≡◌};
    ghost use Rattle.cr_model.specs.declared.file_fault.ProblemFault.TheVariants.{NoMemory};

    ghost from_gives = { λ _ e. e ≡ NoMemory };

    fn from(_refused: AllocError) -> ProblemFault {
        ProblemFault::NoMemory
    }
}

impl<T: Drop> From<AllocFailed<T>> for ProblemFault {
    ghost use Rattle.std.specs.Prelude.{◌≡◌};
    ghost use Rattle.cr_model.specs.declared.file_fault.ProblemFault.TheVariants.{NoMemory};

    ghost from_gives = { λ _ e. e ≡ NoMemory };

    fn from(_refused: AllocFailed<T>) -> ProblemFault {
        ProblemFault::NoMemory
    }
}

impl From<NoMemory> for ProblemFault {
    ghost use Rattle.std.specs.Prelude.{◌≡◌};
    ghost use Rattle.cr_model.specs.declared.file_fault.ProblemFault.TheVariants as fault;

    ghost from_gives = { λ _ e. e ≡ fault.NoMemory };

    fn from(_refused: NoMemory) -> ProblemFault {
        ProblemFault::NoMemory
    }
}
