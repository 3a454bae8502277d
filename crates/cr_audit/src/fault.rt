//! Why an audit does not say yes.

use cr_row::NoMemory;
use std::alloc::{AllocError, AllocFailed};
use thiserror::Error;

/// Why a log and a book are not right. Lines count from 1. The first line with a fault decides, and at one line the order
/// below.
#[derive(Clone, Copy, Debug, PartialEq, Eq, Drop, Error)]
pub enum AuditFault {
    /// The input is not three whole blocks: the place of the first byte that is wrong. `audit` never tells it.
    #[error("byte {0} is not that of three blocks")]
    Form(u64),
    /// The line has not the form of a line of the problem's log, or no line feed.
    #[error("line {0} is no line of a log")]
    Line(u64),
    /// The line's node is not the one that is due, no line is due, or the log ends where this line is due.
    #[error("line {0} is not that of the node that is due")]
    Node(u64),
    /// The line's verdict does not hold.
    #[error("the verdict of line {0} does not hold")]
    Verdict(u64),
    /// The log passed, and the book differs from the touches that it proves: the first byte that differs, from 0, or the
    /// shorter length.
    #[error("the book differs at byte {0}")]
    Book(u64),
    /// There was not enough memory.
    #[error("there is no memory")]
    NoMemory,
}

impl From<AllocError> for AuditFault {
    ghost use Rattle.std.specs.Prelude.{◌≡◌};
    ghost use Rattle.cr_audit.specs.declared.fault.AuditFault.TheVariants.{NoMemory};

    ghost from_gives = { λ _ e. e ≡ NoMemory };

    fn from(_refused: AllocError) -> AuditFault {
        AuditFault::NoMemory
    }
}

impl<T: Drop> From<AllocFailed<T>> for AuditFault {
    ghost use Rattle.std.specs.Prelude.{◌≡◌};
    ghost use Rattle.cr_audit.specs.declared.fault.AuditFault.TheVariants.{NoMemory};

    ghost from_gives = { λ _ e. e ≡ NoMemory };

    fn from(_refused: AllocFailed<T>) -> AuditFault {
        AuditFault::NoMemory
    }
}

impl From<NoMemory> for AuditFault {
    ghost use Rattle.std.specs.Prelude.{◌≡◌};
    ghost use Rattle.cr_audit.specs.declared.fault.AuditFault.TheVariants as fault;

    ghost from_gives = { λ _ e. e ≡ fault.NoMemory };

    fn from(_refused: NoMemory) -> AuditFault {
        AuditFault::NoMemory
    }
}
