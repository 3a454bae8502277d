//! Why what is wished for was not done.

ghost use Rattle.std.specs.Prelude.{◌≡◌};
ghost use Rattle.cr_top.specs.Endings.{status_of};
ghost use Rattle.cr_top.specs.Refused.{audit_refusal, join_refusal, trail_result};

use crate::Status;
use cr_audit::AuditFault;
use cr_io::{ReadEnd, WriteFault};
use cr_model::ProblemFault;
use cr_row::NoMemory;
use cr_shard::JoinFault;
use cr_store::CheckFault;
use cr_trail::{TrailEnd, TrailFault};
use cr_words::WordsFault;

/// Why what is wished for was not done: for the words, the form of the input, the reading, the writing, or the memory.
#[derive(Debug, Drop)]
pub enum Refusal {
    Words(WordsFault),
    Problem(ProblemFault),
    Checkpoint(CheckFault),
    ReadFault,
    WriteFault,
    NoMemory,
    TooLong,
    Trail(TrailFault),
    Join(JoinFault),
    Audit(AuditFault),
    NotProblem,
}

impl From<NoMemory> for Refusal {
    ghost use Rattle.std.specs.Prelude.{◌≡◌};
    ghost use Rattle.cr_top.specs.declared.refusal.Refusal.TheVariants as refusal;

    ghost from_gives = { λ _ why. why ≡ refusal.NoMemory };

    fn from(_: NoMemory) -> Refusal {
        Refusal::NoMemory
    }
}

impl From<WriteFault> for Refusal {
    ghost use Rattle.std.specs.Prelude.{◌≡◌};
    ghost use Rattle.cr_top.specs.declared.refusal.Refusal.TheVariants as refusal;

    ghost from_gives = { λ _ why. why ≡ refusal.WriteFault };

    fn from(_: WriteFault) -> Refusal {
        Refusal::WriteFault
    }
}

impl From<TrailFault> for Refusal {
    ghost use Rattle.std.specs.Prelude.{◌≡◌};
    ghost use Rattle.cr_top.specs.declared.refusal.Refusal.TheVariants as refusal;

    ghost from_gives = { λ fault why. why ≡ refusal.Trail fault };

    fn from(fault: TrailFault) -> Refusal {
        Refusal::Trail(fault)
    }
}

impl From<ReadEnd> for Refusal {
    ghost use Rattle.std.specs.Prelude.{◌≡◌};
    ghost use Rattle.cr_top.specs.Refused.{refusal_of};

    ghost from_gives = { λ end why. why ≡ refusal_of end };

    fn from(end: ReadEnd) -> Refusal {
        match end {
            ReadEnd::ReadFault => Refusal::ReadFault,
            ReadEnd::TooLong => Refusal::TooLong,
            ReadEnd::NoMemory => Refusal::NoMemory,
        }
    }
}

/// The status of a call that wrote its text whole, after so many turns where it stopped, or that was refused.
pub fn status_for(outcome: Result<Option<u64>, Refusal>) -> Status
    ensures { result ≡ status_of outcome }
{
    match outcome {
        Ok(None) => Status::Finished,
        Ok(Some(turns)) => Status::Stopped(turns),
        Err(Refusal::Words(fault)) => Status::Words(fault),
        Err(Refusal::Problem(fault)) => Status::Problem(fault),
        Err(Refusal::Checkpoint(fault)) => Status::Checkpoint(fault),
        Err(Refusal::ReadFault) => Status::ReadFault,
        Err(Refusal::WriteFault) => Status::WriteFault,
        Err(Refusal::NoMemory) => Status::NoMemory,
        Err(Refusal::TooLong) => Status::TooLong,
        Err(Refusal::Trail(fault)) => Status::Trail(fault),
        Err(Refusal::Join(fault)) => Status::Join(fault),
        Err(Refusal::Audit(fault)) => Status::Audit(fault),
        Err(Refusal::NotProblem) => Status::NotProblem,
    }
}

/// The trail was written whole, or it was not for this reason.
pub fn result_for(end: TrailEnd) -> Result<Option<u64>, Refusal>
    ensures { result ≡ trail_result end }
{
    match end {
        TrailEnd::Done => Ok(None),
        TrailEnd::WriteFault => Err(Refusal::WriteFault),
        TrailEnd::NoMemory => Err(Refusal::NoMemory),
    }
}

/// The refusal of shards that were not joined for this reason.
pub fn refusal_for(fault: JoinFault) -> Refusal
    ensures { result ≡ join_refusal fault }
{
    match fault {
        JoinFault::NoMemory => Refusal::NoMemory,
        _ => Refusal::Join(fault),
    }
}

/// The refusal of an audit that does not say yes for this reason.
pub fn audit_refusal_for(fault: AuditFault) -> Refusal
    ensures { result ≡ audit_refusal fault }
{
    match fault {
        AuditFault::NoMemory => Refusal::NoMemory,
        _ => Refusal::Audit(fault),
    }
}
