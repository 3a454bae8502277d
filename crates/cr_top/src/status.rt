//! How a call of the program ended.

ghost use Rattle.std.specs.Prelude.{◌≡◌};
ghost use Rattle.cr_top.specs.Codes.{code_of};

use cr_audit::AuditFault;
use cr_model::ProblemFault;
use cr_shard::JoinFault;
use cr_store::CheckFault;
use cr_trail::TrailFault;
use cr_words::WordsFault;

/// How a call of the program ended.
#[derive(Debug, Drop)]
pub enum Status {
    /// The book, the summary of a made problem, the trail, its last checkpoint, the shards of an input, these joined, the log
    /// of a whole search or the line of an audit that says yes were written whole.
    Finished,
    /// The words of the command line are not accepted: the first that is wrong.
    Words(WordsFault),
    /// After as many turns as were allowed, which are told, something was left, and a checkpoint was written whole.
    Stopped(u64),
    /// The input is no checkpoint, and no problem: the first check that does not hold.
    Problem(ProblemFault),
    /// The input begins as a checkpoint, and is none: the first check that does not hold.
    Checkpoint(CheckFault),
    /// A read of the source failed.
    ReadFault,
    /// A write to the sink failed.
    WriteFault,
    /// There was not enough memory.
    NoMemory,
    /// The source gave more than 2^40 bytes.
    TooLong,
    /// The input has no last block: it is not of blocks, or no block is whole.
    Trail(TrailFault),
    /// The input can't be joined: the first check of its blocks that does not hold.
    Join(JoinFault),
    /// The audit does not say yes: the first check of the log and the book that does not hold.
    Audit(AuditFault),
    /// A log was asked for, and the input begins as a checkpoint.
    NotProblem,
}

impl Status {
    /// The status with which the program ends.
    pub fn code(&self) -> u8
        ensures { result ≡ code_of self.now }
    {
        match self {
            Status::Finished => 0,
            Status::Words(_) => 2,
            Status::Stopped(_) => 3,
            Status::Problem(_) => 4,
            Status::Checkpoint(_) => 5,
            Status::ReadFault => 6,
            Status::WriteFault => 7,
            Status::NoMemory => 8,
            Status::TooLong => 9,
            Status::Trail(_) => 10,
            Status::Join(_) => 11,
            Status::Audit(_) => 12,
            Status::NotProblem => 13,
        }
    }
}
