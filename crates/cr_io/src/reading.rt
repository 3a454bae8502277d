//! Reading a source whole.

ghost use Rattle.std.specs.Prelude.{◌≡◌, ℕ, ◌+◌, ◌-◌, ◌<◌, ◌≤◌, length, IfOk, Err};
ghost use Rattle.std.specs.Io.{ReadsAtMost};
ghost use Rattle.std.specs.Io.KnownBytes.{IsAtEnd};
ghost use Rattle.cr_io.specs.Causes.{Rose, HasCause};
ghost use Rattle.cr_io.specs.Taken.{ReadTakes};
ghost use Rattle.cr_io.specs.Ends.{TakesWithin, ReadsAll, KeepsFaults};
ghost use Rattle.cr_io.specs.Turns.{TakesInTurns};

use crate::{Failed, Source, Steps};
use std::alloc::{AllocError, Global};
use std::marker::Brand;
use std::sync::ledger::{Blank, Ledger};
use thiserror::Error;

/// Why a source was not read whole.
#[derive(Debug, Drop, Clone, Copy, PartialEq, Eq, Error)]
pub enum ReadEnd {
    /// A read failed.
    #[error("a read failed")]
    ReadFault,
    /// The source gave more bytes than the limit.
    #[error("the input is too long")]
    TooLong,
    /// There was no memory for the bytes.
    #[error("there is no memory for the input")]
    NoMemory,
}

impl From<AllocError> for ReadEnd {
    ghost use Rattle.std.specs.Prelude.{◌≡◌};
    ghost use Rattle.cr_io.specs.declared.reading.ReadEnd.TheVariants.{NoMemory};

    ghost from_gives = { λ _ e. e ≡ NoMemory };

    fn from(_: AllocError) -> ReadEnd {
        ReadEnd::NoMemory
    }
}

/// All bytes of a source, if they are at most `limit`. `ReadFault` comes only where the source's
/// count of faults rose in this call, `TooLong` exactly where more than `limit` bytes were taken. On
/// every other end than `ReadFault` the count is as it was.
pub fn read_all<S: Source>(alloc: Global, source: &mut S, limit: u64) -> Result<Vec<u8>, ReadEnd>
    ensures taken { TakesWithin S.took source.old source.new limit result }
    ensures told { ReadsAll (S.left source.old) (S.left source.new) limit result }
    ensures fault { result ≡ Err ReadEnd.ReadFault → Rose (S.faults source.old) (S.faults source.new) }
    ensures later { S.faults source.old ≤ S.faults source.new }
    ensures same { KeepsFaults (S.faults source.old) (S.faults source.new) result }
{
    read_all_from::<S, Brand>(alloc, source, limit, Blank::new(1))
}

// The same with a counter over this ledger.
fn read_all_from<S: Source, L: Ledger>(
    alloc: Global,
    source: &mut S,
    limit: u64,
    blank: Blank,
) -> Result<Vec<u8>, ReadEnd>
    requires name { blank.name ≡ L.name }
    requires parts { blank.parts ≡ L.parts }
    requires some { 0 < blank.parts }
    ensures taken { TakesWithin S.took source.old source.new limit result }
    ensures told { ReadsAll (S.left source.old) (S.left source.new) limit result }
    ensures fault { result ≡ Err ReadEnd.ReadFault → Rose (S.faults source.old) (S.faults source.new) }
    ensures later { S.faults source.old ≤ S.faults source.new }
    ensures same { KeepsFaults (S.faults source.old) (S.faults source.new) result }
{
    let mut steps = Steps::<L>::new(blank);
    read_all_counted(alloc, source, limit, &mut steps)
}

/// As `read_all`, with a step for each turn, which is one read of at most 4,096 bytes.
pub fn read_all_counted<S: Source, L: Ledger>(
    alloc: Global,
    source: &mut S,
    limit: u64,
    steps: &mut Steps<L>,
) -> Result<Vec<u8>, ReadEnd>
    ensures taken { TakesWithin S.took source.old source.new limit result }
    ensures told { ReadsAll (S.left source.old) (S.left source.new) limit result }
    ensures fault { result ≡ Err ReadEnd.ReadFault → Rose (S.faults source.old) (S.faults source.new) }
    ensures later { S.faults source.old ≤ S.faults source.new }
    ensures same { KeepsFaults (S.faults source.old) (S.faults source.new) result }
    ensures some { steps.old < steps.new }
    ensures turns { steps.new ≤ steps.old + limit + 1 }
    ensures each { TakesInTurns S.took source.old source.new (steps.new - steps.old) result }
{
    let mut bytes = Vec::new(alloc);
    let mut buf = [0; 4096];
    loop {
        let count = match turn(source, &mut buf, steps) {
            Ok(count) => count,
            Err(Failed) => return Err(ReadEnd::ReadFault),
        };
        if count == 0 {
            return Ok(bytes);
        }
        if (bytes.len() + count) as u64 > limit {
            return Err(ReadEnd::TooLong);
        }
        bytes.extend_from_slice(&buf[..count])?;
    }
}

// One read, which is one step.
fn turn<S: Source, L: Ledger>(
    source: &mut S,
    buf: &mut [u8],
    steps: &mut Steps<L>,
) -> Result<usize, Failed>
    ensures bound { ReadsAtMost result buf.new }
    ensures bytes { ReadTakes S.took source.old source.new result buf.new }
    ensures ends { IfOk result (λ n. n ≡ 0 → 0 < length buf.new → IsAtEnd (S.left source.new)) }
    ensures cause { HasCause (S.faults source.old) (S.faults source.new) result }
    ensures step { steps.new ≡ steps.old + 1 }
{
    steps.tick();
    source.read(buf)
}
