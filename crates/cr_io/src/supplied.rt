//! Sources in memory.

ghost use Rattle.std.specs.Prelude.{◌≡◌, ◌<◌, ◌≤◌, ◌++◌, List, ℕ, Some, IfOk, IsOk, length, min, take, drop};
ghost use Rattle.std.specs.Io.{ReadsAtMost};
ghost use Rattle.std.specs.Io.KnownBytes.{Consumes, ReadConsumes};
ghost use Rattle.cr_io.specs.Causes.{HasCause};
ghost use Rattle.cr_io.specs.Calls.{IsOneCall, fresh_calls};
ghost use Rattle.cr_io.specs.Laws.{Consumes-starts, Consumes-chains};

use crate::schedule::Schedule;
use crate::{Failed, Source};
use std::marker::Model;

/// A source over bytes in memory that never fails.
#[derive(Drop)]
pub struct SureSource {
    bytes: Vec<u8>,
    next: usize,
}

impl Model for SureSource {
    ghost use Rattle.std.specs.Prelude.{List, ℕ, ◌≤◌, drop, vec_len};

    ghost Value = { List ℕ };

    ghost view = { λ s. drop s.next s.bytes.items };

    ghost invariant = { λ s. s.next ≤ vec_len s.bytes };
}

impl SureSource {
    /// All these bytes are left.
    pub fn new(bytes: Vec<u8>) -> SureSource
        ensures { result ≡ bytes.items }
    {
        SureSource { bytes, next: 0 }
    }
}

impl Source for SureSource {
    ghost left = { λ s. Some s };

    ghost took = { λ a b x. Consumes (Some a) (Some b) x };

    ghost faults = { λ _. 0 };

    ghost starts = { λ a. Consumes-starts (Some a) };

    ghost chains = { λ a b c x y. Consumes-chains (Some a) (Some b) (Some c) x y };

    ghost shows = { λ a b x p. p };

    /// Gives as many bytes as the lesser of the buffer's length and the number of bytes left.
    fn read(&mut self, buf: &mut [u8]) -> Result<usize, Failed>
        ensures bound { ReadsAtMost result buf.new }
        ensures bytes { ReadConsumes (Some self.old) (Some self.new) result buf.new }
        ensures sure { IsOk result }
        ensures count { IfOk result (λ n. n ≡ min (length buf.new) (length self.old)) }
    {
        let count = copy_front(&self.bytes[self.next..], buf);
        self.next += count;
        Ok(count)
    }

    fn fault_count(&self) -> u64 {
        0
    }
}

// Copies as many bytes as fit to the front of a buffer, and gives their number.
fn copy_front(from: &[u8], to: &mut [u8]) -> usize
    ensures count { result ≡ min (length from.now) (length to.old) }
    ensures copied { to.new ≡ take result from.now ++ drop result to.old }
{
    let count = from.len().min(to.len());
    to[..count].copy_from_slice(&from[..count]);
    count
}

/// A source over bytes in memory that fails at the calls named, and gives at most so many at each.
#[derive(Drop)]
pub struct MemSource {
    source: SureSource,
    most: u64,
    schedule: Schedule,
}

impl Model for MemSource {
    ghost use Rattle.std.specs.Prelude.{◌≤◌};
    ghost use Rattle.cr_io.specs.Stores.{Supply};

    ghost Value = { Supply };

    ghost view = { λ s. record { left = s.source; most = s.most; calls = s.schedule } };

    ghost invariant = { λ s. 1 ≤ s.most };
}

impl MemSource {
    /// All these bytes are left. The calls whose numbers, from 1, are in `fail` fail, and no call
    /// gives more than `most` bytes.
    pub fn new(bytes: Vec<u8>, fail: Vec<u64>, most: u64) -> MemSource
        requires { 1 ≤ most }
        ensures { result ≡ record { left = bytes.items; most = most; calls = fresh_calls fail.items } }
    {
        MemSource {
            source: SureSource::new(bytes),
            most,
            schedule: Schedule::new(fail),
        }
    }
}

impl Source for MemSource {
    ghost left = { λ s. Some s.left };

    ghost took = { λ a b x. Consumes (Some a.left) (Some b.left) x };

    ghost faults = { λ s. s.calls.faults };

    ghost starts = { λ a. Consumes-starts (Some a.left) };

    ghost chains = { λ a b c x y. Consumes-chains (Some a.left) (Some b.left) (Some c.left) x y };

    ghost shows = { λ a b x p. p };

    /// Gives as many bytes as the least of `most`, the buffer's length and the number of bytes left.
    fn read(&mut self, buf: &mut [u8]) -> Result<usize, Failed>
        ensures bound { ReadsAtMost result buf.new }
        ensures bytes { ReadConsumes (Some self.old.left) (Some self.new.left) result buf.new }
        ensures cause { HasCause self.old.calls.faults self.new.calls.faults result }
        ensures call { IsOneCall self.old.calls self.new.calls result }
        ensures count { IfOk result
            (λ n. n ≡ min self.old.most (min (length buf.new) (length self.old.left))) }
        ensures most { self.new.most ≡ self.old.most }
    {
        self.schedule.call()?;
        let room = self.most.min(buf.len() as u64) as usize;
        self.source.read(&mut buf[..room])
    }

    fn fault_count(&self) -> u64 {
        self.schedule.faults()
    }
}
