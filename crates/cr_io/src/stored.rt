//! Sinks in memory.

ghost use Rattle.std.specs.Prelude.{◌≡◌, ◌≤◌, List, ℕ, [], Some, None, Option, IfOk, IsOk, MatchOption, length, min};
ghost use Rattle.cr_io.specs.Causes.{HasCause};
ghost use Rattle.cr_io.specs.Grown.{Grows, TakesSome, WriteGrows};
ghost use Rattle.cr_io.specs.Calls.{IsOneCall, fresh_calls};
ghost use Rattle.cr_io.specs.Laws.{Grows-starts, Grows-chains, Grows-shows};

use crate::schedule::Schedule;
use crate::{Failed, Sink};
use std::alloc::Global;
use std::marker::Model;

/// A sink in memory that never fails. From a write that finds no memory on it tells nothing.
#[derive(Drop)]
pub struct SureSink {
    bytes: Vec<u8>,
    is_lost: bool,
}

impl Model for SureSink {
    ghost use Rattle.std.specs.Prelude.{List, ℕ, Option, Some, None, if◌then◌else◌};

    ghost Value = { Option (List ℕ) };

    ghost view = { λ s. (if s.is_lost then None else Some s.bytes.items) };
}

impl SureSink {
    /// Nothing is written yet.
    pub fn new(alloc: Global) -> SureSink
        ensures { result ≡ Some [] }
    {
        SureSink {
            bytes: Vec::new(alloc),
            is_lost: false,
        }
    }

    /// The bytes written, or `None` where a write found no memory.
    pub fn bytes(&self) -> Option<&[u8]>
        ensures { MatchOption result (self.now ≡ None) (λ bytes. self.now ≡ Some bytes.now) }
    {
        if self.is_lost {
            None
        } else {
            Some(self.bytes.as_slice())
        }
    }
}

impl Sink for SureSink {
    ghost told = { λ s. s };

    ghost grew = { Grows };

    ghost faults = { λ _. 0 };

    ghost starts = { Grows-starts };

    ghost chains = { Grows-chains };

    ghost shows = { Grows-shows };

    /// Takes the whole piece.
    fn write(&mut self, piece: &[u8]) -> Result<usize, Failed>
        ensures bound { TakesSome result piece.now }
        ensures bytes { WriteGrows Grows self.old self.new result piece.now }
        ensures sure { IsOk result }
        ensures count { IfOk result (λ n. n ≡ length piece.now) }
    {
        if !self.is_lost && self.bytes.extend_from_slice(piece).is_err() {
            self.is_lost = true;
        }
        Ok(piece.len())
    }

    fn fault_count(&self) -> u64 {
        0
    }
}

/// A sink in memory that fails at the calls named, and takes at most so many bytes at each. From a
/// write that finds no memory on it tells nothing.
#[derive(Drop)]
pub struct MemSink {
    sink: SureSink,
    most: u64,
    schedule: Schedule,
}

impl Model for MemSink {
    ghost use Rattle.std.specs.Prelude.{◌≤◌};
    ghost use Rattle.cr_io.specs.Stores.{Store};

    ghost Value = { Store };

    ghost view = { λ s. record { told = s.sink; most = s.most; calls = s.schedule } };

    ghost invariant = { λ s. 1 ≤ s.most };
}

impl MemSink {
    /// Nothing is written yet. The calls whose numbers, from 1, are in `fail` fail, and no call takes
    /// more than `most` bytes.
    pub fn new(alloc: Global, fail: Vec<u64>, most: u64) -> MemSink
        requires { 1 ≤ most }
        ensures { result ≡ record { told = Some []; most = most; calls = fresh_calls fail.items } }
    {
        MemSink {
            sink: SureSink::new(alloc),
            most,
            schedule: Schedule::new(fail),
        }
    }

    /// The bytes written, or `None` where a write found no memory.
    pub fn bytes(&self) -> Option<&[u8]>
        ensures { MatchOption result (self.now.told ≡ None) (λ bytes. self.now.told ≡ Some bytes.now) }
    {
        self.sink.bytes()
    }
}

impl Sink for MemSink {
    ghost told = { λ s. s.told };

    ghost grew = { λ a b x. Grows a.told b.told x };

    ghost faults = { λ s. s.calls.faults };

    ghost starts = { λ a. Grows-starts a.told };

    ghost chains = { λ a b c x y. Grows-chains a.told b.told c.told x y };

    ghost shows = { λ a b x. Grows-shows a.told b.told x };

    /// Takes as many bytes as the lesser of `most` and the piece's length.
    fn write(&mut self, piece: &[u8]) -> Result<usize, Failed>
        ensures bound { TakesSome result piece.now }
        ensures bytes { WriteGrows Grows self.old.told self.new.told result piece.now }
        ensures cause { HasCause self.old.calls.faults self.new.calls.faults result }
        ensures call { IsOneCall self.old.calls self.new.calls result }
        ensures count { IfOk result (λ n. n ≡ min self.old.most (length piece.now)) }
        ensures most { self.new.most ≡ self.old.most }
    {
        self.schedule.call()?;
        let room = self.most.min(piece.len() as u64) as usize;
        self.sink.write(&piece[..room])
    }

    fn fault_count(&self) -> u64 {
        self.schedule.faults()
    }
}
