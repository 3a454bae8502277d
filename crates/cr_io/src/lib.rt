//! The outside: sources of bytes and sinks for them, each with a count of its faults.
//!
//! What reads or writes takes a [`Source`] or a [`Sink`], so its contract speaks of any stream, and its tests use lists
//! in memory that fail where they are told to.
//!
//! - [`read_all`]: all bytes of a source, at most so many, or why not ([`ReadEnd`]). It asks again until the source is
//!   at its end.
//! - [`write_whole`], [`write_pieces`]: write a text, or texts one after another, to the end or to the first fault
//!   ([`WriteFault`]).
//! - [`StdSource`], [`StdSink`]: the streams of the process.
//! - [`MemSource`], [`MemSink`]: streams in memory, which fail at the calls that are listed.
//! - [`SureSource`], [`SureSink`]: streams in memory that never fail.
#![tactic(auto)]

ghost use Rattle.std.specs.Prelude.{◌≡◌, ℕ, ◌<◌, List, [], ◌++◌, Option, length, IfOk};
ghost use Rattle.std.specs.Io.{ReadsAtMost};
ghost use Rattle.std.specs.Io.KnownBytes.{Consumes, IsAtEnd};
ghost use Rattle.cr_io.specs.Causes.{HasCause};
ghost use Rattle.cr_io.specs.Taken.{ReadTakes};
ghost use Rattle.cr_io.specs.Grown.{WriteGrows, TakesSome, Shows};

mod adapters;
mod reading;
mod schedule;
mod step_counts;
mod stored;
mod supplied;
mod tally;
#[cfg(test)]
mod tests;
mod writing;

pub use adapters::{StdSink, StdSource};
pub use reading::{ReadEnd, read_all, read_all_counted};
pub use step_counts::Steps;
pub use stored::{MemSink, SureSink};
pub use supplied::{MemSource, SureSource};
use thiserror::Error;
pub use writing::{WriteFault, write_pieces, write_whole};

/// A call of the outside failed.
#[derive(Debug, Drop, Clone, Copy, PartialEq, Eq, Error)]
#[error("a call failed")]
pub struct Failed;

/// Where bytes are read from.
pub trait Source {
    /// The bytes that are left, where the source tells them.
    ghost left: { Self → Option (List ℕ) };

    /// From the first state to the second, these bytes were taken.
    ghost took: { Self → Self → List ℕ → Type 0 };

    /// How many calls failed.
    ghost faults: { Self → ℕ };

    /// Puts the next bytes into the front of `buf` and gives their number. It gives 0 for a buffer
    /// that is not empty only at the end. `Failed` comes only where the count of faults rose, and
    /// then nothing was taken; with a number the count is as it was.
    fn read(&mut self, buf: &mut [u8]) -> Result<usize, Failed>
        ensures bound { ReadsAtMost result buf.new }
        ensures bytes { ReadTakes took self.old self.new result buf.new }
        ensures ends { IfOk result (λ n. n ≡ 0 → 0 < length buf.new → IsAtEnd (left self.new)) }
        ensures cause { HasCause (faults self.old) (faults self.new) result };

    /// How many calls failed, as a number. So a count of faults is below 2^64.
    fn fault_count(&self) -> u64
        ensures { result ≡ faults self.now };

    /// From a state to itself, nothing was taken.
    ghost starts: { (a : Self) → took a a [] };

    /// What was taken in two parts is the one and then the other.
    ghost chains: { (a b c : Self) (x y : List ℕ) → took a b x → took b c y → took a c (x ++ y) };

    /// A source that told its bytes still tells them, and they were what was taken and what is left.
    ghost shows: { (a b : Self) (x : List ℕ) → took a b x → Consumes (left a) (left b) x };
}

/// Where bytes are written to.
pub trait Sink {
    /// The bytes written, where the sink tells them.
    ghost told: { Self → Option (List ℕ) };

    /// From the first state to the second, these bytes were appended.
    ghost grew: { Self → Self → List ℕ → Type 0 };

    /// How many calls failed.
    ghost faults: { Self → ℕ };

    /// Appends the first bytes of `piece` and gives their number, which is at least 1 unless the
    /// piece is empty. `Failed` comes only where the count of faults rose, and then nothing was
    /// appended; with a number the count is as it was.
    fn write(&mut self, piece: &[u8]) -> Result<usize, Failed>
        ensures bound { TakesSome result piece.now }
        ensures bytes { WriteGrows grew self.old self.new result piece.now }
        ensures cause { HasCause (faults self.old) (faults self.new) result };

    /// How many calls failed, as a number. So a count of faults is below 2^64.
    fn fault_count(&self) -> u64
        ensures { result ≡ faults self.now };

    /// From a state to itself, nothing was appended.
    ghost starts: { (a : Self) → grew a a [] };

    /// What was appended in two parts is the one and then the other.
    ghost chains: { (a b c : Self) (x y : List ℕ) → grew a b x → grew b c y → grew a c (x ++ y) };

    /// Where both states tell their bytes, the second's are the first's and what was appended.
    ghost shows: { (a b : Self) (x : List ℕ) → grew a b x → Shows (told a) (told b) x };
}
