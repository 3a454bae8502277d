//! Sources and sinks over the readers and writers of std.

ghost use Rattle.std.specs.Prelude.{◌≡◌, ◌<◌, ℕ, IfOk, length};
ghost use Rattle.std.specs.Io.{ReadsAtMost};
ghost use Rattle.std.specs.Io.KnownBytes.{IsAtEnd};
ghost use Rattle.cr_io.specs.Causes.{HasCause, CountsFaults};
ghost use Rattle.cr_io.specs.Taken.{ReadTakes};
ghost use Rattle.cr_io.specs.Grown.{TakesSome, WriteGrows};
ghost use Rattle.cr_io.specs.Tallies.{Gave, Took};
ghost use Rattle.cr_io.specs.Laws.{Gave-starts, Gave-chains, Took-starts, Took-chains, Took-shows};

use crate::tally::Tally;
use crate::{Failed, Sink, Source};
use std::io::{Read, Write};

/// A source over a reader. It tells what the reader tells, and counts the bytes that it gave.
#[derive(Drop)]
pub struct StdSource<R> {
    inner: R,
    tally: Tally,
}

impl<R: Read> StdSource<R> {
    /// A source over this reader, without a fault.
    pub fn new(reader: R) -> StdSource<R>
        ensures left { ⟦<StdSource<R> as Source>⟧.left result ≡ R.remaining reader }
        ensures faults { ⟦<StdSource<R> as Source>⟧.faults result ≡ 0 }
        ensures given { result.tally.bytes ≡ 0 }
    {
        StdSource {
            inner: reader,
            tally: Tally::new(),
        }
    }

    /// How many bytes it gave, up to a `u64`'s last value.
    pub fn given(&self) -> u64
        ensures { result ≡ self.now.tally.bytes }
    {
        self.tally.bytes
    }
}

impl<R: Read> Source for StdSource<R> {
    ghost left = { λ s. R.remaining s.inner };

    ghost took = { λ a b x. Gave (R.remaining a.inner) (R.remaining b.inner) a.tally.bytes b.tally.bytes x };

    ghost faults = { λ s. s.tally.faults };

    ghost starts = { λ a. Gave-starts (R.remaining a.inner) a.tally.bytes };

    ghost chains = { λ a b c x y. Gave-chains (R.remaining a.inner) (R.remaining b.inner) (R.remaining c.inner)
        a.tally.bytes b.tally.bytes c.tally.bytes x y };

    ghost shows = { λ a b x p. p.0 };

    /// One read of the reader. Each error counts as a fault, also that a read was interrupted.
    fn read(&mut self, buf: &mut [u8]) -> Result<usize, Failed>
        ensures bound { ReadsAtMost result buf.new }
        ensures bytes { ReadTakes ⟦<StdSource<R> as Source>⟧.took self.old self.new result buf.new }
        ensures ends { IfOk result (λ n. n ≡ 0 → 0 < length buf.new → IsAtEnd (R.remaining self.new.inner)) }
        ensures cause { HasCause self.old.tally.faults self.new.tally.faults result }
        ensures counted { CountsFaults self.old.tally.faults self.new.tally.faults result }
    {
        self.tally.counted(self.inner.read(buf), 0)
    }

    fn fault_count(&self) -> u64 {
        self.tally.faults
    }
}

/// A sink over a writer. It tells what the writer tells, and counts the bytes that it took.
#[derive(Drop)]
pub struct StdSink<W> {
    inner: W,
    tally: Tally,
}

impl<W: Write> StdSink<W> {
    /// A sink over this writer, without a fault.
    pub fn new(writer: W) -> StdSink<W>
        ensures told { ⟦<StdSink<W> as Sink>⟧.told result ≡ W.contents writer }
        ensures faults { ⟦<StdSink<W> as Sink>⟧.faults result ≡ 0 }
        ensures taken { result.tally.bytes ≡ 0 }
    {
        StdSink {
            inner: writer,
            tally: Tally::new(),
        }
    }

    /// How many bytes it took, up to a `u64`'s last value.
    pub fn taken(&self) -> u64
        ensures { result ≡ self.now.tally.bytes }
    {
        self.tally.bytes
    }
}

impl<W: Write> Sink for StdSink<W> {
    ghost told = { λ s. W.contents s.inner };

    ghost grew = { λ a b x. Took (W.contents a.inner) (W.contents b.inner) a.tally.bytes b.tally.bytes x };

    ghost faults = { λ s. s.tally.faults };

    ghost starts = { λ a. Took-starts (W.contents a.inner) a.tally.bytes };

    ghost chains = { λ a b c x y. Took-chains (W.contents a.inner) (W.contents b.inner) (W.contents c.inner)
        a.tally.bytes b.tally.bytes c.tally.bytes x y };

    ghost shows = { λ a b x p. Took-shows (W.contents a.inner) (W.contents b.inner) x p.0 };

    /// One write to the writer. Each error counts as a fault, and so does a write that takes nothing
    /// of a piece that is not empty.
    fn write(&mut self, piece: &[u8]) -> Result<usize, Failed>
        ensures bound { TakesSome result piece.now }
        ensures bytes { WriteGrows ⟦<StdSink<W> as Sink>⟧.grew self.old self.new result piece.now }
        ensures cause { HasCause self.old.tally.faults self.new.tally.faults result }
        ensures counted { CountsFaults self.old.tally.faults self.new.tally.faults result }
    {
        let least = piece.len().min(1);
        self.tally.counted(self.inner.write(piece), least)
    }

    fn fault_count(&self) -> u64 {
        self.tally.faults
    }
}
