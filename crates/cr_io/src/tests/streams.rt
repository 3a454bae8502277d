//! Streams of std that count their calls: each call of an adapter asks its stream once, and hands on what that answers.

ghost use Rattle.std.specs.Prelude.{◌≤◌, IfOk};

use super::holds;
use crate::{Failed, Sink, Source, StdSink, StdSource, WriteFault, write_whole};
use std::io::{self, ErrorKind, Read, Write};
use std::test::Fail;

// How one call differs from the others: by an error, or by doing nothing.
const WAYS: &[Option<ErrorKind>] = &[
    Some(ErrorKind::Interrupted),
    Some(ErrorKind::WouldBlock),
    Some(ErrorKind::Other),
    None,
];

// How many bytes are asked for or given, and how many a stream gives or takes at most.
const LENGTHS: &[(usize, usize)] = &[
    (0, 20_000),
    (1, 20_000),
    (4_096, 20_000),
    (4_097, 20_000),
    (10_000, 20_000),
    (4_096, 1_000),
    (10_000, 5_000),
];

// A stream of sevens that counts its calls. The call of one number, from 1, goes another way than the others.
#[derive(Drop)]
struct Counting {
    calls: u64,
    most: usize,
    other_at: u64,
    way: Option<ErrorKind>,
}

impl Counting {
    fn next(&mut self, length: usize) -> io::Result<usize>
        ensures { IfOk result (λ n. n ≤ length) }
    {
        self.calls = self.calls.saturating_add(1);
        if self.calls != self.other_at {
            return Ok(self.most.min(length));
        }
        match self.way {
            Some(kind) => Err(io::Error::from(kind)),
            None => Ok(0),
        }
    }
}

impl Read for Counting {
    fn read(&mut self, buf: &mut [u8]) -> io::Result<usize> {
        let count = self.next(buf.len())?;
        buf[..count].fill(7);
        Ok(count)
    }
}

impl Write for Counting {
    fn write(&mut self, piece: &[u8]) -> io::Result<usize> {
        self.next(piece.len())
    }

    fn flush(&mut self) -> io::Result<()> {
        Ok(())
    }
}

#[test]
fn a_stream_is_asked_once_a_call(_: HostRuntime) -> Result<(), Fail> {
    for &(length, most) in LENGTHS {
        for &way in WAYS {
            for calls in 1..4 {
                for other_at in 0..calls + 1 {
                    reads_so_often(length, most, way, other_at, calls)?;
                    writes_so_often(length, most, way, other_at, calls)?;
                }
            }
        }
    }
    Ok(())
}

// Reads so often: the last answer, the faults and the bytes are what the reader answered, which was asked as often.
fn reads_so_often(
    length: usize,
    most: usize,
    way: Option<ErrorKind>,
    other_at: u64,
    calls: u64,
) -> Result<(), Fail> {
    let mut buf = [0; 10_000];
    let mut reader = Counting {
        calls: 0,
        most,
        other_at,
        way,
    };
    let mut source = StdSource::new(&mut reader);
    let mut last = Ok(0);
    for _ in 0..calls {
        last = source.read(&mut buf[..length.min(10_000)]);
    }
    let faults = source.fault_count();
    let given = source.given();
    drop(source);
    let count = most.min(length);
    let other = if way.is_some() { Err(Failed) } else { Ok(0) };
    holds("asked once a call", reader.calls == calls)?;
    holds(
        "the reader's answer",
        last == if other_at == calls { other } else { Ok(count) },
    )?;
    holds(
        "an error is a fault",
        faults == u64::from(other_at > 0 && way.is_some()),
    )?;
    holds("its bytes", given == bytes_of(count, other_at, calls))?;
    holds(
        "its sevens",
        last != Ok(count) || buf[..count.min(10_000)].iter().all(|byte| *byte == 7),
    )
}

// Writes so often: the last answer, the faults and the bytes are what the writer answered, which was asked as often.
fn writes_so_often(
    length: usize,
    most: usize,
    way: Option<ErrorKind>,
    other_at: u64,
    calls: u64,
) -> Result<(), Fail> {
    let piece = [7; 10_000];
    let mut writer = Counting {
        calls: 0,
        most,
        other_at,
        way,
    };
    let mut sink = StdSink::new(&mut writer);
    let mut last = Ok(0);
    for _ in 0..calls {
        last = sink.write(&piece[..length.min(10_000)]);
    }
    let faults = sink.fault_count();
    let taken = sink.taken();
    drop(sink);
    let count = most.min(length);
    let is_fault = way.is_some() || length > 0;
    let other = if is_fault { Err(Failed) } else { Ok(0) };
    holds("asked once a call", writer.calls == calls)?;
    holds(
        "the writer's answer",
        last == if other_at == calls { other } else { Ok(count) },
    )?;
    holds(
        "an error is a fault, and so is nothing",
        faults == u64::from(other_at > 0 && is_fault),
    )?;
    holds("its bytes", taken == bytes_of(count, other_at, calls))
}

// The bytes of all calls but the one that goes another way, if there is one.
fn bytes_of(count: usize, other_at: u64, calls: u64) -> u64 {
    let others = calls.saturating_sub(u64::from(other_at > 0));
    others.saturating_mul(count as u64)
}

#[test]
fn a_writer_that_is_full(_: HostRuntime) -> Result<(), Fail> {
    let mut room = [0; 2];
    let mut sink = StdSink::new(room.as_mut_slice());
    let end = write_whole(&mut sink, &[7, 8, 9]);
    holds(
        "it takes two bytes",
        end == Err(WriteFault) && sink.taken() == 2,
    )?;
    holds(
        "that it takes no more is one fault",
        sink.fault_count() == 1,
    )?;
    let none = sink.write(&[]);
    holds(
        "an empty piece is no fault",
        none == Ok(0) && sink.fault_count() == 1,
    )?;
    holds("the two bytes are there", room == [7, 8])
}
