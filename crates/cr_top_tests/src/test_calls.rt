//! Whole calls that tests make: what comes in, which reads and writes fail, and how the call ends.

ghost use Rattle.std.specs.Prelude.{◌≤◌};

use cr_io::{MemSink, MemSource, SureSink, SureSource};
use cr_top::{OpenGate, ringsearch};
use std::alloc::{AllocError, Global};
use std::sync::Wait;
use std::test::Fail;
use std::thread::Threads;

/// The numbers, from 1, of the read, of the write and of the write of a note that fail. 0 is none.
pub type Faults = (u64, u64, u64);

/// The status, what is written, and the note.
pub type Ending<'a> = (u8, &'a str, &'a str);

/// Ok where a case holds, and else its name.
pub fn check(name: &'static str, holds: bool) -> Result<(), Fail> {
    if holds { Ok(()) } else { Err(Fail::from(name)) }
}

/// Whether a call of which nothing fails ends so.
pub fn ends<R: AllocGlobal + Threads + Wait + Sync>(
    rt: &R,
    words: &[&str],
    input: &[u8],
    ending: Ending,
) -> Result<bool, Fail> {
    ends_with(rt, words, input, 50, (0, 0, 0), ending)
}

/// Whether a call ends so. Its source gives so many bytes at once at most, and its sinks take 16.
pub fn ends_with<R: AllocGlobal + Threads + Wait + Sync>(
    rt: &R,
    words: &[&str],
    input: &[u8],
    most: u64,
    faults: Faults,
    ending: Ending,
) -> Result<bool, Fail>
    requires { 1 ≤ most }
{
    let alloc = rt.alloc();
    let (read, write, note) = faults;
    let words = words_of(alloc, words)?;
    let mut source = MemSource::new(input.to_vec(alloc)?, [read].to_vec(alloc)?, most);
    let mut sink = sink_of(alloc, write)?;
    let mut notes = sink_of(alloc, note)?;
    let status = ringsearch(rt, &words, &mut source, &mut sink, &mut notes, &OpenGate);
    Ok(is_ending(status.code(), &sink, &notes, ending))
}

/// Checks that a call ends with the status of a failed read where its second read fails, and with that of a failed write
/// where its first write does, and that nothing is written.
pub fn check_faults<R: AllocGlobal + Threads + Wait + Sync>(
    rt: &R,
    words: &[&str],
    input: &[u8],
) -> Result<(), Fail> {
    let unread = (6, "", "ringsearch: read failed\n");
    let unwritten = (7, "", "ringsearch: write failed\n");
    check(
        "a read",
        ends_with(rt, words, input, 50, (2, 0, 0), unread)?,
    )?;
    check(
        "a write",
        ends_with(rt, words, input, 50, (0, 1, 0), unwritten)?,
    )
}

/// The status of a call of which nothing fails, and what it writes.
pub fn answered<R: AllocGlobal + Threads + Wait + Sync>(
    rt: &R,
    words: &[&str],
    input: &[u8],
) -> Result<(u8, Vec<u8>), Fail> {
    let alloc = rt.alloc();
    let words = words_of(alloc, words)?;
    let mut source = SureSource::new(input.to_vec(alloc)?);
    let mut sink = SureSink::new(alloc);
    let mut notes = SureSink::new(alloc);
    let status = ringsearch(rt, &words, &mut source, &mut sink, &mut notes, &OpenGate);
    let text = sink.bytes().unwrap_or_default().to_vec(alloc)?;
    Ok((status.code(), text))
}

/// The words as texts of their own.
pub fn words_of(alloc: Global, words: &[&str]) -> Result<Vec<String>, Fail> {
    let mut texts = Vec::new(alloc);
    for word in words {
        texts.push(String::from_str(alloc, word)?)?;
    }
    Ok(texts)
}

// A sink that takes 16 bytes at once, and fails at one write.
fn sink_of(alloc: Global, write: u64) -> Result<MemSink, AllocError> {
    Ok(MemSink::new(alloc, [write].to_vec(alloc)?, 16))
}

// Whether this is how a call ended.
fn is_ending(code: u8, sink: &MemSink, notes: &MemSink, ending: Ending) -> bool {
    let (wanted, written, noted) = ending;
    code == wanted
        && sink.bytes() == Some(written.as_bytes())
        && notes.bytes() == Some(noted.as_bytes())
}
