//! What no clause says: worked cases of each call, with ample memory.

mod streams;

use super::*;
use std::alloc::{AllocError, Global};
use std::test::Fail;

// The bytes 0, 1, .. up to 250, and again from 0, so many of them.
fn ascending(alloc: Global, count: u64) -> Result<Vec<u8>, AllocError> {
    let mut bytes = Vec::new(alloc);
    for number in 0..count {
        bytes.push((number % 251) as u8)?;
    }
    Ok(bytes)
}

// Nothing where the case holds, and else its name.
fn holds(name: &'static str, is_right: bool) -> Result<(), Fail> {
    if is_right {
        Ok(())
    } else {
        Err(Fail::from(name))
    }
}

// Which case it is, how many bytes there are, how many a call gives at most, which call fails, the
// limit, and what ends the reading where it does not come to the end. A call asks for 4,096 bytes,
// and the last one finds the end.
const READINGS: &[(&str, u64, u64, u64, u64, Option<ReadEnd>)] = &[
    ("nothing, at most nothing", 0, 9, 0, 0, None),
    ("one byte above nothing", 1, 9, 0, 0, Some(ReadEnd::TooLong)),
    ("as many as the limit", 8, 9, 0, 8, None),
    (
        "one byte above the limit",
        9,
        9,
        0,
        8,
        Some(ReadEnd::TooLong),
    ),
    ("long, as many as the limit", 9_000, 9_000, 0, 9_000, None),
    (
        "long, above the limit",
        9_000,
        9_000,
        0,
        8_999,
        Some(ReadEnd::TooLong),
    ),
    ("byte by byte", 9, 1, 11, 9, None),
    (
        "byte by byte, the end fails",
        9,
        1,
        10,
        9,
        Some(ReadEnd::ReadFault),
    ),
    ("fours and a short piece", 10, 4, 5, 10, None),
    (
        "the first of fours fails",
        10,
        4,
        1,
        10,
        Some(ReadEnd::ReadFault),
    ),
    (
        "the short piece fails",
        10,
        4,
        3,
        10,
        Some(ReadEnd::ReadFault),
    ),
    (
        "the end after fours fails",
        10,
        4,
        4,
        10,
        Some(ReadEnd::ReadFault),
    ),
    ("two whole pieces", 8_192, 5_000, 4, 9_000, None),
    (
        "the end after two fails",
        8_192,
        5_000,
        3,
        9_000,
        Some(ReadEnd::ReadFault),
    ),
];

#[test]
fn reads_to_the_end_or_the_limit(rt: HostRuntime) -> Result<(), Fail> {
    let alloc = rt.alloc();
    for &(name, count, most, fail, limit, end) in READINGS {
        let bytes = ascending(alloc, count)?;
        let mut source = MemSource::new(bytes.clone()?, Vec::from_slice(alloc, &[fail])?, most);
        match read_all(alloc, &mut source, limit) {
            Ok(read) => holds(name, end.is_none() && read == bytes)?,
            Err(other) => holds(name, end == Some(other))?,
        }
    }
    Ok(())
}

#[test]
fn gives_what_it_can(rt: HostRuntime) -> Result<(), Fail> {
    let alloc = rt.alloc();
    let mut source = MemSource::new(ascending(alloc, 5)?, Vec::from_slice(alloc, &[2])?, 3);
    let mut sure = SureSource::new(ascending(alloc, 2)?);
    let mut buf = [9; 4];
    let empty = source.read(&mut []);
    let failed = source.read(&mut buf);
    holds(
        "the second call fails",
        empty == Ok(0) && failed == Err(Failed) && source.fault_count() == 1,
    )?;
    let three = source.read(&mut buf);
    holds("three at most", three == Ok(3) && buf == [0, 1, 2, 9])?;
    let two = sure.read(&mut buf);
    let none = sure.read(&mut buf);
    holds("all that is left", two == Ok(2) && buf == [0, 1, 2, 9])?;
    holds(
        "the end is no fault",
        none == Ok(0) && sure.fault_count() == 0,
    )
}

// Which case it is, how many bytes the text has, how many a call takes at most, which call fails, and
// how many bytes are written.
const WRITINGS: &[(&str, u64, u64, u64, u64)] = &[
    ("an empty text makes no call", 0, 16, 1, 0),
    ("the first call fails", 40, 16, 1, 0),
    ("the third call fails", 40, 16, 3, 32),
    ("no call fails", 40, 16, 4, 40),
    ("the last byte fails", 40, 1, 40, 39),
    ("byte by byte", 40, 1, 41, 40),
    ("at one stroke", 40, 100, 2, 40),
];

#[test]
fn writes_until_a_fault(rt: HostRuntime) -> Result<(), Fail> {
    let alloc = rt.alloc();
    for &(name, count, most, fail, written) in WRITINGS {
        let text = ascending(alloc, count)?;
        let mut sink = MemSink::new(alloc, Vec::from_slice(alloc, &[fail])?, most);
        let is_whole = write_whole(&mut sink, &text).is_ok();
        let bytes = sink.bytes().ok_or("a write found no memory")?;
        holds(
            name,
            is_whole == (written == count) && bytes == &text[..bytes.len().min(text.len())],
        )?;
        holds(name, bytes.len() as u64 == written)?;
    }
    Ok(())
}

// Which case it is, the pieces, which call fails, whether all is written, and what is written. A call
// takes two bytes at most.
const PIECEWISE: &[(&str, [&str; 3], u64, bool, &str)] = &[
    ("all in turn", ["abc", "d", "ef"], 5, true, "abcdef"),
    ("the last call fails", ["abc", "d", "ef"], 4, false, "abcd"),
    (
        "the second piece fails at once",
        ["abc", "def", "g"],
        3,
        false,
        "abc",
    ),
    (
        "the second piece fails within",
        ["abc", "def", "g"],
        4,
        false,
        "abcde",
    ),
    ("empty pieces make no call", ["", "ab", ""], 2, true, "ab"),
    ("after an empty piece", ["a", "", "b"], 2, false, "a"),
    ("nothing", ["", "", ""], 1, true, ""),
];

#[test]
fn writes_pieces_until_a_fault(rt: HostRuntime) -> Result<(), Fail> {
    let alloc = rt.alloc();
    for &(name, texts, fail, whole, written) in PIECEWISE {
        let pieces = pieces_of(alloc, &texts)?;
        let mut sink = MemSink::new(alloc, Vec::from_slice(alloc, &[fail])?, 2);
        let is_whole = write_pieces(&mut sink, &pieces).is_ok();
        holds(
            name,
            is_whole == whole && sink.bytes() == Some(written.as_bytes()),
        )?;
    }
    let mut sink = MemSink::new(alloc, Vec::from_slice(alloc, &[1])?, 2);
    let is_whole = write_pieces(&mut sink, &[]).is_ok();
    holds(
        "no piece makes no call",
        is_whole && sink.bytes() == Some([].as_slice()),
    )
}

// The texts as pieces.
fn pieces_of(alloc: Global, texts: &[&str]) -> Result<Vec<Vec<u8>>, AllocError> {
    let mut pieces = Vec::new(alloc);
    for text in texts {
        pieces.push(Vec::from_slice(alloc, text.as_bytes())?)?;
    }
    Ok(pieces)
}

// Which case it is, and the length of a piece that is written at one call.
const PIECES: &[(&str, usize)] = &[
    ("an empty piece", 0),
    ("one byte", 1),
    ("4,096 bytes", 4_096),
    ("4,097 bytes", 4_097),
    ("100,000 bytes", 100_000),
];

#[test]
fn no_piece_is_lost(rt: HostRuntime) -> Result<(), Fail> {
    let alloc = rt.alloc();
    let text = ascending(alloc, 100_000)?;
    for &(name, length) in PIECES {
        let piece = &text[..length.min(text.len())];
        let mut sure = SureSink::new(alloc);
        let taken = sure.write(piece);
        holds(name, taken == Ok(length) && sure.bytes() == Some(piece))?;
        // The first call fails, and the second takes it whole.
        let mut sink = MemSink::new(alloc, Vec::from_slice(alloc, &[1])?, 200_000);
        let failed = sink.write(piece);
        holds(
            name,
            failed == Err(Failed) && sink.bytes() == Some([].as_slice()),
        )?;
        let taken = sink.write(piece);
        holds(name, taken == Ok(length) && sink.bytes() == Some(piece))?;
    }
    Ok(())
}
