//! What no clause says: that one worker, who waits for nobody, ends as a whole call does, with ample memory.

use crate::stop_tests::{ALL_DOUBLES, DOUBLES, checkpoint};
use crate::test_calls::check;
use cr_io::{MemSink, MemSource};
use cr_top::{OpenGate, search_alone};
use std::test::Fail;
use std::thread::Threads;

// The number of the read and of the write that fail, 0 for none; the turns that are allowed; the status, and what is
// written.
const SEARCHES: [(&str, (u64, u64), Option<u64>, u8, &str); 5] = [
    ("finished", (0, 0), None, 0, ALL_DOUBLES),
    ("enough turns", (0, 0), Some(10_000), 0, ALL_DOUBLES),
    ("a failed read", (2, 0), None, 6, ""),
    ("a failed write", (0, 2), None, 7, "20 bb\n40 pppp\n60"),
    ("both", (1, 1), Some(2), 6, ""),
];

#[test]
fn one_worker_searches_alone(rt: HostRuntime) -> Result<(), Fail> {
    for (name, faults, turns, code, text) in SEARCHES {
        check(
            name,
            searches(
                &rt,
                DOUBLES.as_bytes(),
                faults,
                turns,
                code,
                text.as_bytes(),
            )?,
        )?;
    }
    Ok(())
}

#[test]
fn one_worker_stops(rt: HostRuntime) -> Result<(), Fail> {
    let lines = "found 0\njobs 2\njob 1\n0 b\njob 2\n0 pb\n1 p\nend\n";
    let text = checkpoint(rt.alloc(), "2", lines)?;
    check(
        "stopped",
        searches(&rt, DOUBLES.as_bytes(), (0, 0), Some(2), 3, text.as_bytes())?,
    )?;
    check(
        "resumed",
        searches(
            &rt,
            text.as_bytes(),
            (0, 0),
            None,
            0,
            ALL_DOUBLES.as_bytes(),
        )?,
    )?;
    check(
        "no problem",
        searches(&rt, b"stage = 2", (0, 0), None, 4, b"")?,
    )?;
    check(
        "no checkpoint",
        searches(&rt, b"ringsearch checkpoint 3\n", (0, 0), None, 5, b"")?,
    )
}

// Whether a search by one worker ends so. Its source gives at most 50 bytes at once, and its sink takes 16.
fn searches<R: AllocGlobal + Threads + Sync>(
    rt: &R,
    input: &[u8],
    (read, write): (u64, u64),
    turns: Option<u64>,
    code: u8,
    text: &[u8],
) -> Result<bool, Fail> {
    let alloc = rt.alloc();
    let mut source = MemSource::new(input.to_vec(alloc)?, [read].to_vec(alloc)?, 50);
    let mut sink = MemSink::new(alloc, [write].to_vec(alloc)?, 16);
    let status = search_alone(rt, turns, &mut source, &mut sink, &OpenGate);
    Ok(status.code() == code && sink.bytes() == Some(text))
}
