//! What no clause says: trails of checkpoints, whole and cut off, and what goes on from them, with ample memory.

ghost use Rattle.std.specs.Prelude.{◌≤◌};

use crate::checkpoints::minimus;
use crate::stop_tests::{ALL_DOUBLES, DOUBLES, MINIMUS};
use crate::test_calls::{Ending, answered, check, ends, words_of};
use cr_io::{MemSink, SureSource};
use cr_store::{Next, next_block};
use cr_top::{OpenGate, ringsearch, trail_alone};
use cr_trail::{TrailFault, last_block};
use std::alloc::Global;
use std::sync::Wait;
use std::test::Fail;
use std::thread::Threads;

// The trail with a checkpoint after each two turns.
const TRAIL: &str = minimus! {
    "block 147\n", "found 0\njobs 1\njob 1\n0 -\nend\n";
    "block 148\n", "found 0\njobs 1\njob 1\n0 pp\nend\n";
    "block 144\n", "found 1\n24 ppp\njobs 0\nend\n";
};

const BOOK: &str = "24 ppp\ntouches 1\n";

const NO_BLOCK: Ending = (10, "", "ringsearch: trail 2 Nothing\n");

#[test]
fn a_trail_is_written(rt: HostRuntime) -> Result<(), Fail> {
    check("469 bytes", TRAIL.len() == 469)?;
    for workers in ["1", "2"] {
        check(
            "the trail",
            ends(
                &rt,
                &["--every", "2", "--workers", workers],
                MINIMUS.as_bytes(),
                (0, TRAIL, ""),
            )?,
        )?;
    }
    Ok(())
}

// How many of the trail's first bytes there are, and the last block of them.
const FRONTS: [(usize, Result<(u64, u64), TrailFault>); 5] = [
    (156, Err(TrailFault::Nothing)),
    (157, Ok((10, 147))),
    (314, Ok((10, 147))),
    (315, Ok((167, 148))),
    (469, Ok((325, 144))),
];

#[test]
fn fronts_have_their_last_block() -> Result<(), Fail> {
    for (length, last) in FRONTS {
        check(
            "front",
            last_block(TRAIL.as_bytes().get(..length).unwrap_or_default()) == last,
        )?;
    }
    check(
        "block 0",
        last_block(b"block 0") == Err(TrailFault::Form(6)),
    )
}

// The words, what is read, and how the call ends.
const LASTS: &[(&[&str], &str, Ending<'static>)] = &[
    (&["--do", "last"], "", NO_BLOCK),
    (&["--do", "last"], "block 3\nab", NO_BLOCK),
    (&["--do", "last"], "block 3\nabcblock 9\n", (0, "abc", "")),
    (
        &["--do", "last"],
        "block 0",
        (10, "", "ringsearch: trail 1 Form 6\n"),
    ),
    (
        &["--do", "last"],
        BOOK,
        (10, "", "ringsearch: trail 1 Form 0\n"),
    ),
    (
        &["--do", "last", "--every", "3"],
        TRAIL,
        (2, "", "ringsearch: words 6 Mixed\n"),
    ),
    (
        &["--every", "5", "--turns", "5"],
        MINIMUS,
        (2, "", "ringsearch: words 6 Mixed\n"),
    ),
    (
        &["--every", "0"],
        MINIMUS,
        (2, "", "ringsearch: words 8 Every\n"),
    ),
    (
        &["--every", "2"],
        "",
        (4, "", "ringsearch: problem 2 Key stage\n"),
    ),
    (
        &["--every", "2"],
        "ringsearch checkpoint 3\n",
        (5, "", "ringsearch: checkpoint 1 Form 1\n"),
    ),
];

#[test]
fn last_blocks_are_written(rt: HostRuntime) -> Result<(), Fail> {
    for &(words, input, ending) in LASTS {
        check(input, ends(&rt, words, input.as_bytes(), ending)?)?;
    }
    Ok(())
}

// The status of a trail of Plain Bob Minimus, and what of it a sink took that takes so many bytes at once and fails at
// this write.
fn cut_off<R: AllocGlobal + Threads + Wait + Sync>(
    rt: &R,
    most: u64,
    write: u64,
) -> Result<(u8, Vec<u8>), Fail>
    requires { 1 ≤ most }
{
    let alloc = rt.alloc();
    let words = words_of(alloc, &["--every", "2"])?;
    let mut source = SureSource::new(MINIMUS.as_bytes().to_vec(alloc)?);
    let mut sink = MemSink::new(alloc, [write].to_vec(alloc)?, most);
    let mut notes = MemSink::new(alloc, [0].to_vec(alloc)?, 16);
    let status = ringsearch(rt, &words, &mut source, &mut sink, &mut notes, &OpenGate);
    let taken = sink.bytes().unwrap_or_default().to_vec(alloc)?;
    Ok((status.code(), taken))
}

// Whether the last block of these bytes can be written where there is one, and the search goes on from it to the book.
fn goes_on<R: AllocGlobal + Threads + Wait + Sync>(rt: &R, taken: &[u8]) -> Result<bool, Fail> {
    if taken.len() < 157 {
        return ends(rt, &["--do", "last"], taken, NO_BLOCK);
    }
    let (code, body) = answered(rt, &["--do", "last"], taken)?;
    Ok(code == 0 && ends(rt, &[], &body, (0, BOOK, ""))?)
}

// Whether a front of the trail was taken, with the status that belongs to it, and the search goes on from it.
fn is_front<R: AllocGlobal + Threads + Wait + Sync>(
    rt: &R,
    code: u8,
    taken: &[u8],
) -> Result<bool, Fail> {
    let wanted = if taken.len() < TRAIL.len() { 7 } else { 0 };
    Ok(code == wanted && TRAIL.as_bytes().starts_with(taken) && goes_on(rt, taken)?)
}

// Whether a sink that takes one byte at once and fails at each of these in turn leaves what the search goes on from.
fn fails_at_each_byte<R: AllocGlobal + Threads + Wait + Sync>(
    rt: &R,
    from: u64,
    to: u64,
) -> Result<(), Fail> {
    for write in from..=to {
        let (code, taken) = cut_off(rt, 1, write)?;
        check(
            "a byte",
            taken.len() as u64 + 1 == write && is_front(rt, code, &taken)?,
        )?;
    }
    Ok(())
}

#[test]
fn a_sink_fails_at_each_byte_of_the_first_block(rt: HostRuntime) -> Result<(), Fail> {
    fails_at_each_byte(&rt, 1, 157)
}

#[test]
fn a_sink_fails_at_each_byte_of_the_second_block(rt: HostRuntime) -> Result<(), Fail> {
    fails_at_each_byte(&rt, 158, 315)
}

#[test]
fn a_sink_fails_at_each_byte_of_the_last_block(rt: HostRuntime) -> Result<(), Fail> {
    fails_at_each_byte(&rt, 316, 470)
}

// No run writes as often as this to a sink that takes all at once: the first block by two writes, the second by three, and
// the last, with its touch, by four.
const WRITES: u64 = 10;

#[test]
fn a_sink_fails_at_each_write(rt: HostRuntime) -> Result<(), Fail> {
    for write in 1..=WRITES {
        let (code, taken) = cut_off(&rt, 1_000, write)?;
        check(
            "a write",
            (write > 1 || taken.is_empty()) && is_front(&rt, code, &taken)?,
        )?;
    }
    let (code, taken) = cut_off(&rt, 1_000, WRITES)?;
    check(
        "all writes",
        code == 0 && taken.as_slice() == TRAIL.as_bytes(),
    )
}

// The checkpoint of Plain Bob Minimus with these lines after the problem, as a block.
fn block_of(alloc: Global, lines: &str) -> Result<String, Fail> {
    let text = format!(in alloc; "ringsearch checkpoint 2\nproblem 82\n{MINIMUS}\n{lines}")?;
    Ok(format!(in alloc; "block {}\n{text}", text.len())?)
}

// The trail of these checkpoints.
fn trail_of(alloc: Global, checkpoints: &[&str]) -> Result<String, Fail> {
    let mut trail = String::new(alloc);
    for lines in checkpoints {
        trail.push_str(&block_of(alloc, lines)?)?;
    }
    Ok(trail)
}

const DONE: &str = "found 1\n24 ppp\njobs 0\nend\n";

const ROOT: &str = "found 0\njobs 1\njob 1\n0 -\nend\n";

const ONE: &str = "found 0\njobs 1\njob 1\n0 p\nend\n";

const TWO: &str = "found 0\njobs 1\njob 1\n0 pp\nend\n";

const THREE: &str = "found 0\njobs 1\njob 1\n0 ppp\nend\n";

// After how many turns a checkpoint comes, the lines of the input, which is the problem where there are none, and those of
// the checkpoints.
const TRAILS: &[(&str, &str, &[&str])] = &[
    ("1", "", &[ROOT, ONE, TWO, THREE, DONE]),
    ("3", "", &[ROOT, THREE, DONE]),
    ("4", "", &[ROOT, DONE]),
    ("5", "", &[ROOT, DONE]),
    ("9223372036854775807", "", &[ROOT, DONE]),
    ("1", DONE, &[DONE]),
    ("1", "found 0\njobs 0\nend\n", &["found 0\njobs 0\nend\n"]),
    ("2", ONE, &[ONE, THREE, DONE]),
];

#[test]
fn trails_of_minimus(rt: HostRuntime) -> Result<(), Fail> {
    for &(every, lines, checkpoints) in TRAILS {
        let input = input_of(rt.alloc(), lines)?;
        let trail = trail_of(rt.alloc(), checkpoints)?;
        check(
            every,
            ends(&rt, &["--every", every], input.as_bytes(), (0, &trail, ""))?,
        )?;
    }
    Ok(())
}

// The problem, or its checkpoint with these lines.
fn input_of(alloc: Global, lines: &str) -> Result<String, Fail> {
    if lines.is_empty() {
        return Ok(String::from_str(alloc, MINIMUS)?);
    }
    Ok(format!(in alloc; "ringsearch checkpoint 2\nproblem 82\n{MINIMUS}\n{lines}")?)
}

// The turns that the search of each checkpoint of a trail of Plain Bob Doubles takes, of which there is one after each
// three turns: with as many it ends, with one less it does not.
const LEFT: [(&str, &str); 11] = [
    ("32", "31"),
    ("29", "28"),
    ("26", "25"),
    ("23", "22"),
    ("20", "19"),
    ("17", "16"),
    ("14", "13"),
    ("11", "10"),
    ("8", "7"),
    ("5", "4"),
    ("2", "1"),
];

// The body of the block that begins at a place, and the place behind it.
fn body_from(text: &[u8], at: usize) -> Option<(&[u8], usize)> {
    if at > text.len() {
        return None;
    }
    match next_block(text, at as u64) {
        Next::Block(place, size) => {
            let end = (place as usize).checked_add(size as usize)?;
            Some((text.get(place as usize..end)?, end))
        }
        _ => None,
    }
}

// Whether a search goes on from a checkpoint to the book of Plain Bob Doubles in so many turns, and not in fewer.
fn takes<R: AllocGlobal + Threads + Wait + Sync>(
    rt: &R,
    body: &[u8],
    turns: &str,
    fewer: &str,
) -> Result<bool, Fail> {
    let (code, _) = answered(rt, &["--turns", fewer], body)?;
    Ok(code == 3 && ends(rt, &["--turns", turns], body, (0, ALL_DOUBLES, ""))?)
}

// Whether a trail has these checkpoints, and behind them one of no node.
fn falls_by_three<R: AllocGlobal + Threads + Wait + Sync>(
    rt: &R,
    trail: &[u8],
) -> Result<bool, Fail> {
    let mut at = 0;
    for (turns, fewer) in LEFT {
        match body_from(trail, at) {
            Some((body, end)) if takes(rt, body, turns, fewer)? => at = end,
            _ => return Ok(false),
        }
    }
    match body_from(trail, at) {
        Some((body, end)) => Ok(
            end == trail.len() && ends(rt, &["--turns", "0"], body, (0, ALL_DOUBLES, ""))?,
        ),
        None => Ok(false),
    }
}

#[test]
fn trails_of_doubles(rt: HostRuntime) -> Result<(), Fail> {
    for workers in ["1", "2", "64"] {
        let (code, trail) = answered(
            &rt,
            &["--every", "3", "--workers", workers],
            DOUBLES.as_bytes(),
        )?;
        check(workers, code == 0 && falls_by_three(&rt, &trail)?)?;
    }
    Ok(())
}

#[test]
fn one_worker_writes_a_trail_alone(rt: HostRuntime) -> Result<(), Fail> {
    let alloc = rt.alloc();
    let mut source = SureSource::new(MINIMUS.as_bytes().to_vec(alloc)?);
    let mut sink = MemSink::new(alloc, [0].to_vec(alloc)?, 16);
    let status = trail_alone(&rt, 2, &mut source, &mut sink, &OpenGate);
    check(
        "alone",
        status.code() == 0 && sink.bytes() == Some(TRAIL.as_bytes()),
    )
}
