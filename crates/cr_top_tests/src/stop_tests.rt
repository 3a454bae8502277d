//! What no clause says: runs that stop, checkpoints that are read, and chains of them, with ample memory.

use crate::test_calls::{Ending, answered, check, ends};
use std::alloc::Global;
use std::sync::Wait;
use std::test::Fail;
use std::thread::Threads;

pub const MINIMUS: &str = "stage = 4
[[method]]
letter = \"A\"
notation = \"x14x14,12\"
[query]
min = 1
max = 24
";

pub const DOUBLES: &str = "stage = 5
[[method]]
letter = \"A\"
notation = \"5.1.5.1.5,125\"
[[call]]
mark = \"b\"
notation = \"145\"
[query]
min = 1
max = 120
";

pub const ALL_DOUBLES: &str =
    "20 bb\n40 pppp\n60 pbpbpb\n100 ppbpbppbpb\n120 pppbpppbpppb\ntouches 5\n";

/// The checkpoint of Plain Bob Doubles in a version, with these lines after the problem.
pub fn checkpoint(alloc: Global, version: &str, lines: &str) -> Result<String, Fail> {
    Ok(format!(in alloc; "ringsearch checkpoint {version}\nproblem 124\n{DOUBLES}\n{lines}")?)
}

// After how many turns a search of Plain Bob Doubles stops, how many bytes its checkpoint has, and its lines after the
// problem.
const STOPS: [(&str, usize, &str, &str); 3] = [
    (
        "0",
        190,
        "found 0\njobs 1\njob 1\n0 -\nend\n",
        "ringsearch: stopped after 0 turns\n",
    ),
    (
        "001",
        200,
        "found 0\njobs 2\njob 1\n0 b\njob 1\n0 p\nend\n",
        "ringsearch: stopped after 1 turns\n",
    ),
    (
        "2",
        205,
        "found 0\njobs 2\njob 1\n0 b\njob 2\n0 pb\n1 p\nend\n",
        "ringsearch: stopped after 2 turns\n",
    ),
];

#[test]
fn a_stopped_search_goes_on(rt: HostRuntime) -> Result<(), Fail> {
    for (turns, length, lines, note) in STOPS {
        let text = checkpoint(rt.alloc(), "2", lines)?;
        let stops = ends(
            &rt,
            &["--turns", turns],
            DOUBLES.as_bytes(),
            (3, &text, note),
        )?;
        check("stopped", stops && text.len() == length)?;
        check(
            "gone on",
            ends(&rt, &[], text.as_bytes(), (0, ALL_DOUBLES, ""))?,
        )?;
    }
    Ok(())
}

// A problem, the turns that are allowed, and the status: the root of Plain Bob Doubles has size 32, that of Plain Bob
// Minimus 4.
const EDGES: &[(&str, &str, u8)] = &[
    (DOUBLES, "31", 3),
    (DOUBLES, "32", 0),
    (MINIMUS, "3", 3),
    (MINIMUS, "4", 0),
];

#[test]
fn a_search_stops_below_its_size(rt: HostRuntime) -> Result<(), Fail> {
    for &(problem, turns, code) in EDGES {
        let (ended, _) = answered(&rt, &["--turns", turns], problem.as_bytes())?;
        check(turns, ended == code)?;
    }
    Ok(())
}

// Goes on after three turns each time to the end, by these workers in turn, and says how often it stopped and what was
// written.
fn chain<R: AllocGlobal + Threads + Wait + Sync>(
    rt: &R,
    input: &str,
    workers: [&'static str; 3],
) -> Result<(usize, Vec<u8>), Fail> {
    let (mut code, mut text) = answered(rt, &["--turns", "3"], input.as_bytes())?;
    for stops in 0..100 {
        if code == 0 {
            return Ok((stops, text));
        }
        (code, text) = answered(
            rt,
            &["--turns", "3", "--workers", workers[stops % 3]],
            &text,
        )?;
    }
    Err(Fail::from("no end"))
}

#[test]
fn chains_of_stops(rt: HostRuntime) -> Result<(), Fail> {
    let first = checkpoint(rt.alloc(), "1", "found 0\njobs 1\njob 1\n-\nend\n")?;
    for (input, workers) in [
        (DOUBLES, ["1", "1", "1"]),
        (first.as_str(), ["5", "2", "1"]),
    ] {
        let (stops, text) = chain(&rt, input, workers)?;
        check(
            "chain",
            stops == 10 && text.as_slice() == ALL_DOUBLES.as_bytes(),
        )?;
    }
    Ok(())
}

// Lines after the problem in version 1 and in version 2 (none where there is none), and how the call ends.
const CHECKPOINTS: &[(&str, &str, Ending<'static>)] = &[
    (
        "found 0\njobs 1\njob 2\np\npb\nend\n",
        "found 0\njobs 1\njob 2\n0 p\n1 b\nend\n",
        (5, "", "ringsearch: checkpoint 7 Overlap 17 18\n"),
    ),
    (
        "found 1\n60 bpbpbp\njobs 1\njob 1\n-\nend\n",
        "found 1\n60 bpbpbp\njobs 1\njob 1\n0 -\nend\n",
        (5, "", "ringsearch: checkpoint 5 NotKept 15\n"),
    ),
    (
        "found 0\njobs 1\njob 1\n-\n",
        "found 0\njobs 1\njob 1\n0 -\n",
        (5, "", "ringsearch: checkpoint 1 Form 18\n"),
    ),
    (
        "found 0\njobs 1\njob 1\np\nend\n",
        "found 0\njobs 1\njob 1\n0 p\nend\n",
        (
            0,
            "40 pppp\n60 pbpbpb\n100 ppbpbppbpb\n120 pppbpppbpppb\ntouches 4\n",
            "",
        ),
    ),
    (
        "found 1\n20 bb\njobs 1\njob 1\nb\nend\n",
        "found 1\n20 bb\njobs 1\njob 1\n0 b\nend\n",
        (5, "", "ringsearch: checkpoint 7 Overlap 15 18\n"),
    ),
    (
        "found 2\n40 pppp\n20 bb\njobs 0\nend\n",
        "found 2\n40 pppp\n20 bb\njobs 0\nend\n",
        (5, "", "ringsearch: checkpoint 6 FoundOrder 16\n"),
    ),
    (
        "found 1\n30 bb\njobs 0\nend\n",
        "found 1\n30 bb\njobs 0\nend\n",
        (5, "", "ringsearch: checkpoint 3 Calling 15\n"),
    ),
    (
        "found 0\njobs 1\njob 1\nppppppppppppp\nend\n",
        "found 0\njobs 1\njob 1\n0 ppppppppppppp\nend\n",
        (5, "", "ringsearch: checkpoint 4 NodeLong 17\n"),
    ),
    (
        "found 1\n20 bb\njobs 0\nend\n",
        "found 1\n20 bb\njobs 0\nend\n",
        (0, "20 bb\ntouches 1\n", ""),
    ),
    (
        "found 2\n20 bb\n20 bb\njobs 0\nend\n",
        "found 2\n20 bb\n20 bb\njobs 0\nend\n",
        (5, "", "ringsearch: checkpoint 6 FoundOrder 16\n"),
    ),
    (
        "found 0\njobs 2\njob 1\np\njob 1\np\nend\n",
        "found 0\njobs 2\njob 1\n0 p\njob 1\n1 -\nend\n",
        (5, "", "ringsearch: checkpoint 7 Overlap 17 19\n"),
    ),
    (
        "",
        "found 0\njobs 1\njob 1\n1 b\nend\n",
        (5, "", "ringsearch: checkpoint 3 Calling 17\n"),
    ),
    (
        "",
        "found 0\njobs 1\njob 2\n0 pb\n0 pp\nend\n",
        (5, "", "ringsearch: checkpoint 3 Calling 18\n"),
    ),
    (
        "found 0\njobs 1\njob 1\n-\nend\n\n",
        "found 0\njobs 1\njob 1\n0 -\nend\n\n",
        (5, "", "ringsearch: checkpoint 1 Form 19\n"),
    ),
];

#[test]
fn checkpoints_are_read(rt: HostRuntime) -> Result<(), Fail> {
    for &(first, second, ending) in CHECKPOINTS {
        for (version, lines) in [("1", first), ("2", second)] {
            if !lines.is_empty() {
                let text = checkpoint(rt.alloc(), version, lines)?;
                check(lines, ends(&rt, &[], text.as_bytes(), ending)?)?;
            }
        }
    }
    Ok(())
}

// How long a front of the checkpoint of the root of Plain Bob Doubles is, in version 1, and its note.
const FRONTS: &[(usize, usize, &str)] = &[
    (0, 0, "ringsearch: problem 2 Key stage\n"),
    (1, 21, "ringsearch: problem 1 NotToml\n"),
    (22, 23, "ringsearch: checkpoint 1 Form 1\n"),
    (24, 159, "ringsearch: checkpoint 1 Form 2\n"),
    (160, 160, "ringsearch: checkpoint 1 Form 13\n"),
    (161, 168, "ringsearch: checkpoint 1 Form 14\n"),
    (169, 175, "ringsearch: checkpoint 1 Form 15\n"),
    (176, 181, "ringsearch: checkpoint 1 Form 16\n"),
    (182, 183, "ringsearch: checkpoint 1 Form 17\n"),
    (184, 187, "ringsearch: checkpoint 1 Form 18\n"),
];

#[test]
fn fronts_of_a_checkpoint(rt: HostRuntime) -> Result<(), Fail> {
    let text = checkpoint(rt.alloc(), "1", "found 0\njobs 1\njob 1\n-\nend\n")?;
    check("188", text.len() == 188)?;
    for &(from, to, note) in FRONTS {
        for length in from..=to {
            let front = text.get(..length).unwrap_or_default();
            let code = if length < 22 { 4 } else { 5 };
            check(note, ends(&rt, &[], front.as_bytes(), (code, "", note))?)?;
        }
    }
    check(
        "whole",
        ends(&rt, &[], text.as_bytes(), (0, ALL_DOUBLES, ""))?,
    )?;
    let unknown = (5, "", "ringsearch: checkpoint 1 Form 1\n");
    check(
        "version 3",
        ends(&rt, &[], b"ringsearch checkpoint 3\n", unknown)?,
    )
}
