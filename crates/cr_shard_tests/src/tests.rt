//! Checkpoints that are cut, joined again, and those that don't belong together.

ghost use Rattle.std.specs.Prelude.{◌≤◌};

use cr_shard::{JoinFault, cut_blocks, cut_text, join_blocks};
use cr_store::{CheckFault, Checkpoint, put_block, read_checkpoint};
use std::alloc::Global;
use std::test::Fail;

// A checkpoint of Plain Bob Doubles up to its last lines, and of another stage.
const DOUBLES: &str =
    "ringsearch checkpoint 2\nproblem 124\nstage = 5\n[[method]]\nletter = \"A\"\nnotation = \"5.1.5.1.5,125\"\n[[call]]\nmark = \"b\"\nnotation = \"145\"\n[query]\nmin = 1\nmax = 120\n\n";

const MINIMUS: &str =
    "ringsearch checkpoint 2\nproblem 82\nstage = 4\n[[method]]\nletter = \"A\"\nnotation = \"x14x14,12\"\n[query]\nmin = 1\nmax = 24\n\n";

// Its last lines: the jobs `b` and `p`, each alone, and nothing.
const BOTH: &str = "found 0\njobs 2\njob 1\n0 b\njob 1\n0 p\nend\n";

const FIRST: &str = "found 0\njobs 1\njob 1\n0 b\nend\n";

const SECOND: &str = "found 0\njobs 1\njob 1\n0 p\nend\n";

const EMPTY: &str = "found 0\njobs 0\nend\n";

const TOUCH: &str = "found 1\n20 bb\njobs 0\nend\n";

// Appends a body of two pieces as a block.
fn add_body(alloc: Global, text: &mut Vec<u8>, head: &str, lines: &str) -> Result<(), Fail> {
    let mut body = head.as_bytes().to_vec(alloc)?;
    body.extend_from_slice(lines.as_bytes())?;
    if body.is_empty() {
        return Err(Fail::from("an empty body"));
    }
    put_block(text, &body)?;
    Ok(())
}

// Up to three checkpoints of Plain Bob Doubles as blocks, by their last lines; none where these are empty.
fn blocks_of(alloc: Global, first: &str, second: &str, third: &str) -> Result<Vec<u8>, Fail> {
    let mut text = Vec::new(alloc);
    for lines in [first, second, third] {
        if !lines.is_empty() {
            add_body(alloc, &mut text, DOUBLES, lines)?;
        }
    }
    Ok(text)
}

// A checkpoint, read and cut.
fn cut_read(alloc: Global, text: &[u8], into: u32) -> Result<Vec<u8>, CheckFault>
    requires { 1 ≤ into }
{
    let Checkpoint {
        problem_bytes,
        problem,
        found,
        jobs,
    } = read_checkpoint(alloc, text)?;
    let text = cut_blocks(alloc, &problem, &problem_bytes, &found, &jobs, into)?;
    Ok(text)
}

// The last lines, the number of shards, and the last lines of each shard.
type Cut = (&'static str, u32, &'static str, &'static str, &'static str);

const CUTS: &[Cut] = &[
    (BOTH, 1, "found 0\njobs 1\njob 2\n0 b\n0 p\nend\n", "", ""),
    (BOTH, 2, FIRST, SECOND, ""),
    (BOTH, 3, FIRST, SECOND, EMPTY),
    (
        "found 1\n20 bb\njobs 2\njob 2\n0 bp\n0 pb\njob 1\n1 p\nend\n",
        2,
        "found 1\n20 bb\njobs 1\njob 2\n0 bp\n0 pp\nend\n",
        "found 0\njobs 1\njob 1\n0 pb\nend\n",
        "",
    ),
];

fn cut_is(alloc: Global, case: &Cut) -> Result<bool, Fail> {
    let mut text = DOUBLES.as_bytes().to_vec(alloc)?;
    text.extend_from_slice(case.0.as_bytes())?;
    let wanted = blocks_of(alloc, case.2, case.3, case.4)?;
    if case.1 < 1 {
        return Ok(false);
    }
    match cut_read(alloc, &text, case.1) {
        Ok(blocks) => Ok(blocks.as_slice() == wanted.as_slice()),
        Err(_) => Ok(false),
    }
}

#[test]
fn nodes_are_dealt_in_turn(rt: HostRuntime) -> Result<(), Fail> {
    for case in CUTS {
        if !cut_is(rt.alloc(), case)? {
            return Err(Fail::from(case.0));
        }
    }
    Ok(())
}

// Sixteen nodes of eight leads, of which none begins as the one before it.
const NODES: &str =
    "0 pppppppp\n0 bppppppp\n0 pppppppb\n0 bppppppb\n0 ppppppbp\n0 bpppppbp\n0 ppppppbb\n0 bpppppbb\n0 pppppbpp\n0 bppppbpp\n0 pppppbpb\n0 bppppbpb\n0 pppppbbp\n0 bppppbbp\n0 pppppbbb\n0 bppppbbb\n";

// The last lines of a checkpoint before and behind these nodes, and those of its two shards; none where it is not cut as
// it is read.
type Read = (
    &'static str,
    &'static str,
    Option<(&'static str, &'static str)>,
);

const READS: &[Read] = &[
    (
        "found 0\njobs 1\njob 16\n",
        "end\n",
        Some((
            "found 0\njobs 1\njob 8\n0 pppppppp\n7 b\n6 bp\n7 b\n5 bpp\n7 b\n6 bp\n7 b\nend\n",
            "found 0\njobs 1\njob 8\n0 bppppppp\n7 b\n6 bp\n7 b\n5 bpp\n7 b\n6 bp\n7 b\nend\n",
        )),
    ),
    // Another job, and a found touch.
    (
        "found 1\n20 bb\njobs 2\njob 16\n",
        "job 1\n0 pb\nend\n",
        Some((
            "found 1\n20 bb\njobs 1\njob 9\n0 pppppppp\n7 b\n6 bp\n7 b\n5 bpp\n7 b\n6 bp\n7 b\n1 b\nend\n",
            "found 0\njobs 1\njob 8\n0 bppppppp\n7 b\n6 bp\n7 b\n5 bpp\n7 b\n6 bp\n7 b\nend\n",
        )),
    ),
    // The same node twice, one above another, one below another, and one above a found touch.
    ("found 0\njobs 1\njob 17\n", "8 -\nend\n", None),
    ("found 0\njobs 1\njob 17\n", "0 pppppppp\nend\n", None),
    ("found 0\njobs 1\njob 17\n", "0 ppppppb\nend\n", None),
    ("found 0\njobs 1\njob 17\n", "0 ppppppppp\nend\n", None),
    ("found 1\n20 bb\njobs 1\njob 17\n", "1 b\nend\n", None),
    // One longer than a part may be, and one that leaves out too little.
    ("found 0\njobs 1\njob 17\n", "0 bbbbbbbbbbbbb\nend\n", None),
    ("found 0\njobs 1\njob 17\n", "0 bb\nend\n", None),
    // Too few lines, an empty job, something behind the end, and no end.
    ("found 0\njobs 1\njob 17\n", "end\n", None),
    ("found 0\njobs 2\njob 16\n", "job 0\nend\n", None),
    ("found 0\njobs 1\njob 16\n", "end\nend\n", None),
    ("found 0\njobs 1\njob 16\n", "", None),
    // Found touches out of order, and one that is not kept.
    ("found 2\n40 pppp\n20 bb\njobs 1\njob 16\n", "end\n", None),
    ("found 1\n10 b\njobs 1\njob 16\n", "end\n", None),
];

// A text of pieces.
fn text_of(
    alloc: Global,
    head: &str,
    before: &str,
    nodes: &str,
    behind: &str,
) -> Result<Vec<u8>, Fail> {
    let mut text = head.as_bytes().to_vec(alloc)?;
    for piece in [before, nodes, behind] {
        text.extend_from_slice(piece.as_bytes())?;
    }
    Ok(text)
}

// The pieces of a cut, joined.
fn joined(alloc: Global, pieces: &[Vec<u8>]) -> Result<Vec<u8>, Fail> {
    let mut text = Vec::new(alloc);
    for piece in pieces {
        text.extend_from_slice(piece)?;
    }
    Ok(text)
}

fn read_is(alloc: Global, case: &Read) -> Result<bool, Fail> {
    let text = text_of(alloc, DOUBLES, case.0, NODES, case.1)?;
    match (cut_text(alloc, &text, 2), case.2) {
        (Ok(Some(pieces)), Some((first, second))) => {
            let wanted = blocks_of(alloc, first, second, "")?;
            Ok(joined(alloc, &pieces)?.as_slice() == wanted.as_slice())
        }
        (Ok(None), None) => Ok(true),
        _ => Ok(false),
    }
}

#[test]
fn a_text_is_cut_as_it_is_read(rt: HostRuntime) -> Result<(), Fail> {
    for case in READS {
        if !read_is(rt.alloc(), case)? {
            return Err(Fail::from(case.1));
        }
    }
    Ok(())
}

// Whether a text is not cut as it is read.
fn is_left(alloc: Global, text: &[u8]) -> bool {
    match cut_text(alloc, text, 2) {
        Ok(None) => true,
        _ => false,
    }
}

#[test]
fn what_has_few_nodes_is_read_first(rt: HostRuntime) -> Result<(), Fail> {
    let few = text_of(rt.alloc(), DOUBLES, BOTH, "", "")?;
    if is_left(rt.alloc(), &few)
        && is_left(rt.alloc(), b"stage = 4\n")
        && is_left(rt.alloc(), b"")
    {
        Ok(())
    } else {
        Err(Fail::from("few nodes"))
    }
}

// The number of a fault, its numbers, and the number of a fault inside.
type Told = (u8, u64, u64);

fn told(fault: JoinFault) -> Told {
    match fault {
        JoinFault::Form(place) => (1, place, 0),
        JoinFault::Blocks(number) => (2, number, 0),
        JoinFault::Check(body, why) => (3, body, line_of(why)),
        JoinFault::OtherProblem(body, place) => (4, body, place),
        JoinFault::Overlap(body, other) => (5, body, other),
        JoinFault::NoMemory => (6, 0, 0),
    }
}

// The line of a fault of form.
fn line_of(fault: CheckFault) -> u64 {
    match fault {
        CheckFault::Form(line) => line,
        _ => 0,
    }
}

// The last lines of three bodies, and those of what is joined, or the fault.
type Join = (
    &'static str,
    &'static str,
    &'static str,
    Result<&'static str, Told>,
);

const JOINS: &[Join] = &[
    (FIRST, SECOND, "", Ok(BOTH)),
    (FIRST, EMPTY, SECOND, Ok(BOTH)),
    (
        SECOND,
        FIRST,
        "",
        Ok("found 0\njobs 2\njob 1\n0 p\njob 1\n0 b\nend\n"),
    ),
    (
        "found 1\n40 pppp\njobs 0\nend\n",
        TOUCH,
        "",
        Ok("found 2\n20 bb\n40 pppp\njobs 0\nend\n"),
    ),
    ("", "", "", Err((2, 0, 0))),
    (FIRST, FIRST, "", Err((5, 0, 1))),
    (TOUCH, TOUCH, "", Err((5, 0, 1))),
    (FIRST, TOUCH, "", Err((5, 0, 1))),
    (TOUCH, FIRST, "", Err((5, 0, 1))),
    (FIRST, SECOND, FIRST, Err((5, 0, 2))),
    (
        "found 0\njobs 1\njob 1\n0 pb\nend\n",
        "found 0\njobs 1\njob 1\n0 pp\nend\n",
        SECOND,
        Err((5, 0, 2)),
    ),
    (FIRST, FIRST, "found 0\n", Err((3, 2, 15))),
];

fn join_is(alloc: Global, case: &Join) -> Result<bool, Fail> {
    let text = blocks_of(alloc, case.0, case.1, case.2)?;
    match (join_blocks(alloc, &text), case.3) {
        (Ok(joined), Ok(lines)) => {
            let mut wanted = DOUBLES.as_bytes().to_vec(alloc)?;
            wanted.extend_from_slice(lines.as_bytes())?;
            Ok(joined.as_slice() == wanted.as_slice())
        }
        (Err(why), Err(fault)) => Ok(told(why) == fault),
        _ => Ok(false),
    }
}

#[test]
fn shards_are_joined_or_refused(rt: HostRuntime) -> Result<(), Fail> {
    for case in JOINS {
        if !join_is(rt.alloc(), case)? {
            return Err(Fail::from(case.0));
        }
    }
    Ok(())
}

// Why a text is not joined.
fn fault_of(alloc: Global, text: &[u8]) -> Option<Told> {
    match join_blocks(alloc, text) {
        Ok(_) => None,
        Err(why) => Some(told(why)),
    }
}

#[test]
fn a_text_that_ends_early_is_told_by_its_length(rt: HostRuntime) -> Result<(), Fail> {
    let text = blocks_of(rt.alloc(), FIRST, SECOND, "")?;
    let front = text.get(..399).unwrap_or_default();
    if text.len() == 400 && fault_of(rt.alloc(), front) == Some((1, 399, 0)) {
        Ok(())
    } else {
        Err(Fail::from("a front"))
    }
}

#[test]
fn another_problem_is_told_by_its_byte(rt: HostRuntime) -> Result<(), Fail> {
    let mut text = blocks_of(rt.alloc(), FIRST, "", "")?;
    add_body(
        rt.alloc(),
        &mut text,
        MINIMUS,
        "found 0\njobs 1\njob 1\n0 -\nend\n",
    )?;
    if fault_of(rt.alloc(), &text) == Some((4, 1, 8)) {
        Ok(())
    } else {
        Err(Fail::from("another problem"))
    }
}

#[test]
fn a_problem_file_is_no_shard(rt: HostRuntime) -> Result<(), Fail> {
    let mut text = blocks_of(rt.alloc(), FIRST, FIRST, "")?;
    add_body(rt.alloc(), &mut text, "stage = 4\n", "")?;
    if fault_of(rt.alloc(), &text) == Some((3, 2, 1)) {
        Ok(())
    } else {
        Err(Fail::from("a problem file"))
    }
}
