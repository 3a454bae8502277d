//! What no clause says: searches that are cut, searched in shards and joined, with ample memory, and what does not belong
//! together.

use crate::checkpoints::{doubles, minimus};
use crate::stop_tests::MINIMUS;
use crate::test_calls::{Ending, check, check_faults, ends};
use std::test::Fail;

// A checkpoint of Plain Bob Doubles with two jobs, of 200 bytes.
const WHOLE: &str = doubles! {
    "", "found 0\njobs 2\njob 1\n0 b\njob 1\n0 p\nend\n";
};

// Its first shard of two.
const FIRST: &str = doubles! {
    "", "found 0\njobs 1\njob 1\n0 b\nend\n";
};

// Its second shard of two.
const SECOND: &str = doubles! {
    "", "found 0\njobs 1\njob 1\n0 p\nend\n";
};

// Both as blocks, of 400 bytes.
const TWO: &str = doubles! {
    "block 190\n", "found 0\njobs 1\njob 1\n0 b\nend\n";
    "block 190\n", "found 0\njobs 1\njob 1\n0 p\nend\n";
};

// Its three shards as blocks.
const THREE: &str = doubles! {
    "block 190\n", "found 0\njobs 1\njob 1\n0 b\nend\n";
    "block 190\n", "found 0\njobs 1\njob 1\n0 p\nend\n";
    "block 180\n", "found 0\njobs 0\nend\n";
};

// Its one shard as a block.
const ONE: &str = doubles! {
    "block 194\n", "found 0\njobs 1\njob 2\n0 b\n0 p\nend\n";
};

// The first shard twice.
const TWICE: &str = doubles! {
    "block 190\n", "found 0\njobs 1\njob 1\n0 b\nend\n";
    "block 190\n", "found 0\njobs 1\njob 1\n0 b\nend\n";
};

// Plain Bob Minimus cut into one.
const ROOT: &str = minimus! {
    "block 147\n", "found 0\njobs 1\njob 1\n0 -\nend\n";
};

// The first shard as a block.
const FIRST_BLOCK: &str = doubles! {
    "block 190\n", "found 0\njobs 1\njob 1\n0 b\nend\n";
};

// What the first shard covers.
const FIRST_BOOK: &str = "20 bb\ntouches 1\n";

// What the second shard covers.
const SECOND_BOOK: &str = "40 pppp\n60 pbpbpb\n100 ppbpbppbpb\n120 pppbpppbpppb\ntouches 4\n";

const CUT: &[&str] = &["--do", "cut", "--into", "2"];

const JOIN: &[&str] = &["--do", "join"];

// The words, what is read, and how the call ends.
const CALLS: &[(&[&str], &str, Ending<'static>)] = &[
    (CUT, WHOLE, (0, TWO, "")),
    (&["--do", "cut", "--into", "3"], WHOLE, (0, THREE, "")),
    (&["--do", "cut"], WHOLE, (0, ONE, "")),
    (&["--do", "cut"], MINIMUS, (0, ROOT, "")),
    (&[], FIRST, (0, FIRST_BOOK, "")),
    (&[], SECOND, (0, SECOND_BOOK, "")),
    (JOIN, TWO, (0, WHOLE, "")),
    (JOIN, THREE, (0, WHOLE, "")),
    (JOIN, TWICE, (11, "", "ringsearch: join 5 Overlap 0 1\n")),
    (JOIN, "", (11, "", "ringsearch: join 2 Blocks 0\n")),
    (
        JOIN,
        "block 2\nab",
        (11, "", "ringsearch: join 3 Check 0 1 Form 1\n"),
    ),
    (JOIN, "book", (11, "", "ringsearch: join 1 Form 1\n")),
    (CUT, "", (4, "", "ringsearch: problem 2 Key stage\n")),
    (
        CUT,
        "ringsearch checkpoint 3\n",
        (5, "", "ringsearch: checkpoint 1 Form 1\n"),
    ),
    (
        &["--do", "cut", "--into", "0"],
        WHOLE,
        (2, "", "ringsearch: words 9 Into\n"),
    ),
];

#[test]
fn searches_are_cut_and_joined(rt: HostRuntime) -> Result<(), Fail> {
    for &(words, input, ending) in CALLS {
        check(ending.1, ends(&rt, words, input.as_bytes(), ending)?)?;
    }
    Ok(())
}

#[test]
fn shards_of_other_problems_are_not_joined(rt: HostRuntime) -> Result<(), Fail> {
    let input = format!(in rt.alloc(); "{FIRST_BLOCK}{ROOT}")?;
    let ending = (11, "", "ringsearch: join 4 OtherProblem 1 8\n");
    check(
        "another problem",
        ends(&rt, JOIN, input.as_bytes(), ending)?,
    )
}

#[test]
fn shards_that_end_early_are_told_by_their_length(rt: HostRuntime) -> Result<(), Fail> {
    check("400 bytes", TWO.len() == 400)?;
    let front = TWO.as_bytes().get(..399).unwrap_or_default();
    let ending = (11, "", "ringsearch: join 1 Form 399\n");
    check("399 bytes", ends(&rt, JOIN, front, ending)?)
}

// The words, and what is read.
const FAILING: &[(&[&str], &str)] = &[(CUT, WHOLE), (JOIN, TWO)];

#[test]
fn reads_and_writes_that_fail_are_told(rt: HostRuntime) -> Result<(), Fail> {
    for &(words, input) in FAILING {
        check_faults(&rt, words, input.as_bytes())?;
    }
    Ok(())
}
