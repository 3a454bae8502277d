//! Where texts that have not a checkpoint's shape go wrong first, and what is read of one that has it.

use crate::tests::{DOUBLES, Told, fault_of, text_of};
use cr_model::Calling;
use cr_node::Node;
use cr_store::{Checkpoint, read_checkpoint};
use std::alloc::Global;
use std::test::Fail;

// The last lines of a checkpoint of version 1 with the root as its only node, which has 188 bytes.
const ROOT: &str = "found 0\njobs 1\njob 1\n-\nend\n";

// The greatest length that the whole text is cut to, and the line that is then wrong.
const CUTS: &[(usize, u64)] = &[
    (23, 1),
    (159, 2),
    (160, 13),
    (168, 14),
    (175, 15),
    (181, 16),
    (183, 17),
    (187, 18),
];

fn fault_of_cut(length: usize) -> Option<Told> {
    for &(most, line) in CUTS {
        if length <= most {
            return Some((1, line, 0));
        }
    }
    None
}

// Whether each beginning of the text has its fault, and the whole text none.
fn cuts_have_their_faults(alloc: Global, text: &[u8]) -> bool {
    for length in 0..text.len() + 1 {
        if fault_of(alloc, &text[..length]) != fault_of_cut(length) {
            return false;
        }
    }
    true
}

#[test]
fn every_cut_is_wrong_on_its_line(rt: HostRuntime) -> Result<(), Fail> {
    let text = text_of(rt.alloc(), "1", "124", DOUBLES, ROOT)?;
    assert!(rt; text.len() == 188);
    assert!(rt; cuts_have_their_faults(rt.alloc(), &text));
    Ok(())
}

// What stands after the first line's words, what comes after the problem, and the fault.
type Case = (&'static str, &'static str, Option<Told>);

const CASES: &[Case] = &[
    ("3", "found 0\njobs 0\nend\n", Some((1, 1, 0))),
    ("0", "found 0\njobs 0\nend\n", Some((1, 1, 0))),
    ("12", "found 0\njobs 0\nend\n", Some((1, 1, 0))),
    ("01", "found 0\njobs 0\nend\n", Some((1, 1, 0))),
    ("", "found 0\njobs 0\nend\n", Some((1, 1, 0))),
    (" 1", "found 0\njobs 0\nend\n", Some((1, 1, 0))),
    ("1 ", "found 0\njobs 0\nend\n", Some((1, 1, 0))),
    ("2\r", "found 0\njobs 0\nend\n", Some((1, 1, 0))),
    ("2", "found 00\njobs 0\nend\n", Some((1, 14, 0))),
    (
        "2",
        "found 9223372036854775807\njobs 0\nend\n",
        Some((1, 15, 0)),
    ),
    (
        "2",
        "found 9223372036854775808\njobs 0\nend\n",
        Some((1, 14, 0)),
    ),
    (
        "2",
        "found 10000000000000000000\njobs 0\nend\n",
        Some((1, 14, 0)),
    ),
    (
        "2",
        "found 18446744073709551617\njobs 0\nend\n",
        Some((1, 14, 0)),
    ),
    ("2", "found \njobs 0\nend\n", Some((1, 14, 0))),
    ("2", "found -1\njobs 0\nend\n", Some((1, 14, 0))),
    ("2", "found +1\n20 bb\njobs 0\nend\n", Some((1, 14, 0))),
    ("2", "found 0 \njobs 0\nend\n", Some((1, 14, 0))),
    ("2", "found  0\njobs 0\nend\n", Some((1, 14, 0))),
    ("2", "Found 0\njobs 0\nend\n", Some((1, 14, 0))),
    ("2", "found 0\r\njobs 0\nend\n", Some((1, 14, 0))),
    ("2", "found 1\n20 \njobs 0\nend\n", Some((1, 15, 0))),
    ("2", "found 1\n20\njobs 0\nend\n", Some((1, 15, 0))),
    ("2", "found 1\n bb\njobs 0\nend\n", Some((1, 15, 0))),
    ("2", "found 1\n20 b-\njobs 0\nend\n", Some((1, 15, 0))),
    ("2", "found 1\n20 -\njobs 0\nend\n", Some((1, 15, 0))),
    ("2", "found 1\n20  bb\njobs 0\nend\n", Some((1, 15, 0))),
    ("2", "found 1\n020 bb\njobs 0\nend\n", Some((1, 15, 0))),
    ("2", "found 1\n0 AZaz\njobs 0\nend\n", Some((3, 15, 0))),
    ("2", "found 1\n20 b@\njobs 0\nend\n", Some((1, 15, 0))),
    ("2", "found 1\n20 b[\njobs 0\nend\n", Some((1, 15, 0))),
    ("2", "found 1\n20 b`\njobs 0\nend\n", Some((1, 15, 0))),
    ("2", "found 1\n20 b{\njobs 0\nend\n", Some((1, 15, 0))),
    ("2", "found 2\n20 bb\njobs 0\nend\n", Some((1, 16, 0))),
    ("2", "found 0\n20 bb\njobs 0\nend\n", Some((1, 15, 0))),
    ("2", "found 0\njobs 1\njob 0\nend\n", Some((1, 16, 0))),
    ("2", "found 0\njobs 1\nend\n", Some((1, 16, 0))),
    ("2", "found 0\njobs 0\njob 1\n0 -\nend\n", Some((1, 16, 0))),
    ("2", "found 0\njobs 2\njob 1\n0 -\nend\n", Some((1, 18, 0))),
    ("2", "found 0\njobs 1\njob 2\n0 -\nend\n", Some((1, 18, 0))),
    (
        "2",
        "found 0\njobs 1\njob 1\n0 b\n0 p\nend\n",
        Some((1, 18, 0)),
    ),
    ("1", "found 0\njobs 1\njob 1\n0 b\nend\n", Some((1, 17, 0))),
    ("1", "found 0\njobs 1\njob 1\n\nend\n", Some((1, 17, 0))),
    ("1", "found 0\njobs 1\njob 1\n- \nend\n", Some((1, 17, 0))),
    ("1", "found 0\njobs 1\njob 1\n-b\nend\n", Some((1, 17, 0))),
    ("1", "found 0\njobs 1\njob 1\n--\nend\n", Some((1, 17, 0))),
    ("2", "found 0\njobs 1\njob 1\nb\nend\n", Some((1, 17, 0))),
    ("2", "found 0\njobs 1\njob 1\n-\nend\n", Some((1, 17, 0))),
    ("2", "found 0\njobs 1\njob 1\n0 \nend\n", Some((1, 17, 0))),
    ("2", "found 0\njobs 1\njob 1\n0 - \nend\n", Some((1, 17, 0))),
    ("2", "found 0\njobs 1\njob 1\n00 -\nend\n", Some((1, 17, 0))),
    (
        "2",
        "found 0\njobs 2\njob 1\n0 -\njob 1\n7 bb\nend\n",
        Some((3, 19, 0)),
    ),
    ("2", "found 0\njobs 0\nend", Some((1, 16, 0))),
    ("2", "found 0\njobs 0\nend \n", Some((1, 16, 0))),
    ("2", "found 0\njobs 0\nend\nx", Some((1, 17, 0))),
    ("2", "found 0\njobs 0\nend\n\n", Some((1, 17, 0))),
    ("2", "found 0\njobs 0\nend\nend\n", Some((1, 17, 0))),
];

#[test]
fn lines_are_right_or_wrong(rt: HostRuntime) -> Result<(), Fail> {
    for &(version, lines, want) in CASES {
        let text = text_of(rt.alloc(), version, "124", DOUBLES, lines)?;
        if fault_of(rt.alloc(), &text) != want {
            return Err(Fail::from(lines));
        }
    }
    Ok(())
}

// Whole texts, and the fault. No bytes are no problem, nor are line feeds alone: there is no stage.
const TEXTS: &[(&str, Option<Told>)] = &[
    ("", Some((1, 1, 0))),
    ("\n", Some((1, 1, 0))),
    ("stage = 5\n", Some((1, 1, 0))),
    ("ringsearch checkpoint 2\n", Some((1, 2, 0))),
    ("ringsearch checkpoint 2\nproblem\n", Some((1, 2, 0))),
    (
        "ringsearch checkpoint 2\nproblem 0\n\nfound 0\njobs 0\nend\n",
        Some((2, 0, 0)),
    ),
    (
        "ringsearch checkpoint 2\nproblem 0\nfound 0\njobs 0\nend\n",
        Some((1, 3, 0)),
    ),
    ("ringsearch checkpoint 2\nproblem 0\n", Some((1, 3, 0))),
    (
        "ringsearch checkpoint 2\nproblem 3\nabcd\nfound 0\njobs 0\nend\n",
        Some((1, 3, 0)),
    ),
    (
        "ringsearch checkpoint 2\nproblem 3\nab\ncd\nfound 0\njobs 0\nend\n",
        Some((1, 4, 0)),
    ),
    (
        "ringsearch checkpoint 2\nproblem 3\n\n\n\n\nfound 0\njobs 0\nend\n",
        Some((2, 0, 0)),
    ),
    (
        "ringsearch checkpoint 2\nproblem 4\n\n\n\n\nfound 0\njobs 0\nend\n",
        Some((1, 7, 0)),
    ),
    (
        "ringsearch checkpoint 2\nproblem 40\n\n\n\nfound 0\njobs 0\nend\n",
        Some((1, 2, 0)),
    ),
    (
        "ringsearch checkpoint 2\nproblem 9223372036854775807\nfound 0\n",
        Some((1, 2, 0)),
    ),
    (
        "ringsearch checkpoint 2\nproblem 9223372036854775808\nfound 0\n",
        Some((1, 2, 0)),
    ),
];

#[test]
fn problems_have_their_bytes(rt: HostRuntime) -> Result<(), Fail> {
    for &(text, want) in TEXTS {
        if fault_of(rt.alloc(), text.as_bytes()) != want {
            return Err(Fail::from(text));
        }
    }
    Ok(())
}

// The last lines of two found touches and two jobs.
const TOLD: &str = "found 2\n20 bb\n40 pppp\njobs 2\njob 2\n0 pb\n1 pb\njob 1\n0 bp\nend\n";

fn are_touches(found: &[Calling]) -> bool {
    let [first, second] = found else {
        return false;
    };
    first.steps() == [1, 1].as_slice() && second.steps() == [0, 0, 0, 0].as_slice()
}

fn are_jobs(jobs: &[Vec<Node>]) -> bool {
    let [first, second] = jobs else {
        return false;
    };
    are_two(first) && are_one(second)
}

fn are_two(nodes: &[Node]) -> bool {
    let [first, second] = nodes else {
        return false;
    };
    first.steps() == [0, 1].as_slice() && second.steps() == [0, 0, 1].as_slice()
}

fn are_one(nodes: &[Node]) -> bool {
    let [node] = nodes else {
        return false;
    };
    node.steps() == [1, 0].as_slice()
}

fn is_told(checkpoint: &Checkpoint) -> bool {
    checkpoint.problem_bytes.as_slice() == DOUBLES.as_bytes()
        && are_touches(&checkpoint.found)
        && are_jobs(&checkpoint.jobs)
}

fn tells_all(alloc: Global, text: &[u8]) -> bool {
    match read_checkpoint(alloc, text) {
        Ok(checkpoint) => is_told(&checkpoint),
        Err(_) => false,
    }
}

#[test]
fn lines_are_told(rt: HostRuntime) -> Result<(), Fail> {
    let text = text_of(rt.alloc(), "2", "124", DOUBLES, TOLD)?;
    assert!(rt; tells_all(rt.alloc(), &text));
    Ok(())
}
