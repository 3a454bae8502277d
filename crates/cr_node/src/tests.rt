use super::laws::work_goes_on;
use super::*;
use cr_model::{Calling, Lead, Problem, Query, Step};
use cr_row::{Change, Stage};
use std::alloc::Global;
use std::mem;
use std::test::Fail;

// A problem on four bells with one lead of two crosses.
fn problem(alloc: Global, parts: i64) -> Result<Problem, Fail> {
    let stage = Stage::new(4).ok_or("the stage is from 3 to 16")?;
    let cross = Change::from_places(stage, &[]).ok();
    let changes = [cross.ok_or("a cross is a change")?; 2].to_vec(alloc)?;
    let step = Step {
        method: 0,
        mark: b'p',
    };
    let mut leads = Vec::new(alloc);
    leads.push(Lead { step, changes })?;
    let query = Query {
        min: 1,
        max: 24,
        parts,
        counts: Vec::new(alloc),
        method_counts: Vec::new(alloc),
        patterns: Vec::new(alloc),
        com: None,
    };
    match Problem::new(stage, [b'A'].to_vec(alloc)?, leads, query) {
        Ok(problem) => Ok(problem),
        Err(_) => Err(Fail::from("the parts are refused")),
    }
}

// The words of a text, each ended by a stroke. A plain lead is step 0, a bob 1, and a single 2.
fn words(alloc: Global, text: &[u8]) -> Result<Vec<Vec<u8>>, Fail> {
    let mut words = Vec::new(alloc);
    let mut word = Vec::new(alloc);
    for mark in text {
        match mark {
            b'/' => words.push(mem::replace(&mut word, Vec::new(alloc)))?,
            b'p' => word.push(0)?,
            b'b' => word.push(1)?,
            _ => word.push(2)?,
        }
    }
    Ok(words)
}

fn nodes(alloc: Global, text: &[u8]) -> Result<Vec<Node>, Fail> {
    let mut nodes = Vec::new(alloc);
    for word in words(alloc, text)? {
        match Node::new(word) {
            Ok(node) => nodes.push(node)?,
            Err(_) => return Err(Fail::from("the word is short")),
        }
    }
    Ok(nodes)
}

fn callings(alloc: Global, text: &[u8]) -> Result<Vec<Calling>, Fail> {
    let mut callings = Vec::new(alloc);
    for word in words(alloc, text)? {
        match Calling::new(word) {
            Ok(calling) => callings.push(calling)?,
            Err(_) => return Err(Fail::from("the word is short")),
        }
    }
    Ok(callings)
}

// Found touches of one part, nodes, and the pair that overlaps first.
const CASES: &[(&str, &[u8], &[u8], Option<(u64, u64)>)] = &[
    ("p and pb", b"", b"p/pb/", Some((0, 1))),
    ("pb and p", b"", b"pb/p/", Some((0, 1))),
    ("no node", b"", b"", None),
    ("the root alone", b"", b"/", None),
    ("the root and another", b"", b"pb//", Some((0, 1))),
    ("nodes apart", b"", b"pp/pb/b/s/", None),
    ("equal nodes", b"", b"b/pb/pb/", Some((1, 2))),
    ("two overlaps", b"", b"pb/b/bb/pbp/", Some((1, 2))),
    ("the lesser word", b"", b"pb/pp/p/", Some((1, 2))),
    ("touches alone", b"p/pb/pb/", b"", None),
    ("a node above a touch", b"pb/", b"b/p/", Some((0, 2))),
    ("a node that is a touch", b"pb/", b"pb/", Some((0, 1))),
    ("a node below a touch", b"pb/", b"pbb/", None),
    ("equal touches", b"pb/pb/", b"b/p/", Some((0, 3))),
    ("the lesser touch", b"pb/pp/", b"s//", Some((1, 3))),
    ("a touch and a node", b"pbb/", b"pp/p/", Some((1, 2))),
    ("touches and nodes", b"pb/p/", b"pp/b/", None),
];

#[test]
fn overlaps(rt: HostRuntime) -> Result<(), Fail> {
    let problem = problem(rt.alloc(), 1)?;
    for &(name, found, left, overlap) in CASES {
        let found = callings(rt.alloc(), found)?;
        let left = nodes(rt.alloc(), left)?;
        if independent(rt.alloc(), &problem, &found, &left)? != overlap {
            return Err(Fail::from(name));
        }
    }
    Ok(())
}

// The part of pbpb is pb, and pbp is not above it.
#[test]
fn overlaps_of_parts(rt: HostRuntime) -> Result<(), Fail> {
    let problem = problem(rt.alloc(), 2)?;
    let found = callings(rt.alloc(), b"pbpb/")?;
    let below = nodes(rt.alloc(), b"pbp/")?;
    assert_eq!(rt; independent(rt.alloc(), &problem, &found, &below)?, None);
    let above = nodes(rt.alloc(), b"b/pb/")?;
    assert_eq!(rt;
        independent(rt.alloc(), &problem, &found, &above)?,
        Some((0, 2))
    );
    Ok(())
}

#[test]
fn nodes_are_short(rt: HostRuntime) -> Result<(), Fail> {
    assert!(rt; Node::root(rt.alloc()).steps().is_empty());
    let Err(list) = Node::new([1; 1025].to_vec(rt.alloc())?) else {
        return Err(Fail::from("1,025 steps are taken"));
    };
    assert_eq!(rt; list.len(), 1025);
    let Ok(node) = Node::new([1; 1024].to_vec(rt.alloc())?) else {
        return Err(Fail::from("1,024 steps are refused"));
    };
    assert_eq!(rt; node.copy(rt.alloc())?.steps(), node.steps());
    Ok(())
}

// Up to 30 steps lie in the node itself.
#[test]
fn nodes_of_few_steps_and_of_many(rt: HostRuntime) -> Result<(), Fail> {
    for length in [0, 1, 29, 30, 31, 1_024] {
        let steps = Vec::from_elem(rt.alloc(), 3, length)?;
        let node = Node::from_slice(rt.alloc(), &steps)?;
        assert_eq!(rt; node.steps(), steps.as_slice());
        assert_eq!(rt; node.copy(rt.alloc())?.steps(), steps.as_slice());
    }
    Ok(())
}

// Two nodes, whether the first is less, and whether it is a prefix.
const PAIRS: &[(&str, &[u8], bool, bool)] = &[
    ("the root twice", b"//", false, true),
    ("the root and another", b"/p/", true, true),
    ("another and the root", b"p//", false, false),
    ("a node and one below it", b"pb/pbp/", true, true),
    ("a node and one above it", b"pbp/pb/", false, false),
    ("a lesser node", b"pbb/pp/", false, false),
    ("a greater node", b"pp/b/", true, false),
];

#[test]
fn pairs_of_nodes(rt: HostRuntime) -> Result<(), Fail> {
    for &(name, text, is_less, begins) in PAIRS {
        let both = nodes(rt.alloc(), text)?;
        let [first, second] = both.as_slice() else {
            return Err(Fail::from(name));
        };
        if less(first, second) != is_less || is_prefix(first, second) != begins {
            return Err(Fail::from(name));
        }
    }
    Ok(())
}

// The root alone, of which nothing is explored.
fn not_begun(alloc: Global, problem: Problem) -> Result<Done, Fail> {
    work_goes_on();
    let mut job = Vec::new(alloc);
    job.push(Node::root(alloc))?;
    let mut rest = Vec::new(alloc);
    rest.push(Node::root(alloc))?;
    Ok(Done::new(problem, job, Vec::new(alloc), rest, 0))
}

#[test]
fn work_that_is_not_begun(rt: HostRuntime) -> Result<(), Fail> {
    let done = not_begun(rt.alloc(), problem(rt.alloc(), 1)?)?;
    assert_eq!(rt; done.problem().stage().number(), 4);
    assert_eq!(rt;
        (done.job().len(), done.found().len(), done.rest().len()),
        (1, 0, 1)
    );
    assert_eq!(rt; done.used(), 0);
    let parts = done.into_parts();
    assert_eq!(rt;
        (parts.job.len(), parts.found.len(), parts.rest.len()),
        (1, 0, 1)
    );
    assert_eq!(rt; parts.used, 0);
    Ok(())
}
