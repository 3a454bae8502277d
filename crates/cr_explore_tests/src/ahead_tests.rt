//! Tests of the search that counts no turns: it finds the same, and passes nodes by.

use cr_explore::{NarrowSearch, Search, make_search};
use cr_model::Cell::Bell;
use cr_model::{Calling, Count};
use cr_node::laws::work_goes_on;
use cr_node::{Explorer, Node};
use cr_samples::{DOUBLES, Draft, MINIMUS, problem_of};
use std::alloc::Global;
use std::test::*;
use std::thread::Threads;

// As many turns as no search here takes.
const ALL: u64 = 100_000;

const TWO_PARTS: Draft = Draft {
    parts: 2,
    ..DOUBLES
};

// No touch has fifty changes.
const FIFTY: Draft = Draft {
    length: (50, 50),
    ..DOUBLES
};

// No touch has one bob.
const ONE_BOB: Draft = Draft {
    counts: &[Count {
        mark: b'b',
        min: 1,
        max: 1,
    }],
    ..DOUBLES
};

const THREE_BOBS: Draft = Draft {
    counts: &[Count {
        mark: b'b',
        min: 3,
        max: 3,
    }],
    ..DOUBLES
};

const PATTERN: Draft = Draft {
    length: (60, 60),
    cells: &[Bell(1), Bell(4), Bell(2), Bell(5), Bell(3)],
    ..DOUBLES
};

// The problem, the marks of the touches that are found below the root, each ended by a stroke, and the turns of a search
// that takes every one, and of one that passes nodes by.
type Case = (&'static str, Draft, &'static [u8], u64, u64);

const CASES: &[Case] = &[
    ("minimus", MINIMUS, b"ppp/", 4, 4),
    (
        "doubles",
        DOUBLES,
        b"pppp/pppbpppbpppb/ppbpbppbpb/pbpbpb/bb/",
        32,
        32,
    ),
    ("two parts", TWO_PARTS, b"pppp/ppbpbppbpb/bb/", 18, 18),
    ("fifty changes", FIFTY, b"", 7, 1),
    ("one bob", ONE_BOB, b"", 15, 9),
    ("three bobs", THREE_BOBS, b"pppbpppbpppb/pbpbpb/", 31, 29),
    ("a pattern", PATTERN, b"bpbpbp/", 20, 17),
];

// The marks of touches, each ended by a stroke, and the turns that found them.
#[derive(Drop)]
struct Told {
    text: Vec<u8>,
    used: u64,
}

fn told_of(alloc: Global, draft: &Draft, found: &[Calling], used: u64) -> Result<Told, Fail> {
    let mut text = Vec::new(alloc);
    for touch in found {
        write_marks(&mut text, draft, touch.steps())?;
    }
    Ok(Told { text, used })
}

// Appends the marks of some steps, and a stroke.
fn write_marks(text: &mut Vec<u8>, draft: &Draft, steps: &[u8]) -> Result<(), Fail> {
    for step in steps {
        match draft.leads.get(usize::from(*step)) {
            Some((_, mark, _)) => text.push(*mark)?,
            None => return Err(Fail::from("the step is a lead's")),
        }
    }
    text.push(b'/')?;
    Ok(())
}

// What every turn on the root finds.
fn found_by_turns(alloc: Global, draft: &Draft, search: &Search) -> Result<Told, Fail> {
    work_goes_on();
    let mut job = Vec::new(alloc);
    job.push(Node::root(alloc))?;
    let done = search.explore(alloc, &job, ALL)?;
    told_of(alloc, draft, done.found(), done.used())
}

// What a search finds below the root that passes nodes by.
fn found_ahead(alloc: Global, draft: &Draft, search: &NarrowSearch) -> Result<Told, Fail> {
    work_goes_on();
    let mut job = Vec::new(alloc);
    job.push(Node::root(alloc))?;
    let done = search.find_all(alloc, &job, ALL)?;
    if !done.rest.is_empty() {
        return Err(Fail::from("nothing is left"));
    }
    told_of(alloc, draft, &done.found, done.used)
}

// The same of the search that looks ahead.
fn found_narrow(alloc: Global, draft: &Draft, search: &Search) -> Result<Told, Fail> {
    match search.looking_ahead(alloc)? {
        Some(narrow) => found_ahead(alloc, draft, &narrow),
        None => Err(Fail::from("what can still come has room")),
    }
}

fn is_told(told: &Told, text: &[u8], used: u64) -> bool {
    told.text.as_slice() == text && told.used == used
}

// A case by a search of its problem.
fn check(alloc: Global, case: Case, search: &Search) -> Result<(), Fail> {
    let (name, draft, wanted, turns, narrow_turns) = case;
    let every = found_by_turns(alloc, &draft, search)?;
    let narrow = found_narrow(alloc, &draft, search)?;
    if is_told(&every, wanted, turns) && is_told(&narrow, wanted, narrow_turns) {
        Ok(())
    } else {
        Err(Fail::from(name))
    }
}

fn check_case(rt: &(impl AllocGlobal + Threads + Sync), case: Case) -> Result<(), Fail> {
    let problem = problem_of(rt.alloc(), &case.1)?;
    let search = make_search(rt, rt.alloc(), &problem)?;
    check(rt.alloc(), case, &search)
}

#[test]
fn touches_are_found_where_nodes_are_passed_by(rt: HostRuntime) -> Result<(), Fail> {
    for case in CASES {
        check_case(&rt, *case)?;
    }
    Ok(())
}
