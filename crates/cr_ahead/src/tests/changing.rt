//! Changes of method ahead, with numbers that are worked by hand.

use super::lead_heads::are_lead_heads;
use super::outlooks::{heads_of, lead};
use super::*;
use cr_model::{Com, Problem, Query};
use cr_row::Stage;

// The lead heads of the plain course of Plain Bob Doubles. The plain leads of two methods with the same changes lead from
// each to the next.
const COURSE: &[[u8; 5]] = &[
    [1, 2, 3, 4, 5],
    [1, 3, 5, 2, 4],
    [1, 5, 4, 3, 2],
    [1, 4, 2, 5, 3],
];

const NEXT: &[u32] = &[1, 1, 2, 2, 3, 3, 0, 0];

const NONE: Option<u8> = None;

const A: Option<u8> = Some(0);

const B: Option<u8> = Some(1);

// Of a node its number of leads, its last method, how often it changes method, and whether it cannot come to what is asked.
type Node = (u32, Option<u8>, u32, bool);

// How often a touch of four leads may change method, at least and at most, and nodes. It can do so three times at most, and
// not before its first lead.
const CASES: &[(&str, (i64, i64), &[Node])] = &[
    (
        "never",
        (0, 0),
        &[
            (0, NONE, 0, false),
            (1, A, 0, false),
            (1, B, 0, false),
            (2, B, 1, true),
            (4, A, 0, false),
            (4, B, 1, true),
        ],
    ),
    (
        "at least once",
        (1, 9),
        &[
            (0, NONE, 0, false),
            (3, A, 0, false),
            (3, B, 1, false),
            (4, A, 0, true),
            (4, B, 1, false),
        ],
    ),
    (
        "just twice",
        (2, 2),
        &[
            (0, NONE, 0, false),
            (1, A, 0, false),
            (2, A, 0, false),
            (3, A, 0, true),
            (3, A, 2, false),
            (4, A, 2, false),
            (4, B, 3, true),
        ],
    ),
    (
        "three times",
        (3, 9),
        &[
            (0, NONE, 0, false),
            (1, A, 0, false),
            (1, B, 0, false),
            (2, A, 0, true),
            (2, B, 1, false),
            (3, A, 2, false),
            (3, A, 1, true),
        ],
    ),
    (
        "four times",
        (4, 9),
        &[(0, NONE, 0, true), (1, A, 0, true), (4, B, 3, true)],
    ),
];

#[test]
fn changes_of_method(rt: HostRuntime) -> Result<(), Fail> {
    for (name, limits, nodes) in CASES {
        if !is_told(rt.alloc(), *limits, nodes)? {
            return Err(Fail::from(*name));
        }
    }
    Ok(())
}

// Of 5 lengths the table of ways home has four places, and that of changes of method three for each of these.
#[test]
fn room_for_each_method(rt: HostRuntime) -> Result<(), Fail> {
    assert!(rt; outlook(rt.alloc(), 1, (0, 0), 640)?.is_some());
    assert!(rt; outlook(rt.alloc(), 1, (0, 0), 639)?.is_none());
    Ok(())
}

// In two parts a join of parts may be a change more, and none is looked at.
#[test]
fn in_two_parts_none_is_looked_at(rt: HostRuntime) -> Result<(), Fail> {
    assert!(rt; has_com(rt.alloc(), 1)?);
    assert!(rt; !has_com(rt.alloc(), 2)?);
    Ok(())
}

fn has_com(alloc: Global, parts: i64) -> Result<bool, Fail> {
    match outlook(alloc, parts, (0, 0), 10_000)? {
        Some(outlook) => Ok(outlook.has_com()),
        None => Err(Fail::from("there is room")),
    }
}

fn is_told(alloc: Global, limits: (i64, i64), nodes: &[Node]) -> Result<bool, Fail> {
    match outlook(alloc, 1, limits, 10_000)? {
        Some(outlook) => Ok(tells(&outlook, nodes)),
        None => Ok(false),
    }
}

fn tells(outlook: &Outlook, nodes: &[Node]) -> bool {
    if outlook.items() != 0 {
        return false;
    }
    for &(leads, last, changed, wanted) in nodes {
        let place = leads % 4;
        if place as usize >= outlook.places() || last.unwrap_or(0) >= outlook.methods() {
            return false;
        }
        if outlook.cannot_come(place, leads.wrapping_mul(10), &[], last, changed) != wanted {
            return false;
        }
    }
    true
}

fn outlook(
    alloc: Global,
    parts: i64,
    limits: (i64, i64),
    most_bytes: u64,
) -> Result<Option<Outlook>, Fail> {
    let heads = heads_of(alloc, COURSE)?;
    let problem = problem(alloc, parts, limits)?;
    if are_lead_heads(alloc, &problem, &heads, NEXT)? {
        Ok(Outlook::new(alloc, &problem, &heads, NEXT, most_bytes)?)
    } else {
        Err(Fail::from("the heads lead to one another"))
    }
}

fn problem(alloc: Global, parts: i64, limits: (i64, i64)) -> Result<Problem, Fail> {
    let stage = Stage::new(5).ok_or("five bells are a stage")?;
    let letters = Vec::from_slice(alloc, b"AB")?;
    let mut leads = Vec::new(alloc);
    for method in 0..2 {
        leads.push(lead(alloc, stage, method, b'p', &[1, 2, 5])?)?;
    }
    match Problem::new(stage, letters, leads, query(alloc, parts, limits)) {
        Ok(problem) => Ok(problem),
        Err(_) => Err(Fail::from("the parts are a problem's")),
    }
}

fn query(alloc: Global, parts: i64, limits: (i64, i64)) -> Query {
    Query {
        min: 40,
        max: 40,
        parts,
        counts: Vec::new(alloc),
        method_counts: Vec::new(alloc),
        patterns: Vec::new(alloc),
        com: Some(Com {
            min: limits.0,
            max: limits.1,
        }),
    }
}
