//! Outlooks of Plain Bob Doubles, with numbers that are worked by hand.

use super::lead_heads::are_lead_heads;
use super::*;
use cr_model::{Cell, Count, Lead, MethodCount, Pattern, Problem, Query, Step};
use cr_row::{Change, Row, Stage};

// The 24 lead heads of Plain Bob Doubles, and the places of those that a plain lead and a bob lead to.
const HEADS: &[[u8; 5]] = &[
    [1, 2, 3, 4, 5],
    [1, 3, 5, 2, 4],
    [1, 2, 3, 5, 4],
    [1, 5, 4, 3, 2],
    [1, 3, 5, 4, 2],
    [1, 3, 4, 2, 5],
    [1, 4, 2, 5, 3],
    [1, 5, 4, 2, 3],
    [1, 5, 2, 3, 4],
    [1, 4, 5, 3, 2],
    [1, 3, 4, 5, 2],
    [1, 4, 2, 3, 5],
    [1, 4, 3, 5, 2],
    [1, 2, 4, 5, 3],
    [1, 5, 2, 4, 3],
    [1, 4, 5, 2, 3],
    [1, 2, 5, 4, 3],
    [1, 3, 2, 4, 5],
    [1, 4, 3, 2, 5],
    [1, 2, 4, 3, 5],
    [1, 5, 3, 4, 2],
    [1, 5, 3, 2, 4],
    [1, 2, 5, 3, 4],
    [1, 3, 2, 5, 4],
];

// The places of rounds, and of the heads after a plain lead, after a bob, and after a plain lead and a bob.
const ROUNDS: u32 = 0;

const PLAIN: u32 = 1;

const BOB: u32 = 2;

const PLAIN_BOB: u32 = 4;

// What is asked of a touch: its length, its parts, how many bobs, how many leads of the method, and how often rounds
// comes. Limits from 0 to 12,000 are left out.
struct Asked {
    length: (i64, i64),
    parts: i64,
    bobs: (i64, i64),
    leads: (i64, i64),
    rounds: (i64, i64),
}

const ANY: (i64, i64) = (0, 12_000);

const COURSE: Asked = Asked {
    length: (40, 40),
    parts: 1,
    bobs: ANY,
    leads: ANY,
    rounds: ANY,
};

// Of a node the place of its head, its changes, what it has so far, and whether it cannot come to what is asked.
type Node = (u32, u32, &'static [u32], bool);

// Just four plain leads and four bobs are four leads that come home. In two parts just two plain leads come home half way.
// Five leads are an odd permutation. Rounds comes once in four plain leads, and twice in four bobs.
const CASES: &[(&str, Asked, &[Node])] = &[
    (
        "no items",
        COURSE,
        &[
            (ROUNDS, 0, &[], false),
            (PLAIN, 10, &[], false),
            (ROUNDS, 20, &[], false),
            (PLAIN_BOB, 20, &[], true),
            (ROUNDS, 40, &[], false),
            (ROUNDS, 50, &[], true),
        ],
    ),
    (
        "an odd number of leads",
        Asked {
            length: (50, 50),
            ..COURSE
        },
        &[(ROUNDS, 0, &[], true), (PLAIN, 10, &[], true)],
    ),
    (
        "no number of leads",
        Asked {
            length: (41, 49),
            ..COURSE
        },
        &[(ROUNDS, 0, &[], true)],
    ),
    (
        "at most three bobs",
        Asked {
            bobs: (0, 3),
            ..COURSE
        },
        &[
            (ROUNDS, 0, &[0], false),
            (PLAIN, 10, &[0], false),
            (BOB, 10, &[1], true),
        ],
    ),
    (
        "at least one bob",
        Asked {
            bobs: (1, 12_000),
            ..COURSE
        },
        &[
            (ROUNDS, 0, &[0], false),
            (PLAIN, 10, &[0], true),
            (BOB, 10, &[1], false),
        ],
    ),
    (
        "five bobs",
        Asked {
            bobs: (5, 9),
            ..COURSE
        },
        &[(ROUNDS, 0, &[0], true)],
    ),
    (
        "four leads, and two bobs or three",
        Asked {
            bobs: (2, 3),
            leads: (4, 4),
            ..COURSE
        },
        &[(ROUNDS, 0, &[0, 0], false), (BOB, 10, &[1, 1], true)],
    ),
    (
        "five leads",
        Asked {
            bobs: (0, 9),
            leads: (5, 9),
            ..COURSE
        },
        &[(ROUNDS, 0, &[0, 0], true)],
    ),
    (
        "rounds at most once",
        Asked {
            rounds: (0, 1),
            ..COURSE
        },
        &[
            (ROUNDS, 0, &[0], false),
            (PLAIN, 10, &[0], false),
            (BOB, 10, &[0], true),
        ],
    ),
    (
        "rounds twice",
        Asked {
            rounds: (2, 9),
            ..COURSE
        },
        &[
            (ROUNDS, 0, &[0], false),
            (PLAIN, 10, &[0], true),
            (BOB, 10, &[0], false),
        ],
    ),
    (
        "bobs in two parts, where rows are not looked at",
        Asked {
            parts: 2,
            bobs: (0, 0),
            rounds: (9, 9),
            ..COURSE
        },
        &[(ROUNDS, 0, &[0], false), (BOB, 10, &[1], true)],
    ),
];

#[test]
fn plain_bob_doubles(rt: HostRuntime) -> Result<(), Fail> {
    for (name, asked, nodes) in CASES {
        if !is_told(rt.alloc(), asked, nodes)? {
            return Err(Fail::from(*name));
        }
    }
    Ok(())
}

// A table has five lengths, of none to four leads, for each of 24 heads.
#[test]
fn room_for_one_table(rt: HostRuntime) -> Result<(), Fail> {
    assert!(rt; has_room(rt.alloc(), 960)?);
    assert!(rt; !has_room(rt.alloc(), 959)?);
    Ok(())
}

fn has_room(alloc: Global, most_bytes: u64) -> Result<bool, Fail> {
    let problem = problem(alloc, &COURSE)?;
    Ok(outlook(alloc, &problem, most_bytes)?.is_some())
}

fn is_told(alloc: Global, asked: &Asked, nodes: &[Node]) -> Result<bool, Fail> {
    let problem = problem(alloc, asked)?;
    match outlook(alloc, &problem, 10_000)? {
        Some(outlook) => Ok(tells(&outlook, nodes)),
        None => Ok(false),
    }
}

fn tells(outlook: &Outlook, nodes: &[Node]) -> bool {
    for &(place, changes, so_far, wanted) in nodes {
        if place as usize >= outlook.places() || so_far.len() != outlook.items() {
            return false;
        }
        if outlook.cannot_come(place, changes, so_far, None, 0) != wanted {
            return false;
        }
    }
    true
}

fn outlook(alloc: Global, problem: &Problem, most_bytes: u64) -> Result<Option<Outlook>, Fail> {
    let heads = heads(alloc)?;
    let next = DOUBLES.0;
    if are_lead_heads(alloc, problem, &heads, next)? {
        Ok(Outlook::new(alloc, problem, &heads, next, most_bytes)?)
    } else {
        Err(Fail::from("the heads lead to one another"))
    }
}

fn heads(alloc: Global) -> Result<Vec<Row>, Fail> {
    heads_of(alloc, HEADS)
}

pub fn heads_of(alloc: Global, rows: &[[u8; 5]]) -> Result<Vec<Row>, Fail> {
    let mut heads = Vec::new(alloc);
    for bells in rows {
        heads.push(Row::of(bells).ok_or("the bells are a row")?)?;
    }
    Ok(heads)
}

fn problem(alloc: Global, asked: &Asked) -> Result<Problem, Fail> {
    let stage = Stage::new(5).ok_or("five bells are a stage")?;
    let letters = Vec::from_slice(alloc, b"A")?;
    let mut leads = Vec::new(alloc);
    leads.push(lead(alloc, stage, 0, b'p', &[1, 2, 5])?)?;
    leads.push(lead(alloc, stage, 0, b'b', &[1, 4, 5])?)?;
    match Problem::new(stage, letters, leads, query(alloc, asked)?) {
        Ok(problem) => Ok(problem),
        Err(_) => Err(Fail::from("the parts are a problem's")),
    }
}

// A lead of Plain Bob Doubles with these places at its end.
pub fn lead(alloc: Global, stage: Stage, method: u8, mark: u8, last: &[u8]) -> Result<Lead, Fail> {
    let mut changes = Vec::new(alloc);
    for index in 0..9 {
        let places: &[u8] = if index % 2 == 0 { &[5] } else { &[1] };
        changes.push(change(stage, places)?)?;
    }
    changes.push(change(stage, last)?)?;
    let step = Step { method, mark };
    Ok(Lead { step, changes })
}

fn change(stage: Stage, places: &[u8]) -> Result<Change, Fail> {
    let change = Change::from_places(stage, places).ok();
    Ok(change.ok_or("the places are those of a change")?)
}

fn query(alloc: Global, asked: &Asked) -> Result<Query, Fail> {
    Ok(Query {
        min: asked.length.0,
        max: asked.length.1,
        parts: asked.parts,
        counts: counts(alloc, asked.bobs)?,
        method_counts: method_counts(alloc, asked.leads)?,
        patterns: patterns(alloc, asked.rounds)?,
        com: None,
    })
}

fn counts(alloc: Global, limits: (i64, i64)) -> Result<Vec<Count>, Fail> {
    let mut counts = Vec::new(alloc);
    if limits != ANY {
        counts.push(Count {
            mark: b'b',
            min: limits.0,
            max: limits.1,
        })?;
    }
    Ok(counts)
}

fn method_counts(alloc: Global, limits: (i64, i64)) -> Result<Vec<MethodCount>, Fail> {
    let mut counts = Vec::new(alloc);
    if limits != ANY {
        counts.push(MethodCount {
            letter: b'A',
            min: limits.0,
            max: limits.1,
        })?;
    }
    Ok(counts)
}

fn patterns(alloc: Global, limits: (i64, i64)) -> Result<Vec<Pattern>, Fail> {
    let mut patterns = Vec::new(alloc);
    if limits != ANY {
        let mut cells = Vec::new(alloc);
        for bell in 1..6 {
            cells.push(Cell::Bell(bell))?;
        }
        patterns.push(Pattern {
            cells,
            min: limits.0,
            max: limits.1,
        })?;
    }
    Ok(patterns)
}
