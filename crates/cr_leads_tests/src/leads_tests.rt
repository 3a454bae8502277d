//! Leads and callings of a table, rung.

use cr_leads::{LeadTable, Rung};
use cr_model::Calling;
use cr_row::Row;
use cr_samples::{DOUBLES, Draft, MINIMUS, MINOR, problem_of};
use std::alloc::Global;
use std::test::*;

// Plain Bob Minimus with bobs.
const MINIMUS_WITH_BOBS: Draft = Draft {
    leads: &[
        (0, b'p', b"x.14.x.14.x.14.x.12"),
        (0, b'b', b"x.14.x.14.x.14.x.14"),
    ],
    ..MINIMUS
};

const GRANDSIRE: Draft = Draft {
    leads: &[(0, b'p', b"3.1.5.1.5.1.5.1.5.1")],
    ..DOUBLES
};

fn table(alloc: Global, draft: &Draft) -> Result<LeadTable, Fail> {
    let problem = problem_of(alloc, draft)?;
    match LeadTable::new(alloc, &problem) {
        Ok(table) => Ok(table),
        Err(_) => Err(Fail::from("there is memory")),
    }
}

// A step, and the bells of its head.
const HEADS: &[(&str, Draft, u8, &[u8])] = &[
    ("Minimus plain", MINIMUS_WITH_BOBS, 0, &[1, 3, 4, 2]),
    ("Minimus bob", MINIMUS_WITH_BOBS, 1, &[1, 2, 3, 4]),
    ("Doubles plain", DOUBLES, 0, &[1, 3, 5, 2, 4]),
    ("Doubles bob", DOUBLES, 1, &[1, 2, 3, 5, 4]),
    ("Grandsire plain", GRANDSIRE, 0, &[1, 2, 5, 3, 4]),
    ("Minor plain", MINOR, 0, &[1, 3, 5, 2, 6, 4]),
    ("Minor bob", MINOR, 1, &[1, 2, 3, 5, 6, 4]),
    ("Minor single", MINOR, 2, &[1, 3, 2, 5, 6, 4]),
];

#[test]
fn heads_of_leads(rt: HostRuntime) -> Result<(), Fail> {
    for &(name, draft, step, head) in HEADS {
        let table = table(rt.alloc(), &draft)?;
        if step >= table.count() || usize::from(table.count()) != draft.leads.len() {
            return Err(Fail::from(name));
        }
        let wanted = Row::of(head);
        if wanted != Some(table.head_of(step)) || wanted.as_ref() != table.rows_of(step).last() {
            return Err(Fail::from(name));
        }
    }
    Ok(())
}

// A calling, the number of its rows and the bells of its head, whether it comes round, and whether its rows differ.
#[derive(Clone, Copy)]
struct Wanted(
    &'static str,
    Draft,
    &'static [u8],
    usize,
    &'static [u8],
    bool,
    bool,
);

const CALLINGS: &[Wanted] = &[
    Wanted(
        "Doubles bpbpbp",
        DOUBLES,
        &[1, 0, 1, 0, 1, 0],
        60,
        &[1, 2, 3, 4, 5],
        true,
        true,
    ),
    Wanted(
        "Doubles pbpbpb",
        DOUBLES,
        &[0, 1, 0, 1, 0, 1],
        60,
        &[1, 2, 3, 4, 5],
        true,
        true,
    ),
    Wanted(
        "Doubles bb",
        DOUBLES,
        &[1, 1],
        20,
        &[1, 2, 3, 4, 5],
        true,
        true,
    ),
    Wanted(
        "Doubles bbb",
        DOUBLES,
        &[1, 1, 1],
        30,
        &[1, 2, 3, 5, 4],
        false,
        false,
    ),
    Wanted(
        "Doubles bbbb",
        DOUBLES,
        &[1, 1, 1, 1],
        40,
        &[1, 2, 3, 4, 5],
        true,
        false,
    ),
    Wanted(
        "Doubles p",
        DOUBLES,
        &[0],
        10,
        &[1, 3, 5, 2, 4],
        false,
        true,
    ),
    Wanted("no leads", DOUBLES, &[], 0, &[1, 2, 3, 4, 5], false, true),
    Wanted(
        "Minimus b",
        MINIMUS_WITH_BOBS,
        &[1],
        8,
        &[1, 2, 3, 4],
        true,
        true,
    ),
    Wanted(
        "Minimus bb",
        MINIMUS_WITH_BOBS,
        &[1, 1],
        16,
        &[1, 2, 3, 4],
        true,
        false,
    ),
];

fn calling(alloc: Global, steps: &[u8]) -> Result<Calling, Fail> {
    match Calling::new(steps.to_vec(alloc)?) {
        Ok(calling) => Ok(calling),
        Err(_) => Err(Fail::from("the calling is short")),
    }
}

// The calling rung, and its head.
fn rung(alloc: Global, table: &LeadTable, calling: &Calling) -> Result<(Rung, Row), Fail> {
    if !calling.steps().iter().all(|step| *step < table.count()) {
        return Err(Fail::from("a step does not exist"));
    }
    match table.ring(alloc, calling) {
        Ok(rung) => Ok((rung, table.head_after(calling))),
        Err(_) => Err(Fail::from("there is memory")),
    }
}

#[test]
fn callings_rung(rt: HostRuntime) -> Result<(), Fail> {
    for &Wanted(name, draft, steps, length, head, round, distinct) in CALLINGS {
        let table = table(rt.alloc(), &draft)?;
        let (rung, last) = rung(rt.alloc(), &table, &calling(rt.alloc(), steps)?)?;
        if rung.rows.len() != length || Row::of(head) != Some(last) {
            return Err(Fail::from(name));
        }
        if rung.round != round || rung.distinct != distinct {
            return Err(Fail::from(name));
        }
    }
    Ok(())
}
