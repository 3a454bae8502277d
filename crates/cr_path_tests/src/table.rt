ghost use Rattle.std.specs.Prelude.{◌≡◌, IfOk};
ghost use Rattle.cr_model.specs.Sizes.{most_rows};
ghost use Rattle.cr_leads.specs.Tables.{lead_table};
ghost use Rattle.cr_reach.specs.Tables.{reach_table};

use cr_leads::LeadTable;
use cr_model::Problem;
use cr_path::{NumberTable, Room};
use cr_reach::ReachTable;
use cr_samples::{DOUBLES, Draft, MINIMUS, MINOR, problem_of};
use std::alloc::Global;
use std::test::*;

// Two leads of four changes.
const FOURS: Draft = Draft {
    leads: &[(0, b'p', b"x.14.x.12"), (0, b'b', b"x.14.12.14")],
    ..MINIMUS
};

// Plain Bob Royal without a call.
const ROYAL_COURSE: Draft = Draft {
    stage: 10,
    leads: &[(
        0,
        b'p',
        b"x.10.x.10.x.10.x.10.x.10.x.10.x.10.x.10.x.10.x.12",
    )],
    length: (1, 400),
    ..DOUBLES
};

// Plain Bob Royal with bobs and singles.
const ROYAL: Draft = Draft {
    stage: 10,
    leads: &[
        (
            0,
            b'p',
            b"x.10.x.10.x.10.x.10.x.10.x.10.x.10.x.10.x.10.x.12",
        ),
        (
            0,
            b'b',
            b"x.10.x.10.x.10.x.10.x.10.x.10.x.10.x.10.x.10.x.14",
        ),
        (
            0,
            b's',
            b"x.10.x.10.x.10.x.10.x.10.x.10.x.10.x.10.x.10.x.1234",
        ),
    ],
    length: (1, 400),
    ..DOUBLES
};

fn leads_of(alloc: Global, problem: &Problem) -> Result<LeadTable, Fail>
    ensures { IfOk result (λ leads. leads ≡ lead_table problem.now) }
{
    match LeadTable::new(alloc, problem) {
        Ok(leads) => Ok(leads),
        Err(_) => Err(Fail::from("there is memory")),
    }
}

#[tactic(auto, unfolding(cr_model::specs::Sizes::most_rows))]
fn reach_of(alloc: Global, problem: &Problem, leads: &LeadTable) -> Result<ReachTable, Fail>
    requires { leads.now ≡ lead_table problem.now }
    ensures { IfOk result (λ reach. reach ≡ reach_table problem.now most_rows) }
{
    let _ = problem;
    match ReachTable::new(alloc, leads, 200_000) {
        Ok(reach) => Ok(reach),
        Err(_) => Err(Fail::from("there is memory")),
    }
}

// Room for so many heads, and for as many rows of theirs as there are.
fn room(heads: u32) -> Room {
    Room {
        bytes: 1 << 30,
        heads,
        rows: 1 << 20,
    }
}

fn table(alloc: Global, draft: &Draft, most_heads: u32) -> Result<Option<NumberTable>, Fail> {
    let problem = problem_of(alloc, draft)?;
    let leads = leads_of(alloc, &problem)?;
    let reach = reach_of(alloc, &problem, &leads)?;
    match NumberTable::new(alloc, &problem, &leads, &reach, room(most_heads)) {
        Ok(table) => Ok(table),
        Err(_) => Err(Fail::from("there is memory")),
    }
}

// How many numbers each lead has, or None where there is no table of so many heads.
fn width(alloc: Global, draft: &Draft, most_heads: u32) -> Result<Option<usize>, Fail> {
    match table(alloc, draft, most_heads)? {
        Some(table) => Ok(Some(table.width())),
        None => Ok(None),
    }
}

// The most heads, and how many numbers a lead has in them.
type Wanted = (&'static str, Draft, u32, Option<usize>);

// Each problem has a table in as many heads as its leads reach, and none in one less. In Minimus each row stands in one
// lead, which has one representative row, and the least width is 2. In Doubles and Minor the rows of a lead but its last two
// stand in the same leads, those that are rung from its head and from its last row but one, and each of the last two in
// leads that have no other row in common: a lead has three representative rows. Of the leads of four changes no row stands in
// all leads in which another of its lead does, so that each has four.
const TABLES: &[Wanted] = &[
    ("Minimus", MINIMUS, 3, Some(2)),
    ("Minimus in two heads", MINIMUS, 2, None),
    ("Fours", FOURS, 24, Some(4)),
    ("Fours in 23 heads", FOURS, 23, None),
    ("Doubles", DOUBLES, 24, Some(3)),
    ("Doubles in 23 heads", DOUBLES, 23, None),
    ("Minor", MINOR, 120, Some(3)),
    ("Minor in 119 heads", MINOR, 119, None),
    ("Royal in 1,000 heads", ROYAL, 1_000, None),
];

#[test]
fn heads_are_counted(rt: HostRuntime) -> Result<(), Fail> {
    for &(name, draft, most_heads, wanted) in TABLES {
        if width(rt.alloc(), &draft, most_heads)? != wanted {
            return Err(Fail::from(name));
        }
    }
    Ok(())
}

// From eight bells on few rows of a lead tell it apart from others: of the twenty of Plain Bob Royal four or fewer. It has
// nine heads without a call.
#[test]
fn few_rows_tell_leads_apart(rt: HostRuntime) -> Result<(), Fail> {
    if width(rt.alloc(), &ROYAL_COURSE, 8)?.is_some() {
        return Err(Fail::from("there are nine heads"));
    }
    match width(rt.alloc(), &ROYAL_COURSE, 9)? {
        Some(width) if width <= 4 => Ok(()),
        Some(_) => Err(Fail::from("four rows tell a lead")),
        None => Err(Fail::from("nine heads have room")),
    }
}

// To which heads the steps of a problem lead, head after head, if there is a table of so many heads.
fn next_heads(alloc: Global, draft: &Draft, most_heads: u32) -> Result<Option<Vec<u32>>, Fail> {
    match table(alloc, draft, most_heads)? {
        Some(table) => Ok(table.next_heads(alloc).ok()),
        None => Ok(None),
    }
}

// A plain lead of Minimus leads to the next of three heads.
#[test]
fn heads_lead_to_heads(rt: HostRuntime) -> Result<(), Fail> {
    let next = next_heads(rt.alloc(), &MINIMUS, 3)?.ok_or("there is a table")?;
    assert!(rt; next.as_slice() == [1, 2, 0].as_slice());
    Ok(())
}
