ghost use Rattle.std.specs.Prelude.{◌≡◌, ◌<◌, ◌≤◌, length, IsTrue, IfOk, IfSome};
ghost use Rattle.cr_model.specs.Callings.{length_of};
ghost use Rattle.cr_model.specs.Queries.{part_cap};
ghost use Rattle.cr_leads.specs.Tables.{lead_table};
ghost use Rattle.cr_false.specs.Sets.{IsFalseTable};

use cr_false::{Built, FalseTable};
use cr_leads::LeadTable;
use cr_model::Cell::Bell;
use cr_model::{Com, Count, Problem, Reason};
use cr_prune::{Pruner, Walk};
use cr_reach::ReachTable;
use cr_samples::{DOUBLES, Draft, MINIMUS_WITH_SINGLES, SPLICED, problem_of};
use std::alloc::Global;
use std::test::*;
use std::thread::Threads;

mod plain;
mod trees;

const IN_TWO_PARTS: Draft = Draft {
    parts: 2,
    ..DOUBLES
};

const SHORT: Draft = Draft {
    length: (1, 20),
    ..DOUBLES
};

const NO_BOBS: Draft = Draft {
    counts: &[Count {
        mark: b'b',
        min: 0,
        max: 0,
    }],
    ..DOUBLES
};

const FOUR_BOBS: Draft = Draft {
    length: (60, 60),
    counts: &[Count {
        mark: b'b',
        min: 4,
        max: 12_000,
    }],
    ..DOUBLES
};

const ASKED: Draft = Draft {
    length: (60, 60),
    cells: &[Bell(1), Bell(4), Bell(2), Bell(5), Bell(3)],
    ..DOUBLES
};

const CHANGING: Draft = Draft {
    com: Some(Com {
        min: 3,
        max: 12_000,
    }),
    ..SPLICED
};

fn lead_table(alloc: Global, problem: &Problem) -> Result<LeadTable, Fail>
    ensures { IfOk result (λ leads. leads ≡ lead_table problem.now) }
{
    match LeadTable::new(alloc, problem) {
        Ok(leads) => Ok(leads),
        Err(_) => Err(Fail::from("there is memory")),
    }
}

fn reach_table(alloc: Global, leads: &LeadTable) -> Result<ReachTable, Fail> {
    match ReachTable::new(alloc, leads, 200_000) {
        Ok(reach) => Ok(reach),
        Err(_) => Err(Fail::from("there is memory")),
    }
}

// The falseness table of some leads, where one is asked for.
fn false_table(
    rt: &(impl Threads + Sync),
    alloc: Global,
    leads: &LeadTable,
    asked: bool,
) -> Result<Option<FalseTable>, Fail>
    ensures { IfOk result (λ table. IfSome table (λ table. IsFalseTable leads.now table)) }
{
    if !asked {
        return Ok(None);
    }
    match FalseTable::new(rt, alloc, leads, 4_000_000) {
        Ok(Built::Table(table)) => Ok(Some(table)),
        Ok(Built::Wide(_)) => Err(Fail::from("the table is small")),
        Err(_) => Err(Fail::from("there is memory")),
    }
}

fn walk_of<'a>(
    alloc: Global,
    problem: &'a Problem,
    leads: &'a LeadTable,
    table: Option<&'a FalseTable>,
) -> Result<Walk<'a>, Fail>
    requires leads { leads.now ≡ lead_table problem.now }
    requires table { IfSome table (λ table. IsFalseTable leads.now table.now) }
    ensures { IfOk result (λ walk. walk.problem ≡ problem.now) }
{
    match Walk::new(alloc, problem, leads, table) {
        Ok(walk) => Ok(walk),
        Err(_) => Err(Fail::from("there is memory")),
    }
}

// Whether the walk may go on by this step.
fn may_go(problem: &Problem, walk: &Walk, step: u8) -> bool
    requires { walk.now.problem ≡ problem.now }
    ensures step { IsTrue result → step < length walk.now.problem.leads }
    ensures few { IsTrue result → length walk.now.node < 1024 }
    ensures short { IsTrue result → length_of walk.now.problem walk.now.node ≤ part_cap walk.now.problem }
{
    usize::from(step) < problem.leads().len()
        && walk.steps().len() < 1024
        && walk.length() <= problem.part_cap()
}

// Goes on by these steps; a step back is 9.
fn go_on(problem: &Problem, walk: &mut Walk, moves: &[u8]) -> Result<(), Fail>
    requires { walk.old.problem ≡ problem.now }
    ensures { walk.new.problem ≡ problem.now }
{
    for step in moves {
        if *step == 9 && !walk.steps().is_empty() {
            walk.back();
        } else if may_go(problem, walk, *step) {
            walk.go(*step);
        } else {
            return Err(Fail::from("the walk may not go there"));
        }
    }
    Ok(())
}

// Why the node is dead to which these moves lead, by a walk with a falseness table or without one.
fn dead_after(
    rt: &(impl Threads + Sync),
    alloc: Global,
    draft: &Draft,
    moves: &[u8],
    asked: bool,
) -> Result<Option<Reason>, Fail> {
    let problem = problem_of(alloc, draft)?;
    let leads = lead_table(alloc, &problem)?;
    let table = false_table(rt, alloc, &leads, asked)?;
    dead_by(alloc, &problem, &leads, table.as_ref(), moves)
}

fn dead_by(
    alloc: Global,
    problem: &Problem,
    leads: &LeadTable,
    table: Option<&FalseTable>,
    moves: &[u8],
) -> Result<Option<Reason>, Fail>
    requires leads { leads.now ≡ lead_table problem.now }
    requires table { IfSome table (λ table. IsFalseTable leads.now table.now) }
{
    let reach = reach_table(alloc, leads)?;
    let mut walk = walk_of(alloc, problem, leads, table)?;
    go_on(problem, &mut walk, moves)?;
    if walk.steps().is_empty() {
        return Err(Fail::from("the node has steps"));
    }
    Ok(Pruner::new(leads, &reach, problem).dead(&walk))
}

const NODES: &[(&str, Draft, &[u8], Option<Reason>)] = &[
    ("b", DOUBLES, &[1], None),
    ("bb", DOUBLES, &[1, 1], None),
    ("pppp", DOUBLES, &[0, 0, 0, 0], None),
    ("13 times p", DOUBLES, &[0; 13], Some(Reason::Long)),
    ("11 times p", DOUBLES, &[0; 11], Some(Reason::Again)),
    ("s", MINIMUS_WITH_SINGLES, &[1], Some(Reason::SelfFalse)),
    ("bbb", DOUBLES, &[1, 1, 1], Some(Reason::Again)),
    ("bb in parts", IN_TWO_PARTS, &[1, 1], Some(Reason::Home)),
    ("p of 20 changes", SHORT, &[0], Some(Reason::Far)),
    ("b without bobs", NO_BOBS, &[1], Some(Reason::TooMany)),
    ("ppp", FOUR_BOBS, &[0, 0, 0], Some(Reason::TooFew)),
    ("bp", DOUBLES, &[1, 0], Some(Reason::TurnsBack)),
    ("bp with a row", ASKED, &[1, 0], None),
    ("Ap", CHANGING, &[0], Some(Reason::TooFew)),
    (
        "bbb, back, back, p",
        DOUBLES,
        &[1, 1, 1, 9, 9, 0],
        Some(Reason::TurnsBack),
    ),
];

#[test]
fn nodes_and_why_they_are_dead(rt: HostRuntime) -> Result<(), Fail> {
    for &(name, draft, moves, wanted) in NODES {
        for asked in [false, true] {
            if dead_after(&rt, rt.alloc(), &draft, moves, asked)? != wanted {
                return Err(Fail::from(name));
            }
        }
    }
    Ok(())
}
