//! Whole trees, walked a step on and a step back at a time, without a falseness table and with one.

ghost use Rattle.std.specs.Prelude.{◌≡◌, ◌<◌, ◌≤◌, length, IsTrue, IfSome};
ghost use Rattle.cr_row.specs.Rows.{rounds};
ghost use Rattle.cr_model.specs.Callings.{length_of, head_of};
ghost use Rattle.cr_model.specs.OneTurn.{touch_of};
ghost use Rattle.cr_leads.specs.Tables.{lead_table};
ghost use Rattle.cr_false.specs.Sets.{IsFalseTable};
ghost use Rattle.cr_model.specs.Queries.{part_cap};

use super::plain::{REASONS, reasons, touch_differs};
use super::*;
use cr_model::laws::joined_callings_multiply;
use cr_row::Row;

// Goes on by a step that may be gone. Whether all that the pruner says of the child is what is read afresh.
fn visit(
    alloc: Global,
    problem: &Problem,
    leads: &LeadTable,
    reach: &ReachTable,
    pruner: &Pruner,
    walk: &mut Walk,
    step: u8,
) -> Result<bool, Fail>
    requires same { walk.old.problem ≡ problem.now }
    requires pruner { pruner.now.problem ≡ problem.now }
    requires step { step < length walk.old.problem.leads }
    requires few { length walk.old.node < 1024 }
    requires short { length_of walk.old.problem walk.old.node ≤ part_cap walk.old.problem }
    ensures { walk.new.problem ≡ problem.now }
{
    let unrung = pruner.dies_unrung(walk, step);
    walk.go(step);
    let found = reasons(alloc, problem, leads, reach, walk.steps())?;
    let without_rows = found[0] || found[1] || found[4] || found[5] || found[6] || found[7];
    let right = pruner.dead(walk) == first(&found) && unrung == without_rows;
    Ok(right && tells_rows(alloc, problem, leads, walk, found[2])?)
}

// Whether the walk says as well if a row of its node comes again, and if all rows of the touch differ, where it comes
// rounds.
fn tells_rows(
    alloc: Global,
    problem: &Problem,
    leads: &LeadTable,
    walk: &Walk,
    again: bool,
) -> Result<bool, Fail>
    requires { walk.now.problem ≡ problem.now }
{
    if again || walk.has_repeat() || !comes_round(problem, walk) {
        return Ok(walk.has_repeat() == again);
    }
    Ok(walk.parts_differ() == touch_differs(alloc, problem, leads, walk.steps())?)
}

// Whether the node's touch comes round.
fn comes_round(problem: &Problem, walk: &Walk) -> bool
    requires { walk.now.problem ≡ problem.now }
    ensures { IsTrue result → head_of walk.now.problem (touch_of walk.now.problem walk.now.node) ≡ rounds walk.now.problem.stage }
{
    joined_callings_multiply();
    let rounds = Row::rounds(problem.stage());
    let head = walk.head();
    let mut row = rounds;
    for _part in 0..problem.query().parts.unsigned_abs() {
        row = row.times(&head);
    }
    row == rounds
}

fn first(found: &[bool; 8]) -> Option<Reason> {
    for index in 0..8 {
        if found[index] {
            return Some(REASONS[index]);
        }
    }
    None
}

// Goes back, and gives the step to try next. None at the root.
fn back(problem: &Problem, walk: &mut Walk) -> Option<u8>
    requires { walk.old.problem ≡ problem.now }
    ensures { walk.new.problem ≡ problem.now }
{
    let last = *walk.steps().last()?;
    walk.back();
    Some(last.saturating_add(1))
}

// Visits each node below the root, down to those that are too long, and gives their number.
fn visit_all(
    alloc: Global,
    problem: &Problem,
    leads: &LeadTable,
    reach: &ReachTable,
    pruner: &Pruner,
    walk: &mut Walk,
) -> Result<u64, Fail>
    requires same { walk.old.problem ≡ problem.now }
    requires pruner { pruner.now.problem ≡ problem.now }
{
    let mut nodes: u64 = 0;
    let mut step = 0;
    for _ in 0..50_000 {
        if may_go(problem, walk, step) {
            if !visit(alloc, problem, leads, reach, pruner, walk, step)? {
                return Err(Fail::from("the pruner says something else of a node"));
            }
            nodes = nodes.saturating_add(1);
            step = 0;
        } else {
            match back(problem, walk) {
                Some(next) => step = next,
                None => return Ok(nodes),
            }
        }
    }
    Err(Fail::from("the tree has an end"))
}

// By a walk with a falseness table or without one.
fn nodes_below(
    rt: &(impl Threads + Sync),
    alloc: Global,
    draft: &Draft,
    asked: bool,
) -> Result<u64, Fail> {
    let problem = problem_of(alloc, draft)?;
    let leads = lead_table(alloc, &problem)?;
    let reach = reach_table(alloc, &leads)?;
    let table = false_table(rt, alloc, &leads, asked)?;
    visit_below(alloc, &problem, &leads, &reach, table.as_ref())
}

fn visit_below<'a>(
    alloc: Global,
    problem: &'a Problem,
    leads: &'a LeadTable,
    reach: &'a ReachTable,
    table: Option<&'a FalseTable>,
) -> Result<u64, Fail>
    requires leads { leads.now ≡ lead_table problem.now }
    requires table { IfSome table (λ table. IsFalseTable leads.now table.now) }
{
    let pruner = Pruner::new(leads, reach, problem);
    let mut walk = walk_of(alloc, problem, leads, table)?;
    visit_all(alloc, problem, leads, reach, &pruner, &mut walk)
}

// Two steps have 2, 4, 8 and so on nodes of one lead, two, three and so on.
const TREES: &[(&str, Draft, u64)] = &[
    ("Doubles", DOUBLES, 16_382),
    ("Doubles in two parts", IN_TWO_PARTS, 254),
    ("Doubles with four bobs", FOUR_BOBS, 254),
    ("Minimus", MINIMUS_WITH_SINGLES, 30),
    ("two methods", SPLICED, 30),
    ("two methods, changing", CHANGING, 30),
];

#[test]
fn trees(rt: HostRuntime) -> Result<(), Fail> {
    for &(name, draft, nodes) in TREES {
        for asked in [false, true] {
            if nodes_below(&rt, rt.alloc(), &draft, asked)? != nodes {
                return Err(Fail::from(name));
            }
        }
    }
    Ok(())
}
