ghost use Rattle.std.specs.Prelude.{◌≡◌, ℕ, true, List, length, IfOk};
ghost use Rattle.cr_leads.specs.Tables.{lead_table};
ghost use Rattle.cr_query.specs.Meters.{item_numbers};
ghost use Rattle.cr_path.specs.Numbers.{IsNumbered};

use cr_leads::{LeadTable, Rung};
use cr_model::Cell::{Bell, Run};
use cr_model::{Calling, Count, MethodCount, Problem};
use cr_path::{NumberTable, NumberWalk, Room};
use cr_reach::ReachTable;
use cr_samples::{DOUBLES, Draft, problem_of};
use std::alloc::Global;
use std::test::*;

const TWO_PARTS: Draft = Draft {
    parts: 2,
    ..DOUBLES
};

const THREE_PARTS: Draft = Draft {
    parts: 3,
    ..DOUBLES
};

const ASKED: Draft = Draft {
    length: (60, 60),
    cells: &[Bell(1), Bell(4), Bell(2), Bell(5), Bell(3)],
    ..DOUBLES
};

// With a count of bobs, one of plain leads, one of the method, and a pattern: the 5 behind.
const COUNTED: Draft = Draft {
    counts: &[
        Count {
            mark: b'b',
            min: 0,
            max: 9,
        },
        Count {
            mark: b'p',
            min: 0,
            max: 9,
        },
    ],
    method_counts: &[MethodCount {
        letter: b'A',
        min: 0,
        max: 12,
    }],
    cells: &[Run, Bell(5)],
    ..DOUBLES
};

fn leads_of(alloc: Global, problem: &Problem) -> Result<LeadTable, Fail>
    ensures { IfOk result (λ leads. leads ≡ lead_table problem.now) }
{
    match LeadTable::new(alloc, problem) {
        Ok(leads) => Ok(leads),
        Err(_) => Err(Fail::from("there is memory")),
    }
}

#[tactic(auto, unfolding(cr_model::specs::Sizes::most_rows))]
fn numbers_of(alloc: Global, problem: &Problem, leads: &LeadTable) -> Result<NumberTable, Fail>
    requires { leads.now ≡ lead_table problem.now }
    ensures { IfOk result (λ numbers. IsNumbered problem.now numbers) }
{
    let reach = match ReachTable::new(alloc, leads, 200_000) {
        Ok(reach) => reach,
        Err(_) => return Err(Fail::from("there is memory")),
    };
    let room = Room {
        bytes: 1 << 30,
        heads: 1_000,
        rows: 1 << 20,
    };
    match NumberTable::new(alloc, problem, leads, &reach, room) {
        Ok(Some(numbers)) => Ok(numbers),
        Ok(None) => Err(Fail::from("there are few heads")),
        Err(_) => Err(Fail::from("there is memory")),
    }
}

fn walk_of<'a>(
    alloc: Global,
    problem: &'a Problem,
    leads: &'a LeadTable,
    numbers: &'a NumberTable,
) -> Result<NumberWalk<'a, 3, 1, 0>, Fail>
    requires leads { leads.now ≡ lead_table problem.now }
    requires numbers { IsNumbered problem.now numbers.now }
    ensures { IfOk result (λ walk. walk.problem ≡ problem.now) }
{
    // Leads of Plain Bob Doubles have three representative rows.
    if numbers.width() != 3 {
        return Err(Fail::from("the width is another"));
    }
    match NumberWalk::new(alloc, problem, leads, numbers) {
        Ok(walk) => Ok(walk),
        Err(_) => Err(Fail::from("there is memory")),
    }
}

fn ring(alloc: Global, leads: &LeadTable, steps: &[u8]) -> Result<Rung, Fail> {
    let Ok(calling) = Calling::new(steps.to_vec(alloc)?) else {
        return Err(Fail::from("the calling is short"));
    };
    if !calling.steps().iter().all(|step| *step < leads.count()) {
        return Err(Fail::from("a step does not exist"));
    }
    match leads.ring(alloc, &calling) {
        Ok(rung) => Ok(rung),
        Err(_) => Err(Fail::from("there is memory")),
    }
}

// Whether a walk at a node tells what ringing the node afresh tells.
fn tells_of(
    alloc: Global,
    leads: &LeadTable,
    walk: &NumberWalk<3, 1, 0>,
    node: &[u8],
) -> Result<bool, Fail> {
    let rung = ring(alloc, leads, node)?;
    Ok(
        walk.steps() == node
            && walk.length() == rung.rows.len() as u64
            && walk.has_repeat() != rung.distinct
            && rung.rows.last() == Some(&walk.head()),
    )
}

// Goes to the first live child that is not tried yet.
fn down(problem: &Problem, walk: &mut NumberWalk<3, 1, 0>) -> Option<u8>
    requires { walk.old.problem ≡ problem.now }
    ensures { walk.new.problem ≡ problem.now }
{
    let _ = walk.steps();
    match walk.go_down() {
        Some(step) => Some(step),
        None => None,
    }
}

// Goes back, and gives the last step. None at the root.
fn up(problem: &Problem, walk: &mut NumberWalk<3, 1, 0>) -> Option<u8>
    requires { walk.old.problem ≡ problem.now }
    ensures { walk.new.problem ≡ problem.now }
{
    if walk.steps().is_empty() {
        return None;
    }
    Some(walk.go_up())
}

// Goes to the node of another walk.
fn follow(walk: &NumberWalk<3, 1, 0>, other: &mut NumberWalk<3, 1, 0>)
    requires { other.old.problem ≡ walk.now.problem }
    ensures { other.new.problem ≡ walk.now.problem }
{
    other.go_to(walk.steps());
}

// Visits each live node, goes to it with another walk too, and gives their number.
fn visit_all(
    alloc: Global,
    problem: &Problem,
    leads: &LeadTable,
    walk: &mut NumberWalk<3, 1, 0>,
    other: &mut NumberWalk<3, 1, 0>,
) -> Result<u64, Fail>
    requires walk { walk.old.problem ≡ problem.now }
    requires other { other.old.problem ≡ problem.now }
{
    let mut nodes: u64 = 1;
    for _ in 0..1_000 {
        if down(problem, walk).is_some() {
            follow(walk, other);
            if !tells_of(alloc, leads, walk, walk.steps())?
                || !tells_of(alloc, leads, other, walk.steps())?
            {
                return Err(Fail::from("a walk says something else of a node"));
            }
            nodes = nodes.saturating_add(1);
        } else if up(problem, walk).is_none() {
            return Ok(nodes);
        }
    }
    Err(Fail::from("the tree has an end"))
}

// What is asked of a walk that stands at the root.
#[derive(Clone, Copy)]
enum Asked<'a> {
    // The number of live nodes.
    LiveNodes,
    // Whether it tells of nodes what ringing does: 1 where it does.
    RowsTwice,
    // Whether it goes down by the live steps: 1 where it does.
    LiveSteps,
    // Whether a node comes round: 1 where it does.
    Home(&'a [u8]),
    // Whether a node has so much of each item, and its head a number: 1 where it does.
    Items(&'a [u8], &'a [u32]),
}

// What a walk by the numbers of a problem answers.
fn answer(alloc: Global, draft: &Draft, asked: Asked) -> Result<u64, Fail> {
    let problem = problem_of(alloc, draft)?;
    let leads = leads_of(alloc, &problem)?;
    answer_of(alloc, &problem, &leads, asked)
}

fn answer_of(alloc: Global, problem: &Problem, leads: &LeadTable, asked: Asked) -> Result<u64, Fail>
    requires { leads.now ≡ lead_table problem.now }
{
    let numbers = numbers_of(alloc, problem, leads)?;
    let mut walk = walk_of(alloc, problem, leads, &numbers)?;
    match asked {
        Asked::LiveNodes => live_nodes(alloc, problem, leads, &numbers, &mut walk),
        Asked::RowsTwice => Ok(u64::from(goes_to_all(alloc, problem, leads, &mut walk)?)),
        Asked::LiveSteps => Ok(u64::from(goes_down_from_all(alloc, problem, leads, &mut walk)?)),
        Asked::Home(node) => Ok(u64::from(comes_round(alloc, problem, leads, &mut walk, node)?)),
        Asked::Items(node, items) => {
            go_to(alloc, problem, leads, &mut walk, node)?;
            Ok(u64::from(has_items(problem, &walk, items) && finds_its_head(&numbers, &walk)))
        }
    }
}

// The number of live nodes, to each of which another walk goes too.
fn live_nodes(
    alloc: Global,
    problem: &Problem,
    leads: &LeadTable,
    numbers: &NumberTable,
    walk: &mut NumberWalk<3, 1, 0>,
) -> Result<u64, Fail>
    requires leads { leads.now ≡ lead_table problem.now }
    requires numbers { IsNumbered problem.now numbers.now }
    requires walk { walk.old.problem ≡ problem.now }
{
    let mut other = walk_of(alloc, problem, leads, numbers)?;
    // All children of the root are tried, unless it is gone to.
    if down(problem, walk).is_some() {
        return Err(Fail::from("no child is left of a new walk"));
    }
    follow(&other, walk);
    visit_all(alloc, problem, leads, walk, &mut other)
}

// As many as the turns that a whole search takes.
const TREES: &[(&str, Draft, u64)] = &[
    ("Doubles", DOUBLES, 32),
    ("in two parts", TWO_PARTS, 18),
    ("in three parts", THREE_PARTS, 11),
    ("with a row", ASKED, 20),
];

#[test]
fn live_nodes_of_trees(rt: HostRuntime) -> Result<(), Fail> {
    for &(name, draft, nodes) in TREES {
        if answer(rt.alloc(), &draft, Asked::LiveNodes)? != nodes {
            return Err(Fail::from(name));
        }
    }
    Ok(())
}

// Goes to a node, if it is no longer than a part may be, and says whether the walk tells of it what ringing does.
fn goes_to(
    alloc: Global,
    problem: &Problem,
    leads: &LeadTable,
    walk: &mut NumberWalk<3, 1, 0>,
    node: &[u8],
) -> Result<bool, Fail>
    requires { walk.old.problem ≡ problem.now }
    ensures { walk.new.problem ≡ problem.now }
{
    if !problem.has_steps(node) {
        return Err(Fail::from("a step does not exist"));
    }
    let Ok(calling) = Calling::new(node.to_vec(alloc)?) else {
        return Err(Fail::from("the calling is short"));
    };
    if problem.length_of(&calling) > problem.part_cap() {
        return Err(Fail::from("the node is long"));
    }
    walk.go_to(calling.steps());
    tells_of(alloc, leads, walk, calling.steps())
}

// Nodes one after another, some of which have rows twice.
const NODES: &[&[u8]] = &[
    &[0, 0, 0, 0, 0, 0, 0],
    &[0, 0, 0, 0, 0, 1],
    &[0, 0, 0, 0],
    &[1, 1, 1],
    &[1, 1, 1, 0],
    &[1, 1],
    &[0, 1, 1, 0],
];

fn goes_to_all(
    alloc: Global,
    problem: &Problem,
    leads: &LeadTable,
    walk: &mut NumberWalk<3, 1, 0>,
) -> Result<bool, Fail>
    requires { walk.old.problem ≡ problem.now }
{
    for node in NODES {
        if !goes_to(alloc, problem, leads, walk, node)? {
            return Ok(false);
        }
    }
    Ok(true)
}

#[test]
fn nodes_with_rows_twice(rt: HostRuntime) -> Result<(), Fail> {
    assert!(rt; answer(rt.alloc(), &DOUBLES, Asked::RowsTwice)? == 1);
    Ok(())
}

// Of nodes that are gone to, one after another, the live steps. The node of four plain leads has come round; after a bob, a
// plain lead turns back.
const LIVE_STEPS: &[(&[u8], &[u8])] = &[
    (&[0, 0, 0], &[0, 1]),
    (&[0], &[0, 1]),
    (&[0, 0, 0, 0], &[]),
    (&[1], &[1]),
];

// Whether a walk goes down from its node by these steps, one after another, and by no other.
fn goes_down_by(problem: &Problem, walk: &mut NumberWalk<3, 1, 0>, steps: &[u8]) -> bool
    requires { walk.old.problem ≡ problem.now }
    ensures { walk.new.problem ≡ problem.now }
{
    for step in steps {
        if down(problem, walk) != Some(*step) || up(problem, walk) != Some(*step) {
            return false;
        }
    }
    down(problem, walk).is_none()
}

fn goes_down_from_all(
    alloc: Global,
    problem: &Problem,
    leads: &LeadTable,
    walk: &mut NumberWalk<3, 1, 0>,
) -> Result<bool, Fail>
    requires { walk.old.problem ≡ problem.now }
{
    for &(node, steps) in LIVE_STEPS {
        if !goes_to(alloc, problem, leads, walk, node)? || !goes_down_by(problem, walk, steps) {
            return Ok(false);
        }
    }
    Ok(true)
}

#[test]
fn live_steps_of_nodes(rt: HostRuntime) -> Result<(), Fail> {
    assert!(rt; answer(rt.alloc(), &DOUBLES, Asked::LiveSteps)? == 1);
    Ok(())
}

// Whether nodes come round, as often as there are parts. The head of a plain lead, 13524, turns four bells round; that of a
// bob, 12354, swaps two; that of both, 13542, turns three round.
const HOMES: &[(&str, Draft, &[u8], bool)] = &[
    ("four plain leads", DOUBLES, &[0, 0, 0, 0], true),
    ("three plain leads", DOUBLES, &[0, 0, 0], false),
    ("twice two plain leads", TWO_PARTS, &[0, 0], true),
    ("twice a bob", TWO_PARTS, &[1], true),
    ("twice a plain lead", TWO_PARTS, &[0], false),
    ("three times both", THREE_PARTS, &[0, 1], true),
    ("three times a bob", THREE_PARTS, &[1], false),
];

// Whether the node to which a walk goes comes round.
fn comes_round(
    alloc: Global,
    problem: &Problem,
    leads: &LeadTable,
    walk: &mut NumberWalk<3, 1, 0>,
    node: &[u8],
) -> Result<bool, Fail>
    requires { walk.old.problem ≡ problem.now }
{
    go_to(alloc, problem, leads, walk, node)?;
    Ok(walk.comes_round())
}

// Goes to a node.
fn go_to(
    alloc: Global,
    problem: &Problem,
    leads: &LeadTable,
    walk: &mut NumberWalk<3, 1, 0>,
    node: &[u8],
) -> Result<(), Fail>
    requires { walk.old.problem ≡ problem.now }
    ensures { walk.new.problem ≡ problem.now }
{
    // Of the root no row is rung, with which its head might be compared.
    if !goes_to(alloc, problem, leads, walk, node)? && !node.is_empty() {
        return Err(Fail::from("the walk is elsewhere"));
    }
    Ok(())
}

#[test]
fn nodes_come_round(rt: HostRuntime) -> Result<(), Fail> {
    for &(name, draft, node, round) in HOMES {
        if answer(rt.alloc(), &draft, Asked::Home(node))? != u64::from(round) {
            return Err(Fail::from(name));
        }
    }
    Ok(())
}

// Of nodes how many bobs they have, plain leads, leads of A, and rows with the 5 behind. Of a lead's rows the fifth bell of its
// head is behind once, the third, the first and the second twice each, and the fourth three times.
const ITEMS: &[(&[u8], &[u32])] = &[
    (&[], &[0, 0, 0, 0]),
    (&[0], &[0, 1, 1, 1]),
    // 13524 has the 5 third.
    (&[0, 0], &[0, 2, 2, 3]),
    // 15432 has it second.
    (&[0, 0, 1], &[1, 2, 3, 5]),
    (&[1], &[1, 0, 1, 1]),
    // 12354 has it fourth.
    (&[1, 0], &[1, 1, 2, 4]),
];

// Whether the query has two counts of marks, one of a method, and one pattern.
fn has_four_items(problem: &Problem) -> bool
    ensures { result ≡ true → (node : List ℕ) → length (item_numbers problem.now node) ≡ 4 }
{
    let query = problem.query();
    query.counts.len() == 2 && query.method_counts.len() == 1 && query.patterns.len() == 1
}

// Whether the query has four items, and the node so much of each.
fn has_items(problem: &Problem, walk: &NumberWalk<3, 1, 0>, items: &[u32]) -> bool
    requires { walk.now.problem ≡ problem.now }
{
    has_four_items(problem) && items.len() == 4 && are_items(walk, items)
}

fn are_items(walk: &NumberWalk<3, 1, 0>, items: &[u32]) -> bool
    requires { length (item_numbers walk.now.problem walk.now.node) ≡ length items.now }
{
    for index in 0..items.len() {
        if walk.item_number(index) != items[index] {
            return false;
        }
    }
    true
}

// Whether the walk finds the node's head among those of its numbers.
fn finds_its_head(numbers: &NumberTable, walk: &NumberWalk<3, 1, 0>) -> bool {
    match walk.head_number(numbers) {
        Some(number) => numbers.heads().get(number as usize) == Some(&walk.head()),
        None => false,
    }
}

#[test]
fn items_of_nodes(rt: HostRuntime) -> Result<(), Fail> {
    for &(node, items) in ITEMS {
        if answer(rt.alloc(), &COUNTED, Asked::Items(node, items))? != 1 {
            return Err(Fail::from("a node has other items, or its head no number"));
        }
    }
    Ok(())
}
