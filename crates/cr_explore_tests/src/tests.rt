ghost use Rattle.std.specs.Prelude.{◌≡◌, [], length, IfOk, IfSome};
ghost use Rattle.cr_false.specs.Sets.{IsFalseTable};
ghost use Rattle.cr_leads.specs.Tables.{lead_table};
ghost use Rattle.cr_model.specs.Sizes.{most_rows};
ghost use Rattle.cr_model.specs.Sound.{IsSound};
ghost use Rattle.cr_reach.specs.Tables.{reach_table};

use cr_explore::{LONG_ROOM, RowSearch, Search, WalkPath, make_search, take_turns};
use cr_false::{Built, FalseTable};
use cr_leads::LeadTable;
use cr_model::Cell::Bell;
use cr_model::{Calling, Cell, Com, Count, Lead, Pattern, Problem, Query, Step};
use cr_node::laws::work_goes_on;
use cr_node::{Explorer, Node};
use cr_path::{NumberTable, Room};
use cr_reach::ReachTable;
use cr_row::{NoMemory, Stage};
use cr_samples::changes_of;
use std::alloc::Global;
use std::test::*;
use std::thread::Threads;

// A problem in short: of each lead the mark and the changes, by the places made or `x` for none. Where there are cells,
// at least one row fits them. A plain lead begins the next method. Of leads with a mark, and of changes of method, there
// may be so many at most.
#[derive(Clone, Copy)]
struct Draft {
    stage: u8,
    leads: &'static [(u8, &'static [u8])],
    min: i64,
    max: i64,
    parts: i64,
    cells: &'static [Cell],
    count: Option<(u8, i64)>,
    com: Option<i64>,
}

const BOBS: &[(u8, &[u8])] = &[
    (b'p', b"5.1.5.1.5.1.5.1.5.125"),
    (b'b', b"5.1.5.1.5.1.5.1.5.145"),
];

const DOUBLES: Draft = Draft {
    stage: 5,
    leads: BOBS,
    min: 1,
    max: 120,
    parts: 1,
    cells: &[],
    count: None,
    com: None,
};

const TWO_PARTS: Draft = Draft {
    parts: 2,
    ..DOUBLES
};

const THREE_PARTS: Draft = Draft {
    parts: 3,
    ..DOUBLES
};

const FOUR_PARTS: Draft = Draft {
    parts: 4,
    ..DOUBLES
};

const PATTERN: Draft = Draft {
    min: 60,
    max: 60,
    cells: &[Bell(1), Bell(4), Bell(2), Bell(5), Bell(3)],
    ..DOUBLES
};

// Of three touches rotations fit the pattern, and of two of them the least does not.
const TURNED: Draft = Draft {
    min: 1,
    max: 100,
    ..PATTERN
};

const MINIMUS: Draft = Draft {
    stage: 4,
    leads: &[(b'p', b"x.14.x.14.x.14.x.12")],
    min: 1,
    max: 24,
    parts: 1,
    cells: &[],
    count: None,
    com: None,
};

// With a call whose last change makes all places, so that a row stands twice.
const FALSE_CALL: Draft = Draft {
    leads: &[
        (b'p', b"x.14.x.14.x.14.x.12"),
        (b's', b"x.14.x.14.x.14.x.1234"),
    ],
    ..MINIMUS
};

fn patterns_of(alloc: Global, cells: &[Cell]) -> Result<Vec<Pattern>, Fail> {
    let mut patterns = Vec::new(alloc);
    if !cells.is_empty() {
        patterns.push(Pattern {
            cells: cells.to_vec(alloc)?,
            min: 1,
            max: 120,
        })?;
    }
    Ok(patterns)
}

fn counts_of(alloc: Global, count: Option<(u8, i64)>) -> Result<Vec<Count>, Fail> {
    let mut counts = Vec::new(alloc);
    if let Some((mark, max)) = count {
        counts.push(Count { mark, min: 0, max })?;
    }
    Ok(counts)
}

fn problem(alloc: Global, draft: &Draft) -> Result<Problem, Fail> {
    let stage = Stage::new(draft.stage).ok_or("the stage is from 3 to 16")?;
    let mut leads = Vec::new(alloc);
    let mut letters = Vec::new(alloc);
    for (mark, text) in draft.leads {
        if *mark == b'p' {
            letters.push(if letters.is_empty() { b'A' } else { b'B' })?;
        }
        let step = Step {
            method: u8::from(letters.len() > 1),
            mark: *mark,
        };
        let changes = changes_of(alloc, stage, text)?;
        leads.push(Lead { step, changes })?;
    }
    let query = Query {
        min: draft.min,
        max: draft.max,
        parts: draft.parts,
        counts: counts_of(alloc, draft.count)?,
        method_counts: Vec::new(alloc),
        patterns: patterns_of(alloc, draft.cells)?,
        com: draft.com.map(|max| Com { min: 0, max }),
    };
    match Problem::new(stage, letters, leads, query) {
        Ok(problem) => Ok(problem),
        Err(_) => Err(Fail::from("the parts are refused")),
    }
}

// How a search looks for rows that come again: by their numbers, as the choice of a search has it, by the rows
// themselves, or by the falseness table.
#[derive(Clone, Copy)]
enum Way {
    Numbers,
    Chosen,
    Rows,
    Table,
}

use Way::*;

// The rows that are few leads from rounds.
fn reach_of(alloc: Global, problem: &Problem, leads: &LeadTable) -> Result<ReachTable, NoMemory>
    requires { leads.now ≡ lead_table problem.now }
    ensures { IfOk result (λ reach. reach ≡ reach_table problem.now most_rows) }
{
    let reach = ReachTable::new(alloc, leads, 200_000)?;
    Ok(reach)
}

// The search by numbers. Where those of a thousand heads have room, the search has them, since it has room for more.
fn numbered(alloc: Global, problem: &Problem) -> Result<Search, Fail> {
    let leads = LeadTable::new(alloc, problem)?;
    let reach = reach_of(alloc, problem, &leads)?;
    let room = Room {
        bytes: 1 << 30,
        heads: 1_000,
        rows: 1 << 20,
    };
    if NumberTable::new(alloc, problem, &leads, &reach, room)?.is_none() {
        return Err(Fail::from("there are no numbers"));
    }
    Ok(Search::Rows(RowSearch::new(alloc, problem)?))
}

// Appends the marks of some steps, and a stroke.
fn write_marks(text: &mut Vec<u8>, draft: &Draft, steps: &[u8]) -> Result<(), Fail> {
    for step in steps {
        match draft.leads.get(usize::from(*step)) {
            Some((mark, _)) => text.push(*mark)?,
            None => return Err(Fail::from("the step is a lead's")),
        }
    }
    text.push(b'/')?;
    Ok(())
}

// What turns found and what they left, as marks, each ended by a stroke, and the two by a bar, and how many turns they
// were: of several searches one after another.
#[derive(Drop)]
struct Told {
    text: Vec<u8>,
    used: Vec<u64>,
}

// Appends those of one search.
fn write_told(
    told: &mut Told,
    draft: &Draft,
    found: &[Calling],
    rest: &[Node],
    used: u64,
) -> Result<(), Fail> {
    for touch in found {
        write_marks(&mut told.text, draft, touch.steps())?;
    }
    told.text.push(b'|')?;
    for node in rest {
        write_marks(&mut told.text, draft, node.steps())?;
    }
    told.used.push(used)?;
    Ok(())
}

// What a search finds and leaves of the root in so many turns.
fn explore(
    alloc: Global,
    told: &mut Told,
    draft: &Draft,
    search: &Search,
    turns: u64,
) -> Result<(), Fail> {
    work_goes_on();
    let _ = search.problem().stage();
    let mut job = Vec::new(alloc);
    job.push(Node::root(alloc))?;
    let done = search.explore(alloc, &job, turns)?;
    write_told(told, draft, done.found(), done.rest(), done.used())
}

// The same in each of these numbers of turns.
fn explored(alloc: Global, draft: &Draft, search: &Search, turns: &[u64]) -> Result<Told, Fail> {
    let mut told = none_told(alloc);
    for number in turns {
        explore(alloc, &mut told, draft, search, *number)?;
    }
    Ok(told)
}

// Nothing of no search.
fn none_told(alloc: Global) -> Told {
    Told {
        text: Vec::new(alloc),
        used: Vec::new(alloc),
    }
}

// What a search over the root finds and leaves in so many turns by a walk, which asks the falseness table, if there is
// one, and else keeps the rows.
fn walk(
    alloc: Global,
    told: &mut Told,
    draft: &Draft,
    path: WalkPath,
    turns: u64,
) -> Result<(), Fail>
    requires sound { IsSound path.problem }
    requires node { path.node ≡ [] }
    requires tried { path.next ≡ length path.problem.leads }
{
    work_goes_on();
    let mut job = Vec::new(alloc);
    job.push(Node::root(alloc))?;
    let done = take_turns(alloc, path, &job, turns)?;
    write_told(told, draft, &done.found, &done.rest, done.used)
}

// The same in each of these numbers of turns.
fn walked(
    alloc: Global,
    draft: &Draft,
    problem: &Problem,
    leads: &LeadTable,
    table: Option<&FalseTable>,
    turns: &[u64],
) -> Result<Told, Fail>
    requires leads { leads.now ≡ lead_table problem.now }
    requires table { IfSome table (λ t. IsFalseTable leads.now t.now) }
{
    let mut told = none_told(alloc);
    let reach = reach_of(alloc, problem, leads)?;
    for number in turns {
        let _ = problem.stage();
        let path = WalkPath::new(alloc, problem, leads, &reach, table)?;
        walk(alloc, &mut told, draft, path, *number)?;
    }
    Ok(told)
}

// The same where the walk asks the falseness table.
fn asked(
    rt: &(impl AllocGlobal + Threads + Sync),
    draft: &Draft,
    problem: &Problem,
    leads: &LeadTable,
    turns: &[u64],
) -> Result<Told, Fail>
    requires { leads.now ≡ lead_table problem.now }
{
    let alloc = rt.alloc();
    match FalseTable::new(rt, alloc, leads, 4_000_000)? {
        Built::Table(table) => walked(alloc, draft, problem, leads, Some(&table), turns),
        Built::Wide(_) => Err(Fail::from("the table has room")),
    }
}

// What is found and left in so many turns in one of the ways.
fn tell(
    rt: &(impl AllocGlobal + Threads + Sync),
    draft: &Draft,
    way: Way,
    turns: &[u64],
) -> Result<Told, Fail> {
    let alloc = rt.alloc();
    let problem = problem(alloc, draft)?;
    let leads = LeadTable::new(alloc, &problem)?;
    match way {
        Numbers => explored(alloc, draft, &numbered(alloc, &problem)?, turns),
        Chosen => explored(alloc, draft, &make_search(rt, alloc, &problem)?, turns),
        Rows => walked(alloc, draft, &problem, &leads, None, turns),
        Table => asked(rt, draft, &problem, &leads, turns),
    }
}

// What a search finds and leaves in so many turns.
fn told_by(alloc: Global, draft: &Draft, search: Search, turns: &[u64]) -> Result<Told, Fail> {
    explored(alloc, draft, &search, turns)
}

// The same of a search that rings, once it has more room, or None where it does not ring.
fn told_by_longer(
    alloc: Global,
    draft: &Draft,
    search: &Search,
    turns: &[u64],
) -> Result<Option<Told>, Fail> {
    if !search.rings() {
        return Ok(None);
    }
    match search.with_more_room(alloc, LONG_ROOM) {
        Some(longer) => Ok(Some(told_by(alloc, draft, longer, turns)?)),
        None => Err(Fail::from("a search that rings gets more room")),
    }
}

// The same of the search of a problem.
fn told_with_room(
    rt: &(impl AllocGlobal + Threads + Sync),
    draft: &Draft,
    turns: &[u64],
) -> Result<Option<Told>, Fail> {
    let problem = problem(rt.alloc(), draft)?;
    let search = make_search(rt, rt.alloc(), &problem)?;
    told_by_longer(rt.alloc(), draft, &search, turns)
}

// Plain Bob Royal with bobs, which has more heads than a search that may be short makes numbers for.
const ROYAL: Draft = Draft {
    stage: 10,
    leads: &[
        (b'p', b"x.10.x.10.x.10.x.10.x.10.x.10.x.10.x.10.x.10.x.12"),
        (b'b', b"x.10.x.10.x.10.x.10.x.10.x.10.x.10.x.10.x.10.x.14"),
    ],
    max: 400,
    ..MINIMUS
};

#[test]
fn a_long_search_has_numbers(rt: HostRuntime) -> Result<(), Fail> {
    if told_with_room(&rt, &MINIMUS, &[3])?.is_some() {
        return Err(Fail::from("Minimus has numbers from the start"));
    }
    let rung = tell(&rt, &ROYAL, Rows, &[2_000])?;
    match told_with_room(&rt, &ROYAL, &[2_000])? {
        Some(told) if told.text == rung.text && told.used == rung.used => Ok(()),
        Some(_) => Err(Fail::from("by numbers and by ringing")),
        None => Err(Fail::from("Royal has room")),
    }
}

// The problem, the turns, what is found and what is left, and the turns that are used.
type Case = (&'static str, Draft, u64, &'static [u8], u64);

const CASES: &[Case] = &[
    ("no turn", DOUBLES, 0, b"|/", 0),
    ("one turn", DOUBLES, 1, b"|b/p/", 1),
    ("two turns", DOUBLES, 2, b"|b/pb/pp/", 2),
    (
        "all but one",
        DOUBLES,
        31,
        b"pppp/pppbpppbpppb/ppbpbppbpb/pbpbpb/|bb/",
        31,
    ),
    (
        "all",
        DOUBLES,
        32,
        b"pppp/pppbpppbpppb/ppbpbppbpb/pbpbpb/bb/|",
        32,
    ),
    ("in two parts", TWO_PARTS, 99, b"pppp/ppbpbppbpb/bb/|", 18),
    (
        "in three parts",
        THREE_PARTS,
        99,
        b"pppbpppbpppb/pbpbpb/|",
        11,
    ),
    ("in four parts", FOUR_PARTS, 99, b"pppp/|", 8),
    ("with a pattern", PATTERN, 99, b"bpbpbp/|", 20),
    (
        "rotations with a pattern",
        TURNED,
        99,
        b"pppp/pbppbpbppb/bpbpbp/|",
        63,
    ),
    ("three turns of minimus", MINIMUS, 3, b"|ppp/", 3),
    ("four turns of minimus", MINIMUS, 4, b"ppp/|", 4),
    ("a false call", FALSE_CALL, 3, b"|ppp/", 3),
    ("a false call, to the end", FALSE_CALL, 9, b"ppp/|", 4),
];

// A case in one of the ways.
fn check(rt: &(impl AllocGlobal + Threads + Sync), case: Case, way: Way) -> Result<(), Fail> {
    let (name, draft, turns, wanted, wanted_used) = case;
    let told = tell(rt, &draft, way, &[turns])?;
    if told.text.as_slice() == wanted && told.used.as_slice() == [wanted_used].as_slice() {
        Ok(())
    } else {
        Err(Fail::from(name))
    }
}

#[test]
fn turns_on_the_root(rt: HostRuntime) -> Result<(), Fail> {
    for case in CASES {
        for way in [Numbers, Chosen, Rows, Table] {
            check(&rt, *case, way)?;
        }
    }
    Ok(())
}

const GRANDSIRE: &[(u8, &[u8])] = &[
    (b'p', b"3.1.5.1.5.1.5.1.5.1"),
    (b'b', b"3.1.5.1.5.1.5.3.5.1"),
    (b's', b"3.1.5.1.5.1.5.3.5.123"),
];

// A call of another length than what it replaces.
const SHORT_CALL: &[(u8, &[u8])] = &[
    (b'p', b"x.14.x.14.x.14.x.12"),
    (b'b', b"x.14.x.14.x.14"),
    (b's', b"x.14.x.14.x.14.x.1234"),
];

const MINOR: &[(u8, &[u8])] = &[
    (b'p', b"x.16.x.16.x.16.x.16.x.16.x.12"),
    (b'b', b"x.16.x.16.x.16.x.16.x.16.x.14"),
];

const SPLICED: &[(u8, &[u8])] = &[
    (b'p', b"x.14.x.14.x.14.x.12"),
    (b'b', b"x.14.x.14.x.14.x.14"),
    (b'p', b"x.14.12.14.x.14.12.14"),
];

const HUNTS: &[(u8, &[u8])] = &[(b'p', b"3.1.3.1.3.1"), (b'b', b"3.1"), (b's', b"1.3")];

// Stages and leads, none of them symmetric throughout.
const METHODS: &[(u8, &[(u8, &[u8])])] = &[
    (3, HUNTS),
    (4, SHORT_CALL),
    (4, SPLICED),
    (5, GRANDSIRE),
    (5, BOBS),
    (6, MINOR),
];

// What is asked: the least and the greatest length, the parts, the cells of a pattern, the most leads with a mark, and
// the most changes of method.
type Asked = (
    i64,
    i64,
    i64,
    &'static [Cell],
    Option<(u8, i64)>,
    Option<i64>,
);

const ASKED: &[Asked] = &[
    (1, 120, 1, &[], None, None),
    (1, 72, 1, &[Bell(1), Bell(3), Cell::Run], None, None),
    (
        1,
        100,
        1,
        &[Cell::Run, Bell(2), Cell::Any],
        Some((b'b', 4)),
        None,
    ),
    (1, 60, 1, &[], Some((b'b', 1)), None),
    (24, 24, 1, &[], None, Some(1)),
    (1, 120, 2, &[], None, None),
    (1, 120, 3, &[Cell::Run, Bell(2), Bell(3)], None, None),
    (1, 144, 4, &[], Some((b'p', 8)), None),
    (1, 120, 5, &[], None, Some(20)),
    (60, 180, 6, &[], None, None),
    (1, 11, 1, &[], Some((b'b', 0)), None),
];

// How many turns the ways take side by side.
const TURNS: [u64; 3] = [1, 9, 300];

// Ok where a way finds and leaves the same.
fn agrees(
    rt: &(impl AllocGlobal + Threads + Sync),
    draft: &Draft,
    rows: &Told,
    way: Way,
) -> Result<(), Fail> {
    let other = tell(rt, draft, way, &TURNS)?;
    if other.text == rows.text && other.used == rows.used {
        Ok(())
    } else {
        Err(Fail::from("two ways find or leave another"))
    }
}

// Ok where all ways find and leave the same as rung leads do.
fn all_agree(rt: &(impl AllocGlobal + Threads + Sync), draft: &Draft) -> Result<(), Fail> {
    let rows = tell(rt, draft, Rows, &TURNS)?;
    agrees(rt, draft, &rows, Numbers)?;
    agrees(rt, draft, &rows, Table)
}

#[test]
fn all_ways_are_one(rt: HostRuntime) -> Result<(), Fail> {
    for &(stage, leads) in METHODS {
        for &(min, max, parts, cells, count, com) in ASKED {
            let draft = Draft {
                stage,
                leads,
                min,
                max,
                parts,
                cells,
                count,
                com,
            };
            all_agree(&rt, &draft)?;
        }
    }
    Ok(())
}
