ghost use Rattle.std.specs.Prelude.{◌≡◌, ◌<◌, ◌≤◌, ℕ, [], ◌∷◌, length, map, All, IfOk};
ghost use Rattle.cr_row.specs.Rows.{product};
ghost use Rattle.cr_leads.specs.Tables.{lead_table};
ghost use Rattle.cr_model.specs.Callings.{head_of, rows_of, HasSteps};
ghost use Rattle.cr_model.specs.Queries.{rows_fitting};
ghost use Rattle.cr_model.specs.Right.{FitsStage, pattern_at};
ghost use Rattle.cr_model.specs.Sizes.{child};
ghost use Rattle.cr_query.specs.Meters.{parent};

use cr_leads::LeadTable;
use cr_model::Cell::{Any, Bell, Run};
use cr_model::{Calling, Cell, Com, Count, MethodCount, Pattern, Problem, Query};
use cr_query::{Hopeless, Meter, Shape, is_kept, meets, turn_free};
use cr_row::{Row, Stage};
use cr_samples::{DOUBLES, Draft, SPLICED, problem_of, query_of};
use std::alloc::Global;
use std::test::*;

// Plain Bob Doubles with bobs, of 60 changes.
const OF_SIXTY: Draft = Draft {
    length: (60, 60),
    ..DOUBLES
};

const ONE_BOB: &[Count] = &[Count {
    mark: b'b',
    min: 1,
    max: 1,
}];

const TWO_BOBS: &[Count] = &[Count {
    mark: b'b',
    min: 2,
    max: 2,
}];

const FIVE_BOBS: &[Count] = &[Count {
    mark: b'b',
    min: 5,
    max: 9,
}];

const ASKED: Draft = Draft {
    cells: &[Bell(1), Bell(4), Bell(2), Bell(5), Bell(3)],
    fitting: (1, 1),
    ..OF_SIXTY
};

const THREE_PARTS: Draft = Draft {
    parts: 3,
    ..OF_SIXTY
};

const TWO_PARTS: Draft = Draft {
    parts: 2,
    ..OF_SIXTY
};

const ONE_BOB_IN_TWO_PARTS: Draft = Draft {
    length: (20, 20),
    parts: 2,
    counts: ONE_BOB,
    ..OF_SIXTY
};

const TWO_BOBS_IN_TWO_PARTS: Draft = Draft {
    length: (20, 20),
    parts: 2,
    counts: TWO_BOBS,
    ..OF_SIXTY
};

const FIVE_BOBS_OF_59_CHANGES: Draft = Draft {
    length: (55, 59),
    counts: FIVE_BOBS,
    ..OF_SIXTY
};

const FEW_ROWS: Draft = Draft {
    cells: &[Run],
    fitting: (0, 15),
    ..OF_SIXTY
};

const NO_QUEENS: Draft = Draft {
    cells: &[Bell(1), Bell(5), Bell(4), Bell(3), Bell(2)],
    fitting: (0, 0),
    ..OF_SIXTY
};

const MANY_ROUNDS: Draft = Draft {
    cells: &[Bell(1), Bell(2), Bell(3), Bell(4), Bell(5)],
    fitting: (51, 60),
    ..OF_SIXTY
};

const MANY_ROUNDS_BUT_ONE: Draft = Draft {
    fitting: (50, 60),
    ..MANY_ROUNDS
};

const CHANGING_ONCE: Draft = Draft {
    com: Some(Com { min: 1, max: 1 }),
    ..SPLICED
};

const CHANGING_TWICE: Draft = Draft {
    com: Some(Com { min: 2, max: 2 }),
    ..SPLICED
};

const CHANGING_THRICE: Draft = Draft {
    com: Some(Com { min: 3, max: 9 }),
    ..SPLICED
};

const NEVER_CHANGING: Draft = Draft {
    com: Some(Com { min: 0, max: 0 }),
    ..SPLICED
};

const NEVER_CHANGING_ALL_C: Draft = Draft {
    method_counts: &[MethodCount {
        letter: b'C',
        min: 3,
        max: 3,
    }],
    ..NEVER_CHANGING
};

fn table(alloc: Global, problem: &Problem) -> Result<LeadTable, Fail>
    ensures { IfOk result (λ leads. leads ≡ lead_table problem.now) }
{
    match LeadTable::new(alloc, problem) {
        Ok(leads) => Ok(leads),
        Err(_) => Err(Fail::from("there is memory")),
    }
}

fn calling(alloc: Global, steps: &[u8]) -> Result<Calling, Fail>
    ensures { IfOk result (λ calling. calling ≡ steps.now) }
{
    match Calling::new(steps.to_vec(alloc)?) {
        Ok(calling) => Ok(calling),
        Err(_) => Err(Fail::from("the calling is short")),
    }
}

// Whether a calling meets the query, and whether it is kept.
fn judged(alloc: Global, draft: &Draft, steps: &[u8]) -> Result<(bool, bool), Fail> {
    let problem = problem_of(alloc, draft)?;
    let calling = calling(alloc, steps)?;
    if !problem.has_steps(calling.steps()) {
        return Err(Fail::from("the steps are the problem's"));
    }
    judged_by(alloc, &problem, &calling)
}

// The same, over the leads of the problem.
fn judged_by(alloc: Global, problem: &Problem, calling: &Calling) -> Result<(bool, bool), Fail>
    requires { HasSteps problem.now calling.now }
{
    let leads = table(alloc, problem)?;
    let met = meets(alloc, problem, &leads, calling);
    let kept = is_kept(alloc, problem, &leads, calling);
    match (met, kept) {
        (Ok(met), Ok(kept)) => Ok((met, kept)),
        _ => Err(Fail::from("there is memory")),
    }
}

// A calling, whether it meets the query, and whether it is kept.
#[derive(Clone, Copy)]
struct Touch(&'static str, Draft, &'static [u8], bool, bool);

const TOUCHES: &[Touch] = &[
    Touch(
        "the least rotation",
        OF_SIXTY,
        &[0, 1, 0, 1, 0, 1],
        true,
        true,
    ),
    Touch(
        "another rotation",
        OF_SIXTY,
        &[1, 0, 1, 0, 1, 0],
        true,
        false,
    ),
    Touch("too short", OF_SIXTY, &[1, 1], false, false),
    Touch(
        "a row is asked for that the least rotation lacks",
        ASKED,
        &[0, 1, 0, 1, 0, 1],
        false,
        false,
    ),
    Touch("and the other has", ASKED, &[1, 0, 1, 0, 1, 0], true, true),
    Touch("three parts", THREE_PARTS, &[0, 1, 0, 1, 0, 1], true, true),
    Touch(
        "not two parts",
        TWO_PARTS,
        &[0, 1, 0, 1, 0, 1],
        false,
        false,
    ),
    Touch(
        "two bobs in two parts",
        TWO_BOBS_IN_TWO_PARTS,
        &[1, 1],
        true,
        true,
    ),
    Touch(
        "one bob in each part",
        ONE_BOB_IN_TWO_PARTS,
        &[1, 1],
        false,
        false,
    ),
    Touch(
        "one change of method",
        CHANGING_ONCE,
        &[0, 0, 1],
        true,
        true,
    ),
    Touch(
        "from the later method",
        CHANGING_ONCE,
        &[1, 0, 0],
        true,
        false,
    ),
    Touch(
        "the join is no change",
        CHANGING_TWICE,
        &[0, 0, 1],
        false,
        false,
    ),
    Touch(
        "two changes of method",
        CHANGING_TWICE,
        &[0, 1, 0],
        true,
        true,
    ),
];

#[test]
fn touches(rt: HostRuntime) -> Result<(), Fail> {
    for &Touch(name, draft, steps, met, kept) in TOUCHES {
        if judged(rt.alloc(), &draft, steps)? != (met, kept) {
            return Err(Fail::from(name));
        }
    }
    Ok(())
}

// Cells, and how many of the 40 rows of the plain course fit them.
const SHAPES: &[(&str, &[Cell], i64)] = &[
    ("fixed", &[Bell(1), Bell(3), Bell(5), Bell(2), Bell(4)], 1),
    ("any bells between", &[Bell(1), Any, Any, Any, Bell(5)], 2),
    (
        "any bells behind",
        &[Bell(3), Bell(1), Bell(2), Any, Any],
        1,
    ),
    ("a run at the front", &[Run, Bell(4), Bell(5)], 3),
    ("a run at the back", &[Bell(2), Bell(1), Run], 2),
    ("a run in the middle", &[Bell(1), Run, Bell(2)], 2),
    (
        "a run of no bell",
        &[Bell(2), Bell(1), Run, Bell(4), Bell(3), Bell(5)],
        1,
    ),
    ("nothing but a run", &[Run], 40),
];

// Whether exactly so many rows of the plain course fit the cells.
fn course_has(alloc: Global, cells: &'static [Cell], number: i64) -> Result<bool, Fail> {
    let draft = Draft {
        length: (40, 40),
        cells,
        fitting: (number, number),
        ..OF_SIXTY
    };
    Ok(judged(alloc, &draft, &[0, 0, 0, 0])?.0)
}

#[test]
fn rows_that_fit(rt: HostRuntime) -> Result<(), Fail> {
    for &(name, cells, number) in SHAPES {
        let here = course_has(rt.alloc(), cells, number)?;
        let more = course_has(rt.alloc(), cells, number + 1)?;
        if !here || more {
            return Err(Fail::from(name));
        }
    }
    Ok(())
}

#[test]
fn queries_that_turning_does_not_change(rt: HostRuntime) -> Result<(), Fail> {
    let alloc = rt.alloc();
    assert!(rt; turn_free(&query_of(alloc, &OF_SIXTY)?));
    assert!(rt; turn_free(&query_of(alloc, &TWO_BOBS_IN_TWO_PARTS)?));
    assert!(rt; !turn_free(&query_of(alloc, &ASKED)?));
    assert!(rt; !turn_free(&query_of(alloc, &CHANGING_ONCE)?));
    Ok(())
}

// What a meter tells: of a node, of its child by the leads alone, of the child, and whether the child's touch
// meets the counts.
#[derive(Clone, Copy, PartialEq, Eq)]
struct Told(Option<Hopeless>, bool, Option<Hopeless>, bool);

// How many rows of the lead that is rung from a head fit a pattern.
fn fitting_in(
    alloc: Global,
    stage: Stage,
    pattern: &Pattern,
    head: &Row,
    lead: &[Row],
) -> Result<u8, Fail>
    requires cells { FitsStage stage pattern.now.cells }
    requires head { length head.now ≡ stage }
    requires lead { All (λ row. length row ≡ stage) lead.now }
    requires few { length lead.now ≤ 128 }
    ensures { IfOk result (λ number. number ≡ rows_fitting pattern.now.cells (map (product head.now) lead.now)) }
{
    match Shape::new(alloc, stage, &pattern.cells) {
        Ok(shape) => Ok(shape.count_lead(head, lead) as u8),
        Err(_) => Err(Fail::from("there is memory")),
    }
}

// The same of each pattern.
fn fitting_in_all(
    alloc: Global,
    stage: Stage,
    patterns: &[Pattern],
    head: &Row,
    lead: &[Row],
) -> Result<Vec<u8>, Fail>
    requires cells { (i : ℕ) → i < length patterns.now → FitsStage stage (pattern_at patterns.now i).cells }
    requires head { length head.now ≡ stage }
    requires lead { All (λ row. length row ≡ stage) lead.now }
    requires few { length lead.now ≤ 128 }
    ensures { IfOk result (λ rows. rows.items
        ≡ map (λ pattern. rows_fitting pattern.cells (map (product head.now) lead.now)) patterns.now) }
{
    let mut rows = Vec::new(alloc);
    for index in 0..patterns.len() {
        rows.push(fitting_in(alloc, stage, &patterns[index], head, lead)?)?;
    }
    Ok(rows)
}

// The patterns of a query.
fn patterns_of(query: &Query) -> &[Pattern]
    ensures { result.now ≡ query.now.patterns }
{
    query.patterns.as_slice()
}

// How many rows of the lead of a step fit each pattern.
fn fitting_of(
    alloc: Global,
    problem: &Problem,
    leads: &LeadTable,
    step: u8,
    head: &Row,
) -> Result<Vec<u8>, Fail>
    requires table { leads.now ≡ lead_table problem.now }
    requires step { step < length leads.now.leads }
    requires head { length head.now ≡ leads.now.stage }
    ensures { IfOk result (λ rows. rows.items
        ≡ map (λ pattern. rows_fitting pattern.cells (map (product head.now) (rows_of problem.now (step ∷ []))))
        problem.now.query.patterns) }
{
    let patterns = patterns_of(problem.query());
    fitting_in_all(alloc, problem.stage(), patterns, head, leads.rows_of(step))
}

// Adds a lead to a meter, which is rung, or of which it is known how many rows fit.
fn add(
    alloc: Global,
    meter: &mut Meter,
    problem: &Problem,
    leads: &LeadTable,
    step: u8,
    head: &Row,
    is_counted: bool,
) -> Result<(), Fail>
    requires same { meter.old.problem ≡ problem.now }
    requires table { leads.now ≡ lead_table problem.now }
    requires step { step < length leads.now.leads }
    requires head { head.now ≡ head_of problem.now meter.old.node }
    requires long { length head.now ≡ leads.now.stage }
    requires few { length meter.old.node < 1024 }
    ensures { IfOk result (λ _. meter.new ≡ record { problem = problem.now; node = child meter.old.node step }) }
{
    if is_counted {
        let fitting = fitting_of(alloc, problem, leads, step, head)?;
        meter.add_counted(step, &fitting);
    } else {
        meter.add_lead(leads, step, head);
    }
    Ok(())
}

// Takes the last lead of a meter back, by the lead or by itself.
fn back(meter: &mut Meter, leads: &LeadTable, step: u8, head: &Row, is_counted: bool)
    requires table { leads.now ≡ lead_table meter.old.problem }
    requires last { meter.old.node ≡ child (parent meter.old.node) step }
    requires head { head.now ≡ head_of meter.old.problem (parent meter.old.node) }
    requires some { 0 < length meter.old.node }
{
    if is_counted {
        meter.take_last();
    } else {
        meter.take_back(leads, step, head);
    }
}

// Adds leads to a meter and takes the last one back, where each is rung or it is known how many of its rows fit:
// what it tells, and what of the node that is left.
fn walked(
    alloc: Global,
    draft: &Draft,
    node: &[u8],
    step: u8,
    is_counted: bool,
) -> Result<(Told, Option<Hopeless>), Fail> {
    let problem = problem_of(alloc, draft)?;
    let leads = table(alloc, &problem)?;
    if !problem.has_steps(node) || step >= leads.count() || node.len() >= 1024 {
        return Err(Fail::from("the node is a short one of the problem"));
    }
    told_at(alloc, &problem, &leads, node, step, is_counted)
}

// The same over the leads of the problem.
fn told_at(
    alloc: Global,
    problem: &Problem,
    leads: &LeadTable,
    node: &[u8],
    step: u8,
    is_counted: bool,
) -> Result<(Told, Option<Hopeless>), Fail>
    requires table { leads.now ≡ lead_table problem.now }
    requires steps { HasSteps problem.now node.now }
    requires step { step < length leads.now.leads }
    requires few { length node.now < 1024 }
{
    let head = head_after(alloc, problem, leads, node)?;
    let mut meter = meter_at(alloc, problem, leads, node, is_counted)?;
    let before = meter.hopeless();
    let by_leads = is_hopeless_with(&meter, step, is_counted);
    add(alloc, &mut meter, problem, leads, step, &head, is_counted)?;
    let child = meter.hopeless();
    let counts = meter.meets_counts();
    back(&mut meter, leads, step, &head, is_counted);
    Ok((Told(before, by_leads, child, counts), meter.hopeless()))
}

// Whether a meter tells that the node with a step more is hopeless by its leads: of this step alone, or of all at once.
fn is_hopeless_with(meter: &Meter, step: u8, at_once: bool) -> bool
    requires { step < length meter.now.problem.leads }
{
    if at_once {
        (meter.hopeless_steps() >> (step & 31)) & 1 == 1
    } else {
        meter.is_hopeless_with(step)
    }
}

// The head after a node.
fn head_after(alloc: Global, problem: &Problem, leads: &LeadTable, node: &[u8]) -> Result<Row, Fail>
    requires table { leads.now ≡ lead_table problem.now }
    requires steps { HasSteps problem.now node.now }
    ensures is { IfOk result (λ head. head ≡ head_of problem.now node.now) }
    ensures long { IfOk result (λ head. length head ≡ leads.now.stage) }
{
    let calling = calling(alloc, node)?;
    Ok(leads.head_after(&calling))
}

// A meter at a node.
fn meter_at(
    alloc: Global,
    problem: &Problem,
    leads: &LeadTable,
    node: &[u8],
    is_counted: bool,
) -> Result<Meter, Fail>
    requires table { leads.now ≡ lead_table problem.now }
    requires steps { HasSteps problem.now node.now }
    requires few { length node.now < 1024 }
    ensures { IfOk result (λ meter. meter ≡ record { problem = problem.now; node = node.now }) }
{
    let Ok(mut meter) = Meter::new(alloc, problem) else {
        return Err(Fail::from("there is memory"));
    };
    lead_to(alloc, &mut meter, problem, leads, node, is_counted)?;
    Ok(meter)
}

// Leads a fresh meter to a node.
fn lead_to(
    alloc: Global,
    meter: &mut Meter,
    problem: &Problem,
    leads: &LeadTable,
    node: &[u8],
    is_counted: bool,
) -> Result<(), Fail>
    requires same { meter.old.problem ≡ problem.now }
    requires table { leads.now ≡ lead_table problem.now }
    requires fresh { meter.old.node ≡ [] }
    requires steps { HasSteps problem.now node.now }
    requires few { length node.now < 1024 }
    ensures { IfOk result (λ _. meter.new ≡ record { problem = problem.now; node = node.now }) }
{
    for index in 0..node.len() {
        let front = calling(alloc, &node[..index])?;
        let head = leads.head_after(&front);
        add(alloc, meter, problem, leads, node[index], &head, is_counted)?;
    }
    Ok(())
}

// A node, a step, and what a meter tells.
#[derive(Clone, Copy)]
struct Metered(&'static str, Draft, &'static [u8], u8, Told);

const METERED: &[Metered] = &[
    Metered(
        "one bob in two parts is two",
        ONE_BOB_IN_TWO_PARTS,
        &[],
        1,
        Told(None, true, Some(Hopeless::TooMany), false),
    ),
    Metered(
        "two bobs in two parts",
        TWO_BOBS_IN_TWO_PARTS,
        &[],
        1,
        Told(None, false, None, true),
    ),
    Metered(
        "no bob in two parts",
        TWO_BOBS_IN_TWO_PARTS,
        &[],
        0,
        Told(None, true, Some(Hopeless::TooFew), false),
    ),
    Metered(
        "five leads that are left are rounded down",
        FIVE_BOBS_OF_59_CHANGES,
        &[],
        0,
        Told(None, true, Some(Hopeless::TooFew), false),
    ),
    Metered(
        "and four with the bob",
        FIVE_BOBS_OF_59_CHANGES,
        &[],
        1,
        Told(None, false, None, false),
    ),
    Metered(
        "more rows than a pattern allows",
        FEW_ROWS,
        &[0],
        0,
        Told(None, false, Some(Hopeless::TooMany), true),
    ),
    Metered(
        "a row of the second lead",
        NO_QUEENS,
        &[0],
        0,
        Told(None, false, Some(Hopeless::TooMany), true),
    ),
    Metered(
        "one row too few is left",
        MANY_ROUNDS,
        &[],
        0,
        Told(None, false, Some(Hopeless::TooFew), true),
    ),
    Metered(
        "as many rows are left",
        MANY_ROUNDS_BUT_ONE,
        &[],
        0,
        Told(None, false, None, true),
    ),
    Metered(
        "two leads left are no three changes",
        CHANGING_THRICE,
        &[],
        0,
        Told(None, true, Some(Hopeless::TooFew), true),
    ),
    Metered(
        "two leads left are two changes",
        CHANGING_TWICE,
        &[],
        0,
        Told(None, false, None, true),
    ),
    Metered(
        "the join is no change",
        CHANGING_ONCE,
        &[0, 0],
        1,
        Told(None, false, None, true),
    ),
    Metered(
        "another change",
        CHANGING_ONCE,
        &[0, 1],
        0,
        Told(None, true, Some(Hopeless::TooMany), true),
    ),
    Metered(
        "too many before too few",
        NEVER_CHANGING_ALL_C,
        &[0],
        1,
        Told(Some(Hopeless::TooFew), true, Some(Hopeless::TooMany), false),
    ),
];

#[test]
fn meters(rt: HostRuntime) -> Result<(), Fail> {
    for &Metered(name, draft, node, step, told) in METERED {
        let rung = walked(rt.alloc(), &draft, node, step, false)?;
        let counted = walked(rt.alloc(), &draft, node, step, true)?;
        if rung != (told, told.0) || counted != (told, told.0) {
            return Err(Fail::from(name));
        }
    }
    Ok(())
}

// Whether a node is hopeless by its rows, where it is not so by its leads.
const BY_ROWS: &[(&str, Draft, &[u8], bool)] = &[
    ("as many rows as a pattern allows", FEW_ROWS, &[0], false),
    ("more rows than a pattern allows", FEW_ROWS, &[0, 0], true),
    ("no row of the first lead", NO_QUEENS, &[0], false),
    ("a row of the second lead", NO_QUEENS, &[0, 0], true),
    ("as many rows are left", MANY_ROUNDS_BUT_ONE, &[0], false),
    ("one row too few is left", MANY_ROUNDS, &[0], true),
    ("no pattern", OF_SIXTY, &[0, 0], false),
];

fn is_hopeless_by_rows(alloc: Global, draft: &Draft, node: &[u8]) -> Result<bool, Fail> {
    let problem = problem_of(alloc, draft)?;
    let leads = table(alloc, &problem)?;
    if !problem.has_steps(node) || node.len() >= 1024 {
        return Err(Fail::from("the node is a short one of the problem"));
    }
    is_hopeless_by_rows_at(alloc, &problem, &leads, node)
}

// The same over the leads of the problem.
fn is_hopeless_by_rows_at(
    alloc: Global,
    problem: &Problem,
    leads: &LeadTable,
    node: &[u8],
) -> Result<bool, Fail>
    requires table { leads.now ≡ lead_table problem.now }
    requires steps { HasSteps problem.now node.now }
    requires few { length node.now < 1024 }
{
    let meter = meter_at(alloc, problem, leads, node, true)?;
    Ok(meter.is_hopeless_by_rows())
}

#[test]
fn hopeless_by_rows(rt: HostRuntime) -> Result<(), Fail> {
    for &(name, draft, node, told) in BY_ROWS {
        if is_hopeless_by_rows(rt.alloc(), &draft, node)? != told {
            return Err(Fail::from(name));
        }
    }
    Ok(())
}
