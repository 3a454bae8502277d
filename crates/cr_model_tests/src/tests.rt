use cr_model::Cell::{Bell, Run};
use cr_model::{
    Calling, Cell, Com, Count, CountAt, KeyPath, Lead, MethodCount, PartFault, Pattern, Problem,
    ProblemFault, Query, Step,
};
use cr_row::{Change, Stage};
use std::fmt::Write;
use std::test::Fail;

// A lead by its method, mark and number of changes.
#[derive(Clone, Copy)]
struct LeadRow(u8, u8, usize);

// The parts of a problem in short: the leads' changes are crosses, or make place 1 where the stage is odd.
#[derive(Clone, Copy)]
struct Draft {
    stage: u8,
    letters: &'static [u8],
    leads: &'static [LeadRow],
    min: i64,
    max: i64,
    parts: i64,
    counts: &'static [Count],
    method_counts: &'static [MethodCount],
    cells: &'static [Cell],
    patterns: usize,
    com: Option<Com>,
}

const GOOD: &[LeadRow] = &[LeadRow(0, b'p', 2), LeadRow(0, b'b', 2)];

const BASE: Draft = Draft {
    stage: 4,
    letters: b"A",
    leads: GOOD,
    min: 1,
    max: 24,
    parts: 1,
    counts: &[],
    method_counts: &[],
    cells: &[],
    patterns: 0,
    com: None,
};

fn stage_of(number: u8) -> Result<Stage, Fail> {
    Ok(Stage::new(number).ok_or("the stage is from 3 to 16")?)
}

fn change_of(stage: Stage) -> Result<Change, Fail> {
    let places: &[u8] = if stage.number() % 2 == 0 { &[] } else { &[1] };
    let change = Change::from_places(stage, places).ok();
    Ok(change.ok_or("the places are those of a change")?)
}

fn leads_of(rt: &HostRuntime, stage: Stage, rows: &[LeadRow]) -> Result<Vec<Lead>, Fail> {
    let change = change_of(stage)?;
    let mut leads = Vec::new(rt.alloc());
    for row in rows {
        let mut changes = Vec::new(rt.alloc());
        for _ in 0..row.2 {
            changes.push(change)?;
        }
        let step = Step {
            method: row.0,
            mark: row.1,
        };
        leads.push(Lead { step, changes })?;
    }
    Ok(leads)
}

fn query_of(rt: &HostRuntime, draft: &Draft) -> Result<Query, Fail> {
    let mut patterns = Vec::new(rt.alloc());
    for _ in 0..draft.patterns {
        patterns.push(Pattern {
            cells: draft.cells.to_vec(rt.alloc())?,
            min: 0,
            max: 1,
        })?;
    }
    Ok(Query {
        min: draft.min,
        max: draft.max,
        parts: draft.parts,
        counts: draft.counts.to_vec(rt.alloc())?,
        method_counts: draft.method_counts.to_vec(rt.alloc())?,
        patterns,
        com: draft.com,
    })
}

fn made(rt: &HostRuntime, draft: &Draft) -> Result<Result<Problem, PartFault>, Fail> {
    let stage = stage_of(draft.stage)?;
    let letters = draft.letters.to_vec(rt.alloc())?;
    let leads = leads_of(rt, stage, draft.leads)?;
    let query = query_of(rt, draft)?;
    Ok(Problem::new(stage, letters, leads, query))
}

fn problem(rt: &HostRuntime, draft: &Draft) -> Result<Problem, Fail> {
    match made(rt, draft)? {
        Ok(problem) => Ok(problem),
        Err(_) => Err(Fail::from("the parts are refused")),
    }
}

const BOBS: Count = Count {
    mark: b'b',
    min: 0,
    max: 12_000,
};

const SINGLES: Count = Count { mark: b's', ..BOBS };

const OF_B: MethodCount = MethodCount {
    letter: b'B',
    min: 0,
    max: 12_000,
};

// At each limit and one above it: the stage, the changes of the one lead, the greatest length, the parts, how many
// counts and how many patterns, and the fault.
const EDGES: &[(&str, u8, usize, i64, i64, usize, usize, Option<PartFault>)] = &[
    ("128 changes", 4, 128, 24, 1, 0, 0, None),
    (
        "129 changes",
        4,
        129,
        24,
        1,
        0,
        0,
        Some(PartFault::Leads(0)),
    ),
    ("1,024 leads, 64 parts", 8, 1, 1_024, 64, 0, 0, None),
    (
        "1,025 leads",
        8,
        1,
        1_025,
        1,
        0,
        0,
        Some(PartFault::Deep(1_025)),
    ),
    ("65 parts", 4, 1, 24, 65, 0, 0, Some(PartFault::Parts(65))),
    ("16 counts, 32 patterns", 4, 1, 24, 1, 16, 32, None),
    (
        "17 counts",
        4,
        1,
        24,
        1,
        17,
        0,
        Some(PartFault::Count(CountAt::Mark(16))),
    ),
    (
        "33 patterns",
        4,
        1,
        24,
        1,
        0,
        33,
        Some(PartFault::Pattern(32)),
    ),
];

// As many counts of plain leads.
const PLAIN: Count = Count { mark: b'p', ..BOBS };

#[test]
fn limits_and_one_above(rt: HostRuntime) -> Result<(), Fail> {
    for &(name, stage, changes, max, parts, counts, patterns, wrong) in EDGES {
        let stage = stage_of(stage)?;
        let leads = leads_of(&rt, stage, &[LeadRow(0, b'p', changes)])?;
        let mut query = query_of(
            &rt,
            &Draft {
                max,
                parts,
                cells: &[Run],
                patterns,
                ..BASE
            },
        )?;
        query.counts = vec![in rt.alloc(); PLAIN; counts]?;
        let made = Problem::new(stage, b"A".to_vec(rt.alloc())?, leads, query);
        if made.err() != wrong {
            return Err(Fail::from(name));
        }
    }
    Ok(())
}

// One more lead than there may be.
const MANY: &[LeadRow] = &[
    LeadRow(0, b'p', 1),
    LeadRow(0, b'a', 1),
    LeadRow(0, b'b', 1),
    LeadRow(0, b'c', 1),
    LeadRow(0, b'd', 1),
    LeadRow(0, b'e', 1),
    LeadRow(0, b'f', 1),
    LeadRow(0, b'g', 1),
    LeadRow(0, b'h', 1),
    LeadRow(0, b'i', 1),
    LeadRow(0, b'j', 1),
    LeadRow(0, b'k', 1),
    LeadRow(0, b'l', 1),
    LeadRow(0, b'm', 1),
    LeadRow(0, b'n', 1),
    LeadRow(0, b'o', 1),
    LeadRow(0, b'q', 1),
    LeadRow(0, b'r', 1),
    LeadRow(0, b's', 1),
    LeadRow(0, b't', 1),
    LeadRow(0, b'u', 1),
    LeadRow(0, b'v', 1),
    LeadRow(0, b'w', 1),
    LeadRow(0, b'x', 1),
    LeadRow(0, b'y', 1),
];

// Everything is wrong.
const ALL_WRONG: Draft = Draft {
    stage: 8,
    letters: b"a",
    leads: &[],
    min: 0,
    max: 2_050,
    parts: 0,
    counts: &[SINGLES],
    method_counts: &[OF_B],
    cells: &[Bell(9)],
    patterns: 1,
    com: Some(Com { min: 2, max: 1 }),
};

const ORDER: &[PartFault] = &[
    PartFault::Letters(0),
    PartFault::Leads(0),
    PartFault::Steps(25),
    PartFault::Range(0, 2_050),
    PartFault::Deep(1_025),
    PartFault::Parts(0),
    PartFault::Count(CountAt::Mark(0)),
    PartFault::Count(CountAt::Method(0)),
    PartFault::Pattern(0),
    PartFault::Com,
];

// The draft with one thing more mended.
fn mended(mut draft: Draft, step: usize) -> Draft {
    match step {
        0 => draft.letters = b"A",
        1 => draft.leads = MANY,
        2 => draft.leads = GOOD,
        3 => draft.min = 1,
        4 => draft.max = 2_048,
        5 => draft.parts = 1,
        6 => draft.counts = &[],
        7 => draft.method_counts = &[],
        8 => draft.patterns = 0,
        _ => draft.com = None,
    }
    draft
}

#[test]
fn the_first_fault_comes_first(rt: HostRuntime) -> Result<(), Fail> {
    let mut draft = ALL_WRONG;
    for (step, wrong) in ORDER.iter().enumerate() {
        assert_eq!(rt; made(&rt, &draft)?.err(), Some(*wrong), "check {step}");
        draft = mended(draft, step);
    }
    assert!(rt; made(&rt, &draft)?.is_ok(), "all is mended");
    Ok(())
}

const TWO_PARTS: Draft = Draft {
    leads: &[LeadRow(0, b'p', 8), LeadRow(0, b'b', 6)],
    max: 11,
    parts: 2,
    counts: &[BOBS],
    cells: &[Run],
    patterns: 1,
    com: Some(Com { min: 0, max: 1 }),
    ..BASE
};

#[test]
fn a_problem_tells_its_parts(rt: HostRuntime) -> Result<(), Fail> {
    let first = problem(&rt, &TWO_PARTS)?;
    assert_eq!(rt;
        (first.cap(), first.part_cap(), first.shortest()),
        (11, 5, 6)
    );
    assert!(rt; first.has_steps(&[0, 1]) && !first.has_steps(&[0, 2]));
    let Ok(calling) = Calling::new([0u8, 1, 1].to_vec(rt.alloc())?) else {
        return Err(Fail::from("the calling is short"));
    };
    assert!(rt; first.has_steps(calling.steps()));
    assert_eq!(rt; first.length_of(&calling), 20);
    let copy = first.copy(rt.alloc())?;
    assert!(rt; copy.same(&first));
    let other = problem(
        &rt,
        &Draft {
            max: 12,
            ..TWO_PARTS
        },
    )?;
    assert!(rt; !other.same(&first));
    Ok(())
}

// Lengths of callings that lie in themselves, up to 46 steps, and of longer ones.
const LENGTHS: &[usize] = &[0, 1, 46, 47, 1_024];

#[test]
fn a_calling_gives_its_steps(rt: HostRuntime) -> Result<(), Fail> {
    for length in LENGTHS {
        let steps = vec![in rt.alloc(); 7u8; *length]?;
        let Ok(calling) = Calling::new(vec![in rt.alloc(); 7u8; *length]?) else {
            return Err(Fail::from("the calling is short"));
        };
        assert_eq!(rt; calling.copy(rt.alloc())?.steps(), steps.as_slice());
    }
    assert!(rt; Calling::new(vec![in rt.alloc(); 7u8; 1_025]?).is_err());
    Ok(())
}

#[test]
fn a_calling_is_equal_parts(rt: HostRuntime) -> Result<(), Fail> {
    let none = Calling::repeated(rt.alloc(), &[2, 0, 1], 0)?;
    let two = Calling::repeated(rt.alloc(), &[2, 0, 1], 2)?;
    let many = Calling::repeated(rt.alloc(), &[2, 0, 1], 14)?;
    assert!(rt; none.steps().is_empty());
    assert_eq!(rt; two.steps(), [2, 0, 1, 2, 0, 1].as_slice());
    assert!(rt; many.steps().len() == 42 && many.steps().ends_with(&[0, 1, 2, 0, 1]));
    Ok(())
}

#[test]
fn a_calling_grows_by_steps(rt: HostRuntime) -> Result<(), Fail> {
    let mut calling = Calling::empty(rt.alloc());
    assert!(rt; calling.steps().is_empty());
    calling.extend_from_slice(&[2, 0])?;
    calling.extend_from_slice(&[1])?;
    assert_eq!(rt; calling.steps(), [2, 0, 1].as_slice());
    calling.extend_from_slice(&[7; 43])?;
    let steps = calling.steps();
    assert!(rt; steps.len() == 46 && steps.starts_with(&[2, 0, 1, 7]) && steps.ends_with(&[7, 7]));
    calling.extend_from_slice(&[5])?;
    calling.extend_from_slice(&[6, 3])?;
    let steps = calling.steps();
    assert!(rt;
        steps.len() == 49 && steps.starts_with(&[2, 0, 1, 7]) && steps.ends_with(&[7, 5, 6, 3])
    );
    Ok(())
}

#[test]
fn faults_are_told_in_words(rt: HostRuntime) -> Result<(), Fail> {
    let path = KeyPath {
        bytes: b"query.min".to_vec(rt.alloc())?,
    };
    let mut text = String::new(rt.alloc());
    write!(
        text,
        "{}, {}",
        ProblemFault::Key(path),
        PartFault::Count(CountAt::Mark(2))
    )?;
    assert_eq!(rt;
        text.as_str(),
        "the key query.min is missing, unknown or of the wrong kind, count 2 is of nothing that is rung, or its limits are no range from 0 to 12000"
    );
    Ok(())
}
