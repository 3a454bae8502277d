//! Tests of which touch is the first that is not kept, by a walk that rings and by numbers, by one thread and by several.

ghost use Rattle.std.specs.Prelude.{All, IfOk};
ghost use Rattle.cr_model.specs.Callings.{HasSteps};

use cr_explore::{first_unkept, first_unkept_by};
use cr_model::Cell::Bell;
use cr_model::{Calling, Count, Problem};
use cr_samples::{DOUBLES, Draft, MINIMUS_WITH_SINGLES, SPLICED, problem_of};
use std::alloc::Global;
use std::test::*;
use std::thread::Threads;

const LONG: Draft = Draft {
    length: (50, 120),
    ..DOUBLES
};

const SHORT: Draft = Draft {
    length: (1, 100),
    ..DOUBLES
};

const THREE_PARTS: Draft = Draft {
    parts: 3,
    ..DOUBLES
};

const FEW_BOBS: Draft = Draft {
    counts: &[Count {
        mark: b'b',
        min: 0,
        max: 2,
    }],
    ..DOUBLES
};

// A row that the least rotation of three bobs does not have.
const PATTERN: Draft = Draft {
    cells: &[Bell(1), Bell(4), Bell(2), Bell(5), Bell(3)],
    ..DOUBLES
};

// The problem, a kept touch, and one that is not kept, with what is wrong about it.
type Case = (Draft, &'static [u8], &'static str, &'static [u8]);

const CASES: &[Case] = &[
    (
        LONG,
        &[0, 1, 0, 1, 0, 1],
        "it does not come round",
        &[0, 1, 0, 1, 0],
    ),
    (
        LONG,
        &[0, 1, 0, 1, 0, 1],
        "the course twice",
        &[0, 0, 0, 0, 0, 0, 0, 0],
    ),
    (
        LONG,
        &[0, 1, 0, 1, 0, 1],
        "a rotation is less",
        &[1, 0, 1, 0, 1, 0],
    ),
    (LONG, &[0, 1, 0, 1, 0, 1], "too short", &[0, 0, 0, 0]),
    (
        SHORT,
        &[0, 1, 0, 1, 0, 1],
        "too long",
        &[0, 0, 0, 1, 0, 0, 0, 1, 0, 0, 0, 1],
    ),
    (
        THREE_PARTS,
        &[0, 1, 0, 1, 0, 1],
        "ten leads in three parts",
        &[0, 0, 1, 0, 1, 0, 0, 1, 0, 1],
    ),
    (
        THREE_PARTS,
        &[0, 1, 0, 1, 0, 1],
        "another third part",
        &[0, 1, 0, 1, 0, 0],
    ),
    (
        THREE_PARTS,
        &[0, 1, 0, 1, 0, 1],
        "parts that do not come round",
        &[0, 0, 0, 0, 0, 0],
    ),
    (
        FEW_BOBS,
        &[0, 0, 0, 0],
        "too many bobs",
        &[0, 1, 0, 1, 0, 1],
    ),
    (
        PATTERN,
        &[1, 0, 1, 0, 1, 0],
        "no row that fits",
        &[0, 1, 0, 1, 0, 1],
    ),
    (
        MINIMUS_WITH_SINGLES,
        &[0, 0, 0],
        "a lead with a row twice",
        &[1],
    ),
    (SPLICED, &[0, 0, 1], "a rotation begins later", &[0, 1, 0]),
];

// From so many touches on they are looked at by numbers.
const MANY: usize = 4_000;

// Appends the calling of some steps, which are the problem's.
fn add(
    alloc: Global,
    problem: &Problem,
    touches: &mut Vec<Calling>,
    steps: &[u8],
) -> Result<(), Fail>
    requires { All (HasSteps problem.now) touches.old.items }
    ensures { IfOk result (λ _. All (HasSteps problem.now) touches.new.items) }
{
    let Ok(touch) = Calling::new(steps.to_vec(alloc)?) else {
        return Err(Fail::from("a calling has some steps"));
    };
    if !problem.has_steps(touch.steps()) {
        return Err(Fail::from("the steps are the problem's"));
    }
    touches.push(touch)?;
    Ok(())
}

// So many times the same touch.
fn copies(
    alloc: Global,
    problem: &Problem,
    steps: &[u8],
    number: usize,
) -> Result<Vec<Calling>, Fail>
    ensures { IfOk result (λ touches. All (HasSteps problem.now) touches.items) }
{
    let mut touches = Vec::new(alloc);
    for _touch in 0..number {
        add(alloc, problem, &mut touches, steps)?;
    }
    Ok(touches)
}

// Ok where of so many kept touches, one that is not and a kept one it is the first that is not kept, and where of the
// first ones alone none is.
fn check(alloc: Global, case: Case, number: usize) -> Result<(), Fail> {
    let (draft, kept, name, other) = case;
    let problem = problem_of(alloc, &draft)?;
    let mut touches = copies(alloc, &problem, kept, number)?;
    let before = first_unkept(alloc, &problem, &touches)?;
    add(alloc, &problem, &mut touches, other)?;
    add(alloc, &problem, &mut touches, kept)?;
    let first = first_unkept(alloc, &problem, &touches)?;
    if before.is_none() && first == Some(number) {
        Ok(())
    } else {
        Err(Fail::from(name))
    }
}

#[test]
fn the_first_touch_that_is_not_kept(rt: HostRuntime) -> Result<(), Fail> {
    for case in CASES {
        for number in [0, 1, MANY] {
            check(rt.alloc(), *case, number)?;
        }
    }
    Ok(())
}

// How many touches there are, the places of those that are not kept, and the first of these places.
type Faults = (usize, &'static [usize], Option<usize>);

// Four threads look at 1,001 touches each, but for the last, which looks at the rest.
const FAULTS: &[Faults] = &[
    (4_001, &[], None),
    (4_001, &[0], Some(0)),
    (4_001, &[1_000], Some(1_000)),
    (4_001, &[1_001], Some(1_001)),
    (4_001, &[2_500], Some(2_500)),
    (4_001, &[4_000], Some(4_000)),
    (4_001, &[700, 3_500], Some(700)),
    (4_001, &[3_002, 3_003], Some(3_002)),
    (3, &[1, 2], Some(1)),
    (1, &[], None),
    (0, &[], None),
];

// So many touches, of which those at some places are not kept.
fn with_faults(
    alloc: Global,
    problem: &Problem,
    number: usize,
    places: &[usize],
) -> Result<Vec<Calling>, Fail>
    ensures { IfOk result (λ touches. All (HasSteps problem.now) touches.items) }
{
    let mut touches = Vec::new(alloc);
    for touch in 0..number {
        let steps = steps_at(places, touch);
        add(alloc, problem, &mut touches, steps)?;
    }
    Ok(touches)
}

// The steps of a touch that comes round, or at one of the places of one that does not.
fn steps_at(places: &[usize], touch: usize) -> &'static [u8] {
    if places.contains(&touch) {
        &[0, 1, 0, 1, 0]
    } else {
        &[0, 1, 0, 1, 0, 1]
    }
}

// Ok where one thread and four tell the same first place.
fn check_threads(
    rt: &(impl AllocGlobal + Threads + Sync),
    problem: &Problem,
    faults: Faults,
) -> Result<(), Fail> {
    let (number, places, first) = faults;
    let touches = with_faults(rt.alloc(), problem, number, places)?;
    for threads in [1, 4] {
        let told = first_unkept_by(rt, rt.alloc(), problem, &touches, threads)?;
        if told != first {
            return Err(Fail::from("another touch is told"));
        }
    }
    Ok(())
}

#[test]
fn several_threads_tell_the_same_first_touch(rt: HostRuntime) -> Result<(), Fail> {
    let problem = problem_of(rt.alloc(), &LONG)?;
    for faults in FAULTS {
        check_threads(&rt, &problem, *faults)?;
    }
    Ok(())
}
