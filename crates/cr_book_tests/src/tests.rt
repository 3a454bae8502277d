//! What no clause says: printed texts, and each call once with ample memory.

ghost use Rattle.std.specs.Prelude.{◌<◌, IsTrue, All, IfOk};
ghost use Rattle.cr_model.specs.Callings.{HasSteps};

use cr_book::{
    CallingFault, book_pieces, book_text, calling_text, read_calling, sort_found, summary_text,
};
use cr_model::{Calling, Lead, Problem, Query, Step};
use cr_row::{Change, Stage};
use std::alloc::Global;
use std::test::Fail;
use std::thread::Threads;

// A lead by its method, its mark and the places of its last change; the others are those of the plain course.
#[derive(Clone, Copy)]
struct LeadRow(u8, u8, &'static [u8]);

// A problem in short.
#[derive(Clone, Copy)]
struct Draft {
    stage: u8,
    max: i64,
    letters: &'static [u8],
    leads: &'static [LeadRow],
}

const DOUBLES: Draft = Draft {
    stage: 5,
    max: 120,
    letters: b"A",
    leads: &[LeadRow(0, b'p', &[1, 2, 5]), LeadRow(0, b'b', &[1, 4, 5])],
};

const MINOR: Draft = Draft {
    stage: 6,
    max: 72,
    letters: b"A",
    leads: &[
        LeadRow(0, b'p', &[1, 2]),
        LeadRow(0, b'b', &[1, 4]),
        LeadRow(0, b's', &[1, 2, 3, 4]),
    ],
};

// The method X with a bob, and K without.
const SPLICED: Draft = Draft {
    stage: 5,
    max: 120,
    letters: b"XK",
    leads: &[
        LeadRow(0, b'p', &[1, 2, 5]),
        LeadRow(0, b'b', &[1, 4, 5]),
        LeadRow(1, b'p', &[1, 2, 5]),
    ],
};

fn change_of(stage: Stage, places: &[u8]) -> Result<Change, Fail> {
    Ok(
        Change::from_places(stage, places)
            .ok()
            .ok_or("the places are those of a change")?,
    )
}

// Plain hunting, and the last change.
fn lead_of(alloc: Global, stage: Stage, row: LeadRow) -> Result<Lead, Fail> {
    let (one, other): (&[u8], &[u8]) = if stage.number() == 5 {
        (&[5], &[1])
    } else {
        (&[], &[1, 6])
    };
    let mut changes = Vec::new(alloc);
    for index in 1..2 * stage.number() {
        let places = if index % 2 == 1 { one } else { other };
        changes.push(change_of(stage, places)?)?;
    }
    changes.push(change_of(stage, row.2)?)?;
    let step = Step {
        method: row.0,
        mark: row.1,
    };
    Ok(Lead { step, changes })
}

fn problem_of(alloc: Global, draft: Draft) -> Result<Problem, Fail> {
    let stage = Stage::new(draft.stage).ok_or("the stage is from 3 to 16")?;
    let mut leads = Vec::new(alloc);
    for row in draft.leads {
        leads.push(lead_of(alloc, stage, *row)?)?;
    }
    let query = Query {
        min: 1,
        max: draft.max,
        parts: 1,
        counts: Vec::new(alloc),
        method_counts: Vec::new(alloc),
        patterns: Vec::new(alloc),
        com: None,
    };
    match Problem::new(stage, draft.letters.to_vec(alloc)?, leads, query) {
        Ok(problem) => Ok(problem),
        Err(_) => Err(Fail::from("the parts are a problem's")),
    }
}

fn callings_of(alloc: Global, rows: &[&[u8]]) -> Result<Vec<Calling>, Fail> {
    let mut callings = Vec::new(alloc);
    for steps in rows {
        match Calling::new(steps.to_vec(alloc)?) {
            Ok(calling) => callings.push(calling)?,
            Err(_) => return Err(Fail::from("there are few steps")),
        }
    }
    Ok(callings)
}

fn all_known(problem: &Problem, callings: &[Calling]) -> bool
    ensures { IsTrue result → All (HasSteps problem.now) callings.now }
{
    callings
        .iter()
        .all(|calling| problem.has_steps(calling.steps()))
}

// The touches of Plain Bob Doubles, and one of 60 changes that is no touch's least rotation, as a search finds them.
const IN_ORDER: [&[u8]; 6] = [
    &[0, 0, 0, 0],
    &[0, 0, 0, 1, 0, 0, 0, 1, 0, 0, 0, 1],
    &[0, 0, 1, 0, 1, 0, 0, 1, 0, 1],
    &[0, 1, 0, 1, 0, 1],
    &[1, 0, 1, 0, 1, 0],
    &[1, 1],
];

const IN_REVERSE: [&[u8]; 6] = [
    &[1, 1],
    &[1, 0, 1, 0, 1, 0],
    &[0, 1, 0, 1, 0, 1],
    &[0, 0, 1, 0, 1, 0, 0, 1, 0, 1],
    &[0, 0, 0, 1, 0, 0, 0, 1, 0, 0, 0, 1],
    &[0, 0, 0, 0],
];

const TWO_RUNS: [&[u8]; 6] = [
    &[0, 0, 0, 1, 0, 0, 0, 1, 0, 0, 0, 1],
    &[1, 0, 1, 0, 1, 0],
    &[1, 1],
    &[0, 0, 0, 0],
    &[0, 0, 1, 0, 1, 0, 0, 1, 0, 1],
    &[0, 1, 0, 1, 0, 1],
];

const MIXED: [&[u8]; 6] = [
    &[0, 0, 0, 1, 0, 0, 0, 1, 0, 0, 0, 1],
    &[0, 0, 0, 0],
    &[1, 0, 1, 0, 1, 0],
    &[1, 1],
    &[0, 0, 1, 0, 1, 0, 0, 1, 0, 1],
    &[0, 1, 0, 1, 0, 1],
];

const SORTED: &str =
    "20 bb\n40 pppp\n60 pbpbpb\n60 bpbpbp\n100 ppbpbppbpb\n120 pppbpppbpppb\ntouches 6\n";

// Three runs that alternate.
const THREE_RUNS: [&[u8]; 9] = [
    &[1],
    &[0, 0, 0],
    &[0, 1, 0],
    &[1, 0, 1, 0],
    &[0, 0, 1],
    &[0, 1, 0, 1],
    &[1, 1],
    &[0, 0, 1, 1],
    &[0, 1, 1],
];

const THREE_SORTED: &str =
    "10 b\n20 bb\n30 ppp\n30 ppb\n30 pbp\n30 pbb\n40 ppbb\n40 pbpb\n40 bpbp\ntouches 9\n";

const ONE_LENGTH: [&[u8]; 4] = [&[1, 0, 1], &[0, 1, 1], &[1, 0, 0], &[0, 0, 1]];

const ONE_STEP: [&[u8]; 1] = [&[1]];

const TWICE: [&[u8]; 3] = [&[1, 1], &[0], &[1, 1]];

// The callings as they were found, and the book of them.
const SORTINGS: &[(&[&[u8]], &str)] = &[
    (&IN_ORDER, SORTED),
    (&IN_REVERSE, SORTED),
    (&TWO_RUNS, SORTED),
    (&MIXED, SORTED),
    (&THREE_RUNS, THREE_SORTED),
    (&ONE_LENGTH, "30 ppb\n30 pbb\n30 bpp\n30 bpb\ntouches 4\n"),
    (&ONE_STEP, "10 b\ntouches 1\n"),
    (&TWICE, "10 p\n20 bb\n20 bb\ntouches 3\n"),
    (&[], "touches 0\n"),
];

const BOOK: &[&[u8]] = &[
    &[1, 1],
    &[0, 0, 0, 0],
    &[0, 1, 0, 1, 0, 1],
    &[0, 0, 1, 0, 1, 0, 0, 1, 0, 1],
    &[0, 0, 0, 1, 0, 0, 0, 1, 0, 0, 0, 1],
];

const PRINTED: &str = "20 bb\n40 pppp\n60 pbpbpb\n100 ppbpbppbpb\n120 pppbpppbpppb\ntouches 5\n";

// The book of callings that were found.
fn sorted_text(alloc: Global, problem: &Problem, rows: &[&[u8]]) -> Result<Vec<u8>, Fail> {
    let found = callings_of(alloc, rows)?;
    if !all_known(problem, &found) {
        return Err(Fail::from("the steps exist"));
    }
    let sorted = sort_found(alloc, problem, found)?;
    if !all_known(problem, &sorted) {
        return Err(Fail::from("the sorted steps exist"));
    }
    Ok(book_text(alloc, problem, &sorted)?)
}

#[test]
fn found_touches_are_sorted(rt: HostRuntime) -> Result<(), Fail> {
    let alloc = rt.alloc();
    let problem = problem_of(alloc, DOUBLES)?;
    for &(rows, want) in SORTINGS {
        let text = sorted_text(alloc, &problem, rows)?;
        if text.as_slice() != want.as_bytes() {
            return Err(Fail::from(want));
        }
    }
    Ok(())
}

// The text that some pieces are, one after another.
fn joined(alloc: Global, pieces: &[Vec<u8>]) -> Result<Vec<u8>, Fail> {
    let mut text = Vec::new(alloc);
    for piece in pieces {
        text.extend_from_slice(piece)?;
    }
    Ok(text)
}

// They are callings of a problem.
fn known_callings(alloc: Global, problem: &Problem, rows: &[&[u8]]) -> Result<Vec<Calling>, Fail>
    ensures { IfOk result (λ callings. All (HasSteps problem.now) callings.items) }
{
    let callings = callings_of(alloc, rows)?;
    if !all_known(problem, &callings) {
        return Err(Fail::from("the steps exist"));
    }
    Ok(callings)
}

#[test]
fn found_touches_are_printed(rt: HostRuntime) -> Result<(), Fail> {
    let alloc = rt.alloc();
    let problem = problem_of(alloc, DOUBLES)?;
    for threads in [0, 1, 3, 8] {
        for &(rows, want) in SORTINGS {
            let found = known_callings(alloc, &problem, rows)?;
            let pieces = book_pieces(&rt, alloc, threads, &problem, found, &[])?.pieces;
            if joined(alloc, &pieces)?.as_slice() != want.as_bytes() {
                return Err(Fail::from(want));
            }
        }
    }
    Ok(())
}

// Eight digits of a number in base 3, and one more where it is odd.
fn digits(alloc: Global, number: usize) -> Result<Vec<u8>, Fail> {
    let mut digits = Vec::new(alloc);
    let mut rest = number;
    for _ in 0..8 {
        digits.push((rest % 3) as u8)?;
        rest /= 3;
    }
    digits.reverse();
    if number % 2 == 1 {
        digits.push(0)?;
    }
    Ok(digits)
}

// The order in which 6,000 touches are found.
#[derive(Clone, Copy)]
enum Order {
    Ascending,
    // Six runs, the last one first.
    SixRuns,
    // Two runs that alternate.
    TwoRuns,
    // 240 hand-ins of 25 touches each, handed in by many workers.
    HandIns,
    // 240 hand-ins that follow one another, the touches of each from the last one on.
    TurnedHandIns,
    Mixed,
}

// Which of them, counted as they ascend, is found at a place.
fn number_at(order: Order, place: usize) -> usize
    requires { place < 6000 }
{
    match order {
        Order::Ascending => place,
        Order::SixRuns => 5_000 - place / 1_000 * 1_000 + place % 1_000,
        Order::TwoRuns => place * 2 % 6_000 + place / 3_000,
        Order::HandIns => place / 25 * 67 % 240 * 25 + place % 25,
        Order::TurnedHandIns => place / 25 * 25 + (24 - place % 25),
        Order::Mixed => place * 7_919 % 6_000,
    }
}

// 6,000 lists of steps in an order.
fn many_steps(alloc: Global, order: Order) -> Result<Vec<Vec<u8>>, Fail> {
    let mut many = Vec::new(alloc);
    for place in 0..6_000 {
        many.push(digits(alloc, number_at(order, place))?)?;
    }
    Ok(many)
}

// They are callings of a problem.
fn many_callings(alloc: Global, problem: &Problem, order: Order) -> Result<Vec<Calling>, Fail>
    ensures { IfOk result (λ callings. All (HasSteps problem.now) callings.items) }
{
    let mut callings = Vec::new(alloc);
    for steps in many_steps(alloc, order)? {
        match Calling::new(steps) {
            Ok(calling) => callings.push(calling)?,
            Err(_) => return Err(Fail::from("there are few steps")),
        }
    }
    if !all_known(problem, &callings) {
        return Err(Fail::from("the steps exist"));
    }
    Ok(callings)
}

// Their book.
fn book_of_many(alloc: Global, problem: &Problem) -> Result<Vec<u8>, Fail> {
    let found = many_callings(alloc, problem, Order::Ascending)?;
    let sorted = sort_found(alloc, problem, found)?;
    if !all_known(problem, &sorted) {
        return Err(Fail::from("the sorted steps exist"));
    }
    Ok(book_text(alloc, problem, &sorted)?)
}

const ORDERS: &[Order] = &[
    Order::Ascending,
    Order::SixRuns,
    Order::TwoRuns,
    Order::HandIns,
    Order::TurnedHandIns,
    Order::Mixed,
];

// What is told of the touches of hand-ins: nothing, what is right, and what is wrong.
const HANDED: &[&[u64]] = &[&[], &[25; 240], &[0, 7, 0, 100_000, 3], &[u64::MAX, 1]];

// The book of touches in an order, printed by so many threads.
fn printed<R: Threads + Sync>(
    rt: &R,
    alloc: Global,
    problem: &Problem,
    order: Order,
    threads: usize,
    handed: &[u64],
) -> Result<Vec<u8>, Fail> {
    let found = many_callings(alloc, problem, order)?;
    let pieces = book_pieces(rt, alloc, threads, problem, found, handed)?.pieces;
    joined(alloc, &pieces)
}

#[test]
fn threads_print_as_one_does(rt: HostRuntime) -> Result<(), Fail> {
    let problem = problem_of(rt.alloc(), MINOR)?;
    let wanted = book_of_many(rt.alloc(), &problem)?;
    for order in ORDERS {
        for threads in [0, 1, 3, 8] {
            let text = printed(&rt, rt.alloc(), &problem, *order, threads, &[])?;
            assert!(rt; text.as_slice() == wanted.as_slice());
        }
    }
    Ok(())
}

#[test]
fn whatever_is_told_of_hand_ins_the_book_is_the_same(rt: HostRuntime) -> Result<(), Fail> {
    let problem = problem_of(rt.alloc(), MINOR)?;
    let wanted = book_of_many(rt.alloc(), &problem)?;
    for handed in HANDED {
        for order in [Order::HandIns, Order::TurnedHandIns, Order::Mixed] {
            let text = printed(&rt, rt.alloc(), &problem, order, 4, handed)?;
            assert!(rt; text.as_slice() == wanted.as_slice());
        }
    }
    Ok(())
}

#[test]
fn a_book_is_printed(rt: HostRuntime) -> Result<(), Fail> {
    let alloc = rt.alloc();
    let problem = problem_of(alloc, DOUBLES)?;
    let book = callings_of(alloc, BOOK)?;
    if !all_known(&problem, &book) {
        return Err(Fail::from("the steps exist"));
    }
    let text = book_text(alloc, &problem, &book)?;
    assert!(rt; text.as_slice() == PRINTED.as_bytes());
    Ok(())
}

const TOUCHES: &[&[u8]] = &[
    &[1, 1, 1],
    &[1, 2, 2],
    &[0, 0, 0, 0, 0],
    &[0, 0, 1, 0, 0, 1],
    &[0, 1, 2, 0, 1, 2],
    &[0, 1, 2, 0, 2, 1],
    &[0, 2, 1, 0, 2, 1],
    &[1, 1, 2, 1, 1, 2],
    &[2, 2, 2, 2, 2, 2],
];

// The touches, and their summary.
const SUMMARIES: [(&[&[u8]], &str); 2] = [
    (
        TOUCHES,
        "plain bob minor 1 to 72\ntouches 9\nlongest 72\n36 2\n60 1\n72 6\n",
    ),
    (&[], "plain bob minor 1 to 72\ntouches 0\nlongest 0\n"),
];

#[test]
fn summaries(rt: HostRuntime) -> Result<(), Fail> {
    let alloc = rt.alloc();
    let problem = problem_of(alloc, MINOR)?;
    for (rows, want) in SUMMARIES {
        let book = callings_of(alloc, rows)?;
        if !all_known(&problem, &book) {
            return Err(Fail::from("the steps exist"));
        }
        let text = summary_text(alloc, &problem, &book)?;
        if text.as_slice() != want.as_bytes() {
            return Err(Fail::from(want));
        }
    }
    Ok(())
}

// Which case it is, the text, and its steps, or the place of the first byte that cannot be.
type Reading = (&'static str, &'static [u8], Result<&'static [u8], u64>);

const OF_ONE: &[Reading] = &[
    ("the plain course", b"pppp", Ok(&[0, 0, 0, 0])),
    ("plain and bob", b"ppb", Ok(&[0, 0, 1])),
    ("the empty text", b"", Err(0)),
    ("an unknown mark", b"pbs", Err(2)),
    ("a letter that is not printed", b"Ap", Err(0)),
];

const OF_SEVERAL: &[Reading] = &[
    ("spliced", b"KpXpXbKp", Ok(&[2, 0, 1, 2])),
    ("a letter without mark", b"XpK", Err(3)),
    ("a mark without letter", b"Xpp", Err(2)),
    ("an unknown mark", b"XpXs", Err(3)),
    ("a method's letter twice", b"XXp", Err(1)),
    ("a mark that this method has not", b"XbKb", Err(3)),
    ("an unknown letter", b"KpAp", Err(2)),
    ("the empty text", b"", Err(0)),
];

fn read_back(alloc: Global, problem: &Problem, reading: Reading) -> Result<(), Fail> {
    let (name, text, want) = reading;
    let as_wanted = match (read_calling(alloc, problem, text), want) {
        (Ok(calling), Ok(steps)) => calling.steps() == steps,
        (Err(CallingFault::At(place)), Err(wrong)) => place == wrong,
        _ => false,
    };
    if as_wanted {
        Ok(())
    } else {
        Err(Fail::from(name))
    }
}

#[test]
fn callings_are_read_back(rt: HostRuntime) -> Result<(), Fail> {
    let alloc = rt.alloc();
    let doubles = problem_of(alloc, DOUBLES)?;
    for reading in OF_ONE {
        read_back(alloc, &doubles, *reading)?;
    }
    let spliced = problem_of(alloc, SPLICED)?;
    for reading in OF_SEVERAL {
        read_back(alloc, &spliced, *reading)?;
    }
    Ok(())
}

const PLAIN: [u8; 1025] = [b'p'; 1025];

#[test]
fn callings_have_1024_steps_at_most(rt: HostRuntime) -> Result<(), Fail> {
    let alloc = rt.alloc();
    let problem = problem_of(alloc, DOUBLES)?;
    let whole = read_calling(alloc, &problem, &PLAIN[..1024]);
    assert!(rt; whole.is_ok());
    let wrong = read_calling(alloc, &problem, &PLAIN).err();
    assert!(rt; wrong == Some(CallingFault::At(1024)));
    Ok(())
}

// Which steps are rung, and the calling's text.
const CALLINGS: &[(&[u8], &str)] = &[
    (&[], ""),
    (&[0], "Xp"),
    (&[2, 0, 1, 2], "KpXpXbKp"),
    (&[2, 2], "KpKp"),
];

#[test]
fn texts_of_several_steps(rt: HostRuntime) -> Result<(), Fail> {
    let problem = problem_of(rt.alloc(), SPLICED)?;
    for &(steps, want) in CALLINGS {
        if !problem.has_steps(steps) {
            return Err(Fail::from(want));
        }
        let text = calling_text(rt.alloc(), &problem, steps)?;
        if text.as_slice() != want.as_bytes() {
            return Err(Fail::from(want));
        }
    }
    Ok(())
}
