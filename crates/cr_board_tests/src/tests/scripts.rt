//! Calls on a board, one after another, with each answer and the lanes after it.

ghost use Rattle.std.specs.Prelude.{◌≡◌};
ghost use Rattle.cr_board.specs.Examples.{hunts};

use super::boards::{board_of_one, not_begun};
use super::node_lists::same_nodes;
use cr_board::{Board, Claimed, Entry, Event, Handed, Opening, Taken};
use cr_hunter::{Hunter, board_of_both, both_nodes, make_hunter, plain_hunts};
use cr_node::{Done, Explorer, Node};
use cr_samples::{DOUBLES, problem_of};
use std::alloc::Global;
use std::mem;
use std::test::*;

#[derive(Clone, Copy)]
enum Call {
    Next(u32),
    Claim(u32, u64),
    Resign(u32),
    Recall,
    // Hands in the finished work of one turn on a step of the plain hunt.
    Hunted(u32, u64, u8),
    // Hands in the finished work of two turns on both steps.
    BothHunted(u32, u64),
    // Hands in what a worker holds as it is, under a number.
    NotBegun(u32, u64),
}

use Call::*;

#[derive(Clone, Copy, PartialEq)]
enum Seen {
    Nothing,
    Stranger,
    Spent,
    Mine(u64),
    // The number and the grant of a job.
    Job(u64, u64),
    Wait(u32),
    Empty,
    Stale,
    NotHeld(Option<u64>),
    OtherProblem,
    OtherJob(u64),
    Over(u64),
    In,
}

fn seen_taken(taken: &Taken) -> Seen {
    match taken {
        Taken::Stranger => Seen::Stranger,
        Taken::Holding(number) => Seen::Mine(*number),
        Taken::Spent => Seen::Spent,
        Taken::Job(ticket) => Seen::Job(ticket.number, ticket.grant),
        Taken::Wait(worker) => Seen::Wait(*worker),
        Taken::Empty => Seen::Empty,
    }
}

fn seen_claimed(claimed: &Claimed) -> Seen {
    match claimed {
        Claimed::Stranger => Seen::Stranger,
        Claimed::Holding(number) => Seen::Mine(*number),
        Claimed::Spent => Seen::Spent,
        Claimed::Stale => Seen::Stale,
        Claimed::Job(ticket) => Seen::Job(ticket.number, ticket.grant),
    }
}

fn seen_handed(handed: &Handed) -> Seen {
    match handed {
        Handed::NotHeld(_, other) => Seen::NotHeld(*other),
        Handed::OtherProblem(_) => Seen::OtherProblem,
        Handed::OtherJob(_, number) => Seen::OtherJob(*number),
        Handed::Over(_, grant) => Seen::Over(*grant),
        Handed::In => Seen::In,
        Handed::NoMemory(_) => Seen::Nothing,
    }
}

// Makes one call.
fn make(board: &mut Board, alloc: Global, hunter: &Hunter, call: Call) -> Result<Seen, Fail> {
    match call {
        Next(worker) => Ok(seen_taken(&board.next_job(alloc, worker)?)),
        Claim(worker, number) => Ok(seen_claimed(&board.claim(alloc, worker, number)?)),
        Resign(worker) => resign(board, worker),
        Recall => {
            board.recall_all();
            Ok(Seen::Nothing)
        }
        Hunted(worker, number, step) => {
            let done = one_turn(alloc, hunter, step)?;
            Ok(seen_handed(&board.hand_in(worker, number, done)))
        }
        BothHunted(worker, number) => {
            let done = hunter.both_turns(alloc)?;
            Ok(seen_handed(&board.hand_in(worker, number, done)))
        }
        NotBegun(worker, number) => {
            let done = as_it_is(board, alloc, worker)?;
            Ok(seen_handed(&board.hand_in(worker, number, done)))
        }
    }
}

fn resign(board: &mut Board, worker: u32) -> Result<Seen, Fail> {
    if worker >= board.opening().workers() {
        return Err(Fail::from("there is no such worker"));
    }
    board.resign(worker);
    Ok(Seen::Nothing)
}

fn one_turn(alloc: Global, hunter: &Hunter, step: u8) -> Result<Done, Fail> {
    if step > 1 {
        return Err(Fail::from("there is no such step"));
    }
    Ok(hunter.one_turn(alloc, step)?)
}

// What a worker holds, of which nothing was explored.
fn as_it_is(board: &Board, alloc: Global, worker: u32) -> Result<Done, Fail> {
    if worker >= board.opening().workers() {
        return Err(Fail::from("there is no such worker"));
    }
    let Some(job) = board.held(worker) else {
        return Err(Fail::from("the worker holds nothing"));
    };
    not_begun(alloc, board.opening().problem(), &job.nodes)
}

// Whether the lanes have jobs of these numbers.
fn lanes_are(board: &Board, lanes: &[&[u64]; 3]) -> bool {
    for worker in 0..board.opening().workers() {
        let Some(numbers) = lanes.get(worker as usize) else {
            return false;
        };
        let lane = board.lane(worker);
        if lane.len() != numbers.len() {
            return false;
        }
        for place in 0..lane.len() {
            let job = &lane[place];
            if job.number != numbers[place] {
                return false;
            }
        }
    }
    true
}

// A call, its answer, and the numbers in the lanes after it.
type Row = (Call, Seen, [&'static [u64]; 3]);

fn follow(board: &mut Board, alloc: Global, rows: &[Row]) -> Result<(), Fail> {
    let hunter = make_hunter(alloc)?;
    for (call, seen, lanes) in rows {
        let answer = make(board, alloc, &hunter, *call)?;
        if answer != *seen || !lanes_are(board, lanes) {
            return Err(Fail::from("an answer or the lanes differ"));
        }
    }
    Ok(())
}

const SCRIPT: &[Row] = &[
    (Next(0), Seen::Job(1, 4096), [&[0], &[], &[]]),
    (Next(0), Seen::Mine(1), [&[0], &[], &[]]),
    (Next(1), Seen::Job(0, 4096), [&[], &[], &[]]),
    (Next(2), Seen::Wait(0), [&[], &[], &[]]),
    (Next(3), Seen::Stranger, [&[], &[], &[]]),
    (Claim(2, 0), Seen::Stale, [&[], &[], &[]]),
    (Resign(1), Seen::Nothing, [&[], &[0], &[]]),
    (Next(1), Seen::Stranger, [&[], &[0], &[]]),
    (Claim(2, 0), Seen::Job(0, 4096), [&[], &[], &[]]),
    (Hunted(0, 0, 0), Seen::NotHeld(Some(1)), [&[], &[], &[]]),
    (Hunted(0, 1, 1), Seen::OtherJob(1), [&[], &[], &[]]),
    (Hunted(0, 1, 0), Seen::In, [&[], &[], &[]]),
    (Hunted(2, 0, 1), Seen::In, [&[], &[], &[]]),
    (Next(0), Seen::Empty, [&[], &[], &[]]),
];

const JOURNAL: &[Entry] = &[
    Entry::Take {
        worker: 0,
        lane: 0,
        job: 1,
        grant: 4096,
    },
    Entry::Take {
        worker: 1,
        lane: 0,
        job: 0,
        grant: 4096,
    },
    Entry::Back { worker: 1, job: 0 },
    Entry::Take {
        worker: 2,
        lane: 1,
        job: 0,
        grant: 4096,
    },
    Entry::Hand {
        worker: 0,
        job: 1,
        used: 1,
        touches: 1,
        opened: 0,
    },
    Entry::Hand {
        worker: 2,
        job: 0,
        used: 1,
        touches: 1,
        opened: 0,
    },
];

// Whether the journal is that of the script, and both touches were found, the first step's first, in two turns.
fn both_found(board: &Board) -> bool {
    let [first, second] = board.found() else {
        return false;
    };
    board.journal() == JOURNAL
        && board.is_done()
        && board.spent() == 2
        && first.steps() == [0].as_slice()
        && second.steps() == [1].as_slice()
}

#[test]
fn a_script_step_by_step(rt: HostRuntime) -> Result<(), Fail> {
    let mut board = board_of_both(rt.alloc(), None, 3)?;
    follow(&mut board, rt.alloc(), SCRIPT)?;
    assert!(rt; both_found(&board));
    Ok(())
}

const EVENTS: &[Event] = &[
    Event::Next(0),
    Event::Next(0),
    Event::Next(1),
    Event::Next(2),
    Event::Next(3),
    Event::Claim(2, 0),
    Event::Resign(1),
    Event::Resign(3),
    Event::Next(1),
    Event::Claim(2, 0),
    Event::Work(0),
    Event::Work(1),
    Event::Work(2),
    Event::Next(0),
];

fn play(board: &mut Board, alloc: Global) -> Result<(), Fail>
    requires { board.old.opening.problem ≡ hunts }
{
    let hunter = make_hunter(alloc)?;
    board.play(alloc, EVENTS, &hunter)?;
    Ok(())
}

#[test]
fn the_script_as_events(rt: HostRuntime) -> Result<(), Fail> {
    let mut board = board_of_both(rt.alloc(), None, 3)?;
    play(&mut board, rt.alloc())?;
    assert!(rt; both_found(&board));
    Ok(())
}

// Nodes of the plain bob on five bells: each text has a stroke after each node, a plain lead is p and a bob b.
fn nodes(alloc: Global, text: &[u8]) -> Result<Vec<Node>, Fail> {
    let mut nodes = Vec::new(alloc);
    let mut steps = Vec::new(alloc);
    for mark in text {
        match mark {
            b'/' => nodes.push(node(mem::replace(&mut steps, Vec::new(alloc)))?)?,
            b'p' => steps.push(0)?,
            _ => steps.push(1)?,
        }
    }
    Ok(nodes)
}

fn node(steps: Vec<u8>) -> Result<Node, Fail> {
    match Node::new(steps) {
        Ok(node) => Ok(node),
        Err(_) => Err(Fail::from("the node is short")),
    }
}

// A board with one job of nodes of Plain Bob Doubles, without a budget.
fn board_of(alloc: Global, text: &[u8], budget: Option<u64>) -> Result<Board, Fail> {
    board_of_one(
        alloc,
        &problem_of(alloc, &DOUBLES)?,
        &nodes(alloc, text)?,
        budget,
    )
}

// Calls on a board with one job of these nodes, with this budget.
type Case = (&'static [u8], Option<u64>, &'static [Row]);

const CASES: &[Case] = &[
    // A rest of one node is one job, and of two two.
    (
        b"p/",
        None,
        &[
            (Next(0), Seen::Job(0, 4096), [&[], &[], &[]]),
            (NotBegun(0, 0), Seen::In, [&[1], &[], &[]]),
        ],
    ),
    (
        b"p/b/",
        None,
        &[
            (Next(1), Seen::Job(0, 4096), [&[], &[], &[]]),
            (NotBegun(1, 0), Seen::In, [&[], &[1, 2], &[]]),
            (Next(1), Seen::Job(2, 4096), [&[], &[1], &[]]),
        ],
    ),
    // Of three the first has one; of five it has two, and two of the others' three are the second of those.
    (
        b"p/bp/bb/",
        None,
        &[
            (Next(0), Seen::Job(0, 4096), [&[], &[], &[]]),
            (NotBegun(0, 0), Seen::In, [&[1, 2], &[], &[]]),
            (Next(0), Seen::Job(2, 4096), [&[1], &[], &[]]),
            (NotBegun(0, 2), Seen::In, [&[1, 3, 4], &[], &[]]),
        ],
    ),
    (
        b"ppp/ppb/pb/bp/bb/",
        None,
        &[
            (Next(0), Seen::Job(0, 4096), [&[], &[], &[]]),
            (NotBegun(0, 0), Seen::In, [&[1, 2], &[], &[]]),
            (Next(0), Seen::Job(2, 4096), [&[1], &[], &[]]),
            (NotBegun(0, 2), Seen::In, [&[1, 3, 4], &[], &[]]),
            // A claim from the middle of a lane, and a steal from the next lane round the end.
            (Claim(2, 3), Seen::Job(3, 4096), [&[1, 4], &[], &[]]),
            (Next(1), Seen::Job(1, 4096), [&[4], &[], &[]]),
            (Next(0), Seen::Job(4, 4096), [&[], &[], &[]]),
            // Three held jobs are recalled, each to its worker's lane.
            (Recall, Seen::Nothing, [&[4], &[1], &[3]]),
        ],
    ),
    // Of a lane above and a lane below the one above comes first, and of two lanes above the nearer.
    (
        b"p/bp/bb/",
        None,
        &[
            (Next(2), Seen::Job(0, 4096), [&[], &[], &[]]),
            (NotBegun(2, 0), Seen::In, [&[], &[], &[1, 2]]),
            (Next(0), Seen::Job(1, 4096), [&[], &[], &[2]]),
            (Resign(0), Seen::Nothing, [&[1], &[], &[2]]),
            (Next(1), Seen::Job(2, 4096), [&[1], &[], &[]]),
            (Resign(0), Seen::Nothing, [&[1], &[], &[]]),
            (Next(0), Seen::Stranger, [&[1], &[], &[]]),
            (Recall, Seen::Nothing, [&[1], &[2], &[]]),
            (Next(0), Seen::Job(1, 4096), [&[], &[2], &[]]),
        ],
    ),
    // With nothing to spend all workers but strangers are told so, who holds a job is told that first, and who is no
    // worker before both.
    (
        b"p/",
        Some(0),
        &[
            (Next(0), Seen::Spent, [&[0], &[], &[]]),
            (Claim(0, 7), Seen::Spent, [&[0], &[], &[]]),
            (Next(3), Seen::Stranger, [&[0], &[], &[]]),
            (Claim(3, 7), Seen::Stranger, [&[0], &[], &[]]),
            (Resign(1), Seen::Nothing, [&[0], &[], &[]]),
            (Next(1), Seen::Stranger, [&[0], &[], &[]]),
        ],
    ),
    // What is granted counts as spent until it comes back.
    (
        b"p/b/",
        Some(5000),
        &[
            (Next(0), Seen::Job(0, 4096), [&[], &[], &[]]),
            (NotBegun(0, 0), Seen::In, [&[1, 2], &[], &[]]),
            (Next(0), Seen::Job(2, 4096), [&[1], &[], &[]]),
            (Next(1), Seen::Job(1, 904), [&[], &[], &[]]),
            (Next(1), Seen::Mine(1), [&[], &[], &[]]),
            (Claim(1, 2), Seen::Mine(1), [&[], &[], &[]]),
            (Next(2), Seen::Spent, [&[], &[], &[]]),
            (Resign(0), Seen::Nothing, [&[2], &[], &[]]),
            (Next(2), Seen::Job(2, 4096), [&[], &[], &[]]),
        ],
    ),
    // The least worker that holds a job is waited for; a stale number is a stale number.
    (
        b"p/b/",
        None,
        &[
            (Next(1), Seen::Job(0, 4096), [&[], &[], &[]]),
            (NotBegun(1, 0), Seen::In, [&[], &[1, 2], &[]]),
            (Next(1), Seen::Job(2, 4096), [&[], &[1], &[]]),
            (Next(2), Seen::Job(1, 4096), [&[], &[], &[]]),
            (Next(0), Seen::Wait(1), [&[], &[], &[]]),
            (Claim(0, 1), Seen::Stale, [&[], &[], &[]]),
            (Claim(0, 0), Seen::Stale, [&[], &[], &[]]),
        ],
    ),
    // Work of another problem is refused, if its number is right.
    (
        b"p/",
        None,
        &[
            (Hunted(0, 0, 0), Seen::NotHeld(None), [&[0], &[], &[]]),
            (Next(0), Seen::Job(0, 4096), [&[], &[], &[]]),
            (Hunted(0, 1, 0), Seen::NotHeld(Some(0)), [&[], &[], &[]]),
            (Hunted(0, 0, 0), Seen::OtherProblem, [&[], &[], &[]]),
            (Hunted(3, 0, 0), Seen::NotHeld(None), [&[], &[], &[]]),
        ],
    ),
];

// A board with one job of these nodes, after these calls.
fn after(alloc: Global, text: &[u8], budget: Option<u64>, rows: &[Row]) -> Result<Board, Fail> {
    let mut board = board_of(alloc, text, budget)?;
    follow(&mut board, alloc, rows)?;
    Ok(board)
}

#[test]
fn scripts_of_one_job(rt: HostRuntime) -> Result<(), Fail> {
    for (text, budget, rows) in CASES {
        after(rt.alloc(), text, *budget, rows)?;
    }
    Ok(())
}

// Of a budget of one turn.
const OVER: [Row; 2] = [
    (Next(0), Seen::Job(0, 1), [&[], &[], &[]]),
    (BothHunted(0, 0), Seen::Over(1), [&[], &[], &[]]),
];

// A board of both steps as one job, with a budget of one turn.
fn board_of_one_turn(alloc: Global) -> Result<Board, Fail> {
    let problem = plain_hunts(alloc)?;
    let nodes = both_nodes(alloc)?;
    board_of_one(alloc, &problem, &nodes, Some(1))
}

// A budget of one turn is granted whole, and work of two turns is more.
#[test]
fn work_over_its_grant(rt: HostRuntime) -> Result<(), Fail> {
    let mut board = board_of_one_turn(rt.alloc())?;
    follow(&mut board, rt.alloc(), &OVER)?;
    assert!(rt; board.journal().len() == 1);
    Ok(())
}

// Whether the first worker's lane has two jobs, of these nodes.
fn are_halves(board: &Board, front: &[Node], back: &[Node]) -> bool {
    if board.opening().workers() != 3 {
        return false;
    }
    let [first, second] = board.lane(0) else {
        return false;
    };
    same_nodes(&first.nodes, front) && same_nodes(&second.nodes, back)
}

fn has_halves(board: &Board, alloc: Global) -> Result<bool, Fail> {
    let front = nodes(alloc, b"ppp/ppb/")?;
    let back = nodes(alloc, b"pb/bp/bb/")?;
    Ok(are_halves(board, &front, &back))
}

// The first two calls of the case of five nodes.
const HALVED: [Row; 2] = [
    (Next(0), Seen::Job(0, 4096), [&[], &[], &[]]),
    (NotBegun(0, 0), Seen::In, [&[1, 2], &[], &[]]),
];

// The halves of five nodes are the first two and the last three, in their order.
#[test]
fn halves_of_a_rest(rt: HostRuntime) -> Result<(), Fail> {
    let board = after(rt.alloc(), b"ppp/ppb/pb/bp/bb/", None, &HALVED)?;
    assert!(rt; has_halves(&board, rt.alloc())?);
    Ok(())
}

// The root of Plain Bob Doubles, for two workers.
fn opening_of(alloc: Global, budget: u64) -> Result<Opening, Fail> {
    Ok(Opening::fresh(alloc, problem_of(alloc, &DOUBLES)?, Some(budget), 2)?)
}

fn copied(alloc: Global) -> Result<Opening, Fail> {
    Ok(opening_of(alloc, 7)?.copy(alloc)?)
}

fn opened_of(alloc: Global) -> Result<Board, Fail> {
    Ok(Board::open(alloc, opening_of(alloc, 7)?)?)
}

// Whether an opening has a budget of seven turns, two workers and one job.
fn is_right(opening: &Opening) -> bool {
    opening.budget() == Some(7)
        && opening.workers() == 2
        && opening.found().is_empty()
        && opening.jobs().len() == 1
}

// Whether the second worker is given the root for seven turns.
fn gives_the_root(board: &mut Board, alloc: Global) -> Result<bool, Fail> {
    match board.next_job(alloc, 1)? {
        Taken::Job(ticket) => Ok(
            ticket.number == 0 && ticket.grant == 7 && ticket.nodes.len() == 1,
        ),
        _ => Err(Fail::from("there is a job")),
    }
}

#[test]
fn an_opening_and_its_copy(rt: HostRuntime) -> Result<(), Fail> {
    let copy = copied(rt.alloc())?;
    assert!(rt; is_right(&copy));
    Ok(())
}

// Whether the board was opened from a copy of this.
fn is_of(board: &Board, alloc: Global, budget: u64) -> Result<bool, Fail> {
    let opening = opening_of(alloc, budget)?;
    let copy = opening.copy(alloc)?;
    Ok(board.same_opening(&copy))
}

#[test]
fn openings(rt: HostRuntime) -> Result<(), Fail> {
    let mut board = opened_of(rt.alloc())?;
    assert!(rt; is_of(&board, rt.alloc(), 7)? && !is_of(&board, rt.alloc(), 8)?);
    assert!(rt; !board.is_done());
    assert!(rt; gives_the_root(&mut board, rt.alloc())?);
    assert!(rt; !board.is_done());
    Ok(())
}
