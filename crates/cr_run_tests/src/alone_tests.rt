//! Boards of the plain hunt that one worker runs.

ghost use Rattle.std.specs.Prelude.{◌≡◌, ◌≤◌, [], false, get_or, flat_map, IfOk};
ghost use Rattle.cr_board.specs.Boards.{held_jobs};
ghost use Rattle.cr_board.specs.Examples.{hunts};

use cr_board::laws::events_only_append;
use cr_board::{Board, Opening, Taken};
use cr_hunter::{both_begun, make_hunter, plain_hunts, second_begun};
use cr_node::Node;
use cr_row::NoMemory;
use cr_run::laws::boards_at_rest;
use cr_run::run_alone;
use std::alloc::Global;
use std::test::*;

/// What a search of the plain hunt begins with: its root, both steps as two jobs, or the second step alone.
#[derive(Clone, Copy)]
pub enum Begun {
    Root,
    Both,
    Second,
}

use Begun::*;

/// The opening of a search of the plain hunt, for some workers.
pub fn opening(
    alloc: Global,
    begun: Begun,
    budget: Option<u64>,
    workers: u32,
) -> Result<Opening, Fail>
    requires some { 1 ≤ workers }
    requires few { workers ≤ 64 }
    ensures { IfOk result (λ o. o.problem ≡ hunts) }
{
    match begun {
        Root => Ok(Opening::fresh(alloc, plain_hunts(alloc)?, budget, workers)?),
        Both => both_begun(alloc, budget, workers),
        Second => second_begun(alloc, budget, workers),
    }
}

// Runs a board of the plain hunt on which nobody holds a job.
fn run(alloc: Global, board: Board) -> Result<Board, Fail>
    requires idle { flat_map held_jobs board.held ≡ [] }
    requires stays { get_or board.resigned 0 false ≡ false }
    requires problem { board.opening.problem ≡ hunts }
{
    let hunter = make_hunter(alloc)?;
    Ok(run_alone(alloc, board, &hunter)?)
}

// What was found, and the nodes of the jobs that are left: `p` is step 0 and `b` step 1; a stroke ends a list of steps,
// a bar what was found, and a semicolon each job.
fn text_of(alloc: Global, board: &Board) -> Result<Vec<u8>, NoMemory> {
    let mut text = Vec::new(alloc);
    for calling in board.found() {
        push_steps(&mut text, calling.steps())?;
    }
    text.push(b'|')?;
    for worker in 0..board.opening().workers() {
        for job in board.lane(worker) {
            push_nodes(&mut text, &job.nodes)?;
        }
    }
    Ok(text)
}

fn push_nodes(text: &mut Vec<u8>, nodes: &[Node]) -> Result<(), NoMemory> {
    for node in nodes {
        push_steps(text, node.steps())?;
    }
    text.push(b';')?;
    Ok(())
}

fn push_steps(text: &mut Vec<u8>, steps: &[u8]) -> Result<(), NoMemory> {
    for step in steps {
        text.push(if *step == 0 { b'p' } else { b'b' })?;
    }
    text.push(b'/')?;
    Ok(())
}

// What a search begins with, its budget, and after its run the turns spent, the entries of the journal, what was found
// and what is left. Each row of one turn begins with what the one before it left, so three stops are a whole search.
type Case = (Begun, Option<u64>, u128, usize, &'static [u8]);

const CASES: &[Case] = &[
    (Root, Some(1), 1, 2, b"|b/;p/;"),
    (Both, Some(1), 1, 2, b"p/|b/;"),
    (Second, Some(1), 1, 2, b"b/|"),
    (Root, None, 3, 2, b"p/b/|"),
    (Root, Some(0), 0, 0, b"|/;"),
    (Root, Some(2), 2, 2, b"p/|b/;"),
    (Root, Some(3), 3, 2, b"p/b/|"),
    (Root, Some(5_000), 3, 2, b"p/b/|"),
    (Both, None, 2, 4, b"p/b/|"),
    (Both, Some(0), 0, 0, b"|b/;p/;"),
    (Both, Some(2), 2, 4, b"p/b/|"),
    (Second, Some(u64::MAX), 1, 2, b"b/|"),
];

#[test]
fn boards_run_alone(rt: HostRuntime) -> Result<(), Fail> {
    boards_at_rest();
    for &(begun, budget, spent, entries, text) in CASES {
        for workers in [1, 3, 64] {
            let board = Board::open(rt.alloc(), opening(rt.alloc(), begun, budget, workers)?)?;
            let board = run(rt.alloc(), board)?;
            assert_eq!(rt; text_of(rt.alloc(), &board)?.as_slice(), text);
            assert_eq!(rt; (board.spent(), board.journal().len()), (spent, entries));
        }
    }
    Ok(())
}

// Worker 0 also takes the jobs of other workers' lanes, where a recall put one.
#[test]
fn a_board_runs_after_a_recall(rt: HostRuntime) -> Result<(), Fail> {
    boards_at_rest();
    events_only_append();
    let mut board = Board::open(rt.alloc(), opening(rt.alloc(), Root, None, 3)?)?;
    let Taken::Job(_) = board.next_job(rt.alloc(), 2)? else {
        return Err(Fail::from("there is a job"));
    };
    board.recall_all();
    let board = run(rt.alloc(), board)?;
    assert_eq!(rt;
        text_of(rt.alloc(), &board)?.as_slice(),
        b"p/b/|".as_slice()
    );
    assert_eq!(rt; (board.spent(), board.journal().len()), (3, 4));
    Ok(())
}
