//! What no clause says: what a worker does at a desk over a board of Plain Bob Doubles.

use crate::fault_tests::has_all;
use crate::stop_tests::{DOUBLES, MINIMUS, checkpoint};
use cr_board::{Board, Entry, Opening};
use cr_explore::RowSearch;
use cr_hunter::run_all;
use cr_read::read_problem;
use cr_store::read_checkpoint;
use std::alloc::Global;
use std::sync::Wait;
use std::test::*;
use std::thread::Threads;

// Plain Bob Doubles after one turn, for one worker: job 0 is the node `b`, and job 1 the node `p`.
fn both_jobs(alloc: Global) -> Result<Opening, Fail> {
    let input = checkpoint(alloc, "2", "found 0\njobs 2\njob 1\n0 b\njob 1\n0 p\nend\n")?;
    match read_checkpoint(alloc, input.as_bytes()) {
        Ok(left) => Ok(Opening::new(left.problem, left.found, left.jobs, None, 1)),
        Err(_) => Err(Fail::from("it is a checkpoint")),
    }
}

// The search of a problem's file.
fn search_of(alloc: Global, file: &str) -> Result<RowSearch, Fail> {
    match read_problem(alloc, file.as_bytes()) {
        Ok(problem) => Ok(RowSearch::new(alloc, &problem)?),
        Err(_) => Err(Fail::from("it is a problem file")),
    }
}

// The board of both jobs after its worker has worked with the search of a problem's file.
fn worked_by<R: AllocGlobal + Threads + Wait + Sync>(rt: &R, file: &str) -> Result<Board, Fail> {
    let search = search_of(rt.alloc(), file)?;
    let board = Board::open(rt.alloc(), both_jobs(rt.alloc())?)?;
    let (board, _) = run_all(rt, rt.alloc(), board, &search)?;
    Ok(board)
}

// The root has size 32. The node `b` has the one child `bb`, which is a touch, and no more below it; so below `p` there
// are 29 turns with the other four touches.
const JOURNAL: &[Entry] = &[
    Entry::Take {
        worker: 0,
        lane: 0,
        job: 1,
        grant: 4096,
    },
    Entry::Hand {
        worker: 0,
        job: 1,
        used: 29,
        touches: 4,
        opened: 0,
    },
    Entry::Take {
        worker: 0,
        lane: 0,
        job: 0,
        grant: 4096,
    },
    Entry::Hand {
        worker: 0,
        job: 0,
        used: 2,
        touches: 1,
        opened: 0,
    },
];

#[test]
fn a_worker_goes_on_to_the_last_job(rt: HostRuntime) -> Result<(), Fail> {
    let board = worked_by(&rt, DOUBLES)?;
    assert!(rt; board.journal() == JOURNAL);
    assert!(rt; board.is_done() && has_all(&board));
    Ok(())
}

#[test]
fn no_job_is_taken_for_another_problem(rt: HostRuntime) -> Result<(), Fail> {
    let board = worked_by(&rt, MINIMUS)?;
    assert!(rt; board.journal().is_empty() && board.found().is_empty() && !board.is_done());
    Ok(())
}
