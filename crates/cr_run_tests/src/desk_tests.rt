//! Workers at a desk.

ghost use Rattle.std.specs.Prelude.{⊤};

use crate::journals::SECOND_FIRST;
use cr_board::Board;
use cr_hunter::{board_of_both, hunts_within, make_hunter, plain_hunts, run_all};
use cr_model::Problem;
use cr_node::{Done, Explorer, Node};
use cr_row::NoMemory;
use std::alloc::Global;
use std::test::*;

/// Says of each job that no memory is left.
#[derive(Drop)]
pub struct Tired {
    pub problem: Problem,
}

impl Explorer for Tired {
    ghost explores = { λ t. t.problem };

    ghost gives = { λ t job turns done. ⊤ };

    fn problem(&self) -> &Problem {
        &self.problem
    }

    fn explore(&self, _alloc: Global, _job: &[Node], _turns: u64) -> Result<Done, NoMemory> {
        Err(NoMemory)
    }
}

// How many jobs stand in the lanes.
fn open_jobs(board: &Board) -> usize {
    let mut jobs = 0usize;
    for worker in 0..board.opening().workers() {
        jobs = jobs.saturating_add(board.lane(worker).len());
    }
    jobs
}

// Whether both touches were found and no job is left.
fn all_found(board: &Board) -> bool {
    let [first, second] = board.found() else {
        return false;
    };
    board.is_done()
        && board.spent() == 2
        && first.steps().len() == 1
        && second.steps().len() == 1
        && first.steps() != second.steps()
}

// One worker goes on to the last job.
#[test]
fn a_worker_alone(rt: HostRuntime) -> Result<(), Fail> {
    let board = board_of_both(rt.alloc(), None, 1)?;
    let (board, entries) = run_all(&rt, rt.alloc(), board, &make_hunter(rt.alloc())?)?;
    assert!(rt; board.journal() == SECOND_FIRST && all_found(&board));
    assert_eq!(rt; entries, 4);
    Ok(())
}

// Several workers find the same, whoever takes which job.
#[test]
fn workers_together(rt: HostRuntime) -> Result<(), Fail> {
    let hunter = make_hunter(rt.alloc())?;
    for workers in [1, 2, 3, 16, 64] {
        let board = board_of_both(rt.alloc(), None, workers)?;
        let (board, entries) = run_all(&rt, rt.alloc(), board, &hunter)?;
        assert!(rt; all_found(&board));
        assert_eq!(rt; (entries, board.journal().len()), (4, 4));
    }
    Ok(())
}

// Without memory each worker takes one job, gives it back and leaves; those that waited for it take it then.
#[test]
fn workers_without_memory(rt: HostRuntime) -> Result<(), Fail> {
    let tired = Tired {
        problem: plain_hunts(rt.alloc())?,
    };
    for workers in [1, 2, 3, 16] {
        let board = board_of_both(rt.alloc(), None, workers)?;
        let (board, entries) = run_all(&rt, rt.alloc(), board, &tired)?;
        assert_eq!(rt; (entries, open_jobs(&board)), (u64::from(workers) * 2, 2));
        assert_eq!(rt; (board.found().len(), board.spent()), (0, 0));
    }
    Ok(())
}

// No job is taken for an explorer of another problem.
#[test]
fn workers_of_another_problem(rt: HostRuntime) -> Result<(), Fail> {
    let tired = Tired {
        problem: hunts_within(rt.alloc(), 5)?,
    };
    let board = board_of_both(rt.alloc(), None, 3)?;
    let (board, entries) = run_all(&rt, rt.alloc(), board, &tired)?;
    assert_eq!(rt;
        (entries, board.journal().len(), open_jobs(&board)),
        (0, 0, 2)
    );
    Ok(())
}
