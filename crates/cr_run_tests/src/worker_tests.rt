//! Several workers on the plain hunt.

ghost use Rattle.std.specs.Prelude.{◌≡◌, ⊤};

use crate::alone_tests::Begun::*;
use crate::alone_tests::{Begun, opening};
use cr_board::Board;
use cr_hunter::{Hunter, make_hunter};
use cr_model::Problem;
use cr_node::{Done, Explorer, Node};
use cr_row::NoMemory;
use cr_run::{run_workers, run_workers_with_room};
use std::alloc::Global;
use std::sync::atomic::AtomicU64;
use std::sync::atomic::Ordering::SeqCst;
use std::test::*;

/// Explores the plain hunt, but says of its first calls that no memory is left.
#[derive(Drop)]
pub struct Refusing {
    hunter: Hunter,
    calls: AtomicU64,
    refused: u64,
}

impl Explorer for Refusing {
    ghost explores = { λ r. r.hunter };

    ghost gives = { λ r job turns done. ⊤ };

    fn problem(&self) -> &Problem {
        self.hunter.problem()
    }

    fn explore(&self, alloc: Global, job: &[Node], turns: u64) -> Result<Done, NoMemory> {
        if self.calls.fetch_add(1, SeqCst) < self.refused {
            return Err(NoMemory);
        }
        self.hunter.explore(alloc, job, turns)
    }
}

// Whether both touches were found, once each, and no job is left.
fn all_found(board: &Board) -> bool {
    let [first, second] = board.found() else {
        return false;
    };
    board.is_done()
        && first.steps().len() == 1
        && second.steps().len() == 1
        && first.steps() != second.steps()
}

// What a search begins with and its budget; the turns spent, how many touches were found, and whether nothing is left.
// It is what one worker comes to.
type Case = (Begun, Option<u64>, u128, usize, bool);

const CASES: &[Case] = &[
    (Root, None, 3, 2, true),
    (Root, Some(0), 0, 0, false),
    (Root, Some(1), 1, 0, false),
    (Root, Some(2), 2, 1, false),
    (Root, Some(3), 3, 2, true),
    (Root, Some(5_000), 3, 2, true),
    (Both, None, 2, 2, true),
    (Both, Some(0), 0, 0, false),
    (Both, Some(1), 1, 1, false),
    (Both, Some(2), 2, 2, true),
    (Both, Some(3), 2, 2, true),
    (Both, Some(5_000), 2, 2, true),
];

#[test]
fn workers_come_to_the_same(rt: HostRuntime) -> Result<(), Fail> {
    let hunter = make_hunter(rt.alloc())?;
    for &(begun, budget, spent, found, done) in CASES {
        for workers in [1, 2, 3, 8, 64] {
            let opening = opening(rt.alloc(), begun, budget, workers)?;
            let board = run_workers(&rt, rt.alloc(), opening, &hunter)?;
            assert_eq!(rt; (board.spent(), board.found().len()), (spent, found));
            assert_eq!(rt; (board.is_done(), all_found(&board)), (done, done));
        }
    }
    Ok(())
}

// Lanes that have room for one number, or for two, lose no job.
#[test]
fn workers_with_little_room_come_to_the_same(rt: HostRuntime) -> Result<(), Fail> {
    let hunter = make_hunter(rt.alloc())?;
    for &(begun, budget, spent, found, done) in CASES {
        for (workers, room) in [(1, 1), (2, 1), (64, 1), (64, 2)] {
            let opening = opening(rt.alloc(), begun, budget, workers)?;
            let board = run_workers_with_room(&rt, rt.alloc(), opening, &hunter, room)?;
            assert_eq!(rt; (board.spent(), board.found().len()), (spent, found));
            assert_eq!(rt; (board.is_done(), all_found(&board)), (done, done));
        }
    }
    Ok(())
}

// Workers, how many calls find no memory, and how many calls there are where the run finishes: each refused worker
// leaves, and after all of them one worker has one try more.
const REFUSALS: &[(u32, u64, Option<u64>)] = &[
    (2, 1, Some(3)),
    (2, 2, Some(4)),
    (2, 3, None),
    (1, 1, Some(3)),
    (1, 2, None),
    (3, 2, Some(4)),
    (3, 3, Some(5)),
    (3, 4, None),
];

#[test]
fn a_worker_without_memory_leaves(rt: HostRuntime) -> Result<(), Fail> {
    for &(workers, refused, calls) in REFUSALS {
        let explorer = Refusing {
            hunter: make_hunter(rt.alloc())?,
            calls: AtomicU64::new(0),
            refused,
        };
        let opening = opening(rt.alloc(), Both, None, workers)?;
        let finished = match run_workers(&rt, rt.alloc(), opening, &explorer) {
            Ok(board) => {
                assert!(rt; all_found(&board));
                Some(explorer.calls.load(SeqCst))
            }
            Err(NoMemory) => None,
        };
        assert_eq!(rt; finished, calls);
    }
    Ok(())
}
