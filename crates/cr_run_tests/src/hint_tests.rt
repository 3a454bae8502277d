//! Workers that go by hints.

ghost use Rattle.std.specs.Prelude.{ℕ};

use crate::alone_tests::Begun::*;
use crate::alone_tests::opening;
use crate::journals::{FIRST_FIRST, SECOND_FIRST};
use cr_board::{Board, Entry};
use cr_desk::Hints;
use cr_hunter::{board_of_both, make_hunter, run_by};
use cr_lanes::Lanes;
use cr_row::NoMemory;
use cr_run::hints_of;
use std::alloc::Global;
use std::process::Abort;
use std::sync::Wait;
use std::test::*;

/// Hints that give these numbers, one after another, and list those that are put.
#[derive(Drop)]
pub struct Listed {
    numbers: &'static [u64],
    asked: usize,
    put: Vec<u64>,
}

impl Hints for Listed {
    ghost use Rattle.std.specs.Prelude.{ℕ};

    ghost Key = { ℕ };

    ghost key = { λ hints. 0 };

    fn put(&mut self, number: u64) {
        let _ = self.put.push(number);
    }

    fn next<R: Wait>(&mut self, _rt: &R) -> Option<u64> {
        let asked = self.asked;
        self.asked = asked.saturating_add(1);
        if asked < self.numbers.len() {
            Some(self.numbers[asked])
        } else {
            None
        }
    }
}

/// Hints that give the number of no job for ever.
#[derive(Drop)]
pub struct AlwaysStale {
    asked: u64,
}

impl Hints for AlwaysStale {
    ghost use Rattle.std.specs.Prelude.{ℕ};

    ghost Key = { ℕ };

    ghost key = { λ hints. 0 };

    fn put(&mut self, _number: u64) {}

    fn next<R: Wait>(&mut self, _rt: &R) -> Option<u64> {
        self.asked = self.asked.saturating_add(1);
        Some(u64::MAX)
    }
}

// What the hints give, how often they are asked, and the journal.
type Claim = (&'static [u64], usize, &'static [Entry]);

const CLAIMS: &[Claim] = &[
    (&[9, 0], 4, FIRST_FIRST),
    (&[0, 1], 3, FIRST_FIRST),
    (&[0, 0, 1], 4, FIRST_FIRST),
    (&[], 3, SECOND_FIRST),
    (&[9, 9, 1], 5, SECOND_FIRST),
    (&[1, 1, 0], 4, SECOND_FIRST),
];

// Claims that are stale are asked for again, and after none the worker takes its next job.
#[test]
fn a_worker_claims_what_its_hints_give(rt: HostRuntime) -> Result<(), Fail> {
    let hunter = make_hunter(rt.alloc())?;
    for &(numbers, asked, journal) in CLAIMS {
        let mut hints = Listed {
            numbers,
            asked: 0,
            put: Vec::new(rt.alloc()),
        };
        let board = board_of_both(rt.alloc(), None, 1)?;
        let (board, entries) = run_by(&rt, rt.alloc(), board, &hunter, &mut hints)?;
        assert!(rt; board.journal() == journal);
        assert_eq!(rt; (entries, hints.asked, hints.put.len()), (4, asked, 0));
    }
    Ok(())
}

// Stale numbers for ever don't keep a worker from its work: before each of its two jobs, and before it leaves, it asks for
// one number and then for 65 more.
#[test]
fn stale_numbers_for_ever(rt: HostRuntime) -> Result<(), Fail> {
    let mut hints = AlwaysStale { asked: 0 };
    let board = board_of_both(rt.alloc(), None, 1)?;
    let hunter = make_hunter(rt.alloc())?;
    let (board, _) = run_by(&rt, rt.alloc(), board, &hunter, &mut hints)?;
    assert!(rt; board.journal() == SECOND_FIRST);
    assert_eq!(rt; hints.asked, 3 * 66);
    Ok(())
}

// The budget of a search from the root, and the numbers of the jobs that the hand-in opens.
const OPENED: &[(Option<u64>, &[u64])] = &[
    (Some(0), &[]),
    (Some(1), &[1, 2]),
    (Some(2), &[1]),
    (Some(3), &[]),
    (None, &[]),
];

#[test]
fn hints_get_the_numbers_of_the_jobs_that_are_opened(rt: HostRuntime) -> Result<(), Fail> {
    let hunter = make_hunter(rt.alloc())?;
    for &(budget, opened) in OPENED {
        let mut hints = Listed {
            numbers: &[],
            asked: 0,
            put: Vec::new(rt.alloc()),
        };
        let board = Board::open(rt.alloc(), opening(rt.alloc(), Root, budget, 1)?)?;
        let _ = run_by(&rt, rt.alloc(), board, &hunter, &mut hints)?;
        assert_eq!(rt; hints.put.as_slice(), opened);
    }
    Ok(())
}

// The first of two workers puts 1, 2 and 3, and in vain 2 again and a number for which there is no room. Then the second asks,
// and then the first.
fn two_workers<R: Abort + Wait>(rt: &R, alloc: Global) -> Result<(), NoMemory> {
    let (lanes, ends, thieves) = Lanes::new(alloc, 2, 3)?;
    let mut hints = hints_of(alloc, &lanes, ends, thieves)?;
    let (Some(mut second), Some(mut first)) = (hints.pop(), hints.pop()) else {
        return Err(NoMemory);
    };
    first.put(1);
    first.put(2);
    first.put(2);
    first.put(3);
    first.put(4);
    assert_eq!(rt; second.next(rt), Some(1));
    assert_eq!(rt; first.next(rt), Some(3));
    assert_eq!(rt; second.next(rt), Some(2));
    assert_eq!(rt; (first.next(rt), second.next(rt)), (None, None));
    Ok(())
}

#[test]
fn a_worker_takes_its_last_number_and_steals_the_first_of_another(rt: HostRuntime) {
    assert_eq!(rt; two_workers(&rt, rt.alloc()), Ok(()));
}
