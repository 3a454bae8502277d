//! What no clause says: how a call ends whose reads, writes or notes fail one after another, and whose workers find no
//! memory.

ghost use Rattle.std.specs.Prelude.{⊤};

use crate::stop_tests::{ALL_DOUBLES, DOUBLES};
use crate::test_calls::{Ending, ends_with};
use cr_board::{Board, Opening};
use cr_explore::RowSearch;
use cr_model::Problem;
use cr_node::{Done, Explorer, Node};
use cr_read::read_problem;
use cr_row::NoMemory;
use cr_run::run_workers;
use std::alloc::Global;
use std::sync::atomic::AtomicU64;
use std::sync::atomic::Ordering::SeqCst;
use std::test::Fail;

// Ok where a call ended as it should, and else which call of which kind failed.
fn check_call(name: &'static str, call: u64, is_as_wanted: bool) -> Result<(), Fail> {
    if is_as_wanted {
        Ok(())
    } else {
        Err(Fail::new(format_args!("{name}: {call}")))
    }
}

const STOP: &[&str] = &["--turns", "2"];

const STOPPED: &str = "ringsearch checkpoint 2
problem 124
stage = 5
[[method]]
letter = \"A\"
notation = \"5.1.5.1.5,125\"
[[call]]
mark = \"b\"
notation = \"145\"
[query]
min = 1
max = 120

found 0
jobs 2
job 1
0 b
job 2
0 pb
1 p
end
";

const BOOK: Ending<'static> = (0, ALL_DOUBLES, "");

const CHECKPOINT: Ending<'static> = (3, STOPPED, "ringsearch: stopped after 2 turns\n");

const UNREAD: Ending<'static> = (6, "", "ringsearch: read failed\n");

const UNWRITTEN: Ending<'static> = (7, "", "ringsearch: write failed\n");

// The front of a text, or all of it.
fn front(text: &str, length: usize) -> &str {
    text.get(..length).unwrap_or(text)
}

// Which reads fail, the words, how many bytes a read gives at most, how many reads there are, and how the call ends
// where none fails. The file has 124 bytes, and the last read gives none.
type Reads = (
    &'static str,
    &'static [&'static str],
    u64,
    u8,
    Ending<'static>,
);

const READS: [Reads; 3] = [
    ("reads of 50 bytes", &[], 50, 4, BOOK),
    ("reads of a byte", &[], 1, 125, BOOK),
    ("reads of a byte before a stop", STOP, 1, 125, CHECKPOINT),
];

#[test]
fn each_read_fails_in_turn(rt: HostRuntime) -> Result<(), Fail> {
    for (name, words, most, reads, whole) in READS {
        for before in 0..=reads {
            let call = u64::from(before) + 1;
            let ending = if before < reads { UNREAD } else { whole };
            let faults = (call, 0, 0);
            let is_as_wanted = ends_with(
                &rt,
                words,
                DOUBLES.as_bytes(),
                most.max(1),
                faults,
                ending,
            )?;
            check_call(name, call, is_as_wanted)?;
        }
    }
    Ok(())
}

// Which writes fail, the words, how many writes there are, of 16 bytes but for the last, and how the call ends where none
// fails. The book has 66 bytes, and the checkpoint 205.
type Writes = (&'static str, &'static [&'static str], u8, Ending<'static>);

const WRITES: [Writes; 2] = [
    ("writes of a book", &[], 5, BOOK),
    ("writes of a checkpoint", STOP, 13, CHECKPOINT),
];

#[test]
fn each_write_fails_in_turn(rt: HostRuntime) -> Result<(), Fail> {
    for (name, words, writes, whole) in WRITES {
        let (_, text, _) = whole;
        for before in 0..=writes {
            let call = u64::from(before) + 1;
            let (code, _, noted) = UNWRITTEN;
            let broken = (code, front(text, usize::from(before) * 16), noted);
            let ending = if before < writes { broken } else { whole };
            let faults = (0, call, 0);
            let is_as_wanted = ends_with(&rt, words, DOUBLES.as_bytes(), 50, faults, ending)?;
            check_call(name, call, is_as_wanted)?;
        }
    }
    Ok(())
}

// Which writes of a note fail, the words, the read and the write that fail before, how many bytes are written before each
// piece of the note and after the last one, and how the call ends where the note does not fail.
type Notes = (
    &'static str,
    &'static [&'static str],
    (u64, u64),
    &'static [usize],
    Ending<'static>,
);

const NOTES: [Notes; 3] = [
    (
        "a note on turns",
        STOP,
        (0, 0),
        &[0, 12, 26, 27, 33, 34],
        CHECKPOINT,
    ),
    ("a note on a read", &[], (1, 0), &[0, 12, 23, 24], UNREAD),
    (
        "a note on a write",
        &[],
        (0, 1),
        &[0, 12, 24, 25],
        UNWRITTEN,
    ),
];

#[test]
fn each_write_of_a_note_fails_in_turn(rt: HostRuntime) -> Result<(), Fail> {
    for (name, words, (read, write), lengths, (code, text, note)) in NOTES {
        let mut call = 0u64;
        for length in lengths {
            call = call.saturating_add(1);
            let ending = (code, text, front(note, *length));
            let faults = (read, write, call);
            let is_as_wanted = ends_with(&rt, words, DOUBLES.as_bytes(), 50, faults, ending)?;
            check_call(name, call, is_as_wanted)?;
        }
    }
    Ok(())
}

// A search whose first calls find no memory.
#[derive(Drop)]
struct Refusing {
    search: RowSearch,
    calls: AtomicU64,
    refused: u64,
}

impl Explorer for Refusing {
    ghost explores = { λ r. r.search };

    ghost gives = { λ r job turns done. ⊤ };

    fn problem(&self) -> &Problem {
        self.search.problem()
    }

    fn explore(&self, alloc: Global, job: &[Node], turns: u64) -> Result<Done, NoMemory> {
        if self.calls.fetch_add(1, SeqCst) < self.refused {
            return Err(NoMemory);
        }
        self.search.explore(alloc, job, turns)
    }
}

// The touches of Plain Bob Doubles.
const TOUCHES: &[&[u8]] = &[
    &[1, 1],
    &[0, 0, 0, 0],
    &[0, 1, 0, 1, 0, 1],
    &[0, 0, 1, 0, 1, 0, 0, 1, 0, 1],
    &[0, 0, 0, 1, 0, 0, 0, 1, 0, 0, 0, 1],
];

// Whether a board found a touch.
fn has_found(board: &Board, touch: &[u8]) -> bool {
    for found in board.found() {
        if found.steps() == touch {
            return true;
        }
    }
    false
}

/// Whether a board found all touches of Plain Bob Doubles, and no others.
pub fn has_all(board: &Board) -> bool {
    for touch in TOUCHES {
        if !has_found(board, touch) {
            return false;
        }
    }
    board.found().len() == TOUCHES.len()
}

// How many calls of two workers find no memory, and whether the run finishes: each refused worker leaves, and then one
// worker has one try more.
const REFUSALS: [(u64, bool); 3] = [(1, true), (2, true), (3, false)];

#[test]
fn workers_without_memory_leave(rt: HostRuntime) -> Result<(), Fail> {
    let alloc = rt.alloc();
    for (refused, finishes) in REFUSALS {
        let problem = match read_problem(alloc, DOUBLES.as_bytes()) {
            Ok(problem) => problem,
            Err(_) => return Err(Fail::from("it is a problem file")),
        };
        let explorer = Refusing {
            search: RowSearch::new(alloc, &problem)?,
            calls: AtomicU64::new(0),
            refused,
        };
        let opening = Opening::fresh(alloc, problem, None, 2)?;
        let finished = match run_workers(&rt, alloc, opening, &explorer) {
            Ok(board) => has_all(&board),
            Err(NoMemory) => false,
        };
        assert_eq!(rt; finished, finishes);
    }
    Ok(())
}
