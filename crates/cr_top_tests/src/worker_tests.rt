//! What no clause says: that workers search side by side, with ample memory.

use crate::stop_tests::{ALL_DOUBLES, DOUBLES, MINIMUS, checkpoint};
use crate::test_calls::{answered, check, words_of};
use cr_io::{SureSink, SureSource};
use cr_top::{Gate, ringsearch};
use std::sync::atomic::Ordering::SeqCst;
use std::sync::atomic::{AtomicBool, AtomicU64};
use std::test::Fail;

const ALL_MINIMUS: &str = "24 ppp\ntouches 1\n";

// How many workers and after how many turns a search of which problem, the status, and the book.
const TOGETHER: &[(&str, &str, &str, u8, &str)] = &[
    (DOUBLES, "1", "32", 0, ALL_DOUBLES),
    (DOUBLES, "2", "32", 0, ALL_DOUBLES),
    (DOUBLES, "16", "32", 0, ALL_DOUBLES),
    (DOUBLES, "64", "5000", 0, ALL_DOUBLES),
    (DOUBLES, "3", "31", 3, ALL_DOUBLES),
    (MINIMUS, "1", "3", 3, ALL_MINIMUS),
    (MINIMUS, "4", "3", 3, ALL_MINIMUS),
    (MINIMUS, "1", "4", 0, ALL_MINIMUS),
    (MINIMUS, "4", "4", 0, ALL_MINIMUS),
];

#[test]
fn workers_search_together(rt: HostRuntime) -> Result<(), Fail> {
    for &(problem, workers, turns, code, book) in TOGETHER {
        let (ended, mut text) = answered(
            &rt,
            &["--workers", workers, "--turns", turns],
            problem.as_bytes(),
        )?;
        check(workers, ended == code)?;
        if code == 3 {
            (_, text) = answered(&rt, &["--workers", workers], &text)?;
        }
        check(turns, text.as_slice() == book.as_bytes())?;
    }
    Ok(())
}

// Six bells have 720 rows, so no touch is longer. A search that took every turn would take hours.
const TOO_LONG: &str =
    "stage = 6\n[[method]]\nletter = \"A\"\nnotation = \"x16x16x16,12\"\n[[call]]\nmark = \"b\"\nnotation = \"14\"\n[query]\nmin = 1250\nmax = 1300\n";

#[test]
fn a_search_that_looks_ahead(rt: HostRuntime) -> Result<(), Fail> {
    for workers in ["1", "4"] {
        let (ended, text) = answered(&rt, &["--workers", workers], TOO_LONG.as_bytes())?;
        check("the status", ended == 0)?;
        check("the book", text.as_slice() == "touches 0\n".as_bytes())?;
    }
    Ok(())
}

// A gate whose first guest waits until a second one has come, for so many turns of a loop at most.
#[derive(Drop)]
struct Meeting {
    entered: AtomicU64,
    met: AtomicBool,
}

impl Gate for Meeting {
    fn enter(&self) {
        if self.entered.fetch_add(1, SeqCst) == 0 {
            for _turn in 0..1_000_000_000 {
                if self.entered.load(SeqCst) > 1 {
                    self.met.store(true, SeqCst);
                    break;
                }
            }
        }
    }
}

#[test]
fn two_workers_are_inside_at_once(rt: HostRuntime) -> Result<(), Fail> {
    let alloc = rt.alloc();
    let input = checkpoint(alloc, "2", "found 0\njobs 2\njob 1\n0 b\njob 1\n0 p\nend\n")?;
    let words = words_of(alloc, &["--workers", "2"])?;
    let gate = Meeting {
        entered: AtomicU64::new(0),
        met: AtomicBool::new(false),
    };
    let mut source = SureSource::new(input.as_bytes().to_vec(alloc)?);
    let mut sink = SureSink::new(alloc);
    let mut notes = SureSink::new(alloc);
    let status = ringsearch(&rt, &words, &mut source, &mut sink, &mut notes, &gate);
    let have_met = gate.met.load(SeqCst) && gate.entered.load(SeqCst) == 2;
    let has_book = status.code() == 0 && sink.bytes() == Some(ALL_DOUBLES.as_bytes());
    check("meeting", have_met && has_book)
}
