//! Logs of small problems: each verdict but those of other items, with its neighbours.

use cr_audit::log_text;
use cr_log::{Logged, log_run};
use cr_model::{Calling, Cell, Com, Count, MethodCount};
use cr_samples::{DOUBLES, Draft, MINIMUS, MINIMUS_WITH_SINGLES, MINOR, SPLICED, problem_of};
use std::alloc::Global;
use std::test::*;

// Plain Bob Minimus with a bob that comes round at once.
const WITH_BOBS: Draft = Draft {
    leads: &[
        (0, b'p', b"x.14.x.14.x.14.x.12"),
        (0, b'b', b"x.14.x.14.x.14.x.14"),
    ],
    ..MINIMUS
};

// A problem, its log and its book. A program of another make wrote the logs from the definitions.
const LOGS: &[(Draft, &str, &[&[u8]])] = &[
    (
        MINIMUS,
        "- open\np open\npp open\nppp open\npppp long\n",
        &[&[0, 0, 0]],
    ),
    (
        WITH_BOBS,
        "- open\np open\npp open\nppp open\npppp long\npppb long\nppb again 15 23\npb again 7 15\nb open\nbp again 0 8\nbb again 0 8\n",
        &[&[1], &[0, 0, 0]],
    ),
    (
        MINIMUS_WITH_SINGLES,
        "- open\np open\npp open\nppp open\npppp long\nppps long\npps again 22 23\nps again 14 15\ns again 6 7\n",
        &[&[0, 0, 0]],
    ),
    (
        SPLICED,
        "- open\nAp open\nApAp open\nApApAp open\nApApApAp long\nApApApCp long\nApApCp open\nApApCpAp long\nApApCpCp long\nApCp open\nApCpAp open\nApCpApAp long\nApCpApCp long\nApCpCp open\nApCpCpAp long\nApCpCpCp long\nCp open\nCpAp back 1\nCpCp open\nCpCpAp back 1\nCpCpCp open\nCpCpCpAp long\nCpCpCpCp long\n",
        &[&[0, 0, 0], &[0, 0, 1], &[0, 1, 1], &[1, 1, 1]],
    ),
    (
        Draft {
            parts: 2,
            ..WITH_BOBS
        },
        "- open\np open\npp long\npb long\nb home 7\n",
        &[],
    ),
    (
        Draft {
            counts: &[
                Count {
                    mark: b'b',
                    min: 0,
                    max: 3,
                },
                Count {
                    mark: b'p',
                    min: 0,
                    max: 1,
                },
            ],
            ..WITH_BOBS
        },
        "- open\np open\npp many count 1\npb again 7 15\nb open\nbp again 0 8\nbb again 0 8\n",
        &[&[1]],
    ),
    (
        Draft {
            counts: &[
                Count {
                    mark: b'b',
                    min: 0,
                    max: 9,
                },
                Count {
                    mark: b'p',
                    min: 4,
                    max: 9,
                },
            ],
            ..WITH_BOBS
        },
        "- few count 1\n",
        &[],
    ),
    (
        Draft {
            length: (1, 24),
            com: Some(Com { min: 2, max: 2 }),
            ..SPLICED
        },
        "- open\nAp open\nApAp few com\nApCp open\nApCpAp open\nApCpApAp long\nApCpApCp long\nApCpCp few com\nCp open\nCpAp open\nCpApAp few com\nCpApCp open\nCpApCpAp long\nCpApCpCp long\nCpCp few com\n",
        &[&[0, 1, 0], &[1, 0, 1]],
    ),
    (
        Draft {
            length: (1, 24),
            com: Some(Com { min: 0, max: 1 }),
            ..SPLICED
        },
        "- open\nAp open\nApAp open\nApApAp open\nApApApAp long\nApApApCp long\nApApCp open\nApApCpAp long\nApApCpCp long\nApCp open\nApCpAp many com\nApCpCp open\nApCpCpAp long\nApCpCpCp long\nCp open\nCpAp open\nCpApAp open\nCpApApAp long\nCpApApCp long\nCpApCp many com\nCpCp open\nCpCpAp open\nCpCpApAp long\nCpCpApCp long\nCpCpCp open\nCpCpCpAp long\nCpCpCpCp long\n",
        &[&[0, 0, 0], &[0, 0, 1], &[0, 1, 1], &[1, 1, 1]],
    ),
    (
        Draft {
            cells: &[Cell::Run, Cell::Bell(4)],
            fitting: (0, 4),
            ..SPLICED
        },
        "- open\nAp open\nApAp open\nApApAp many rows 0\nApApCp many rows 0\nApCp open\nApCpAp many rows 0\nApCpCp many rows 0\nCp open\nCpAp open\nCpApAp many rows 0\nCpApCp many rows 0\nCpCp open\nCpCpAp many rows 0\nCpCpCp many rows 0\n",
        &[],
    ),
    (
        Draft {
            cells: &[Cell::Run, Cell::Bell(4)],
            fitting: (23, 24),
            ..SPLICED
        },
        "- open\nAp few rows 0\nCp few rows 0\n",
        &[],
    ),
    (
        Draft {
            method_counts: &[
                MethodCount {
                    letter: b'A',
                    min: 0,
                    max: 1,
                },
                MethodCount {
                    letter: b'C',
                    min: 2,
                    max: 9,
                },
            ],
            ..SPLICED
        },
        "- open\nAp open\nApAp many leads 0\nApCp open\nApCpAp many leads 0\nApCpCp open\nApCpCpAp long\nApCpCpCp long\nCp open\nCpAp back 1\nCpCp open\nCpCpAp back 1\nCpCpCp open\nCpCpCpAp long\nCpCpCpCp long\n",
        &[&[0, 1, 1], &[1, 1, 1]],
    ),
];

#[test]
fn logs_of_small_problems(rt: HostRuntime) -> Result<(), Fail> {
    let alloc = rt.alloc();
    for &(draft, log, book) in LOGS {
        if !is_logged(alloc, &draft, log, book)? {
            return Err(Fail::from(log));
        }
    }
    Ok(())
}

fn is_logged(alloc: Global, draft: &Draft, log: &str, book: &[&[u8]]) -> Result<bool, Fail> {
    let problem = problem_of(alloc, draft)?;
    let Ok(run) = log_run(alloc, &problem) else {
        return Err(Fail::from("there is memory"));
    };
    let Ok(text) = log_text(alloc, &problem, &run.lines) else {
        return Err(Fail::from("there is memory"));
    };
    Ok(text.as_slice() == log.as_bytes() && have_steps(&run.book, book))
}

// Whether callings have these steps, one after another.
fn have_steps(callings: &[Calling], steps: &[&[u8]]) -> bool {
    if callings.len() != steps.len() {
        return false;
    }
    for (calling, wanted) in callings.iter().zip(steps) {
        if calling.steps() != *wanted {
            return false;
        }
    }
    true
}

// A problem, and how many lines its log has.
const LENGTHS: &[(Draft, usize)] = &[(DOUBLES, 73), (MINOR, 583)];

#[test]
fn lengths_of_logs(rt: HostRuntime) -> Result<(), Fail> {
    for &(draft, wanted) in LENGTHS {
        if lines_of(rt.alloc(), &draft)? != wanted {
            return Err(Fail::from("another number of lines"));
        }
    }
    Ok(())
}

fn lines_of(alloc: Global, draft: &Draft) -> Result<usize, Fail> {
    let problem = problem_of(alloc, draft)?;
    match log_run(alloc, &problem) {
        Ok(Logged { book: _, lines }) => Ok(lines.len()),
        Err(_) => Err(Fail::from("there is memory")),
    }
}
