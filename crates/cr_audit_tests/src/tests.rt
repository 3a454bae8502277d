//! Logs as they are written.

ghost use Rattle.std.specs.Prelude.{All, IfOk};
ghost use Rattle.cr_model.specs.Callings.{HasSteps};

use cr_audit::{AuditFault, Item, LogLine, Verdict, audit, log_text};
use cr_model::{Count, Lead, Problem, Query, Step};
use cr_row::{Change, Stage};
use std::alloc::Global;
use std::test::*;

// A problem on four bells in short: the letters, and of each lead the method, the mark and the places of its last change.
#[derive(Clone, Copy)]
struct Draft {
    letters: &'static [u8],
    leads: &'static [(u8, u8, &'static [u8])],
}

const MINIMUS: Draft = Draft {
    letters: b"A",
    leads: &[(0, b'p', &[1, 2])],
};

const PAIR: Draft = Draft {
    letters: b"AC",
    leads: &[(0, b'p', &[1, 2]), (0, b'b', &[1, 4]), (1, b'p', &[1, 2])],
};

fn change_of(stage: Stage, places: &[u8]) -> Result<Change, Fail> {
    let change = Change::from_places(stage, places).ok();
    Ok(change.ok_or("the places are those of a change")?)
}

// Plain hunting, and the last change.
fn changes_of(alloc: Global, stage: Stage, last: &[u8]) -> Result<Vec<Change>, Fail> {
    let mut changes = Vec::new(alloc);
    for index in 0..7 {
        let places: &[u8] = if index % 2 == 0 { &[] } else { &[1, 4] };
        changes.push(change_of(stage, places)?)?;
    }
    changes.push(change_of(stage, last)?)?;
    Ok(changes)
}

fn problem(alloc: Global, draft: &Draft) -> Result<Problem, Fail> {
    problem_asking(alloc, draft, any_touch(alloc))
}

fn problem_asking(alloc: Global, draft: &Draft, query: Query) -> Result<Problem, Fail> {
    let stage = Stage::new(4).ok_or("the stage is from 3 to 16")?;
    let letters = draft.letters.to_vec(alloc)?;
    let mut leads = Vec::new(alloc);
    for &(method, mark, last) in draft.leads {
        let changes = changes_of(alloc, stage, last)?;
        leads.push(Lead {
            step: Step { method, mark },
            changes,
        })?;
    }
    match Problem::new(stage, letters, leads, query) {
        Ok(problem) => Ok(problem),
        Err(_) => Err(Fail::from("the parts are refused")),
    }
}

fn any_touch(alloc: Global) -> Query {
    Query {
        min: 1,
        max: 24,
        parts: 1,
        counts: Vec::new(alloc),
        method_counts: Vec::new(alloc),
        patterns: Vec::new(alloc),
        com: None,
    }
}

// The lines of a log, those whose steps the problem has.
fn lines_of(
    alloc: Global,
    problem: &Problem,
    lines: &[(&[u8], Verdict)],
) -> Result<Vec<LogLine>, Fail>
    ensures { IfOk result (λ all. All (λ line. HasSteps problem.now line.node) all.items) }
{
    let mut all = Vec::new(alloc);
    for &(node, verdict) in lines {
        if problem.has_steps(node) {
            all.push(LogLine {
                node: node.to_vec(alloc)?,
                verdict,
            })?;
        }
    }
    Ok(all)
}

// A problem, lines and their text.
const LOGS: &[(Draft, &[(&[u8], Verdict)], &str)] = &[
    (
        MINIMUS,
        &[
            (&[], Verdict::Open),
            (&[0], Verdict::Open),
            (&[0, 0], Verdict::Open),
            (&[0, 0, 0], Verdict::Open),
            (&[0, 0, 0, 0], Verdict::Long),
        ],
        "- open\np open\npp open\nppp open\npppp long\n",
    ),
    (
        PAIR,
        &[
            (&[0, 1], Verdict::Again(0, 8)),
            (&[1, 2], Verdict::Home(7)),
            (&[2, 0], Verdict::Back(1)),
            (&[2], Verdict::Many(Item::Count(10))),
            (&[0], Verdict::Many(Item::Leads(0))),
            (&[0], Verdict::Few(Item::Rows(31))),
            (&[0], Verdict::Few(Item::Com)),
        ],
        "ApAb again 0 8\nAbCp home 7\nCpAp back 1\nCp many count 10\nAp many leads 0\nAp few rows 31\nAp few com\n",
    ),
    (MINIMUS, &[], ""),
];

#[test]
fn lines_are_written_one_after_another(rt: HostRuntime) -> Result<(), Fail> {
    let alloc = rt.alloc();
    for &(draft, lines, text) in LOGS {
        if !is_written(alloc, &draft, lines, text)? {
            return Err(Fail::from(text));
        }
    }
    Ok(())
}

fn is_written(
    alloc: Global,
    draft: &Draft,
    lines: &[(&[u8], Verdict)],
    text: &str,
) -> Result<bool, Fail> {
    let problem = problem(alloc, draft)?;
    let lines = lines_of(alloc, &problem, lines)?;
    match log_text(alloc, &problem, &lines) {
        Ok(written) => Ok(written.as_slice() == text.as_bytes()),
        Err(_) => Err(Fail::from("there is memory")),
    }
}

// Plain Bob Minimus in so many parts, with at least so many plain leads where that is not none; a book, a log, and what
// an audit answers.
#[derive(Clone, Copy)]
struct Case {
    parts: i64,
    plain: i64,
    book: &'static str,
    log: &'static str,
    wanted: Result<u64, AuditFault>,
}

const WHOLE: Case = Case {
    parts: 1,
    plain: 0,
    book: "24 ppp\ntouches 1\n",
    log: "- open\np open\npp open\nppp open\npppp long\n",
    wanted: Ok(1),
};

const CASES: &[Case] = &[
    WHOLE,
    // Other verdicts that hold.
    Case {
        log: "- open\np open\npp open\nppp open\npppp again 0 24\n",
        ..WHOLE
    },
    Case {
        log: "- open\np open\npp open\nppp open\npppp home 23\n",
        ..WHOLE
    },
    Case {
        parts: 3,
        log: "- open\np open\npp long\n",
        ..WHOLE
    },
    Case {
        parts: 2,
        book: "touches 0\n",
        log: "- open\np open\npp long\n",
        wanted: Ok(0),
        ..WHOLE
    },
    Case {
        plain: 4,
        book: "touches 0\n",
        log: "- few count 0\n",
        wanted: Ok(0),
        ..WHOLE
    },
    // Lines without the form of one.
    Case {
        log: "- open\np open\npp open\nppp open\npppp long",
        wanted: Err(AuditFault::Line(5)),
        ..WHOLE
    },
    Case {
        log: "- open\nq open\n",
        wanted: Err(AuditFault::Line(2)),
        ..WHOLE
    },
    Case {
        log: "- open\np  open\n",
        wanted: Err(AuditFault::Line(2)),
        ..WHOLE
    },
    Case {
        log: "- open\np again 0 08\n",
        wanted: Err(AuditFault::Line(2)),
        ..WHOLE
    },
    Case {
        log: "- open\np home 9223372036854775808\n",
        wanted: Err(AuditFault::Line(2)),
        ..WHOLE
    },
    // Lines of other nodes, and none of the one that is due.
    Case {
        log: "",
        wanted: Err(AuditFault::Node(1)),
        ..WHOLE
    },
    Case {
        log: "- open\np open\npp open\nppp open\n",
        wanted: Err(AuditFault::Node(5)),
        ..WHOLE
    },
    Case {
        log: "- open\npp open\n",
        wanted: Err(AuditFault::Node(2)),
        ..WHOLE
    },
    Case {
        log: "- open\np open\npp open\nppp open\npppp long\np long\n",
        wanted: Err(AuditFault::Node(6)),
        ..WHOLE
    },
    // Verdicts that do not hold.
    Case {
        log: "- open\np open\npp open\nppp open\npppp back 1\n",
        wanted: Err(AuditFault::Verdict(5)),
        ..WHOLE
    },
    Case {
        log: "- open\np open\npp open\nppp home 23\n",
        wanted: Err(AuditFault::Verdict(4)),
        ..WHOLE
    },
    Case {
        log: "- open\np again 3 3\n",
        wanted: Err(AuditFault::Verdict(2)),
        ..WHOLE
    },
    Case {
        log: "- open\np home 9223372036854775807\n",
        wanted: Err(AuditFault::Verdict(2)),
        ..WHOLE
    },
    Case {
        log: "- many com\n",
        wanted: Err(AuditFault::Verdict(1)),
        ..WHOLE
    },
    Case {
        plain: 3,
        log: "- few count 0\n",
        wanted: Err(AuditFault::Verdict(1)),
        ..WHOLE
    },
    // Other books.
    Case {
        book: "touches 0\n",
        wanted: Err(AuditFault::Book(0)),
        ..WHOLE
    },
    Case {
        book: "24 ppp\ntouches 1",
        wanted: Err(AuditFault::Book(16)),
        ..WHOLE
    },
    Case {
        book: "24 ppp\n24 ppp\ntouches 2\n",
        wanted: Err(AuditFault::Book(7)),
        ..WHOLE
    },
];

#[test]
fn audits_answer_yes_or_the_first_fault(rt: HostRuntime) -> Result<(), Fail> {
    let alloc = rt.alloc();
    for case in CASES {
        if !is_answered(alloc, case)? {
            return Err(Fail::from(case.log));
        }
    }
    Ok(())
}

fn is_answered(alloc: Global, case: &Case) -> Result<bool, Fail> {
    let problem = problem_asking(alloc, &MINIMUS, query_of(alloc, case)?)?;
    let answer = audit(alloc, &problem, case.book.as_bytes(), case.log.as_bytes());
    Ok(answer == case.wanted)
}

fn query_of(alloc: Global, case: &Case) -> Result<Query, Fail> {
    let mut query = any_touch(alloc);
    query.parts = case.parts;
    if case.plain > 0 {
        query.counts.push(Count {
            mark: b'p',
            min: case.plain,
            max: 24,
        })?;
    }
    Ok(query)
}
