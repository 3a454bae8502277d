//! What no clause says: logs of whole searches and audits of them, with ample memory, and what is refused.

use crate::stop_tests::{DOUBLES, MINIMUS};
use crate::test_calls::{Ending, answered, check, check_faults, ends};
use std::test::Fail;

// The problem of Plain Bob Minimus as a block, and then more.
macro_rules! behind_minimus {
    ($($text:literal)*) => {
        concat!(
            "block 82
stage = 4
[[method]]
letter = \"A\"
notation = \"x14x14,12\"
[query]
min = 1
max = 24
",
            $($text,)*
        )
    };
}

// The problem, its book and its log.
const LOGGED: &str = behind_minimus! {
    "block 17\n" "24 ppp\ntouches 1\n"
    "block 41\n" "- open\np open\npp open\nppp open\npppp long\n"
};

// The last line has a verdict that does not hold.
const TURNED: &str = behind_minimus! {
    "block 17\n" "24 ppp\ntouches 1\n"
    "block 43\n" "- open\np open\npp open\nppp open\npppp back 1\n"
};

// The last line is wanting.
const SHORT: &str = behind_minimus! {
    "block 17\n" "24 ppp\ntouches 1\n"
    "block 31\n" "- open\np open\npp open\nppp open\n"
};

// A line is no line of a log.
const STRANGE: &str = behind_minimus! {
    "block 17\n" "24 ppp\ntouches 1\n"
    "block 16\n" "- open\np opened\n"
};

// The book has not what the log proves.
const EMPTY: &str = behind_minimus! {
    "block 10\n" "touches 0\n"
    "block 41\n" "- open\np open\npp open\nppp open\npppp long\n"
};

// The log is wanting.
const TWO: &str = behind_minimus! {
    "block 17\n" "24 ppp\ntouches 1\n"
};

// The book is wanting too.
const ONE: &str = behind_minimus! {};

// A block too many.
const FOUR: &str = behind_minimus! {
    "block 17\n" "24 ppp\ntouches 1\n"
    "block 41\n" "- open\np open\npp open\nppp open\npppp long\n"
    "block 1\n" "x"
};

// A fourth block that is not whole.
const TORN: &str = behind_minimus! {
    "block 17\n" "24 ppp\ntouches 1\n"
    "block 41\n" "- open\np open\npp open\nppp open\npppp long\n"
    "block 2\n" "x"
};

// Something else behind the third block.
const MORE: &str = behind_minimus! {
    "block 17\n" "24 ppp\ntouches 1\n"
    "block 41\n" "- open\np open\npp open\nppp open\npppp long\n"
    "\n"
};

const LOG: &[&str] = &["--do", "log"];

const AUDIT: &[&str] = &["--do", "audit"];

// The words, what is read, and how the call ends.
const CALLS: &[(&[&str], &str, Ending<'static>)] = &[
    (LOG, MINIMUS, (0, LOGGED, "")),
    (LOG, "", (4, "", "ringsearch: problem 2 Key stage\n")),
    (
        LOG,
        "ringsearch checkpoint 3\n",
        (13, "", "ringsearch: not a problem\n"),
    ),
    (AUDIT, LOGGED, (0, "audit yes 1\n", "")),
    (AUDIT, TURNED, (12, "", "ringsearch: audit 4 Verdict 5\n")),
    (AUDIT, SHORT, (12, "", "ringsearch: audit 3 Node 5\n")),
    (AUDIT, STRANGE, (12, "", "ringsearch: audit 2 Line 2\n")),
    (AUDIT, EMPTY, (12, "", "ringsearch: audit 5 Book 0\n")),
    (AUDIT, "", (12, "", "ringsearch: audit 1 Form 0\n")),
    (AUDIT, ONE, (12, "", "ringsearch: audit 1 Form 91\n")),
    (AUDIT, TWO, (12, "", "ringsearch: audit 1 Form 117\n")),
    (AUDIT, FOUR, (12, "", "ringsearch: audit 1 Form 167\n")),
    (AUDIT, TORN, (12, "", "ringsearch: audit 1 Form 176\n")),
    (AUDIT, MORE, (12, "", "ringsearch: audit 1 Form 167\n")),
    (AUDIT, "book", (12, "", "ringsearch: audit 1 Form 1\n")),
    (
        AUDIT,
        "block 1\nxblock 1\nyblock 1\nz",
        (4, "", "ringsearch: problem 1 NotToml\n"),
    ),
    (
        &["--do", "audit", "--workers", "2"],
        LOGGED,
        (2, "", "ringsearch: words 6 Mixed\n"),
    ),
];

#[test]
fn searches_are_logged_and_audited(rt: HostRuntime) -> Result<(), Fail> {
    for &(words, input, ending) in CALLS {
        check(ending.1, ends(&rt, words, input.as_bytes(), ending)?)?;
    }
    Ok(())
}

#[test]
fn what_is_logged_is_audited_with_yes(rt: HostRuntime) -> Result<(), Fail> {
    check("167 bytes", LOGGED.len() == 167)?;
    let (code, text) = answered(&rt, LOG, DOUBLES.as_bytes())?;
    check("a log", code == 0)?;
    check(
        "five touches",
        ends(&rt, AUDIT, &text, (0, "audit yes 5\n", ""))?,
    )
}

// Plain Bob Minimus with a call whose lead ends in rounds, and with one that repeats a row.
const CALLED: &[(&str, &str)] = &[
    (
        "stage = 4
[[method]]
letter = \"A\"
notation = \"x14x14,12\"
[[call]]
mark = \"b\"
notation = \"14\"
[query]
min = 1
max = 24
",
        "\nbp again 0 8\nbb again 0 8\n",
    ),
    (
        "stage = 4
[[method]]
letter = \"A\"
notation = \"x14x14,12\"
[[call]]
mark = \"s\"
notation = \"1234\"
[query]
min = 1
max = 24
",
        "\ns again 6 7\n",
    ),
];

#[test]
fn rows_that_come_again_are_logged(rt: HostRuntime) -> Result<(), Fail> {
    for &(input, line) in CALLED {
        let (code, text) = answered(&rt, LOG, input.as_bytes())?;
        check("a log", code == 0)?;
        check(line, std::str::from_utf8(&text)?.contains(line))?;
    }
    Ok(())
}

// The words, and what is read.
const FAILING: &[(&[&str], &str)] = &[(LOG, MINIMUS), (AUDIT, LOGGED)];

#[test]
fn reads_and_writes_that_fail_are_told(rt: HostRuntime) -> Result<(), Fail> {
    for &(words, input) in FAILING {
        check_faults(&rt, words, input.as_bytes())?;
    }
    Ok(())
}
