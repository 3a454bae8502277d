//! What no clause says: whole calls, from words and bytes to status, bytes and note, with ample memory.

use crate::test_calls::{Ending, Faults, check, ends, ends_with};
use std::test::Fail;

const MINIMUS_LEADS: &str = "stage = 4
[[method]]
letter = \"A\"
notation = \"x14x14,12\"
";

const DOUBLES_LEADS: &str = "stage = 5
[[method]]
letter = \"A\"
notation = \"5.1.5.1.5,125\"
[[call]]
mark = \"b\"
notation = \"145\"
";

const SPLICED: &str = "stage = 4
[[method]]
letter = \"A\"
notation = \"x14x14,12\"
[[method]]
letter = \"C\"
notation = \"x14x14,12\"
[query]
min = 24
max = 24
";

const ALL_DOUBLES: &str =
    "20 bb\n40 pppp\n60 pbpbpb\n100 ppbpbppbpb\n120 pppbpppbpppb\ntouches 5\n";

const ALL_SPLICED: &str = "24 ApApAp\n24 ApApCp\n24 ApCpCp\n24 CpCpCp\ntouches 4\n";

// Which case it is, how its file begins and ends, and the book.
const BOOKS: &[(&str, &str, &str, &str)] = &[
    (
        "plain leads",
        MINIMUS_LEADS,
        "[query]\nmin = 1\nmax = 24\n",
        "24 ppp\ntouches 1\n",
    ),
    (
        "plain leads, above max",
        MINIMUS_LEADS,
        "[query]\nmin = 1\nmax = 23\n",
        "touches 0\n",
    ),
    (
        "a bob lead that comes round",
        MINIMUS_LEADS,
        "[[call]]\nmark = \"b\"\nnotation = \"14\"\n[query]\nmin = 1\nmax = 24\n",
        "8 b\n24 ppp\ntouches 2\n",
    ),
    (
        "a call that repeats a row",
        MINIMUS_LEADS,
        "[[call]]\nmark = \"s\"\nnotation = \"1234\"\n[query]\nmin = 1\nmax = 24\n",
        "24 ppp\ntouches 1\n",
    ),
    (
        "bobs",
        DOUBLES_LEADS,
        "[query]\nmin = 1\nmax = 120\n",
        ALL_DOUBLES,
    ),
    (
        "two parts",
        DOUBLES_LEADS,
        "[query]\nmin = 1\nmax = 120\nparts = 2\n",
        "20 bb\n40 pppp\n100 ppbpbppbpb\ntouches 3\n",
    ),
    (
        "three parts",
        DOUBLES_LEADS,
        "[query]\nmin = 1\nmax = 120\nparts = 3\n",
        "60 pbpbpb\n120 pppbpppbpppb\ntouches 2\n",
    ),
    (
        "four parts",
        DOUBLES_LEADS,
        "[query]\nmin = 1\nmax = 120\nparts = 4\n",
        "40 pppp\ntouches 1\n",
    ),
    (
        "no bob",
        DOUBLES_LEADS,
        "[query]\nmin = 1\nmax = 120\n[[count]]\nmark = \"b\"\nmax = 0\n",
        "40 pppp\ntouches 1\n",
    ),
    (
        "two bobs",
        DOUBLES_LEADS,
        "[query]\nmin = 1\nmax = 120\n[[count]]\nmark = \"b\"\nmin = 2\nmax = 2\n",
        "20 bb\ntouches 1\n",
    ),
    (
        "one length",
        DOUBLES_LEADS,
        "[query]\nmin = 60\nmax = 60\n",
        "60 pbpbpb\ntouches 1\n",
    ),
    (
        "lengths of no touch",
        DOUBLES_LEADS,
        "[query]\nmin = 61\nmax = 99\n",
        "touches 0\n",
    ),
    (
        "a row that the least rotation lacks",
        DOUBLES_LEADS,
        "[query]\nmin = 60\nmax = 60\n[[rows]]\npattern = \"14253\"\nmin = 1\n",
        "60 bpbpbp\ntouches 1\n",
    ),
    (
        "Grandsire Doubles",
        "stage = 5\n[[method]]\nletter = \"G\"\nnotation = \"3,1.5.1.5.1\"\n",
        "[query]\nmin = 1\nmax = 30\n",
        "30 ppp\ntouches 1\n",
    ),
    ("two methods", SPLICED, "", ALL_SPLICED),
    (
        "a call that replaces more changes than it has",
        MINIMUS_LEADS,
        "[[call]]\nmark = \"e\"\nnotation = \"14\"\nover = 5\n[query]\nmin = 1\nmax = 24\n",
        "8 ee\n24 ppp\ntouches 2\n",
    ),
    (
        "no change of method",
        SPLICED,
        "[com]\nmax = 0\n",
        "24 ApApAp\n24 CpCpCp\ntouches 2\n",
    ),
    (
        "at most one change of method",
        SPLICED,
        "[com]\nmax = 1\n",
        ALL_SPLICED,
    ),
    (
        "two changes of method",
        SPLICED,
        "[com]\nmin = 2\n",
        "24 ApCpAp\n24 CpApCp\ntouches 2\n",
    ),
    (
        "three changes of method",
        SPLICED,
        "[com]\nmin = 3\n",
        "touches 0\n",
    ),
    (
        "two crosses",
        "stage = 4\n[[method]]\nletter = \"A\"\nnotation = \"xx\"\n",
        "[query]\nmin = 1\nmax = 24\n",
        "2 p\ntouches 1\n",
    ),
];

#[test]
fn books(rt: HostRuntime) -> Result<(), Fail> {
    for &(name, start, end, book) in BOOKS {
        let input = format!(in rt.alloc(); "{start}{end}")?;
        check(name, ends(&rt, &[], input.as_bytes(), (0, book, ""))?)?;
    }
    Ok(())
}

// Which case it is, the input, which read, write and write of a note fails, and how the call ends.
type Call = (&'static str, &'static str, Faults, Ending<'static>);

const MINIMUS: &str = "stage = 4
[[method]]
letter = \"A\"
notation = \"x14x14,12\"
[query]
min = 1
max = 24
";

const TURNED_COM: &str = "stage = 4
[[method]]
letter = \"A\"
notation = \"x14x14,12\"
[query]
min = 1
max = 24
[com]
min = 2
max = 1
";

const SEVENTEEN: &str = "stage = 17
[[method]]
letter = \"A\"
notation = \"x14x14,12\"
[query]
min = 1
max = 24
";

const DEEP: &str = "stage = 8
[[method]]
letter = \"A\"
notation = \"x\"
[query]
min = 1
max = 1025
";

const ODD: &str = "stage = 5
[[method]]
letter = \"A\"
notation = \"x14\"
[query]
min = 1
max = 24
";

const DOUBLES: &str = "stage = 5
[[method]]
letter = \"A\"
notation = \"5.1.5.1.5,125\"
[[call]]
mark = \"b\"
notation = \"145\"
[query]
min = 1
max = 120
";

const DONE: &str = "24 ppp\ntouches 1\n";

const SUMMARY: &str = "plain bob minor 1 to 72\ntouches 9\nlongest 72\n36 2\n60 1\n72 6\n";

const WORDS: &[(&[&str], Ending<'static>)] = &[
    (&[], (0, DONE, "")),
    (&["--do", "search"], (0, DONE, "")),
    (&["--workers=64", "--do=search"], (0, DONE, "")),
    (&["--turns", "4"], (0, DONE, "")),
    (&["--do", "make"], (0, SUMMARY, "")),
    (&["--do", "make", "--number", "7"], (0, SUMMARY, "")),
    (
        &["--workers", "0"],
        (2, "", "ringsearch: words 2 Workers\n"),
    ),
    (
        &["--workers", "65"],
        (2, "", "ringsearch: words 2 Workers\n"),
    ),
    (&["--turns="], (2, "", "ringsearch: words 3 Turns\n")),
    (
        &["--number", "4294967296"],
        (2, "", "ringsearch: words 4 Number\n"),
    ),
    (&["--do", "find"], (2, "", "ringsearch: words 5 Mode\n")),
    (
        &["--do", "make", "--turns", "5"],
        (2, "", "ringsearch: words 6 Mixed\n"),
    ),
    (&["--number", "1"], (2, "", "ringsearch: words 6 Mixed\n")),
    (&["--bells"], (2, "", "ringsearch: words 1 Line\n")),
    (&["--workers"], (2, "", "ringsearch: words 1 Line\n")),
    (&["--help"], (2, "", "ringsearch: words 1 Line\n")),
    (
        &["--do", "search", ""],
        (2, "", "ringsearch: words 1 Line\n"),
    ),
];

#[test]
fn words(rt: HostRuntime) -> Result<(), Fail> {
    for &(words, ending) in WORDS {
        check("words", ends(&rt, words, MINIMUS.as_bytes(), ending)?)?;
    }
    Ok(())
}

const CALLS: &[Call] = &[
    (
        "limits the wrong way round",
        TURNED_COM,
        (0, 0, 0),
        (4, "", "ringsearch: problem 17 Com\n"),
    ),
    (
        "no TOML",
        "stage =",
        (0, 0, 0),
        (4, "", "ringsearch: problem 1 NotToml\n"),
    ),
    (
        "nothing",
        "",
        (0, 0, 0),
        (4, "", "ringsearch: problem 2 Key stage\n"),
    ),
    (
        "too deep",
        DEEP,
        (0, 0, 0),
        (4, "", "ringsearch: problem 12 Deep 1025\n"),
    ),
    (
        "odd",
        ODD,
        (0, 0, 0),
        (
            4,
            "",
            "ringsearch: problem 5 Notation method 0 CrossOnOdd 0\n",
        ),
    ),
    (
        "the first read fails",
        MINIMUS,
        (1, 0, 0),
        (6, "", "ringsearch: read failed\n"),
    ),
    (
        "the second read fails",
        MINIMUS,
        (2, 0, 0),
        (6, "", "ringsearch: read failed\n"),
    ),
    (
        "the first write fails",
        MINIMUS,
        (0, 1, 0),
        (7, "", "ringsearch: write failed\n"),
    ),
    (
        "the second write fails",
        MINIMUS,
        (0, 2, 0),
        (7, "24 ppp\ntouches 1", "ringsearch: write failed\n"),
    ),
    (
        "the second read of more fails",
        DOUBLES,
        (2, 0, 0),
        (6, "", "ringsearch: read failed\n"),
    ),
    (
        "the third write of more fails",
        DOUBLES,
        (0, 3, 0),
        (
            7,
            "20 bb\n40 pppp\n60 pbpbpb\n100 ppbp",
            "ringsearch: write failed\n",
        ),
    ),
    ("notes fail at once", SEVENTEEN, (0, 0, 1), (4, "", "")),
    ("the note fails too", MINIMUS, (1, 0, 1), (6, "", "")),
    (
        "the note's number fails",
        DEEP,
        (0, 0, 4),
        (4, "", "ringsearch: problem 12 Deep "),
    ),
];

#[test]
fn inputs_and_faults(rt: HostRuntime) -> Result<(), Fail> {
    for &(name, input, faults, ending) in CALLS {
        check(
            name,
            ends_with(&rt, &[], input.as_bytes(), 50, faults, ending)?,
        )?;
    }
    Ok(())
}
