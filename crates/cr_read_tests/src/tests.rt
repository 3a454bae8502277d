use cr_model::{Cell, Count, MethodCount, Pattern, Problem, ProblemFault, Query};
use cr_read::read_problem;
use cr_row::{Change, symbol};
use std::alloc::{AllocError, Global};
use std::test::*;

const STAGE: &str = "stage = 5\n";

const METHOD: &str = "[[method]]\nletter = \"A\"\nnotation = \"5.1.5.1.5,125\"\n";

const GRANDSIRE: &str = "[[method]]\nletter = \"B\"\nnotation = \"3,1.5.1.5.1\"\n";

const CALL: &str = "[[call]]\nmark = \"b\"\nnotation = \"145\"\n";

const QUERY: &str = "[query]\nmin = 1\nmax = 120\n";

const MINIMUS: &str =
    "stage = 4\n[[method]]\nletter = \"A\"\nnotation = \"x14x14,12\"\n[query]\nmin = 1\nmax = 24\n";

// Plain Bob Doubles with bobs, and that with all limits.
const BOBS: &str = "Ap 5.1.5.1.5.1.5.1.5.125 Ab 5.1.5.1.5.1.5.1.5.145 1 120 1";

const COUNTED: &str =
    "Ap 5.1.5.1.5.1.5.1.5.125 Ab 5.1.5.1.5.1.5.1.5.145 1 120 1 b 0 12000 A 1 12000 *45 0 3 14?53 0 12000 com 0 12000";

// The pieces of a file, one after another.
fn joined(alloc: Global, pieces: &[&str]) -> Result<String, AllocError> {
    let mut text = String::new(alloc);
    for piece in pieces {
        text.push_str(*piece)?;
    }
    Ok(text)
}

// The same piece again and again, each with another letter.
fn lettered(alloc: Global, letters: &str, before: &str, after: &str) -> Result<String, AllocError> {
    let mut text = String::new(alloc);
    for letter in letters.chars() {
        text.push_str(before)?;
        text.push(letter)?;
        text.push_str(after)?;
    }
    Ok(text)
}

// The places of each change, or x, with dots between.
fn push_changes(text: &mut String, changes: &[Change]) -> Result<(), AllocError> {
    let mut dot = "";
    for change in changes {
        text.push_str(dot)?;
        dot = ".";
        let start = text.len();
        for place in 1..change.stage().number() + 1 {
            if change.makes(place) {
                text.push(char::from(symbol(place)))?;
            }
        }
        if text.len() == start {
            text.push('x')?;
        }
    }
    Ok(())
}

// The cells, each bell as its number.
fn push_cells(alloc: Global, text: &mut String, cells: &[Cell]) -> Result<(), AllocError> {
    for cell in cells {
        match cell {
            Cell::Bell(bell) => text.push_str(format!(in alloc; "{bell}")?.as_str())?,
            Cell::Any => text.push('?')?,
            Cell::Run => text.push('*')?,
        }
    }
    Ok(())
}

// Two limits, with a space before each.
fn push_limits(alloc: Global, text: &mut String, min: i64, max: i64) -> Result<(), AllocError> {
    text.push_str(format!(in alloc; " {min} {max}")?.as_str())
}

// The letter, the mark and the changes of each lead.
fn push_leads(text: &mut String, problem: &Problem) -> Result<(), AllocError> {
    for lead in problem.leads() {
        match problem.letters().get(usize::from(lead.step.method)) {
            Some(letter) => text.push(char::from(*letter))?,
            None => text.push('?')?,
        }
        text.push(char::from(lead.step.mark))?;
        text.push(' ')?;
        push_changes(text, &lead.changes)?;
        text.push(' ')?;
    }
    Ok(())
}

// The lengths and the parts, then each count, method count and pattern, then the limits on changes of method.
fn push_query(alloc: Global, text: &mut String, query: &Query) -> Result<(), AllocError> {
    text.push_str(format!(in alloc; "{} {} {}", query.min, query.max, query.parts)?.as_str())?;
    push_counts(alloc, text, &query.counts)?;
    push_method_counts(alloc, text, &query.method_counts)?;
    push_patterns(alloc, text, &query.patterns)?;
    if let Some(limits) = &query.com {
        text.push_str(" com")?;
        push_limits(alloc, text, limits.min, limits.max)?;
    }
    Ok(())
}

fn push_counts(alloc: Global, text: &mut String, counts: &[Count]) -> Result<(), AllocError> {
    for count in counts {
        text.push(' ')?;
        text.push(char::from(count.mark))?;
        push_limits(alloc, text, count.min, count.max)?;
    }
    Ok(())
}

fn push_method_counts(
    alloc: Global,
    text: &mut String,
    counts: &[MethodCount],
) -> Result<(), AllocError> {
    for count in counts {
        text.push(' ')?;
        text.push(char::from(count.letter))?;
        push_limits(alloc, text, count.min, count.max)?;
    }
    Ok(())
}

fn push_patterns(alloc: Global, text: &mut String, patterns: &[Pattern]) -> Result<(), AllocError> {
    for pattern in patterns {
        text.push(' ')?;
        push_cells(alloc, text, &pattern.cells)?;
        push_limits(alloc, text, pattern.min, pattern.max)?;
    }
    Ok(())
}

// All of a problem but its stage.
fn shown(alloc: Global, problem: &Problem) -> Result<String, AllocError> {
    let mut text = String::new(alloc);
    push_leads(&mut text, problem)?;
    push_query(alloc, &mut text, problem.query())?;
    Ok(text)
}

// What a file is read as: its problem, or its fault.
fn told(alloc: Global, bytes: &[u8]) -> Result<String, AllocError> {
    match read_problem(alloc, bytes) {
        Ok(problem) => shown(alloc, &problem),
        Err(ProblemFault::Key(path)) => match std::str::from_utf8(path.bytes.as_slice()) {
            Ok(path) => format!(in alloc; "Key({path})"),
            Err(_) => format!(in alloc; "Key"),
        },
        Err(why) => format!(in alloc; "{why:?}"),
    }
}

// A file in pieces, which are a stage, methods, calls and the rest, and what it is read as.
type File = ([&'static str; 4], &'static str);

const FILES: &[File] = &[
    ([STAGE, METHOD, CALL, QUERY], BOBS),
    (["stage =\n", METHOD, CALL, QUERY], "NotToml"),
    ([STAGE, METHOD, CALL, ""], "Key(query)"),
    (
        ["speed = 1\nstage = 5\n", METHOD, CALL, QUERY],
        "Key(speed)",
    ),
    (["stage = 17\n", METHOD, CALL, QUERY], "Stage(17)"),
    (
        [
            STAGE,
            "[[method]]\nletter = \"a\"\nnotation = \"5\"\n",
            CALL,
            QUERY,
        ],
        "Letter(0)",
    ),
    (
        [
            STAGE,
            "[[method]]\nletter = \"A\"\nnotation = \"x\"\n",
            CALL,
            QUERY,
        ],
        "Notation(Method(0), CrossOnOdd(0))",
    ),
    (
        [
            STAGE,
            METHOD,
            "[[call]]\nmark = \"p\"\nnotation = \"145\"\n",
            QUERY,
        ],
        "Mark(0)",
    ),
    (
        [
            STAGE,
            "[[method]]\nletter = \"A\"\nnotation = \"5\"\n",
            "[[call]]\nmark = \"b\"\nnotation = \"5.145\"\n",
            QUERY,
        ],
        "CallLength(0, 0)",
    ),
    (
        [
            STAGE,
            METHOD,
            "[[call]]\nmark = \"b\"\nnotation = \"145\"\n[[call]]\nmark = \"b\"\nnotation = \"145\"\n",
            QUERY,
        ],
        "Clash(0, 1)",
    ),
    (
        [STAGE, METHOD, CALL, "[query]\nmin = 0\nmax = 120\n"],
        "Range(0, 120)",
    ),
    (
        [
            "stage = 8\n",
            "[[method]]\nletter = \"A\"\nnotation = \"x\"\n",
            "[[call]]\nmark = \"b\"\nnotation = \"18\"\n",
            "[query]\nmin = 1\nmax = 1025\n",
        ],
        "Deep(1025)",
    ),
    (
        [
            STAGE,
            METHOD,
            CALL,
            "[query]\nmin = 1\nmax = 120\nparts = 0\n",
        ],
        "Parts(0)",
    ),
    (
        [
            STAGE,
            METHOD,
            CALL,
            "[query]\nmin = 1\nmax = 120\n[[count]]\nmark = \"z\"\n",
        ],
        "Count(Mark(0))",
    ),
    (
        [
            STAGE,
            METHOD,
            CALL,
            "[query]\nmin = 1\nmax = 120\n[[rows]]\npattern = \"1425\"\n",
        ],
        "Pattern(0)",
    ),
    (
        [
            STAGE,
            METHOD,
            "[[call]]\nmark = \"b\"\nnotation = \"145\"\nover = 129\n",
            QUERY,
        ],
        "Over(0)",
    ),
    (
        [
            STAGE,
            METHOD,
            "[[call]]\nmark = \"b\"\nnotation = \"145\"\nover = 11\n",
            QUERY,
        ],
        "CallLength(0, 0)",
    ),
    (
        [
            STAGE,
            METHOD,
            CALL,
            "[query]\nmin = 1\nmax = 120\n[com]\nmin = 2\nmax = 1\n",
        ],
        "Com",
    ),
    (
        [
            STAGE,
            "[[method]]\nletter = \"AB\"\nnotation = \"5\"\n",
            CALL,
            QUERY,
        ],
        "Letter(0)",
    ),
    (
        [
            STAGE,
            METHOD,
            "[[call]]\nmark = \"b\"\nnotation = \"145\"\nmethods = \"\"\n",
            QUERY,
        ],
        "Key(call[0].methods)",
    ),
    (
        [
            STAGE,
            METHOD,
            "[[call]]\nmark = \"b\"\nnotation = \"145\"\nmethods = \"AA\"\n",
            QUERY,
        ],
        "Key(call[0].methods)",
    ),
    (
        [
            STAGE,
            METHOD,
            "[[call]]\nmark = \"b\"\nnotation = \"145\"\nmethods = \"Z\"\n",
            QUERY,
        ],
        "Key(call[0].methods)",
    ),
    (["stage = 5\nmethod = []\n", "", "", QUERY], "Key(method)"),
    (["stage = 5\nmethod = 3\n", "", "", QUERY], "Key(method)"),
    (["stage = 5\nmethod = [3]\n", "", "", QUERY], "Key(method)"),
    (["stage = 5.0\n", METHOD, CALL, QUERY], "Key(stage)"),
    (
        ["stage = -9223372036854775808\n", METHOD, CALL, QUERY],
        "Stage(-9223372036854775808)",
    ),
    (
        ["stage = 9223372036854775807\n", METHOD, CALL, QUERY],
        "Stage(9223372036854775807)",
    ),
    (
        ["stage = 9223372036854775808\n", METHOD, CALL, QUERY],
        "NotToml",
    ),
];

#[test]
fn files(rt: HostRuntime) -> Result<(), Fail> {
    check_files(rt.alloc(), FILES)
}

// Ok where each file reads as it should, and else what is wanted of the first that doesn't.
fn check_files(alloc: Global, files: &[File]) -> Result<(), Fail> {
    for (pieces, wanted) in files {
        if !reads_as(alloc, pieces, wanted)? {
            return Err(Fail::from(*wanted));
        }
    }
    Ok(())
}

// Whether a file, in pieces, reads as this.
fn reads_as(alloc: Global, pieces: &[&str], wanted: &str) -> Result<bool, Fail> {
    let text = joined(alloc, pieces)?;
    let found = told(alloc, text.as_bytes())?;
    Ok(found.as_str() == wanted)
}

// Files that need no table of their own.
const MORE: &[File] = &[
    (["query = []\nstage = 5\n", METHOD, CALL, ""], "Key(query)"),
    (
        ["zeal = 1\nspeed = 1\nstage = 5\n", METHOD, CALL, QUERY],
        "Key(speed)",
    ),
    (
        [
            STAGE,
            "[[method]]\nletter = \"A\"\nnotation = \"5\"\n[[method]]\nletter = \"B\"\nnotation = \"5\"\nbells = 5\n[[method]]\nletter = \"C\"\n",
            CALL,
            QUERY,
        ],
        "Key(method[1].bells)",
    ),
    (
        [
            STAGE,
            METHOD,
            "[[call]]\nmark = 1979-05-27\nnotation = \"145\"\n",
            QUERY,
        ],
        "Key(call[0].mark)",
    ),
    (
        [
            STAGE,
            METHOD,
            "[[call]]\nmark = {}\nnotation = \"145\"\n",
            QUERY,
        ],
        "Key(call[0].mark)",
    ),
    (
        [
            STAGE,
            METHOD,
            CALL,
            "[query]\nmin = 1\nmax = 120\ncalm = 1\nangle = 2\n",
        ],
        "Key(query.angle)",
    ),
    (
        [STAGE, METHOD, CALL, "[query]\nmin = true\nmax = 120\n"],
        "Key(query.min)",
    ),
    (
        ["speed = 1\nstage = 5\n", METHOD, CALL, "[query]\nmin = 1\n"],
        "Key(query.max)",
    ),
    (
        [
            "query.min = 1\nquery.max = 120\nstage = 5\n",
            METHOD,
            CALL,
            "",
        ],
        BOBS,
    ),
    (
        [
            "query = { min = 1, max = 120 }\nstage = 5\n",
            METHOD,
            CALL,
            "",
        ],
        BOBS,
    ),
    (
        [
            "method = [{ letter = \"A\", notation = \"5.1.5.1.5,125\" }]\nstage = 5\n",
            "",
            CALL,
            QUERY,
        ],
        BOBS,
    ),
    (["", "", "", ""], "Key(stage)"),
    (
        [
            "stage = 5\r\n",
            METHOD,
            CALL,
            "[query]\r\nmin = 1\r\nmax = 120\r\n",
        ],
        BOBS,
    ),
    (["stage = 5\u{0}\n", METHOD, CALL, QUERY], "NotToml"),
    ([MINIMUS, "", "", ""], "Ap x.14.x.14.x.14.x.12 1 24 1"),
    (
        [
            STAGE,
            "[[method]]\nletter = \"A\"\nname = \"Grandsire Doubles\"\nnotation = \"3,1.5.1.5.1\"\n",
            "",
            "[query]\nmin = 1\nmax = 30\n",
        ],
        "Ap 3.1.5.1.5.1.5.1.5.1 1 30 1",
    ),
    (
        [
            MINIMUS,
            "[[call]]\nmark = \"e\"\nnotation = \"14\"\nover = 5\n",
            "",
            "",
        ],
        "Ap x.14.x.14.x.14.x.12 Ae x.14.x.14 1 24 1",
    ),
    (
        [
            STAGE,
            METHOD,
            GRANDSIRE,
            "[[call]]\nmark = \"s\"\nnotation = \"3.123\"\nmethods = \"B\"\n[[call]]\nmark = \"b\"\nnotation = \"145\"\nmethods = \"A\"\n[[call]]\nmark = \"b\"\nnotation = \"3.1\"\nmethods = \"B\"\n[query]\nmin = 1\nmax = 120\nparts = 2\n",
        ],
        "Ap 5.1.5.1.5.1.5.1.5.125 Ab 5.1.5.1.5.1.5.1.5.145 Bp 3.1.5.1.5.1.5.1.5.1 Bb 3.1.5.1.5.1.5.1.3.1 Bs 3.1.5.1.5.1.5.1.3.123 1 120 2",
    ),
    (
        [
            STAGE,
            METHOD,
            GRANDSIRE,
            "[[call]]\nmark = \"z\"\nnotation = \"145\"\n[[call]]\nmark = \"a\"\nnotation = \"145\"\nover = 0\n[query]\nmin = 1\nmax = 120\n",
        ],
        "Ap 5.1.5.1.5.1.5.1.5.125 Aa 5.1.5.1.5.1.5.1.5.125.145 Az 5.1.5.1.5.1.5.1.5.145 Bp 3.1.5.1.5.1.5.1.5.1 Ba 3.1.5.1.5.1.5.1.5.1.145 Bz 3.1.5.1.5.1.5.1.5.145 1 120 1",
    ),
    (
        [
            STAGE,
            METHOD,
            CALL,
            "[query]\nmin = 1\nmax = 120\n[[count]]\nmark = \"b\"\n[[leads]]\nletter = \"A\"\nmin = 1\n[[rows]]\npattern = \"*45\"\nmax = 3\n[[rows]]\npattern = \"14?53\"\n[com]\n",
        ],
        COUNTED,
    ),
    (
        [
            STAGE,
            METHOD,
            CALL,
            "[query]\nmin = 1\nmax = 120\n[[leads]]\nletter = \"AA\"\n",
        ],
        "Count(Method(0))",
    ),
    (
        [
            STAGE,
            METHOD,
            CALL,
            "[query]\nmin = 1\nmax = 120\n[[rows]]\npattern = \"1*\"\n[[rows]]\npattern = \"1x*\"\n",
        ],
        "Pattern(1)",
    ),
];

#[test]
fn more_files(rt: HostRuntime) -> Result<(), Fail> {
    check_files(rt.alloc(), MORE)
}

// A file with a method for each letter and a call for each mark.
fn lettered_file(alloc: Global, letters: &str, marks: &str) -> Result<String, AllocError> {
    let methods = lettered(
        alloc,
        letters,
        "[[method]]\nnotation = \"5.1.5.1.5,125\"\nletter = \"",
        "\"\n",
    )?;
    let calls = lettered(
        alloc,
        marks,
        "[[call]]\nnotation = \"145\"\nmark = \"",
        "\"\n",
    )?;
    joined(alloc, &[STAGE, methods.as_str(), calls.as_str(), QUERY])
}

// Whether such a file is read as this.
fn lettered_reads_as(
    alloc: Global,
    letters: &str,
    marks: &str,
    wanted: &str,
) -> Result<bool, AllocError> {
    let text = lettered_file(alloc, letters, marks)?;
    let found = told(alloc, text.as_bytes())?;
    Ok(found.as_str() == wanted)
}

// Letters and marks: eight methods with three calls, nine methods, and twenty-four calls.
const LETTERED: &[(&str, &str, &str)] = &[
    ("ABCDEFGH", "bcd", "Steps(32)"),
    ("ABCDEFGHI", "b", "Key(method)"),
    ("A", "abcdefghijklmnoqrstuvwxy", "Key(call)"),
];

#[test]
fn many(rt: HostRuntime) -> Result<(), Fail> {
    for (letters, marks, wanted) in LETTERED {
        if !lettered_reads_as(rt.alloc(), letters, marks, wanted)? {
            return Err(Fail::from(*wanted));
        }
    }
    Ok(())
}

// Bytes that are no text.
#[test]
fn no_text(rt: HostRuntime) -> Result<(), Fail> {
    let found = told(rt.alloc(), b"stage = 5 # \x80\n")?;
    assert_eq!(rt; found.as_str(), "NotToml");
    Ok(())
}
