//! Texts that are read and written again, those that are refused, and boards that are written.

ghost use Rattle.std.specs.Prelude.{◌≡◌, IfOk, OnOk};
ghost use Rattle.cr_model.specs.ProblemFiles.{ProblemFile};

use cr_board::{Board, Opening};
use cr_store::{
    CheckFault, Checkpoint, read_checkpoint, read_checkpoint_by, remaining_of, write_checkpoint,
    write_parts,
};
use std::alloc::Global;
use std::test::Fail;
use std::thread::Threads;

/// Plain Bob Doubles, of 124 bytes.
pub const DOUBLES: &str =
    "stage = 5\n[[method]]\nletter = \"A\"\nnotation = \"5.1.5.1.5,125\"\n[[call]]\nmark = \"b\"\nnotation = \"145\"\n[query]\nmin = 1\nmax = 120\n";

// The same, of which touches have two parts: 134 bytes.
const PARTS: &str =
    "stage = 5\n[[method]]\nletter = \"A\"\nnotation = \"5.1.5.1.5,125\"\n[[call]]\nmark = \"b\"\nnotation = \"145\"\n[query]\nmin = 1\nmax = 120\nparts = 2\n";

/// The text of a checkpoint from its version, its problem, whose length is told, and its last lines.
pub fn text_of(
    alloc: Global,
    version: &str,
    length: &str,
    problem: &str,
    lines: &str,
) -> Result<Vec<u8>, Fail> {
    let mut text = Vec::new(alloc);
    for piece in [
        "ringsearch checkpoint ",
        version,
        "\nproblem ",
        length,
        "\n",
        problem,
        "\n",
        lines,
    ] {
        text.extend_from_slice(piece.as_bytes())?;
    }
    Ok(text)
}

/// The number of a fault, and its lines.
pub type Told = (u8, u64, u64);

fn told(fault: CheckFault) -> Told {
    match fault {
        CheckFault::Form(line) => (1, line, 0),
        CheckFault::Problem(_) => (2, 0, 0),
        CheckFault::Calling(line) => (3, line, 0),
        CheckFault::NodeLong(line) => (4, line, 0),
        CheckFault::NotKept(line) => (5, line, 0),
        CheckFault::FoundOrder(line) => (6, line, 0),
        CheckFault::Overlap(line, other) => (7, line, other),
        CheckFault::NoMemory => (8, 0, 0),
    }
}

/// Why a text is no checkpoint, if it is none.
pub fn fault_of(alloc: Global, text: &[u8]) -> Option<Told> {
    match read_checkpoint(alloc, text) {
        Ok(_) => None,
        Err(fault) => Some(told(fault)),
    }
}

// Reads a text and writes it again.
fn written_again(alloc: Global, text: &[u8]) -> Result<Vec<u8>, CheckFault> {
    let Checkpoint {
        problem_bytes,
        problem,
        found,
        jobs,
    } = read_checkpoint(alloc, text)?;
    let text = write_parts(alloc, &problem, &problem_bytes, &found, &jobs)?;
    Ok(text)
}

// A name, the last lines in version 1 and in version 2, and the last lines that are written then, or the fault.
type Case = (
    &'static str,
    &'static str,
    &'static str,
    Result<&'static str, Told>,
);

const CASES: &[Case] = &[
    (
        "the root",
        "found 0\njobs 1\njob 1\n-\nend\n",
        "found 0\njobs 1\njob 1\n0 -\nend\n",
        Ok("found 0\njobs 1\njob 1\n0 -\nend\n"),
    ),
    (
        "two jobs",
        "found 0\njobs 2\njob 1\nb\njob 1\np\nend\n",
        "found 0\njobs 2\njob 1\n0 b\njob 1\n0 p\nend\n",
        Ok("found 0\njobs 2\njob 1\n0 b\njob 1\n0 p\nend\n"),
    ),
    (
        "one job",
        "found 0\njobs 1\njob 2\nb\np\nend\n",
        "found 0\njobs 1\njob 2\n0 b\n0 p\nend\n",
        Ok("found 0\njobs 1\njob 2\n0 b\n0 p\nend\n"),
    ),
    (
        "a job that shares",
        "found 0\njobs 2\njob 1\nb\njob 2\npb\npp\nend\n",
        "found 0\njobs 2\njob 1\n0 b\njob 2\n0 pb\n1 p\nend\n",
        Ok("found 0\njobs 2\njob 1\n0 b\njob 2\n0 pb\n1 p\nend\n"),
    ),
    (
        "a node below another",
        "found 0\njobs 1\njob 2\np\npb\nend\n",
        "found 0\njobs 1\njob 2\n0 p\n1 b\nend\n",
        Err((7, 17, 18)),
    ),
    (
        "a touch that is not kept",
        "found 1\n60 bpbpbp\njobs 1\njob 1\n-\nend\n",
        "found 1\n60 bpbpbp\njobs 1\njob 1\n0 -\nend\n",
        Err((5, 15, 0)),
    ),
    (
        "an end that is missing",
        "found 0\njobs 1\njob 1\n-\n",
        "found 0\njobs 1\njob 1\n0 -\n",
        Err((1, 18, 0)),
    ),
    (
        "a branch removed",
        "found 0\njobs 1\njob 1\np\nend\n",
        "found 0\njobs 1\njob 1\n0 p\nend\n",
        Ok("found 0\njobs 1\njob 1\n0 p\nend\n"),
    ),
    (
        "a node above a touch",
        "found 1\n20 bb\njobs 1\njob 1\nb\nend\n",
        "found 1\n20 bb\njobs 1\njob 1\n0 b\nend\n",
        Err((7, 15, 18)),
    ),
    (
        "touches in another order",
        "found 2\n40 pppp\n20 bb\njobs 0\nend\n",
        "found 2\n40 pppp\n20 bb\njobs 0\nend\n",
        Err((6, 16, 0)),
    ),
    (
        "a touch twice",
        "found 2\n20 bb\n20 bb\njobs 0\nend\n",
        "found 2\n20 bb\n20 bb\njobs 0\nend\n",
        Err((6, 16, 0)),
    ),
    (
        "another length",
        "found 1\n30 bb\njobs 0\nend\n",
        "found 1\n30 bb\njobs 0\nend\n",
        Err((3, 15, 0)),
    ),
    (
        "a long node",
        "found 0\njobs 1\njob 1\nppppppppppppp\nend\n",
        "found 0\njobs 1\njob 1\n0 ppppppppppppp\nend\n",
        Err((4, 17, 0)),
    ),
    (
        "a touch alone",
        "found 1\n20 bb\njobs 0\nend\n",
        "found 1\n20 bb\njobs 0\nend\n",
        Ok("found 1\n20 bb\njobs 0\nend\n"),
    ),
    (
        "a node in two jobs",
        "found 0\njobs 2\njob 1\np\njob 1\np\nend\n",
        "found 0\njobs 2\njob 1\n0 p\njob 1\n1 -\nend\n",
        Err((7, 17, 19)),
    ),
    (
        "touches before nodes",
        "found 1\n20 bs\njobs 1\njob 1\ns\nend\n",
        "found 1\n20 bs\njobs 1\njob 1\n1 s\nend\n",
        Err((3, 15, 0)),
    ),
];

// Last lines of version 2 alone.
const SHARES: &[(&str, &str, Told)] = &[
    (
        "a first node that shares",
        "found 0\njobs 1\njob 1\n1 b\nend\n",
        (3, 17, 0),
    ),
    (
        "a share that is not the longest",
        "found 0\njobs 1\njob 2\n0 pb\n0 pp\nend\n",
        (3, 18, 0),
    ),
    (
        "a share that the node before has not",
        "found 0\njobs 1\njob 2\n0 p\n2 b\nend\n",
        (3, 18, 0),
    ),
    (
        "a share beyond a job",
        "found 0\njobs 2\njob 1\n0 pb\njob 1\n0 pp\nend\n",
        (3, 19, 0),
    ),
    (
        "an overlap",
        "found 0\njobs 1\njob 2\n0 p\n1 b\nend\n",
        (7, 17, 18),
    ),
];

// Whether last lines are read as they are to be.
fn is_as_wanted(
    alloc: Global,
    version: &str,
    lines: &str,
    want: Result<&str, Told>,
) -> Result<bool, Fail> {
    let text = text_of(alloc, version, "124", DOUBLES, lines)?;
    match (written_again(alloc, &text), want) {
        (Ok(again), Ok(lines)) => {
            let written = text_of(alloc, "2", "124", DOUBLES, lines)?;
            Ok(again.as_slice() == written.as_slice())
        }
        (Err(fault), Err(want)) => Ok(told(fault) == want),
        _ => Ok(false),
    }
}

#[test]
fn checkpoints_are_read(rt: HostRuntime) -> Result<(), Fail> {
    let alloc = rt.alloc();
    for &(name, first, second, want) in CASES {
        if !is_as_wanted(alloc, "1", first, want)? || !is_as_wanted(alloc, "2", second, want)? {
            return Err(Fail::from(name));
        }
    }
    for &(name, lines, want) in SHARES {
        if !is_as_wanted(alloc, "2", lines, Err(want))? {
            return Err(Fail::from(name));
        }
    }
    Ok(())
}

// Last lines of version 2, and the number of bytes of the checkpoint.
const LENGTHS: &[(&str, usize)] = &[
    ("found 0\njobs 1\njob 1\n0 -\nend\n", 190),
    ("found 0\njobs 1\njob 2\n0 b\n0 p\nend\n", 194),
    ("found 0\njobs 2\njob 1\n0 b\njob 1\n0 p\nend\n", 200),
    ("found 0\njobs 2\njob 1\n0 b\njob 2\n0 pb\n1 p\nend\n", 205),
];

// The number of the problem's bytes, the problem, the last lines of version 2, and the fault, if there is one.
type Other = (&'static str, &'static str, &'static str, Option<Told>);

const OTHERS: &[Other] = &[
    ("0", "", "found 0\njobs 0\nend\n", Some((2, 0, 0))),
    ("9", "stage = 5", "found 0\njobs 0\nend\n", Some((2, 0, 0))),
    ("125", DOUBLES, "found 0\njobs 0\nend\n", Some((1, 14, 0))),
    ("134", PARTS, "found 1\n40 pppp\njobs 0\nend\n", None),
    (
        "134",
        PARTS,
        "found 1\n50 ppppp\njobs 0\nend\n",
        Some((3, 16, 0)),
    ),
    (
        "134",
        PARTS,
        "found 1\n20 bp\njobs 0\nend\n",
        Some((3, 16, 0)),
    ),
];

#[test]
fn other_problems(rt: HostRuntime) -> Result<(), Fail> {
    let alloc = rt.alloc();
    for &(lines, want) in LENGTHS {
        assert_eq!(rt; text_of(alloc, "2", "124", DOUBLES, lines)?.len(), want);
    }
    for &(length, problem, lines, want) in OTHERS {
        let text = text_of(alloc, "2", length, problem, lines)?;
        if fault_of(alloc, &text) != want {
            return Err(Fail::from(lines));
        }
    }
    Ok(())
}

// The last lines of a job of nodes of so many plain leads, each with what comes before it.
fn plain_nodes(alloc: Global, nodes: &[(&str, usize)]) -> Result<String, Fail> {
    let mut lines = String::new(alloc);
    lines.push_str("found 0\njobs 1\njob ")?;
    lines.push_str(if nodes.len() == 1 { "1\n" } else { "2\n" })?;
    for (before, leads) in nodes {
        lines.push_str(*before)?;
        for _lead in 0..*leads {
            lines.push('p')?;
        }
        lines.push('\n')?;
    }
    lines.push_str("end\n")?;
    Ok(lines)
}

// A node of 1,025 leads is no node, in whatever lines it stands; one of 1,024 is a long node.
const LONG: &[(&str, &[(&str, usize)], Told)] = &[
    ("1", &[("", 1024)], (4, 17, 0)),
    ("1", &[("", 1025)], (3, 17, 0)),
    ("2", &[("0 ", 1025)], (3, 17, 0)),
    ("2", &[("0 ", 600), ("600 ", 424)], (4, 17, 0)),
    ("2", &[("0 ", 600), ("600 ", 425)], (3, 18, 0)),
];

#[test]
fn long_nodes(rt: HostRuntime) -> Result<(), Fail> {
    let alloc = rt.alloc();
    for &(version, nodes, want) in LONG {
        let lines = plain_nodes(alloc, nodes)?;
        if !is_as_wanted(alloc, version, &lines, Err(want))? {
            return Err(Fail::from(version));
        }
    }
    Ok(())
}

// Plain Bob Minor, of 122 bytes.
const MINOR: &str =
    "stage = 6\n[[method]]\nletter = \"A\"\nnotation = \"x16x16x16,12\"\n[[call]]\nmark = \"b\"\nnotation = \"14\"\n[query]\nmin = 1\nmax = 720\n";

// The line of a node of eleven leads, plain or with a bob, which are numbered in their order. The one before it has its
// bits but for the last one, and those below that.
fn push_node(lines: &mut String, number: u32) -> Result<(), Fail> {
    let plain = number.trailing_zeros().min(11);
    if plain == 11 {
        lines.push_str("0 ")?;
    } else {
        lines.push_str(SHARED[10 - plain as usize])?;
        lines.push_str(" b")?;
    }
    for _lead in 0..plain {
        lines.push('p')?;
    }
    lines.push('\n')?;
    Ok(())
}

const SHARED: [&str; 11] = ["0", "1", "2", "3", "4", "5", "6", "7", "8", "9", "10"];

#[test]
fn many_nodes(rt: HostRuntime) -> Result<(), Fail> {
    let alloc = rt.alloc();
    let mut lines = String::new(alloc);
    lines.push_str("found 0\njobs 4\n")?;
    for number in 0..2048 {
        if number % 512 == 0 {
            lines.push_str("job 512\n")?;
        }
        push_node(&mut lines, number)?;
    }
    lines.push_str("end\n")?;
    let text = text_of(alloc, "2", "122", MINOR, &lines)?;
    match written_again(alloc, &text) {
        Ok(again) => assert!(rt; again.as_slice() == text.as_slice()),
        Err(_) => return Err(Fail::from("the nodes are read")),
    }
    Ok(())
}

const LANES: &str = "found 1\n20 bb\njobs 2\njob 1\n0 p\njob 1\n0 bp\nend\n";

const HELD: &str = "found 1\n20 bb\njobs 2\njob 1\n0 bp\njob 1\n0 p\nend\n";

// A board of two workers, opened from a text, and the bytes of its problem.
fn opened(alloc: Global, text: &[u8]) -> Result<(Vec<u8>, Board), Fail>
    ensures { IfOk result (λ both. ProblemFile both.0.items both.1.opening.problem) }
{
    let Ok(checkpoint) = read_checkpoint(alloc, text) else {
        return Err(Fail::from("the text is read"));
    };
    let Checkpoint {
        problem_bytes,
        problem,
        found,
        jobs,
    } = checkpoint;
    let board = Board::open(alloc, Opening::new(problem, found, jobs, None, 2))?;
    Ok((problem_bytes, board))
}

// A worker takes its next job.
fn take(alloc: Global, board: &mut Board, worker: u32) -> Result<(), Fail>
    ensures { OnOk result (board.new.opening ≡ board.old.opening) }
{
    board.next_job(alloc, worker)?;
    Ok(())
}

// The last job of its lane goes to the first worker, and the other one to the second.
#[test]
fn boards_are_written(rt: HostRuntime) -> Result<(), Fail> {
    let alloc = rt.alloc();
    let text = text_of(alloc, "2", "124", DOUBLES, LANES)?;
    let (bytes, mut board) = opened(alloc, &text)?;
    let first = write_checkpoint(alloc, &bytes, &board)?;
    assert!(rt; first.as_slice() == text.as_slice());
    take(alloc, &mut board, 0)?;
    take(alloc, &mut board, 1)?;
    let held = write_checkpoint(alloc, &bytes, &board)?;
    assert!(rt; held.as_slice() == text_of(alloc, "2", "124", DOUBLES, HELD)?.as_slice());
    let left = remaining_of(alloc, board)?;
    assert!(rt; left.found.len() == 1 && left.jobs.len() == 2);
    Ok(())
}

// The places of touches that are not kept among 4,001, and the fault: the first touch stands on line 15. Where all are kept
// the second one is the first again.
const UNKEPT: &[(&[usize], Told)] = &[
    (&[], (6, 16, 0)),
    (&[0], (5, 15, 0)),
    (&[1_001], (5, 1_016, 0)),
    (&[2_500], (5, 2_515, 0)),
    (&[4_000], (5, 4_015, 0)),
    (&[700, 3_500], (5, 715, 0)),
];

// The last lines of a checkpoint of 4,001 found touches, of which those at some places are not kept.
fn found_lines(alloc: Global, places: &[usize]) -> Result<String, Fail> {
    let mut lines = String::new(alloc);
    lines.push_str("found 4001\n")?;
    for place in 0..4_001 {
        lines.push_str(found_line(places, place))?;
    }
    lines.push_str("jobs 1\njob 1\n0 -\nend\n")?;
    Ok(lines)
}

// The line of a touch that is kept, or at one of the places of one of which a rotation is less.
fn found_line(places: &[usize], place: usize) -> &'static str {
    if places.contains(&place) {
        "60 bpbpbp\n"
    } else {
        "20 bb\n"
    }
}

// Whether a text has this fault, by one thread and by four.
fn is_fault_by_any(
    rt: &(impl AllocGlobal + Threads + Sync),
    text: &[u8],
    want: Told,
) -> Result<bool, Fail> {
    for threads in [1, 4] {
        match read_checkpoint_by(rt, rt.alloc(), text, threads) {
            Ok(_) => return Ok(false),
            Err(fault) => {
                if told(fault) != want {
                    return Ok(false);
                }
            }
        }
    }
    Ok(fault_of(rt.alloc(), text) == Some(want))
}

#[test]
fn several_threads_tell_the_same_fault(rt: HostRuntime) -> Result<(), Fail> {
    for &(places, want) in UNKEPT {
        let lines = found_lines(rt.alloc(), places)?;
        let text = text_of(rt.alloc(), "2", "124", DOUBLES, &lines)?;
        assert!(rt; is_fault_by_any(&rt, &text, want)?);
    }
    Ok(())
}
