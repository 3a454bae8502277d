//! What no clause says of notes: each line as it is printed, and lines that a fault ends.

use cr_audit::AuditFault;
use cr_io::{MemSink, SureSink};
use cr_model::ProblemFault::*;
use cr_model::{CountAt, KeyPath, NotationFault, Whose};
use cr_shard::JoinFault;
use cr_store::CheckFault;
use cr_top::Status::{self, Checkpoint, Join, Problem, Words};
use cr_top::write_note;
use cr_trail::TrailFault;
use cr_words::WordsFault::{self, Line, Mixed, Mode, Number, Turns, Workers};
use std::test::Fail;

// Nothing where this line was written, and else the line.
fn holds(line: &'static str, note: Option<&[u8]>) -> Result<(), Fail> {
    if note == Some(line.as_bytes()) {
        Ok(())
    } else {
        Err(Fail::from(line))
    }
}

const STATUSES: [(Status, u8, &str); 23] = [
    (Status::Finished, 0, ""),
    (Words(Line), 2, "ringsearch: words 1 Line\n"),
    (Words(Workers), 2, "ringsearch: words 2 Workers\n"),
    (Words(Turns), 2, "ringsearch: words 3 Turns\n"),
    (Words(Number), 2, "ringsearch: words 4 Number\n"),
    (Words(Mode), 2, "ringsearch: words 5 Mode\n"),
    (Words(Mixed), 2, "ringsearch: words 6 Mixed\n"),
    (
        Words(WordsFault::NoMemory),
        2,
        "ringsearch: words 7 NoMemory\n",
    ),
    (Words(WordsFault::Every), 2, "ringsearch: words 8 Every\n"),
    (Words(WordsFault::Into), 2, "ringsearch: words 9 Into\n"),
    (Status::Stopped(0), 3, "ringsearch: stopped after 0 turns\n"),
    (
        Status::Stopped(9_223_372_036_854_775_807),
        3,
        "ringsearch: stopped after 9223372036854775807 turns\n",
    ),
    (Problem(NotToml), 4, "ringsearch: problem 1 NotToml\n"),
    (Status::ReadFault, 6, "ringsearch: read failed\n"),
    (Status::WriteFault, 7, "ringsearch: write failed\n"),
    (Status::NoMemory, 8, "ringsearch: no memory\n"),
    (Status::TooLong, 9, "ringsearch: input too long\n"),
    (
        Checkpoint(CheckFault::Form(1)),
        5,
        "ringsearch: checkpoint 1 Form 1\n",
    ),
    (
        Status::Trail(TrailFault::Form(6)),
        10,
        "ringsearch: trail 1 Form 6\n",
    ),
    (
        Status::Trail(TrailFault::Nothing),
        10,
        "ringsearch: trail 2 Nothing\n",
    ),
    (
        Join(JoinFault::Blocks(0)),
        11,
        "ringsearch: join 2 Blocks 0\n",
    ),
    (
        Status::Audit(AuditFault::NoMemory),
        12,
        "ringsearch: audit 6 NoMemory\n",
    ),
    (Status::NotProblem, 13, "ringsearch: not a problem\n"),
];

#[test]
fn each_status_has_its_number_and_its_line(rt: HostRuntime) -> Result<(), Fail> {
    for (status, code, line) in &STATUSES {
        if status.code() != *code {
            return Err(Fail::from(*line));
        }
        let mut notes = SureSink::new(rt.alloc());
        write_note(&mut notes, status);
        holds(line, notes.bytes())?;
    }
    Ok(())
}

const FAULTS: [(Status, &str); 46] = [
    (Problem(Stage(17)), "ringsearch: problem 3 Stage 17\n"),
    (Problem(Stage(-10)), "ringsearch: problem 3 Stage -10\n"),
    (Problem(Letter(1)), "ringsearch: problem 4 Letter 1\n"),
    (
        Problem(Notation(Whose::Method(0), NotationFault::CrossOnOdd(0))),
        "ringsearch: problem 5 Notation method 0 CrossOnOdd 0\n",
    ),
    (
        Problem(Notation(Whose::Method(7), NotationFault::Symbol(10))),
        "ringsearch: problem 5 Notation method 7 Symbol 10\n",
    ),
    (
        Problem(Notation(Whose::Call(12), NotationFault::Above(2))),
        "ringsearch: problem 5 Notation call 12 Above 2\n",
    ),
    (
        Problem(Notation(Whose::Call(0), NotationFault::Order(3))),
        "ringsearch: problem 5 Notation call 0 Order 3\n",
    ),
    (
        Problem(Notation(Whose::Call(1), NotationFault::Gap(1))),
        "ringsearch: problem 5 Notation call 1 Gap 1\n",
    ),
    (
        Problem(Notation(Whose::Method(1), NotationFault::Dot(9))),
        "ringsearch: problem 5 Notation method 1 Dot 9\n",
    ),
    (
        Problem(Notation(Whose::Method(2), NotationFault::EmptyBlock(0))),
        "ringsearch: problem 5 Notation method 2 EmptyBlock 0\n",
    ),
    (
        Problem(Notation(Whose::Method(3), NotationFault::SecondComma(14))),
        "ringsearch: problem 5 Notation method 3 SecondComma 14\n",
    ),
    (
        Problem(Notation(Whose::Call(2), NotationFault::Long(260))),
        "ringsearch: problem 5 Notation call 2 Long 260\n",
    ),
    (
        Problem(Notation(Whose::Call(3), NotationFault::NoMemory)),
        "ringsearch: problem 5 Notation call 3 NoMemory\n",
    ),
    (Problem(Over(3)), "ringsearch: problem 6 Over 3\n"),
    (Problem(Mark(22)), "ringsearch: problem 7 Mark 22\n"),
    (
        Problem(CallLength(0, 1)),
        "ringsearch: problem 8 CallLength 0 1\n",
    ),
    (Problem(Clash(2, 13)), "ringsearch: problem 9 Clash 2 13\n"),
    (Problem(Steps(0)), "ringsearch: problem 10 Steps 0\n"),
    (Problem(Steps(9)), "ringsearch: problem 10 Steps 9\n"),
    (Problem(Steps(10)), "ringsearch: problem 10 Steps 10\n"),
    (
        Problem(Steps(u64::MAX)),
        "ringsearch: problem 10 Steps 18446744073709551615\n",
    ),
    (
        Problem(Range(-1, 120)),
        "ringsearch: problem 11 Range -1 120\n",
    ),
    (
        Problem(Range(i64::MIN, i64::MAX)),
        "ringsearch: problem 11 Range -9223372036854775808 9223372036854775807\n",
    ),
    (Problem(Deep(1500)), "ringsearch: problem 12 Deep 1500\n"),
    (Problem(Parts(65)), "ringsearch: problem 13 Parts 65\n"),
    (
        Problem(Count(CountAt::Mark(1))),
        "ringsearch: problem 14 Count count 1\n",
    ),
    (
        Problem(Count(CountAt::Method(0))),
        "ringsearch: problem 14 Count leads 0\n",
    ),
    (Problem(Pattern(32)), "ringsearch: problem 15 Pattern 32\n"),
    (Problem(NoMemory), "ringsearch: problem 16 NoMemory\n"),
    (Problem(Com), "ringsearch: problem 17 Com\n"),
    (
        Checkpoint(CheckFault::Form(18)),
        "ringsearch: checkpoint 1 Form 18\n",
    ),
    (
        Checkpoint(CheckFault::Problem(Stage(17))),
        "ringsearch: checkpoint 2 Problem 3 Stage 17\n",
    ),
    (
        Checkpoint(CheckFault::Problem(Notation(Whose::Method(0), NotationFault::CrossOnOdd(0)))),
        "ringsearch: checkpoint 2 Problem 5 Notation method 0 CrossOnOdd 0\n",
    ),
    (
        Checkpoint(CheckFault::Calling(15)),
        "ringsearch: checkpoint 3 Calling 15\n",
    ),
    (
        Checkpoint(CheckFault::NodeLong(17)),
        "ringsearch: checkpoint 4 NodeLong 17\n",
    ),
    (
        Checkpoint(CheckFault::NotKept(15)),
        "ringsearch: checkpoint 5 NotKept 15\n",
    ),
    (
        Checkpoint(CheckFault::FoundOrder(16)),
        "ringsearch: checkpoint 6 FoundOrder 16\n",
    ),
    (
        Checkpoint(CheckFault::Overlap(17, 18)),
        "ringsearch: checkpoint 7 Overlap 17 18\n",
    ),
    (
        Checkpoint(CheckFault::NoMemory),
        "ringsearch: checkpoint 8 NoMemory\n",
    ),
    (Join(JoinFault::Form(399)), "ringsearch: join 1 Form 399\n"),
    (
        Join(JoinFault::Blocks(1025)),
        "ringsearch: join 2 Blocks 1025\n",
    ),
    (
        Join(JoinFault::Check(12, CheckFault::Overlap(17, 18))),
        "ringsearch: join 3 Check 12 7 Overlap 17 18\n",
    ),
    (
        Join(JoinFault::Check(0, CheckFault::Problem(Stage(17)))),
        "ringsearch: join 3 Check 0 2 Problem 3 Stage 17\n",
    ),
    (
        Join(JoinFault::OtherProblem(1, 8)),
        "ringsearch: join 4 OtherProblem 1 8\n",
    ),
    (
        Join(JoinFault::Overlap(0, 1)),
        "ringsearch: join 5 Overlap 0 1\n",
    ),
    (Join(JoinFault::NoMemory), "ringsearch: join 6 NoMemory\n"),
];

#[test]
fn each_fault_has_its_details(rt: HostRuntime) -> Result<(), Fail> {
    for (status, line) in &FAULTS {
        let mut notes = SureSink::new(rt.alloc());
        write_note(&mut notes, status);
        holds(line, notes.bytes())?;
    }
    Ok(())
}

const PATHS: &[(&[u8], &str)] = &[
    (b"stage", "ringsearch: problem 2 Key stage\n"),
    (b"", "ringsearch: problem 2 Key \n"),
    (
        b"method[0].letter",
        "ringsearch: problem 2 Key method[0].letter\n",
    ),
    (
        b"\x00\n !~\x7f\xc3\xbf",
        "ringsearch: problem 2 Key ???!~???\n",
    ),
];

#[test]
fn paths_are_shown(rt: HostRuntime) -> Result<(), Fail> {
    for &(path, line) in PATHS {
        let bytes = Vec::from_slice(rt.alloc(), path)?;
        let mut notes = SureSink::new(rt.alloc());
        write_note(&mut notes, &Problem(Key(KeyPath { bytes })));
        holds(line, notes.bytes())?;
    }
    Ok(())
}

// Which write fails, how many bytes a write takes, and what was written before: the pieces of the line are its head with
// the word of its status, the fault's name, its number, and the line feed.
const BROKEN: &[(u64, u64, &str)] = &[
    (1, 100, ""),
    (1, 3, ""),
    (2, 3, "rin"),
    (2, 100, "ringsearch: problem "),
    (3, 100, "ringsearch: problem 3 Stage "),
    (4, 100, "ringsearch: problem 3 Stage 17"),
    (5, 100, "ringsearch: problem 3 Stage 17\n"),
];

#[test]
fn a_fault_ends_the_line(rt: HostRuntime) -> Result<(), Fail> {
    let alloc = rt.alloc();
    for &(fail, most, written) in BROKEN {
        let mut notes = MemSink::new(alloc, Vec::from_slice(alloc, &[fail])?, most);
        write_note(&mut notes, &Problem(Stage(17)));
        holds(written, notes.bytes())?;
    }
    Ok(())
}
