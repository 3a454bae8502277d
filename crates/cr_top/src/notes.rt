//! The line on standard error for each status, written piece by piece and without memory.

ghost use Rattle.std.specs.Prelude.{◌≡◌, ◌≤◌, ◌++◌, map, codes};
ghost use Rattle.std.specs.Fmt.{decimal, signed_decimal};
ghost use Rattle.cr_io.specs.Causes.{Rose};
ghost use Rattle.cr_top.specs.Noted.{IsWritten, AppendsFront};
ghost use Rattle.cr_top.specs.Lines.{shown, notation_words, fault_words, problem_words, check_words, trail_words, join_words, audit_words, line, note_line};
ghost use Rattle.cr_top.specs.Pieces.{piece_text, text_of};

use crate::Status;
use crate::piece::Piece;
use crate::piece::Piece::*;
use cr_audit::AuditFault;
use cr_io::{Sink, WriteFault, write_whole};
use cr_model::{CountAt, NotationFault, ProblemFault, Whose};
use cr_shard::JoinFault;
use cr_store::CheckFault;
use cr_trail::TrailFault;
use cr_words::WordsFault;
use itoa::Buffer;

// Appends a text.
fn write_text<N: Sink>(notes: &mut N, text: &[u8]) -> Result<(), WriteFault>
    ensures { IsWritten N.grew N.faults notes.old notes.new result text.now }
{
    write_whole(notes, text)
}

// Appends a number in decimal, at one stroke.
fn write_number<N: Sink>(notes: &mut N, value: u64) -> Result<(), WriteFault>
    ensures { IsWritten N.grew N.faults notes.old notes.new result (decimal value) }
{
    write_text(notes, Buffer::new().format(value).as_bytes())
}

// Appends a number in decimal, which may be negative, at one stroke.
fn write_signed<N: Sink>(notes: &mut N, value: i64) -> Result<(), WriteFault>
    ensures { IsWritten N.grew N.faults notes.old notes.new result (signed_decimal value) }
{
    write_text(notes, Buffer::new().format(value).as_bytes())
}

// A byte as it is printed.
fn shown_byte(byte: u8) -> u8
    ensures { result ≡ shown byte }
{
    if (33..=126).contains(&byte) {
        byte
    } else {
        b'?'
    }
}

// Appends bytes as they are printed.
fn write_shown<N: Sink>(notes: &mut N, bytes: &[u8]) -> Result<(), WriteFault>
    ensures { IsWritten N.grew N.faults notes.old notes.new result (map shown bytes.now) }
{
    for byte in bytes {
        write_text(notes, &[shown_byte(*byte)])?;
    }
    Ok(())
}

// Appends a name and a number.
fn write_named<N: Sink>(notes: &mut N, name: &[u8], value: u64) -> Result<(), WriteFault>
    ensures { IsWritten N.grew N.faults notes.old notes.new result (name.now ++ decimal value) }
{
    write_text(notes, name)?;
    write_number(notes, value)
}

// Appends the name and the place of a fault of a notation.
fn write_wrong<N: Sink>(notes: &mut N, wrong: NotationFault) -> Result<(), WriteFault>
    ensures { IsWritten N.grew N.faults notes.old notes.new result (notation_words wrong) }
{
    match wrong {
        NotationFault::Symbol(place) => write_named(notes, b" Symbol ", place),
        NotationFault::Above(place) => write_named(notes, b" Above ", place),
        NotationFault::Order(place) => write_named(notes, b" Order ", place),
        NotationFault::Gap(place) => write_named(notes, b" Gap ", place),
        NotationFault::CrossOnOdd(place) => write_named(notes, b" CrossOnOdd ", place),
        NotationFault::Dot(place) => write_named(notes, b" Dot ", place),
        NotationFault::EmptyBlock(place) => write_named(notes, b" EmptyBlock ", place),
        NotationFault::SecondComma(place) => write_named(notes, b" SecondComma ", place),
        NotationFault::Long(place) => write_named(notes, b" Long ", place),
        NotationFault::NoMemory => write_text(notes, b" NoMemory"),
    }
}

// Appends one piece.
fn write_piece<N: Sink>(notes: &mut N, piece: Piece) -> Result<(), WriteFault>
    ensures { IsWritten N.grew N.faults notes.old notes.new result (piece_text piece.entry) }
{
    match piece {
        Text(text) => write_text(notes, text),
        Number(value) => write_number(notes, value),
        Signed(value) => write_signed(notes, value),
        Shown(bytes) => write_shown(notes, bytes),
        Wrong(wrong) => write_wrong(notes, wrong),
    }
}

// Appends the pieces, one after another.
fn write_pieces<N: Sink>(notes: &mut N, pieces: &[Piece]) -> Result<(), WriteFault>
    ensures { IsWritten N.grew N.faults notes.old notes.new result (text_of pieces.now) }
{
    for piece in pieces {
        write_piece(notes, *piece)?;
    }
    Ok(())
}

// Appends the pieces and a line feed.
fn write_ended<N: Sink>(notes: &mut N, pieces: &[Piece]) -> Result<(), WriteFault>
    ensures { IsWritten N.grew N.faults notes.old notes.new result (text_of pieces.now ++ codes "\n") }
{
    write_pieces(notes, pieces)?;
    write_text(notes, b"\n")
}

// Appends the line of these pieces.
fn write_line<N: Sink>(notes: &mut N, pieces: &[Piece]) -> Result<(), WriteFault>
    ensures { IsWritten N.grew N.faults notes.old notes.new result (line (text_of pieces.now)) }
{
    write_text(notes, b"ringsearch: ")?;
    write_ended(notes, pieces)
}

// Appends the line of a fault of the command line: its number and its name.
fn write_words<N: Sink>(notes: &mut N, fault: WordsFault) -> Result<(), WriteFault>
    ensures { IsWritten N.grew N.faults notes.old notes.new result (line (codes "words " ++ fault_words fault)) }
{
    match fault {
        WordsFault::Line => write_line(notes, &[Text(b"words 1 Line")]),
        WordsFault::Workers => write_line(notes, &[Text(b"words 2 Workers")]),
        WordsFault::Turns => write_line(notes, &[Text(b"words 3 Turns")]),
        WordsFault::Number => write_line(notes, &[Text(b"words 4 Number")]),
        WordsFault::Mode => write_line(notes, &[Text(b"words 5 Mode")]),
        WordsFault::Mixed => write_line(notes, &[Text(b"words 6 Mixed")]),
        WordsFault::NoMemory => write_line(notes, &[Text(b"words 7 NoMemory")]),
        WordsFault::Every => write_line(notes, &[Text(b"words 8 Every")]),
        WordsFault::Into => write_line(notes, &[Text(b"words 9 Into")]),
    }
}

// Appends the number and the name of a fault, and ends the line.
fn end_fault<'a, N: Sink>(notes: &mut N, name: &'a [u8]) -> Result<(), WriteFault>
    ensures { IsWritten N.grew N.faults notes.old notes.new result (name.now ++ codes "\n") }
{
    write_ended(notes, &[Text(name)])
}

// The same with a detail.
fn end_detail<'a, N: Sink>(
    notes: &mut N,
    name: &'a [u8],
    detail: Piece<'a>,
) -> Result<(), WriteFault>
    ensures { IsWritten N.grew N.faults notes.old notes.new result ((name.now ++ piece_text detail.entry) ++ codes "\n") }
{
    write_ended(notes, &[Text(name), detail])
}

// The same with two details and a space between them.
fn end_details<'a, N: Sink>(
    notes: &mut N,
    name: &'a [u8],
    first: Piece<'a>,
    second: Piece<'a>,
) -> Result<(), WriteFault>
    ensures { IsWritten N.grew N.faults notes.old notes.new result
        ((name.now ++ (piece_text first.entry ++ (codes " " ++ piece_text second.entry))) ++ codes "\n") }
{
    write_ended(notes, &[Text(name), first, Text(b" "), second])
}

// Ends the line of a fault of a notation, whose words begin with a space.
fn end_notation<'a, N: Sink>(
    notes: &mut N,
    name: &'a [u8],
    index: u64,
    wrong: NotationFault,
) -> Result<(), WriteFault>
    ensures { IsWritten N.grew N.faults notes.old notes.new result
        ((name.now ++ (decimal index ++ notation_words wrong)) ++ codes "\n") }
{
    write_ended(notes, &[Text(name), Number(index), Wrong(wrong)])
}

// Ends the line of a fault of a problem: its number, its name and its details.
fn end_problem<N: Sink>(notes: &mut N, fault: &ProblemFault) -> Result<(), WriteFault>
    ensures { IsWritten N.grew N.faults notes.old notes.new result (problem_words fault.now ++ codes "\n") }
{
    match fault {
        ProblemFault::NotToml => end_fault(notes, b"1 NotToml"),
        ProblemFault::Key(key) => end_detail(notes, b"2 Key ", Shown(&key.bytes)),
        ProblemFault::Stage(stage) => end_detail(notes, b"3 Stage ", Signed(*stage)),
        ProblemFault::Letter(method) => end_detail(notes, b"4 Letter ", Number(*method)),
        ProblemFault::Notation(Whose::Method(index), wrong) => {
            end_notation(notes, b"5 Notation method ", *index, *wrong)
        }
        ProblemFault::Notation(Whose::Call(index), wrong) => {
            end_notation(notes, b"5 Notation call ", *index, *wrong)
        }
        ProblemFault::Over(call) => end_detail(notes, b"6 Over ", Number(*call)),
        ProblemFault::Mark(call) => end_detail(notes, b"7 Mark ", Number(*call)),
        ProblemFault::CallLength(call, method) => {
            end_details(notes, b"8 CallLength ", Number(*call), Number(*method))
        }
        ProblemFault::Clash(first, second) => {
            end_details(notes, b"9 Clash ", Number(*first), Number(*second))
        }
        ProblemFault::Steps(leads) => end_detail(notes, b"10 Steps ", Number(*leads)),
        ProblemFault::Range(low, high) => {
            end_details(notes, b"11 Range ", Signed(*low), Signed(*high))
        }
        ProblemFault::Deep(depth) => end_detail(notes, b"12 Deep ", Number(*depth)),
        ProblemFault::Parts(parts) => end_detail(notes, b"13 Parts ", Signed(*parts)),
        ProblemFault::Count(CountAt::Mark(index)) => {
            end_detail(notes, b"14 Count count ", Number(*index))
        }
        ProblemFault::Count(CountAt::Method(index)) => {
            end_detail(notes, b"14 Count leads ", Number(*index))
        }
        ProblemFault::Pattern(index) => end_detail(notes, b"15 Pattern ", Number(*index)),
        ProblemFault::NoMemory => end_fault(notes, b"16 NoMemory"),
        ProblemFault::Com => end_fault(notes, b"17 Com"),
    }
}

// Ends the line of a fault of the problem of a checkpoint.
fn end_own_problem<N: Sink>(notes: &mut N, fault: &ProblemFault) -> Result<(), WriteFault>
    ensures { IsWritten N.grew N.faults notes.old notes.new result (codes "2 Problem " ++ (problem_words fault.now ++ codes "\n")) }
{
    write_text(notes, b"2 Problem ")?;
    end_problem(notes, fault)
}

// Ends the line of a fault of a checkpoint: its number, its name and its details.
fn end_check<N: Sink>(notes: &mut N, fault: &CheckFault) -> Result<(), WriteFault>
    ensures { IsWritten N.grew N.faults notes.old notes.new result (check_words fault.now ++ codes "\n") }
{
    match fault {
        CheckFault::Form(at) => end_detail(notes, b"1 Form ", Number(*at)),
        CheckFault::Problem(wrong) => end_own_problem(notes, wrong),
        CheckFault::Calling(at) => end_detail(notes, b"3 Calling ", Number(*at)),
        CheckFault::NodeLong(at) => end_detail(notes, b"4 NodeLong ", Number(*at)),
        CheckFault::NotKept(at) => end_detail(notes, b"5 NotKept ", Number(*at)),
        CheckFault::FoundOrder(at) => end_detail(notes, b"6 FoundOrder ", Number(*at)),
        CheckFault::Overlap(earlier, at) => {
            end_details(notes, b"7 Overlap ", Number(*earlier), Number(*at))
        }
        CheckFault::NoMemory => end_fault(notes, b"8 NoMemory"),
    }
}

// Ends the line of a body that is no checkpoint: which it is, and why.
fn end_body<N: Sink>(notes: &mut N, body: u64, fault: &CheckFault) -> Result<(), WriteFault>
    ensures { IsWritten N.grew N.faults notes.old notes.new result
        ((codes "3 Check " ++ (decimal body ++ codes " ")) ++ (check_words fault.now ++ codes "\n")) }
{
    write_pieces(notes, &[Text(b"3 Check "), Number(body), Text(b" ")])?;
    end_check(notes, fault)
}

// Ends the line of why shards can't be joined: its number, its name and its details.
fn end_join<N: Sink>(notes: &mut N, fault: &JoinFault) -> Result<(), WriteFault>
    ensures { IsWritten N.grew N.faults notes.old notes.new result (join_words fault.now ++ codes "\n") }
{
    match fault {
        JoinFault::Form(at) => end_detail(notes, b"1 Form ", Number(*at)),
        JoinFault::Blocks(many) => end_detail(notes, b"2 Blocks ", Number(*many)),
        JoinFault::Check(body, wrong) => end_body(notes, *body, wrong),
        JoinFault::OtherProblem(body, at) => {
            end_details(notes, b"4 OtherProblem ", Number(*body), Number(*at))
        }
        JoinFault::Overlap(one, other) => {
            end_details(notes, b"5 Overlap ", Number(*one), Number(*other))
        }
        JoinFault::NoMemory => end_fault(notes, b"6 NoMemory"),
    }
}

// Appends the line of a fault of a problem.
fn write_problem<N: Sink>(notes: &mut N, fault: &ProblemFault) -> Result<(), WriteFault>
    ensures { IsWritten N.grew N.faults notes.old notes.new result (line (codes "problem " ++ problem_words fault.now)) }
{
    write_text(notes, b"ringsearch: problem ")?;
    end_problem(notes, fault)
}

// Appends the line of a fault of a checkpoint.
fn write_check<N: Sink>(notes: &mut N, fault: &CheckFault) -> Result<(), WriteFault>
    ensures { IsWritten N.grew N.faults notes.old notes.new result (line (codes "checkpoint " ++ check_words fault.now)) }
{
    write_text(notes, b"ringsearch: checkpoint ")?;
    end_check(notes, fault)
}

// Appends the line of why shards can't be joined.
fn write_join<N: Sink>(notes: &mut N, fault: &JoinFault) -> Result<(), WriteFault>
    ensures { IsWritten N.grew N.faults notes.old notes.new result (line (codes "join " ++ join_words fault.now)) }
{
    write_text(notes, b"ringsearch: join ")?;
    end_join(notes, fault)
}

// Appends the line of why a text has no last block: its number, its name and its details.
fn write_trail<N: Sink>(notes: &mut N, fault: TrailFault) -> Result<(), WriteFault>
    ensures { IsWritten N.grew N.faults notes.old notes.new result (line (codes "trail " ++ trail_words fault)) }
{
    match fault {
        TrailFault::Form(at) => write_line(notes, &[Text(b"trail 1 Form "), Number(at)]),
        TrailFault::Nothing => write_line(notes, &[Text(b"trail 2 Nothing")]),
    }
}

// Appends the line of why an audit does not say yes: its number, its name and its details.
fn write_audit<N: Sink>(notes: &mut N, fault: AuditFault) -> Result<(), WriteFault>
    ensures { IsWritten N.grew N.faults notes.old notes.new result (line (codes "audit " ++ audit_words fault)) }
{
    match fault {
        AuditFault::Form(at) => write_line(notes, &[Text(b"audit 1 Form "), Number(at)]),
        AuditFault::Line(at) => write_line(notes, &[Text(b"audit 2 Line "), Number(at)]),
        AuditFault::Node(at) => write_line(notes, &[Text(b"audit 3 Node "), Number(at)]),
        AuditFault::Verdict(at) => write_line(notes, &[Text(b"audit 4 Verdict "), Number(at)]),
        AuditFault::Book(at) => write_line(notes, &[Text(b"audit 5 Book "), Number(at)]),
        AuditFault::NoMemory => write_line(notes, &[Text(b"audit 6 NoMemory")]),
    }
}

// Appends the line of a status, if the run did not finish.
fn write_status<N: Sink>(notes: &mut N, status: &Status) -> Result<(), WriteFault>
    ensures written { IsWritten N.grew N.faults notes.old notes.new result (note_line status.now) }
    ensures silent { status.now ≡ Status.Finished → notes.new ≡ notes.old }
{
    match status {
        Status::Finished => Ok(()),
        Status::Words(fault) => write_words(notes, *fault),
        Status::Stopped(turns) => write_line(
            notes,
            &[Text(b"stopped after "), Number(*turns), Text(b" turns")],
        ),
        Status::Problem(fault) => write_problem(notes, fault),
        Status::Checkpoint(fault) => write_check(notes, fault),
        Status::ReadFault => write_line(notes, &[Text(b"read failed")]),
        Status::WriteFault => write_line(notes, &[Text(b"write failed")]),
        Status::NoMemory => write_line(notes, &[Text(b"no memory")]),
        Status::TooLong => write_line(notes, &[Text(b"input too long")]),
        Status::Trail(fault) => write_trail(notes, *fault),
        Status::Join(fault) => write_join(notes, fault),
        Status::Audit(fault) => write_audit(notes, *fault),
        Status::NotProblem => write_line(notes, &[Text(b"not a problem")]),
    }
}

/// Appends the line of a status, and leaves notes as they are where the run finished. Where notes
/// fail, a front of the line was appended. It takes no memory.
pub fn write_note<N: Sink>(notes: &mut N, status: &Status)
    ensures front { AppendsFront N.grew notes.old notes.new (note_line status.now) }
    ensures whole { (Rose (N.faults notes.old) (N.faults notes.new) → ⊥) →
        N.grew notes.old notes.new (note_line status.now) }
    ensures silent { status.now ≡ Status.Finished → notes.new ≡ notes.old }
    ensures later { N.faults notes.old ≤ N.faults notes.new }
{
    let _ = write_status(notes, status);
}
