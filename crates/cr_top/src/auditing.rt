//! The audit of a book by the log of a whole search.

ghost use Rattle.std.specs.Prelude.{◌≡◌, ◌+◌, ◌≤◌, ◌++◌, ℕ, List, [], ◌∷◌, length, take, drop, IfOk, IfErr, MatchResult};
ghost use Rattle.std.specs.Fmt.{decimal};
ghost use Rattle.cr_model.specs.ProblemFiles.{ProblemFile};
ghost use Rattle.cr_shard.specs.JoinFaults.{AreBodies};
ghost use Rattle.cr_shard.specs.Reads.{IsReadTo};
ghost use Rattle.cr_top.specs.Audited.{IsAuditOf, NotThree, audit_line};
ghost use Rattle.cr_top.specs.Endings.{EndsAudit, status_of};
ghost use Rattle.cr_top.specs.Refused.{IsUnaudited};

use crate::preparing::input_of;
use crate::refusal::{Refusal, audit_refusal_for};
use cr_audit::{AuditFault, audit};
use cr_io::{Sink, Source, write_whole};
use cr_model::{Problem, ProblemFault};
use cr_read::read_problem;
use cr_row::NoMemory;
use cr_store::{Next, next_block};
use itoa::Buffer;
use std::alloc::Global;

/// Audits the book that is left in the source, between its problem and a log of the whole search, and writes how many
/// touches it has, or tells why it is not right.
pub fn audit_written<S: Source, K: Sink>(
    alloc: Global,
    source: &mut S,
    sink: &mut K,
) -> Result<Option<u64>, Refusal>
    ensures ends { EndsAudit (record { took = S.took; left = S.left; faults = S.faults; old = source.old; new = source.new })
        (record { grew = K.grew; faults = K.faults; old = sink.old; new = sink.new }) (status_of result) }
    ensures source_later { S.faults source.old ≤ S.faults source.new }
    ensures sink_later { K.faults sink.old ≤ K.faults sink.new }
{
    let text = input_of(alloc, source)?;
    let number = audited(alloc, &text)?;
    let line = line_of(alloc, number)?;
    write_whole(sink, &line)?;
    Ok(None)
}

// How many touches the book has among three blocks, or why it is not right.
fn audited(alloc: Global, text: &[u8]) -> Result<u64, Refusal>
    ensures { MatchResult result (IsAuditOf text.now) (IsUnaudited text.now) }
{
    match three_of(text) {
        Ok((bytes, book, log)) => audited_in(alloc, bytes, book, log),
        Err(place) => Err(Refusal::Audit(AuditFault::Form(place))),
    }
}

// The same, of the three bodies.
fn audited_in(alloc: Global, bytes: &[u8], book: &[u8], log: &[u8]) -> Result<u64, Refusal>
    ensures { (text : List ℕ) → AreBodies text (bytes.now ∷ book.now ∷ log.now ∷ [])
        → MatchResult result (IsAuditOf text) (IsUnaudited text) }
{
    match read_problem(alloc, bytes) {
        Ok(problem) => audited_by(alloc, &problem, bytes, book, log),
        Err(ProblemFault::NoMemory) => Err(Refusal::NoMemory),
        Err(fault) => Err(Refusal::Problem(fault)),
    }
}

// The same, of the problem of these bytes.
fn audited_by(
    alloc: Global,
    problem: &Problem,
    bytes: &[u8],
    book: &[u8],
    log: &[u8],
) -> Result<u64, Refusal>
    requires { ProblemFile bytes.now problem.now }
    ensures { (text : List ℕ) → AreBodies text (bytes.now ∷ book.now ∷ log.now ∷ [])
        → MatchResult result (IsAuditOf text) (IsUnaudited text) }
{
    match audit(alloc, problem, book, log) {
        Ok(number) => Ok(number),
        Err(fault) => Err(audit_refusal_for(fault)),
    }
}

// The bodies of a text of three blocks, or the place that tells that it is none.
fn three_of(text: &[u8]) -> Result<(&[u8], &[u8], &[u8]), u64>
    ensures { MatchResult result (λ x. AreBodies text.now (x.0.now ∷ x.1.now ∷ x.2.now ∷ [])) (NotThree text.now) }
{
    let (bytes, at) = body_from(text, 0)?;
    let (book, at) = body_from(text, at)?;
    let (log, at) = body_from(text, at)?;
    end_from(text, at)?;
    Ok((bytes, book, log))
}

// The body of the block at a place, and the place behind it, or the place that tells that none is there.
fn body_from(text: &[u8], at: u64) -> Result<(&[u8], u64), u64>
    requires { at ≤ length text.now }
    ensures inside { IfOk result (λ x. x.1 ≤ length text.now) }
    ensures read { IfOk result (λ x. (bodies : List (List ℕ)) → IsReadTo text.now at bodies
        → IsReadTo text.now x.1 (bodies ++ x.0.now ∷ [])) }
    ensures wrong { IfErr result (λ place. (bodies : List (List ℕ)) → IsReadTo text.now at bodies → length bodies ≤ 2
        → NotThree text.now place) }
{
    match next_block(text, at) {
        Next::Block(place, size) => Ok((body_at(text, place, size), place + size)),
        Next::End | Next::Torn => Err(text.len() as u64),
        Next::Form(place) => Err(place),
    }
}

// The text is over at a place, or the place that tells that it is not.
fn end_from(text: &[u8], at: u64) -> Result<(), u64>
    requires { at ≤ length text.now }
    ensures read { IfOk result (λ _. (bodies : List (List ℕ)) → IsReadTo text.now at bodies → AreBodies text.now bodies) }
    ensures wrong { IfErr result (λ place. (bodies : List (List ℕ)) → IsReadTo text.now at bodies → length bodies ≡ 3
        → NotThree text.now place) }
{
    match next_block(text, at) {
        Next::Block(_, _) => Err(at),
        Next::End => Ok(()),
        Next::Torn => Err(text.len() as u64),
        Next::Form(place) => Err(place),
    }
}

// So many bytes from a place on.
fn body_at(text: &[u8], place: u64, size: u64) -> &[u8]
    requires { place + size ≤ length text.now }
    ensures { result.now ≡ take size (drop place text.now) }
{
    &text[place as usize..(place + size) as usize]
}

// The line of an audit that says yes.
fn line_of(alloc: Global, number: u64) -> Result<Vec<u8>, NoMemory>
    ensures { IfOk result (λ line. line.items ≡ audit_line number) }
{
    let mut line = Vec::new(alloc);
    line.extend_from_slice(b"audit yes ")?;
    line.extend_from_slice(Buffer::new().format(number).as_bytes())?;
    line.extend_from_slice(b"\n")?;
    Ok(line)
}
