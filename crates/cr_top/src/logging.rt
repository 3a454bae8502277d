//! The log of a whole search, with its problem and its book.

ghost use Rattle.std.specs.Prelude.{◌≡◌, ◌<◌, ◌≤◌, ◌++◌, [], ◌∷◌, length, IfOk, MatchResult};
ghost use Rattle.cr_model.specs.Checkpoints.{IsCheckpoint};
ghost use Rattle.cr_model.specs.ProblemFiles.{ProblemFile};
ghost use Rattle.cr_shard.specs.JoinFaults.{AreBodies};
ghost use Rattle.cr_store.specs.Blocks.{block, IsBody};
ghost use Rattle.cr_top.specs.Endings.{EndsLog, status_of};
ghost use Rattle.cr_top.specs.Logged.{IsLogOf};
ghost use Rattle.cr_top.specs.Refused.{IsUnlogged};

use crate::preparing::input_of;
use crate::refusal::Refusal;
use cr_audit::laws::what_a_log_proves_is_the_book;
use cr_audit::log_text;
use cr_book::book_text;
use cr_io::{Sink, Source, write_whole};
use cr_log::log_run;
use cr_model::{Problem, ProblemFault};
use cr_read::read_problem;
use cr_row::NoMemory;
use cr_store::put_block;
use std::alloc::Global;

// The most bytes of a block's body, 2^63 - 1.
const MOST_BYTES: u64 = 9_223_372_036_854_775_807;

/// Searches the problem that is left in the source, and writes its bytes, its book and a log of the whole search as
/// blocks, or tells why they were not written.
pub fn log_written<S: Source, K: Sink>(
    alloc: Global,
    source: &mut S,
    sink: &mut K,
) -> Result<Option<u64>, Refusal>
    ensures ends { EndsLog (record { took = S.took; left = S.left; faults = S.faults; old = source.old; new = source.new })
        (record { grew = K.grew; faults = K.faults; old = sink.old; new = sink.new }) (status_of result) }
    ensures source_later { S.faults source.old ≤ S.faults source.new }
    ensures sink_later { K.faults sink.old ≤ K.faults sink.new }
{
    let input = input_of(alloc, source)?;
    let text = log_of(alloc, &input)?;
    write_whole(sink, &text)?;
    Ok(None)
}

// A problem, its book and a log of the whole search as blocks, or why there are none.
fn log_of(alloc: Global, input: &[u8]) -> Result<Vec<u8>, Refusal>
    ensures { MatchResult result (λ text. IsLogOf input.now text.items) (IsUnlogged input.now) }
{
    if input.starts_with(b"ringsearch checkpoint ") {
        return Err(Refusal::NotProblem);
    }
    match read_problem(alloc, input) {
        Ok(problem) => Ok(logged(alloc, &problem, input)?),
        Err(ProblemFault::NoMemory) => Err(Refusal::NoMemory),
        Err(fault) => Err(Refusal::Problem(fault)),
    }
}

// The problem of these bytes, its book and a log of the whole search as blocks. Err where no memory is left.
fn logged(alloc: Global, problem: &Problem, bytes: &[u8]) -> Result<Vec<u8>, NoMemory>
    requires begins { IsCheckpoint bytes.now → ⊥ }
    requires file { ProblemFile bytes.now problem.now }
    ensures { IfOk result (λ text. IsLogOf bytes.now text.items) }
{
    what_a_log_proves_is_the_book();
    let run = log_run(alloc, problem)?;
    let book = book_text(alloc, problem, &run.book)?;
    let log = log_text(alloc, problem, &run.lines)?;
    let text = three_blocks(alloc, bytes, &book, &log)?;
    Ok(text)
}

// Three bodies as blocks, one after another. Err where no memory is left.
fn three_blocks(
    alloc: Global,
    first: &[u8],
    second: &[u8],
    third: &[u8],
) -> Result<Vec<u8>, NoMemory>
    requires first { 0 < length first.now }
    requires second { 0 < length second.now }
    requires third { 0 < length third.now }
    ensures { IfOk result (λ text. AreBodies text.items (first.now ∷ second.now ∷ third.now ∷ [])) }
{
    let mut text = Vec::new(alloc);
    put_body(&mut text, first)?;
    put_body(&mut text, second)?;
    put_body(&mut text, third)?;
    Ok(text)
}

// Appends a body as a block. Err where no memory is left, or where the body is longer than a block's: no memory holds it.
fn put_body(text: &mut Vec<u8>, body: &[u8]) -> Result<(), NoMemory>
    requires { 0 < length body.now }
    ensures body { IfOk result (λ _. IsBody body.now) }
    ensures whole { IfOk result (λ _. text.new.items ≡ text.old.items ++ block body.now) }
{
    if body.len() as u64 > MOST_BYTES {
        return Err(NoMemory);
    }
    put_block(text, body)
}
