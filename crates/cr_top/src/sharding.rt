//! Shards: an input cut into many checkpoints, and many checkpoints joined.

ghost use Rattle.std.specs.Prelude.{◌≡◌, ◌≤◌, MatchResult};
ghost use Rattle.cr_io.specs.Grown.{joined};
ghost use Rattle.cr_model.specs.ProblemFiles.{ProblemFile};
ghost use Rattle.cr_model.specs.Checkpoints.{CanGoOn};
ghost use Rattle.cr_shard.specs.Deals.{IsCut};
ghost use Rattle.cr_shard.specs.JoinFaults.{IsJoin};
ghost use Rattle.cr_store.specs.Written.{lists};
ghost use Rattle.cr_top.specs.declared.refusal.Refusal.TheVariants as refusal;
ghost use Rattle.cr_top.specs.Endings.{EndsCut, EndsJoin, status_of};
ghost use Rattle.cr_top.specs.Refused.{IsUnjoined, IsUnstarted};
ghost use Rattle.cr_top.specs.Shards.{IsCutOf};

use crate::preparing::input_of;
use crate::refusal::{Refusal, refusal_for};
use crate::searching::one_piece;
use crate::start::{Start, start_of};
use cr_io::{Sink, Source, write_pieces, write_whole};
use cr_shard::{cut_blocks, cut_text, join_blocks};
use std::alloc::Global;

/// Cuts what is left in the source into so many shards and writes these as blocks, or tells why they were not written.
pub fn cut_written<S: Source, K: Sink>(
    alloc: Global,
    into: u32,
    source: &mut S,
    sink: &mut K,
) -> Result<Option<u64>, Refusal>
    requires { 1 ≤ into }
    ensures ends { EndsCut (record { took = S.took; left = S.left; faults = S.faults; old = source.old; new = source.new })
        (record { grew = K.grew; faults = K.faults; old = sink.old; new = sink.new }) into (status_of result) }
    ensures source_later { S.faults source.old ≤ S.faults source.new }
    ensures sink_later { K.faults sink.old ≤ K.faults sink.new }
{
    let input = input_of(alloc, source)?;
    let pieces = shards_of(alloc, input, into)?;
    write_pieces(sink, &pieces)?;
    Ok(None)
}

// The shards of an input as blocks, in pieces that follow one another, or why there are none. A checkpoint that has mostly
// nodes is cut as its text is read, which takes less memory, and any other input once it is read.
fn shards_of(alloc: Global, input: Vec<u8>, into: u32) -> Result<Vec<Vec<u8>>, Refusal>
    requires { 1 ≤ into }
    ensures { MatchResult result (λ pieces. IsCutOf into input.items (joined pieces.items)) (IsUnstarted input.items) }
{
    if input.starts_with(b"ringsearch checkpoint ") {
        if let Some(pieces) = cut_text(alloc, &input, into)? {
            return Ok(pieces);
        }
    }
    match start_of(alloc, input) {
        Ok(start) => cut_start(alloc, &start, into),
        Err(why) => Err(why),
    }
}

// The shards of what an input says, in one piece.
fn cut_start(alloc: Global, start: &Start, into: u32) -> Result<Vec<Vec<u8>>, Refusal>
    requires some { 1 ≤ into }
    requires file { ProblemFile start.now.bytes.items start.now.problem }
    requires goes_on { CanGoOn start.now.problem start.now.left.found.items (lists start.now.left.jobs.items) }
    ensures { MatchResult result (λ pieces. IsCut start.now.problem start.now.bytes.items start.now.left.found.items (lists start.now.left.jobs.items) into (joined pieces.items)) (λ why. why ≡ refusal.NoMemory) }
{
    let text = cut_blocks(
        alloc,
        &start.problem,
        &start.bytes,
        &start.left.found,
        &start.left.jobs,
        into,
    )?;
    let pieces = one_piece(alloc, text)?;
    Ok(pieces)
}

/// Joins the shards whose blocks are left in the source and writes these as one checkpoint, or tells why it was not
/// written.
pub fn join_written<S: Source, K: Sink>(
    alloc: Global,
    source: &mut S,
    sink: &mut K,
) -> Result<Option<u64>, Refusal>
    ensures ends { EndsJoin (record { took = S.took; left = S.left; faults = S.faults; old = source.old; new = source.new })
        (record { grew = K.grew; faults = K.faults; old = sink.old; new = sink.new }) (status_of result) }
    ensures source_later { S.faults source.old ≤ S.faults source.new }
    ensures sink_later { K.faults sink.old ≤ K.faults sink.new }
{
    let text = input_of(alloc, source)?;
    let joined = joined_of(alloc, &text)?;
    write_whole(sink, &joined)?;
    Ok(None)
}

// The shards of a text as one checkpoint, or why they can't be joined.
fn joined_of(alloc: Global, text: &[u8]) -> Result<Vec<u8>, Refusal>
    ensures { MatchResult result (λ joined. IsJoin text.now joined.items) (IsUnjoined text.now) }
{
    match join_blocks(alloc, text) {
        Ok(joined) => Ok(joined),
        Err(fault) => Err(refusal_for(fault)),
    }
}
