//! The last checkpoint of a trail.

ghost use Rattle.std.specs.Prelude.{◌≡◌, ◌≤◌, take, drop};
ghost use Rattle.cr_trail.specs.Lasts.{IsLastBody};
ghost use Rattle.cr_top.specs.Endings.{EndsLast, status_of};

use crate::preparing::input_of;
use crate::refusal::Refusal;
use cr_io::{Sink, Source, write_whole};
use cr_trail::last_block;
use std::alloc::Global;

/// Writes the last whole body of the blocks that are left in the source as it stands, or tells why it was not written.
pub fn last_written<S: Source, K: Sink>(
    alloc: Global,
    source: &mut S,
    sink: &mut K,
) -> Result<Option<u64>, Refusal>
    ensures ends { EndsLast (record { took = S.took; left = S.left; faults = S.faults; old = source.old; new = source.new })
        (record { grew = K.grew; faults = K.faults; old = sink.old; new = sink.new }) (status_of result) }
    ensures source_later { S.faults source.old ≤ S.faults source.new }
    ensures sink_later { K.faults sink.old ≤ K.faults sink.new }
{
    let text = input_of(alloc, source)?;
    let (place, size) = last_block(&text)?;
    write_whole(sink, body_at(&text, place, size))?;
    Ok(None)
}

// The last whole body of a text, by its place and how many bytes it has.
fn body_at(text: &[u8], place: u64, size: u64) -> &[u8]
    requires { IsLastBody text.now place size }
    ensures { result.now ≡ take size (drop place text.now) }
{
    let start = place as usize;
    &text[start..start + size as usize]
}
