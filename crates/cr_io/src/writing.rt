//! Writing a text whole, in one piece or in several.

ghost use Rattle.std.specs.Prelude.{◌≡◌, ◌≤◌, OnOk, OnErr};
ghost use Rattle.cr_io.specs.Causes.{Rose};
ghost use Rattle.cr_io.specs.Grown.{GrowsByFront, joined};

use crate::{Failed, Sink};
use thiserror::Error;

/// The text could not be written whole.
#[derive(Debug, Drop, Clone, Copy, PartialEq, Eq, Error)]
#[error("a write failed")]
pub struct WriteFault;

/// Appends the whole text, and then the sink's count of faults is as it was. `WriteFault` comes only
/// where the count rose in this call, and then a front of the text was appended. It takes no memory.
pub fn write_whole<K: Sink>(sink: &mut K, text: &[u8]) -> Result<(), WriteFault>
    ensures whole { OnOk result (K.grew sink.old sink.new text.now) }
    ensures front { OnErr result (GrowsByFront K.grew sink.old sink.new text.now) }
    ensures fault { OnErr result (Rose (K.faults sink.old) (K.faults sink.new)) }
    ensures later { K.faults sink.old ≤ K.faults sink.new }
    ensures same { OnOk result (K.faults sink.new ≡ K.faults sink.old) }
{
    let mut done = 0;
    while done < text.len() {
        match sink.write(&text[done..]) {
            Ok(count) => done += count,
            Err(Failed) => return Err(WriteFault),
        }
    }
    Ok(())
}

/// Appends all pieces, one after another, and then the sink's count of faults is as it was. `WriteFault`
/// comes only where the count rose in this call, and then a front of the pieces joined was appended. It
/// takes no memory.
pub fn write_pieces<K: Sink>(sink: &mut K, pieces: &[Vec<u8>]) -> Result<(), WriteFault>
    ensures whole { OnOk result (K.grew sink.old sink.new (joined pieces.now)) }
    ensures front { OnErr result (GrowsByFront K.grew sink.old sink.new (joined pieces.now)) }
    ensures fault { OnErr result (Rose (K.faults sink.old) (K.faults sink.new)) }
    ensures later { K.faults sink.old ≤ K.faults sink.new }
    ensures same { OnOk result (K.faults sink.new ≡ K.faults sink.old) }
{
    for piece in pieces {
        write_whole(sink, piece)?;
    }
    Ok(())
}
