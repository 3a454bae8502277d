//! Writing a text while what it was made of is let go.

ghost use Rattle.std.specs.Prelude.{◌≡◌, ◌≤◌, OnOk, OnErr};
ghost use Rattle.cr_io.specs.Causes.{Rose};
ghost use Rattle.cr_io.specs.Grown.{GrowsByFront, joined};

use cr_io::{Sink, WriteFault, write_pieces};
use cr_model::Calling;
use std::thread::{Threads, spawn};

// Fewer touches than so many are let go at once: they are not worth a thread.
const FEW: usize = 4_096;

/// Appends all pieces, one after another, as `write_pieces` does. Where there are several workers, a thread lets the touches
/// go meanwhile, and the text is let go before that one is waited for.
pub fn write_beside<R: Threads, K: Sink>(
    rt: &R,
    workers: u32,
    sink: &mut K,
    pieces: Vec<Vec<u8>>,
    spent: Vec<Calling>,
) -> Result<(), WriteFault>
    ensures whole { OnOk result (K.grew sink.old sink.new (joined pieces.items)) }
    ensures front { OnErr result (GrowsByFront K.grew sink.old sink.new (joined pieces.items)) }
    ensures fault { OnErr result (Rose (K.faults sink.old) (K.faults sink.new)) }
    ensures later { K.faults sink.old ≤ K.faults sink.new }
    ensures same { OnOk result (K.faults sink.new ≡ K.faults sink.old) }
{
    if workers == 1 || spent.len() < FEW {
        return write_pieces(sink, &pieces);
    }
    let letting = spawn(rt, move || drop(spent));
    let written = write_pieces(sink, &pieces);
    drop(pieces);
    if let Ok(thread) = letting {
        thread.join(rt);
    }
    written
}
