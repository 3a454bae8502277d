//! The search of what a source says.

ghost use Rattle.std.specs.Prelude.{◌≡◌, ◌≤◌};
ghost use Rattle.cr_top.specs.Refused.{ReadsInput, Prepares};

use crate::refusal::Refusal;
use crate::start::{Start, start_of_by};
use cr_explore::{Search, make_search};
use cr_io::{Source, read_all};
use std::alloc::Global;
use std::thread::Threads;

// The most bytes that an input may have, 2^40.
const MOST_BYTES: u64 = 1_099_511_627_776;

/// What an input says, and the search of its problem.
#[derive(Drop)]
pub struct Prepared {
    pub start: Start,
    pub search: Search,
}

/// Reads all that is left in the source, and makes the search of what it says. The found touches of a checkpoint are looked
/// at by as many threads as there are workers.
pub fn prepare<R: AllocGlobal + Threads + Sync, S: Source>(
    rt: &R,
    workers: u32,
    source: &mut S,
) -> Result<Prepared, Refusal>
    ensures prepares { Prepares (record { took = S.took; left = S.left; faults = S.faults; old = source.old; new = source.new }) result }
    ensures later { S.faults source.old ≤ S.faults source.new }
{
    let input = input_of(rt.alloc(), source)?;
    let start = start_of_by(rt, rt.alloc(), input, workers as usize)?;
    let search = make_search(rt, rt.alloc(), &start.problem)?;
    Ok(Prepared { start, search })
}

/// All that is left in the source.
pub fn input_of<S: Source>(alloc: Global, source: &mut S) -> Result<Vec<u8>, Refusal>
    ensures reads { ReadsInput (record { took = S.took; left = S.left; faults = S.faults; old = source.old; new = source.new }) result }
    ensures later { S.faults source.old ≤ S.faults source.new }
{
    Ok(read_all(alloc, source, MOST_BYTES)?)
}
