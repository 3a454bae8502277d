//! The search of a source's input that writes a trail of checkpoints into a sink.

ghost use Rattle.std.specs.Prelude.{◌≡◌, ℕ, ◌^◌, ◌≤◌, ◌⊎◌, Some, List, length};
ghost use Rattle.cr_io.specs.Causes.{Rose};
ghost use Rattle.cr_model.specs.Problems.{ProblemParts};
ghost use Rattle.cr_model.specs.Inputs.{Input};
ghost use Rattle.cr_top.specs.Endings.{EndsTrail, IsDue, status_of};

use crate::Status;
use crate::answers::inputs_have_one_answer;
use crate::boards::{trail_by, trail_by_one};
use crate::gate::Gate;
use crate::preparing::prepare;
use crate::refusal::{Refusal, result_for, status_for};
use cr_io::{Sink, Source};
use cr_trail::laws::a_trail_of_what_an_input_says;
use std::sync::Wait;
use std::thread::Threads;

/// Searches what is left in the source by one worker, who waits for nobody: so it is proved to return. It writes a
/// checkpoint to the sink at once, after each so many turns and at the end, as `ringsearch` does for words that wish for
/// a trail. Each exploration enters the gate first.
pub fn trail_alone<R: AllocGlobal + Threads + Sync, S: Source, K: Sink, G: Gate + Sync>(
    rt: &R,
    every: u64,
    source: &mut S,
    sink: &mut K,
    gate: &G,
) -> Status
    requires { 1 ≤ every }
    ensures ends { EndsTrail (record { took = S.took; left = S.left; faults = S.faults; old = source.old; new = source.new })
        (record { grew = K.grew; faults = K.faults; old = sink.old; new = sink.new }) every result }
    ensures complete { (input bytes : List ℕ) (p : ProblemParts) (found nodes : List (List ℕ)) →
        S.left source.old ≡ Some input → length input ≤ 2 ^ 40 → Input input bytes p found nodes →
        (Rose (S.faults source.old) (S.faults source.new) → ⊥) →
        (Rose (K.faults sink.old) (K.faults sink.new) → ⊥) →
        (result ≡ Status.Finished) ⊎ (result ≡ Status.NoMemory) }
    ensures refuses { (input : List ℕ) → S.left source.old ≡ Some input → (due : Status) → IsDue input due →
        (Rose (S.faults source.old) (S.faults source.new) → ⊥) →
        (result ≡ due) ⊎ (result ≡ Status.NoMemory) }
    ensures source_later { S.faults source.old ≤ S.faults source.new }
    ensures sink_later { K.faults sink.old ≤ K.faults sink.new }
{
    inputs_have_one_answer();
    let result = trailed_alone(rt, every, source, sink, gate);
    status_for(result)
}

// The trail by one worker, or why it was not written whole.
fn trailed_alone<R: AllocGlobal + Threads + Sync, S: Source, K: Sink, G: Gate + Sync>(
    rt: &R,
    every: u64,
    source: &mut S,
    sink: &mut K,
    gate: &G,
) -> Result<Option<u64>, Refusal>
    requires { 1 ≤ every }
    ensures ends { EndsTrail (record { took = S.took; left = S.left; faults = S.faults; old = source.old; new = source.new })
        (record { grew = K.grew; faults = K.faults; old = sink.old; new = sink.new }) every (status_of result) }
    ensures source_later { S.faults source.old ≤ S.faults source.new }
    ensures sink_later { K.faults sink.old ≤ K.faults sink.new }
{
    a_trail_of_what_an_input_says();
    let prepared = prepare(rt, 1, source)?;
    let start = prepared.start;
    let end = trail_by_one(rt, &prepared.search, gate, start, every, sink);
    result_for(end)
}

/// The trail by so many workers, who may wait for one another, or why it was not written whole.
pub fn trailed_together<R: AllocGlobal + Threads + Wait + Sync, S: Source, K: Sink, G: Gate + Sync>(
    rt: &R,
    workers: u32,
    every: u64,
    source: &mut S,
    sink: &mut K,
    gate: &G,
) -> Result<Option<u64>, Refusal>
    requires some { 1 ≤ every }
    requires some_workers { 1 ≤ workers }
    requires few_workers { workers ≤ 64 }
    ensures ends { EndsTrail (record { took = S.took; left = S.left; faults = S.faults; old = source.old; new = source.new })
        (record { grew = K.grew; faults = K.faults; old = sink.old; new = sink.new }) every (status_of result) }
    ensures source_later { S.faults source.old ≤ S.faults source.new }
    ensures sink_later { K.faults sink.old ≤ K.faults sink.new }
{
    a_trail_of_what_an_input_says();
    let prepared = prepare(rt, workers, source)?;
    let start = prepared.start;
    let end = trail_by(rt, workers, &prepared.search, gate, start, every, sink);
    result_for(end)
}
