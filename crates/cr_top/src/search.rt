//! The search of a source's input, into a sink.

ghost use Rattle.std.specs.Prelude.{◌≡◌, ℕ, ◌^◌, ◌<◌, ◌≤◌, ◌⊎◌, Option, Some, List, length};
ghost use Rattle.cr_io.specs.Causes.{Rose};
ghost use Rattle.cr_model.specs.Problems.{ProblemParts};
ghost use Rattle.cr_model.specs.ProblemFiles.{ProblemFile};
ghost use Rattle.cr_model.specs.Sizes.{most_rows, size_of_all};
ghost use Rattle.cr_model.specs.Inputs.{Input};
ghost use Rattle.cr_store.specs.Written.{lists};
ghost use Rattle.cr_trail.specs.Runs.{KeepsTo, RunsTo};
ghost use Rattle.cr_top.specs.Runs.{IsLeft};
ghost use Rattle.cr_top.specs.Starts.{IsStart};
ghost use Rattle.cr_top.specs.Endings.{EndsSearch, IsDue, status_of};
ghost use Rattle.cr_top.specs.Refused.{WritesSearch};

use crate::Status;
use crate::answers::inputs_have_one_answer;
use crate::boards::{search_by, search_by_one};
use crate::gate::Gate;
use crate::preparing::prepare;
use crate::refusal::{Refusal, status_for};
use crate::searching::outcome_of;
use crate::writing::write_beside;
use cr_io::{Sink, Source};
use cr_model::Problem;
use cr_trail::RunProgress;
use std::sync::Wait;
use std::thread::Threads;

/// Searches what is left in the source by one worker, who waits for nobody: so it is proved to return. It writes the
/// book or, after the turns that are allowed, a checkpoint to the sink, as `ringsearch` does for words that wish for a
/// search. Each exploration enters the gate first.
pub fn search_alone<R: AllocGlobal + Threads + Sync, S: Source, K: Sink, G: Gate + Sync>(
    rt: &R,
    turns: Option<u64>,
    source: &mut S,
    sink: &mut K,
    gate: &G,
) -> Status
    ensures ends { EndsSearch (record { took = S.took; left = S.left; faults = S.faults; old = source.old; new = source.new })
        (record { grew = K.grew; faults = K.faults; old = sink.old; new = sink.new }) turns result }
    ensures complete { (input bytes : List ℕ) (p : ProblemParts) (found nodes : List (List ℕ)) →
        S.left source.old ≡ Some input → length input ≤ 2 ^ 40 → Input input bytes p found nodes →
        KeepsTo turns (size_of_all p most_rows nodes) →
        (Rose (S.faults source.old) (S.faults source.new) → ⊥) →
        (Rose (K.faults sink.old) (K.faults sink.new) → ⊥) →
        (result ≡ Status.Finished) ⊎ (result ≡ Status.NoMemory) }
    ensures stops { (after : ℕ) → turns ≡ Some after →
        (input bytes : List ℕ) (p : ProblemParts) (found nodes : List (List ℕ)) →
        S.left source.old ≡ Some input → length input ≤ 2 ^ 40 → Input input bytes p found nodes →
        after < size_of_all p most_rows nodes →
        (Rose (S.faults source.old) (S.faults source.new) → ⊥) →
        (Rose (K.faults sink.old) (K.faults sink.new) → ⊥) →
        (result ≡ Status.Stopped after) ⊎ (result ≡ Status.NoMemory) }
    ensures refuses { (input : List ℕ) → S.left source.old ≡ Some input → (due : Status) → IsDue input due →
        (Rose (S.faults source.old) (S.faults source.new) → ⊥) →
        (result ≡ due) ⊎ (result ≡ Status.NoMemory) }
    ensures source_later { S.faults source.old ≤ S.faults source.new }
    ensures sink_later { K.faults sink.old ≤ K.faults sink.new }
{
    inputs_have_one_answer();
    let result = searched_alone(rt, turns, source, sink, gate);
    status_for(result)
}

// The search by one worker: after how many turns it stopped, or why it was not done.
fn searched_alone<R: AllocGlobal + Threads + Sync, S: Source, K: Sink, G: Gate + Sync>(
    rt: &R,
    turns: Option<u64>,
    source: &mut S,
    sink: &mut K,
    gate: &G,
) -> Result<Option<u64>, Refusal>
    ensures ends { EndsSearch (record { took = S.took; left = S.left; faults = S.faults; old = source.old; new = source.new })
        (record { grew = K.grew; faults = K.faults; old = sink.old; new = sink.new }) turns (status_of result) }
    ensures source_later { S.faults source.old ≤ S.faults source.new }
    ensures sink_later { K.faults sink.old ≤ K.faults sink.new }
{
    let prepared = prepare(rt, 1, source)?;
    let start = prepared.start;
    let went = search_by_one(rt, &prepared.search, gate, start.left, turns)?;
    write_search(rt, 1, &start.problem, &start.bytes, went, turns, sink)
}

/// The search by so many workers, who may wait for one another: after how many turns it stopped, or why it was not done.
pub fn searched_together<
    R: AllocGlobal + Threads + Wait + Sync,
    S: Source,
    K: Sink,
    G: Gate + Sync,
>(
    rt: &R,
    workers: u32,
    turns: Option<u64>,
    source: &mut S,
    sink: &mut K,
    gate: &G,
) -> Result<Option<u64>, Refusal>
    requires some_workers { 1 ≤ workers }
    requires few_workers { workers ≤ 64 }
    ensures ends { EndsSearch (record { took = S.took; left = S.left; faults = S.faults; old = source.old; new = source.new })
        (record { grew = K.grew; faults = K.faults; old = sink.old; new = sink.new }) turns (status_of result) }
    ensures source_later { S.faults source.old ≤ S.faults source.new }
    ensures sink_later { K.faults sink.old ≤ K.faults sink.new }
{
    let prepared = prepare(rt, workers, source)?;
    let start = prepared.start;
    let went = search_by(rt, workers, &prepared.search, gate, start.left, turns)?;
    write_search(rt, workers, &start.problem, &start.bytes, went, turns, sink)
}

// Writes the text that belongs to an input whose search went on so far.
fn write_search<R: AllocGlobal + Threads + Sync, K: Sink>(
    rt: &R,
    workers: u32,
    problem: &Problem,
    bytes: &[u8],
    went: RunProgress,
    turns: Option<u64>,
    sink: &mut K,
) -> Result<Option<u64>, Refusal>
    requires file { ProblemFile bytes.now problem.now }
    requires came { IsLeft problem.now went.left.found.items (lists went.left.jobs.items) }
    ensures writes { (input : List ℕ) (found : List (List ℕ)) (jobs : List (List (List ℕ)))
        → IsStart input bytes.now problem.now found jobs
        → RunsTo problem.now found jobs turns went.left.found.items (lists went.left.jobs.items)
        → WritesSearch (record { grew = K.grew; faults = K.faults; old = sink.old; new = sink.new }) turns input result }
    ensures later { K.faults sink.old ≤ K.faults sink.new }
{
    let outcome = outcome_of(rt, workers, problem, bytes, went, turns)?;
    write_beside(rt, workers, sink, outcome.pieces, outcome.spent)?;
    Ok(outcome.stopped)
}
