//! The top call.

ghost use Rattle.std.specs.Prelude.{◌≡◌, ℕ, ◌^◌, ◌<◌, ◌≤◌, ◌⊎◌, Option, Some, List, length, Ok};
ghost use Rattle.cr_io.specs.Causes.{Rose};
ghost use Rattle.cr_model.specs.Problems.{ProblemParts};
ghost use Rattle.cr_model.specs.Checkpoints.{IsCheckpoint};
ghost use Rattle.cr_model.specs.ProblemFiles.{ProblemFile};
ghost use Rattle.cr_model.specs.Sizes.{most_rows, size_of_all};
ghost use Rattle.cr_model.specs.Inputs.{Input};
ghost use Rattle.cr_shard.specs.JoinFaults.{IsJoin};
ghost use Rattle.cr_trail.specs.Lasts.{IsLast};
ghost use Rattle.cr_words.specs.Commands.{texts_of};
ghost use Rattle.cr_words.specs.Readings.{IsAccepted, IsWordsFaultOf};
ghost use Rattle.cr_trail.specs.Runs.{KeepsTo};
ghost use Rattle.cr_top.specs.Audited.{IsAuditOf};
ghost use Rattle.cr_top.specs.Lines.{note_line};
ghost use Rattle.cr_top.specs.Noted.{AppendsFront};
ghost use Rattle.cr_top.specs.Endings.{AsksSearch, AsksMake, AsksTrail, AsksLast, AsksCut, AsksJoin, AsksLog, AsksAudit, EndsMake, EndsWish, Ends};
ghost use Rattle.cr_top.specs.Endings.{HasTurns, HasShards, IsDue, IsLastDue, IsJoinDue, IsLogDue, IsAuditDue, status_of};

use crate::Status;
use crate::answers::inputs_have_one_answer;
use crate::audit_laws::texts_have_one_audit;
use crate::auditing::audit_written;
use crate::gate::Gate;
use crate::last::last_written;
use crate::logging::log_written;
use crate::making::summary_for;
use crate::notes::write_note;
use crate::refusal::{Refusal, status_for};
use crate::search::{search_alone, searched_together};
use crate::sharding::{cut_written, join_written};
use crate::trailing::{trail_alone, trailed_together};
use cr_io::{Sink, Source, write_whole};
use cr_read::bytes_have_one_answer;
use cr_shard::laws::texts_have_one_answer;
use cr_trail::last_laws::each_text_has_one_last_block;
use cr_words::laws::{words_are_accepted_or_have_a_fault, words_read_as_one_wish};
use cr_words::{Mode, Wish, WordsFault, read_words};
use std::sync::Wait;
use std::thread::Threads;

/// Does all that the program does: reads an input from the source, searches it, and writes its book or, after the turns
/// that are allowed, a checkpoint to the sink, or a trail of checkpoints; or writes the last whole checkpoint of what is
/// left of a trail; or cuts an input into shards, which are checkpoints that can be searched apart, or joins such; or
/// writes a problem with its book and a log of its whole search, or audits such a book by its log; or makes a problem of a
/// number and writes its summary.
///
/// Nothing is written before the whole text is made, but that of a trail is written block by block. Each status but
/// `Finished` writes its line to the notes; a fault of theirs ends the line and changes no status. Each exploration of an
/// input's search enters the gate first.
pub fn ringsearch<
    R: AllocGlobal + Threads + Wait + Sync,
    S: Source,
    K: Sink,
    N: Sink,
    G: Gate + Sync,
>(rt: &R, words: &[String], source: &mut S, sink: &mut K, notes: &mut N, gate: &G) -> Status
    ensures ends { Ends (record { took = S.took; left = S.left; faults = S.faults; old = source.old; new = source.new })
        (record { grew = K.grew; faults = K.faults; old = sink.old; new = sink.new }) (texts_of words.now) result }
    ensures refuses_words { (fault : WordsFault) → IsWordsFaultOf (texts_of words.now) fault →
        (result ≡ Status.Words fault) ⊎ (result ≡ Status.NoMemory) }
    ensures complete { (turns : Option ℕ) → AsksSearch (texts_of words.now) turns →
        (input bytes : List ℕ) (p : ProblemParts) (found nodes : List (List ℕ)) →
        S.left source.old ≡ Some input → length input ≤ 2 ^ 40 → Input input bytes p found nodes →
        KeepsTo turns (size_of_all p most_rows nodes) →
        (Rose (S.faults source.old) (S.faults source.new) → ⊥) →
        (Rose (K.faults sink.old) (K.faults sink.new) → ⊥) →
        (result ≡ Status.Finished) ⊎ (result ≡ Status.NoMemory) }
    ensures stops { (turns : ℕ) → AsksSearch (texts_of words.now) (Some turns) →
        (input bytes : List ℕ) (p : ProblemParts) (found nodes : List (List ℕ)) →
        S.left source.old ≡ Some input → length input ≤ 2 ^ 40 → Input input bytes p found nodes →
        turns < size_of_all p most_rows nodes →
        (Rose (S.faults source.old) (S.faults source.new) → ⊥) →
        (Rose (K.faults sink.old) (K.faults sink.new) → ⊥) →
        (result ≡ Status.Stopped turns) ⊎ (result ≡ Status.NoMemory) }
    ensures refuses { (turns : Option ℕ) → AsksSearch (texts_of words.now) turns →
        (input : List ℕ) → S.left source.old ≡ Some input → (due : Status) → IsDue input due →
        (Rose (S.faults source.old) (S.faults source.new) → ⊥) →
        (result ≡ due) ⊎ (result ≡ Status.NoMemory) }
    ensures trails { (every : ℕ) → AsksTrail (texts_of words.now) every →
        (input bytes : List ℕ) (p : ProblemParts) (found nodes : List (List ℕ)) →
        S.left source.old ≡ Some input → length input ≤ 2 ^ 40 → Input input bytes p found nodes →
        (Rose (S.faults source.old) (S.faults source.new) → ⊥) →
        (Rose (K.faults sink.old) (K.faults sink.new) → ⊥) →
        (result ≡ Status.Finished) ⊎ (result ≡ Status.NoMemory) }
    ensures refuses_trail { (every : ℕ) → AsksTrail (texts_of words.now) every →
        (input : List ℕ) → S.left source.old ≡ Some input → (due : Status) → IsDue input due →
        (Rose (S.faults source.old) (S.faults source.new) → ⊥) →
        (result ≡ due) ⊎ (result ≡ Status.NoMemory) }
    ensures lasts { AsksLast (texts_of words.now) → (input : List ℕ) (last : ℕ × ℕ) →
        S.left source.old ≡ Some input → length input ≤ 2 ^ 40 → IsLast input (Ok last) →
        (Rose (S.faults source.old) (S.faults source.new) → ⊥) →
        (Rose (K.faults sink.old) (K.faults sink.new) → ⊥) →
        (result ≡ Status.Finished) ⊎ (result ≡ Status.NoMemory) }
    ensures refuses_last { AsksLast (texts_of words.now) →
        (input : List ℕ) → S.left source.old ≡ Some input → (due : Status) → IsLastDue input due →
        (Rose (S.faults source.old) (S.faults source.new) → ⊥) →
        (result ≡ due) ⊎ (result ≡ Status.NoMemory) }
    ensures cuts { (into : ℕ) → AsksCut (texts_of words.now) into →
        (input bytes : List ℕ) (p : ProblemParts) (found nodes : List (List ℕ)) →
        S.left source.old ≡ Some input → length input ≤ 2 ^ 40 → Input input bytes p found nodes →
        (Rose (S.faults source.old) (S.faults source.new) → ⊥) →
        (Rose (K.faults sink.old) (K.faults sink.new) → ⊥) →
        (result ≡ Status.Finished) ⊎ (result ≡ Status.NoMemory) }
    ensures refuses_cut { (into : ℕ) → AsksCut (texts_of words.now) into →
        (input : List ℕ) → S.left source.old ≡ Some input → (due : Status) → IsDue input due →
        (Rose (S.faults source.old) (S.faults source.new) → ⊥) →
        (result ≡ due) ⊎ (result ≡ Status.NoMemory) }
    ensures joins { AsksJoin (texts_of words.now) → (input joined : List ℕ) →
        S.left source.old ≡ Some input → length input ≤ 2 ^ 40 → IsJoin input joined →
        (Rose (S.faults source.old) (S.faults source.new) → ⊥) →
        (Rose (K.faults sink.old) (K.faults sink.new) → ⊥) →
        (result ≡ Status.Finished) ⊎ (result ≡ Status.NoMemory) }
    ensures refuses_join { AsksJoin (texts_of words.now) →
        (input : List ℕ) → S.left source.old ≡ Some input → (due : Status) → IsJoinDue input due →
        (Rose (S.faults source.old) (S.faults source.new) → ⊥) →
        (result ≡ due) ⊎ (result ≡ Status.NoMemory) }
    ensures logs { AsksLog (texts_of words.now) → (input : List ℕ) (p : ProblemParts) →
        S.left source.old ≡ Some input → length input ≤ 2 ^ 40 → (IsCheckpoint input → ⊥) → ProblemFile input p →
        (Rose (S.faults source.old) (S.faults source.new) → ⊥) →
        (Rose (K.faults sink.old) (K.faults sink.new) → ⊥) →
        (result ≡ Status.Finished) ⊎ (result ≡ Status.NoMemory) }
    ensures refuses_log { AsksLog (texts_of words.now) →
        (input : List ℕ) → S.left source.old ≡ Some input → (due : Status) → IsLogDue input due →
        (Rose (S.faults source.old) (S.faults source.new) → ⊥) →
        (result ≡ due) ⊎ (result ≡ Status.NoMemory) }
    ensures audits { AsksAudit (texts_of words.now) → (input : List ℕ) (number : ℕ) →
        S.left source.old ≡ Some input → length input ≤ 2 ^ 40 → IsAuditOf input number →
        (Rose (S.faults source.old) (S.faults source.new) → ⊥) →
        (Rose (K.faults sink.old) (K.faults sink.new) → ⊥) →
        (result ≡ Status.Finished) ⊎ (result ≡ Status.NoMemory) }
    ensures refuses_audit { AsksAudit (texts_of words.now) →
        (input : List ℕ) → S.left source.old ≡ Some input → (due : Status) → IsAuditDue input due →
        (Rose (S.faults source.old) (S.faults source.new) → ⊥) →
        (result ≡ due) ⊎ (result ≡ Status.NoMemory) }
    ensures makes { (number : ℕ) → AsksMake (texts_of words.now) number →
        (Rose (K.faults sink.old) (K.faults sink.new) → ⊥) →
        (result ≡ Status.Finished) ⊎ (result ≡ Status.NoMemory) }
    ensures noted { AppendsFront N.grew notes.old notes.new (note_line result) }
    ensures noted_whole { (Rose (N.faults notes.old) (N.faults notes.new) → ⊥) →
        N.grew notes.old notes.new (note_line result) }
    ensures silent { result ≡ Status.Finished → notes.new ≡ notes.old }
    ensures source_later { S.faults source.old ≤ S.faults source.new }
    ensures sink_later { K.faults sink.old ≤ K.faults sink.new }
    ensures notes_later { N.faults notes.old ≤ N.faults notes.new }
{
    words_read_as_one_wish();
    words_are_accepted_or_have_a_fault();
    inputs_have_one_answer();
    each_text_has_one_last_block();
    texts_have_one_answer();
    bytes_have_one_answer();
    texts_have_one_audit();
    let status = ended(rt, words, source, sink, gate);
    write_note(notes, &status);
    status
}

// How the call ends, before the notes are written.
fn ended<R: AllocGlobal + Threads + Wait + Sync, S: Source, K: Sink, G: Gate + Sync>(
    rt: &R,
    words: &[String],
    source: &mut S,
    sink: &mut K,
    gate: &G,
) -> Status
    ensures ends { Ends (record { took = S.took; left = S.left; faults = S.faults; old = source.old; new = source.new })
        (record { grew = K.grew; faults = K.faults; old = sink.old; new = sink.new }) (texts_of words.now) result }
    ensures source_later { S.faults source.old ≤ S.faults source.new }
    ensures sink_later { K.faults sink.old ≤ K.faults sink.new }
{
    words_are_accepted_or_have_a_fault();
    match read_words(rt.alloc(), words) {
        Ok(wish) => carried_out(rt, wish, source, sink, gate),
        Err(WordsFault::NoMemory) => status_for(Err(Refusal::NoMemory)),
        Err(fault) => status_for(Err(Refusal::Words(fault))),
    }
}

// Does what is wished for. One worker waits for nobody.
fn carried_out<R: AllocGlobal + Threads + Wait + Sync, S: Source, K: Sink, G: Gate + Sync>(
    rt: &R,
    wish: Wish,
    source: &mut S,
    sink: &mut K,
    gate: &G,
) -> Status
    requires some_workers { 1 ≤ wish.workers }
    requires few_workers { wish.workers ≤ 64 }
    requires some_turns { HasTurns wish.mode }
    requires some_shards { HasShards wish.mode }
    ensures ends { EndsWish (record { took = S.took; left = S.left; faults = S.faults; old = source.old; new = source.new })
        (record { grew = K.grew; faults = K.faults; old = sink.old; new = sink.new }) wish.mode wish.turns result }
    ensures source_later { S.faults source.old ≤ S.faults source.new }
    ensures sink_later { K.faults sink.old ≤ K.faults sink.new }
{
    match wish.mode {
        Mode::Search if wish.workers == 1 => search_alone(rt, wish.turns, source, sink, gate),
        Mode::Search => status_for(searched_together(
            rt,
            wish.workers,
            wish.turns,
            source,
            sink,
            gate,
        )),
        Mode::Make(number) => status_for(made(rt, wish.workers, number, sink)),
        Mode::Trail(every) if wish.workers == 1 => trail_alone(rt, every, source, sink, gate),
        Mode::Trail(every) => status_for(trailed_together(
            rt,
            wish.workers,
            every,
            source,
            sink,
            gate,
        )),
        Mode::Last => status_for(last_written(rt.alloc(), source, sink)),
        Mode::Cut(into) => status_for(cut_written(rt.alloc(), into, source, sink)),
        Mode::Join => status_for(join_written(rt.alloc(), source, sink)),
        Mode::Log => status_for(log_written(rt.alloc(), source, sink)),
        Mode::Audit => status_for(audit_written(rt.alloc(), source, sink)),
    }
}

// Makes the problem of a number, searches it and writes its summary.
fn made<R: AllocGlobal + Threads + Wait + Sync, K: Sink>(
    rt: &R,
    workers: u32,
    number: u32,
    sink: &mut K,
) -> Result<Option<u64>, Refusal>
    requires some_workers { 1 ≤ workers }
    requires few_workers { workers ≤ 64 }
    ensures ends { EndsMake (record { grew = K.grew; faults = K.faults; old = sink.old; new = sink.new }) number (status_of result) }
    ensures later { K.faults sink.old ≤ K.faults sink.new }
{
    let text = summary_for(rt, workers, number)?;
    write_whole(sink, &text)?;
    Ok(None)
}
