//! Searches and trails over boards, by one worker or by several.

ghost use Rattle.std.specs.Prelude.{◌≡◌, ◌↔◌, ◌<◌, ◌≤◌, [], length, IsTrue, IfOk, IfSome};
ghost use Rattle.cr_model.specs.Checkpoints.{CanGoOn};
ghost use Rattle.cr_model.specs.ProblemFiles.{ProblemFile};
ghost use Rattle.cr_run.specs.Runs.{IsRun};
ghost use Rattle.cr_store.specs.Written.{lists};
ghost use Rattle.cr_explore.specs.Searches.{searched};
ghost use Rattle.cr_trail.specs.Runs.{KeepsTo, RunsTo, RunsOn, turns_after};
ghost use Rattle.cr_trail.specs.Trails.{EndsTrail};

use crate::gate::{Gate, Gated};
use crate::narrow::looking_ahead;
use crate::start::Start;
use cr_board::{Board, Opening};
use cr_explore::{LONG_ROOM, LONGEST_ROOM, Room, Search};
use cr_io::Sink;
use cr_node::Explorer;
use cr_row::NoMemory;
use cr_run::laws::boards_at_rest;
use cr_run::{run_alone, run_workers};
use cr_shifts::find_in_shifts;
use cr_store::Remaining;
use cr_trail::laws::runs_follow_one_another;
use cr_trail::{ByCall, RunProgress, TrailEnd, run_on, run_trail};
use std::alloc::Global;
use std::sync::Wait;
use std::thread::Threads;

// A search that rings tries to get numbers in this room once each worker took so many turns.
struct Trial {
    turns: u64,
    room: Room,
}

// A trial takes about as long as the turns before it, whether there is room or not: a second, and then some ten.
const TRIALS: &[Trial] = &[
    Trial {
        turns: 1 << 18,
        room: LONG_ROOM,
    },
    Trial {
        turns: 1 << 22,
        room: LONGEST_ROOM,
    },
];

/// Goes on with a search by one worker, who waits for nobody, until no job is left or the turns that are allowed are
/// used. One that rings gets more room once it is long, and one that counts no turns passes by what cannot come to what is
/// asked, where that serves. Each exploration enters the gate first. Err where no memory is left.
pub fn search_by_one<R: AllocGlobal + Threads + Sync, G: Gate + Sync>(
    rt: &R,
    search: &Search,
    gate: &G,
    left: Remaining,
    turns: Option<u64>,
) -> Result<RunProgress, NoMemory>
    requires { CanGoOn (searched search.now) left.found.items (lists left.jobs.items) }
    ensures { IfOk result (λ now. RunsTo (searched search.now) left.found.items (lists left.jobs.items) turns
        now.left.found.items (lists now.left.jobs.items)) }
{
    runs_follow_one_another();
    let before = RunProgress::begun(rt.alloc(), left)?;
    let end = search_on_by_one(rt, search, gate, before, turns, TRIALS)?;
    Ok(end)
}

// Goes on from where a search went, by one worker. While it rings, it tries to get numbers in these rooms, one after another.
fn search_on_by_one<R: AllocGlobal + Threads + Sync, G: Gate + Sync>(
    rt: &R,
    search: &Search,
    gate: &G,
    before: RunProgress,
    turns: Option<u64>,
    trials: &[Trial],
) -> Result<RunProgress, NoMemory>
    requires goes_on { CanGoOn (searched search.now) [] (lists before.left.jobs.items) }
    ensures { IfOk result (λ now. RunsOn (searched search.now) before.left.found.items (lists before.left.jobs.items) turns
        now.left.found.items (lists now.left.jobs.items)) }
{
    runs_follow_one_another();
    let Some((trial, later)) = next_trial(search, trials) else {
        return go_on_by_one(rt, search, gate, before, turns);
    };
    let gated = Gated {
        explorer: search,
        gate,
    };
    let first = first_turns(trial, 1, turns);
    let went = run_by_one(rt.alloc(), &gated, before, Some(first))?;
    if is_over(&went.left) {
        return Ok(went);
    }
    let rest = rest_of(turns, first);
    let longer = more_room(rt.alloc(), search, trial.room, rest);
    let end = search_on_by_one(rt, roomiest(&longer, search), gate, went, rest, later)?;
    Ok(end)
}

// Goes on from where a search went, in one run by one worker: on boards or, where turns are not counted and it serves, past
// what cannot come to what is asked.
fn go_on_by_one<R: AllocGlobal + Threads + Sync, G: Gate + Sync>(
    rt: &R,
    search: &Search,
    gate: &G,
    before: RunProgress,
    turns: Option<u64>,
) -> Result<RunProgress, NoMemory>
    requires goes_on { CanGoOn (searched search.now) [] (lists before.left.jobs.items) }
    ensures { IfOk result (λ now. RunsOn (searched search.now) before.left.found.items (lists before.left.jobs.items) turns
        now.left.found.items (lists now.left.jobs.items)) }
{
    if let Some(narrow) = looking_ahead(rt.alloc(), search, turns, &before.left.jobs) {
        let gated = Gated {
            explorer: &narrow,
            gate,
        };
        return find_in_shifts(rt, 1, &gated, before);
    }
    let gated = Gated {
        explorer: search,
        gate,
    };
    run_by_one(rt.alloc(), &gated, before, turns)
}

/// The same as `search_by_one` by so many workers, who may wait for one another.
pub fn search_by<R: AllocGlobal + Threads + Wait + Sync, G: Gate + Sync>(
    rt: &R,
    workers: u32,
    search: &Search,
    gate: &G,
    left: Remaining,
    turns: Option<u64>,
) -> Result<RunProgress, NoMemory>
    requires goes_on { CanGoOn (searched search.now) left.found.items (lists left.jobs.items) }
    requires some_workers { 1 ≤ workers }
    requires few_workers { workers ≤ 64 }
    ensures { IfOk result (λ now. RunsTo (searched search.now) left.found.items (lists left.jobs.items) turns
        now.left.found.items (lists now.left.jobs.items)) }
{
    let before = RunProgress::begun(rt.alloc(), left)?;
    runs_follow_one_another();
    let end = search_on_by(rt, workers, search, gate, before, turns, TRIALS)?;
    Ok(end)
}

// The same as `search_on_by_one` by so many workers.
fn search_on_by<R: AllocGlobal + Threads + Wait + Sync, G: Gate + Sync>(
    rt: &R,
    workers: u32,
    search: &Search,
    gate: &G,
    before: RunProgress,
    turns: Option<u64>,
    trials: &[Trial],
) -> Result<RunProgress, NoMemory>
    requires goes_on { CanGoOn (searched search.now) [] (lists before.left.jobs.items) }
    requires some_workers { 1 ≤ workers }
    requires few_workers { workers ≤ 64 }
    ensures { IfOk result (λ now. RunsOn (searched search.now) before.left.found.items (lists before.left.jobs.items) turns
        now.left.found.items (lists now.left.jobs.items)) }
{
    runs_follow_one_another();
    let Some((trial, later)) = next_trial(search, trials) else {
        return go_on_by(rt, workers, search, gate, before, turns);
    };
    let gated = Gated {
        explorer: search,
        gate,
    };
    let first = first_turns(trial, workers, turns);
    let went = run_by(rt, workers, &gated, before, Some(first))?;
    if is_over(&went.left) {
        return Ok(went);
    }
    let rest = rest_of(turns, first);
    let longer = more_room(rt.alloc(), search, trial.room, rest);
    let search = roomiest(&longer, search);
    let end = search_on_by(rt, workers, search, gate, went, rest, later)?;
    Ok(end)
}

// The same in one run by so many workers.
fn go_on_by<R: AllocGlobal + Threads + Wait + Sync, G: Gate + Sync>(
    rt: &R,
    workers: u32,
    search: &Search,
    gate: &G,
    before: RunProgress,
    turns: Option<u64>,
) -> Result<RunProgress, NoMemory>
    requires goes_on { CanGoOn (searched search.now) [] (lists before.left.jobs.items) }
    requires some_workers { 1 ≤ workers }
    requires few_workers { workers ≤ 64 }
    ensures { IfOk result (λ now. RunsOn (searched search.now) before.left.found.items (lists before.left.jobs.items) turns
        now.left.found.items (lists now.left.jobs.items)) }
{
    if let Some(narrow) = looking_ahead(rt.alloc(), search, turns, &before.left.jobs) {
        let gated = Gated {
            explorer: &narrow,
            gate,
        };
        return find_in_shifts(rt, workers, &gated, before);
    }
    let gated = Gated {
        explorer: search,
        gate,
    };
    run_by(rt, workers, &gated, before, turns)
}

// The search with more room where there is one, and else the one that stands.
fn roomiest<'a>(longer: &'a Option<Search>, search: &'a Search) -> &'a Search
    requires { IfSome longer.now (λ longer. searched longer ≡ searched search.now) }
    ensures { searched result.now ≡ searched search.now }
{
    match longer {
        Some(longer) => longer,
        None => search,
    }
}

// The next of some trials and those after it. None where a search has numbers, or none is left.
fn next_trial<'a>(search: &Search, trials: &'a [Trial]) -> Option<(&'a Trial, &'a [Trial])>
    ensures { IfSome result (λ next. length next.1.now < length trials.now) }
{
    if search.rings() {
        trials.split_first()
    } else {
        None
    }
}

// The turns before a trial, no more than are allowed.
fn first_turns(trial: &Trial, workers: u32, turns: Option<u64>) -> u64
    requires { workers ≤ 64 }
    ensures { KeepsTo turns result }
{
    let most = u64::from(workers).saturating_mul(trial.turns);
    match turns {
        Some(turns) => turns.min(most),
        None => most,
    }
}

// Whether no job is left.
fn is_over(left: &Remaining) -> bool
    ensures { IsTrue result ↔ (lists left.now.jobs.items ≡ []) }
{
    left.jobs.is_empty()
}

// The turns that are allowed after so many.
fn rest_of(turns: Option<u64>, used: u64) -> Option<u64>
    requires { KeepsTo turns used }
    ensures { result ≡ turns_after turns used }
{
    match turns {
        Some(turns) => Some(turns - used),
        None => None,
    }
}

// The search with numbers in a room, where there are turns for it.
fn more_room(alloc: Global, search: &Search, room: Room, turns: Option<u64>) -> Option<Search>
    ensures { IfSome result (λ longer. searched longer ≡ searched search.now) }
{
    if turns == Some(0) {
        return None;
    }
    search.with_more_room(alloc, room)
}

/// Goes on from where a search went, by one worker, who waits for nobody, until no job is left or the turns that are
/// allowed are used. Err where no memory is left.
pub fn run_by_one<E: Explorer>(
    alloc: Global,
    explorer: &E,
    before: RunProgress,
    turns: Option<u64>,
) -> Result<RunProgress, NoMemory>
    requires { CanGoOn (E.explores explorer.now) [] (lists before.left.jobs.items) }
    ensures { IfOk result (λ now. RunsOn (E.explores explorer.now) before.left.found.items (lists before.left.jobs.items) turns
        now.left.found.items (lists now.left.jobs.items)) }
{
    let call = |opening: Opening| -> Result<Board, NoMemory>
        requires { E.explores explorer.now ≡ opening.problem }
        ensures { IfOk result (IsRun opening) }
    { run_one(alloc, opening, explorer) };
    let runner = ByCall {
        problem: explorer.problem(),
        call,
    };
    run_on(alloc, 1, &runner, before, turns)
}

/// The same by so many workers, who may wait for one another.
pub fn run_by<R: AllocGlobal + Threads + Wait + Sync, E: Explorer + Sync>(
    rt: &R,
    workers: u32,
    explorer: &E,
    before: RunProgress,
    turns: Option<u64>,
) -> Result<RunProgress, NoMemory>
    requires goes_on { CanGoOn (E.explores explorer.now) [] (lists before.left.jobs.items) }
    requires some_workers { 1 ≤ workers }
    requires few_workers { workers ≤ 64 }
    ensures { IfOk result (λ now. RunsOn (E.explores explorer.now) before.left.found.items (lists before.left.jobs.items) turns
        now.left.found.items (lists now.left.jobs.items)) }
{
    let call = |opening: Opening| -> Result<Board, NoMemory>
        requires { E.explores explorer.now ≡ opening.problem }
        ensures { IfOk result (IsRun opening) }
    { run_opening(rt, opening, explorer) };
    let runner = ByCall {
        problem: explorer.problem(),
        call,
    };
    run_on(rt.alloc(), workers, &runner, before, turns)
}

/// Goes on with what an input says to the end of its search, by one worker, who waits for nobody, and writes a checkpoint
/// at once, after each so many turns and at the end. Where these are many, the search gets more room. Each exploration
/// enters the gate first.
pub fn trail_by_one<R: AllocGlobal + Threads + Sync, G: Gate, K: Sink>(
    rt: &R,
    search: &Search,
    gate: &G,
    start: Start,
    every: u64,
    sink: &mut K,
) -> TrailEnd
    requires some { 1 ≤ every }
    requires file { ProblemFile start.bytes.items (searched search.now) }
    requires goes_on { CanGoOn (searched search.now) start.left.found.items (lists start.left.jobs.items) }
    ensures ends { EndsTrail K.grew K.faults sink.old sink.new (searched search.now) start.bytes.items
        start.left.found.items (lists start.left.jobs.items) every result }
    ensures later { K.faults sink.old ≤ K.faults sink.new }
{
    let longer = room_for_trail(rt.alloc(), search, 1, every);
    let gated = Gated {
        explorer: roomiest(&longer, search),
        gate,
    };
    run_trail_by_one(rt, &gated, start, every, sink)
}

/// The same by so many workers, who may wait for one another.
pub fn trail_by<R: AllocGlobal + Threads + Wait + Sync, G: Gate + Sync, K: Sink>(
    rt: &R,
    workers: u32,
    search: &Search,
    gate: &G,
    start: Start,
    every: u64,
    sink: &mut K,
) -> TrailEnd
    requires some { 1 ≤ every }
    requires file { ProblemFile start.bytes.items (searched search.now) }
    requires goes_on { CanGoOn (searched search.now) start.left.found.items (lists start.left.jobs.items) }
    requires some_workers { 1 ≤ workers }
    requires few_workers { workers ≤ 64 }
    ensures ends { EndsTrail K.grew K.faults sink.old sink.new (searched search.now) start.bytes.items
        start.left.found.items (lists start.left.jobs.items) every result }
    ensures later { K.faults sink.old ≤ K.faults sink.new }
{
    let longer = room_for_trail(rt.alloc(), search, workers, every);
    let gated = Gated {
        explorer: roomiest(&longer, search),
        gate,
    };
    run_trail_by(rt, workers, &gated, start, every, sink)
}

// The search with numbers, in the largest room for which the turns between two checkpoints are enough.
fn room_for_trail(alloc: Global, search: &Search, workers: u32, every: u64) -> Option<Search>
    requires { workers ≤ 64 }
    ensures { IfSome result (λ longer. searched longer ≡ searched search.now) }
{
    let trial = TRIALS.iter().rev().find(|trial| u64::from(workers).saturating_mul(trial.turns)
        <= every)?;
    search.with_more_room(alloc, trial.room)
}

// The trail of an explorer, by one worker.
fn run_trail_by_one<R: AllocGlobal + Threads + Sync, E: Explorer, K: Sink>(
    rt: &R,
    explorer: &E,
    start: Start,
    every: u64,
    sink: &mut K,
) -> TrailEnd
    requires some { 1 ≤ every }
    requires file { ProblemFile start.bytes.items (E.explores explorer.now) }
    requires goes_on { CanGoOn (E.explores explorer.now) start.left.found.items (lists start.left.jobs.items) }
    ensures ends { EndsTrail K.grew K.faults sink.old sink.new (E.explores explorer.now) start.bytes.items
        start.left.found.items (lists start.left.jobs.items) every result }
    ensures later { K.faults sink.old ≤ K.faults sink.new }
{
    let call = |opening: Opening| -> Result<Board, NoMemory>
        requires { E.explores explorer.now ≡ opening.problem }
        ensures { IfOk result (IsRun opening) }
    { run_one(rt.alloc(), opening, explorer) };
    let runner = ByCall {
        problem: explorer.problem(),
        call,
    };
    let left = start.left;
    run_trail(rt, 1, &runner, &start.bytes, left, every, sink)
}

// The trail of an explorer, by so many workers.
fn run_trail_by<R: AllocGlobal + Threads + Wait + Sync, E: Explorer + Sync, K: Sink>(
    rt: &R,
    workers: u32,
    explorer: &E,
    start: Start,
    every: u64,
    sink: &mut K,
) -> TrailEnd
    requires some { 1 ≤ every }
    requires file { ProblemFile start.bytes.items (E.explores explorer.now) }
    requires goes_on { CanGoOn (E.explores explorer.now) start.left.found.items (lists start.left.jobs.items) }
    requires some_workers { 1 ≤ workers }
    requires few_workers { workers ≤ 64 }
    ensures ends { EndsTrail K.grew K.faults sink.old sink.new (E.explores explorer.now) start.bytes.items
        start.left.found.items (lists start.left.jobs.items) every result }
    ensures later { K.faults sink.old ≤ K.faults sink.new }
{
    let call = |opening: Opening| -> Result<Board, NoMemory>
        requires { E.explores explorer.now ≡ opening.problem }
        ensures { IfOk result (IsRun opening) }
    { run_opening(rt, opening, explorer) };
    let runner = ByCall {
        problem: explorer.problem(),
        call,
    };
    let left = start.left;
    run_trail(rt, workers, &runner, &start.bytes, left, every, sink)
}

// Runs a board of an opening to its end, by as many workers as it has. One alone takes no lock.
fn run_opening<R: AllocGlobal + Threads + Wait + Sync, E: Explorer + Sync>(
    rt: &R,
    opening: Opening,
    explorer: &E,
) -> Result<Board, NoMemory>
    requires { E.explores explorer.now ≡ opening.problem }
    ensures { IfOk result (IsRun opening) }
{
    if opening.workers() == 1 {
        run_one(rt.alloc(), opening, explorer)
    } else {
        run_workers(rt, rt.alloc(), opening, explorer)
    }
}

// Runs a board of an opening by one worker.
fn run_one<E: Explorer>(alloc: Global, opening: Opening, explorer: &E) -> Result<Board, NoMemory>
    requires { E.explores explorer.now ≡ opening.problem }
    ensures { IfOk result (IsRun opening) }
{
    boards_at_rest();
    run_alone(alloc, Board::open(alloc, opening)?, explorer)
}
