//! Boards, one after another, until no job is left or the turns that are allowed are used.

ghost use Rattle.std.specs.Prelude.{◌≡◌, ◌<◌, ◌≤◌, ◌⊎◌, ◌↔◌, ◌++◌, [], Some, IsTrue, All, IfOk, OnOk};
ghost use Rattle.cr_model.specs.Checkpoints.{CanGoOn};
ghost use Rattle.cr_run.specs.Runs.{IsRun};
ghost use Rattle.cr_store.specs.Written.{lists};
ghost use Rattle.cr_trail.specs.Runs.{KeepsTo, BoardRan, RunsTo, RunsOn, board_turns, turns_after};

use crate::laws::runs_follow_one_another;
use crate::runner::Runner;
use cr_board::laws::{journals_tell_boards, partitions_follow_one_another};
use cr_board::{Entry, Opening};
use cr_model::Calling;
use cr_model::laws::sizes_are_sums;
use cr_node::Node;
use cr_row::NoMemory;
use cr_store::Remaining;
use std::alloc::Global;

/// The most turns of one board, 2^28: its journal has two entries for each grant of 4,096 turns, and is dropped with it.
pub const BOARD_TURNS: u64 = 268_435_456;

/// Where a search went.
#[derive(Drop)]
pub struct RunProgress {
    /// What it found, which is not sorted, and left.
    pub left: Remaining,
    /// How many touches each hand-in brought that brought any, in the order in which they stand in what was found; the
    /// touches that were found before the search went on come first, as one. No clause speaks of these numbers.
    pub handed: Vec<u64>,
}

impl RunProgress {
    /// Where a search is that goes on from what is left. Err where no memory is left.
    pub fn begun(alloc: Global, left: Remaining) -> Result<RunProgress, NoMemory>
        ensures { IfOk result (λ now. now.left ≡ left) }
    {
        let mut handed = Vec::with_capacity(alloc, 1)?;
        handed.push(left.found.len() as u64)?;
        Ok(RunProgress { left, handed })
    }
}

/// Goes on with a search on boards for so many workers, each of which the runner runs to its end, and has at most so many
/// turns, until no job is left or the turns that are allowed are used. Each board is opened with the jobs alone: what was
/// found stands aside, in one list, behind what had been found before, and is not sorted. Its memory does not grow with
/// the number of turns, but for what was found. Err where no memory is left.
pub fn run_boards<R: Runner>(
    alloc: Global,
    workers: u32,
    runner: &R,
    left: Remaining,
    turns: Option<u64>,
    most: u64,
) -> Result<RunProgress, NoMemory>
    requires some { 0 < most }
    requires goes_on { CanGoOn (R.searches runner.now) left.found.items (lists left.jobs.items) }
    requires some_workers { 1 ≤ workers }
    requires few_workers { workers ≤ 64 }
    requires may_run { (opening : _) → R.searches runner.now ≡ opening.problem → R.takes runner.now opening }
    requires runs { (opening : _) (board : _) → R.gives runner.now opening board → IfOk board (IsRun opening) }
    ensures { IfOk result (λ now. RunsTo (R.searches runner.now) left.found.items (lists left.jobs.items) turns
        now.left.found.items (lists now.left.jobs.items)) }
{
    runs_follow_one_another();
    let before = RunProgress::begun(alloc, left)?;
    let went = run_on_boards(alloc, workers, runner, before, turns, most)?;
    Ok(went)
}

/// Goes on with a search on boards of at most 2^28 turns for so many workers, each of which the runner runs to its end,
/// until no job is left or the turns that are allowed are used. What it finds comes behind what was found before, in
/// whatever order that is. Err where no memory is left.
pub fn run_on<R: Runner>(
    alloc: Global,
    workers: u32,
    runner: &R,
    before: RunProgress,
    turns: Option<u64>,
) -> Result<RunProgress, NoMemory>
    requires goes_on { CanGoOn (R.searches runner.now) [] (lists before.left.jobs.items) }
    requires some_workers { 1 ≤ workers }
    requires few_workers { workers ≤ 64 }
    requires may_run { (opening : _) → R.searches runner.now ≡ opening.problem → R.takes runner.now opening }
    requires runs { (opening : _) (board : _) → R.gives runner.now opening board → IfOk board (IsRun opening) }
    ensures { IfOk result (λ now. RunsOn (R.searches runner.now) before.left.found.items (lists before.left.jobs.items) turns
        now.left.found.items (lists now.left.jobs.items)) }
{
    run_on_boards(alloc, workers, runner, before, turns, BOARD_TURNS)
}

// The same on boards of at most so many turns.
fn run_on_boards<R: Runner>(
    alloc: Global,
    workers: u32,
    runner: &R,
    before: RunProgress,
    turns: Option<u64>,
    most: u64,
) -> Result<RunProgress, NoMemory>
    requires some { 0 < most }
    requires goes_on { CanGoOn (R.searches runner.now) [] (lists before.left.jobs.items) }
    requires some_workers { 1 ≤ workers }
    requires few_workers { workers ≤ 64 }
    requires may_run { (opening : _) → R.searches runner.now ≡ opening.problem → R.takes runner.now opening }
    requires runs { (opening : _) (board : _) → R.gives runner.now opening board → IfOk board (IsRun opening) }
    ensures { IfOk result (λ now. RunsOn (R.searches runner.now) before.left.found.items (lists before.left.jobs.items) turns
        now.left.found.items (lists now.left.jobs.items)) }
{
    partitions_follow_one_another();
    sizes_are_sums();
    let _ = runner.problem().stage();
    let RunProgress { left, mut handed } = before;
    let Remaining {
        mut found,
        mut jobs,
    } = left;
    let mut allowed = turns;
    while !is_over(&jobs, allowed) {
        let ran = run_board(alloc, workers, runner, jobs, granted(allowed, most))?;
        put_behind(&mut found, ran.found)?;
        handed.extend_from_slice(&ran.handed)?;
        jobs = ran.jobs;
        allowed = without(allowed, ran.used);
    }
    let left = Remaining { found, jobs };
    Ok(RunProgress { left, handed })
}

// Moves what a board found behind what was found before. Where that is nothing, its list is taken as it is.
fn put_behind(found: &mut Vec<Calling>, mut more: Vec<Calling>) -> Result<(), NoMemory>
    ensures { OnOk result (found.new.items ≡ found.old.items ++ more.items) }
{
    if found.is_empty() {
        *found = more;
        return Ok(());
    }
    found.append(&mut more)?;
    Ok(())
}

// Whether no job is left, or no turn is allowed.
fn is_over(jobs: &[Vec<Node>], turns: Option<u64>) -> bool
    ensures { IsTrue result ↔ ((lists jobs.now ≡ []) ⊎ (turns ≡ Some 0)) }
{
    jobs.is_empty() || turns == Some(0)
}

// How many turns a board may take.
fn granted(turns: Option<u64>, most: u64) -> u64
    ensures { result ≡ board_turns turns most }
{
    match turns {
        Some(turns) => turns.min(most),
        None => most,
    }
}

// The turns that are allowed after so many.
fn without(turns: Option<u64>, used: u64) -> Option<u64>
    requires { KeepsTo turns used }
    ensures { result ≡ turns_after turns used }
{
    match turns {
        Some(turns) => Some(turns - used),
        None => None,
    }
}

// What a board found, how much of it by each hand-in that brought any, the jobs that it left, and how many turns it used.
#[derive(Drop)]
struct BoardEnd {
    found: Vec<Calling>,
    handed: Vec<u64>,
    jobs: Vec<Vec<Node>>,
    used: u64,
}

// Opens a board of the jobs that are left and runs it until no job is left or so many turns are used.
fn run_board<R: Runner>(
    alloc: Global,
    workers: u32,
    runner: &R,
    jobs: Vec<Vec<Node>>,
    turns: u64,
) -> Result<BoardEnd, NoMemory>
    requires goes_on { CanGoOn (R.searches runner.now) [] (lists jobs.items) }
    requires some_workers { 1 ≤ workers }
    requires few_workers { workers ≤ 64 }
    requires may_run { (opening : _) → R.searches runner.now ≡ opening.problem → R.takes runner.now opening }
    requires runs { (opening : _) (board : _) → R.gives runner.now opening board → IfOk board (IsRun opening) }
    ensures { IfOk result (λ ran. BoardRan (R.searches runner.now) (lists jobs.items) turns
        ran.found.items (lists ran.jobs.items) ran.used) }
{
    journals_tell_boards();
    let copy = runner.problem().copy(alloc)?;
    let opening = Opening::new(copy, Vec::new(alloc), jobs, Some(turns), workers);
    let board = runner.run(opening)?;
    let used = board.spent() as u64;
    let handed = touches_handed_in(alloc, board.journal())?;
    let parts = board.into_parts(alloc)?;
    Ok(BoardEnd {
        found: parts.found,
        handed,
        jobs: parts.jobs,
        used,
    })
}

// How many touches each hand-in of a journal brought that brought any.
fn touches_handed_in(alloc: Global, journal: &[Entry]) -> Result<Vec<u64>, NoMemory>
    ensures { IfOk result (λ handed. All (λ many. 0 < many) handed.items) }
{
    let mut handed = Vec::new(alloc);
    for entry in journal {
        if let Entry::Hand { touches, .. } = entry {
            if *touches > 0 {
                handed.push(*touches)?;
            }
        }
    }
    Ok(handed)
}
