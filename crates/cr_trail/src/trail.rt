//! A search that writes a checkpoint after each so many turns.

ghost use Rattle.std.specs.Prelude.{◌≡◌, ◌<◌, ◌≤◌, ◌↔◌, ◌++◌, ℕ, List, [], Some, length, IsTrue, All, IfOk, OnOk, OnErr, codes};
ghost use Rattle.std.specs.List.Sorted.{IsPermutation};
ghost use Rattle.cr_io.specs.Causes.{Rose};
ghost use Rattle.cr_io.specs.Grown.{GrowsByFront, joined};
ghost use Rattle.cr_model.specs.Callings.{HasSteps};
ghost use Rattle.cr_model.specs.Checkpoints.{CanGoOn, checkpoint_text, nodes_of_jobs, number_line};
ghost use Rattle.cr_model.specs.ProblemFiles.{ProblemFile};
ghost use Rattle.cr_run.specs.Runs.{IsRun};
ghost use Rattle.cr_store.specs.Blocks.{IsBody};
ghost use Rattle.cr_model.specs.Texts.{IsNumber};
ghost use Rattle.cr_store.specs.Written.{lists, IsTextOfLeft};
ghost use Rattle.cr_trail.specs.Trails.{EndsTrail};
ghost use Rattle.cr_trail.specs.Writing.{IsReady, IsReadyAfter, WritesBlock, end_of};

use crate::boards::{RunProgress, run_on};
use crate::runner::Runner;
use cr_board::laws::{each_touch_stands_once, partitions_follow_one_another};
use cr_book::BookPieces;
use cr_book::laws::what_is_sorted_is_the_book;
use cr_io::{Sink, WriteFault, write_pieces, write_whole};
use cr_model::laws::sizes_are_sums;
use cr_model::{Calling, Problem};
use cr_node::Node;
use cr_row::NoMemory;
use cr_store::{Remaining, checkpoint_pieces, write_parts};
use itoa::Buffer;
use std::alloc::Global;
use std::thread::Threads;

// No block has more bytes, 2^63 - 1.
const MOST_BYTES: u64 = 9_223_372_036_854_775_807;

/// How a trail ended.
#[derive(Clone, Copy, Debug, PartialEq, Eq, Drop)]
pub enum TrailEnd {
    /// It was written whole: its last checkpoint has no node.
    Done,
    /// A write failed.
    WriteFault,
    /// No memory is left.
    NoMemory,
}

// Why a trail was not written whole.
#[derive(Drop)]
enum Unwritten {
    WriteFault,
    NoMemory,
}

impl From<WriteFault> for Unwritten {
    ghost use Rattle.cr_trail.specs.declared.trail.Unwritten.TheVariants as unwritten;

    ghost from_gives = { λ _ e. e ≡ unwritten.WriteFault };

    fn from(_fault: WriteFault) -> Unwritten {
        Unwritten::WriteFault
    }
}

impl From<NoMemory> for Unwritten {
    ghost use Rattle.cr_trail.specs.declared.trail.Unwritten.TheVariants as unwritten;

    ghost from_gives = { λ _ e. e ≡ unwritten.NoMemory };

    fn from(_refused: NoMemory) -> Unwritten {
        Unwritten::NoMemory
    }
}

/// Goes on with a search, and writes its trail: a checkpoint at the start, after each `every` turns, and at the end, where
/// no node is left. Each is written as a block as soon as it is made, and then let go. The lines of what was found are put
/// in order and written by as many threads as there are workers; what was found is itself left in the order in which it
/// came. What is held at once is what was found, the nodes that are left, one board, and one checkpoint's text.
///
/// `WriteFault` comes only where the sink's count of faults rose in this call, and `NoMemory` between two blocks.
pub fn run_trail<T: AllocGlobal + Threads + Sync, R: Runner, K: Sink>(
    rt: &T,
    workers: u32,
    runner: &R,
    problem_bytes: &[u8],
    left: Remaining,
    every: u64,
    sink: &mut K,
) -> TrailEnd
    requires some { 1 ≤ every }
    requires file { ProblemFile problem_bytes.now (R.searches runner.now) }
    requires goes_on { CanGoOn (R.searches runner.now) left.found.items (lists left.jobs.items) }
    requires some_workers { 1 ≤ workers }
    requires few_workers { workers ≤ 64 }
    requires may_run { (opening : _) → R.searches runner.now ≡ opening.problem → R.takes runner.now opening }
    requires runs { (opening : _) (board : _) → R.gives runner.now opening board → IfOk board (IsRun opening) }
    ensures ends { EndsTrail K.grew K.faults sink.old sink.new (R.searches runner.now) problem_bytes.now
        left.found.items (lists left.jobs.items) every result }
    ensures later { K.faults sink.old ≤ K.faults sink.new }
{
    match write_trail(rt, workers, runner, problem_bytes, left, every, sink) {
        Ok(()) => TrailEnd::Done,
        Err(Unwritten::WriteFault) => TrailEnd::WriteFault,
        Err(Unwritten::NoMemory) => TrailEnd::NoMemory,
    }
}

// The same, with what ended it before its last checkpoint as an error.
fn write_trail<T: AllocGlobal + Threads + Sync, R: Runner, K: Sink>(
    rt: &T,
    workers: u32,
    runner: &R,
    problem_bytes: &[u8],
    left: Remaining,
    every: u64,
    sink: &mut K,
) -> Result<(), Unwritten>
    requires some { 1 ≤ every }
    requires file { ProblemFile problem_bytes.now (R.searches runner.now) }
    requires goes_on { CanGoOn (R.searches runner.now) left.found.items (lists left.jobs.items) }
    requires some_workers { 1 ≤ workers }
    requires few_workers { workers ≤ 64 }
    requires may_run { (opening : _) → R.searches runner.now ≡ opening.problem → R.takes runner.now opening }
    requires runs { (opening : _) (board : _) → R.gives runner.now opening board → IfOk board (IsRun opening) }
    ensures ends { EndsTrail K.grew K.faults sink.old sink.new (R.searches runner.now) problem_bytes.now
        left.found.items (lists left.jobs.items) every (end_of result) }
    ensures later { K.faults sink.old ≤ K.faults sink.new }
{
    sizes_are_sums();
    let _ = runner.problem().stage();
    let mut ready = first_ready(rt.alloc(), runner, problem_bytes, left)?;
    loop {
        let Ready { pieces, now } = ready;
        write_block(rt.alloc(), pieces, sink)?;
        if is_done(&now.left) {
            return Ok(());
        }
        ready = after_turns(rt, workers, runner, problem_bytes, now, every)?;
    }
}

// A checkpoint that is to be written, in pieces, and where the search is meanwhile.
#[derive(Drop)]
struct Ready {
    pieces: Vec<Vec<u8>>,
    now: RunProgress,
}

// The first checkpoint.
fn first_ready<R: Runner>(
    alloc: Global,
    runner: &R,
    problem_bytes: &[u8],
    left: Remaining,
) -> Result<Ready, NoMemory>
    requires file { ProblemFile problem_bytes.now (R.searches runner.now) }
    requires goes_on { CanGoOn (R.searches runner.now) left.found.items (lists left.jobs.items) }
    ensures text { IfOk result (λ ready. joined ready.pieces.items
        ≡ checkpoint_text (R.searches runner.now) problem_bytes.now left.found.items (lists left.jobs.items)) }
    ensures same { IfOk result (λ ready. ready.now.left ≡ left) }
{
    let text = write_parts(
        alloc,
        runner.problem(),
        problem_bytes,
        &left.found,
        &left.jobs,
    )?;
    let mut pieces = Vec::with_capacity(alloc, 1)?;
    pieces.push(text)?;
    let now = RunProgress::begun(alloc, left)?;
    Ok(Ready { pieces, now })
}

// Whether no job is left.
fn is_done(left: &Remaining) -> bool
    ensures { IsTrue result ↔ (lists left.now.jobs.items ≡ []) }
{
    left.jobs.is_empty()
}

// Writes a body as a block, and lets it go.
fn write_block<K: Sink>(alloc: Global, body: Vec<Vec<u8>>, sink: &mut K) -> Result<(), Unwritten>
    requires { 0 < length (joined body.items) }
    ensures writes { WritesBlock K.grew K.faults sink.old sink.new (joined body.items) result }
    ensures later { K.faults sink.old ≤ K.faults sink.new }
{
    let size = size_of(&body)?;
    let line = size_line(alloc, size)?;
    write_both(&line, &body, sink)?;
    Ok(())
}

// How many bytes pieces have. Err where there are more than a block has: no memory holds them.
fn size_of(pieces: &[Vec<u8>]) -> Result<u64, NoMemory>
    ensures { IfOk result (λ size. (size ≡ length (joined pieces.now)) × IsNumber size) }
{
    let mut size: u64 = 0;
    for piece in pieces {
        size += piece.len() as u64;
        if size > MOST_BYTES {
            return Err(NoMemory);
        }
    }
    Ok(size)
}

// Writes the line of a block and then its body.
fn write_both<K: Sink>(line: &[u8], body: &[Vec<u8>], sink: &mut K) -> Result<(), WriteFault>
    ensures whole { OnOk result (K.grew sink.old sink.new (line.now ++ joined body.now)) }
    ensures front { OnErr result (GrowsByFront K.grew sink.old sink.new (line.now ++ joined body.now)) }
    ensures fault { OnErr result (Rose (K.faults sink.old) (K.faults sink.new)) }
    ensures later { K.faults sink.old ≤ K.faults sink.new }
    ensures same { OnOk result (K.faults sink.new ≡ K.faults sink.old) }
{
    write_whole(sink, line)?;
    write_pieces(sink, body)
}

// The line of a block before a body of so many bytes.
fn size_line(alloc: Global, size: u64) -> Result<Vec<u8>, NoMemory>
    ensures { IfOk result (λ line. line.items ≡ number_line (codes "block") size) }
{
    let mut buffer = Buffer::new();
    let mut line = Vec::new(alloc);
    line.extend_from_slice(b"block ")?;
    line.extend_from_slice(buffer.format(size).as_bytes())?;
    line.push(b'\n')?;
    Ok(line)
}

// The checkpoint after so many turns more, or after those that were left.
fn after_turns<T: AllocGlobal + Threads + Sync, R: Runner>(
    rt: &T,
    workers: u32,
    runner: &R,
    problem_bytes: &[u8],
    now: RunProgress,
    every: u64,
) -> Result<Ready, NoMemory>
    requires goes_on { (found : List (List ℕ)) × IsPermutation now.left.found.items found
        × CanGoOn (R.searches runner.now) found (lists now.left.jobs.items) }
    requires some_workers { 1 ≤ workers }
    requires few_workers { workers ≤ 64 }
    requires may_run { (opening : _) → R.searches runner.now ≡ opening.problem → R.takes runner.now opening }
    requires runs { (opening : _) (board : _) → R.gives runner.now opening board → IfOk board (IsRun opening) }
    ensures { (found : List (List ℕ)) → IsPermutation now.left.found.items found
        → CanGoOn (R.searches runner.now) found (lists now.left.jobs.items)
        → IfOk result (λ ready. IsReadyAfter (R.searches runner.now) problem_bytes.now found (lists now.left.jobs.items) every
        ready.now.left.found.items (lists ready.now.left.jobs.items) (joined ready.pieces.items)) }
{
    each_touch_stands_once();
    partitions_follow_one_another();
    what_is_sorted_is_the_book();
    let RunProgress { left, handed } = run_on(rt.alloc(), workers, runner, now, Some(every))?;
    let Remaining { found, jobs } = left;
    let BookPieces { pieces, spent } = checkpoint_pieces(
        rt,
        rt.alloc(),
        workers as usize,
        runner.problem(),
        problem_bytes,
        found,
        &handed,
        &jobs,
    )?;
    let left = Remaining { found: spent, jobs };
    let now = RunProgress { left, handed };
    Ok(Ready { pieces, now })
}
