//! The text that belongs to an input.

ghost use Rattle.std.specs.Prelude.{◌≡◌, ◌<◌, ◌≤◌, ℕ, List, IfOk};
ghost use Rattle.cr_model.specs.Checkpoints.{CanGoOn, checkpoint_text};
ghost use Rattle.cr_model.specs.ProblemFiles.{ProblemFile};
ghost use Rattle.cr_book.specs.Pieces.{pieces_joined};
ghost use Rattle.cr_store.specs.Written.{lists};
ghost use Rattle.cr_top.specs.Starts.{IsStart};
ghost use Rattle.cr_trail.specs.Runs.{RunsTo};
ghost use Rattle.cr_top.specs.Runs.{IsLeft, StopsAfter};
ghost use Rattle.cr_top.specs.Texts.{IsStopText, IsTextAfter, IsOutcomeOf};

use crate::outcome::Outcome;
use cr_book::laws::what_was_found_whole_is_the_book;
use cr_book::{BookPieces, book_pieces};
use cr_model::Problem;
use cr_model::laws::sizes_are_sums;
use cr_row::NoMemory;
use cr_store::laws::each_touch_is_covered_once;
use cr_store::{Remaining, remaining_in_order, write_parts};
use cr_trail::RunProgress;
use std::alloc::Global;
use std::thread::Threads;

/// The text that belongs to an input whose search went on until no job was left or the turns that are allowed were used:
/// a checkpoint where some job is left, and else the book. Err where no memory is left.
pub fn outcome_of<R: AllocGlobal + Threads + Sync>(
    rt: &R,
    workers: u32,
    problem: &Problem,
    bytes: &[u8],
    went: RunProgress,
    turns: Option<u64>,
) -> Result<Outcome, NoMemory>
    requires file { ProblemFile bytes.now problem.now }
    requires came { IsLeft problem.now went.left.found.items (lists went.left.jobs.items) }
    ensures { (input : List ℕ) (found : List (List ℕ)) (jobs : List (List (List ℕ)))
        → IsStart input bytes.now problem.now found jobs
        → RunsTo problem.now found jobs turns went.left.found.items (lists went.left.jobs.items)
        → IfOk result (IsOutcomeOf turns input) }
{
    sizes_are_sums();
    each_touch_is_covered_once();
    what_was_found_whole_is_the_book();
    let stopped = stopped_after(&went.left, turns);
    let made = pieces_after(rt, workers, problem, bytes, went, stopped)?;
    Ok(Outcome {
        pieces: made.pieces,
        stopped,
        spent: made.spent,
    })
}

// After how many turns the search stopped, if some job is left.
fn stopped_after(left: &Remaining, turns: Option<u64>) -> Option<u64>
    ensures { StopsAfter (lists left.now.jobs.items) turns result }
{
    if left.jobs.is_empty() { None } else { turns }
}

// The checkpoint of what is left where the search stopped, and else the book, by as many threads as there are workers.
fn pieces_after<R: AllocGlobal + Threads + Sync>(
    rt: &R,
    workers: u32,
    problem: &Problem,
    bytes: &[u8],
    went: RunProgress,
    stopped: Option<u64>,
) -> Result<BookPieces, NoMemory>
    requires file { ProblemFile bytes.now problem.now }
    requires came { IsLeft problem.now went.left.found.items (lists went.left.jobs.items) }
    ensures { IfOk result (λ made. IsTextAfter problem.now bytes.now went.left.found.items (lists went.left.jobs.items) stopped (pieces_joined made.pieces.items)) }
{
    let RunProgress { left, handed } = went;
    match stopped {
        Some(_) => checkpoint_after(rt.alloc(), problem, bytes, left),
        None => book_pieces(
            rt,
            rt.alloc(),
            workers as usize,
            problem,
            left.found,
            &handed,
        ),
    }
}

// The checkpoint of what is left, with what was found put in order.
fn checkpoint_after(
    alloc: Global,
    problem: &Problem,
    bytes: &[u8],
    left: Remaining,
) -> Result<BookPieces, NoMemory>
    requires file { ProblemFile bytes.now problem.now }
    requires came { IsLeft problem.now left.found.items (lists left.jobs.items) }
    ensures { IfOk result (λ made. IsStopText problem.now bytes.now left.found.items (lists left.jobs.items) (pieces_joined made.pieces.items)) }
{
    let ordered = remaining_in_order(alloc, problem, left.found, left.jobs)?;
    let text = checkpoint_of(alloc, problem, bytes, &ordered)?;
    let pieces = one_piece(alloc, text)?;
    Ok(BookPieces {
        pieces,
        spent: Vec::new(alloc),
    })
}

// The checkpoint of what is left and in order.
fn checkpoint_of(
    alloc: Global,
    problem: &Problem,
    bytes: &[u8],
    left: &Remaining,
) -> Result<Vec<u8>, NoMemory>
    requires file { ProblemFile bytes.now problem.now }
    requires goes_on { CanGoOn problem.now left.now.found.items (lists left.now.jobs.items) }
    ensures { IfOk result (λ text. text.items ≡ checkpoint_text problem.now bytes.now left.now.found.items (lists left.now.jobs.items)) }
{
    write_parts(alloc, problem, bytes, &left.found, &left.jobs)
}

/// A text as one piece.
pub fn one_piece(alloc: Global, text: Vec<u8>) -> Result<Vec<Vec<u8>>, NoMemory>
    ensures { IfOk result (λ pieces. pieces_joined pieces.items ≡ text.items) }
{
    let mut pieces = Vec::with_capacity(alloc, 1)?;
    pieces.push(text)?;
    Ok(pieces)
}
