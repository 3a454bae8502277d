//! One worker on a board.

ghost use Rattle.std.specs.Prelude.{◌≡◌, ◌↔◌, ℕ, [], ◌∷◌, false, get_or, flat_map, IsTrue, IfOk, OnOk, Some};
ghost use Rattle.cr_board.specs.Boards.{held_jobs};
ghost use Rattle.cr_board.specs.Partitions.{IsKept};
ghost use Rattle.cr_board.specs.Steps.{Ran};
ghost use Rattle.cr_board.specs.declared.event.Event.TheVariants.{Next, Work};
ghost use Rattle.cr_run.specs.Runs.{HasEnded, IsRun, events_alone};

use cr_board::laws::{
    an_empty_board_is_done, events_chain, events_keep_the_partition, journals_tell_boards,
};
use cr_board::{Board, Event};
use cr_node::Explorer;
use cr_row::NoMemory;
use std::alloc::Global;

/// Runs a board to its end: worker 0 takes its next job, explores it and hands it in, again and again, until no job is
/// left or all turns of the budget are spent. It waits for nobody. Err where no memory is left, and then the board is
/// dropped.
pub fn run_alone<E: Explorer>(alloc: Global, board: Board, explorer: &E) -> Result<Board, NoMemory>
    requires idle { flat_map held_jobs board.held ≡ [] }
    requires stays { get_or board.resigned 0 false ≡ false }
    requires problem { E.explores explorer.now ≡ board.opening.problem }
    ensures run { IfOk result (IsRun board.opening) }
    ensures ran { IfOk result (λ b. (jobs : ℕ) × Ran board (events_alone jobs) b) }
{
    an_empty_board_is_done();
    events_chain();
    events_keep_the_partition();
    journals_tell_boards();
    let mut board = board;
    while !has_ended(&board) {
        do_job(alloc, &mut board, explorer)?;
    }
    Ok(board)
}

// Worker 0 takes its next job, explores it and hands it in.
fn do_job<E: Explorer>(alloc: Global, board: &mut Board, explorer: &E) -> Result<(), NoMemory>
    requires { E.explores explorer.now ≡ board.old.opening.problem }
    ensures { OnOk result (Ran board.old (Next 0 ∷ Work 0 ∷ []) board.new) }
{
    board.play(alloc, &[Event::Next(0), Event::Work(0)], explorer)
}

// Whether no job is left, or all turns of the budget are spent.
fn has_ended(board: &Board) -> bool
    ensures is { IsTrue result ↔ HasEnded board.now }
    ensures kept { IsKept board.now }
{
    board.is_done() || is_spent(board.opening().budget(), board.spent())
}

// Whether there is a budget, and so many turns are all of it.
fn is_spent(budget: Option<u64>, spent: u128) -> bool
    ensures { IsTrue result ↔ (budget ≡ Some spent) }
{
    match budget {
        Some(turns) => u128::from(turns) == spent,
        None => false,
    }
}
