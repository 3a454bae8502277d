//! Laws of boards that were run. Each is the contract of a function that does nothing.

ghost use Rattle.std.specs.Prelude.{◌≡◌, ℕ, ◌≤◌, ◌<◌, ◌↔◌, [], ◌∷◌, false, get_or, flat_map, Some, None};
ghost use Rattle.cr_board.specs.Jobs.{OpeningParts};
ghost use Rattle.cr_board.specs.Boards.{BoardParts, opened, held_jobs, jobs_of};
ghost use Rattle.cr_board.specs.Partitions.{HasShape, IsKept};
ghost use Rattle.cr_board.specs.Moves.{after_recall};
ghost use Rattle.cr_board.specs.declared.event.Event.TheVariants.{Next, Work};
ghost use Rattle.cr_run.specs.Runs.{IsRun, IsFinished, IsStopped, events_alone, opening_size};

use cr_board::laws::{a_board_covers_its_opening, a_recall_gives_all_back, journals_tell_boards};

/// On the board that an opening gives nobody holds a job, and nobody has resigned; so it is after a recall.
pub fn boards_at_rest()
    ensures opened_idle { (o : OpeningParts) → flat_map held_jobs (opened o).held ≡ [] }
    ensures opened_stays { (o : OpeningParts) → get_or (opened o).resigned 0 false ≡ false }
    ensures recalled_idle { (b : BoardParts) → HasShape b → flat_map held_jobs (after_recall b).held ≡ [] }
    ensures recalled_stays { (b : BoardParts) → get_or (after_recall b).resigned 0 false ≡ false }
{
    a_recall_gives_all_back();
}

/// A board that was run has nothing left exactly where it has no budget, or its budget is at least the size of what its
/// opening left to be searched. With a lesser budget all of it is spent, and some nodes are left.
pub fn a_run_finishes_where_its_budget_is_enough()
    ensures done { (o : OpeningParts) (b : BoardParts) → IsKept b → IsRun o b
        → (jobs_of b ≡ []) ↔ ((budget : ℕ) → o.budget ≡ Some budget → opening_size o ≤ budget) }
    ensures without_budget { (o : OpeningParts) (b : BoardParts) → IsKept b → IsRun o b → o.budget ≡ None → IsFinished o b }
    ensures finished { (o : OpeningParts) (b : BoardParts) (budget : ℕ) → IsKept b → IsRun o b → o.budget ≡ Some budget
        → opening_size o ≤ budget → IsFinished o b }
    ensures stopped { (o : OpeningParts) (b : BoardParts) (budget : ℕ) → IsKept b → IsRun o b → o.budget ≡ Some budget
        → budget < opening_size o → IsStopped o budget b }
{
    a_board_covers_its_opening();
    journals_tell_boards();
}

/// Two jobs one after another are four events.
pub fn events_by_example()
    ensures { events_alone 2 ≡ Next 0 ∷ Work 0 ∷ Next 0 ∷ Work 0 ∷ [] }
{}
