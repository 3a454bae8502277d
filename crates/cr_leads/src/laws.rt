//! Laws of leads. Each is the contract of a function that does nothing.

ghost use Rattle.std.specs.Prelude.{◌↔◌, ℕ, List};
ghost use Rattle.cr_model.specs.Problems.{ProblemParts};
ghost use Rattle.cr_model.specs.Callings.{rows_of, HasSteps, AllDiffer, TrueTouch};
ghost use Rattle.cr_model.specs.Sound.{IsSound};
ghost use Rattle.cr_leads.specs.Rungs.{ComesRound};

/// A calling is a true touch exactly where its last row is rounds and all its rows differ.
pub fn a_true_touch_comes_round_with_distinct_rows()
    ensures { (p : ProblemParts) (calling : List ℕ) → IsSound p → HasSteps p calling
        → TrueTouch p calling ↔ (ComesRound p calling × AllDiffer (rows_of p calling)) }
{}
