//! Tests that decide what is true, wanted and kept.

ghost use Rattle.std.specs.Prelude.{◌≡◌, ℕ, ◌↔◌, true, List};
ghost use Rattle.cr_model.specs.Problems.{ProblemParts};
ghost use Rattle.cr_model.specs.Callings.{AllDiffer, HasSteps, TrueTouch};
ghost use Rattle.cr_model.specs.Queries.{Meets};
ghost use Rattle.cr_model.specs.Touches.{Wanted, Kept};
ghost use Rattle.cr_model.specs.Decided.{rows_differ, has_steps, is_true_touch, meets, is_wanted, is_kept};

/// A test decides whether no row stands twice, and one whether a calling is a true touch.
pub fn a_test_decides_what_is_true()
    ensures rows { (rows : List (List ℕ)) → (rows_differ rows ≡ true) ↔ AllDiffer rows }
    ensures touch { (p : ProblemParts) (calling : List ℕ) → (is_true_touch p calling ≡ true) ↔ TrueTouch p calling }
{}

/// A test decides whether the steps are a problem's, one whether a calling meets the query, and one whether it is wanted.
pub fn a_test_decides_what_is_wanted()
    ensures steps { (p : ProblemParts) (calling : List ℕ) → (has_steps p calling ≡ true) ↔ HasSteps p calling }
    ensures query { (p : ProblemParts) (calling : List ℕ) → (meets p calling ≡ true) ↔ Meets p calling }
    ensures wanted { (p : ProblemParts) (calling : List ℕ) → (is_wanted p calling ≡ true) ↔ Wanted p calling }
{}

/// A test decides whether a calling is kept.
pub fn a_test_decides_what_is_kept()
    ensures { (p : ProblemParts) (calling : List ℕ) → (is_kept p calling ≡ true) ↔ Kept p calling }
{}
