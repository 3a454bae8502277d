//! Touches and their rotations.

ghost use Rattle.std.specs.Prelude.{◌≡◌, ◌↔◌, ℕ, true, List, ◌++◌};
ghost use Rattle.cr_model.specs.Problems.{ProblemParts};
ghost use Rattle.cr_model.specs.Callings.{length_of, TrueTouch};
ghost use Rattle.cr_model.specs.Touches.{Wanted, IsRotation, IsLess, Kept};
ghost use Rattle.cr_model.specs.LeastRotations.{TurnsBack};
ghost use Rattle.cr_model.specs.Dead.{turns_back, turn_free};

use cr_row::{
    change_after_product, change_of_a_row, inverse_on_one_side, product_associates,
    rounds_is_neutral,
};

/// A calling is a rotation of itself, of its rotations, and of their rotations.
pub fn rotations_are_an_equivalence()
    ensures itself { (calling : List ℕ) → IsRotation calling calling }
    ensures back { (calling other : List ℕ) → IsRotation calling other → IsRotation other calling }
    ensures onward { (calling other third : List ℕ) → IsRotation calling other → IsRotation other third
        → IsRotation calling third }
{}

/// Of the rotations of a calling at most one is kept.
pub fn at_most_one_rotation_is_kept()
    ensures { (p : ProblemParts) (calling other : List ℕ) → Kept p calling → Kept p other → IsRotation calling other
        → calling ≡ other }
{}

/// Of the rotations of each wanted touch one is kept.
pub fn each_wanted_class_has_a_kept_one()
    ensures { (p : ProblemParts) (calling : List ℕ) → Wanted p calling
        → (kept : List ℕ) × IsRotation calling kept × Kept p kept }
{}

/// A rotation of a true touch is a true touch of its length.
pub fn a_rotation_of_a_true_touch_is_one()
    ensures { (p : ProblemParts) (calling other : List ℕ) → TrueTouch p calling → IsRotation calling other
        → TrueTouch p other × (length_of p other ≡ length_of p calling) }
{
    change_after_product();
    change_of_a_row();
    inverse_on_one_side();
    product_associates();
    rounds_is_neutral();
}

/// Where a query has no patterns and no limits on changes of method, a rotation of a wanted touch is wanted.
pub fn a_rotation_of_a_wanted_touch_is_wanted()
    ensures { (p : ProblemParts) (calling other : List ℕ) → turn_free p.query ≡ true → Wanted p calling
        → IsRotation calling other → Wanted p other }
{
    change_after_product();
    change_of_a_row();
    inverse_on_one_side();
    product_associates();
    rounds_is_neutral();
}

/// A test decides whether a word turns back; and what such a word begins has a rotation that is less.
pub fn what_turns_back_is_not_least()
    ensures decided { (word : List ℕ) → (turns_back word ≡ true) ↔ TurnsBack word }
    ensures lesser { (word more : List ℕ) → TurnsBack word
        → (other : List ℕ) × IsRotation (word ++ more) other × IsLess other (word ++ more) }
{}
