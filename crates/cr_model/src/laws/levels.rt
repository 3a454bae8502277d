//! How far rows are from rounds.

ghost use Rattle.std.specs.Prelude.{◌≡◌, ℕ, ◌+◌, ◌≤◌, ◌↔◌, List, [], ◌∷◌, length, map, Contains};
ghost use Rattle.cr_row.specs.Rows.{rounds};
ghost use Rattle.cr_model.specs.Problems.{ProblemParts};
ghost use Rattle.cr_model.specs.Callings.{HasSteps, AllDiffer, changes_of_all};
ghost use Rattle.cr_model.specs.Levels.{head_from, LeadsToRounds, IsLevel, HasRoom, level, up_to_level, depth, at_least};
ghost use Rattle.cr_model.specs.Examples.{minimus, doubles};

use cr_row::change_twice;

/// A row stands in a level exactly where so many leads lead from it to rounds and no fewer do, and up to a
/// level exactly where no more leads do. No row stands there twice.
pub fn levels_list_rows()
    ensures level { (p : ProblemParts) (leads : ℕ) (row : List ℕ) → Contains (level p leads) row ↔ IsLevel p leads row }
    ensures up_to { (p : ProblemParts) (leads : ℕ) (row : List ℕ)
        → Contains (up_to_level p leads) row ↔ ((fewer : ℕ) × (fewer ≤ leads) × LeadsToRounds p fewer row) }
    ensures once { (p : ProblemParts) (leads : ℕ) → AllDiffer (up_to_level p leads) }
{
    change_twice();
}

/// The depth for at least one row is the greatest number such that the levels up to it hold at most so many
/// rows together and none of them is empty.
pub fn the_depth_is_greatest()
    ensures room { (p : ProblemParts) (most : ℕ) → 1 ≤ most → HasRoom p most (depth p most) }
    ensures greatest { (p : ProblemParts) (most leads : ℕ) → HasRoom p most leads → leads ≤ depth p most }
{}

/// A row's least number of leads is its level, where that is at most the depth, and else one more than the
/// depth; and no calling of fewer leads goes from it to rounds.
pub fn no_fewer_leads_lead_to_rounds()
    ensures listed { (p : ProblemParts) (most : ℕ) (row : List ℕ) (leads : ℕ)
        → IsLevel p leads row → leads ≤ depth p most → at_least p most row ≡ leads }
    ensures others { (p : ProblemParts) (most : ℕ) (row : List ℕ)
        → ((leads : ℕ) → leads ≤ depth p most → IsLevel p leads row → ⊥) → at_least p most row ≡ depth p most + 1 }
    ensures fewer { (p : ProblemParts) (most : ℕ) (row calling : List ℕ)
        → HasSteps p calling → head_from row (changes_of_all p calling) ≡ rounds p.stage
        → at_least p most row ≤ length calling }
{
    change_twice();
}

/// Of Plain Bob Doubles two rows are one lead from rounds. With room for these and rounds, rows that are
/// further away count as two leads away. Plain Bob Minimus has three levels of one row, and then none.
pub fn levels_of_doubles()
    ensures level { map (level doubles) (0 ∷ 1 ∷ []) ≡
        ((1 ∷ 2 ∷ 3 ∷ 4 ∷ 5 ∷ []) ∷ []) ∷ ((1 ∷ 4 ∷ 2 ∷ 5 ∷ 3 ∷ []) ∷ (1 ∷ 2 ∷ 3 ∷ 5 ∷ 4 ∷ []) ∷ []) ∷ [] }
    ensures depth_of_few { map (depth minimus) (2 ∷ 3 ∷ 9 ∷ []) ≡ 1 ∷ 2 ∷ 2 ∷ [] }
    ensures depth { map (depth doubles) (1 ∷ 2 ∷ 3 ∷ 4 ∷ []) ≡ 0 ∷ 0 ∷ 1 ∷ 1 ∷ [] }
    ensures at_least { map (at_least doubles 3)
        ((1 ∷ 2 ∷ 3 ∷ 4 ∷ 5 ∷ []) ∷ (1 ∷ 2 ∷ 3 ∷ 5 ∷ 4 ∷ []) ∷ (1 ∷ 4 ∷ 2 ∷ 5 ∷ 3 ∷ []) ∷ (1 ∷ 5 ∷ 4 ∷ 3 ∷ 2 ∷ []) ∷ [])
        ≡ 0 ∷ 1 ∷ 1 ∷ 2 ∷ [] }
{}
