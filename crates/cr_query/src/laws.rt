//! Laws of kept callings and of meters. Each is the contract of a function that does nothing but call other laws.

ghost use Rattle.std.specs.Prelude.{◌≡◌, ◌↔◌, ◌⊎◌, ◌||◌, ℕ, true, List, [], ◌∷◌, Option, Some, map};
ghost use Rattle.cr_model.specs.Problems.{ProblemParts};
ghost use Rattle.cr_model.specs.Dead.{turn_free, is_too_many, is_too_few};
ghost use Rattle.cr_model.specs.Nodes.{part_of};
ghost use Rattle.cr_model.specs.Touches.{Wanted, Kept};
ghost use Rattle.cr_model.specs.LeastRotations.{IsLeastRotation};
ghost use Rattle.cr_model.specs.Examples.{minimus, pair, asks, exact, fours, lettered, marked};
ghost use Rattle.cr_query.specs.Meters.{meter_from, item_numbers, is_hopeless_by_leads, is_hopeless_by_rows, node_after_all, moved_by_all};

use cr_model::laws::{a_rotation_of_a_wanted_touch_is_wanted, a_touch_is_its_part_repeated};
use cr_rotate::laws::repeated_words_are_least_where_the_word_is;

/// Where a query has no patterns and no limits on changes of method, a wanted calling is kept exactly where its
/// part is the least of its rotations.
pub fn a_wanted_calling_is_kept_where_its_part_is_least()
    ensures { (p : ProblemParts) (calling : List ℕ) → turn_free p.query ≡ true → Wanted p calling
        → Kept p calling ↔ IsLeastRotation (part_of p calling) }
{
    a_rotation_of_a_wanted_touch_is_wanted();
    a_touch_is_its_part_repeated();
    repeated_words_are_least_where_the_word_is();
}

/// A node that is hopeless by its leads has too many or too few.
pub fn what_is_hopeless_by_leads_is_hopeless()
    ensures { (p : ProblemParts) (node : List ℕ) → is_hopeless_by_leads p node ≡ true
        → (is_too_many p node ≡ true) ⊎ (is_too_few p node ≡ true) }
{}

/// A node has too many or too few exactly where it is hopeless by its leads or by its rows.
pub fn what_is_hopeless_is_so_by_leads_or_rows()
    ensures { (p : ProblemParts) (node : List ℕ)
        → (is_too_many p node || is_too_few p node) ≡ (is_hopeless_by_leads p node || is_hopeless_by_rows p node) }
{}

/// However a meter came to its node, by leads added and leads taken back, contracts see of it what they see of a
/// fresh one to which the node's leads were added. So both tell the same.
pub fn a_meter_tells_of_its_node_alone()
    ensures { (p : ProblemParts) (moves : List (Option ℕ)) →
        moved_by_all (meter_from p []) moves ≡ moved_by_all (meter_from p []) (map Some (node_after_all [] moves)) }
{}

/// On Plain Bob Minimus with two marks, two methods and a pattern that asks for a 4 in front, the items are plain leads, calls,
/// leads of A, leads of C and rows: a lead has two rows that fit. A query that asks for nothing has no items, and one mark that
/// is asked for twice is two.
pub fn items_are_counted()
    ensures each { map (item_numbers (pair exact)) ([] ∷ (0 ∷ 1 ∷ []) ∷ (0 ∷ 0 ∷ 2 ∷ []) ∷ [])
        ≡ (0 ∷ 0 ∷ 0 ∷ 0 ∷ 0 ∷ []) ∷ (1 ∷ 1 ∷ 2 ∷ 0 ∷ 4 ∷ []) ∷ (3 ∷ 0 ∷ 2 ∷ 1 ∷ 6 ∷ []) ∷ [] }
    ensures none { item_numbers minimus (0 ∷ []) ≡ [] }
    ensures twice { item_numbers (pair (record (asks 1 24 1) { counts = marked 98 0 9 ∷ marked 98 1 2 ∷ []; method_counts = lettered 67 0 9 ∷ []; patterns = fours 0 9 ∷ [] })) (1 ∷ [])
        ≡ 1 ∷ 1 ∷ 0 ∷ 2 ∷ [] }
{}
