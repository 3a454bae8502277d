//! The items of which moves answer exactly: all counts, and in one part the patterns and the limit on changes of method.

ghost use Rattle.std.specs.Prelude.{◌≡◌, ℕ, ◌<◌, ◌||◌, ◌↔◌, true, List, All, Option};
ghost use Rattle.std.specs.List.{list_any};
ghost use Rattle.cr_model.specs.Problems.{ProblemParts};
ghost use Rattle.cr_model.specs.Queries.{IsWithin, Meets};
ghost use Rattle.cr_model.specs.Sound.{IsSound};
ghost use Rattle.cr_model.specs.Dead.{HasNoneBelow};
ghost use Rattle.cr_ahead.specs.Items.{com_items, cannot_meet, cannot_come};
ghost use Rattle.cr_ahead.specs.ByMethod.{method_number, place_by, last_at};
ghost use Rattle.cr_ahead.specs.Exact.{exact_com, exact_items, CannotComeBy, cannot_come_by, cannot_come_by_heads};

use cr_model::laws::joined_callings_multiply;

/// A touch that meets the query has what each of these items asks.
pub fn exact_items_are_asked()
    ensures { (p : ProblemParts) (calling : List ℕ) → Meets p calling
        → All (λ item. IsWithin item.min item.max (item.number_of calling)) (exact_items p) }
{}

/// A test decides whether a node cannot come to what these items ask.
pub fn a_test_decides_what_cannot_come_by_exact_items()
    ensures { (p : ProblemParts) (node : List ℕ) → IsSound p → (cannot_come_by p node ≡ true) ↔ CannotComeBy p node }
{}

/// A node that cannot come to what these items ask cannot come to what all items ask, and has no kept touch below it.
pub fn nothing_is_kept_below_a_node_that_cannot_come_by_exact_items()
    ensures all { (p : ProblemParts) (node : List ℕ) → IsSound p → cannot_come_by p node ≡ true → cannot_come p node ≡ true }
    ensures is { (p : ProblemParts) (node : List ℕ) → IsSound p → cannot_come_by p node ≡ true → HasNoneBelow p node }
{
    joined_callings_multiply();
}

/// The test is one by the items of which the lead head tells all, and one by the limit on changes of method.
pub fn heads_tell_what_changes_of_method_do_not()
    ensures whole { (p : ProblemParts) (node : List ℕ)
        → cannot_come_by p node ≡ (cannot_come_by_heads p node || list_any (cannot_meet p node) (com_items p (exact_com p))) }
    ensures heads { (p : ProblemParts) (node : List ℕ) → cannot_come_by_heads p node ≡ true → cannot_come_by p node ≡ true }
{}

/// Places by head and last method are one for each head and each last method, with none among them.
pub fn places_tell_the_last_method()
    ensures last { (each place : ℕ) (last : Option ℕ) → method_number last < each → last_at each (place_by each place last) ≡ last }
    ensures place { (each place other : ℕ) (last more : Option ℕ) → method_number last < each → method_number more < each
        → place_by each place last ≡ place_by each other more → place ≡ other }
{}
