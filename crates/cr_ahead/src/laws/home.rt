//! Ways home, and the nodes that cannot come to what a query asks.

ghost use Rattle.std.specs.Prelude.{◌≡◌, ◌≢◌, ℕ, ◌*◌, ◌<◌, ◌≤◌, ◌↔◌, Bool, true, pos, ◌≤ℤ◌, List, ◌++◌, All};
ghost use Rattle.cr_row.specs.Rows.{rounds};
ghost use Rattle.cr_model.specs.Problems.{ProblemParts};
ghost use Rattle.cr_model.specs.Callings.{HasSteps, length_of, head_of};
ghost use Rattle.cr_model.specs.Queries.{cap, repeated, IsWithin, Meets};
ghost use Rattle.cr_model.specs.Touches.{Kept};
ghost use Rattle.cr_model.specs.Nodes.{IsAbove};
ghost use Rattle.cr_model.specs.Sound.{IsSound};
ghost use Rattle.cr_model.specs.Dead.{HasNoneBelow, parts_of};
ghost use Rattle.cr_model.specs.OneTurn.{touch_of};
ghost use Rattle.cr_ahead.specs.Home.{power, is_part_end, IsPartEnd, touch_with, is_way_home, IsWayHome};
ghost use Rattle.cr_ahead.specs.Home.{HasNoWayHome, each_way_home};
ghost use Rattle.cr_ahead.specs.Items.{Item, items_of, CannotMeet, cannot_meet, CannotCome, cannot_come};

use cr_model::laws::joined_callings_multiply;

/// A calling rung so many times leads to the power of its head. So a part ends at its head exactly where the part, rung as often as
/// there are parts, comes round, and rung fewer times, but at least once, does not.
pub fn a_part_ends_where_its_touch_comes_round()
    ensures power { (p : ProblemParts) (calling : List ℕ) (number : ℕ)
        → head_of p (repeated number calling) ≡ power p.stage (head_of p calling) number }
    ensures end { (p : ProblemParts) (calling : List ℕ) → IsPartEnd p (head_of p calling)
        ↔ ((head_of p (touch_of p calling) ≡ rounds p.stage)
        × ((fewer : ℕ) → 0 < fewer → fewer < parts_of p → head_of p (repeated fewer calling) ≢ rounds p.stage)) }
{
    joined_callings_multiply();
}

/// A touch is as long as its parts together.
pub fn a_touch_is_as_long_as_its_parts()
    ensures { (p : ProblemParts) (node way : List ℕ)
        → length_of p (touch_with p node way) ≡ parts_of p * length_of p (node ++ way) }
{}

/// What a query asks of a touch is its length, its parts, and its items.
pub fn a_query_asks_for_items()
    ensures { (p : ProblemParts) (calling : List ℕ) → Meets p calling
        ↔ ((p.query.min ≤ℤ pos (length_of p calling)) × (length_of p calling ≤ cap p)
        × ((word : List ℕ) × (calling ≡ touch_of p word))
        × All (λ item. IsWithin item.min item.max (item.number_of calling)) (items_of p)) }
{}

/// A kept touch below a node is the touch of a way home of that node.
pub fn a_kept_touch_comes_home()
    ensures { (p : ProblemParts) (node calling : List ℕ) → IsSound p → Kept p calling → IsAbove p node calling
        → (way : List ℕ) × IsWayHome p node way × (calling ≡ touch_with p node way) }
{
    joined_callings_multiply();
}

/// A test decides whether a part ends, one whether steps are a way home, one whether each way home of a node passes a test,
/// one whether none meets an item, and one whether a node cannot come to what is asked.
pub fn a_test_decides_what_cannot_come()
    ensures end { (p : ProblemParts) (row : List ℕ) → (is_part_end p row ≡ true) ↔ IsPartEnd p row }
    ensures way { (p : ProblemParts) (node way : List ℕ) → (is_way_home p node way ≡ true) ↔ IsWayHome p node way }
    ensures each { (p : ProblemParts) (node : List ℕ) (test : List ℕ → Bool) → IsSound p
        → (each_way_home p node test ≡ true) ↔ ((way : List ℕ) → IsWayHome p node way → test way ≡ true) }
    ensures item { (p : ProblemParts) (node : List ℕ) (item : Item) → IsSound p
        → (cannot_meet p node item ≡ true) ↔ CannotMeet p node item }
    ensures is { (p : ProblemParts) (node : List ℕ) → IsSound p
        → (cannot_come p node ≡ true) ↔ CannotCome p node }
{}

/// A node that cannot come to what is asked has no kept touch below it.
pub fn nothing_is_kept_below_a_node_that_cannot_come()
    ensures no_way { (p : ProblemParts) (node : List ℕ) → IsSound p → HasNoWayHome p node → HasNoneBelow p node }
    ensures is { (p : ProblemParts) (node : List ℕ) → IsSound p → cannot_come p node ≡ true → HasNoneBelow p node }
{
    joined_callings_multiply();
}
