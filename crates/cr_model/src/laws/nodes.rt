//! Nodes, and what found touches and nodes cover.

ghost use Rattle.std.specs.Prelude.{◌≡◌, ℕ, ◌+◌, ◌≤◌, ◌↔◌, true, List, [], ◌∷◌, ◌++◌, nat_abs, All};
ghost use Rattle.cr_model.specs.Problems.{ProblemParts};
ghost use Rattle.cr_model.specs.Queries.{repeated, Meets};
ghost use Rattle.cr_model.specs.Touches.{Kept};
ghost use Rattle.cr_model.specs.Nodes.{part_of, is_prefix, IsValid, nodes_above, times_found, Covers, Independent, Splits};
ghost use Rattle.cr_model.specs.Sound.{IsSound};
ghost use Rattle.cr_model.specs.Sizes.{live_children};
ghost use Rattle.cr_model.specs.OneTurn.{touch_found};

use cr_row::{
    change_after_product, change_of_a_row, change_twice, inverse_on_one_side, product_associates,
    rounds_is_neutral,
};

/// A node begins some steps exactly where they are the node and some more.
pub fn prefixes()
    ensures { (node steps : List ℕ) → (is_prefix node steps ≡ true) ↔ ((rest : List ℕ) × (steps ≡ node ++ rest)) }
{}

/// A calling that meets the query is its part, as often as the query has parts.
pub fn a_touch_is_its_part_repeated()
    ensures { (p : ProblemParts) (calling : List ℕ) → Meets p calling
        → calling ≡ repeated (nat_abs p.query.parts) (part_of p calling) }
{}

/// What was found of a job and what is left of it cover together what the job covered, and nothing else.
pub fn a_split_covers_the_same()
    ensures { (p : ProblemParts) (job found rest : List (List ℕ)) → Splits p job found rest → (calling : List ℕ)
        → Covers p [] job calling ↔ Covers p found rest calling }
{}

/// A job that is not begun is split into itself, and a split of what is left of a job goes on with the job's.
pub fn splits_follow_one_another()
    ensures not_begun { (p : ProblemParts) (nodes : List (List ℕ)) → All (IsValid p) nodes → Independent p [] nodes
        → Splits p nodes [] nodes }
    ensures onward { (p : ProblemParts) (job found rest more left : List (List ℕ)) → Splits p job found rest
        → Splits p rest more left → Splits p job (found ++ more) left }
{}

/// A kept touch is covered exactly where it was found, or has a node above it, at least once in all.
pub fn covers_are_counted()
    ensures { (p : ProblemParts) (found nodes : List (List ℕ)) (calling : List ℕ)
        → Covers p found nodes calling ↔ (Kept p calling × (1 ≤ times_found found calling + nodes_above p nodes calling)) }
{}

/// One turn on a valid node: its touch, if that is kept, and its children that are not dead are a split of it.
pub fn one_turn_splits_a_node()
    ensures { (p : ProblemParts) (most : ℕ) (node : List ℕ) → IsSound p → IsValid p node
        → Splits p (node ∷ []) (touch_found p node) (live_children p most node) }
{
    change_after_product();
    change_of_a_row();
    change_twice();
    inverse_on_one_side();
    product_associates();
    rounds_is_neutral();
}

/// A split of some nodes is one of them among others, where the others are valid and all are apart.
pub fn a_split_among_others()
    ensures { (p : ProblemParts) (job found rest others : List (List ℕ)) → Splits p job found rest
        → All (IsValid p) others → Independent p [] (others ++ job)
        → Splits p (others ++ job) found (others ++ rest) }
{}
