//! Reasons why no kept touch has a node above it.

ghost use Rattle.std.specs.Prelude.{◌≡◌, ℕ, true, false, List, [], ◌∷◌, map, Some, None};
ghost use Rattle.cr_model.specs.declared.reason.Reason.{Reason};
ghost use Rattle.cr_model.specs.declared.reason.Reason.TheVariants as reason;
ghost use Rattle.cr_model.specs.Problems.{ProblemParts};
ghost use Rattle.cr_model.specs.Sound.{IsSound};
ghost use Rattle.cr_model.specs.Dead.{HasNoneBelow, is_long, is_self_false, is_again, is_round};
ghost use Rattle.cr_model.specs.Dead.{is_far, is_too_many, is_too_few, is_turned_back, turns_back};
ghost use Rattle.cr_model.specs.Dead.{holds, dead, IsFirstReason};
ghost use Rattle.cr_model.specs.Examples.{pair, faulty, asks, marked, lettered, fours, com_from};

use cr_row::{
    change_after_product, change_of_a_row, change_twice, inverse_on_one_side, product_associates,
    rounds_is_neutral,
};

/// A node that is longer than a part may be has no kept touch below it.
pub fn nothing_is_kept_below_a_long_node()
    ensures { (p : ProblemParts) (node : List ℕ) → IsSound p → is_long p node ≡ true → HasNoneBelow p node }
{}

/// A node whose last lead has a row twice has no kept touch below it.
pub fn nothing_is_kept_below_a_self_false_node()
    ensures { (p : ProblemParts) (node : List ℕ) → IsSound p → is_self_false p node ≡ true → HasNoneBelow p node }
{
    change_after_product();
    change_of_a_row();
    inverse_on_one_side();
    product_associates();
    rounds_is_neutral();
}

/// A node that has a row twice has no kept touch below it.
pub fn nothing_is_kept_below_a_node_with_a_row_twice()
    ensures { (p : ProblemParts) (node : List ℕ) → IsSound p → is_again p node ≡ true → HasNoneBelow p node }
{}

/// A node with rounds before its last row, or in its last row where there are several parts, has no kept
/// touch below it.
pub fn nothing_is_kept_below_a_node_that_comes_round()
    ensures { (p : ProblemParts) (node : List ℕ) → IsSound p → is_round p node ≡ true → HasNoneBelow p node }
{}

/// A node that can't come round within the greatest length, however many rows the levels list, has no kept
/// touch below it.
pub fn nothing_is_kept_below_a_node_far_from_rounds()
    ensures { (p : ProblemParts) (most : ℕ) (node : List ℕ) → IsSound p → is_far p most node ≡ true → HasNoneBelow p node }
{
    change_twice();
}

/// A node that has more leads, rows or changes of method than a limit allows has no kept touch below it.
pub fn nothing_is_kept_below_a_node_with_too_many()
    ensures { (p : ProblemParts) (node : List ℕ) → IsSound p → is_too_many p node ≡ true → HasNoneBelow p node }
{}

/// A node that can't have as many of them as a limit asks for has no kept touch below it.
pub fn nothing_is_kept_below_a_node_with_too_few()
    ensures { (p : ProblemParts) (node : List ℕ) → IsSound p → is_too_few p node ≡ true → HasNoneBelow p node }
{}

/// A node that turns back, where the query is the same for all rotations, has no kept touch below it.
pub fn nothing_is_kept_below_a_node_that_turns_back()
    ensures { (p : ProblemParts) (node : List ℕ) → IsSound p → is_turned_back p node ≡ true → HasNoneBelow p node }
{
    change_after_product();
    change_of_a_row();
    inverse_on_one_side();
    product_associates();
    rounds_is_neutral();
}

/// A dead node, for whatever reason, has no kept touch below it: what a search cuts off it never misses.
pub fn nothing_is_kept_below_a_dead_node()
    ensures { (p : ProblemParts) (most : ℕ) (node : List ℕ) (why : Reason) → IsSound p
        → dead p most node ≡ Some why → HasNoneBelow p node }
{
    change_twice();
    change_after_product();
    change_of_a_row();
    inverse_on_one_side();
    product_associates();
    rounds_is_neutral();
}

/// A node is dead for the first reason that holds of it, and not dead where none holds.
pub fn a_node_is_dead_for_its_first_reason()
    ensures some { (p : ProblemParts) (most : ℕ) (node : List ℕ) (why : Reason)
        → dead p most node ≡ Some why → IsFirstReason p most node why }
    ensures none { (p : ProblemParts) (most : ℕ) (node : List ℕ) (why : Reason)
        → dead p most node ≡ None → holds p most node why ≡ false }
{}

/// The first reason of nodes on both sides of each edge. The steps of `pair` are A plain, A with a call that
/// comes round at once, and C plain; its levels have three rows in all. `faulty` has a lead with rounds in its
/// middle and one with a row twice.
pub fn nodes_die_at_the_edges()
    ensures long { map (λ high. dead (pair (asks 1 high 3)) 3 (0 ∷ [])) (23 ∷ 24 ∷ []) ≡ Some reason.Long ∷ None ∷ [] }
    ensures long_first { dead (pair (asks 1 8 1)) 3 (1 ∷ 1 ∷ []) ≡ Some reason.Long }
    ensures self_false { map (dead (faulty (asks 1 24 1)) 3) ((2 ∷ []) ∷ (0 ∷ 2 ∷ []) ∷ (2 ∷ 0 ∷ []) ∷ [])
        ≡ Some reason.SelfFalse ∷ Some reason.SelfFalse ∷ Some reason.Again ∷ [] }
    ensures again { map (dead (pair (asks 1 24 1)) 3) ((0 ∷ 1 ∷ []) ∷ (1 ∷ 1 ∷ []) ∷ (0 ∷ 0 ∷ []) ∷ [])
        ≡ Some reason.Again ∷ Some reason.Again ∷ None ∷ [] }
    ensures round { dead (faulty (asks 1 24 1)) 3 (1 ∷ []) ≡ Some reason.Home }
    ensures round_in_parts { map (λ parts. dead (pair (asks 1 24 parts)) 3 (1 ∷ [])) (1 ∷ 2 ∷ []) ≡ None ∷ Some reason.Home ∷ [] }
    ensures far { map (λ high. dead (pair (asks 1 high 1)) 3 (0 ∷ [])) (23 ∷ 24 ∷ []) ≡ Some reason.Far ∷ None ∷ [] }
{}

/// Nodes that have as much as a limit allows, and one more.
pub fn nodes_die_above_a_limit()
    ensures marks { map (λ most. dead (pair (record (asks 1 24 1) { counts = marked 112 0 most ∷ [] })) 3 (0 ∷ 2 ∷ [])) (1 ∷ 2 ∷ [])
        ≡ Some reason.TooMany ∷ None ∷ [] }
    ensures marks_in_parts { map (λ most. dead (pair (record (asks 1 24 2) { counts = marked 112 0 most ∷ [] })) 3 (0 ∷ [])) (1 ∷ 2 ∷ [])
        ≡ Some reason.TooMany ∷ None ∷ [] }
    ensures methods { map (λ most. dead (pair (record (asks 1 24 1) { method_counts = lettered 65 0 most ∷ [] })) 3 (0 ∷ 0 ∷ [])) (1 ∷ 2 ∷ [])
        ≡ Some reason.TooMany ∷ None ∷ [] }
    ensures rows { map (λ most. dead (pair (record (asks 1 24 1) { patterns = fours 0 most ∷ [] })) 3 (0 ∷ 0 ∷ [])) (3 ∷ 4 ∷ [])
        ≡ Some reason.TooMany ∷ None ∷ [] }
    ensures changes_of_method { map (λ most. dead (pair (record (asks 1 24 1) { «com» = Some (com_from 0 most) })) 3 (0 ∷ 2 ∷ [])) (0 ∷ 1 ∷ [])
        ≡ Some reason.TooMany ∷ None ∷ [] }
{}

/// Nodes that can still come to what a limit asks for, and ones that fall one short.
pub fn nodes_die_below_a_limit()
    ensures marks { map (λ least. dead (pair (record (asks 1 24 1) { counts = marked 98 least 9 ∷ [] })) 3 (0 ∷ [])) (3 ∷ 2 ∷ [])
        ≡ Some reason.TooFew ∷ None ∷ [] }
    ensures leads_left_rounded_down { map (λ least. dead (faulty (record (asks 1 24 1) { counts = marked 115 least 9 ∷ [] })) 3 (0 ∷ [])) (6 ∷ 5 ∷ [])
        ≡ Some reason.TooFew ∷ None ∷ [] }
    ensures methods { map (λ least. dead (pair (record (asks 1 24 1) { method_counts = lettered 67 least 9 ∷ [] })) 3 (0 ∷ [])) (3 ∷ 2 ∷ [])
        ≡ Some reason.TooFew ∷ None ∷ [] }
    ensures rows { map (λ least. dead (pair (record (asks 1 24 1) { patterns = fours least 24 ∷ [] })) 3 (0 ∷ [])) (19 ∷ 18 ∷ [])
        ≡ Some reason.TooFew ∷ None ∷ [] }
    ensures changes_of_method { map (λ least. dead (pair (record (asks 1 24 1) { «com» = Some (com_from least 9) })) 3 (0 ∷ [])) (3 ∷ 2 ∷ [])
        ≡ Some reason.TooFew ∷ None ∷ [] }
    ensures joins_of_parts { map (λ least. dead (pair (record (asks 1 24 2) { «com» = Some (com_from least 9) })) 3 (0 ∷ [])) (2 ∷ 1 ∷ [])
        ≡ Some reason.TooFew ∷ None ∷ [] }
{}

/// A word turns back where an end of it is less than its beginning; a node dies of that where the query is the
/// same for all rotations.
pub fn nodes_that_turn_back_die()
    ensures words { map turns_back ((1 ∷ 0 ∷ []) ∷ (0 ∷ 1 ∷ 0 ∷ 0 ∷ []) ∷ (0 ∷ 1 ∷ []) ∷ (0 ∷ 0 ∷ 1 ∷ []) ∷ (0 ∷ 1 ∷ 0 ∷ []) ∷ [] ∷ [])
        ≡ true ∷ true ∷ false ∷ false ∷ false ∷ false ∷ [] }
    ensures node { map (dead (pair (asks 1 24 1)) 3) ((2 ∷ 0 ∷ []) ∷ (0 ∷ 2 ∷ []) ∷ []) ≡ Some reason.TurnsBack ∷ None ∷ [] }
    ensures with_a_pattern { dead (pair (record (asks 1 24 1) { patterns = fours 0 24 ∷ [] })) 3 (2 ∷ 0 ∷ []) ≡ None }
    ensures with_a_limit { dead (pair (record (asks 1 24 1) { «com» = Some (com_from 0 9) })) 3 (2 ∷ 0 ∷ []) ≡ None }
{}
