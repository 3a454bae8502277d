//! Laws of turns. Each is the contract of a function that does nothing but call other laws.

ghost use Rattle.std.specs.Prelude.{◌≡◌, ℕ, ◌+◌, ◌<◌, ◌≤◌, ◌↔◌, ◌⊎◌, List, [], ◌∷◌, ◌++◌, length, reverse, All, IsPermutation};
ghost use Rattle.cr_model.specs.Examples.{minimus, pair, asks};
ghost use Rattle.cr_model.specs.Problems.{ProblemParts};
ghost use Rattle.cr_model.specs.Nodes.{nodes_above, times_found, Independent, Splits};
ghost use Rattle.cr_model.specs.Dead.{HasNoneBelow};
ghost use Rattle.cr_model.specs.OneTurn.{touch_found};
ghost use Rattle.cr_model.specs.Sizes.{most_rows, live_children, size_of_all};
ghost use Rattle.cr_model.specs.Sound.{IsSound};
ghost use Rattle.cr_model.specs.Touches.{Kept};
ghost use Rattle.cr_node.specs.Work.{IsJob, IsDone};
ghost use Rattle.cr_explore.specs.Turns.{one_turn, after_turns};

use cr_model::laws::{
    a_split_among_others, one_turn_splits_a_node, sizes_are_sums, splits_follow_one_another,
};
use cr_node::laws::{a_job_without_rest_is_found_whole, work_goes_on};

/// A turn takes the last node that is left: its touch is found, if that is kept, and its live children are left in
/// its place, the least step last. Where no node is left a turn changes nothing.
pub fn a_turn_takes_the_last_node()
    ensures some { (p : ProblemParts) (most : ℕ) (found below : List (List ℕ)) (node : List ℕ) (used : ℕ)
        → one_turn p most (record { found = found; rest = below ++ node ∷ []; used = used })
        ≡ record { found = found ++ touch_found p node; rest = below ++ reverse (live_children p most node); used = used + 1 } }
    ensures none { (p : ProblemParts) (most : ℕ) (found : List (List ℕ)) (used : ℕ)
        → one_turn p most (record { found = found; rest = []; used = used }) ≡ record { found = found; rest = []; used = used } }
{}

/// In Plain Bob Minimus four turns find the plain course, and nothing changes after them. In two methods of its changes
/// twelve turns find the five touches, the least step first: three plain leads, of one method or of both, and the call
/// alone.
pub fn turns_of_examples()
    ensures one_method { after_turns minimus 3 ([] ∷ []) 9 ≡ record { found = (0 ∷ 0 ∷ 0 ∷ []) ∷ []; rest = []; used = 4 } }
    ensures not_begun { after_turns minimus 3 ([] ∷ []) 0 ≡ record { found = []; rest = [] ∷ []; used = 0 } }
    ensures first { after_turns (pair (asks 1 24 1)) 3 ([] ∷ []) 1
        ≡ record { found = []; rest = (2 ∷ []) ∷ (1 ∷ []) ∷ (0 ∷ []) ∷ []; used = 1 } }
    ensures eleventh { after_turns (pair (asks 1 24 1)) 3 ([] ∷ []) 11
        ≡ record { found = (0 ∷ 0 ∷ 0 ∷ []) ∷ (0 ∷ 0 ∷ 2 ∷ []) ∷ (0 ∷ 2 ∷ 2 ∷ []) ∷ (1 ∷ []) ∷ []; rest = (2 ∷ 2 ∷ 2 ∷ []) ∷ []; used = 11 } }
    ensures last { after_turns (pair (asks 1 24 1)) 3 ([] ∷ []) 12
        ≡ record { found = (0 ∷ 0 ∷ 0 ∷ []) ∷ (0 ∷ 0 ∷ 2 ∷ []) ∷ (0 ∷ 2 ∷ 2 ∷ []) ∷ (1 ∷ []) ∷ (2 ∷ 2 ∷ 2 ∷ []) ∷ []; rest = []; used = 12 } }
    ensures of_two_nodes { after_turns (pair (asks 1 24 1)) 3 ((1 ∷ []) ∷ (2 ∷ 2 ∷ []) ∷ []) 2
        ≡ record { found = (2 ∷ 2 ∷ 2 ∷ []) ∷ []; rest = (1 ∷ []) ∷ []; used = 2 } }
{}

/// A split, and what stands above a touch, are the same in whatever order the nodes stand that are left.
pub fn a_split_in_any_order()
    ensures splits { (p : ProblemParts) (job found rest other : List (List ℕ)) → IsPermutation rest other
        → Splits p job found rest → Splits p job found other }
    ensures above { (p : ProblemParts) (nodes other : List (List ℕ)) (calling : List ℕ) → IsPermutation nodes other
        → nodes_above p other calling ≡ nodes_above p nodes calling }
    ensures independent { (p : ProblemParts) (found nodes other : List (List ℕ)) → IsPermutation nodes other
        → Independent p found nodes → Independent p found other }
{}

/// A turn on the last node that is left goes on with a split of the job, and takes one off the size of what is left.
pub fn a_turn_goes_on_with_a_split()
    ensures splits { (p : ProblemParts) (job found below : List (List ℕ)) (node : List ℕ) → IsSound p
        → Splits p job found (below ++ node ∷ [])
        → Splits p job (found ++ touch_found p node) (below ++ reverse (live_children p most_rows node)) }
    ensures size { (p : ProblemParts) (below : List (List ℕ)) (node : List ℕ) → IsSound p
        → size_of_all p most_rows (below ++ reverse (live_children p most_rows node)) + 1
        ≡ size_of_all p most_rows (below ++ node ∷ []) }
{
    a_split_among_others();
    one_turn_splits_a_node();
    sizes_are_sums();
    splits_follow_one_another();
}

/// Nodes below which nothing is kept may be left out of what is left of a job: what is found stays whole, and each takes
/// at least one off the size.
pub fn nodes_with_none_below_may_be_left_out()
    ensures splits { (p : ProblemParts) (job found rest passed : List (List ℕ)) → All (HasNoneBelow p) passed
        → Splits p job found (rest ++ passed) → Splits p job found rest }
    ensures size { (p : ProblemParts) (rest passed : List (List ℕ)) → IsSound p
        → size_of_all p most_rows rest + length passed ≤ size_of_all p most_rows (rest ++ passed) }
{
    sizes_are_sums();
}

/// Where a split leaves nothing, each kept touch was found as often as nodes of the job are above it, which is once where
/// these are independent, and nothing else was found.
pub fn a_split_without_rest_is_found_whole()
    ensures times { (p : ProblemParts) (job found : List (List ℕ)) → Splits p job found []
        → (calling : List ℕ) → Kept p calling → times_found found calling ≡ nodes_above p job calling }
    ensures each { (p : ProblemParts) (job found : List (List ℕ)) → Independent p [] job → Splits p job found []
        → (calling : List ℕ) → Kept p calling → 1 ≤ nodes_above p job calling → times_found found calling ≡ 1 }
    ensures only { (p : ProblemParts) (job found : List (List ℕ)) → Splits p job found []
        → All (λ calling. Kept p calling × (1 ≤ nodes_above p job calling)) found }
{}

/// Turns on a job are finished work on it: of so many turns at most, and fewer only where nothing is left.
pub fn turns_are_finished_work()
    ensures done { (p : ProblemParts) (job : List (List ℕ)) (number : ℕ) → IsSound p → IsJob p job
        → let after = after_turns p most_rows job number in IsDone p job after.found after.rest after.used }
    ensures few { (p : ProblemParts) (job : List (List ℕ)) (number : ℕ) → IsSound p → IsJob p job
        → (after_turns p most_rows job number).used ≤ number }
    ensures ends { (p : ProblemParts) (job : List (List ℕ)) (number : ℕ) → IsSound p → IsJob p job
        → ((after_turns p most_rows job number).rest ≡ []) ⊎ ((after_turns p most_rows job number).used ≡ number) }
{
    a_turn_goes_on_with_a_split();
    work_goes_on();
}

/// Nothing is left after as many turns as the job's size, and something is after fewer.
pub fn the_size_of_a_job_is_its_turns()
    ensures { (p : ProblemParts) (job : List (List ℕ)) (number : ℕ) → IsSound p → IsJob p job
        → ((after_turns p most_rows job number).rest ≡ []) ↔ (size_of_all p most_rows job ≤ number) }
{
    turns_are_finished_work();
    sizes_are_sums();
}

/// Where nothing is left, what was found are the kept touches below the job, each once.
pub fn turns_find_all_that_is_kept()
    ensures each { (p : ProblemParts) (job : List (List ℕ)) (number : ℕ) → IsSound p → IsJob p job
        → (after_turns p most_rows job number).rest ≡ [] → (calling : List ℕ) → Kept p calling
        → 1 ≤ nodes_above p job calling → times_found (after_turns p most_rows job number).found calling ≡ 1 }
    ensures only { (p : ProblemParts) (job : List (List ℕ)) (number : ℕ) → IsSound p → IsJob p job
        → (after_turns p most_rows job number).rest ≡ []
        → All (λ calling. Kept p calling × (1 ≤ nodes_above p job calling)) (after_turns p most_rows job number).found }
{
    a_job_without_rest_is_found_whole();
    turns_are_finished_work();
}

/// What finished work left, if there is something, is a job.
pub fn what_is_left_is_a_job()
    ensures { (p : ProblemParts) (job found rest : List (List ℕ)) (used : ℕ) → IsDone p job found rest used
        → 0 < length rest → IsJob p rest }
{}
