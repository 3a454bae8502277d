//! Laws of overlaps and of finished work. Each is the contract of a function that does nothing.

ghost use Rattle.std.specs.Prelude.{◌≡◌, ℕ, ◌+◌, ◌≤◌, ◌↔◌, true, false, List, [], ◌∷◌, ◌++◌, length, map, All};
ghost use Rattle.cr_model.specs.Problems.{ProblemParts};
ghost use Rattle.cr_model.specs.Nodes.{nodes_above, times_found, Independent};
ghost use Rattle.cr_model.specs.Sizes.{most_rows, size_of_all};
ghost use Rattle.cr_model.specs.Touches.{Kept};
ghost use Rattle.cr_node.specs.Overlaps.{Item, of_node, items, overlaps, ApartBelow, IsFirstOverlap};
ghost use Rattle.cr_node.specs.Work.{IsJob, IsDone};

use cr_model::laws::splits_follow_one_another;

/// Found touches and nodes are independent exactly where no two of their items overlap.
pub fn independent_items_do_not_overlap()
    ensures { (p : ProblemParts) (found nodes : List (List ℕ))
        → Independent p found nodes ↔ ApartBelow (items p found nodes) (length (items p found nodes)) }
{}

/// Where found touches and nodes are not independent, some pair is the first overlap.
pub fn some_pair_overlaps_first()
    ensures { (p : ProblemParts) (found nodes : List (List ℕ)) → (Independent p found nodes → ⊥)
        → (i j : ℕ) × IsFirstOverlap (items p found nodes) i j }
{}

/// Nodes overlap where one begins the other or both are equal. A node overlaps a found touch that it begins or is, and
/// none that begins it. Found touches never overlap.
pub fn items_overlap_at_their_edges()
    ensures nodes { map (overlaps (of_node (0 ∷ [])))
        (of_node [] ∷ of_node (0 ∷ []) ∷ of_node (1 ∷ []) ∷ of_node (0 ∷ 1 ∷ []) ∷ of_node (1 ∷ 0 ∷ []) ∷ [])
        ≡ true ∷ true ∷ false ∷ true ∷ false ∷ [] }
    ensures found { map (λ word. overlaps (record { word = word; found = true }) (of_node (0 ∷ 1 ∷ [])))
        ([] ∷ (0 ∷ []) ∷ (0 ∷ 1 ∷ []) ∷ (0 ∷ 1 ∷ 0 ∷ []) ∷ (1 ∷ 1 ∷ []) ∷ [])
        ≡ false ∷ false ∷ true ∷ true ∷ false ∷ [] }
    ensures both { overlaps (record { word = 0 ∷ []; found = true }) (record { word = 0 ∷ []; found = true }) ≡ false }
{}

/// Of some items one pair at most is the first overlap, and none where no two overlap.
pub fn one_pair_overlaps_first()
    ensures one { (all : List Item) (i j k m : ℕ) → IsFirstOverlap all i j → IsFirstOverlap all k m → (i ≡ k) × (j ≡ m) }
    ensures none { (all : List Item) (i j : ℕ) → ApartBelow all (length all) → IsFirstOverlap all i j → ⊥ }
{}

/// Where nothing is left of a job, what was found are the kept touches below it, each once, and the turns used are
/// the job's size.
pub fn a_job_without_rest_is_found_whole()
    ensures each { (p : ProblemParts) (job found : List (List ℕ)) (used : ℕ) → IsDone p job found [] used
        → (calling : List ℕ) → Kept p calling → 1 ≤ nodes_above p job calling → times_found found calling ≡ 1 }
    ensures only { (p : ProblemParts) (job found : List (List ℕ)) (used : ℕ) → IsDone p job found [] used
        → All (λ calling. Kept p calling × (1 ≤ nodes_above p job calling)) found }
    ensures turns { (p : ProblemParts) (job found : List (List ℕ)) (used : ℕ) → IsDone p job found [] used
        → used ≡ size_of_all p most_rows job }
{}

/// The root is a job. A job that is not begun is finished work of no turns, and work on what is left of a job goes on
/// with the job's.
pub fn work_goes_on()
    ensures root { (p : ProblemParts) → IsJob p ([] ∷ []) }
    ensures not_begun { (p : ProblemParts) (nodes : List (List ℕ)) → IsJob p nodes → IsDone p nodes [] nodes 0 }
    ensures onward { (p : ProblemParts) (job found rest more left : List (List ℕ)) (used further : ℕ)
        → IsDone p job found rest used → IsDone p rest more left further
        → IsDone p job (found ++ more) left (used + further) }
{
    splits_follow_one_another();
}
