//! The size of a search.

ghost use Rattle.std.specs.Prelude.{◌≡◌, ℕ, ◌+◌, ◌<◌, List, [], ◌∷◌, ◌++◌, length, map, None};
ghost use Rattle.cr_model.specs.Problems.{ProblemParts};
ghost use Rattle.cr_model.specs.Callings.{length_of};
ghost use Rattle.cr_model.specs.Nodes.{IsValid};
ghost use Rattle.cr_model.specs.Sound.{IsSound};
ghost use Rattle.cr_model.specs.Dead.{dead};
ghost use Rattle.cr_model.specs.Sizes.{child, live_children, size, size_of_all};
ghost use Rattle.cr_model.specs.Examples.{minimus, pair, asks};

/// A child is longer than its node, so that the tree of nodes ends. A child of a valid node that is not dead is
/// valid.
pub fn a_child_is_longer()
    ensures longer { (p : ProblemParts) (node : List ℕ) (step : ℕ) → IsSound p → step < length p.leads
        → length_of p node < length_of p (child node step) }
    ensures valid { (p : ProblemParts) (most : ℕ) (node : List ℕ) (step : ℕ) → IsSound p → IsValid p node
        → step < length p.leads → dead p most (child node step) ≡ None → IsValid p (child node step) }
{}

/// The size of a node is one and the sizes of its children that are not dead; that of some nodes is the sum.
pub fn sizes_are_sums()
    ensures node { (p : ProblemParts) (most : ℕ) (node : List ℕ) → IsSound p
        → size p most node ≡ 1 + size_of_all p most (live_children p most node) }
    ensures none { (p : ProblemParts) (most : ℕ) → size_of_all p most [] ≡ 0 }
    ensures first { (p : ProblemParts) (most : ℕ) (node : List ℕ) (nodes : List (List ℕ))
        → size_of_all p most (node ∷ nodes) ≡ size p most node + size_of_all p most nodes }
    ensures joined { (p : ProblemParts) (most : ℕ) (nodes more : List (List ℕ))
        → size_of_all p most (nodes ++ more) ≡ size_of_all p most nodes + size_of_all p most more }
{}

/// Of Plain Bob Minimus the root, one, two and three leads are searched. Of two methods with a call, twelve nodes.
pub fn sizes_count_nodes()
    ensures one_method { map (size minimus 3) ([] ∷ (0 ∷ []) ∷ (0 ∷ 0 ∷ 0 ∷ []) ∷ []) ≡ 4 ∷ 3 ∷ 1 ∷ [] }
    ensures two_methods { map (size (pair (asks 24 24 1)) 3) ([] ∷ (0 ∷ []) ∷ (1 ∷ []) ∷ (2 ∷ []) ∷ []) ≡ 12 ∷ 7 ∷ 1 ∷ 3 ∷ [] }
    ensures together { size_of_all (pair (asks 24 24 1)) 3 ((0 ∷ []) ∷ (2 ∷ []) ∷ []) ≡ 10 }
{}
