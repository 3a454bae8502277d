//! The checkpoint's text.

ghost use Rattle.std.specs.Prelude.{◌≡◌, ℕ, List, [], ◌∷◌, map, codes};
ghost use Rattle.cr_model.specs.Problems.{ProblemParts};
ghost use Rattle.cr_model.specs.ProblemFiles.{ProblemFile};
ghost use Rattle.cr_model.specs.Examples.{doubles};
ghost use Rattle.cr_model.specs.Checkpoints.{steps_shared, node_line, last_node, checkpoint_text, checkpoint_text_1, IsCheckpoint};
ghost use Rattle.cr_model.specs.Inputs.{Input, SameCover};

/// Checkpoints of Plain Bob Doubles, with a text of seven bytes in place of its file: nothing found and the root open;
/// a touch found and two jobs, in both versions; and nothing found and nothing open. A node shares steps with the node
/// before it, also across jobs, and the first node with none; all of a node may be shared.
pub fn checkpoints_by_example()
    ensures fresh { checkpoint_text doubles (codes "problem") [] (([] ∷ []) ∷ [])
        ≡ codes "ringsearch checkpoint 2\nproblem 7\nproblem\nfound 0\njobs 1\njob 1\n0 -\nend\n" }
    ensures shared { checkpoint_text doubles (codes "problem") ((1 ∷ 1 ∷ []) ∷ []) (((0 ∷ 1 ∷ 0 ∷ []) ∷ []) ∷ ((0 ∷ 1 ∷ 1 ∷ 0 ∷ []) ∷ (0 ∷ 0 ∷ []) ∷ []) ∷ [])
        ≡ codes "ringsearch checkpoint 2\nproblem 7\nproblem\nfound 1\n20 bb\njobs 2\njob 1\n0 pbp\njob 2\n2 bp\n1 p\nend\n" }
    ensures whole { checkpoint_text_1 doubles (codes "problem") ((1 ∷ 1 ∷ []) ∷ []) (((0 ∷ 1 ∷ 0 ∷ []) ∷ []) ∷ ((0 ∷ 1 ∷ 1 ∷ 0 ∷ []) ∷ (0 ∷ 0 ∷ []) ∷ []) ∷ [])
        ≡ codes "ringsearch checkpoint 1\nproblem 7\nproblem\nfound 1\n20 bb\njobs 2\njob 1\npbp\njob 2\npbbp\npp\nend\n" }
    ensures finished { checkpoint_text doubles [] [] []
        ≡ codes "ringsearch checkpoint 2\nproblem 0\n\nfound 0\njobs 0\nend\n" }
    ensures alike { map (steps_shared (0 ∷ 1 ∷ [])) ([] ∷ (1 ∷ []) ∷ (0 ∷ []) ∷ (0 ∷ 1 ∷ []) ∷ (0 ∷ 1 ∷ 1 ∷ []) ∷ (0 ∷ 0 ∷ 1 ∷ []) ∷ [])
        ≡ 0 ∷ 0 ∷ 1 ∷ 2 ∷ 2 ∷ 1 ∷ [] }
    ensures all_shared { map (node_line doubles 2 (0 ∷ 1 ∷ [])) ((0 ∷ 1 ∷ []) ∷ (0 ∷ []) ∷ []) ≡ codes "2 -\n" ∷ codes "1 -\n" ∷ [] }
    ensures last { map (last_node (0 ∷ [])) ([] ∷ ((1 ∷ []) ∷ [] ∷ []) ∷ []) ≡ (0 ∷ []) ∷ [] ∷ [] }
{}

/// A problem's file is an input of which nothing is found and the root is open, and covers the same as itself.
pub fn a_problem_file_is_an_input()
    ensures input { (bytes : List ℕ) (p : ProblemParts) → ProblemFile bytes p → (IsCheckpoint bytes → ⊥)
        → Input bytes bytes p [] ([] ∷ []) }
    ensures same { (bytes : List ℕ) (p : ProblemParts) → ProblemFile bytes p → (IsCheckpoint bytes → ⊥) → SameCover bytes bytes }
{}
