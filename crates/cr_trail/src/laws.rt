//! Laws of trails. Each is the contract of a function that does nothing.

ghost use Rattle.std.specs.Prelude.{◌≡◌, ℕ, ◌+◌, ◌*◌, ◌^◌, ◌<◌, ◌≤◌, List, [], Option, Some, Result, length, take, All};
ghost use Rattle.cr_model.specs.Problems.{ProblemParts};
ghost use Rattle.cr_model.specs.Books.{IsBook};
ghost use Rattle.cr_model.specs.Checkpoints.{CanGoOn};
ghost use Rattle.cr_model.specs.Inputs.{Input, SameCover};
ghost use Rattle.cr_store.specs.Blocks.{blocks, IsBody};
ghost use Rattle.cr_store.specs.Chains.{IsChain, last_text};
ghost use Rattle.cr_trail.specs.Lasts.{IsLast};
ghost use Rattle.cr_trail.specs.Cuts.{TellsLastWhole};
ghost use Rattle.cr_trail.specs.Runs.{size_of_jobs, KeepsTo, RunsTo, RunsOn, turns_after};
ghost use Rattle.cr_trail.specs.Trails.{Says, IsTrailFrom, LeavesNone, IsTrail};
ghost use Rattle.cr_trail.specs.Taken.{IsTakenFrom, AreTaken};
ghost use Rattle.cr_trail.specs.declared.last.TrailFault.{TrailFault};

use cr_board::laws::partitions_follow_one_another;
use cr_model::laws::sizes_are_sums;
use cr_store::block_laws::each_place_has_one_answer;
use cr_store::laws::{
    bytes_have_one_answer, checkpoints_begin_as_such, what_covers_the_same_has_one_book,
};

/// Of a text of blocks that is cut anywhere the last block is that of the last body whose block is whole, and there is
/// none where no block is.
pub fn a_cut_has_its_last_whole_block()
    ensures { (bodies : List (List ℕ)) (many : ℕ) (last : Result (ℕ × ℕ) TrailFault) → All IsBody bodies → many ≤ length (blocks bodies)
        → IsLast (take many (blocks bodies)) last → TellsLastWhole bodies many last }
{
    each_place_has_one_answer();
}

/// A trail of what an input says is the trail of the input.
pub fn a_trail_of_what_an_input_says()
    ensures { (input bytes : List ℕ) (p : ProblemParts) (found : List (List ℕ)) (jobs : List (List (List ℕ))) (every : ℕ) (trail : List (List ℕ))
        → Says input bytes p found jobs → IsTrailFrom p bytes found jobs every trail → IsTrail input every trail }
{
    checkpoints_begin_as_such();
}

/// A trail whose last checkpoint has no node has one checkpoint, and one more for each `every` turns that are begun; and a
/// search without a node has one checkpoint.
pub fn a_trail_has_a_checkpoint_for_each_turns()
    ensures none { (p : ProblemParts) (bytes : List ℕ) (found : List (List ℕ)) (every : ℕ) (trail : List (List ℕ))
        → CanGoOn p found [] → IsTrailFrom p bytes found [] every trail → length trail ≡ 1 }
    ensures most { (p : ProblemParts) (bytes : List ℕ) (found : List (List ℕ)) (jobs : List (List (List ℕ))) (every : ℕ) (trail : List (List ℕ))
        → CanGoOn p found jobs → IsTrailFrom p bytes found jobs every trail → LeavesNone p bytes trail
        → (turns : ℕ) → length trail ≡ turns + 1 → size_of_jobs p jobs ≤ turns * every }
    ensures least { (p : ProblemParts) (bytes : List ℕ) (found : List (List ℕ)) (jobs : List (List (List ℕ))) (every : ℕ) (trail : List (List ℕ))
        → CanGoOn p found jobs → IsTrailFrom p bytes found jobs every trail
        → (turns : ℕ) → length trail ≡ turns + 2 → turns * every < size_of_jobs p jobs }
{
    sizes_are_sums();
    bytes_have_one_answer();
}

/// Of every front of the blocks of a trail the last block is that of the last checkpoint whose block is whole, and there
/// is none where no block is.
pub fn a_cut_trail_has_its_last_whole_checkpoint()
    ensures { (input : List ℕ) (every : ℕ) (trail : List (List ℕ)) (many : ℕ) (last : Result (ℕ × ℕ) TrailFault) → IsTrail input every trail
        → many ≤ length (blocks trail) → IsLast (take many (blocks trail)) last → TellsLastWhole trail many last }
{
    a_cut_has_its_last_whole_block();
}

/// The last whole checkpoint of a front of a trail covers what the input covers, and a search that goes on from it has
/// the input's book. So it is with a trail of that search, cut off anywhere, and so on.
pub fn what_is_left_of_a_trail_has_the_book()
    ensures covers { (input text : List ℕ) → IsTakenFrom input text → SameCover input text }
    ensures short { (input text : List ℕ) → IsTakenFrom input text → length text < 2 ^ 63 }
    ensures chain { (input : List ℕ) (texts : List (List ℕ)) → AreTaken input texts → IsChain input texts }
    ensures book { (input : List ℕ) (texts : List (List ℕ)) (bytes : List ℕ) (p : ProblemParts) (found nodes book : List (List ℕ)) (others : List ℕ) (q : ProblemParts) (founds rest last : List (List ℕ))
        → length input < 2 ^ 63 → AreTaken input texts → Input input bytes p found nodes
        → Input (last_text input texts) others q founds rest
        → IsBook p found nodes book → IsBook q founds rest last → book ≡ last }
{
    a_cut_trail_has_its_last_whole_checkpoint();
    what_covers_the_same_has_one_book();
}

/// What a run found behind what was found before, and left, is where a search goes to from there (`begun`), and a search
/// can go on from what a run left (`on`). A run of so many turns, no more than are allowed, is a run of all that are
/// allowed where it leaves no job (`over`); and where it leaves some, so is it with a run behind it by the rest of the
/// turns (`more`).
pub fn runs_follow_one_another()
    ensures begun { (p : ProblemParts) (found : List (List ℕ)) (jobs : List (List (List ℕ))) (turns : Option ℕ) (now : List (List ℕ)) (left : List (List (List ℕ)))
        → CanGoOn p found jobs → RunsOn p found jobs turns now left → RunsTo p found jobs turns now left }
    ensures on { (p : ProblemParts) (found : List (List ℕ)) (jobs : List (List (List ℕ))) (turns : Option ℕ) (now : List (List ℕ)) (left : List (List (List ℕ)))
        → RunsOn p found jobs turns now left → CanGoOn p [] left }
    ensures over { (p : ProblemParts) (found : List (List ℕ)) (jobs : List (List (List ℕ))) (turns : Option ℕ) (first : ℕ) (now : List (List ℕ)) (left : List (List (List ℕ)))
        → RunsOn p found jobs (Some first) now left → KeepsTo turns first → left ≡ [] → RunsOn p found jobs turns now left }
    ensures more { (p : ProblemParts) (found : List (List ℕ)) (jobs : List (List (List ℕ))) (turns : Option ℕ) (first : ℕ) (now : List (List ℕ)) (left : List (List (List ℕ)))
        (later : List (List ℕ)) (rest : List (List (List ℕ)))
        → RunsOn p found jobs (Some first) now left → KeepsTo turns first → (left ≡ [] → ⊥)
        → RunsOn p now left (turns_after turns first) later rest → RunsOn p found jobs turns later rest }
{
    partitions_follow_one_another();
}
