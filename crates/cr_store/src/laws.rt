//! Laws of checkpoints and of inputs. Each is the contract of a function that does nothing.

ghost use Rattle.std.specs.Prelude.{◌≡◌, ◌⊎◌, ◌+◌, ◌^◌, ◌<◌, ◌≤◌, ◌++◌, ℕ, List, [], ◌∷◌, length, map, All};
ghost use Rattle.cr_model.specs.Problems.{ProblemParts};
ghost use Rattle.cr_model.specs.Nodes.{nodes_above, times_found};
ghost use Rattle.cr_model.specs.Books.{IsBook};
ghost use Rattle.cr_model.specs.Checkpoints.{CanGoOn, CheckFile, IsCheckpoint, checkpoint_text, nodes_of_jobs};
ghost use Rattle.cr_model.specs.Inputs.{Input, SameCover};
ghost use Rattle.cr_model.specs.ProblemFiles.{ProblemFile};
ghost use Rattle.cr_board.specs.Boards.{BoardParts};
ghost use Rattle.cr_board.specs.Partitions.{EachOnce};
ghost use Rattle.cr_board.specs.Chains.{FollowOn, found_by, spent_by, left_by};
ghost use Rattle.cr_store.specs.declared.fault.CheckFault.{CheckFault};
ghost use Rattle.cr_store.specs.Chains.{AreSame, IsChain, last_text};
ghost use Rattle.cr_store.specs.Lines.{node_lines_of, item_numbers, last_line, line_of, left_out, numbered_example, StandsOn};
ghost use Rattle.cr_store.specs.Shapes.{ShapeParts, HasShape, found_text, node_text};
ghost use Rattle.cr_store.specs.Reading.{touch_line_at, node_line_at};
ghost use Rattle.cr_store.specs.Progress.{Progress};
ghost use Rattle.cr_store.specs.Searches.{WentOn};
ghost use Rattle.cr_store.specs.Faults.{FirstCheckFault};

use crate::shape_laws::{
    a_text_has_a_shape_or_a_fault, a_text_has_one_shape, no_text_has_shape_and_fault,
    one_line_is_first_wrong,
};
use cr_board::laws::{boards_follow_one_another, each_touch_stands_once};
use cr_book::laws::callings_differ_in_their_texts;
use cr_model::laws::{a_test_decides_what_is_kept, book_is_unique};
use cr_node::laws::{
    independent_items_do_not_overlap, one_pair_overlaps_first, some_pair_overlaps_first,
};
use cr_read::{a_file_is_taken_or_refused, bytes_have_one_answer as one_answer_of_a_file};

/// A search that can go on from found touches and jobs covers each touch once: it was found once, or has one node above
/// it.
pub fn each_touch_is_covered_once()
    ensures { (p : ProblemParts) (found : List (List ℕ)) (jobs : List (List (List ℕ))) → CanGoOn p found jobs → (calling : List ℕ)
        → times_found found calling + nodes_above p (nodes_of_jobs jobs) calling ≤ 1 }
{
    each_touch_stands_once();
}

/// A search that went on has each kept touch that it began with once: it was found once, or has one node above it, and
/// never both. So it is over any number of boards, each of which was opened with what the one before it left.
pub fn a_search_has_each_touch_once()
    ensures touches { (p : ProblemParts) (found : List (List ℕ)) (jobs : List (List (List ℕ))) (now : List (List ℕ)) (left : List (List (List ℕ))) (spent : ℕ)
        → WentOn p found jobs now left spent → EachOnce p found (nodes_of_jobs jobs) now (nodes_of_jobs left) }
    ensures boards { (p : ProblemParts) (found : List (List ℕ)) (jobs : List (List (List ℕ))) (boards : List BoardParts)
        → CanGoOn p found jobs → FollowOn p jobs boards
        → WentOn p found jobs (found ++ found_by boards) (left_by jobs boards) (spent_by boards) }
{
    each_touch_stands_once();
    boards_follow_one_another();
}

/// Bytes are the checkpoint of one problem, found list and list of jobs at most, they have one first fault at most, and
/// never both. They are so few as any machine can hold.
pub fn bytes_have_one_answer()
    ensures one_checkpoint { (bytes : List ℕ) (c other : Progress) → length bytes < 2 ^ 63
        → CheckFile bytes c.bytes c.problem c.found c.jobs → CheckFile bytes other.bytes other.problem other.found other.jobs → c ≡ other }
    ensures one_fault { (bytes : List ℕ) (why other : CheckFault) → FirstCheckFault bytes why → FirstCheckFault bytes other → why ≡ other }
    ensures never_both { (bytes : List ℕ) (c : Progress) (why : CheckFault) → length bytes < 2 ^ 63
        → CheckFile bytes c.bytes c.problem c.found c.jobs → FirstCheckFault bytes why → ⊥ }
{
    a_text_has_one_shape();
    one_line_is_first_wrong();
    no_text_has_shape_and_fault();
    one_answer_of_a_file();
    callings_differ_in_their_texts();
    independent_items_do_not_overlap();
    one_pair_overlaps_first();
}

/// All bytes are a checkpoint, or have a first fault.
pub fn bytes_are_a_checkpoint_or_have_a_fault()
    ensures { (bytes : List ℕ) → ((c : Progress) × CheckFile bytes c.bytes c.problem c.found c.jobs)
        ⊎ ((why : CheckFault) × FirstCheckFault bytes why) }
{
    a_text_has_a_shape_or_a_fault();
    a_file_is_taken_or_refused();
    callings_differ_in_their_texts();
    a_test_decides_what_is_kept();
    independent_items_do_not_overlap();
    some_pair_overlaps_first();
}

/// What is written of a problem's file, found touches and jobs from which a search can go on is their checkpoint, and
/// that of nothing else. So reading it gives them back.
pub fn what_is_written_is_read_back()
    ensures is { (c : Progress) → ProblemFile c.bytes c.problem → CanGoOn c.problem c.found c.jobs
        → CheckFile (checkpoint_text c.problem c.bytes c.found c.jobs) c.bytes c.problem c.found c.jobs }
    ensures alone { (c other : Progress) → ProblemFile c.bytes c.problem → CanGoOn c.problem c.found c.jobs
        → length (checkpoint_text c.problem c.bytes c.found c.jobs) < 2 ^ 63
        → CheckFile (checkpoint_text c.problem c.bytes c.found c.jobs) other.bytes other.problem other.found other.jobs → c ≡ other }
{
    bytes_have_one_answer();
}

/// The lines of found touches and of nodes stand in a text on the lines of their numbers, which are counted from 1 over
/// the whole text.
pub fn lines_stand_on_their_numbers()
    ensures touches { (text : List ℕ) (s : ShapeParts) → HasShape text s → (i : ℕ) → i < length s.found
        → StandsOn text (found_text (touch_line_at s.found i)) (line_of s i) }
    ensures nodes { (text : List ℕ) (s : ShapeParts) → HasShape text s → (i : ℕ) → i < length (node_lines_of s)
        → StandsOn text (node_text s.version (node_line_at (node_lines_of s) i)) (line_of s (length s.found + i)) }
{}

/// Where the problem has two line feeds, two touches were found, and there are a job of one node and one of two, these
/// are the numbers of the lines of touches and nodes, and that of the last line. In version 1 a node's line leaves out
/// nothing; in version 2 it leaves out the steps that are shared with the node before.
pub fn lines_by_example()
    ensures numbers { item_numbers numbered_example ≡ 7 ∷ 8 ∷ 11 ∷ 13 ∷ 14 ∷ [] }
    ensures last { last_line numbered_example ≡ 15 }
    ensures left_out { map (λ version. left_out version (0 ∷ 1 ∷ []) (0 ∷ 1 ∷ 1 ∷ [])) (1 ∷ 2 ∷ []) ≡ 0 ∷ 2 ∷ [] }
{}

/// A checkpoint begins as one, so it is no problem file's input.
pub fn checkpoints_begin_as_such()
    ensures { (text bytes : List ℕ) (p : ProblemParts) (found : List (List ℕ)) (jobs : List (List (List ℕ)))
        → CheckFile text bytes p found jobs → IsCheckpoint text }
{}

/// An input has its parts alone.
pub fn an_input_has_its_parts_alone()
    ensures { (text bytes : List ℕ) (p : ProblemParts) (found nodes : List (List ℕ)) (other : List ℕ) (q : ProblemParts) (founds rest : List (List ℕ))
        → length text < 2 ^ 63 → Input text bytes p found nodes → Input text other q founds rest → AreSame bytes p found nodes other q founds rest }
{
    bytes_have_one_answer();
    one_answer_of_a_file();
}

/// To cover the same is an equivalence of inputs.
pub fn covering_the_same_is_an_equivalence()
    ensures itself { (text bytes : List ℕ) (p : ProblemParts) (found nodes : List (List ℕ)) → Input text bytes p found nodes → SameCover text text }
    ensures turned { (text other : List ℕ) → SameCover text other → SameCover other text }
    ensures followed { (text other third : List ℕ) → length other < 2 ^ 63 → SameCover text other → SameCover other third → SameCover text third }
{
    bytes_have_one_answer();
    one_answer_of_a_file();
}

/// Inputs that cover the same have one book. So have the first and the last of a chain of them: after any number of
/// stops a run that is not stopped writes the book of the first input.
pub fn what_covers_the_same_has_one_book()
    ensures book { (text other bytes : List ℕ) (p : ProblemParts) (found nodes book : List (List ℕ)) (others : List ℕ) (q : ProblemParts) (founds rest last : List (List ℕ))
        → length text < 2 ^ 63 → length other < 2 ^ 63 → SameCover text other → Input text bytes p found nodes → Input other others q founds rest
        → IsBook p found nodes book → IsBook q founds rest last → book ≡ last }
    ensures chain { (text : List ℕ) (texts : List (List ℕ)) (bytes : List ℕ) (p : ProblemParts) (found nodes : List (List ℕ))
        → All (λ t. length t < 2 ^ 63) texts → Input text bytes p found nodes → IsChain text texts → SameCover text (last_text text texts) }
    ensures end { (text : List ℕ) (texts : List (List ℕ)) (bytes : List ℕ) (p : ProblemParts) (found nodes book : List (List ℕ)) (others : List ℕ) (q : ProblemParts) (founds rest last : List (List ℕ))
        → All (λ t. length t < 2 ^ 63) (text ∷ texts) → IsChain text texts → Input text bytes p found nodes
        → Input (last_text text texts) others q founds rest
        → IsBook p found nodes book → IsBook q founds rest last → book ≡ last }
{
    bytes_have_one_answer();
    one_answer_of_a_file();
    book_is_unique();
}
