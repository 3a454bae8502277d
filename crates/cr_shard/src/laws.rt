//! Laws of shards. Each is the contract of a function that does nothing.

ghost use Rattle.std.specs.Prelude.{◌≡◌, ◌⊎◌, ◌↔◌, ℕ, ◌^◌, ◌<◌, List, [], length, get_or, take, All};
ghost use Rattle.std.specs.List.{AllZip};
ghost use Rattle.std.specs.List.Sorted.{IsPermutation};
ghost use Rattle.cr_model.specs.Problems.{ProblemParts};
ghost use Rattle.cr_model.specs.Nodes.{Covers};
ghost use Rattle.cr_model.specs.ProblemFiles.{ProblemFile};
ghost use Rattle.cr_model.specs.Books.{IsBook};
ghost use Rattle.cr_model.specs.Checkpoints.{CanGoOn, CheckFile, IsCheckpoint, checkpoint_text, nodes_of_jobs};
ghost use Rattle.cr_model.specs.Inputs.{Input, SameCover};
ghost use Rattle.cr_store.specs.Progress.{Progress};
ghost use Rattle.cr_shard.specs.Joins.{AreRead, IsJoinedOf, NoneOverlap, all_jobs, nodes_of};
ghost use Rattle.cr_shard.specs.JoinFaults.{HasBodies, IsJoin, FirstJoinFault};
ghost use Rattle.cr_shard.specs.declared.fault.JoinFault.{JoinFault};
ghost use Rattle.cr_shard.specs.declared.fault.JoinFault.TheVariants as fault;
ghost use Rattle.cr_store.specs.declared.fault.CheckFault.TheVariants as check;
ghost use Rattle.cr_shard.specs.Deals.{dealt_found, dealt_nodes, as_jobs, shard_text, IsDealt};

use cr_model::laws::book_is_unique;
use cr_read::bytes_have_one_answer as one_answer_of_a_file;
use cr_store::block_laws::each_place_has_one_answer;
use cr_store::laws::{
    an_input_has_its_parts_alone, bytes_are_a_checkpoint_or_have_a_fault, bytes_have_one_answer,
    checkpoints_begin_as_such,
};
use cr_store::shape_laws::shapes_by_example;

/// Each shard of a search is a checkpoint, from which a search can go on.
pub fn shards_are_checkpoints()
    ensures { (p : ProblemParts) (bytes : List ℕ) (found : List (List ℕ)) (jobs : List (List (List ℕ))) (into shard : ℕ)
        → ProblemFile bytes p → CanGoOn p found jobs
        → CheckFile (shard_text p bytes found jobs into shard) bytes p (dealt_found shard found) (as_jobs (dealt_nodes into shard (nodes_of_jobs jobs))) }
{}

/// What a search covers its shards cover, each calling exactly one of them, and no shard covers another calling.
pub fn each_calling_is_dealt_once()
    ensures once { (p : ProblemParts) (found : List (List ℕ)) (jobs : List (List (List ℕ))) (into : ℕ) (calling : List ℕ) → 0 < into
        → CanGoOn p found jobs → Covers p found (nodes_of_jobs jobs) calling
        → (shard : ℕ) × (shard < into) × Covers p (dealt_found shard found) (dealt_nodes into shard (nodes_of_jobs jobs)) calling
        × ((other : ℕ) → other < into → Covers p (dealt_found other found) (dealt_nodes into other (nodes_of_jobs jobs)) calling → other ≡ shard) }
    ensures no_other { (p : ProblemParts) (found : List (List ℕ)) (jobs : List (List (List ℕ))) (into shard : ℕ) (calling : List ℕ)
        → Covers p (dealt_found shard found) (dealt_nodes into shard (nodes_of_jobs jobs)) calling → Covers p found (nodes_of_jobs jobs) calling }
{}

/// Shards that are joined, no two of which overlap, are a checkpoint, which covers a calling exactly where some shard
/// does.
pub fn joined_shards_cover_together()
    ensures checkpoint { (bodies : List (List ℕ)) (shards : List Progress) (bytes : List ℕ) (p : ProblemParts) (text : List ℕ) → 0 < length bodies
        → AreRead bodies shards → NoneOverlap p shards → (joined : IsJoinedOf shards bytes p text)
        → CheckFile text bytes p joined.found (all_jobs shards) }
    ensures covers { (shards : List Progress) (bytes : List ℕ) (p : ProblemParts) (text : List ℕ) → (joined : IsJoinedOf shards bytes p text) → (calling : List ℕ)
        → Covers p joined.found (nodes_of_jobs (all_jobs shards)) calling
        ↔ ((shard : ℕ) × (shard < length shards)
        × ((d : Progress) → Covers p (get_or shards shard d).found (nodes_of (get_or shards shard d)) calling)) }
{}

/// A book stands for what it is the book of: the checkpoint whose found touches are the book's and which has no job
/// covers what the book's input covered.
pub fn a_book_covers_its_shard()
    ensures checkpoint { (bytes : List ℕ) (p : ProblemParts) (found nodes book : List (List ℕ)) → ProblemFile bytes p → IsBook p found nodes book
        → CheckFile (checkpoint_text p bytes book []) bytes p book [] }
    ensures covers { (p : ProblemParts) (found nodes book : List (List ℕ)) → IsBook p found nodes book → (calling : List ℕ)
        → Covers p book [] calling ↔ Covers p found nodes calling }
{}

/// Cut, search each shard, join: the book of the join is the book of the whole. However far each shard was searched and
/// however often it was stopped, what it is then covers the same as the shard did; the bodies that are joined are these
/// in any order.
pub fn a_search_in_shards_has_its_book()
    ensures { (p : ProblemParts) (bytes : List ℕ) (found : List (List ℕ)) (jobs : List (List (List ℕ))) (into : ℕ) (shards searched bodies : List (List ℕ))
        (parts : List Progress) (q : ProblemParts) (others joined : List ℕ) → ProblemFile bytes p → CanGoOn p found jobs → 0 < into
        → IsDealt p bytes found jobs into shards → AllZip SameCover shards searched → IsPermutation searched bodies
        → All (λ text. length text < 2 ^ 63) shards → All (λ text. length text < 2 ^ 63) bodies
        → AreRead bodies parts → (is : IsJoinedOf parts others q joined)
        → (book other : List (List ℕ)) → IsBook p found (nodes_of_jobs jobs) book → IsBook q is.found (nodes_of_jobs (all_jobs parts)) other → book ≡ other }
{
    an_input_has_its_parts_alone();
    checkpoints_begin_as_such();
    book_is_unique();
}

/// Cut, search each shard, join: what is joined is a checkpoint that covers what the whole covered, however far each shard
/// was searched and however often it was stopped.
pub fn what_is_joined_covers_what_was_cut()
    ensures { (p : ProblemParts) (bytes : List ℕ) (found : List (List ℕ)) (jobs : List (List (List ℕ))) (into : ℕ) (shards searched bodies : List (List ℕ))
        (parts : List Progress) (q : ProblemParts) (others joined : List ℕ) → ProblemFile bytes p → CanGoOn p found jobs → 0 < into
        → IsDealt p bytes found jobs into shards → AllZip SameCover shards searched → IsPermutation searched bodies
        → All (λ text. length text < 2 ^ 63) shards → All (λ text. length text < 2 ^ 63) bodies
        → AreRead bodies parts → IsJoinedOf parts others q joined
        → (input : List ℕ) → Input input bytes p found (nodes_of_jobs jobs) → NoneOverlap q parts → SameCover input joined }
{
    an_input_has_its_parts_alone();
    checkpoints_begin_as_such();
}

/// A body that does not begin as a checkpoint, behind some that are checkpoints, is told with its number, and as one whose
/// first line is wrong.
pub fn what_begins_otherwise_is_no_checkpoint()
    ensures { (text : List ℕ) (bodies : List (List ℕ)) (i : ℕ) (before : List Progress) → HasBodies text bodies → i < length bodies
        → AreRead (take i bodies) before → (IsCheckpoint (get_or bodies i []) → ⊥) → FirstJoinFault text (fault.Check i (check.Form 1)) }
{
    shapes_by_example();
}

/// Each text is joined or has a first fault: it is joined to one text, or has one first fault, and never both.
pub fn texts_have_one_answer()
    ensures some { (text : List ℕ) → ((joined : List ℕ) × IsJoin text joined) ⊎ ((why : JoinFault) × FirstJoinFault text why) }
    ensures one_text { (text joined other : List ℕ) → IsJoin text joined → IsJoin text other → joined ≡ other }
    ensures one_fault { (text : List ℕ) (why other : JoinFault) → FirstJoinFault text why → FirstJoinFault text other → why ≡ other }
    ensures never_both { (text joined : List ℕ) (why : JoinFault) → IsJoin text joined → FirstJoinFault text why → ⊥ }
{
    each_place_has_one_answer();
    bytes_have_one_answer();
    bytes_are_a_checkpoint_or_have_a_fault();
    one_answer_of_a_file();
}
