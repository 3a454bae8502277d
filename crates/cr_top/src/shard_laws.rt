//! A law of shards. It is the contract of a function that does nothing.

ghost use Rattle.std.specs.Prelude.{◌≡◌, ℕ, ◌^◌, ◌<◌, Option, None, List, [], length};
ghost use Rattle.std.specs.List.{AllZip};
ghost use Rattle.std.specs.List.Sorted.{IsPermutation};
ghost use Rattle.cr_model.specs.Checkpoints.{checkpoint_text};
ghost use Rattle.cr_model.specs.Inputs.{SameCover};
ghost use Rattle.cr_shard.specs.JoinFaults.{IsJoin};
ghost use Rattle.cr_trail.specs.Taken.{IsTakenFrom};
ghost use Rattle.cr_top.specs.Shards.{IsCutOf};
ghost use Rattle.cr_top.specs.Texts.{IsBookOf, IsStopOf};

use cr_shard::laws::{a_book_covers_its_shard, what_is_joined_covers_what_was_cut};
use cr_store::laws::{an_input_has_its_parts_alone, checkpoints_begin_as_such};
use cr_trail::laws::what_is_left_of_a_trail_has_the_book;

/// Cut, search each shard, join, search: the search of the join writes the book of the input. The shards may be joined in
/// any order, and each may be anything that covers what the shard covers: the checkpoint at which its search stopped, or
/// the last whole one of what is left of a trail of it, or, where its search finished, the checkpoint of its book's
/// touches that has no job; and, step by step, what comes of such.
pub fn a_search_in_shards_goes_on_to_the_book()
    ensures book { (into : ℕ) (input cut text joined book : List ℕ) (searched : List (List ℕ)) → 0 < into → (dealt : IsCutOf into input cut)
        → length cut < 2 ^ 63 → AllZip SameCover dealt.cut.shards searched → (is : IsJoin text joined) → IsPermutation searched is.bodies
        → length joined < 2 ^ 63 → IsBookOf None joined book → IsBookOf None input book }
    ensures stopped { (turns : ℕ) (shard text : List ℕ) → IsStopOf turns shard text → SameCover shard text }
    ensures trailed { (shard text : List ℕ) → IsTakenFrom shard text → SameCover shard text }
    ensures finished { (turns : Option ℕ) (shard text : List ℕ) → (is : IsBookOf turns shard text)
        → SameCover shard (checkpoint_text is.p is.bytes is.book []) }
{
    what_is_joined_covers_what_was_cut();
    a_book_covers_its_shard();
    what_is_left_of_a_trail_has_the_book();
    an_input_has_its_parts_alone();
    checkpoints_begin_as_such();
}
