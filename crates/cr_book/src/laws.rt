//! Laws of texts and of the book's order. Each is the contract of a function that does nothing.

ghost use Rattle.std.specs.Prelude.{◌≡◌, ◌+◌, ◌≤◌, ◌↔◌, ℕ, List, All, Contains};
ghost use Rattle.std.specs.List.Sorted.{IsPermutation, IsSorted, IsStrictlySortedBy};
ghost use Rattle.cr_model.specs.Problems.{ProblemParts};
ghost use Rattle.cr_model.specs.Callings.{HasSteps};
ghost use Rattle.cr_model.specs.Touches.{Kept};
ghost use Rattle.cr_model.specs.Nodes.{Covers, nodes_above, times_found};
ghost use Rattle.cr_model.specs.Books.{IsBook, book_order, calling_text};
ghost use Rattle.cr_model.specs.Sound.{IsSound};
ghost use Rattle.cr_book.specs.Readings.{IsCallingText, IsFirstWrongByte};

use cr_model::laws::covers_are_counted;

/// Callings of a problem that differ have texts that differ, since its steps differ in letter or mark.
pub fn callings_differ_in_their_texts()
    ensures { (p : ProblemParts) → IsSound p → (calling other : List ℕ) → HasSteps p calling → HasSteps p other
        → calling_text p calling ≡ calling_text p other → calling ≡ other }
{}

/// A text that is no calling's goes wrong first at one place.
pub fn one_place_is_first_wrong()
    ensures { (p : ProblemParts) (text : List ℕ) (place other : ℕ) → IsFirstWrongByte p text place
        → IsFirstWrongByte p text other → place ≡ other }
{}

/// What was found, none of it twice, is in strict order once it is sorted; and where it is what found touches
/// and nodes cover, that is their book.
pub fn what_is_sorted_is_the_book()
    ensures strict { (p : ProblemParts) (callings sorted : List (List ℕ)) → IsPermutation callings sorted
        → IsSorted (book_order p) sorted → ((calling : List ℕ) → times_found callings calling ≤ 1)
        → IsStrictlySortedBy (book_order p) sorted }
    ensures book { (p : ProblemParts) (found nodes callings sorted : List (List ℕ)) → IsPermutation callings sorted
        → IsSorted (book_order p) sorted → ((calling : List ℕ) → times_found callings calling ≤ 1)
        → ((calling : List ℕ) → Contains callings calling ↔ Covers p found nodes calling)
        → IsBook p found nodes sorted }
{}

/// Where kept touches were found, and each kept touch as often as it had been found before or stands below nodes,
/// which is once at most, what was found is in sorted order the book of what had been found and these nodes cover.
pub fn what_was_found_whole_is_the_book()
    ensures { (p : ProblemParts) (before nodes found sorted : List (List ℕ)) → All (Kept p) found
        → ((calling : List ℕ) → Kept p calling →
        times_found found calling ≡ times_found before calling + nodes_above p nodes calling)
        → ((calling : List ℕ) → Kept p calling → times_found before calling + nodes_above p nodes calling ≤ 1)
        → IsPermutation found sorted → IsSorted (book_order p) sorted → IsBook p before nodes sorted }
{
    covers_are_counted();
}
