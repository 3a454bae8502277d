//! A law of trails that are cut off. It is the contract of a function that does nothing.

ghost use Rattle.std.specs.Prelude.{◌≡◌, ℕ, None, List};
ghost use Rattle.cr_store.specs.Chains.{last_text};
ghost use Rattle.cr_trail.specs.Taken.{IsTakenFrom, AreTaken};
ghost use Rattle.cr_top.specs.Texts.{IsBookOf};

use cr_store::laws::an_input_has_its_parts_alone;
use cr_trail::laws::what_is_left_of_a_trail_has_the_book;

/// Whatever is left of the trail of an input, the search that goes on from its last whole checkpoint writes the input's
/// book. So it is where that search writes a trail, which is cut off too, and so on.
pub fn what_is_left_of_a_trail_goes_on_to_the_book()
    ensures one { (input text book : List ℕ) → IsTakenFrom input text → IsBookOf None text book → IsBookOf None input book }
    ensures many { (input : List ℕ) (texts : List (List ℕ)) (book : List ℕ) → AreTaken input texts
        → IsBookOf None (last_text input texts) book → IsBookOf None input book }
{
    what_is_left_of_a_trail_has_the_book();
    an_input_has_its_parts_alone();
}
