//! A law of the last block of a text. It is the contract of a function that does nothing.

ghost use Rattle.std.specs.Prelude.{◌≡◌, ℕ, List, Result};
ghost use Rattle.cr_trail.specs.Lasts.{IsLast};
ghost use Rattle.cr_trail.specs.declared.last.TrailFault.{TrailFault};

use cr_store::block_laws::each_place_has_one_answer;

/// Each text has one last whole body, or one reason why it has none.
pub fn each_text_has_one_last_block()
    ensures { (text : List ℕ) (one other : Result (ℕ × ℕ) TrailFault) → IsLast text one → IsLast text other → one ≡ other }
{
    each_place_has_one_answer();
}
