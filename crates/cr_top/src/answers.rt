//! The one answer that an input is due.

ghost use Rattle.std.specs.Prelude.{List, ℕ};
ghost use Rattle.cr_top.specs.OneAnswer.{HasOneAnswer};

use cr_model::laws::sizes_are_sums;
use cr_read::bytes_have_one_answer as one_answer_of_a_file;
use cr_store::laws::{an_input_has_its_parts_alone, bytes_have_one_answer};

/// An input has one size, and no fault; what is no input has one fault at most.
pub fn inputs_have_one_answer()
    ensures { (input : List ℕ) → HasOneAnswer input }
{
    one_answer_of_a_file();
    bytes_have_one_answer();
    an_input_has_its_parts_alone();
    sizes_are_sums();
}
