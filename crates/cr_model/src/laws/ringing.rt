//! Rows of callings.

ghost use Rattle.std.specs.Prelude.{◌≡◌, ℕ, ◌+◌, List, ◌++◌, length, map};
ghost use Rattle.cr_row.specs.Rows.{Places, rounds, product};
ghost use Rattle.cr_model.specs.Problems.{ProblemParts};
ghost use Rattle.cr_model.specs.Callings.{changes_of_all, rows_from, last_of, rows_of, length_of, head_of};

use cr_row::{
    change_after_product, change_of_a_row, inverse_on_one_side, product_associates,
    rounds_is_neutral,
};

/// A calling that goes on rings the further changes from the head that it had come to.
pub fn ringing_on()
    ensures rows { (p : ProblemParts) (calling more : List ℕ)
        → rows_of p (calling ++ more) ≡ rows_of p calling ++ rows_from (head_of p calling) (changes_of_all p more) }
    ensures lengths { (p : ProblemParts) (calling more : List ℕ)
        → length_of p (calling ++ more) ≡ length_of p calling + length_of p more }
    ensures head { (p : ProblemParts) (calling more : List ℕ)
        → head_of p (calling ++ more) ≡ last_of (head_of p calling) (rows_from (head_of p calling) (changes_of_all p more)) }
{}

/// Changes rung from a row give the products of that row with the rows that they give from rounds.
pub fn a_lead_rung_from_a_row()
    ensures { (stage : ℕ) (row : List ℕ) (changes : List Places) → length row ≡ stage
        → rows_from row changes ≡ map (product row) (rows_from (rounds stage) changes) }
{
    change_after_product();
    rounds_is_neutral();
}

/// Of two callings joined, the second one's rows and its head are multiplied by the first one's head.
pub fn joined_callings_multiply()
    ensures rows { (p : ProblemParts) (calling more : List ℕ)
        → rows_of p (calling ++ more) ≡ rows_of p calling ++ map (product (head_of p calling)) (rows_of p more) }
    ensures head { (p : ProblemParts) (calling more : List ℕ)
        → head_of p (calling ++ more) ≡ product (head_of p calling) (head_of p more) }
{
    change_after_product();
    change_of_a_row();
    inverse_on_one_side();
    product_associates();
    rounds_is_neutral();
}
