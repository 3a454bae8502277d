//! Laws of falseness. Each function does nothing: its contract is the law.

ghost use Rattle.std.specs.Prelude.{◌≡◌, ◌↔◌, ℕ, ◌<◌, List, [], length, get_or, map};
ghost use Rattle.cr_row.specs.Rows.{IsRow, product, IsInverse};
ghost use Rattle.cr_model.specs.Problems.{ProblemParts};
ghost use Rattle.cr_model.specs.Callings.{changes_of, rows_from, head_of, HasSteps};
ghost use Rattle.std.specs.List.{sum_by};
ghost use Rattle.cr_leads.specs.Tables.{TableParts, lead_table, lead_rows};
ghost use Rattle.cr_false.specs.Sets.{FalseParts, IsFalse, IsFalseTable, IsWholeNumber, ShareARow};
ghost use Rattle.cr_false.specs.Telling.{MayLieBetween, AreTelling};

use cr_model::laws::a_lead_rung_from_a_row;
use cr_row::{
    change_of_a_row, product_associates, product_of_rows, rounds_is_neutral, rows_cancel,
};

/// A row times another is a third exactly where it is the third times the inverse of the other.
pub fn a_false_row_is_a_quotient()
    ensures { (g r s inverse : List ℕ) → IsRow s → length g ≡ length s → length r ≡ length s → IsInverse s inverse
        → (product g s ≡ r) ↔ (g ≡ product r inverse) }
{
    product_associates();
    product_of_rows();
    rounds_is_neutral();
    rows_cancel();
}

/// With the inverse of one head times another between them, two leads clash exactly where the one rung
/// from the first head and the other rung from the second have a row in common.
pub fn a_clash_is_a_shared_row()
    ensures { (p : ProblemParts) (a b : ℕ) (h k inverse : List ℕ) → a < length p.leads → b < length p.leads
        → IsRow h → IsRow k → length h ≡ p.stage → length k ≡ p.stage → IsInverse h inverse
        → IsFalse (lead_rows (lead_table p) a) (lead_rows (lead_table p) b) (product inverse k)
        ↔ ShareARow (rows_from h (changes_of p a)) (rows_from k (changes_of p b)) }
{
    a_lead_rung_from_a_row();
    change_of_a_row();
    product_associates();
    product_of_rows();
    rounds_is_neutral();
}

/// The sets of some leads hold one number of rows in all: that of every falseness table of theirs.
pub fn the_rows_have_one_number()
    ensures one { (table : TableParts) (n m : ℕ) → IsWholeNumber table n → IsWholeNumber table m → n ≡ m }
    ensures held { (table : TableParts) (parts : FalseParts) → IsFalseTable table parts
        → IsWholeNumber table (sum_by length parts.sets) }
{}

/// The row between the heads of two callings may lie between heads: it has what all lead heads have in common.
pub fn rows_between_heads_may_lie_there()
    ensures { (p : ProblemParts) (calling other inverse : List ℕ) → HasSteps p calling → HasSteps p other → IsInverse (head_of p calling) inverse
        → MayLieBetween (lead_table p) (product inverse (head_of p other)) }
{}

/// Two leads that are rung from the heads of callings have a row in common exactly where they have a telling row in
/// common.
pub fn telling_rows_tell_leads_apart()
    ensures { (p : ProblemParts) (told : List (List (List ℕ))) (a b : ℕ) (calling other : List ℕ) → AreTelling (lead_table p) told
        → a < length p.leads → b < length p.leads → HasSteps p calling → HasSteps p other
        → ShareARow (rows_from (head_of p calling) (changes_of p a)) (rows_from (head_of p other) (changes_of p b))
        ↔ ShareARow (map (product (head_of p calling)) (get_or told a [])) (map (product (head_of p other)) (get_or told b [])) }
{}
