//! What a log proves.

ghost use Rattle.std.specs.Prelude.{◌≡◌, ◌≢◌, List, ℕ, [], ◌∷◌};
ghost use Rattle.cr_model.specs.Problems.{ProblemParts};
ghost use Rattle.cr_model.specs.Sound.{IsSound};
ghost use Rattle.cr_model.specs.Books.{IsBook};
ghost use Rattle.cr_audit.specs.Logs.{LineParts, Proves};
ghost use Rattle.cr_audit.specs.Audits.{Begins, IsAuditFault, IsAudited};
ghost use Rattle.cr_audit.specs.declared.fault.AuditFault.{AuditFault};
ghost use Rattle.cr_audit.specs.declared.fault.AuditFault.TheVariants as fault;

use cr_model::laws::{
    a_test_decides_what_is_true, a_touch_is_its_part_repeated, book_is_unique,
    fresh_problem_covers_its_kept, nothing_is_kept_below_a_long_node,
    nothing_is_kept_below_a_node_that_comes_round, nothing_is_kept_below_a_node_that_turns_back,
    nothing_is_kept_below_a_node_with_a_row_twice, nothing_is_kept_below_a_node_with_too_few,
    nothing_is_kept_below_a_node_with_too_many, prefixes,
};

/// What a log proves is the problem's book: of the root, with nothing found.
pub fn what_a_log_proves_is_the_book()
    ensures { (p : ProblemParts) (log : List ℕ) (touches : List (List ℕ)) → IsSound p → Proves p log touches
        → IsBook p [] ([] ∷ []) touches }
{
    a_test_decides_what_is_true();
    a_touch_is_its_part_repeated();
    fresh_problem_covers_its_kept();
    nothing_is_kept_below_a_long_node();
    nothing_is_kept_below_a_node_that_comes_round();
    nothing_is_kept_below_a_node_that_turns_back();
    nothing_is_kept_below_a_node_with_a_row_twice();
    nothing_is_kept_below_a_node_with_too_few();
    nothing_is_kept_below_a_node_with_too_many();
    prefixes();
}

/// A log proves one list alone, and so does every other log of the problem.
pub fn all_logs_prove_one_list()
    ensures { (p : ProblemParts) (log other : List ℕ) (touches others : List (List ℕ)) → IsSound p → Proves p log touches
        → Proves p other others → touches ≡ others }
{
    book_is_unique();
    what_a_log_proves_is_the_book();
}

/// A text begins with one line of a problem alone.
pub fn a_text_begins_with_one_line()
    ensures { (p : ProblemParts) (text : List ℕ) (line other : LineParts) (rest more : List ℕ) → IsSound p → Begins p text line rest
        → Begins p text other more → (line ≡ other) × (rest ≡ more) }
{}

/// A log and a book have one answer: a number of touches, or one fault, want of memory apart, and never both.
pub fn an_audit_has_one_answer()
    ensures number { (p : ProblemParts) (book log : List ℕ) (m n : ℕ) → IsSound p → IsAudited p book log m → IsAudited p book log n → m ≡ n }
    ensures fault { (p : ProblemParts) (book log : List ℕ) (why other : AuditFault) → IsSound p → why ≢ fault.NoMemory → other ≢ fault.NoMemory
        → IsAuditFault p book log why → IsAuditFault p book log other → why ≡ other }
    ensures never_both { (p : ProblemParts) (book log : List ℕ) (number : ℕ) (why : AuditFault) → IsSound p → IsAudited p book log number
        → why ≢ fault.NoMemory → IsAuditFault p book log why → ⊥ }
{
    all_logs_prove_one_list();
}
