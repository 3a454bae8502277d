//! Laws of audits. Each is the contract of a function that does nothing.

ghost use Rattle.std.specs.Prelude.{◌≡◌, ℕ, List, [], length, codes};
ghost use Rattle.cr_audit.specs.declared.fault.AuditFault.{AuditFault};
ghost use Rattle.cr_model.specs.declared.file_fault.ProblemFault.{ProblemFault};
ghost use Rattle.cr_top.specs.Audited.{IsAuditOf, FirstAuditFault, HasNoProblem, NotThree};
ghost use Rattle.cr_top.specs.Logged.{IsLogOf};

use cr_audit::laws::{all_logs_prove_one_list, an_audit_has_one_answer};
use cr_log::laws::a_problem_has_one_log;
use cr_read::bytes_have_one_answer;
use cr_store::block_laws::each_place_has_one_answer;

/// Each text has one answer of an audit at most: a number of touches, a fault, or a first block that is no problem for one
/// reason.
pub fn texts_have_one_audit()
    ensures one_number { (text : List ℕ) (number other : ℕ) → IsAuditOf text number → IsAuditOf text other → number ≡ other }
    ensures one_fault { (text : List ℕ) (why other : AuditFault) → FirstAuditFault text why → FirstAuditFault text other → why ≡ other }
    ensures one_problem { (text : List ℕ) (why other : ProblemFault) → HasNoProblem text why → HasNoProblem text other → why ≡ other }
    ensures no_fault { (text : List ℕ) (number : ℕ) (why : AuditFault) → IsAuditOf text number → FirstAuditFault text why → ⊥ }
    ensures a_problem { (text : List ℕ) (number : ℕ) (why : ProblemFault) → IsAuditOf text number → HasNoProblem text why → ⊥ }
    ensures never_both { (text : List ℕ) (why : AuditFault) (other : ProblemFault) → FirstAuditFault text why → HasNoProblem text other → ⊥ }
{
    an_audit_has_one_answer();
    bytes_have_one_answer();
    each_place_has_one_answer();
}

/// One text is written as the log of an input.
pub fn an_input_has_one_log()
    ensures { (input text other : List ℕ) → IsLogOf input text → IsLogOf input other → text ≡ other }
{
    a_problem_has_one_log();
    all_logs_prove_one_list();
    bytes_have_one_answer();
}

/// Whatever a log of a whole search is written as, an audit of it says yes, with the number of the book's touches.
pub fn a_log_is_audited_with_yes()
    ensures { (input text : List ℕ) → (is : IsLogOf input text) → IsAuditOf text (length is.book) }
{}

/// Texts that are not three blocks, and the place of each that tells it: over at once, over behind two blocks, over within
/// the second and within a fourth, and a whole fourth block.
pub fn texts_that_are_not_three_blocks()
    ensures empty { NotThree [] 0 }
    ensures two { NotThree (codes "block 1\nxblock 1\ny") 18 }
    ensures torn { NotThree (codes "block 1\nxblock 2\ny") 18 }
    ensures more { NotThree (codes "block 1\nxblock 1\nyblock 1\nzbl") 29 }
    ensures fourth { NotThree (codes "block 1\nxblock 1\nyblock 1\nzblock 1\nw") 27 }
{}
