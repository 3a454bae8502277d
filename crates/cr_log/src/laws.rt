//! Laws of first verdicts. Each is the contract of a function that does nothing.

ghost use Rattle.std.specs.Prelude.{◌≡◌, ℕ, true, List};
ghost use Rattle.cr_model.specs.Problems.{ProblemParts};
ghost use Rattle.cr_audit.specs.declared.verdict.Verdict.{Verdict};
ghost use Rattle.cr_audit.specs.Logs.{LineParts};
ghost use Rattle.cr_log.specs.FirstVerdicts.{IsFirstVerdict, IsFirstLog};
ghost use Rattle.cr_log.specs.Examples.{in_order, each_before};

/// One verdict is the first that holds of a node.
pub fn a_node_has_one_first_verdict()
    ensures { (p : ProblemParts) (node : List ℕ) (why other : Verdict) → IsFirstVerdict p node why → IsFirstVerdict p node other
        → why ≡ other }
{}

/// A problem has one log, each of whose verdicts is the first that holds.
pub fn a_problem_has_one_log()
    ensures { (p : ProblemParts) (lines others : List LineParts) → IsFirstLog p lines → IsFirstLog p others → lines ≡ others }
{}

/// The order in which verdicts are looked at: of two rows that are equal the place of the second decides, and of items
/// first their kind and then their index.
pub fn verdicts_in_their_order()
    ensures { each_before in_order ≡ true }
{}
