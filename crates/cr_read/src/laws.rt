//! Laws of problem files, about their definitions alone. The calls do nothing of use: their contracts are proved.

ghost use Rattle.std.specs.Prelude.{◌≡◌, ◌⊎◌, ◌↔◌, ◌≤◌, ℕ, List, length, Contains};
ghost use Rattle.cr_model.specs.Problems.{LeadParts, ProblemParts};
ghost use Rattle.cr_model.specs.Right.{LeadsAreRight};
ghost use Rattle.cr_model.specs.Files.{FileParts};
ghost use Rattle.cr_model.specs.ProblemFiles.{Spellings, CallsPass, letters_of, leads_of, ProblemFile, FirstProblemFault};
ghost use Rattle.cr_read.specs.Steps.{IsLeadOf};
ghost use Rattle.cr_model.specs.declared.file_fault.ProblemFault.{ProblemFault};

mod examples;

use cr_notation::{
    a_text_has_one_first_fault, a_text_is_taken_or_refused, a_text_spells_one_list,
    no_text_is_taken_and_refused,
};
pub use examples::{
    a_file_of_ten_lines, faults_of_keys, faults_of_methods_and_calls, faults_of_queries,
    steps_in_order, what_a_file_leaves_out,
};

/// The leads of a file whose calls are right are in the order of the steps, and they are the leads that there are: no
/// other stands in their list, and none is left out.
pub fn leads_are_in_order_and_whole()
    ensures order { (file : FileParts) (n : ℕ) (spellings : Spellings) → CallsPass file n spellings →
        1 ≤ length file.methods → LeadsAreRight n (length (letters_of file)) (leads_of file spellings) }
    ensures whole { (file : FileParts) (n : ℕ) (spellings : Spellings) → CallsPass file n spellings →
        (lead : LeadParts) → Contains (leads_of file spellings) lead ↔ IsLeadOf file spellings lead }
{}

/// Bytes are the file of one problem at most, they have one first fault at most, and never both.
pub fn bytes_have_one_answer()
    ensures one_problem { (bytes : List ℕ) (one other : ProblemParts) →
        ProblemFile bytes one → ProblemFile bytes other → one ≡ other }
    ensures one_fault { (bytes : List ℕ) (one other : ProblemFault) →
        FirstProblemFault bytes one → FirstProblemFault bytes other → one ≡ other }
    ensures never_both { (bytes : List ℕ) (p : ProblemParts) (why : ProblemFault) →
        ProblemFile bytes p → FirstProblemFault bytes why → ⊥ }
{
    a_text_spells_one_list();
    a_text_has_one_first_fault();
    no_text_is_taken_and_refused();
}

/// All bytes are a problem file, or have a first fault.
pub fn a_file_is_taken_or_refused()
    ensures { (bytes : List ℕ) → ((p : ProblemParts) × ProblemFile bytes p)
        ⊎ ((fault : ProblemFault) × FirstProblemFault bytes fault) }
{
    a_text_is_taken_or_refused();
}
