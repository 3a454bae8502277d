//! Laws of place notation, about its definitions alone. The calls do nothing: their contracts are proved.

ghost use Rattle.std.specs.Prelude.{◌≡◌, ◌⊎◌, ℕ, ◌≤◌, List, length, All};
ghost use Rattle.cr_row.specs.Rows.{Places, IsChange};
ghost use Rattle.cr_model.specs.Limits.{most_lead_changes};
ghost use Rattle.cr_model.specs.Notation.{Spells};
ghost use Rattle.cr_model.specs.NotationTexts.{canonical_text};
ghost use Rattle.cr_model.specs.NotationFaults.{FirstFault};
ghost use Rattle.cr_model.specs.declared.notation.NotationFault.{NotationFault};

/// Every text spells changes, or has a first fault.
pub fn a_text_is_taken_or_refused()
    ensures { (n : ℕ) (text : List ℕ) → ((changes : List Places) × Spells n text changes)
        ⊎ ((fault : NotationFault) × FirstFault n text fault) }
{}

/// No text does both.
pub fn no_text_is_taken_and_refused()
    ensures { (n : ℕ) (text : List ℕ) (changes : List Places) (fault : NotationFault) →
        Spells n text changes → FirstFault n text fault → ⊥ }
{}

/// A text spells one list of changes at most.
pub fn a_text_spells_one_list()
    ensures { (n : ℕ) (text : List ℕ) (one other : List Places) → Spells n text one → Spells n text other → one ≡ other }
{}

/// A text has one first fault at most.
pub fn a_text_has_one_first_fault()
    ensures { (n : ℕ) (text : List ℕ) (one other : NotationFault) →
        FirstFault n text one → FirstFault n text other → one ≡ other }
{}

/// What a text spells are changes of the stage: the places that are named and implied ascend, and
/// each stretch of places not made has an even length.
pub fn spelled_changes_are_changes()
    ensures { (n : ℕ) (text : List ℕ) (changes : List Places) → Spells n text changes →
        All (λ change. (change.stage ≡ n) × IsChange change) changes }
{}

/// The canonical text of 1 to 128 changes of one stage spells them.
pub fn a_canonical_text_spells_its_changes()
    ensures { (n : ℕ) (changes : List Places) → n ≤ 16 → 1 ≤ length changes → length changes ≤ most_lead_changes →
        All (λ change. change.stage ≡ n) changes → All IsChange changes → Spells n (canonical_text changes) changes }
{}
