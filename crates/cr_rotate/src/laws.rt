//! Laws of rotations. Each is the contract of a function that does nothing.

ghost use Rattle.std.specs.Prelude.{◌≡◌, ℕ, ◌%◌, ◌<◌, ◌↔◌, List, length};
ghost use Rattle.cr_model.specs.Queries.{repeated};
ghost use Rattle.cr_model.specs.LeastRotations.{TurnsBack, IsLeastRotation, IsPeriod};

/// A word is the least of its rotations exactly where it does not turn back and its length is a
/// multiple of its period.
pub fn least_rotations_are_whole_periods()
    ensures { (word : List ℕ) (period : ℕ) → IsPeriod word period
        → IsLeastRotation word ↔ ((TurnsBack word → ⊥) × (length word % period ≡ 0)) }
{}

/// Equal words one after another are the least of their rotations exactly where the word is.
pub fn repeated_words_are_least_where_the_word_is()
    ensures { (number : ℕ) (word : List ℕ) → 0 < number
        → IsLeastRotation (repeated number word) ↔ IsLeastRotation word }
{}
