//! The check of the methods' letters.

ghost use Rattle.std.specs.Prelude.{◌≡◌, ◌≢◌, ℕ, ◌<◌, ◌↔◌, length, get_or, IsTrue, MatchOption};
ghost use Rattle.cr_model.specs.Right.{LetterIsRight, LettersAreRight};
ghost use Rattle.cr_model.specs.Faults.{LettersWrongAt};
ghost use Rattle.cr_model.specs.Checks.{TellsFirst};

use crate::limits::MOST_METHODS;

// Whether no earlier letter is the one at the index.
fn is_new(letters: &[u8], index: usize) -> bool
    requires { index < length letters.now }
    ensures { IsTrue result ↔ ((j : ℕ) → j < index → get_or letters.now j 0 ≢ get_or letters.now index 0) }
{
    for earlier in 0..index {
        if letters[earlier] == letters[index] {
            return false;
        }
    }
    true
}

fn letter_is_right(letters: &[u8], index: usize) -> bool
    requires { index < length letters.now }
    ensures { IsTrue result ↔ LetterIsRight letters.now index }
{
    index < MOST_METHODS
        && b'A' <= letters[index]
        && letters[index] <= b'Z'
        && is_new(letters, index)
}

/// The first letter that is wrong, or 0 where there are none.
pub fn wrong_letter(letters: &[u8]) -> Option<u64>
    ensures { MatchOption result (LettersAreRight letters.now) (λ index. LettersWrongAt letters.now index) }
{
    if letters.is_empty() {
        return Some(0);
    }
    first_wrong_letter(letters)
}

/// The first letter that is wrong: one of more than eight, none from A to Z, or one that stands before.
pub fn first_wrong_letter(letters: &[u8]) -> Option<u64>
    ensures { TellsFirst (LetterIsRight letters.now) (length letters.now) result }
{
    for index in 0..letters.len() {
        if !letter_is_right(letters, index) {
            return Some(index as u64);
        }
    }
    None
}
