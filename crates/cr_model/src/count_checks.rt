//! The checks of limits and counts.

ghost use Rattle.std.specs.Prelude.{◌≡◌, ◌≢◌, ℕ, ◌<◌, ◌≤◌, ◌↔◌, ℤ, pos, ◌≤ℤ◌, length, get_or, Contains, IsTrue};
ghost use Rattle.cr_model.specs.Callings.{step_at};
ghost use Rattle.cr_model.specs.Checks.{TellsFirst};
ghost use Rattle.cr_model.specs.Right.{LimitsAreRight, CountIsRight, count_at, MethodCountIsRight, method_count_at, ComIsRight};

use crate::lead::Lead;
use crate::lead_checks::step_at;
use crate::limits::{MOST_CHANGES, MOST_COUNTS};
use crate::query::{Com, Count, MethodCount};

/// Whether `least <= low <= high <= 12,000`.
pub fn limits_are_right(least: i64, low: i64, high: i64) -> bool
    ensures { IsTrue result ↔ LimitsAreRight least low high }
{
    least <= low && low <= high && high <= MOST_CHANGES
}

// Whether some lead has the mark.
fn has_mark(leads: &[Lead], mark: u8) -> bool
    ensures { IsTrue result ↔ ((k : ℕ) × (k < length leads.now) × ((step_at leads.now k).mark ≡ mark)) }
{
    for index in 0..leads.len() {
        if step_at(leads, index).mark == mark {
            return true;
        }
    }
    false
}

// Whether the count at an index is right.
fn count_is_right(leads: &[Lead], index: usize, count: Count) -> bool
    ensures { IsTrue result ↔ CountIsRight leads.now index count }
{
    index < MOST_COUNTS && has_mark(leads, count.mark) && limits_are_right(0, count.min, count.max)
}

/// The first count that is wrong.
pub fn wrong_count(leads: &[Lead], counts: &[Count]) -> Option<u64>
    ensures { TellsFirst (λ i. CountIsRight leads.now i (count_at counts.now i)) (length counts.now) result }
{
    for index in 0..counts.len() {
        if !count_is_right(leads, index, counts[index]) {
            return Some(index as u64);
        }
    }
    None
}

// Whether the method count at an index is right.
fn method_count_is_right(letters: &[u8], index: usize, count: MethodCount) -> bool
    ensures { IsTrue result ↔ MethodCountIsRight letters.now index count }
{
    index < MOST_COUNTS
        && letters.contains(&count.letter)
        && limits_are_right(0, count.min, count.max)
}

/// The first method count that is wrong.
pub fn wrong_method_count(letters: &[u8], counts: &[MethodCount]) -> Option<u64>
    ensures { TellsFirst
        (λ i. MethodCountIsRight letters.now i (method_count_at counts.now i)) (length counts.now) result }
{
    for index in 0..counts.len() {
        if !method_count_is_right(letters, index, counts[index]) {
            return Some(index as u64);
        }
    }
    None
}

/// Whether the limits on changes of method, if there are any, are in order.
pub fn com_is_right(limits: Option<Com>) -> bool
    ensures { IsTrue result ↔ ComIsRight limits }
{
    match limits {
        Some(limits) => limits_are_right(0, limits.min, limits.max),
        None => true,
    }
}
