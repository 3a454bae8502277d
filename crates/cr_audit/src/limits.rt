//! Numbers and their limits.

ghost use Rattle.std.specs.Prelude.{◌≡◌, ◌+◌, ◌-◌, ◌*◌, ◌<◌, ◌≤◌, ◌^◌, pos, int_lt, ◌≤ℤ◌, ◌↔◌, IsTrue};
ghost use Rattle.cr_model.specs.Queries.{IsWithin};
ghost use Rattle.cr_model.specs.Dead.{above_com, below_com};

use cr_model::Com;

/// Whether a number is above the greatest.
pub fn exceeds(number: u128, greatest: i64) -> bool
    ensures { result ≡ int_lt greatest (pos number) }
{
    greatest < 0 || u128::from(greatest.unsigned_abs()) < number
}

/// Whether a number is below the least.
pub fn falls_short(number: u128, least: i64) -> bool
    ensures { result ≡ int_lt (pos number) least }
{
    0 < least && number < u128::from(least.unsigned_abs())
}

/// Whether a number is no less than the least.
pub fn reaches(number: u128, least: i64) -> bool
    ensures { IsTrue result ↔ (least ≤ℤ pos number) }
{
    least <= 0 || u128::from(least.unsigned_abs()) <= number
}

// Whether a number is no greater than the greatest.
fn stays_below(number: u128, greatest: i64) -> bool
    ensures { IsTrue result ↔ (pos number ≤ℤ greatest) }
{
    greatest >= 0 && number <= u128::from(greatest.unsigned_abs())
}

/// Whether a number is from the least to the greatest.
pub fn is_within(least: i64, greatest: i64, number: u128) -> bool
    ensures { IsTrue result ↔ IsWithin least greatest number }
{
    reaches(number, least) && stays_below(number, greatest)
}

/// Whether a number of changes of method is above the limits, if there are some.
pub fn is_above_com(limits: Option<Com>, number: u128) -> bool
    ensures { result ≡ above_com limits number }
{
    match limits {
        Some(limits) => exceeds(number, limits.max),
        None => false,
    }
}

/// Whether a number of changes of method is below the limits, if there are some.
pub fn is_below_com(limits: Option<Com>, number: u128) -> bool
    ensures { result ≡ below_com limits number }
{
    match limits {
        Some(limits) => falls_short(number, limits.min),
        None => false,
    }
}

/// So many in each of the parts.
pub fn in_parts(parts: u64, number: u128) -> u128
    requires parts { parts ≤ 64 }
    requires few { number < 2 ^ 66 }
    ensures is { result ≡ parts * number }
    ensures few { result < 2 ^ 72 }
{
    u128::from(parts) * number
}

/// So many in each of the parts, and one at each join of two parts.
pub fn with_joins(parts: u64, number: u128) -> u128
    requires parts { parts ≤ 64 }
    requires some { 1 ≤ parts }
    requires few { number < 2 ^ 66 }
    ensures { result ≡ parts * number + parts - 1 }
{
    in_parts(parts, number) + u128::from(parts) - 1
}
