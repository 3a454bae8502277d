//! Numbers and their limits.

ghost use Rattle.std.specs.Prelude.{◌≡◌, ◌≤◌, ◌≤ℤ◌, pos, int_lt, ◌↔◌, IsTrue};
ghost use Rattle.cr_model.specs.Queries.{IsWithin, MeetsCom};
ghost use Rattle.cr_model.specs.Dead.{above_com, below_com};
ghost use Rattle.cr_query.specs.Gauges.{fewest, too_many};

use cr_model::Com;

/// Whether a number is no less than the least that is allowed.
pub fn is_at_least(least: i64, number: u64) -> bool
    ensures { IsTrue result ↔ (least ≤ℤ pos number) }
{
    least <= 0 || least.unsigned_abs() <= number
}

/// Whether a number is no greater than the greatest that is allowed.
pub fn is_at_most(number: u64, greatest: i64) -> bool
    ensures { IsTrue result ↔ (pos number ≤ℤ greatest) }
{
    greatest >= 0 && number <= greatest.unsigned_abs()
}

/// Whether a number is from the least to the greatest.
pub fn is_within(least: i64, greatest: i64, number: u64) -> bool
    ensures { IsTrue result ↔ IsWithin least greatest number }
{
    is_at_least(least, number) && is_at_most(number, greatest)
}

/// How many leads each of so many equal parts has at least where all together have no fewer than the least.
pub fn fewest(parts: u64, least: i64) -> u64
    requires { 1 ≤ parts }
    ensures { result ≡ fewest parts least }
{
    if least < 0 {
        0
    } else {
        least.unsigned_abs().div_ceil(parts)
    }
}

/// From how many leads on, in each of so many equal parts, all together have more than the greatest.
pub fn too_many(parts: u64, greatest: i64) -> u64
    requires { 1 ≤ parts }
    ensures { result ≡ too_many parts greatest }
{
    if greatest < 0 {
        0
    } else {
        greatest.unsigned_abs() / parts + 1
    }
}

/// Whether a number of changes of method is within the limits, if there are some.
pub fn meets_com(limits: Option<Com>, number: u64) -> bool
    ensures { IsTrue result ↔ MeetsCom limits number }
{
    match limits {
        Some(limits) => is_within(limits.min, limits.max, number),
        None => true,
    }
}

/// Whether a number is above the greatest.
pub fn exceeds(number: u64, greatest: i64) -> bool
    ensures { result ≡ int_lt greatest (pos number) }
{
    !is_at_most(number, greatest)
}

/// Whether a number is below the least.
pub fn falls_short(number: u64, least: i64) -> bool
    ensures { result ≡ int_lt (pos number) least }
{
    !is_at_least(least, number)
}

/// Whether a number of changes of method is above the limits, if there are some.
pub fn is_above_com(limits: Option<Com>, number: u64) -> bool
    ensures { result ≡ above_com limits number }
{
    match limits {
        Some(limits) => exceeds(number, limits.max),
        None => false,
    }
}

/// Whether a number of changes of method is below the limits, if there are some.
pub fn is_below_com(limits: Option<Com>, number: u64) -> bool
    ensures { result ≡ below_com limits number }
{
    match limits {
        Some(limits) => falls_short(number, limits.min),
        None => false,
    }
}
