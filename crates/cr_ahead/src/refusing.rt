//! Limits that refuse all that a touch can come to.

ghost use Rattle.std.specs.Prelude.{◌≡◌, ◌+◌, ◌*◌, ◌≤◌, pos, int_lt};
ghost use Rattle.cr_ahead.specs.LeadMoves.{of_touches, refuses};

use crate::gains::Gains;

/// Whether a touch of so many parts cannot meet the limits, where each part has so much so far and gains these.
#[inline(always)]
pub fn refuses(min: i64, max: i64, parts: u64, so_far: u32, gains: Option<Gains>) -> bool
    requires { parts ≤ 64 }
    ensures { result ≡ refuses min max (of_touches parts so_far gains) }
{
    match gains {
        Some(gains) => {
            exceeds(in_parts(parts, so_far, gains.least), max)
                || falls_short(in_parts(parts, so_far, gains.greatest), min)
        }
        None => true,
    }
}

// What a touch has by so much in each part so far and so much more.
#[inline(always)]
fn in_parts(parts: u64, so_far: u32, more: u32) -> u64
    requires { parts ≤ 64 }
    ensures { result ≡ parts * (so_far + more) }
{
    parts * (u64::from(so_far) + u64::from(more))
}

// Whether a number is above the greatest.
#[inline(always)]
fn exceeds(number: u64, greatest: i64) -> bool
    ensures { result ≡ int_lt greatest (pos number) }
{
    greatest < 0 || greatest.unsigned_abs() < number
}

// Whether a number is below the least.
#[inline(always)]
fn falls_short(number: u64, least: i64) -> bool
    ensures { result ≡ int_lt (pos number) least }
{
    least > 0 && number < least.unsigned_abs()
}
