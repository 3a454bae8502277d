//! Numbers and their limits.

ghost use Rattle.std.specs.Prelude.{◌≡◌, pos, int_lt};
ghost use Rattle.cr_model.specs.Dead.{above_com, below_com};

use cr_model::Com;

/// Whether a number is above the greatest.
pub fn exceeds(number: u64, greatest: i64) -> bool
    ensures { result ≡ int_lt greatest (pos number) }
{
    greatest < 0 || greatest.unsigned_abs() < number
}

/// Whether a number is below the least.
pub fn falls_short(number: u64, least: i64) -> bool
    ensures { result ≡ int_lt (pos number) least }
{
    least > 0 && number < least.unsigned_abs()
}

/// Whether a number of changes of method is above the limits, if there are some.
pub fn exceeds_com(limits: Option<Com>, number: u64) -> bool
    ensures { result ≡ above_com limits number }
{
    match limits {
        Some(limits) => exceeds(number, limits.max),
        None => false,
    }
}

/// Whether a number of changes of method is below the limits, if there are some.
pub fn falls_short_of_com(limits: Option<Com>, number: u64) -> bool
    ensures { result ≡ below_com limits number }
{
    match limits {
        Some(limits) => falls_short(number, limits.min),
        None => false,
    }
}
