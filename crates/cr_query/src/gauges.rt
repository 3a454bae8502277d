//! Limits on numbers of leads.

ghost use Rattle.std.specs.Prelude.{◌≡◌, ◌+◌, ◌<◌, ◌≤◌, ◌↔◌, ℕ, cond, nat_eq, IsTrue};
ghost use Rattle.cr_query.specs.Gauges.{at_number, raised, is_above, is_below, is_out, IsIn};
ghost use Rattle.cr_query.specs.Sets.{has_step};

use crate::step_sets::steps_where;

/// Limits on the leads of a part with a mark or a letter, and how many there are: no fewer than the least, and
/// fewer than what is beyond them.
#[derive(Clone, Copy)]
pub struct Gauge {
    pub of: u8,
    pub least: u64,
    pub beyond: u64,
    pub number: u64,
}

/// The steps with one lead of which the number is beyond its limits, or with so many more leads after it below its
/// least. The set is the steps that the gauge counts. No step is asked by itself, and nothing is jumped over.
#[inline(always)]
pub fn steps_out(gauge: Gauge, set: u32, more: u64) -> u32
    requires more { more ≤ 65535 }
    requires few { gauge.number ≤ 1024 }
    ensures { (step : ℕ) → step < 32
        → has_step result step ≡ is_out more (at_number (gauge.number + cond (has_step set step) 1 0) gauge) }
{
    steps_where(set, is_out(one_more(gauge), more), is_out(gauge, more))
}

// The gauge after one lead more that it counts.
#[inline(always)]
fn one_more(gauge: Gauge) -> Gauge
    requires { gauge.number ≤ 1024 }
    ensures { result ≡ at_number (gauge.number + 1) gauge }
{
    Gauge {
        of: gauge.of,
        least: gauge.least,
        beyond: gauge.beyond,
        number: gauge.number + 1,
    }
}

/// The gauge after one lead more with this mark or letter.
pub fn raised(gauge: Gauge, of: u8) -> Gauge
    requires { gauge.number ≤ 1024 }
    ensures is { result ≡ raised of gauge }
    ensures few { result.number ≤ 1025 }
{
    Gauge {
        of: gauge.of,
        least: gauge.least,
        beyond: gauge.beyond,
        number: gauge.number + hit(of, gauge.of),
    }
}

/// One where the mark or the letter is the counted one, and else none.
#[inline(always)]
pub fn hit(of: u8, counted: u8) -> u64
    ensures is { result ≡ cond (nat_eq of counted) 1 0 }
    ensures few { result ≤ 1 }
{
    if of == counted { 1 } else { 0 }
}

/// Whether the number is within the limits.
pub fn is_in(gauge: Gauge) -> bool
    ensures { IsTrue result ↔ IsIn gauge }
{
    gauge.least <= gauge.number && gauge.number < gauge.beyond
}

/// Whether the number is beyond the limits.
#[inline(always)]
pub fn is_above(gauge: Gauge) -> bool
    ensures { result ≡ is_above gauge }
{
    gauge.beyond <= gauge.number
}

/// Whether the number, with so many more, is below the least.
#[inline(always)]
pub fn is_below(gauge: Gauge, more: u64) -> bool
    requires more { more ≤ 65535 }
    requires few { gauge.number ≤ 1025 }
    ensures { result ≡ is_below more gauge }
{
    gauge.number + more < gauge.least
}

/// Whether one of both.
#[inline(always)]
pub fn is_out(gauge: Gauge, more: u64) -> bool
    requires more { more ≤ 65535 }
    requires few { gauge.number ≤ 1025 }
    ensures { result ≡ is_out more gauge }
{
    is_above(gauge) | is_below(gauge, more)
}
