//! Limits on numbers of leads, of each front of a node.

ghost use Rattle.std.specs.Prelude.{◌≡◌, ◌<◌, ◌≤◌, ◌↔◌, ℕ, length, get_or, map, All, IsTrue};
ghost use Rattle.std.specs.List.{list_any};
ghost use Rattle.cr_query.specs.Gauges.{raised, is_above, is_below, is_out, IsIn, AreFew, AreOf};
ghost use Rattle.cr_query.specs.Tallies.{at_front, gauges_at, leads_at, tallied};
ghost use Rattle.cr_query.specs.Sets.{has_step};

use crate::fronts::Fronts;
use crate::gauges::{Gauge, hit, is_above, is_below, is_in, is_out, raised, steps_out};
use crate::step_sets::joined;

/// Limits on the leads of a part with a mark or a letter, and how many of them each front of a node has.
#[derive(Drop)]
pub struct Tally {
    pub of: u8,
    pub least: u64,
    pub beyond: u64,
    pub numbers: Fronts,
}

impl Tally {
    /// The limits, and how many a front has.
    #[inline(always)]
    pub fn at(&self, front: usize) -> Gauge
        requires { front ≤ 1024 }
        ensures { result ≡ at_front front self.now }
    {
        Gauge {
            of: self.of,
            least: self.least,
            beyond: self.beyond,
            number: self.numbers.at(front),
        }
    }
}

/// Counts one lead more after a front, which has this mark or letter.
#[inline(always)]
pub fn raise(tallies: &mut [Tally], front: usize, of: u8)
    requires room { front < 1024 }
    requires few { AreFew (gauges_at front tallies.old) }
    ensures { tallies.new ≡ map (tallied front of) tallies.old }
{
    for index in 0..tallies.len() {
        count(&mut tallies[index], front, of);
    }
}

// Counts one lead more after a front.
#[inline(always)]
fn count(tally: &mut Tally, front: usize, of: u8)
    requires room { front < 1024 }
    requires few { (at_front front tally.old).number ≤ 1024 }
    ensures { tally.new ≡ tallied front of tally.old }
{
    let more = hit(of, tally.of);
    tally.numbers.count(front, more);
}

/// How many leads of a front the tally at an index counts.
#[inline(always)]
pub fn leads_at(tallies: &[Tally], index: usize, front: usize) -> u32
    requires index { index < length tallies.now }
    requires front { front ≤ 1024 }
    ensures { result ≡ get_or (leads_at front tallies.now) index 0 }
{
    tallies[index].numbers.number(front)
}

/// Whether some number of a front is beyond its limits.
pub fn some_above(tallies: &[Tally], front: usize) -> bool
    requires { front ≤ 1024 }
    ensures { result ≡ list_any is_above (gauges_at front tallies.now) }
{
    for tally in tallies {
        if is_above(tally.at(front)) {
            return true;
        }
    }
    false
}

/// Whether some number of a front, with so many more, is below its least.
pub fn some_below(tallies: &[Tally], front: usize, more: u64) -> bool
    requires front { front ≤ 1024 }
    requires more { more ≤ 65535 }
    requires few { AreFew (gauges_at front tallies.now) }
    ensures { result ≡ list_any (is_below more) (gauges_at front tallies.now) }
{
    for tally in tallies {
        if is_below(tally.at(front), more) {
            return true;
        }
    }
    false
}

/// Whether with one lead more after a front, of this mark or letter, some number is beyond its limits, or with so many
/// more after it below its least.
pub fn some_out(tallies: &[Tally], front: usize, of: u8, more: u64) -> bool
    requires front { front ≤ 1024 }
    requires more { more ≤ 65535 }
    requires few { AreFew (gauges_at front tallies.now) }
    ensures { result ≡ list_any (λ gauge. is_out more (raised of gauge)) (gauges_at front tallies.now) }
{
    for tally in tallies {
        if is_out(raised(tally.at(front), of), more) {
            return true;
        }
    }
    false
}

/// The steps with one lead of which after a front some number is beyond its limits, or with so many more leads after it
/// below its least. The sets are the steps that the tallies count.
#[inline(always)]
pub fn out_steps(tallies: &[Tally], sets: &[u32], front: usize, more: u64) -> u32
    requires sets { length sets.now ≡ length tallies.now }
    requires front { front ≤ 1024 }
    requires more { more ≤ 65535 }
    requires few { AreFew (gauges_at front tallies.now) }
    ensures { (step of : ℕ) → step < 32 → AreOf step of (gauges_at front tallies.now) sets.now
        → has_step result step ≡ list_any (λ gauge. is_out more (raised of gauge)) (gauges_at front tallies.now) }
{
    let mut steps = 0;
    for index in 0..tallies.len() {
        steps = joined(
            steps,
            steps_out(tallies[index].at(front), sets[index], more),
        );
    }
    steps
}

/// Whether each number of a front is within its limits.
pub fn all_in(tallies: &[Tally], front: usize) -> bool
    requires { front ≤ 1024 }
    ensures { IsTrue result ↔ All IsIn (gauges_at front tallies.now) }
{
    for index in 0..tallies.len() {
        if !is_in(tallies[index].at(front)) {
            return false;
        }
    }
    true
}
