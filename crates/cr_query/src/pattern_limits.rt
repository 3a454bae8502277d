//! Limits on numbers of rows, of each front of a node.

ghost use Rattle.std.specs.Prelude.{◌≡◌, ◌<◌, ◌≤◌, ◌||◌, length, get_or, map, All};
ghost use Rattle.std.specs.List.{list_any};
ghost use Rattle.cr_query.specs.Gauges.{has_more_rows, has_fewer_rows, HasFewRows};
ghost use Rattle.cr_query.specs.Tallies.{fitting_at, fittings_at, rows_at, rows_on, lead_on, all_on};

use crate::fronts::Fronts;
use crate::limits::{exceeds, falls_short};
use crate::shape::Shape;
use cr_row::Row;

/// The shape of a pattern, its limits, and how many rows of each front of a node fit.
#[derive(Drop)]
pub struct Fitting {
    pub shape: Shape,
    pub min: i64,
    pub max: i64,
    pub numbers: Fronts,
}

/// Counts the rows of one lead more after a front, which is rung from the head.
pub fn raise_rows(fittings: &mut [Fitting], front: usize, head: &Row, lead: &[Row])
    requires room { front < 1024 }
    requires shapes { All (λ fitting. fitting.shape.stage ≡ length head.now) fittings.old }
    requires lead { All (λ row. length row ≡ length head.now) lead.now }
    requires short { length lead.now ≤ 128 }
    requires few { HasFewRows (fittings_at front fittings.old) }
    ensures { fittings.new ≡ map (lead_on front head.now lead.now) fittings.old }
{
    for index in 0..fittings.len() {
        raise_fitting(&mut fittings[index], front, head, lead);
    }
}

/// Counts so many rows more after a front for each pattern.
#[inline(always)]
pub fn raise_counted(fittings: &mut [Fitting], front: usize, rows: &[u8])
    requires room { front < 1024 }
    requires all { length rows.now ≡ length fittings.old }
    requires few { HasFewRows (fittings_at front fittings.old) }
    ensures { fittings.new ≡ all_on front fittings.old rows.now }
{
    for index in 0..fittings.len() {
        raise_by(&mut fittings[index], front, rows[index]);
    }
}

/// How many rows of a front fit the pattern at an index.
#[inline(always)]
pub fn rows_at(fittings: &[Fitting], index: usize, front: usize) -> u32
    requires index { index < length fittings.now }
    requires front { front ≤ 1024 }
    ensures { result ≡ get_or (rows_at front fittings.now) index 0 }
{
    fittings[index].numbers.number(front)
}

/// Whether more rows of a front fit some pattern than it allows.
pub fn some_have_more(fittings: &[Fitting], front: usize) -> bool
    requires { front ≤ 1024 }
    ensures { result ≡ list_any has_more_rows (fittings_at front fittings.now) }
{
    for fitting in fittings {
        if has_more(fitting, front) {
            return true;
        }
    }
    false
}

/// Whether with so many rows more after a front fewer fit some pattern than it asks.
pub fn some_have_fewer(fittings: &[Fitting], front: usize, more: u64) -> bool
    requires front { front ≤ 1024 }
    requires more { more ≤ 12000 }
    requires few { HasFewRows (fittings_at front fittings.now) }
    ensures { result ≡ list_any (has_fewer_rows more) (fittings_at front fittings.now) }
{
    for fitting in fittings {
        if has_fewer(fitting, front, more) {
            return true;
        }
    }
    false
}

/// Whether more rows of a front fit some pattern than it allows, or with so many rows more fewer than it asks.
#[inline(always)]
pub fn some_are_out(fittings: &[Fitting], front: usize, more: u64) -> bool
    requires front { front ≤ 1024 }
    requires more { more ≤ 12000 }
    requires few { HasFewRows (fittings_at front fittings.now) }
    ensures { result ≡ list_any (λ fitting. has_more_rows fitting || has_fewer_rows more fitting) (fittings_at front fittings.now) }
{
    for fitting in fittings {
        if has_more(fitting, front) | has_fewer(fitting, front, more) {
            return true;
        }
    }
    false
}

// Whether more rows of a front fit the pattern than it allows.
#[inline(always)]
fn has_more(fitting: &Fitting, front: usize) -> bool
    requires { front ≤ 1024 }
    ensures { result ≡ has_more_rows (fitting_at front fitting.now) }
{
    exceeds(fitting.numbers.at(front), fitting.max)
}

// Whether with so many rows more fewer fit the pattern than it asks.
#[inline(always)]
fn has_fewer(fitting: &Fitting, front: usize, more: u64) -> bool
    requires front { front ≤ 1024 }
    requires more { more ≤ 12000 }
    requires few { (fitting_at front fitting.now).number ≤ 1048576 }
    ensures { result ≡ has_fewer_rows more (fitting_at front fitting.now) }
{
    falls_short(fitting.numbers.at(front) + more, fitting.min)
}

fn raise_fitting(fitting: &mut Fitting, front: usize, head: &Row, lead: &[Row])
    requires room { front < 1024 }
    requires shape { fitting.old.shape.stage ≡ length head.now }
    requires lead { All (λ row. length row ≡ length head.now) lead.now }
    requires short { length lead.now ≤ 128 }
    requires few { (fitting_at front fitting.old).number ≤ 1048576 }
    ensures { fitting.new ≡ lead_on front head.now lead.now fitting.old }
{
    let more = fitting.shape.count_lead(head, lead);
    fitting.numbers.count(front, more);
}

#[inline(always)]
fn raise_by(fitting: &mut Fitting, front: usize, rows: u8)
    requires room { front < 1024 }
    requires few { (fitting_at front fitting.old).number ≤ 1048576 }
    ensures { fitting.new ≡ rows_on front rows fitting.old }
{
    fitting.numbers.count(front, u64::from(rows));
}
