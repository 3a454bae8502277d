//! Whether a calling or a rotation of it meets the patterns of a problem, by numbers.

ghost use Rattle.std.specs.Prelude.{◌≡◌, ◌+◌, ◌*◌, ◌<◌, ◌≤◌, ◌↔◌, ℕ, List, [], ◌++◌, length, get_or, All, IsTrue};
ghost use Rattle.std.specs.Cmp.Lexicographic.{slice_cmp};
ghost use Rattle.std.specs.Ordering.{nat_cmp};
ghost use Rattle.cr_model.specs.Callings.{rows_of, HasSteps};
ghost use Rattle.cr_model.specs.Decided.{rotated};
ghost use Rattle.cr_model.specs.Queries.{rows_fitting, IsWithin};
ghost use Rattle.cr_model.specs.Touches.{IsLess};
ghost use Rattle.cr_query.specs.Meeting.{MeetsByRows};
ghost use Rattle.cr_path.specs.Best.{IsBest, HasNoneBetter, IsWay};
ghost use Rattle.cr_path.specs.Numbers.{all_fitting, StartsHead, IsNumbered};
ghost use Rattle.cr_model.specs.Limits.{most_leads};

use crate::numbers::rung_patterns::Fitting;
use crate::numbers::table::NumberTable;
use cr_model::{Pattern, Problem, Query};
use std::cmp::Ordering;

/// Where the records of the head after some leads start, and how many of their rows fit a pattern.
#[derive(Clone, Copy)]
pub struct Way {
    pub base: u32,
    pub number: u64,
}

/// Whether a calling meets each pattern, and no rotation that is less does.
pub fn is_best(problem: &Problem, numbers: &NumberTable, calling: &[u8]) -> bool
    requires numbered { IsNumbered problem.now numbers.now }
    requires steps { HasSteps problem.now calling.now }
    requires few { length calling.now ≤ most_leads }
    ensures { IsTrue result ↔ IsBest problem.now calling.now }
{
    meets_patterns(problem, numbers, calling, 0) && none_is_better(problem, numbers, calling)
}

// Whether no rotation of a calling is less and meets each pattern.
fn none_is_better(problem: &Problem, numbers: &NumberTable, calling: &[u8]) -> bool
    requires numbered { IsNumbered problem.now numbers.now }
    requires steps { HasSteps problem.now calling.now }
    requires few { length calling.now ≤ most_leads }
    ensures { IsTrue result ↔ HasNoneBetter problem.now calling.now }
{
    for by in 1..calling.len() {
        if is_better(problem, numbers, calling, by) {
            return false;
        }
    }
    true
}

// Whether the rotation that starts after so many leads is less and meets each pattern.
fn is_better(problem: &Problem, numbers: &NumberTable, calling: &[u8], by: usize) -> bool
    requires numbered { IsNumbered problem.now numbers.now }
    requires steps { HasSteps problem.now calling.now }
    requires few { length calling.now ≤ most_leads }
    requires within { by ≤ length calling.now }
    ensures { IsTrue result ↔ (IsLess (rotated by calling.now) calling.now × MeetsByRows problem.now (rows_of problem.now (rotated by calling.now))) }
{
    is_turned_less(calling, by) && meets_patterns(problem, numbers, calling, by)
}

// Whether the rotation that starts after so many leads is less, step by step.
fn is_turned_less(calling: &[u8], by: usize) -> bool
    requires { by ≤ length calling.now }
    ensures { IsTrue result ↔ IsLess (rotated by calling.now) calling.now }
{
    let rest = calling.len() - by;
    match order(&calling[by..], &calling[..rest]) {
        Ordering::Less => true,
        Ordering::Equal => is_less(&calling[..by], &calling[rest..]),
        Ordering::Greater => false,
    }
}

// How some steps stand to others, step by step.
fn order(steps: &[u8], others: &[u8]) -> Ordering
    ensures { result ≡ slice_cmp nat_cmp steps.now others.now }
{
    steps.cmp(others)
}

// Whether some steps are less, step by step.
fn is_less(steps: &[u8], others: &[u8]) -> bool
    ensures { IsTrue result ↔ IsLess steps.now others.now }
{
    match steps.cmp(others) {
        Ordering::Less => true,
        Ordering::Equal | Ordering::Greater => false,
    }
}

// Whether the rotation that starts after so many leads meets each pattern.
fn meets_patterns(problem: &Problem, numbers: &NumberTable, calling: &[u8], by: usize) -> bool
    requires numbered { IsNumbered problem.now numbers.now }
    requires steps { HasSteps problem.now calling.now }
    requires few { length calling.now ≤ most_leads }
    requires within { by ≤ length calling.now }
    ensures { IsTrue result ↔ MeetsByRows problem.now (rows_of problem.now (rotated by calling.now)) }
{
    let patterns = patterns_of(problem.query());
    for index in 0..patterns.len() {
        let fitting = numbers.fitting(index);
        if !meets_pattern(problem, numbers, &patterns[index], fitting, calling, by) {
            return false;
        }
    }
    true
}

// Whether it meets one pattern.
fn meets_pattern(
    problem: &Problem,
    numbers: &NumberTable,
    pattern: &Pattern,
    fitting: &Fitting,
    calling: &[u8],
    by: usize,
) -> bool
    requires numbered { IsNumbered problem.now numbers.now }
    requires steps { HasSteps problem.now calling.now }
    requires few { length calling.now ≤ most_leads }
    requires within { by ≤ length calling.now }
    requires fitting { fitting.now ≡ all_fitting problem.now numbers.now.heads pattern.now }
    ensures { IsTrue result ↔ IsWithin pattern.now.min pattern.now.max (rows_fitting pattern.now.cells (rows_of problem.now (rotated by calling.now))) }
{
    is_met(
        pattern,
        count_turned(problem, numbers, pattern, fitting, calling, by),
    )
}

// Whether so many rows are what a pattern asks.
fn is_met(pattern: &Pattern, number: u64) -> bool
    requires { number ≤ 1000000 }
    ensures { IsTrue result ↔ IsWithin pattern.now.min pattern.now.max number }
{
    let number = number as i64;
    pattern.min <= number && number <= pattern.max
}

// How many rows of the rotation that starts after so many leads fit a pattern.
fn count_turned(
    problem: &Problem,
    numbers: &NumberTable,
    pattern: &Pattern,
    fitting: &Fitting,
    calling: &[u8],
    by: usize,
) -> u64
    requires numbered { IsNumbered problem.now numbers.now }
    requires steps { HasSteps problem.now calling.now }
    requires few { length calling.now ≤ most_leads }
    requires within { by ≤ length calling.now }
    requires fitting { fitting.now ≡ all_fitting problem.now numbers.now.heads pattern.now }
    ensures is { result ≡ rows_fitting pattern.now.cells (rows_of problem.now (rotated by calling.now)) }
    ensures few { result ≤ 1000000 }
{
    let start = Way { base: 0, number: 0 };
    let half = ring_on(problem, numbers, pattern, fitting, start, &calling[by..]);
    let whole = ring_on(problem, numbers, pattern, fitting, half, &calling[..by]);
    whole.number
}

// Goes on by some steps.
fn ring_on(
    problem: &Problem,
    numbers: &NumberTable,
    pattern: &Pattern,
    fitting: &Fitting,
    from: Way,
    steps: &[u8],
) -> Way
    requires numbered { IsNumbered problem.now numbers.now }
    requires fitting { fitting.now ≡ all_fitting problem.now numbers.now.heads pattern.now }
    requires steps { HasSteps problem.now steps.now }
    requires few { length steps.now ≤ most_leads }
    requires base { StartsHead numbers.now from.base }
    requires number { from.number ≤ 300000 }
    ensures base { StartsHead numbers.now result.base }
    ensures number { result.number ≤ from.number + 255 * length steps.now }
    ensures way { (word : List ℕ) → IsWay problem.now numbers.now pattern.now.cells word from
        → IsWay problem.now numbers.now pattern.now.cells (word ++ steps.now) result }
{
    let mut way = from;
    for step in steps {
        let place = numbers.place(way.base, *step);
        way = Way {
            base: numbers.lead_at(place).next,
            number: way.number + fitting.at(place),
        };
    }
    way
}

// The patterns of a query.
fn patterns_of(query: &Query) -> &[Pattern]
    ensures { result.now ≡ query.now.patterns }
{
    query.patterns.as_slice()
}
