//! Items of a query of which a node has too many or too few.

ghost use Rattle.std.specs.Prelude.{◌≡◌, ℕ, ◌+◌, ◌-◌, ◌*◌, ◌/◌, ◌<◌, ◌≤◌, pos, int_lt, cond, List, length, All, Option};
ghost use Rattle.cr_model.specs.Callings.{rows_of, length_of, HasSteps};
ghost use Rattle.cr_model.specs.Queries.{cap, part_cap, leads_marked, leads_lettered, rows_fitting, changes_of_method};
ghost use Rattle.cr_model.specs.Dead.{parts_of, leads_left};
ghost use Rattle.cr_model.specs.Right.{FitsStage};
ghost use Rattle.cr_query.specs.Shapes.{shape_of};
ghost use Rattle.cr_audit.specs.declared.verdict.Item.TheVariants as item;
ghost use Rattle.cr_audit.specs.Verdicts.{has_too_many, has_too_few};
ghost use Rattle.cr_log.specs.FirstVerdicts.{IsLeast, IsFirstItem, is_missed};
ghost use Rattle.cr_log.specs.Logging.{AreShapes, IsAt};

use crate::counting::{changes_of_method, leads_lettered, leads_marked, rows_fitting};
use crate::limits::{exceeds, exceeds_com, falls_short, falls_short_of_com};
use crate::shapes::patterns_of;
use cr_audit::Item;
use cr_model::{Com, Count, MethodCount, Pattern, Problem, Query};
use cr_query::Shape;
use cr_rowset::RowStack;

/// The first item of which a node has too few, or too many, if there is one.
pub fn first_missed(
    problem: &Problem,
    shapes: &[Shape],
    node: &[u8],
    rows: &RowStack,
    few: bool,
) -> Option<Item>
    requires shapes { AreShapes problem.now shapes.now }
    requires at { IsAt problem.now node.now rows.now }
    ensures { IsFirstItem (is_missed problem.now node.now few) result }
{
    if let Some(index) = first_count(problem, node, rows, few) {
        return Some(Item::Count(index));
    }
    if let Some(index) = first_method_count(problem, node, rows, few) {
        return Some(Item::Leads(index));
    }
    if let Some(index) = first_pattern(problem, shapes, node, rows, few) {
        return Some(Item::Rows(index));
    }
    if misses_com(problem, node, rows, few) {
        return Some(Item::Com);
    }
    None
}

// The first count of a mark.
fn first_count(problem: &Problem, node: &[u8], rows: &RowStack, few: bool) -> Option<u64>
    requires at { IsAt problem.now node.now rows.now }
    ensures { IsLeast (λ index. is_missed problem.now node.now few (item.Count index)) result }
{
    let counts = counts_of(problem.query());
    for index in 0..counts.len() {
        if misses_count(problem, node, rows, few, counts[index]) {
            return Some(index as u64);
        }
    }
    None
}

// The first count of a method.
fn first_method_count(problem: &Problem, node: &[u8], rows: &RowStack, few: bool) -> Option<u64>
    requires at { IsAt problem.now node.now rows.now }
    ensures { IsLeast (λ index. is_missed problem.now node.now few (item.Leads index)) result }
{
    let counts = method_counts_of(problem.query());
    for index in 0..counts.len() {
        if misses_method_count(problem, node, rows, few, counts[index]) {
            return Some(index as u64);
        }
    }
    None
}

// The first pattern.
fn first_pattern(
    problem: &Problem,
    shapes: &[Shape],
    node: &[u8],
    rows: &RowStack,
    few: bool,
) -> Option<u64>
    requires shapes { AreShapes problem.now shapes.now }
    requires at { IsAt problem.now node.now rows.now }
    ensures { IsLeast (λ index. is_missed problem.now node.now few (item.Rows index)) result }
{
    let patterns = patterns_of(problem.query());
    for index in 0..patterns.len() {
        if misses_pattern(problem, node, rows, few, &patterns[index], &shapes[index]) {
            return Some(index as u64);
        }
    }
    None
}

// Whether a count of a mark is missed: by the leads of the node alone, or also by those that are left.
fn misses_count(problem: &Problem, node: &[u8], rows: &RowStack, few: bool, count: Count) -> bool
    requires at { IsAt problem.now node.now rows.now }
    ensures { result ≡ cond few (int_lt (pos (parts_of problem.now * (leads_marked problem.now count.mark node.now + leads_left problem.now node.now))) count.min)
        (int_lt count.max (pos (parts_of problem.now * leads_marked problem.now count.mark node.now))) }
{
    let number = leads_marked(problem, node, count.mark);
    misses(problem, node, rows, few, number, count.min, count.max)
}

// Whether a count of a method is missed.
fn misses_method_count(
    problem: &Problem,
    node: &[u8],
    rows: &RowStack,
    few: bool,
    count: MethodCount,
) -> bool
    requires at { IsAt problem.now node.now rows.now }
    ensures { result ≡ cond few (int_lt (pos (parts_of problem.now * (leads_lettered problem.now count.letter node.now + leads_left problem.now node.now))) count.min)
        (int_lt count.max (pos (parts_of problem.now * leads_lettered problem.now count.letter node.now))) }
{
    let number = leads_lettered(problem, node, count.letter);
    misses(problem, node, rows, few, number, count.min, count.max)
}

// Whether so many leads, in each part, are too few or too many.
fn misses(
    problem: &Problem,
    node: &[u8],
    rows: &RowStack,
    few: bool,
    number: u64,
    least: i64,
    greatest: i64,
) -> bool
    requires at { IsAt problem.now node.now rows.now }
    requires small { number ≤ length node.now }
    ensures { result ≡ cond few (int_lt (pos (parts_of problem.now * (number + leads_left problem.now node.now))) least)
        (int_lt greatest (pos (parts_of problem.now * number))) }
{
    if few {
        let most = number + leads_left(problem, node, rows);
        falls_short(in_all_parts(problem, most), least)
    } else {
        exceeds(in_all_parts(problem, number), greatest)
    }
}

// So many as all parts have.
fn in_all_parts(problem: &Problem, number: u64) -> u64
    requires small { number ≤ 13024 }
    ensures is { result ≡ parts_of problem.now * number }
    ensures few { result ≤ 833536 }
{
    problem.parts() * number
}

// Whether a pattern is missed: by the rows of the node alone, or also by those that are left of the touch.
fn misses_pattern(
    problem: &Problem,
    node: &[u8],
    rows: &RowStack,
    few: bool,
    pattern: &Pattern,
    shape: &Shape,
) -> bool
    requires at { IsAt problem.now node.now rows.now }
    requires cells { FitsStage problem.now.stage pattern.now.cells }
    requires shape { shape.now ≡ shape_of problem.now.stage pattern.now.cells }
    ensures { result ≡ cond few (int_lt (pos (rows_fitting pattern.now.cells (rows_of problem.now node.now) + (cap problem.now - length_of problem.now node.now))) pattern.now.min)
        (int_lt pattern.now.max (pos (rows_fitting pattern.now.cells (rows_of problem.now node.now)))) }
{
    let number = fitting(problem, node, rows, pattern, shape);
    if few {
        falls_short(number + changes_left(problem, node, rows), pattern.min)
    } else {
        exceeds(number, pattern.max)
    }
}

// How many rows of a node fit a pattern.
fn fitting(problem: &Problem, node: &[u8], rows: &RowStack, pattern: &Pattern, shape: &Shape) -> u64
    requires at { IsAt problem.now node.now rows.now }
    requires cells { FitsStage problem.now.stage pattern.now.cells }
    requires shape { shape.now ≡ shape_of problem.now.stage pattern.now.cells }
    ensures is { result ≡ rows_fitting pattern.now.cells (rows_of problem.now node.now) }
    ensures few { result ≤ 12000 }
{
    rows_fitting(rows, shape)
}

// Whether the limits on changes of method are missed: by the node alone, or also by the leads that are left, each of which
// may change the method, and so may each join of parts.
fn misses_com(problem: &Problem, node: &[u8], rows: &RowStack, few: bool) -> bool
    requires at { IsAt problem.now node.now rows.now }
    ensures { result ≡ is_missed problem.now node.now few item.Com }
{
    let number = changes_of_method(problem, node);
    let limits = com_of(problem.query());
    if few {
        let most = number + leads_left(problem, node, rows);
        let joined = in_all_parts(problem, most) + problem.parts() - 1;
        falls_short_of_com(limits, joined)
    } else {
        exceeds_com(limits, in_all_parts(problem, number))
    }
}

// How many leads may be left in a part.
fn leads_left(problem: &Problem, node: &[u8], rows: &RowStack) -> u64
    requires at { IsAt problem.now node.now rows.now }
    ensures is { result ≡ leads_left problem.now node.now }
    ensures few { result ≤ 12000 }
{
    (problem.part_cap() - rows.len()) / problem.shortest()
}

// How many changes may be left of a touch.
fn changes_left(problem: &Problem, node: &[u8], rows: &RowStack) -> u64
    requires at { IsAt problem.now node.now rows.now }
    ensures is { result ≡ cap problem.now - length_of problem.now node.now }
    ensures few { result ≤ 12000 }
{
    problem.cap() - rows.len()
}

// The counts of marks of a query.
fn counts_of(query: &Query) -> &[Count]
    ensures { result.now ≡ query.now.counts }
{
    query.counts.as_slice()
}

// The counts of methods of a query.
fn method_counts_of(query: &Query) -> &[MethodCount]
    ensures { result.now ≡ query.now.method_counts }
{
    query.method_counts.as_slice()
}

// The limits of a query on changes of method.
fn com_of(query: &Query) -> Option<Com>
    ensures { result ≡ query.now.com }
{
    query.com
}
