//! Which verdicts hold of a node.

ghost use Rattle.std.specs.Prelude.{◌≡◌, ◌-◌, ◌/◌, ◌<◌, ◌≤◌, ◌^◌, pos, int_lt, length, take, drop};
ghost use Rattle.std.specs.Cmp.Lexicographic.{slice_cmp};
ghost use Rattle.std.specs.Ordering.{nat_cmp, is_lt};
ghost use Rattle.cr_model.specs.Callings.{rows_of};
ghost use Rattle.cr_model.specs.Dead.{leads_left, is_long, turn_free};
ghost use Rattle.cr_model.specs.Queries.{rows_fitting};
ghost use Rattle.cr_model.specs.Right.{pattern_at};
ghost use Rattle.cr_audit.specs.Paths.{IsAt};
ghost use Rattle.cr_audit.specs.Verdicts.{is_valid, is_again_at, is_round_at, has_too_many, has_too_few, turns_back_at, holds_verdict};
ghost use Rattle.cr_audit.specs.declared.verdict.Item.TheVariants as item;

use crate::counting::{lettered, marked};
use crate::fitting::{fitting_before, fitting_rung};
use crate::limits::{exceeds, falls_short, in_parts, is_above_com, is_below_com, with_joins};
use crate::path::{Path, last_changes, last_row};
use crate::places::{Size, goes_on_behind, has_place, has_room, left_of, row_at};
use crate::verdict::{Item, Verdict};
use cr_model::laws::a_test_decides_what_is_wanted;
use cr_model::{Com, Count, MethodCount, Pattern, Problem, Query};
use cr_row::{Row, change_of_a_row, rounds_is_neutral};

/// Whether a verdict holds of the path's node.
pub fn holds(problem: &Problem, path: &Path, why: Verdict) -> bool
    requires { IsAt problem.now path.now }
    ensures { result ≡ holds_verdict problem.now path.now.node.items why }
{
    match why {
        Verdict::Open => is_valid(problem, path),
        Verdict::Long => is_long(problem, path),
        Verdict::Again(first, again) => is_again(problem, path, first, again),
        Verdict::Home(place) => is_home(problem, path, place),
        Verdict::Many(item) => is_valid(problem, path) && has_too_many(problem, path, item),
        Verdict::Few(item) => is_valid(problem, path) && has_too_few(problem, path, item),
        Verdict::Back(step) => turns_back(problem, &path.node, step),
    }
}

// Whether the node is no longer than a part may be.
fn is_valid(problem: &Problem, path: &Path) -> bool
    requires { IsAt problem.now path.now }
    ensures { result ≡ is_valid problem.now path.now.node.items }
{
    a_test_decides_what_is_wanted();
    has_room(Size::of(problem, path), problem.part_cap())
}

fn is_long(problem: &Problem, path: &Path) -> bool
    requires { IsAt problem.now path.now }
    ensures { result ≡ is_long problem.now path.now.node.items }
{
    !has_room(Size::of(problem, path), problem.part_cap())
}

// Whether the rows at two places, the first before the second, are equal.
fn is_again(problem: &Problem, path: &Path, first: u64, again: u64) -> bool
    requires { IsAt problem.now path.now }
    ensures { result ≡ is_again_at problem.now path.now.node.items first again }
{
    first < again
        && has_place(Size::of(problem, path), again)
        && row_at(problem, path, first as usize) == row_at(problem, path, again as usize)
}

// Whether the row at a place is rounds, and comes too early.
fn is_home(problem: &Problem, path: &Path, place: u64) -> bool
    requires { IsAt problem.now path.now }
    ensures { result ≡ is_round_at problem.now path.now.node.items place }
{
    let size = Size::of(problem, path);
    has_place(size, place)
        && row_at(problem, path, place as usize) == Row::rounds(problem.stage())
        && (goes_on_behind(size, place) || 1 < problem.parts())
}

// Whether an item of the query has too many in the node.
fn has_too_many(problem: &Problem, path: &Path, item: Item) -> bool
    requires { IsAt problem.now path.now }
    ensures { result ≡ has_too_many problem.now path.now.node.items item }
{
    match item {
        Item::Count(index) => many_marked(problem, path, index),
        Item::Leads(index) => many_lettered(problem, path, index),
        Item::Rows(index) => many_rows(problem, path, index),
        Item::Com => many_changes(problem, path),
    }
}

fn many_marked(problem: &Problem, path: &Path, index: u64) -> bool
    requires { IsAt problem.now path.now }
    ensures { result ≡ has_too_many problem.now path.now.node.items (item.Count index) }
{
    let counts = counts_of(problem.query());
    if counts.len() as u64 <= index {
        return false;
    }
    let count = counts[index as usize];
    let number = u128::from(marked(problem, path, count.mark));
    exceeds(in_parts(problem.parts(), number), count.max)
}

fn many_lettered(problem: &Problem, path: &Path, index: u64) -> bool
    requires { IsAt problem.now path.now }
    ensures { result ≡ has_too_many problem.now path.now.node.items (item.Leads index) }
{
    let counts = method_counts_of(problem.query());
    if counts.len() as u64 <= index {
        return false;
    }
    let count = counts[index as usize];
    let number = u128::from(lettered(problem, path, count.letter));
    exceeds(in_parts(problem.parts(), number), count.max)
}

fn many_rows(problem: &Problem, path: &Path, index: u64) -> bool
    requires { IsAt problem.now path.now }
    ensures { result ≡ has_too_many problem.now path.now.node.items (item.Rows index) }
{
    let patterns = patterns_of(problem.query());
    if patterns.len() as u64 <= index {
        return false;
    }
    let index = index as usize;
    exceeds(
        fitting(problem, path, index),
        most_of(pattern_at(patterns, index)),
    )
}

/// The pattern at an index.
pub fn pattern_at(patterns: &[Pattern], index: usize) -> &Pattern
    requires { index < length patterns.now }
    ensures { result.now ≡ pattern_at patterns.now index }
{
    &patterns[index]
}

// How many rows of the node fit the pattern at an index.
fn fitting(problem: &Problem, path: &Path, index: usize) -> u128
    requires at { IsAt problem.now path.now }
    requires index { index < length problem.now.query.patterns }
    ensures is { result ≡ rows_fitting (pattern_at problem.now.query.patterns index).cells (rows_of problem.now path.now.node.items) }
    ensures few { result < 2 ^ 65 }
{
    change_of_a_row();
    rounds_is_neutral();
    let head = last_row(&path.rows, problem.stage());
    let pattern = pattern_at(patterns_of(problem.query()), index);
    let rung = fitting_rung(pattern, head, last_changes(problem, path));
    u128::from(fitting_before(problem, path, index)) + u128::from(rung)
}

fn most_of(pattern: &Pattern) -> i64
    ensures { result ≡ pattern.now.max }
{
    pattern.max
}

fn least_of(pattern: &Pattern) -> i64
    ensures { result ≡ pattern.now.min }
{
    pattern.min
}

fn many_changes(problem: &Problem, path: &Path) -> bool
    requires { IsAt problem.now path.now }
    ensures { result ≡ has_too_many problem.now path.now.node.items item.Com }
{
    let number = in_parts(problem.parts(), u128::from(path.changes));
    is_above_com(com_of(problem.query()), number)
}

// Whether an item of the query would have too few however the node goes on.
fn has_too_few(problem: &Problem, path: &Path, item: Item) -> bool
    requires { IsAt problem.now path.now }
    ensures { result ≡ has_too_few problem.now path.now.node.items item }
{
    match item {
        Item::Count(index) => few_marked(problem, path, index),
        Item::Leads(index) => few_lettered(problem, path, index),
        Item::Rows(index) => few_rows(problem, path, index),
        Item::Com => few_changes(problem, path),
    }
}

fn few_marked(problem: &Problem, path: &Path, index: u64) -> bool
    requires { IsAt problem.now path.now }
    ensures { result ≡ has_too_few problem.now path.now.node.items (item.Count index) }
{
    let counts = counts_of(problem.query());
    if counts.len() as u64 <= index {
        return false;
    }
    let count = counts[index as usize];
    let number = u128::from(marked(problem, path, count.mark));
    let most = number + u128::from(leads_left(problem, path));
    falls_short(in_parts(problem.parts(), most), count.min)
}

fn few_lettered(problem: &Problem, path: &Path, index: u64) -> bool
    requires { IsAt problem.now path.now }
    ensures { result ≡ has_too_few problem.now path.now.node.items (item.Leads index) }
{
    let counts = method_counts_of(problem.query());
    if counts.len() as u64 <= index {
        return false;
    }
    let count = counts[index as usize];
    let number = u128::from(lettered(problem, path, count.letter));
    let most = number + u128::from(leads_left(problem, path));
    falls_short(in_parts(problem.parts(), most), count.min)
}

fn few_rows(problem: &Problem, path: &Path, index: u64) -> bool
    requires { IsAt problem.now path.now }
    ensures { result ≡ has_too_few problem.now path.now.node.items (item.Rows index) }
{
    let patterns = patterns_of(problem.query());
    if patterns.len() as u64 <= index {
        return false;
    }
    let index = index as usize;
    let left = left_of(problem.cap(), Size::of(problem, path));
    let most = fitting(problem, path, index) + u128::from(left);
    falls_short(most, least_of(pattern_at(patterns, index)))
}

fn few_changes(problem: &Problem, path: &Path) -> bool
    requires { IsAt problem.now path.now }
    ensures { result ≡ has_too_few problem.now path.now.node.items item.Com }
{
    let most = u128::from(path.changes) + u128::from(leads_left(problem, path));
    is_below_com(com_of(problem.query()), with_joins(problem.parts(), most))
}

// How many leads are left in the part at most.
fn leads_left(problem: &Problem, path: &Path) -> u64
    requires { IsAt problem.now path.now }
    ensures { result ≡ leads_left problem.now path.now.node.items }
{
    let left = left_of(problem.part_cap(), Size::of(problem, path));
    leads_in(left, problem.shortest())
}

// How many leads of this length so many changes hold.
fn leads_in(changes: u64, length: u64) -> u64
    requires { 1 ≤ length }
    ensures { result ≡ changes / length }
{
    changes / length
}

// Whether the steps from one on are less than as many at the beginning, where that counts.
fn turns_back(problem: &Problem, node: &[u8], step: u64) -> bool
    ensures { result ≡ turns_back_at problem.now node.now step }
{
    is_turn_free(problem.query())
        && 0 < step
        && step < node.len() as u64
        && is_less_from(node, step as usize)
}

fn is_less_from(node: &[u8], step: usize) -> bool
    requires { step ≤ length node.now }
    ensures { result ≡ is_lt (slice_cmp nat_cmp (drop step node.now) (take (length node.now - step) node.now)) }
{
    node[step..].cmp(&node[..node.len() - step]).is_lt()
}

/// Whether there are no patterns and no limits on changes of method.
pub fn is_turn_free(query: &Query) -> bool
    ensures { result ≡ turn_free query.now }
{
    query.patterns.is_empty() && query.com.is_none()
}

/// The counts of marks of a query.
pub fn counts_of(query: &Query) -> &[Count]
    ensures { result.now ≡ query.now.counts }
{
    query.counts.as_slice()
}

/// The counts of methods of a query.
pub fn method_counts_of(query: &Query) -> &[MethodCount]
    ensures { result.now ≡ query.now.method_counts }
{
    query.method_counts.as_slice()
}

/// The patterns of a query.
pub fn patterns_of(query: &Query) -> &[Pattern]
    ensures { result.now ≡ query.now.patterns }
{
    query.patterns.as_slice()
}

/// The limits of a query on changes of method.
pub fn com_of(query: &Query) -> Option<Com>
    ensures { result ≡ query.now.com }
{
    query.com
}

/// The least length that a query asks for.
pub fn least_length(query: &Query) -> i64
    ensures { result ≡ query.now.min }
{
    query.min
}

/// Whether a length is below the least that a query asks for.
pub fn is_too_short(query: &Query, length: u128) -> bool
    ensures { result ≡ int_lt (pos length) query.now.min }
{
    falls_short(length, least_length(query))
}
