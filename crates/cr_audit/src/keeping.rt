//! Which touches are kept.

ghost use Rattle.std.specs.Prelude.{◌≡◌, ◌↔◌, ◌≤◌, pos, ◌≤ℤ◌, length, IsTrue, IfOk, All};
ghost use Rattle.cr_row.specs.Rows.{rounds};
ghost use Rattle.cr_model.specs.Callings.{HasSteps, head_of, length_of};
ghost use Rattle.cr_model.specs.Decided.{rotated};
ghost use Rattle.cr_model.specs.OneTurn.{touch_of};
ghost use Rattle.cr_model.specs.Queries.{cap, IsWithin, MeetsCom, leads_marked, leads_lettered, rows_fitting, changes_of_method};
ghost use Rattle.cr_model.specs.Touches.{Wanted, Kept, IsLess};
ghost use Rattle.cr_audit.specs.Keeping.{AreMarkedAsAsked, AreLetteredAsAsked, HasLeadsAsked, AreRowsAsked, IsLeast, IsBetter, HasNoneBetter};
ghost use Rattle.cr_audit.specs.Paths.{IsOpen};

use crate::counting::{changes_of_method, lettered, marked};
use crate::differing::Marks;
use crate::fitting::fitting_in;
use crate::judging::{
    com_of, counts_of, is_turn_free, least_length, method_counts_of, patterns_of,
};
use crate::limits::{in_parts, is_within, reaches};
use crate::path::{Path, ring_rest};
use cr_model::laws::{a_rotation_of_a_true_touch_is_one, a_rotation_of_a_wanted_touch_is_wanted};
use cr_model::{Calling, Count, MethodCount, Pattern, Problem};
use cr_row::{NoMemory, Row};
use std::alloc::Global;
use std::cmp::Ordering;

/// Whether the touch of an open node is kept, where it comes round: it is a true touch that meets the query, and no
/// rotation of it is so and less. Err where no memory is left.
///
/// Where the query is the same for all rotations a less one tells at once that the touch is not kept. Else each less
/// rotation is asked.
pub fn is_kept(
    alloc: Global,
    problem: &Problem,
    marks: &mut Marks,
    path: &Path,
    touch: &Calling,
) -> Result<bool, NoMemory>
    requires open { IsOpen problem.now path.now }
    requires touch { touch.now ≡ touch_of problem.now path.now.node.items }
    requires round { head_of problem.now touch.now ≡ rounds problem.now.stage }
    ensures { IfOk result (λ kept. IsTrue kept ↔ Kept problem.now touch.now) }
{
    a_rotation_of_a_true_touch_is_one();
    a_rotation_of_a_wanted_touch_is_wanted();
    let least = is_least(touch.steps());
    if !least && is_turn_free(problem.query()) {
        return Ok(false);
    }
    if !is_wanted(alloc, problem, marks, path, touch)? {
        return Ok(false);
    }
    if least {
        return Ok(true);
    }
    none_is_better(alloc, problem, touch)
}

// Whether the touch is a true one that meets the query.
fn is_wanted(
    alloc: Global,
    problem: &Problem,
    marks: &mut Marks,
    path: &Path,
    touch: &Calling,
) -> Result<bool, NoMemory>
    requires open { IsOpen problem.now path.now }
    requires touch { touch.now ≡ touch_of problem.now path.now.node.items }
    requires round { head_of problem.now touch.now ≡ rounds problem.now.stage }
    ensures { IfOk result (λ wanted. IsTrue wanted ↔ Wanted problem.now touch.now) }
{
    let _ = problem.stage();
    if !has_leads_asked(problem, path, touch) {
        return Ok(false);
    }
    let mut rows = path.rows.as_slice().to_vec(alloc)?;
    ring_rest(&mut rows, problem, touch.steps(), path.node.len())?;
    if !marks.differ(&rows) {
        return Ok(false);
    }
    Ok(are_rows_asked(problem, &rows))
}

// Whether the touch's leads are what the query asks for.
fn has_leads_asked(problem: &Problem, path: &Path, touch: &Calling) -> bool
    requires open { IsOpen problem.now path.now }
    requires touch { touch.now ≡ touch_of problem.now path.now.node.items }
    ensures { IsTrue result ↔ HasLeadsAsked problem.now touch.now }
{
    has_length(problem, touch)
        && are_marked_as_asked(problem, path)
        && are_lettered_as_asked(problem, path)
        && is_com_met(problem, touch.steps())
}

// Whether the length is from the least to the greatest.
fn has_length(problem: &Problem, touch: &Calling) -> bool
    requires { HasSteps problem.now touch.now }
    ensures { IsTrue result
        ↔ ((problem.now.query.min ≤ℤ pos (length_of problem.now touch.now)) × (length_of problem.now touch.now ≤ cap problem.now)) }
{
    let length = problem.length_of(touch);
    reaches(u128::from(length), least_length(problem.query())) && length <= problem.cap()
}

// Whether the counts of marks are within their limits.
fn are_marked_as_asked(problem: &Problem, path: &Path) -> bool
    requires { IsOpen problem.now path.now }
    ensures { IsTrue result ↔ AreMarkedAsAsked problem.now (touch_of problem.now path.now.node.items) }
{
    all_marked(problem, path, counts_of(problem.query()))
}

fn all_marked(problem: &Problem, path: &Path, counts: &[Count]) -> bool
    requires { IsOpen problem.now path.now }
    ensures { IsTrue result ↔ All (λ count. IsWithin count.min count.max (leads_marked problem.now count.mark (touch_of problem.now path.now.node.items))) counts.now }
{
    for index in 0..counts.len() {
        if !is_marked(problem, path, counts[index]) {
            return false;
        }
    }
    true
}

fn is_marked(problem: &Problem, path: &Path, count: Count) -> bool
    requires { IsOpen problem.now path.now }
    ensures { IsTrue result ↔ IsWithin count.min count.max (leads_marked problem.now count.mark (touch_of problem.now path.now.node.items)) }
{
    is_within(
        count.min,
        count.max,
        all_with_mark(problem, path, count.mark),
    )
}

// How many leads of the touch have the mark.
fn all_with_mark(problem: &Problem, path: &Path, mark: u8) -> u128
    requires { IsOpen problem.now path.now }
    ensures { result ≡ leads_marked problem.now mark (touch_of problem.now path.now.node.items) }
{
    in_parts(problem.parts(), u128::from(marked(problem, path, mark)))
}

// Whether the counts of methods are within their limits.
fn are_lettered_as_asked(problem: &Problem, path: &Path) -> bool
    requires { IsOpen problem.now path.now }
    ensures { IsTrue result ↔ AreLetteredAsAsked problem.now (touch_of problem.now path.now.node.items) }
{
    all_lettered(problem, path, method_counts_of(problem.query()))
}

fn all_lettered(problem: &Problem, path: &Path, counts: &[MethodCount]) -> bool
    requires { IsOpen problem.now path.now }
    ensures { IsTrue result ↔ All (λ count. IsWithin count.min count.max (leads_lettered problem.now count.letter (touch_of problem.now path.now.node.items))) counts.now }
{
    for index in 0..counts.len() {
        if !is_lettered(problem, path, counts[index]) {
            return false;
        }
    }
    true
}

fn is_lettered(problem: &Problem, path: &Path, count: MethodCount) -> bool
    requires { IsOpen problem.now path.now }
    ensures { IsTrue result ↔ IsWithin count.min count.max (leads_lettered problem.now count.letter (touch_of problem.now path.now.node.items)) }
{
    is_within(
        count.min,
        count.max,
        all_with_letter(problem, path, count.letter),
    )
}

// How many leads of the touch are of the method with the letter.
fn all_with_letter(problem: &Problem, path: &Path, letter: u8) -> u128
    requires { IsOpen problem.now path.now }
    ensures { result ≡ leads_lettered problem.now letter (touch_of problem.now path.now.node.items) }
{
    in_parts(problem.parts(), u128::from(lettered(problem, path, letter)))
}

// Whether the limits on changes of method are met, if there are some.
fn is_com_met(problem: &Problem, steps: &[u8]) -> bool
    requires { HasSteps problem.now steps.now }
    ensures { IsTrue result ↔ MeetsCom problem.now.query.com (changes_of_method problem.now steps.now) }
{
    match com_of(problem.query()) {
        Some(limits) => is_within(
            limits.min,
            limits.max,
            u128::from(changes_of_method(problem, steps)),
        ),
        None => true,
    }
}

// Whether as many rows fit each pattern as it asks for.
fn are_rows_asked(problem: &Problem, rows: &[Row]) -> bool
    ensures { IsTrue result ↔ AreRowsAsked problem.now rows.now }
{
    all_fitting(patterns_of(problem.query()), rows)
}

fn all_fitting(patterns: &[Pattern], rows: &[Row]) -> bool
    ensures { IsTrue result ↔ All (λ pattern. IsWithin pattern.min pattern.max (rows_fitting pattern.cells rows.now)) patterns.now }
{
    for index in 0..patterns.len() {
        if !is_fitting(&patterns[index], rows) {
            return false;
        }
    }
    true
}

fn is_fitting(pattern: &Pattern, rows: &[Row]) -> bool
    ensures { IsTrue result ↔ IsWithin pattern.now.min pattern.now.max (rows_fitting pattern.now.cells rows.now) }
{
    has_number_asked(pattern, fitting_in(pattern, rows))
}

fn has_number_asked(pattern: &Pattern, number: u64) -> bool
    ensures { IsTrue result ↔ IsWithin pattern.now.min pattern.now.max number }
{
    is_within(pattern.min, pattern.max, u128::from(number))
}

// Whether no rotation of some steps is less.
fn is_least(steps: &[u8]) -> bool
    ensures { IsTrue result ↔ IsLeast steps.now }
{
    for by in 1..steps.len() {
        if is_less_turned(steps, by) {
            return false;
        }
    }
    true
}

// Whether the rotation that starts after so many steps is less.
fn is_less_turned(steps: &[u8], by: usize) -> bool
    requires { by ≤ length steps.now }
    ensures { IsTrue result ↔ IsLess (rotated by steps.now) steps.now }
{
    let behind = steps.len() - by;
    match steps[by..].cmp(&steps[..behind]) {
        Ordering::Less => true,
        Ordering::Equal => is_less(&steps[..by], &steps[behind..]),
        Ordering::Greater => false,
    }
}

fn is_less(steps: &[u8], others: &[u8]) -> bool
    ensures { IsTrue result ↔ IsLess steps.now others.now }
{
    match steps.cmp(others) {
        Ordering::Less => true,
        Ordering::Equal | Ordering::Greater => false,
    }
}

// Whether no rotation of a wanted touch is less and meets the query.
fn none_is_better(alloc: Global, problem: &Problem, touch: &Calling) -> Result<bool, NoMemory>
    requires { Wanted problem.now touch.now }
    ensures { IfOk result (λ none. IsTrue none ↔ HasNoneBetter problem.now touch.now) }
{
    for by in 1..touch.steps().len() {
        if is_better(alloc, problem, touch.steps(), by)? {
            return Ok(false);
        }
    }
    Ok(true)
}

// Whether the rotation that starts after so many leads is less and meets the query. What a query asks of all leads together
// any rotation meets.
fn is_better(alloc: Global, problem: &Problem, steps: &[u8], by: usize) -> Result<bool, NoMemory>
    requires wanted { Wanted problem.now steps.now }
    requires within { by ≤ length steps.now }
    ensures { IfOk result (λ better. IsTrue better ↔ IsBetter problem.now steps.now by) }
{
    a_rotation_of_a_true_touch_is_one();
    if !is_less_turned(steps, by) {
        return Ok(false);
    }
    let rotation = turned(alloc, steps, by)?;
    let mut rows = Vec::new(alloc);
    ring_rest(&mut rows, problem, &rotation, 0)?;
    Ok(is_com_met(problem, &rotation) && are_rows_asked(problem, &rows))
}

// The steps begun so many later.
fn turned(alloc: Global, steps: &[u8], by: usize) -> Result<Vec<u8>, NoMemory>
    requires { by ≤ length steps.now }
    ensures { IfOk result (λ rotation. rotation.items ≡ rotated by steps.now) }
{
    let mut rotation = steps[by..].to_vec(alloc)?;
    rotation.extend_from_slice(&steps[..by])?;
    Ok(rotation)
}
