//! Whether a calling meets the query.

ghost use Rattle.std.specs.Prelude.{◌≡◌, ◌<◌, ◌↔◌, ℕ, true, List, length, All, IsTrue, IfOk};
ghost use Rattle.cr_leads.specs.Tables.{lead_table};
ghost use Rattle.cr_model.specs.Callings.{rows_of, HasSteps};
ghost use Rattle.cr_model.specs.Queries.{IsWithin, rows_fitting, leads_marked, leads_lettered, MeetsCom, Meets, changes_of_method};
ghost use Rattle.cr_model.specs.Right.{FitsStage, pattern_at};
ghost use Rattle.cr_query.specs.Meeting.{HasLength, MeetsCounts, MeetsMethodCounts, MeetsBySteps, MeetsByLeads, MeetsByRows};

use crate::equal_words::has_parts;
use crate::lead_counts::{changes_of_method, leads_lettered, leads_marked};
use crate::limits::{is_at_least, is_within, meets_com};
use crate::shape::Shape;
use cr_leads::LeadTable;
use cr_model::{Calling, Com, Count, MethodCount, Pattern, Problem, Query};
use cr_row::{NoMemory, Row, Stage};
use std::alloc::Global;

/// Whether a calling meets the query of its problem: its length is from `min` to the cap, it is so many
/// equal words, and each count, pattern and limit on changes of method is met. Err where no memory is left.
///
/// It is rung only where the query has patterns.
pub fn meets(
    alloc: Global,
    problem: &Problem,
    leads: &LeadTable,
    calling: &Calling,
) -> Result<bool, NoMemory>
    requires table { leads.now ≡ lead_table problem.now }
    requires steps { HasSteps problem.now calling.now }
    ensures { IfOk result (λ met. IsTrue met ↔ Meets problem.now calling.now) }
{
    if !meets_by_leads(problem, calling) {
        return Ok(false);
    }
    if asks_nothing_of_rows(problem) {
        return Ok(true);
    }
    let rows = leads.rows(alloc, calling)?;
    meets_by_rows(alloc, problem, &rows)
}

// Whether there are no patterns.
fn asks_nothing_of_rows(problem: &Problem) -> bool
    ensures { result ≡ true → (rows : List (List ℕ)) → MeetsByRows problem.now rows }
{
    patterns_of(problem.query()).is_empty()
}

/// Whether all that the query asks of the leads is met.
pub fn meets_by_leads(problem: &Problem, calling: &Calling) -> bool
    requires { HasSteps problem.now calling.now }
    ensures { IsTrue result ↔ MeetsByLeads problem.now calling.now }
{
    has_length(problem, calling) && meets_by_steps(problem, calling.steps())
}

// Whether all is met that the query asks of the leads' steps.
fn meets_by_steps(problem: &Problem, steps: &[u8]) -> bool
    requires { HasSteps problem.now steps.now }
    ensures { IsTrue result ↔ MeetsBySteps problem.now steps.now }
{
    has_parts(problem, steps)
        && counts_are_met(problem, steps)
        && method_counts_are_met(problem, steps)
        && com_is_met(problem, steps)
}

// Whether the counts of marks are met.
fn counts_are_met(problem: &Problem, steps: &[u8]) -> bool
    requires { HasSteps problem.now steps.now }
    ensures { IsTrue result ↔ MeetsCounts problem.now steps.now }
{
    meets_counts(problem, steps, counts_of(problem.query()))
}

// Whether the counts of methods are met.
fn method_counts_are_met(problem: &Problem, steps: &[u8]) -> bool
    requires { HasSteps problem.now steps.now }
    ensures { IsTrue result ↔ MeetsMethodCounts problem.now steps.now }
{
    meets_method_counts(problem, steps, method_counts_of(problem.query()))
}

// Whether the limits on changes of method are met.
fn com_is_met(problem: &Problem, steps: &[u8]) -> bool
    requires { HasSteps problem.now steps.now }
    ensures { IsTrue result ↔ MeetsCom problem.now.query.com (changes_of_method problem.now steps.now) }
{
    meets_com(com_of(problem.query()), changes_of_method(problem, steps))
}

/// Whether all that the query asks of the rows is met.
pub fn meets_by_rows(alloc: Global, problem: &Problem, rows: &[Row]) -> Result<bool, NoMemory>
    requires { All (λ row. length row ≡ problem.now.stage) rows.now }
    ensures { IfOk result (λ met. IsTrue met ↔ MeetsByRows problem.now rows.now) }
{
    meets_patterns(alloc, problem.stage(), patterns_of(problem.query()), rows)
}

// Whether the length is from the least to the greatest.
fn has_length(problem: &Problem, calling: &Calling) -> bool
    requires { HasSteps problem.now calling.now }
    ensures { IsTrue result ↔ HasLength problem.now calling.now }
{
    let length = problem.length_of(calling);
    length <= problem.cap() && is_at_least(problem.query().min, length)
}

// Whether each count of marks is met.
fn meets_counts(problem: &Problem, steps: &[u8], counts: &[Count]) -> bool
    requires { HasSteps problem.now steps.now }
    ensures { IsTrue result ↔ All (λ count. IsWithin count.min count.max (leads_marked problem.now count.mark steps.now)) counts.now }
{
    for index in 0..counts.len() {
        if !meets_count(problem, steps, counts[index]) {
            return false;
        }
    }
    true
}

// Whether each count of methods is met.
fn meets_method_counts(problem: &Problem, steps: &[u8], counts: &[MethodCount]) -> bool
    requires { HasSteps problem.now steps.now }
    ensures { IsTrue result ↔ All (λ count. IsWithin count.min count.max (leads_lettered problem.now count.letter steps.now)) counts.now }
{
    for index in 0..counts.len() {
        if !meets_method_count(problem, steps, counts[index]) {
            return false;
        }
    }
    true
}

// Whether each pattern is met.
fn meets_patterns(
    alloc: Global,
    stage: Stage,
    patterns: &[Pattern],
    rows: &[Row],
) -> Result<bool, NoMemory>
    requires cells { (i : ℕ) → i < length patterns.now → FitsStage stage (pattern_at patterns.now i).cells }
    requires rows { All (λ row. length row ≡ stage) rows.now }
    ensures { IfOk result (λ met.
        IsTrue met ↔ All (λ pattern. IsWithin pattern.min pattern.max (rows_fitting pattern.cells rows.now)) patterns.now) }
{
    for index in 0..patterns.len() {
        if !meets_pattern(alloc, stage, &patterns[index], rows)? {
            return Ok(false);
        }
    }
    Ok(true)
}

fn meets_count(problem: &Problem, steps: &[u8], count: Count) -> bool
    requires { HasSteps problem.now steps.now }
    ensures { IsTrue result ↔ IsWithin count.min count.max (leads_marked problem.now count.mark steps.now) }
{
    is_within(
        count.min,
        count.max,
        leads_marked(problem, steps, count.mark),
    )
}

fn meets_method_count(problem: &Problem, steps: &[u8], count: MethodCount) -> bool
    requires { HasSteps problem.now steps.now }
    ensures { IsTrue result ↔ IsWithin count.min count.max (leads_lettered problem.now count.letter steps.now) }
{
    is_within(
        count.min,
        count.max,
        leads_lettered(problem, steps, count.letter),
    )
}

// Whether as many of the rows fit a pattern as it asks.
fn meets_pattern(
    alloc: Global,
    stage: Stage,
    pattern: &Pattern,
    rows: &[Row],
) -> Result<bool, NoMemory>
    requires cells { FitsStage stage pattern.now.cells }
    requires rows { All (λ row. length row ≡ stage) rows.now }
    ensures { IfOk result (λ met.
        IsTrue met ↔ IsWithin pattern.now.min pattern.now.max (rows_fitting pattern.now.cells rows.now)) }
{
    let shape = Shape::new(alloc, stage, &pattern.cells)?;
    Ok(is_met(pattern, shape.count_rows(rows)))
}

// Whether so many rows are what a pattern asks.
fn is_met(pattern: &Pattern, number: u64) -> bool
    ensures { IsTrue result ↔ IsWithin pattern.now.min pattern.now.max number }
{
    is_within(pattern.min, pattern.max, number)
}

/// The counts of marks of a query.
pub fn counts_of(query: &Query) -> &[Count]
    ensures { result.now ≡ query.now.counts }
{
    query.counts.as_slice()
}

/// The counts of methods of a query.
pub fn method_counts_of(query: &Query) -> &[MethodCount]
    ensures { result.now ≡ query.now.method_counts }
{
    query.method_counts.as_slice()
}

/// The limits of a query on changes of method.
pub fn com_of(query: &Query) -> Option<Com>
    ensures { result ≡ query.now.com }
{
    query.com
}

/// The patterns of a query.
pub fn patterns_of(query: &Query) -> &[Pattern]
    ensures { result.now ≡ query.now.patterns }
{
    query.patterns.as_slice()
}
