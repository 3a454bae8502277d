//! Which rotation of a touch is kept.

ghost use Rattle.std.specs.Prelude.{◌≡◌, ◌↔◌, ◌≤◌, true, length, IsTrue, IfOk};
ghost use Rattle.cr_leads.specs.Tables.{lead_table};
ghost use Rattle.cr_model.specs.Callings.{HasSteps};
ghost use Rattle.cr_model.specs.Dead.{turn_free};
ghost use Rattle.cr_model.specs.Touches.{Wanted, Kept, IsLess};
ghost use Rattle.cr_model.specs.LeastRotations.{IsLeastRotation};
ghost use Rattle.cr_query.specs.Keeping.{IsBetter, HasNoneBetter};

use crate::free_rotations::turn_free;
use crate::meeting::{meets, meets_by_leads, meets_by_rows};
use cr_leads::{LeadTable, Rung};
use cr_model::laws::{a_rotation_of_a_true_touch_is_one, a_rotation_of_a_wanted_touch_is_wanted};
use cr_model::{Calling, Problem};
use cr_rotate::{Period, turned};
use cr_row::NoMemory;
use std::alloc::Global;
use std::cmp::Ordering;

/// Whether a calling is kept: it is a true touch that meets the query, and no rotation of it is so and less.
/// Err where no memory is left.
///
/// The calling is rung at most once. Where all rotations of a calling meet the query, or none, no rotation is
/// rung or compared; elsewhere each one that is less is, until one meets the query.
pub fn is_kept(
    alloc: Global,
    problem: &Problem,
    leads: &LeadTable,
    calling: &Calling,
) -> Result<bool, NoMemory>
    requires table { leads.now ≡ lead_table problem.now }
    requires steps { HasSteps problem.now calling.now }
    ensures { IfOk result (λ kept. IsTrue kept ↔ Kept problem.now calling.now) }
{
    if turn_free(problem.query()) {
        is_least_and_wanted(alloc, problem, leads, calling)
    } else {
        is_wanted_and_best(alloc, problem, leads, calling)
    }
}

// The same, where all rotations of a calling meet the query, or none.
fn is_least_and_wanted(
    alloc: Global,
    problem: &Problem,
    leads: &LeadTable,
    calling: &Calling,
) -> Result<bool, NoMemory>
    requires table { leads.now ≡ lead_table problem.now }
    requires steps { HasSteps problem.now calling.now }
    requires free { turn_free problem.now.query ≡ true }
    ensures { IfOk result (λ kept. IsTrue kept ↔ Kept problem.now calling.now) }
{
    a_rotation_of_a_wanted_touch_is_wanted();
    if !is_least(alloc, calling)? {
        return Ok(false);
    }
    is_wanted(alloc, problem, leads, calling)
}

// The same, where a rotation may meet the query that another does not.
fn is_wanted_and_best(
    alloc: Global,
    problem: &Problem,
    leads: &LeadTable,
    calling: &Calling,
) -> Result<bool, NoMemory>
    requires table { leads.now ≡ lead_table problem.now }
    requires steps { HasSteps problem.now calling.now }
    ensures { IfOk result (λ kept. IsTrue kept ↔ Kept problem.now calling.now) }
{
    a_rotation_of_a_true_touch_is_one();
    if !is_wanted(alloc, problem, leads, calling)? {
        return Ok(false);
    }
    none_is_better(alloc, problem, leads, calling)
}

// Whether a calling is a true touch that meets the query.
fn is_wanted(
    alloc: Global,
    problem: &Problem,
    leads: &LeadTable,
    calling: &Calling,
) -> Result<bool, NoMemory>
    requires table { leads.now ≡ lead_table problem.now }
    requires steps { HasSteps problem.now calling.now }
    ensures { IfOk result (λ wanted. IsTrue wanted ↔ Wanted problem.now calling.now) }
{
    if !meets_by_leads(problem, calling) {
        return Ok(false);
    }
    let rung = leads.ring(alloc, calling)?;
    if !is_touch(&rung) {
        return Ok(false);
    }
    meets_by_rows(alloc, problem, &rung.rows)
}

// Whether a calling that was rung comes round with rows that differ.
fn is_touch(rung: &Rung) -> bool
    ensures { IsTrue result ↔ (IsTrue rung.now.round × IsTrue rung.now.distinct) }
{
    rung.round && rung.distinct
}

// Whether no rotation of a calling is less.
fn is_least(alloc: Global, calling: &Calling) -> Result<bool, NoMemory>
    ensures { IfOk result (λ least. IsTrue least ↔ IsLeastRotation calling.now) }
{
    let mut period = Period::new(alloc)?;
    let steps = calling.steps();
    for step in steps {
        period.push(*step);
    }
    Ok(period.is_least())
}

// Whether no rotation of a calling is less and meets the query.
fn none_is_better(
    alloc: Global,
    problem: &Problem,
    leads: &LeadTable,
    calling: &Calling,
) -> Result<bool, NoMemory>
    requires table { leads.now ≡ lead_table problem.now }
    requires steps { HasSteps problem.now calling.now }
    ensures { IfOk result (λ none. IsTrue none ↔ HasNoneBetter problem.now calling.now) }
{
    for by in 1..calling.steps().len() {
        if is_better(alloc, problem, leads, calling, by as u64)? {
            return Ok(false);
        }
    }
    Ok(true)
}

// Whether the rotation that starts after so many leads is less and meets the query.
fn is_better(
    alloc: Global,
    problem: &Problem,
    leads: &LeadTable,
    calling: &Calling,
    by: u64,
) -> Result<bool, NoMemory>
    requires table { leads.now ≡ lead_table problem.now }
    requires steps { HasSteps problem.now calling.now }
    requires within { by ≤ length calling.now }
    ensures { IfOk result (λ better. IsTrue better ↔ IsBetter problem.now calling.now by) }
{
    let rotation = turned(alloc, calling, by)?;
    if is_less(rotation.steps(), calling.steps()) {
        meets(alloc, problem, leads, &rotation)
    } else {
        Ok(false)
    }
}

// Whether some steps are less, step by step.
fn is_less(steps: &[u8], others: &[u8]) -> bool
    ensures { IsTrue result ↔ IsLess steps.now others.now }
{
    match steps.cmp(others) {
        Ordering::Less => true,
        Ordering::Equal | Ordering::Greater => false,
    }
}
