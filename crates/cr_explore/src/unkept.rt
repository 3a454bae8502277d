//! Touches that were found before: which of them is not kept.

ghost use Rattle.std.specs.Prelude.{◌≡◌, ◌≤◌, ◌↔◌, [], length, get_or, All, IsTrue, IfOk, IfNone, IfSome};
ghost use Rattle.cr_leads.specs.Tables.{lead_table};
ghost use Rattle.cr_model.specs.Callings.{HasSteps, length_of};
ghost use Rattle.cr_model.specs.Checks.{TellsFirst};
ghost use Rattle.cr_model.specs.Nodes.{part_of, IsValid};
ghost use Rattle.cr_model.specs.OneTurn.{touch_of};
ghost use Rattle.cr_model.specs.Queries.{cap};
ghost use Rattle.cr_model.specs.Touches.{Kept};
ghost use Rattle.cr_path.specs.Numbers.{IsNumbered};
ghost use Rattle.cr_query.specs.Meeting.{HasParts};

use crate::keeping::{is_numbered_touch_kept, is_touch_kept};
use crate::tables::Tables;
use crate::walking::go_to;
use cr_leads::LeadTable;
use cr_model::{Calling, Problem};
use cr_path::{NumberTable, NumberWalk};
use cr_prune::Walk;
use cr_query::has_parts;
use cr_row::NoMemory;
use std::alloc::Global;

/// From how many touches on it takes less time to make the numbers than to ring.
pub const MANY: usize = 4_000;

/// The first of some touches that is not kept, or none. Err where no memory is left.
///
/// A walk goes from each touch to the next, back to where both begin alike: so it is fast where neighbours do, as in a
/// book. It goes by numbers where touches are many, and else it rings.
pub fn first_unkept(
    alloc: Global,
    problem: &Problem,
    touches: &[Calling],
) -> Result<Option<usize>, NoMemory>
    requires { All (HasSteps problem.now) touches.now }
    ensures { IfOk result (TellsFirst (λ i. Kept problem.now (get_or touches.now i [])) (length touches.now)) }
{
    if touches.len() < MANY {
        let leads = LeadTable::new(alloc, problem)?;
        return first_by_ringing(alloc, problem, &leads, touches);
    }
    let tables = Tables::new(alloc, problem)?;
    tables.first_unkept(alloc, touches)
}

/// The same, by a walk that rings.
pub fn first_by_ringing<'a>(
    alloc: Global,
    problem: &'a Problem,
    leads: &'a LeadTable,
    touches: &[Calling],
) -> Result<Option<usize>, NoMemory>
    requires leads { leads.now ≡ lead_table problem.now }
    requires steps { All (HasSteps problem.now) touches.now }
    ensures { IfOk result (TellsFirst (λ i. Kept problem.now (get_or touches.now i [])) (length touches.now)) }
{
    let mut walk = Walk::new(alloc, problem, leads, None)?;
    for (index, touch) in touches.iter().enumerate() {
        if !is_kept_by_ringing(alloc, problem, leads, &mut walk, touch)? {
            return Ok(Some(index));
        }
    }
    Ok(None)
}

/// The same, by numbers, of which each lead has so many.
pub fn first_by_numbers<const WIDTH: usize>(
    alloc: Global,
    problem: &Problem,
    leads: &LeadTable,
    numbers: &NumberTable,
    touches: &[Calling],
) -> Result<Option<usize>, NoMemory>
    requires leads { leads.now ≡ lead_table problem.now }
    requires numbers { IsNumbered problem.now numbers.now }
    requires width { numbers.now.width ≡ WIDTH }
    requires steps { All (HasSteps problem.now) touches.now }
    ensures { IfOk result (TellsFirst (λ i. Kept problem.now (get_or touches.now i [])) (length touches.now)) }
{
    let mut walk: NumberWalk<WIDTH, 1, 0> = NumberWalk::new(alloc, problem, leads, numbers)?;
    for (index, touch) in touches.iter().enumerate() {
        if !is_kept_by_numbers(alloc, problem, leads, numbers, &mut walk, touch)? {
            return Ok(Some(index));
        }
    }
    Ok(None)
}

// Whether a touch is kept, to whose part a walk goes.
fn is_kept_by_ringing(
    alloc: Global,
    problem: &Problem,
    leads: &LeadTable,
    walk: &mut Walk,
    touch: &Calling,
) -> Result<bool, NoMemory>
    requires same { walk.old.problem ≡ problem.now }
    requires leads { leads.now ≡ lead_table problem.now }
    requires steps { HasSteps problem.now touch.now }
    ensures same { walk.new.problem ≡ problem.now }
    ensures kept { IfOk result (λ kept. IsTrue kept ↔ Kept problem.now touch.now) }
{
    let _ = problem.stage();
    let Some(part) = valid_part(problem, touch) else {
        return Ok(false);
    };
    go_to(walk, part);
    is_touch_kept(alloc, problem, leads, &*walk)
}

// The same of a walk by numbers.
fn is_kept_by_numbers<const WIDTH: usize>(
    alloc: Global,
    problem: &Problem,
    leads: &LeadTable,
    numbers: &NumberTable,
    walk: &mut NumberWalk<WIDTH, 1, 0>,
    touch: &Calling,
) -> Result<bool, NoMemory>
    requires same { walk.old.problem ≡ problem.now }
    requires leads { leads.now ≡ lead_table problem.now }
    requires numbers { IsNumbered problem.now numbers.now }
    requires steps { HasSteps problem.now touch.now }
    ensures same { walk.new.problem ≡ problem.now }
    ensures kept { IfOk result (λ kept. IsTrue kept ↔ Kept problem.now touch.now) }
{
    let Some(part) = valid_part(problem, touch) else {
        return Ok(false);
    };
    walk.go_to(part);
    is_numbered_touch_kept(alloc, problem, leads, numbers, &*walk)
}

// The part of a touch, where that is a valid node of which the touch is so many as the query has parts.
fn valid_part<'a>(problem: &Problem, touch: &'a Calling) -> Option<&'a [u8]>
    requires { HasSteps problem.now touch.now }
    ensures valid { IfSome result (λ part. IsValid problem.now part.now) }
    ensures whole { IfSome result (λ part. touch.now ≡ touch_of problem.now part.now) }
    ensures none { IfNone result (Kept problem.now touch.now → ⊥) }
{
    let _ = problem.stage();
    if is_in_parts(problem, touch) {
        Some(part_of(problem, touch))
    } else {
        None
    }
}

// The first of the equal words of a touch.
fn part_of<'a>(problem: &Problem, touch: &'a Calling) -> &'a [u8]
    ensures { result.now ≡ part_of problem.now touch.now }
{
    let steps = touch.steps();
    let parts = problem.parts() as usize;
    &steps[..steps.len() / parts]
}

// Whether a touch is as many equal words as the query has parts, and no longer than a touch may be.
fn is_in_parts(problem: &Problem, touch: &Calling) -> bool
    requires { HasSteps problem.now touch.now }
    ensures { IsTrue result ↔ (HasParts problem.now touch.now × (length_of problem.now touch.now ≤ cap problem.now)) }
{
    has_parts(problem, touch.steps()) && problem.length_of(touch) <= problem.cap()
}
