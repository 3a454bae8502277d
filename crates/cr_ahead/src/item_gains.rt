//! What the steps gain from each head, item by item.

ghost use Rattle.std.specs.Prelude.{◌≡◌, ℕ, ◌<◌, ◌≤◌, List, [], length, get_or, All, IfOk};
ghost use Rattle.cr_model.specs.declared.query.Cell.{Cell};
ghost use Rattle.cr_model.specs.Problems.{ProblemParts};
ghost use Rattle.cr_model.specs.Right.{FitsStage};
ghost use Rattle.cr_leads.specs.Tables.{lead_table};
ghost use Rattle.cr_query.specs.Shapes.{shape_of};
ghost use Rattle.cr_ahead.specs.LeadMoves.{marked_gain, lettered_gain, fitting_gain};
ghost use Rattle.cr_ahead.specs.Gaining.{gains_from};

use crate::problem_steps::{lettered_gain, marked_gain, step_count};
use cr_leads::LeadTable;
use cr_model::laws::a_lead_rung_from_a_row;
use cr_model::{Cell, Problem};
use cr_query::Shape;
use cr_row::{NoMemory, Row};
use std::alloc::Global;

/// What each step adds to a count of a mark, from so many heads. Err where no memory is left.
pub fn marked_gains(
    alloc: Global,
    problem: &Problem,
    heads: usize,
    mark: u8,
) -> Result<Vec<u16>, NoMemory>
    requires { heads ≤ 4294967296 }
    ensures { IfOk result (λ gains.
        gains.items ≡ gains_from heads (length problem.now.leads) (λ place step. marked_gain problem.now mark step)) }
{
    let steps = usize::from(step_count(problem));
    let entries = heads * steps;
    let mut gains = Vec::with_capacity(alloc, entries)?;
    for entry in 0..entries {
        gains.push(marked_gain(problem, mark, (entry % steps) as u8))?;
    }
    Ok(gains)
}

/// What each step adds to a count of a method, from so many heads. Err where no memory is left.
pub fn lettered_gains(
    alloc: Global,
    problem: &Problem,
    heads: usize,
    letter: u8,
) -> Result<Vec<u16>, NoMemory>
    requires { heads ≤ 4294967296 }
    ensures { IfOk result (λ gains.
        gains.items ≡ gains_from heads (length problem.now.leads) (λ place step. lettered_gain problem.now letter step)) }
{
    let steps = usize::from(step_count(problem));
    let entries = heads * steps;
    let mut gains = Vec::with_capacity(alloc, entries)?;
    for entry in 0..entries {
        gains.push(lettered_gain(problem, letter, (entry % steps) as u8))?;
    }
    Ok(gains)
}

/// How many rows of each step, rung from each head, fit the cells of a pattern. Err where no memory is left.
pub fn fitting_gains(
    alloc: Global,
    problem: &Problem,
    leads: &LeadTable,
    heads: &[Row],
    cells: &[Cell],
) -> Result<Vec<u16>, NoMemory>
    requires few { length heads.now ≤ 4294967296 }
    requires staged { All (λ head. length head ≡ problem.now.stage) heads.now }
    requires leads { leads.now ≡ lead_table problem.now }
    requires cells { FitsStage problem.now.stage cells.now }
    ensures { IfOk result (λ gains. gains.items
        ≡ gains_from (length heads.now) (length problem.now.leads) (λ place step. fitting_gain problem.now cells.now (get_or heads.now place []) step)) }
{
    let shape = Shape::new(alloc, problem.stage(), cells)?;
    let steps = usize::from(step_count(problem));
    let entries = heads.len() * steps;
    let mut gains = Vec::with_capacity(alloc, entries)?;
    for entry in 0..entries {
        let head = &heads[entry / steps];
        gains.push(fitting_gain(leads, &shape, head, (entry % steps) as u8))?;
    }
    Ok(gains)
}

// How many rows of a step, rung from a head, fit the cells of a shape.
fn fitting_gain(leads: &LeadTable, shape: &Shape, head: &Row, step: u8) -> u16
    requires step { step < length leads.now.leads }
    requires shape { shape.now.stage ≡ leads.now.stage }
    requires head { length head.now ≡ leads.now.stage }
    ensures { (p : ProblemParts) (cells : List Cell) → leads.now ≡ lead_table p → FitsStage p.stage cells → shape.now ≡ shape_of p.stage cells
        → result ≡ fitting_gain p cells head.now step }
{
    a_lead_rung_from_a_row();
    shape.count_lead(head, leads.rows_of(step)) as u16
}
