//! Lengths in units: the greatest number of changes of which each lead has a multiple.

ghost use Rattle.std.specs.Prelude.{◌≡◌, ℕ, ◌/◌, ◌%◌, ◌≤◌, ◌<◌, ◌↔◌, length, map, nat_abs, IsTrue, IfOk};
ghost use Rattle.std.specs.List.{range_with_len};
ghost use Rattle.cr_model.specs.Callings.{lead_length};
ghost use Rattle.cr_model.specs.Queries.{part_cap};
ghost use Rattle.cr_ahead.specs.LeadMoves.{part_least};
ghost use Rattle.cr_ahead.specs.Units.{IsUnit, units_for, units_in, IsRange};

use crate::problem_steps::{lead_length, step_count};
use cr_model::Problem;
use cr_row::NoMemory;
use std::alloc::Global;

/// How many changes a unit of length has, and how many units a part has at least and at most.
#[derive(Clone, Copy)]
pub struct Range {
    pub unit: u32,
    pub least: u16,
    pub greatest: u16,
}

/// How long a part of a problem's touches may be.
pub fn range_of(problem: &Problem) -> Range
    ensures { IsRange problem.now result.unit result.least result.greatest }
{
    let unit = unit_of(problem);
    Range {
        unit,
        least: least_units(problem, unit),
        greatest: greatest_units(problem, unit),
    }
}

/// How many units each step has. Err where no memory is left.
pub fn lengths_in_units(alloc: Global, problem: &Problem, unit: u32) -> Result<Vec<u16>, NoMemory>
    requires { IsUnit problem.now unit }
    ensures { IfOk result (λ lengths.
        lengths.items ≡ map (λ step. lead_length problem.now step / unit) (range_with_len 0 (length problem.now.leads))) }
{
    let steps = step_count(problem);
    let mut lengths = Vec::with_capacity(alloc, usize::from(steps))?;
    for step in 0..steps {
        lengths.push(units_of(problem, unit, step))?;
    }
    Ok(lengths)
}

// How many units a step has.
fn units_of(problem: &Problem, unit: u32, step: u8) -> u16
    requires unit { 0 < unit }
    requires step { step < length problem.now.leads }
    ensures { result ≡ lead_length problem.now step / unit }
{
    (u32::from(lead_length(problem, step)) / unit) as u16
}

// The least length of a part, in units.
fn least_units(problem: &Problem, unit: u32) -> u16
    requires { 0 < unit }
    ensures { result ≡ units_for unit (part_least problem.now) }
{
    let unit = u64::from(unit);
    ((part_least(problem) + unit - 1) / unit) as u16
}

// The least length of a part.
fn part_least(problem: &Problem) -> u64
    ensures is { result ≡ part_least problem.now }
    ensures few { result ≤ 12000 }
{
    let parts = problem.parts();
    (least_length(problem) + parts - 1) / parts
}

// The least length of a touch.
fn least_length(problem: &Problem) -> u64
    ensures is { result ≡ nat_abs problem.now.query.min }
    ensures few { result ≤ 12000 }
{
    problem.query().min.unsigned_abs()
}

// The greatest length of a part, in units.
fn greatest_units(problem: &Problem, unit: u32) -> u16
    requires { 0 < unit }
    ensures { result ≡ units_in unit (part_cap problem.now) }
{
    let _ = problem.stage();
    (problem.part_cap() / u64::from(unit)) as u16
}

// The unit. It is safe to be less than the greatest that there is: only room is lost.
fn unit_of(problem: &Problem) -> u32
    ensures { IsUnit problem.now result }
{
    let unit = common_length(problem);
    if is_unit(problem, unit) { unit } else { 1 }
}

// The greatest number of changes of which each lead has a multiple.
fn common_length(problem: &Problem) -> u32 {
    let mut common = 0;
    for step in 0..step_count(problem) {
        common = common_divisor(common, u32::from(lead_length(problem, step)));
    }
    common
}

// The greatest number of which both are multiples.
fn common_divisor(one: u32, other: u32) -> u32 {
    let mut divisor = one;
    let mut rest = other;
    while rest > 0 {
        let next = divisor % rest;
        divisor = rest;
        rest = next;
    }
    divisor
}

// Whether each lead has a multiple of so many changes.
fn is_unit(problem: &Problem, unit: u32) -> bool
    ensures { IsTrue result → IsUnit problem.now unit }
{
    if unit == 0 {
        return false;
    }
    for step in 0..step_count(problem) {
        if u32::from(lead_length(problem, step)) % unit != 0 {
            return false;
        }
    }
    true
}
