//! What a meter finds of its problem once.

ghost use Rattle.std.specs.Prelude.{◌≡◌, ◌<◌, ◌≤◌, ℕ, length, map, IfOk};
ghost use Rattle.cr_model.specs.Right.{FitsStage, pattern_at};
ghost use Rattle.cr_query.specs.Meters.{kinds_of, mark_gauge, letter_gauge, fitting_of};
ghost use Rattle.cr_query.specs.Tallies.{at_front, gauges_at, fitting_at, fittings_at};

use crate::fronts::Fronts;
use crate::kinds::{Kind, kind_of};
use crate::limits::{fewest, too_many};
use crate::pattern_limits::Fitting;
use crate::shape::Shape;
use crate::tallies::Tally;
use cr_model::{Count, MethodCount, Pattern, Problem};
use cr_row::{NoMemory, Stage};
use std::alloc::Global;

/// The kinds of the steps of a problem, by their numbers. Err where no memory is left.
pub fn kinds_of(alloc: Global, problem: &Problem) -> Result<Vec<Kind>, NoMemory>
    ensures { IfOk result (λ kinds. kinds.items ≡ kinds_of problem.now) }
{
    let number = step_count(problem);
    let mut kinds = Vec::with_capacity(alloc, usize::from(number))?;
    for step in 0..number {
        kinds.push(kind_of(problem, step))?;
    }
    Ok(kinds)
}

/// The number of steps.
pub fn step_count(problem: &Problem) -> u8
    ensures is { result ≡ length problem.now.leads }
    ensures few { result ≤ 24 }
{
    problem.leads().len() as u8
}

/// The limits of counts of marks in so many parts, at no leads. Err where no memory is left.
pub fn marks_of(alloc: Global, counts: &[Count], parts: u64) -> Result<Vec<Tally>, NoMemory>
    requires { 1 ≤ parts }
    ensures { IfOk result (λ tallies. gauges_at 0 tallies.items ≡ map (mark_gauge parts 0) counts.now) }
{
    let mut tallies = Vec::with_capacity(alloc, counts.len())?;
    for count in counts {
        tallies.push(mark_tally(alloc, *count, parts)?)?;
    }
    Ok(tallies)
}

fn mark_tally(alloc: Global, count: Count, parts: u64) -> Result<Tally, NoMemory>
    requires { 1 ≤ parts }
    ensures { IfOk result (λ tally. at_front 0 tally ≡ mark_gauge parts 0 count) }
{
    let numbers = Fronts::new(alloc)?;
    Ok(Tally {
        of: count.mark,
        least: fewest(parts, count.min),
        beyond: too_many(parts, count.max),
        numbers,
    })
}

/// The limits of counts of methods in so many parts, at no leads. Err where no memory is left.
pub fn letters_of(alloc: Global, counts: &[MethodCount], parts: u64) -> Result<Vec<Tally>, NoMemory>
    requires { 1 ≤ parts }
    ensures { IfOk result (λ tallies. gauges_at 0 tallies.items ≡ map (letter_gauge parts 0) counts.now) }
{
    let mut tallies = Vec::with_capacity(alloc, counts.len())?;
    for count in counts {
        tallies.push(letter_tally(alloc, *count, parts)?)?;
    }
    Ok(tallies)
}

fn letter_tally(alloc: Global, count: MethodCount, parts: u64) -> Result<Tally, NoMemory>
    requires { 1 ≤ parts }
    ensures { IfOk result (λ tally. at_front 0 tally ≡ letter_gauge parts 0 count) }
{
    let numbers = Fronts::new(alloc)?;
    Ok(Tally {
        of: count.letter,
        least: fewest(parts, count.min),
        beyond: too_many(parts, count.max),
        numbers,
    })
}

/// The shapes and limits of patterns of a stage, at no rows. Err where no memory is left.
pub fn fittings_of(
    alloc: Global,
    stage: Stage,
    patterns: &[Pattern],
) -> Result<Vec<Fitting>, NoMemory>
    requires cells { (i : ℕ) → i < length patterns.now → FitsStage stage (pattern_at patterns.now i).cells }
    ensures { IfOk result (λ fittings. fittings_at 0 fittings.items ≡ map (fitting_of stage 0) patterns.now) }
{
    let mut fittings = Vec::with_capacity(alloc, patterns.len())?;
    for index in 0..patterns.len() {
        fittings.push(fitting_of(alloc, stage, &patterns[index])?)?;
    }
    Ok(fittings)
}

fn fitting_of(alloc: Global, stage: Stage, pattern: &Pattern) -> Result<Fitting, NoMemory>
    requires { FitsStage stage pattern.now.cells }
    ensures { IfOk result (λ fitting. fitting_at 0 fitting ≡ fitting_of stage 0 pattern.now) }
{
    let shape = Shape::new(alloc, stage, &pattern.cells)?;
    let numbers = Fronts::new(alloc)?;
    Ok(Fitting {
        shape,
        min: pattern.min,
        max: pattern.max,
        numbers,
    })
}
