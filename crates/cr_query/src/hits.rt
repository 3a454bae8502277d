//! Which steps each limit counts.

ghost use Rattle.std.specs.Prelude.{◌≡◌, ◌<◌, ℕ, true, nat_eq, length, map, IfOk, IfSome};
ghost use Rattle.cr_model.specs.Callings.{mark_of, letter_of, lead_length};
ghost use Rattle.cr_query.specs.Hits.{mark_steps, letter_steps, AreAlike, AreHits};
ghost use Rattle.cr_query.specs.Sets.{steps_of};

use crate::compiling::step_count;
use crate::kinds::kind_of;
use crate::meeting::{com_of, counts_of, method_counts_of};
use crate::step_sets::with_step;
use cr_model::{Count, MethodCount, Problem};
use cr_row::NoMemory;
use std::alloc::Global;

/// Of each count the set of steps that it counts, and the number of changes that all steps have, if they have the same
/// and there are no limits on changes of method.
#[derive(Drop)]
pub struct Hits {
    pub marks: Vec<u32>,
    pub letters: Vec<u32>,
    pub length: Option<u8>,
}

/// Those of a problem. Err where no memory is left.
pub fn hits_of(alloc: Global, problem: &Problem) -> Result<Hits, NoMemory>
    ensures { IfOk result (λ hits. AreHits problem.now hits) }
{
    let query = problem.query();
    let marks = marks_of(alloc, problem, counts_of(query))?;
    let letters = letters_of(alloc, problem, method_counts_of(query))?;
    let length = length_of_all(problem);
    Ok(Hits {
        marks,
        letters,
        length,
    })
}

fn marks_of(alloc: Global, problem: &Problem, counts: &[Count]) -> Result<Vec<u32>, NoMemory>
    ensures { IfOk result (λ sets. sets.items ≡ map (mark_steps problem.now) counts.now) }
{
    let mut sets = Vec::with_capacity(alloc, counts.len())?;
    for count in counts {
        sets.push(marked_steps(problem, count.mark))?;
    }
    Ok(sets)
}

fn letters_of(
    alloc: Global,
    problem: &Problem,
    counts: &[MethodCount],
) -> Result<Vec<u32>, NoMemory>
    ensures { IfOk result (λ sets. sets.items ≡ map (letter_steps problem.now) counts.now) }
{
    let mut sets = Vec::with_capacity(alloc, counts.len())?;
    for count in counts {
        sets.push(lettered_steps(problem, count.letter))?;
    }
    Ok(sets)
}

// The steps with a mark.
fn marked_steps(problem: &Problem, mark: u8) -> u32
    ensures { result ≡ steps_of (λ step. nat_eq (mark_of problem.now step) mark) (length problem.now.leads) }
{
    let mut set = 0;
    for step in 0..step_count(problem) {
        set = with_step(set, step, kind_of(problem, step).mark == mark);
    }
    set
}

// The steps of the method with a letter.
fn lettered_steps(problem: &Problem, letter: u8) -> u32
    ensures { result ≡ steps_of (λ step. nat_eq (letter_of problem.now step) letter) (length problem.now.leads) }
{
    let mut set = 0;
    for step in 0..step_count(problem) {
        set = with_step(set, step, kind_of(problem, step).letter == letter);
    }
    set
}

// How many changes each step has, if all have the same and there are no limits on changes of method.
fn length_of_all(problem: &Problem) -> Option<u8>
    ensures { IfSome result (λ number. AreAlike problem.now number) }
{
    if com_of(problem.query()).is_some() {
        return None;
    }
    if step_count(problem) == 0 {
        return None;
    }
    let number = kind_of(problem, 0).length;
    if have_length(problem, number) {
        Some(number)
    } else {
        None
    }
}

// Whether each step has so many changes.
fn have_length(problem: &Problem, number: u8) -> bool
    ensures { result ≡ true → (step : ℕ) → step < length problem.now.leads → lead_length problem.now step ≡ number }
{
    for step in 0..step_count(problem) {
        if kind_of(problem, step).length != number {
            return false;
        }
    }
    true
}
