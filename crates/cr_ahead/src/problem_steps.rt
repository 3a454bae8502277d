//! The steps of a problem, by their numbers.

ghost use Rattle.std.specs.Prelude.{◌≡◌, ◌<◌, ◌≤◌, length, cond, nat_eq};
ghost use Rattle.cr_model.specs.Callings.{step_at, changes_at, lead_length, method_of, letter_of, mark_of};
ghost use Rattle.cr_ahead.specs.LeadMoves.{marked_gain, lettered_gain, changing_gain};

use cr_model::{Lead, Problem, Step};

/// The number of steps.
pub fn step_count(problem: &Problem) -> u8
    ensures is { result ≡ length problem.now.leads }
    ensures some { 0 < result }
    ensures few { result ≤ 24 }
{
    problem.leads().len() as u8
}

/// The number of changes of a step.
pub fn lead_length(problem: &Problem, step: u8) -> u8
    requires { step < length problem.now.leads }
    ensures is { result ≡ lead_length problem.now step }
    ensures some { 0 < result }
{
    length_at(problem.leads(), usize::from(step)) as u8
}

/// What a step adds to a count of a mark.
pub fn marked_gain(problem: &Problem, mark: u8, step: u8) -> u16
    requires { step < length problem.now.leads }
    ensures { result ≡ marked_gain problem.now mark step }
{
    if mark_of(problem, step) == mark { 1 } else { 0 }
}

/// What a step adds to a count of a method.
pub fn lettered_gain(problem: &Problem, letter: u8, step: u8) -> u16
    requires { step < length problem.now.leads }
    ensures { result ≡ lettered_gain problem.now letter step }
{
    if letter_of(problem, step) == letter {
        1
    } else {
        0
    }
}

/// What a step adds to the changes of method behind a lead of the last method, if there is one.
pub fn changing_gain(problem: &Problem, last: Option<u8>, step: u8) -> u16
    requires { step < length problem.now.leads }
    ensures is { result ≡ changing_gain problem.now last step }
    ensures few { result ≤ 1 }
{
    match last {
        Some(method) => differs(method, method_of(problem, step)),
        None => 0,
    }
}

// One where two methods differ, and else none.
fn differs(one: u8, other: u8) -> u16
    ensures is { result ≡ cond (nat_eq one other) 0 1 }
    ensures few { result ≤ 1 }
{
    if one == other { 0 } else { 1 }
}

/// The number of methods.
pub fn method_count(problem: &Problem) -> u8
    ensures is { result ≡ length problem.now.letters }
    ensures few { result ≤ 8 }
{
    problem.letters().len() as u8
}

/// The method of a step.
pub fn method_of(problem: &Problem, step: u8) -> u8
    requires { step < length problem.now.leads }
    ensures is { result ≡ method_of problem.now step }
    ensures known { result < length problem.now.letters }
{
    let Step { method, mark: _ } = step_at(problem.leads(), usize::from(step));
    method
}

// The mark of a step.
fn mark_of(problem: &Problem, step: u8) -> u8
    requires { step < length problem.now.leads }
    ensures { result ≡ mark_of problem.now step }
{
    step_at(problem.leads(), usize::from(step)).mark
}

// The letter of a step's method.
fn letter_of(problem: &Problem, step: u8) -> u8
    requires { step < length problem.now.leads }
    ensures { result ≡ letter_of problem.now step }
{
    problem.letters()[usize::from(method_of(problem, step))]
}

// The step of the lead at an index.
#[tactic(auto, using(cr_model::specs::Callings::step_at_is))]
fn step_at(leads: &[Lead], index: usize) -> Step
    requires { index < length leads.now }
    ensures { result ≡ step_at leads.now index }
{
    let lead = &leads[index];
    lead.step
}

// The number of changes of the lead at an index.
#[tactic(auto, using(cr_model::specs::Callings::changes_at_is))]
fn length_at(leads: &[Lead], index: usize) -> u64
    requires { index < length leads.now }
    ensures { result ≡ length (changes_at leads.now index) }
{
    let lead = &leads[index];
    lead.changes.len() as u64
}
