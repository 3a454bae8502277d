//! The check of the leads.

ghost use Rattle.std.specs.Prelude.{◌≡◌, ◌≢◌, ℕ, ◌+◌, ◌-◌, ◌<◌, ◌≤◌, ◌⊎◌, ◌↔◌, List, length, All, IsTrue, MatchOption};
ghost use Rattle.cr_row.specs.Rows.{IsChange};
ghost use Rattle.cr_model.specs.Callings.{step_at, changes_at};
ghost use Rattle.cr_model.specs.Right.{AreOfStage, IsNextStep, StepIsRight, LeadIsRight, LeadsAreRight};
ghost use Rattle.cr_model.specs.Faults.{LeadsWrongAt};

use crate::lead::{Lead, PLAIN, Step};
use crate::limits::MOST_LEAD_CHANGES;
use cr_row::{Change, Stage};

// Whether the second step follows the first.
fn is_next(before: Step, step: Step) -> bool
    ensures { IsTrue result ↔ IsNextStep before step }
{
    if step.method == before.method {
        step.mark != PLAIN && (before.mark == PLAIN || before.mark < step.mark)
    } else {
        step.method > 0 && step.method - 1 == before.method && step.mark == PLAIN
    }
}

// The step of the lead at an index.
#[tactic(auto, using(crate::specs::Callings::step_at_is))]
pub fn step_at(leads: &[Lead], index: usize) -> Step
    requires { index < length leads.now }
    ensures { result ≡ step_at leads.now index }
{
    let lead = &leads[index];
    lead.step
}

// Whether the step at an index is the next one.
fn step_is_right(leads: &[Lead], index: usize) -> bool
    requires { index < length leads.now }
    ensures { IsTrue result ↔ StepIsRight leads.now index }
{
    let step = step_at(leads, index);
    if index == 0 {
        step.method == 0 && step.mark == PLAIN
    } else {
        is_next(step_at(leads, index - 1), step)
    }
}

// Whether a change is one of the stage. That it is a change is known of each.
fn is_of(stage: Stage, change: &Change) -> bool
    ensures { IsTrue result ↔ ((change.now.stage ≡ stage) × IsChange change.now) }
{
    change.stage() == stage
}

// Whether there are changes, no more than a lead may have, all of the stage.
fn changes_are_right(stage: Stage, changes: &[Change]) -> bool
    ensures { IsTrue result ↔ AreOfStage stage changes.now }
{
    1 <= changes.len()
        && changes.len() <= MOST_LEAD_CHANGES
        && changes.iter().all(|change| is_of(stage, change))
}

// Whether the lead at an index is right.
#[tactic(auto, using(crate::specs::Callings::changes_at_is))]
fn lead_is_right(stage: Stage, methods: usize, leads: &[Lead], index: usize) -> bool
    requires { index < length leads.now }
    ensures { IsTrue result ↔ LeadIsRight stage methods leads.now index }
{
    let step = step_at(leads, index);
    let lead = &leads[index];
    changes_are_right(stage, &lead.changes)
        && b'a' <= step.mark
        && step.mark <= b'z'
        && usize::from(step.method) < methods
        && step_is_right(leads, index)
}

// How many methods have a lead, where the steps are in order.
fn methods_led(leads: &[Lead]) -> usize
    ensures none { length leads.now ≡ 0 → result ≡ 0 }
    ensures last { 0 < length leads.now → result ≡ (step_at leads.now (length leads.now - 1)).method + 1 }
{
    if leads.is_empty() {
        0
    } else {
        usize::from(step_at(leads, leads.len() - 1).method) + 1
    }
}

/// The first lead that is wrong, or the number of leads where a method has none.
pub fn wrong_lead(stage: Stage, methods: usize, leads: &[Lead]) -> Option<u64>
    requires { 0 < methods }
    ensures { MatchOption result
        (LeadsAreRight stage methods leads.now) (LeadsWrongAt stage methods leads.now) }
{
    for index in 0..leads.len() {
        if !lead_is_right(stage, methods, leads, index) {
            return Some(index as u64);
        }
    }
    if methods_led(leads) < methods {
        Some(leads.len() as u64)
    } else {
        None
    }
}
