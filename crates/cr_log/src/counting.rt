//! What a query counts of a node: leads by mark and by method, changes of method, and rows that fit.

ghost use Rattle.std.specs.Prelude.{◌≡◌, ◌<◌, ◌≤◌, cond, nat_eq, List, length, All};
ghost use Rattle.cr_model.specs.declared.query.Cell.{Cell};
ghost use Rattle.cr_model.specs.Callings.{step_at, step_of as step_numbered, method_of, letter_of, HasSteps};
ghost use Rattle.cr_model.specs.Queries.{leads_marked, leads_lettered, changes_of_method, rows_fitting};
ghost use Rattle.cr_model.specs.Right.{FitsStage};
ghost use Rattle.cr_query.specs.Shapes.{shape_of};

use cr_model::{Lead, Problem, Step};
use cr_query::Shape;
use cr_rowset::RowStack;

/// How many leads have the mark.
pub fn leads_marked(problem: &Problem, steps: &[u8], mark: u8) -> u64
    requires { HasSteps problem.now steps.now }
    ensures is { result ≡ leads_marked problem.now mark steps.now }
    ensures few { result ≤ length steps.now }
{
    let mut number = 0;
    for step in steps {
        if step_of(problem, *step).mark == mark {
            number += 1;
        }
    }
    number
}

/// How many leads are of the method with the letter.
pub fn leads_lettered(problem: &Problem, steps: &[u8], letter: u8) -> u64
    requires { HasSteps problem.now steps.now }
    ensures is { result ≡ leads_lettered problem.now letter steps.now }
    ensures few { result ≤ length steps.now }
{
    let mut number = 0;
    for step in steps {
        if letter_of(problem, *step) == letter {
            number += 1;
        }
    }
    number
}

/// How often the method changes from one lead to the next.
pub fn changes_of_method(problem: &Problem, steps: &[u8]) -> u64
    requires { HasSteps problem.now steps.now }
    ensures is { result ≡ changes_of_method problem.now steps.now }
    ensures few { result ≤ length steps.now }
{
    let mut number = 0;
    for index in 1..steps.len() {
        number += changes(problem, steps[index - 1], steps[index]);
    }
    number
}

// One where two steps are of different methods, and else none.
fn changes(problem: &Problem, before: u8, step: u8) -> u64
    requires before { before < length problem.now.leads }
    requires step { step < length problem.now.leads }
    ensures is { result ≡ cond (nat_eq (method_of problem.now before) (method_of problem.now step)) 0 1 }
    ensures few { result ≤ 1 }
{
    if step_of(problem, before).method == step_of(problem, step).method {
        0
    } else {
        1
    }
}

// The letter of a step's method.
fn letter_of(problem: &Problem, step: u8) -> u8
    requires { step < length problem.now.leads }
    ensures { result ≡ letter_of problem.now step }
{
    let method = step_of(problem, step).method;
    problem.letters()[usize::from(method)]
}

// The step of a number.
fn step_of(problem: &Problem, step: u8) -> Step
    requires { step < length problem.now.leads }
    ensures is { result ≡ step_numbered problem.now step }
    ensures known { result.method < length problem.now.letters }
{
    step_at(problem.leads(), step)
}

// The step of the lead with this number.
#[tactic(auto, using(cr_model::specs::Callings::step_at_is))]
fn step_at(leads: &[Lead], step: u8) -> Step
    requires { step < length leads.now }
    ensures { result ≡ step_at leads.now step }
{
    let lead = &leads[usize::from(step)];
    lead.step
}

/// How many rows on a stack fit the cells of a pattern's shape.
pub fn rows_fitting(rows: &RowStack, shape: &Shape) -> u64
    requires { All (λ row. length row ≡ shape.now.stage) rows.now.rows }
    ensures is { (cells : List Cell) → FitsStage shape.now.stage cells → shape.now ≡ shape_of shape.now.stage cells
        → result ≡ rows_fitting cells rows.now.rows }
    ensures few { result ≤ length rows.now.rows }
{
    let mut number = 0;
    for place in 0..rows.len() {
        if shape.fits(&rows.row_at(place)) {
            number += 1;
        }
    }
    number
}
