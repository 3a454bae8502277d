//! What a query counts of leads and of rows.

ghost use Rattle.std.specs.Prelude.{◌≡◌, ◌+◌, ◌<◌, ◌≤◌, ◌^◌, not, nat_eq, ℕ, List, length, get_or, drop, All};
ghost use Rattle.cr_model.specs.Problems.{ProblemParts};
ghost use Rattle.cr_model.specs.Callings.{letter_of, mark_of, method_of, HasSteps, rows_from};
ghost use Rattle.cr_model.specs.Queries.{leads_marked, leads_lettered, changes_of_method, rows_fitting, fits};
ghost use Rattle.cr_model.specs.Sizes.{child};
ghost use Rattle.cr_audit.specs.Paths.{AreTaken, front};

use crate::path::Path;
use crate::writing::step_of;
use cr_model::{Cell, Problem};
use cr_row::{Change, Row};

/// One more of a step.
pub fn add_step(taken: &mut [u64], step: u8)
    requires step { step < length taken.old }
    requires few { get_or taken.old step 0 + 1 < 2 ^ 64 }
    ensures { (p : ProblemParts) (node : List ℕ) → AreTaken p node taken.old → AreTaken p (child node step) taken.new }
{
    taken[usize::from(step)] += 1;
}

/// One fewer of a step.
pub fn remove_step(taken: &mut [u64], step: u8)
    requires step { step < length taken.old }
    requires some { 1 ≤ get_or taken.old step 0 }
    ensures { (p : ProblemParts) (node : List ℕ) → AreTaken p (child node step) taken.old → AreTaken p node taken.new }
{
    taken[usize::from(step)] -= 1;
}

/// How many leads of the path's node have the mark.
pub fn marked(problem: &Problem, path: &Path, mark: u8) -> u64
    requires known { HasSteps problem.now path.now.node.items }
    requires taken { AreTaken problem.now path.now.node.items path.now.taken.items }
    ensures { result ≡ leads_marked problem.now mark path.now.node.items }
{
    let mut number = 0;
    for step in 0..problem.leads().len() {
        if mark_at(problem, step as u8) == mark {
            number += path.taken[step];
        }
    }
    number
}

/// How many leads of the path's node are of the method with the letter.
pub fn lettered(problem: &Problem, path: &Path, letter: u8) -> u64
    requires known { HasSteps problem.now path.now.node.items }
    requires taken { AreTaken problem.now path.now.node.items path.now.taken.items }
    ensures { result ≡ leads_lettered problem.now letter path.now.node.items }
{
    let mut number = 0;
    for step in 0..problem.leads().len() {
        if letter_at(problem, step as u8) == letter {
            number += path.taken[step];
        }
    }
    number
}

// The mark of a step.
fn mark_at(problem: &Problem, step: u8) -> u8
    requires { step < length problem.now.leads }
    ensures { result ≡ mark_of problem.now step }
{
    step_of(problem, step).mark
}

// The letter of a step's method.
fn letter_at(problem: &Problem, step: u8) -> u8
    requires { step < length problem.now.leads }
    ensures { result ≡ letter_of problem.now step }
{
    problem.letters()[usize::from(step_of(problem, step).method)]
}

/// One where the last lead of some steps is of another method than the one before it, and else none.
pub fn change_at_end(problem: &Problem, steps: &[u8]) -> u64
    requires { HasSteps problem.now steps.now }
    ensures { changes_of_method problem.now (front steps.now) + result ≡ changes_of_method problem.now steps.now }
{
    let number = steps.len();
    if number >= 2 && differ(problem, steps[number - 2], steps[number - 1]) {
        1
    } else {
        0
    }
}

// Whether two steps are of different methods.
fn differ(problem: &Problem, before: u8, step: u8) -> bool
    requires before { before < length problem.now.leads }
    requires step { step < length problem.now.leads }
    ensures { result ≡ not (nat_eq (method_of problem.now before) (method_of problem.now step)) }
{
    step_of(problem, before).method != step_of(problem, step).method
}

/// How often the method changes from one lead to the next.
pub fn changes_of_method(problem: &Problem, steps: &[u8]) -> u64
    requires { HasSteps problem.now steps.now }
    ensures { result ≡ changes_of_method problem.now steps.now }
{
    let mut number = 0;
    for index in 0..steps.len() {
        number += change_at_end(problem, &steps[..index + 1]);
    }
    number
}

/// How many rows fit the cells.
pub fn rows_fitting(cells: &[Cell], rows: &[Row]) -> u64
    ensures { result ≡ rows_fitting cells.now rows.now }
{
    let mut number = 0;
    for row in rows {
        if fits(cells, row, 0) {
            number += 1;
        }
    }
    number
}

/// How many rows fit the cells, of those that the changes give from a row.
pub fn rung_fitting(cells: &[Cell], from: Row, changes: &[Change]) -> u64
    requires { All (λ change. change.stage ≡ length from) changes.now }
    ensures { result ≡ rows_fitting cells.now (rows_from from changes.now) }
{
    let mut number = 0;
    let mut row = from;
    for change in changes {
        row = row.then(change);
        if fits(cells, &row, 0) {
            number += 1;
        }
    }
    number
}

// Whether cells fit the bells of a row from a place on, counted from 0.
fn fits(cells: &[Cell], row: &Row, place: u8) -> bool
    requires { place ≤ length row.now }
    ensures { result ≡ fits cells.now (drop place row.now) }
{
    let stage = row.stage().number();
    let Some((cell, others)) = cells.split_first() else {
        return place == stage;
    };
    match *cell {
        Cell::Bell(bell) => {
            place < stage && row.bell_at(place + 1) == bell && fits(others, row, place + 1)
        }
        Cell::Any => place < stage && fits(others, row, place + 1),
        Cell::Run => {
            for number in place..stage + 1 {
                if fits(others, row, number) {
                    return true;
                }
            }
            false
        }
    }
}
