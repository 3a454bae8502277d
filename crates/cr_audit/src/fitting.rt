//! How many rows fit each pattern.

ghost use Rattle.std.specs.Prelude.{◌≡◌, ◌<◌, ◌≤◌, [], length, get_or, take, drop, All, IfOk};
ghost use Rattle.cr_model.specs.Callings.{rows_from, rows_of};
ghost use Rattle.cr_model.specs.Queries.{rows_fitting};
ghost use Rattle.cr_model.specs.Right.{pattern_at};
ghost use Rattle.cr_audit.specs.Paths.{AreFitting, fitting_of, front};

use crate::counting::{rows_fitting, rung_fitting};
use crate::judging::{pattern_at, patterns_of};
use crate::path::Path;
use cr_model::{Pattern, Problem};
use cr_row::{Change, NoMemory, Row};
use std::alloc::Global;
use std::marker::Model;

/// How many rows of a node fit each pattern.
#[derive(Drop)]
pub struct Fitting {
    numbers: Vec<u64>,
}

impl Model for Fitting {
    ghost use Rattle.std.specs.Prelude.{ℕ, List};

    ghost Value = { List ℕ };

    ghost view = { λ fitting. fitting.numbers.items };
}

impl Fitting {
    // The number of a pattern.
    fn of(&self, index: usize) -> u64
        requires { index < length self.now }
        ensures { result ≡ get_or self.now index 0 }
    {
        self.numbers[index]
    }
}

/// How many rows fit a pattern of those before the last lead.
pub fn fitting_before(problem: &Problem, path: &Path, index: usize) -> u64
    requires fitting { AreFitting problem.now path.now.node.items (length path.now.node.items) path.now.fitting.items }
    requires index { index < length problem.now.query.patterns }
    ensures { result ≡ rows_fitting (pattern_at problem.now.query.patterns index).cells (rows_of problem.now (front path.now.node.items)) }
{
    let _ = problem.stage();
    match path.fitting.last() {
        Some(fitting) => fitting.of(index),
        None => 0,
    }
}

/// How many rows fit each pattern, where so many of them stand before the last lead.
pub fn count_rung(
    alloc: Global,
    problem: &Problem,
    path: &Path,
    before: usize,
) -> Result<Fitting, NoMemory>
    requires fitting { AreFitting problem.now path.now.node.items (length path.now.node.items) path.now.fitting.items }
    requires rows { path.now.rows.items ≡ rows_of problem.now path.now.node.items }
    requires within { before ≤ length path.now.rows.items }
    requires before { take before path.now.rows.items ≡ rows_of problem.now (front path.now.node.items) }
    ensures { IfOk result (λ fitting. fitting ≡ fitting_of problem.now path.now.node.items) }
{
    let patterns = patterns_of(problem.query());
    let mut numbers = Vec::with_capacity(alloc, patterns.len())?;
    for index in 0..patterns.len() {
        let pattern = pattern_at(patterns, index);
        let rung = fitting_behind(pattern, &path.rows, before);
        numbers.push(fitting_before(problem, path, index) + rung)?;
    }
    Ok(Fitting { numbers })
}

// How many of the rows from a place on fit a pattern.
fn fitting_behind(pattern: &Pattern, rows: &[Row], before: usize) -> u64
    requires { before ≤ length rows.now }
    ensures { result ≡ rows_fitting pattern.now.cells (drop before rows.now) }
{
    fitting_in(pattern, &rows[before..])
}

/// How many rows fit a pattern.
pub fn fitting_in(pattern: &Pattern, rows: &[Row]) -> u64
    ensures { result ≡ rows_fitting pattern.now.cells rows.now }
{
    rows_fitting(&pattern.cells, rows)
}

/// How many rows fit a pattern, of those that the changes give from a row.
pub fn fitting_rung(pattern: &Pattern, from: Row, changes: &[Change]) -> u64
    requires { All (λ change. change.stage ≡ length from) changes.now }
    ensures { result ≡ rows_fitting pattern.now.cells (rows_from from changes.now) }
{
    rung_fitting(&pattern.cells, from, changes)
}
