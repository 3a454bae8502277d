//! The check of the patterns.

ghost use Rattle.std.specs.Prelude.{◌≡◌, ◌≢◌, ℕ, ◌+◌, ◌<◌, ◌≤◌, ◌⊎◌, ◌↔◌, List, length, get_or, count_by, Some, IfSome, IsTrue};
ghost use Rattle.cr_model.specs.Checks.{TellsFirst};
ghost use Rattle.cr_model.specs.Right.{PatternIsRight, pattern_at, FitsStage, AreBellsOf, IsNamedFirst, CellsAreRight, bell_named, cell_at, is_run};

use crate::count_checks::limits_are_right;
use crate::limits::MOST_PATTERNS;
use crate::query::{Cell, Pattern};
use cr_row::Stage;

// The bell that a cell names.
fn named(cell: Cell) -> Option<u8>
    ensures { result ≡ bell_named cell }
{
    match cell {
        Cell::Bell(bell) => Some(bell),
        Cell::Any | Cell::Run => None,
    }
}

// Whether the bell that a cell names, if any, is one of the stage.
fn is_of_stage(stage: Stage, cell: Cell) -> bool
    ensures { IsTrue result ↔ IfSome (bell_named cell) (λ b. b ≤ stage) }
{
    match cell {
        Cell::Bell(bell) => bell <= stage.number(),
        Cell::Any | Cell::Run => true,
    }
}

// Whether each bell named is one of the stage.
fn bells_of_stage(stage: Stage, cells: &[Cell]) -> bool
    ensures { IsTrue result ↔ AreBellsOf stage cells.now }
{
    for index in 0..cells.len() {
        if !is_of_stage(stage, cells[index]) {
            return false;
        }
    }
    true
}

// Whether no earlier cell names the bell of the cell at the index.
fn is_named_first(cells: &[Cell], index: usize) -> bool
    requires { index < length cells.now }
    ensures { IsTrue result ↔ IsNamedFirst cells.now index }
{
    let Some(bell) = named(cells[index]) else {
        return true;
    };
    for earlier in 0..index {
        if named(cells[earlier]) == Some(bell) {
            return false;
        }
    }
    true
}

// Whether no bell is named twice.
fn bells_once(cells: &[Cell]) -> bool
    ensures { IsTrue result ↔ ((k : ℕ) → k < length cells.now → IsNamedFirst cells.now k) }
{
    for index in 0..cells.len() {
        if !is_named_first(cells, index) {
            return false;
        }
    }
    true
}

// How many cells stand for any number of bells.
fn runs(cells: &[Cell]) -> usize
    ensures is { result ≡ count_by is_run cells.now }
    ensures few { result ≤ length cells.now }
{
    let mut number = 0;
    for cell in cells {
        if matches!(cell, Cell::Run) {
            number += 1;
        }
    }
    number
}

// Whether there are as many cells as the stage takes.
fn fits_stage(stage: Stage, cells: &[Cell]) -> bool
    ensures { IsTrue result ↔ FitsStage stage cells.now }
{
    let bells = usize::from(stage.number());
    match runs(cells) {
        0 => cells.len() == bells,
        1 => cells.len() <= bells + 1,
        _ => false,
    }
}

// Whether the cells of a pattern are right.
fn cells_are_right(stage: Stage, cells: &[Cell]) -> bool
    ensures { IsTrue result ↔ CellsAreRight stage cells.now }
{
    fits_stage(stage, cells) && bells_of_stage(stage, cells) && bells_once(cells)
}

// Whether the pattern at an index is right.
fn pattern_is_right(stage: Stage, index: usize, pattern: &Pattern) -> bool
    ensures { IsTrue result ↔ PatternIsRight stage index pattern.now }
{
    index < MOST_PATTERNS
        && cells_are_right(stage, &pattern.cells)
        && limits_are_right(0, pattern.min, pattern.max)
}

/// The first pattern that is wrong.
pub fn wrong_pattern(stage: Stage, patterns: &[Pattern]) -> Option<u64>
    ensures { TellsFirst (λ i. PatternIsRight stage i (pattern_at patterns.now i)) (length patterns.now) result }
{
    for index in 0..patterns.len() {
        let pattern = &patterns[index];
        if !pattern_is_right(stage, index, pattern) {
            return Some(index as u64);
        }
    }
    None
}
