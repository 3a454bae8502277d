//! What the cells of a pattern fix.

ghost use Rattle.std.specs.Prelude.{◌≡◌, ◌+◌, ◌≤◌, ◌++◌, length, IfOk};
ghost use Rattle.cr_query.specs.Fixing.{fixed_at, place_after, fixed_from, HasRoom};

use cr_model::Cell;
use cr_row::{NoMemory, Stage};
use std::alloc::Global;

/// A bell at a place, which is counted from 0.
#[derive(Clone, Copy)]
pub struct Fixed {
    pub place: u8,
    pub bell: u8,
}

/// What the cells fix on rows of the stage. Err where no memory is left.
pub fn fixed_places(alloc: Global, stage: Stage, cells: &[Cell]) -> Result<Vec<Fixed>, NoMemory>
    requires { HasRoom stage 0 cells.now }
    ensures is { IfOk result (λ fixed. fixed.items ≡ fixed_from stage 0 cells.now) }
    ensures stage { stage ≤ 16 }
{
    let bells = stage.number();
    let mut fixed = Vec::with_capacity(alloc, cells.len())?;
    let mut place = 0;
    for index in 0..cells.len() {
        fix(&mut fixed, place, cells[index])?;
        place = next_place(bells, place, cells.len() - index - 1, cells[index]);
    }
    Ok(fixed)
}

// Appends what a cell fixes at a place.
fn fix(fixed: &mut Vec<Fixed>, place: u8, cell: Cell) -> Result<(), NoMemory>
    ensures { IfOk result (λ _. fixed.new.items ≡ fixed.old.items ++ fixed_at place cell) }
{
    if let Cell::Bell(bell) = cell {
        fixed.push(Fixed { place, bell })?;
    }
    Ok(())
}

// The place of the next cell, where so many cells are left.
fn next_place(bells: u8, place: u8, left: usize, cell: Cell) -> u8
    requires few { bells ≤ 16 }
    requires left { place + left ≤ bells }
    ensures { result ≡ place_after bells place left cell }
{
    match cell {
        Cell::Bell(_) | Cell::Any => place + 1,
        Cell::Run => bells - left as u8,
    }
}
