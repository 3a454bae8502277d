//! The rows of a table, from the greatest length down.

ghost use Rattle.std.specs.Prelude.{◌≡◌, ℕ, ◌+◌, ◌-◌, ◌*◌, ◌<◌, ◌≤◌, length, IfOk};
ghost use Rattle.cr_ahead.specs.Moves.{places_of, steps_of};
ghost use Rattle.cr_ahead.specs.Ways.{IsAnswer};
ghost use Rattle.cr_ahead.specs.Cells.{told_by, IsCell};
ghost use Rattle.cr_ahead.specs.Rows.{IsFew, AreFew, AreRight, BeginsWith, IsAnswerOf, IsStay};

use crate::gains::{Gains, NO_WAYS, joined, raised};
use crate::moves::Moves;
use cr_row::NoMemory;

/// Appends a row of cells, for a part that may be so much longer. It takes what it needs from the rows above it alone.
pub fn push_row(
    cells: &mut Vec<Gains>,
    moves: &Moves,
    least: u16,
    greatest: u16,
    left: usize,
) -> Result<(), NoMemory>
    requires left { left ≤ greatest }
    requires counted { length cells.old.items ≡ left * places_of moves.now }
    requires few { AreFew (places_of moves.now) cells.old.items }
    requires right { AreRight moves.now least greatest cells.old.items }
    ensures counted { IfOk result (λ _. length cells.new.items ≡ (left + 1) * places_of moves.now) }
    ensures few { IfOk result (λ _. AreFew (places_of moves.now) cells.new.items) }
    ensures right { IfOk result (λ _. AreRight moves.now least greatest cells.new.items) }
{
    for place in 0..moves.places() {
        let cell = cell_from(moves, cells, least, greatest, left, place);
        cells.push(cell)?;
    }
    Ok(())
}

// The cell of a place: what the ways from there gain.
#[inline(always)]
fn cell_from(
    moves: &Moves,
    cells: &[Gains],
    least: u16,
    greatest: u16,
    left: usize,
    place: usize,
) -> Gains
    requires left { left ≤ greatest }
    requires place { place < places_of moves.now }
    requires counted { left * places_of moves.now ≤ length cells.now }
    requires few { AreFew (places_of moves.now) cells.now }
    requires right { AreRight moves.now least greatest cells.now }
    ensures cell { IsCell result }
    ensures few { IsFew left (told_by result) }
    ensures is { IsAnswer moves.now least greatest place (greatest - left) (told_by result) }
{
    let mut cell = stay(moves, least, greatest, left, place);
    for step in 0..moves.steps() {
        cell = joined(cell, cell_by(moves, cells, left, place, step));
    }
    cell
}

// The cell of the way without steps, if it is one.
#[inline(always)]
fn stay(moves: &Moves, least: u16, greatest: u16, left: usize, place: usize) -> Gains
    requires left { left ≤ greatest }
    requires place { place < places_of moves.now }
    ensures cell { IsCell result }
    ensures is { IsStay moves.now least greatest left place (told_by result) }
{
    if moves.is_end(place) && usize::from(least) + left <= usize::from(greatest) {
        return Gains {
            least: 0,
            greatest: 0,
        };
    }
    NO_WAYS
}

// The cell of the ways from a place that begin with a step.
#[inline(always)]
fn cell_by(moves: &Moves, cells: &[Gains], left: usize, place: usize, step: usize) -> Gains
    requires left { left ≤ 65535 }
    requires place { place < places_of moves.now }
    requires step { step < steps_of moves.now }
    requires counted { left * places_of moves.now ≤ length cells.now }
    requires few { AreFew (places_of moves.now) cells.now }
    ensures cell { IsCell result }
    ensures few { IsFew left (told_by result) }
    ensures is { (least greatest : ℕ) → left ≤ greatest → AreRight moves.now least greatest cells.now
        → IsAnswerOf moves.now least greatest place (greatest - left) (BeginsWith step) (told_by result) }
{
    let length = usize::from(moves.length(step));
    if length > left {
        return NO_WAYS;
    }
    let row = (left - length) * moves.places();
    let later = cells[row + moves.next(place, step)];
    raised(u32::from(moves.gain(place, step)), later)
}
