//! Numbers of rows: their places on a row stack that grows.

ghost use Rattle.std.specs.Prelude.{◌≡◌, ◌+◌, ◌<◌, ◌≤◌, length, IfOk, IfSome, IsNone};
ghost use Rattle.cr_path.specs.RungLeads.{HasNumber};

use crate::numbers::stopped::Stopped;
use cr_row::{NoMemory, Row};
use cr_rowset::{Pushed, RowStack};
use std::alloc::Global;

/// The number of a row, which is its place on the stack. A row that stands there nowhere yet is put last, and the stack
/// gets more room where it needs some. TooMany where it would have more rows than the most.
pub fn number(alloc: Global, rows: &mut RowStack, row: Row, most: u32) -> Result<u32, Stopped>
    ensures is { IfOk result (λ number. HasNumber rows.old.rows row number rows.new.rows) }
    ensures few { IfOk result (λ _. length rows.old.rows ≤ most → length rows.new.rows ≤ most) }
{
    match place(rows, row) {
        Some(place) => below(place, most),
        None => {
            *rows = with_more_room(alloc, rows, most)?;
            number_within(rows, row, most)
        }
    }
}

// The same where the stack gets no more room.
fn number_within(rows: &mut RowStack, row: Row, most: u32) -> Result<u32, Stopped>
    ensures is { IfOk result (λ number. HasNumber rows.old.rows row number rows.new.rows) }
    ensures few { IfOk result (λ _. length rows.old.rows ≤ most → length rows.new.rows ≤ most) }
{
    match place(rows, row) {
        Some(place) => below(place, most),
        None => Err(Stopped::TooMany),
    }
}

// The place of a row, where it is put if it stands nowhere yet. None where there is no room for it.
fn place(rows: &mut RowStack, row: Row) -> Option<u64>
    ensures some { IfSome result (λ place. HasNumber rows.old.rows row place rows.new.rows) }
    ensures few { IfSome result (λ place. length rows.new.rows ≤ length rows.old.rows + 1) }
    ensures last { IfSome result (λ place. length rows.old.rows < length rows.new.rows → place ≡ length rows.old.rows) }
    ensures none { IsNone result → rows.new.rows ≡ rows.old.rows }
{
    let len = rows.len();
    match rows.push(row) {
        Pushed::Fresh => Some(len),
        Pushed::Again(place) => Some(place),
        Pushed::Full => None,
    }
}

// A place as a number, if it is below the most.
fn below(place: u64, most: u32) -> Result<u32, Stopped>
    ensures { IfOk result (λ number. (number ≡ place) × (place < most)) }
{
    if place < u64::from(most) {
        Ok(place as u32)
    } else {
        Err(Stopped::TooMany)
    }
}

/// A place as a number of 32 bits. TooMany where it has more.
pub fn narrow(place: usize) -> Result<u32, Stopped>
    ensures { IfOk result (λ number. number ≡ place) }
{
    match u32::try_from(place) {
        Ok(number) => Ok(number),
        Err(_) => Err(Stopped::TooMany),
    }
}

/// The rows of a stack.
pub fn rows_of(alloc: Global, stack: &RowStack) -> Result<Vec<Row>, NoMemory>
    ensures { IfOk result (λ rows. rows.items ≡ stack.now.rows) }
{
    let mut rows = Vec::with_capacity(alloc, stack.len() as usize)?;
    for place in 0..stack.len() {
        rows.push(stack.row_at(place))?;
    }
    Ok(rows)
}

// The same rows in a stack with twice the room, or room for the most.
fn with_more_room(alloc: Global, rows: &RowStack, most: u32) -> Result<RowStack, Stopped>
    ensures { IfOk result (λ more. more.rows ≡ rows.now.rows) }
{
    let len = rows.len();
    let most = u64::from(most);
    if len >= most {
        return Err(Stopped::TooMany);
    }
    let mut more = RowStack::with_room(alloc, most.min(len.saturating_mul(2)))?;
    for place in 0..len {
        more.push(rows.row_at(place));
    }
    Ok(more)
}
