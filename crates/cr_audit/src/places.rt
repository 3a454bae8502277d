//! The rows of the path's node by their places, of which those of the last lead are not rung yet.

ghost use Rattle.std.specs.Prelude.{◌≡◌, ◌+◌, ◌-◌, ◌<◌, ℕ, List, [], length, get_or, nat_lt, nat_le, All};
ghost use Rattle.cr_model.specs.Callings.{length_of, rows_of, rows_from, last_of};
ghost use Rattle.cr_audit.specs.Paths.{IsAt};

use crate::path::{Path, last_changes, last_row};
use cr_model::Problem;
use cr_row::{Change, Row, change_of_a_row, rounds_is_neutral};

/// How many rows there are before the last lead, and how many in it.
#[derive(Clone, Copy)]
pub struct Size {
    pub before: u64,
    pub last: u64,
}

impl Size {
    /// Those of the path's node.
    pub fn of(problem: &Problem, path: &Path) -> Size
        requires { IsAt problem.now path.now }
        ensures { result.before + result.last ≡ length_of problem.now path.now.node.items }
    {
        Size {
            before: path.rows.len() as u64,
            last: last_changes(problem, path).len() as u64,
        }
    }
}

/// Whether there are no more than so many.
pub fn has_room(size: Size, most: u64) -> bool
    ensures { result ≡ nat_le (size.before + size.last) most }
{
    size.before <= most && size.last <= most - size.before
}

/// Whether there is such a place.
pub fn has_place(size: Size, place: u64) -> bool
    ensures { result ≡ nat_lt place (size.before + size.last) }
{
    place < size.before || place - size.before < size.last
}

/// Whether there is a place behind this one.
pub fn goes_on_behind(size: Size, place: u64) -> bool
    ensures { result ≡ nat_lt (place + 1) (size.before + size.last) }
{
    if place < size.before {
        0 < size.last || 1 < size.before - place
    } else {
        place - size.before < size.last && 1 < size.last - (place - size.before)
    }
}

/// How many are left up to the most.
pub fn left_of(most: u64, size: Size) -> u64
    ensures { result ≡ most - (size.before + size.last) }
{
    most.saturating_sub(size.before).saturating_sub(size.last)
}

/// The row at a place. One of the last lead is rung from the head before it.
pub fn row_at(problem: &Problem, path: &Path, place: usize) -> Row
    requires at { IsAt problem.now path.now }
    requires place { place < length_of problem.now path.now.node.items }
    ensures { result ≡ get_or (rows_of problem.now path.now.node.items) place [] }
{
    change_of_a_row();
    rounds_is_neutral();
    let before = path.rows.len();
    if place < before {
        return path.rows[place];
    }
    let head = last_row(&path.rows, problem.stage());
    row_after(head, last_changes(problem, path), place - before)
}

// The row after the change at an index.
fn row_after(from: Row, changes: &[Change], index: usize) -> Row
    requires fit { All (λ change. change.stage ≡ length from) changes.now }
    requires index { index < length changes.now }
    ensures { result ≡ get_or (rows_from from changes.now) index [] }
{
    last_after(from, &changes[..index + 1])
}

// The row after some changes.
fn last_after(from: Row, changes: &[Change]) -> Row
    requires { All (λ change. change.stage ≡ length from) changes.now }
    ensures { result ≡ last_of from (rows_from from changes.now) }
{
    let mut row = from;
    for change in changes {
        row = row.then(change);
    }
    row
}
