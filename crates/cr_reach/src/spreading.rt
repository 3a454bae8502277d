//! Rows one lead before others, pushed on a row stack.

ghost use Rattle.std.specs.Prelude.{◌≡◌, ◌≤◌, length, map, drop, All};
ghost use Rattle.cr_row.specs.Rows.{product};
ghost use Rattle.cr_reach.specs.Spreading.{AreAlike, products, Spreads, Grows};

use cr_row::Row;
use cr_rowset::{Pushed, RowStack};

/// Pushes the rows of the next level: the products of the rows from this place on with the inverse heads.
/// False, with nothing changed, where none of them is new or they have no room.
pub fn push_level(rows: &mut RowStack, start: u64, inverses: &[Row]) -> bool
    requires alike { AreAlike rows.old.rows inverses.now }
    requires start { start ≤ length rows.old.rows }
    ensures { Grows rows.old (products inverses.now (drop start rows.old.rows)) result rows.new }
{
    let end = rows.len();
    if spread(rows, start, inverses) {
        return rows.len() > end;
    }
    rows.cut_to(end);
    false
}

// Pushes the products of the rows from this place on. False where they have no room.
fn spread(rows: &mut RowStack, start: u64, inverses: &[Row]) -> bool
    requires alike { AreAlike rows.old.rows inverses.now }
    requires start { start ≤ length rows.old.rows }
    ensures { Spreads rows.old (products inverses.now (drop start rows.old.rows)) result rows.new }
{
    for place in start..rows.len() {
        let row = rows.row_at(place);
        if !push_products(rows, row, inverses) {
            return false;
        }
    }
    true
}

// Pushes the products of a row. False where they have no room.
fn push_products(rows: &mut RowStack, row: Row, inverses: &[Row]) -> bool
    requires { All (λ inverse. length inverse ≡ length row) inverses.now }
    ensures { Spreads rows.old (map (product row) inverses.now) result rows.new }
{
    for inverse in inverses {
        if let Pushed::Full = rows.push(row.times(inverse)) {
            return false;
        }
    }
    true
}
