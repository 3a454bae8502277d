//! Leads rung past a stack of rows.

ghost use Rattle.std.specs.Prelude.{◌≡◌, ◌↔◌, length, All, Contains, IfSome, IsTrue};
ghost use Rattle.cr_row.specs.Rows.{Places};
ghost use Rattle.cr_prune.specs.Parts.{RingsPast};

use cr_row::{Change, Row};
use cr_rowset::RowStack;

/// Rings a lead from a row, as long as no row comes that stands on the stack, and gives the last row.
pub fn ring_past(stack: &RowStack, from: Row, changes: &[Change]) -> Option<Row>
    requires staged { All (λ change. change.stage ≡ length from) changes.now }
    ensures past { RingsPast stack.now.rows from changes.now result }
    ensures same_stage { IfSome result (λ last. length last ≡ length from) }
{
    let mut row = from;
    for change in changes {
        row = row.then(change);
        if has(stack, &row) {
            return None;
        }
    }
    Some(row)
}

// Whether a row is one of those on the stack.
fn has(stack: &RowStack, row: &Row) -> bool
    ensures { IsTrue result ↔ Contains stack.now.rows row.now }
{
    stack.place_of(row).is_some()
}
