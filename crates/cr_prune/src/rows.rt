//! Leads rung onto a stack of rows.

ghost use Rattle.std.specs.Prelude.{◌≡◌, ◌+◌, ◌≤◌, ℕ, ◌++◌, length, All, IfSome, IsNone};
ghost use Rattle.cr_row.specs.Rows.{Places};
ghost use Rattle.cr_model.specs.Callings.{rows_from, last_of, AllDiffer};

use cr_row::{Change, Row};
use cr_rowset::{Pushed, RowStack};

/// Pushes the rows of a lead that is rung from a row, and gives the last. Where one of them stands already, none
/// stays.
pub fn ring_lead(stack: &mut RowStack, from: Row, changes: &[Change]) -> Option<Row>
    requires staged { All (λ change. change.stage ≡ length from) changes.now }
    requires room { length stack.old.rows + length changes.now ≤ stack.old.room }
    ensures some { IfSome result (λ last. (last ≡ last_of from (rows_from from changes.now))
        × (stack.new ≡ record { rows = stack.old.rows ++ rows_from from changes.now; room = stack.old.room })) }
    ensures differ { IfSome result (λ _. AllDiffer stack.new.rows) }
    ensures none { IsNone result → (stack.new ≡ stack.old) × (AllDiffer (stack.old.rows ++ rows_from from changes.now) → ⊥) }
{
    let before = stack.len();
    let mut row = from;
    for change in changes {
        row = row.then(change);
        match stack.push(row) {
            Pushed::Fresh => (),
            Pushed::Again(_) => {
                stack.cut_to(before);
                return None;
            }
            Pushed::Full => unreachable!(),
        }
    }
    // It tells that the rows on the stack differ.
    let _ = stack.len();
    Some(row)
}
