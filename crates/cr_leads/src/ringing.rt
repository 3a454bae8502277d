//! Rows rung one after another.

ghost use Rattle.std.specs.Prelude.{◌≡◌, ◌≢◌, ◌≤◌, ◌↔◌, ℕ, List, [], ◌++◌, length, map, All, IsTrue, IfOk};
ghost use Rattle.cr_row.specs.Rows.{rounds, product};
ghost use Rattle.cr_model.specs.Callings.{rows_from, last_of};

use cr_row::{Change, NoMemory, Row, Stage};

/// Rings the changes from a row, and appends the row after each.
pub fn ring_changes(rows: &mut Vec<Row>, from: Row, changes: &[Change]) -> Result<(), NoMemory>
    requires { All (λ change. change.stage ≡ length from) changes.now }
    ensures { IfOk result (λ _. rows.new.items ≡ rows.old.items ++ rows_from from changes.now) }
{
    let mut row = from;
    for change in changes {
        row = row.then(change);
        rows.push(row)?;
    }
    Ok(())
}

/// Appends the products of a row with the rows of a lead, and gives the last of them.
pub fn ring_lead(rows: &mut Vec<Row>, head: Row, lead: &[Row]) -> Result<Row, NoMemory>
    requires { All (λ row. length row ≡ length head) lead.now }
    ensures rows { IfOk result (λ _. rows.new.items ≡ rows.old.items ++ map (product head) lead.now) }
    ensures last { IfOk result (λ last. last ≡ last_of head (map (product head) lead.now)) }
{
    let mut last = head;
    for row in lead {
        last = head.times(row);
        rows.push(last)?;
    }
    Ok(last)
}

/// The last of some rows.
#[tactic(auto, using(crate::proofs::LastRows::last_at))]
pub fn last_row(rows: &[Row]) -> Row
    requires { 1 ≤ length rows.now }
    ensures { (row : List ℕ) → result ≡ last_of row rows.now }
{
    rows[rows.len() - 1]
}

/// Whether there is a last row, and it is rounds.
#[tactic(auto, using(crate::proofs::LastRows::some_rows))]
pub fn ends_in_rounds(rows: &[Row], stage: Stage) -> bool
    ensures { IsTrue result ↔ ((rows.now ≢ []) × (last_of (rounds stage) rows.now ≡ rounds stage)) }
{
    if rows.is_empty() {
        return false;
    }
    is_rounds(last_row(rows), stage)
}

#[tactic(auto, using(crate::proofs::LastRows::same_rows))]
fn is_rounds(row: Row, stage: Stage) -> bool
    ensures { IsTrue result ↔ (row ≡ rounds stage) }
{
    row == Row::rounds(stage)
}
