//! Leads that have a row twice.

ghost use Rattle.std.specs.Prelude.{◌↔◌, length, IsTrue, IfOk};
ghost use Rattle.std.specs.List.{AllZip, range_with_len};
ghost use Rattle.cr_leads.specs.Tables.{lead_rows};
ghost use Rattle.cr_false.specs.Sets.{HasTwice, TellsTwice};

use cr_leads::LeadTable;
use cr_row::{NoMemory, Row};
use cr_rowset::{Pushed, RowStack, rows_stay_different};
use std::alloc::Global;

/// Of each lead whether it has a row twice.
pub fn leads_with_twice(alloc: Global, leads: &LeadTable) -> Result<Vec<bool>, NoMemory>
    ensures { IfOk result (λ twice. AllZip (TellsTwice leads.now) (range_with_len 0 (length leads.now.leads)) twice.items) }
{
    let mut twice = Vec::new(alloc);
    for step in 0..leads.count() {
        twice.push(has_twice(alloc, leads.rows_of(step))?)?;
    }
    Ok(twice)
}

/// Whether a row stands twice among these.
pub fn has_twice(alloc: Global, rows: &[Row]) -> Result<bool, NoMemory>
    ensures { IfOk result (λ twice. IsTrue twice ↔ HasTwice rows.now) }
{
    rows_stay_different();
    let mut seen = RowStack::with_room(alloc, rows.len() as u64)?;
    for row in rows {
        if let Pushed::Again(_) = seen.push(*row) {
            return Ok(true);
        }
    }
    Ok(false)
}
