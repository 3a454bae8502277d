//! Leads rung backwards.

ghost use Rattle.std.specs.Prelude.{length, IfOk};
ghost use Rattle.cr_reach.specs.Spreading.{AreOfStage, LeadBack};

use cr_leads::LeadTable;
use cr_model::laws::a_lead_rung_from_a_row;
use cr_row::{
    NoMemory, Row, change_of_a_row, change_twice, product_associates, product_of_rows,
    rounds_is_neutral, rows_cancel,
};
use std::alloc::Global;

/// The inverse of each step's head. A row times it is the row one such lead before.
pub fn inverse_heads(alloc: Global, leads: &LeadTable) -> Result<Vec<Row>, NoMemory>
    ensures back { IfOk result (λ inverses. LeadBack leads.now (length leads.now.leads) inverses.items) }
    ensures staged { IfOk result (λ inverses. AreOfStage leads.now.stage inverses.items) }
{
    a_lead_rung_from_a_row();
    change_of_a_row();
    change_twice();
    product_associates();
    product_of_rows();
    rounds_is_neutral();
    rows_cancel();
    let mut inverses = Vec::with_capacity(alloc, usize::from(leads.count()))?;
    for step in 0..leads.count() {
        inverses.push(leads.head_of(step).inverse())?;
    }
    Ok(inverses)
}
