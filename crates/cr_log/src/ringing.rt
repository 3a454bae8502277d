//! Leads rung onto the stack of a node's rows.

ghost use Rattle.std.specs.Prelude.{◌≡◌, ◌+◌, ◌<◌, ◌≤◌, ℕ, nat_lt, ◌++◌, length, map, All};
ghost use Rattle.cr_row.specs.Rows.{rounds, product};
ghost use Rattle.cr_leads.specs.Tables.{lead_table};
ghost use Rattle.cr_model.specs.Callings.{last_of, rows_of};
ghost use Rattle.cr_model.specs.Queries.{part_cap};
ghost use Rattle.cr_model.specs.Sizes.{child};
ghost use Rattle.cr_log.specs.Logging.{IsAt, RingsLead, IsRungOn};

use cr_audit::Verdict;
use cr_leads::LeadTable;
use cr_model::Problem;
use cr_model::laws::joined_callings_multiply;
use cr_row::{Row, Stage};
use cr_rowset::{Pushed, RowStack};

/// Two places at which rows are equal, the first before the second.
#[derive(Clone, Copy)]
pub struct Twice {
    pub first: u64,
    pub again: u64,
}

/// Puts the rows of one more lead onto the stack of a node's rows, unless the child by its step is too long or a row of
/// it comes again: then it says so.
pub fn ring_on(
    problem: &Problem,
    leads: &LeadTable,
    node: &[u8],
    rows: &mut RowStack,
    step: u8,
) -> Option<Verdict>
    requires table { leads.now ≡ lead_table problem.now }
    requires at { IsAt problem.now node.now rows.old }
    requires step { step < length problem.now.leads }
    ensures { IsRungOn problem.now (child node.now step) rows.old result rows.new }
{
    joined_callings_multiply();
    let lead = leads.rows_of(step);
    if is_long(problem, rows, lead) {
        return Some(Verdict::Long);
    }
    let head = head_of(rows, problem.stage());
    match ring_lead(rows, head, lead) {
        Some(twice) => Some(Verdict::Again(twice.first, twice.again)),
        None => None,
    }
}

// Whether with these rows more there are more rows than a part may have.
fn is_long(problem: &Problem, rows: &RowStack, lead: &[Row]) -> bool
    requires few { length rows.now.rows ≤ part_cap problem.now }
    ensures { result ≡ nat_lt (part_cap problem.now) (length rows.now.rows + length lead.now) }
{
    lead.len() as u64 > problem.part_cap() - rows.len()
}

/// The last row of a stack, or rounds where there is none.
#[tactic(auto, using(cr_leads::proofs::LastRows::last_at))]
pub fn head_of(rows: &RowStack, stage: Stage) -> Row
    ensures { result ≡ last_of (rounds stage) rows.now.rows }
{
    let number = rows.len();
    if number == 0 {
        return Row::rounds(stage);
    }
    rows.row_at(number - 1)
}

// Pushes the products of a head with the rows of a lead, until one of them stands already.
fn ring_lead(rows: &mut RowStack, head: Row, lead: &[Row]) -> Option<Twice>
    requires staged { All (λ row. length row ≡ length head) lead.now }
    requires room { length rows.old.rows + length lead.now ≤ rows.old.room }
    ensures { RingsLead rows.old (rows.old.rows ++ map (product head) lead.now) result rows.new }
{
    for row in lead {
        match rows.push(head.times(row)) {
            Pushed::Fresh => (),
            Pushed::Again(first) => {
                let again = rows.len();
                return Some(Twice { first, again });
            }
            Pushed::Full => unreachable!(),
        }
    }
    // It tells that the rows on the stack differ.
    let _ = rows.len();
    None
}
