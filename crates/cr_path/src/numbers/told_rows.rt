//! The rows that tell the leads of a problem, each once: leads of several steps often have rows in common, if they are
//! rung from one head.

ghost use Rattle.std.specs.Prelude.{◌≡◌, ◌<◌, ◌≤◌, ℕ, [], length, get_or, All, IfOk};
ghost use Rattle.cr_leads.specs.Tables.{lead_table};
ghost use Rattle.cr_false.specs.Telling.{AreTelling};
ghost use Rattle.cr_path.specs.RungLeads.{AreNumbered};
ghost use Rattle.cr_path.specs.ToldRows.{AreToldRows};

use crate::numbers::growing::{narrow, number, rows_of};
use crate::numbers::leads::Leads;
use crate::numbers::room::MOST_ROWS;
use crate::numbers::stopped::Stopped;
use cr_false::TellingRows;
use cr_row::Row;
use cr_rowset::RowStack;
use std::alloc::Global;
use std::marker::Model;

/// The places of the rows that tell a lead, in their order.
#[derive(Drop)]
struct Places {
    places: Vec<u32>,
}

impl Model for Places {
    ghost use Rattle.std.specs.Prelude.{ℕ, List};

    ghost Value = { List ℕ };

    ghost view = { λ p. p.places.items };
}

/// The rows that tell the leads of all steps, each once, and of each step the places of those that tell its lead.
///
/// It is seen as the rows by step, the rows each once, and the places by step.
#[derive(Drop)]
pub struct ToldRows<'a> {
    told: &'a TellingRows,
    rows: Vec<Row>,
    leads: Vec<Places>,
}

impl<'a> Model for ToldRows<'a> {
    ghost use Rattle.cr_path.specs.ToldRows.{ToldParts};

    ghost Value = { ToldParts };

    ghost view = { λ t. record { told = t.told.now; rows = t.rows.items; leads = t.leads.items } };
}

impl<'a> ToldRows<'a> {
    /// Those of a problem. Err where no memory is left.
    pub fn of(alloc: Global, leads: &Leads, told: &'a TellingRows) -> Result<ToldRows<'a>, Stopped>
        requires { AreTelling (lead_table leads.now) told.now }
        ensures told { IfOk result (λ rows. rows.told ≡ told.now) }
        ensures are { IfOk result (λ rows. AreToldRows leads.now rows (length leads.now.leads)) }
    {
        let mut rows = RowStack::with_room(alloc, FEW_ROWS)?;
        let mut places = Vec::with_capacity(alloc, usize::from(leads.count()))?;
        for step in 0..leads.count() {
            places.push(places_of(alloc, &mut rows, rows_within(leads, told, step))?)?;
        }
        Ok(ToldRows {
            told,
            rows: rows_of(alloc, &rows)?,
            leads: places,
        })
    }

    /// The rows that tell leads, by step.
    pub fn told(&self) -> &TellingRows
        ensures { result.now ≡ self.now.told }
    {
        self.told
    }

    /// The rows, each once.
    pub fn rows(&self) -> &[Row]
        ensures { result.now ≡ self.now.rows }
    {
        &self.rows
    }

    /// The places of the rows that tell the lead of a step.
    pub fn places_of(&self, step: u8) -> &[u32]
        requires { step < length self.now.leads }
        ensures { result.now ≡ get_or self.now.leads step [] }
    {
        &self.leads[usize::from(step)].places
    }
}

// The room that the stack begins with.
const FEW_ROWS: u64 = 64;

// The places of some rows on a stack, where those are put that do not stand there.
fn places_of(alloc: Global, rows: &mut RowStack, lead: &[Row]) -> Result<Places, Stopped>
    ensures are { IfOk result (λ places. AreNumbered rows.old.rows [] lead.now rows.new.rows places) }
    ensures staged { IfOk result (λ _. (stage : ℕ) → All (λ row. length row ≡ stage) rows.old.rows → All (λ row. length row ≡ stage) lead.now
        → All (λ row. length row ≡ stage) rows.new.rows) }
{
    let mut places = Vec::with_capacity(alloc, lead.len())?;
    for row in lead {
        places.push(number(alloc, rows, *row, MOST_ROWS)?)?;
    }
    Ok(Places { places })
}

/// Those that tell the lead of a step.
pub fn rows_within<'a>(leads: &Leads, told: &'a TellingRows, step: u8) -> &'a [Row]
    requires telling { AreTelling (lead_table leads.now) told.now }
    requires step { step < length leads.now.leads }
    ensures is { result.now ≡ get_or told.now step [] }
    ensures few { length result.now ≤ 128 }
    ensures same_stage { All (λ row. length row ≡ leads.now.stage) result.now }
{
    // It tells how many rows the lead has.
    let _ = leads.rows_of(step);
    told.rows_of(step)
}

/// Of each step by how many rows its lead is told.
pub fn counts_of(alloc: Global, leads: &Leads, told: &TellingRows) -> Result<Vec<u32>, Stopped>
    requires { AreTelling (lead_table leads.now) told.now }
{
    let mut counts = Vec::with_capacity(alloc, usize::from(leads.count()))?;
    for step in 0..leads.count() {
        counts.push(narrow(rows_within(leads, told, step).len())?)?;
    }
    Ok(counts)
}
