//! Rows that stand for others: where a row stands, the row that covers it does too.

ghost use Rattle.std.specs.Prelude.{◌↔◌, ◌<◌, length, All, IsTrue, IfOk};
ghost use Rattle.cr_leads.specs.Tables.{lead_table};
ghost use Rattle.cr_false.specs.Telling.{AreTelling};
ghost use Rattle.cr_path.specs.Covers.{CoversItself, IsCovered, StaysWithin, IsCover};
ghost use Rattle.cr_path.specs.Rung.{IsHeld, rung_numbers};

use crate::numbers::leads::Leads;
use crate::numbers::proposed::{each_itself, proposed_cover};
use crate::numbers::rung_leads::{LeadNumbers, RungLead};
use crate::numbers::stopped::Stopped;
use cr_false::TellingRows;
use std::alloc::Global;

/// Of each row the number of the row that covers it.
pub fn cover_of(
    alloc: Global,
    leads: &Leads,
    told: &TellingRows,
    made: &LeadNumbers,
) -> Result<Vec<u32>, Stopped>
    requires telling { AreTelling (lead_table leads.now) told.now }
    requires held { All (IsHeld (length made.now.numbers.items)) made.now.records.items }
    requires within { All (λ number. number < length made.now.rows.rows) made.now.numbers.items }
    requires some { 0 < length made.now.rows.rows }
    ensures { IfOk result (λ cover. IsCover (length made.now.rows.rows) made.now.numbers.items made.now.records.items cover.items) }
{
    let cover = proposed_cover(alloc, leads, told, made)?;
    if is_cover(made, &cover) {
        Ok(cover)
    } else {
        each_itself(alloc, made.rows.len())
    }
}

// Whether a list is a cover.
fn is_cover(made: &LeadNumbers, cover: &[u32]) -> bool
    requires { All (IsHeld (length made.now.numbers.items)) made.now.records.items }
    ensures { IsTrue result ↔ IsCover (length made.now.rows.rows) made.now.numbers.items made.now.records.items cover.now }
{
    cover.len() as u64 == made.rows.len()
        && covers_itself(cover, 0)
        && all_cover_themselves(cover)
        && all_stay_within(&made.numbers, &made.records, cover)
}

// Whether a row covers itself.
fn covers_itself(cover: &[u32], row: u32) -> bool
    ensures { IsTrue result ↔ CoversItself cover.now row }
{
    match cover.get(row as usize) {
        Some(other) => *other == row,
        None => false,
    }
}

// Whether all rows that cover some do.
fn all_cover_themselves(cover: &[u32]) -> bool
    ensures { IsTrue result ↔ All (CoversItself cover.now) cover.now }
{
    cover.iter().all(|row| covers_itself(cover, *row))
}

// Whether the row that covers one stands in a lead.
fn is_covered(cover: &[u32], lead: &[u32], row: u32) -> bool
    ensures { IsTrue result ↔ IsCovered cover.now lead.now row }
{
    match cover.get(row as usize) {
        Some(other) => lead.contains(other),
        None => false,
    }
}

// Whether those that cover the rows of a lead stand in it.
fn stays_within(cover: &[u32], lead: &[u32]) -> bool
    ensures { IsTrue result ↔ StaysWithin cover.now lead.now }
{
    lead.iter().all(|row| is_covered(cover, lead, *row))
}

// The same of all leads.
fn all_stay_within(numbers: &[u32], leads: &[RungLead], cover: &[u32]) -> bool
    requires { All (IsHeld (length numbers.now)) leads.now }
    ensures { IsTrue result ↔ All (λ lead. StaysWithin cover.now (rung_numbers numbers.now lead)) leads.now }
{
    for lead in leads {
        if !stays_within(cover, lead.numbers_in(numbers)) {
            return false;
        }
    }
    true
}
