//! The records of leads.

ghost use Rattle.std.specs.Prelude.{◌≡◌, ◌*◌, ◌<◌, false, length, get_or, map, All, IfOk};
ghost use Rattle.cr_path.specs.PathLimits.{false_leads};
ghost use Rattle.cr_path.specs.Numbers.{comes_round, next_head};
ghost use Rattle.cr_path.specs.Representatives.{IsLike, AreLike};

use crate::numbers::growing::narrow;
use crate::numbers::leads::Leads;
use crate::numbers::rung_leads::RungLead;
use crate::numbers::stopped::Stopped;
use crate::numbers::table::LeadRecord;
use cr_row::{NoMemory, Row};
use std::alloc::Global;

/// Of each head whether it leads to rounds as often as the query has parts.
pub fn round_heads_of(alloc: Global, leads: &Leads, heads: &[Row]) -> Result<Vec<bool>, NoMemory>
    requires { All (λ head. length head ≡ leads.now.stage) heads.now }
    ensures { IfOk result (λ round_heads. round_heads.items ≡ map (comes_round leads.now) heads.now) }
{
    let mut round_heads = Vec::with_capacity(alloc, heads.len())?;
    for head in heads {
        round_heads.push(leads.comes_round(head))?;
    }
    Ok(round_heads)
}

/// Of each step whether its lead has a row twice.
pub fn twice_of(alloc: Global, leads: &Leads) -> Result<Vec<bool>, NoMemory>
    ensures { IfOk result (λ twice. twice.items ≡ false_leads leads.now (length leads.now.leads)) }
{
    let mut twice = Vec::with_capacity(alloc, usize::from(leads.count()))?;
    for step in 0..leads.count() {
        twice.push(leads.has_row_twice(step))?;
    }
    Ok(twice)
}

/// The records of leads that were rung, where there are so many steps, and these heads come round.
pub fn records_of(
    alloc: Global,
    rung: &[RungLead],
    steps: u8,
    round_heads: &[bool],
) -> Result<Vec<LeadRecord>, Stopped>
    ensures { IfOk result (λ leads. AreLike steps round_heads.now rung.now leads.items (length rung.now)) }
{
    let mut leads = Vec::with_capacity(alloc, rung.len())?;
    for lead in rung {
        leads.push(record_of(lead, steps, round_heads)?)?;
    }
    Ok(leads)
}

/// Of each lead, in the order of the records, the number of the head after it, where each head has so many records.
pub fn next_heads_of(alloc: Global, leads: &[LeadRecord], steps: u8) -> Result<Vec<u32>, NoMemory>
    requires { 0 < steps }
    ensures { IfOk result (λ next. next.items ≡ map (next_head steps) leads.now) }
{
    let mut next = Vec::with_capacity(alloc, leads.len())?;
    for lead in leads {
        next.push(lead.next / u32::from(steps))?;
    }
    Ok(next)
}

// The record of a lead.
fn record_of(rung: &RungLead, steps: u8, round_heads: &[bool]) -> Result<LeadRecord, Stopped>
    ensures { IfOk result (λ lead. IsLike steps round_heads.now rung.now lead) }
{
    Ok(LeadRecord {
        next: narrow(rung.next as usize * usize::from(steps))?,
        limit: rung.limit,
        length: rung.length,
        round: is_round(round_heads, rung.next),
    })
}

// Whether the head with this number comes round.
fn is_round(round_heads: &[bool], head: u32) -> bool
    ensures { result ≡ get_or round_heads.now head false }
{
    match round_heads.get(head as usize) {
        Some(round) => *round,
        None => false,
    }
}
