//! The numbers of the representative rows of leads, as many for each.

ghost use Rattle.std.specs.Prelude.{◌≡◌, ◌-◌, ◌<◌, ◌≤◌, ◌++◌, length, get_or, All, IfOk};
ghost use Rattle.cr_path.specs.Rung.{IsHeld};
ghost use Rattle.cr_path.specs.Representatives.{name_of, HasName, padded, all_padded, AreNamed};

use crate::numbers::representatives::Representatives;
use crate::numbers::row_names::RowNames;
use crate::numbers::rung_leads::{LeadNumbers, RungLead};
use crate::numbers::stopped::Stopped;
use std::alloc::Global;

// How many numbers a lead may have: what goes by them is compiled for each of these.
const WIDTHS: [usize; 11] = [2, 3, 4, 6, 8, 12, 16, 24, 32, 64, 128];

// The most numbers of all leads.
const MOST_NUMBERS: usize = 1 << 26;

/// So many numbers of representative rows for each lead, those of the first lead first.
#[derive(Drop)]
pub struct RowNumbers {
    pub width: usize,
    pub numbers: Vec<u32>,
}

impl RowNumbers {
    /// Those of leads that were rung, by a cover of their rows and the representative ones. Each lead has as many as the
    /// width, which is the least that the one with most has room in, with its first one again where it has fewer.
    /// TooMany where they are more than 67,108,864.
    pub fn of(
        alloc: Global,
        made: &LeadNumbers,
        cover: &[u32],
        representatives: &Representatives,
    ) -> Result<RowNumbers, Stopped>
        requires held { All (IsHeld (length made.now.numbers.items)) made.now.records.items }
        requires named { All (HasName cover.now representatives.now.places.items (length representatives.now.rows.items)) made.now.numbers.items }
        ensures { IfOk result (λ named. AreNamed made.now.numbers.items (name_of cover.now representatives.now.places.items) (length representatives.now.rows.items)
            named.width made.now.records.items named.numbers.items) }
    {
        let row_names = RowNames::of(alloc, made, cover, representatives)?;
        let width = width_for_all(&row_names.leads);
        let numbers = padded_names(alloc, &row_names.leads, &row_names.names, width)?;
        Ok(RowNumbers { width, numbers })
    }
}

// The least width that has room for the names of each lead.
fn width_for_all(leads: &[RungLead]) -> usize
    ensures { All (λ lead. lead.end - lead.start ≤ result) leads.now }
{
    width_for(most_names(leads))
}

// The least width for so many names.
fn width_for(names: usize) -> usize
    ensures { names ≤ result }
{
    for width in WIDTHS {
        if names <= width {
            return width;
        }
    }
    names
}

// How many names the lead has that has most.
fn most_names(leads: &[RungLead]) -> usize
    ensures { All (λ lead. lead.end - lead.start ≤ result) leads.now }
{
    let mut most = 0;
    for lead in leads {
        most = most.max(lead.end.saturating_sub(lead.start) as usize);
    }
    most
}

// The names of all leads, so many for each.
fn padded_names(
    alloc: Global,
    leads: &[RungLead],
    names: &[u32],
    width: usize,
) -> Result<Vec<u32>, Stopped>
    requires held { All (IsHeld (length names.now)) leads.now }
    requires few { All (λ lead. lead.end - lead.start ≤ width) leads.now }
    ensures { IfOk result (λ numbers. numbers.items ≡ all_padded width names.now leads.now) }
{
    let room = leads.len().saturating_mul(width);
    if room > MOST_NUMBERS {
        return Err(Stopped::TooMany);
    }
    let mut numbers = Vec::with_capacity(alloc, room)?;
    for lead in leads {
        add_padded(&mut numbers, lead.numbers_in(names), width)?;
    }
    Ok(numbers)
}

// Adds some names, and the first one again until they are so many.
fn add_padded(numbers: &mut Vec<u32>, names: &[u32], width: usize) -> Result<(), Stopped>
    requires some { 0 < length names.now }
    requires few { length names.now ≤ width }
    ensures { IfOk result (λ _. numbers.new.items ≡ numbers.old.items ++ padded width names.now) }
{
    numbers.extend_from_slice(names)?;
    for _more in names.len()..width {
        numbers.push(first_of(names))?;
    }
    Ok(())
}

// The first of some names.
fn first_of(names: &[u32]) -> u32
    requires { 0 < length names.now }
    ensures { result ≡ get_or names.now 0 0 }
{
    names[0]
}
