//! The names of the rows of leads, each once.

ghost use Rattle.std.specs.Prelude.{◌≡◌, ◌<◌, ◌++◌, ◌∷◌, [], cond, nat_eq, length, map, All, IfOk};
ghost use Rattle.std.specs.List.{list_any};
ghost use Rattle.cr_path.specs.Rung.{IsHeld};
ghost use Rattle.cr_path.specs.Representatives.{name_of, HasName, AreSame, AreListed};

use crate::numbers::growing::narrow;
use crate::numbers::representatives::Representatives;
use crate::numbers::rung_leads::{LeadNumbers, RungLead};
use crate::numbers::stopped::Stopped;
use std::alloc::Global;

/// Leads that were rung, with the names of their rows in place of the numbers.
#[derive(Drop)]
pub struct RowNames {
    pub leads: Vec<RungLead>,
    pub names: Vec<u32>,
}

impl RowNames {
    /// Those of all leads, by a cover of their rows and the representative ones. Each name of a lead stands once.
    pub fn of(
        alloc: Global,
        made: &LeadNumbers,
        cover: &[u32],
        representatives: &Representatives,
    ) -> Result<RowNames, Stopped>
        requires held { All (IsHeld (length made.now.numbers.items)) made.now.records.items }
        requires named { All (HasName cover.now representatives.now.places.items (length representatives.now.rows.items)) made.now.numbers.items }
        ensures { IfOk result (λ row_names. AreListed made.now.numbers.items (name_of cover.now representatives.now.places.items) (length representatives.now.rows.items)
            made.now.records.items row_names.leads.items row_names.names.items (length made.now.records.items)) }
    {
        let mut leads = Vec::with_capacity(alloc, made.records.len())?;
        let mut names = Vec::with_capacity(alloc, made.numbers.len())?;
        for lead in &made.records {
            let more = names_of(
                alloc,
                cover,
                representatives,
                lead.numbers_in(&made.numbers),
            )?;
            leads.push(listed(lead, &more, &mut names)?)?;
        }
        Ok(RowNames { leads, names })
    }
}

// A lead with names, which are listed after others.
fn listed(rung: &RungLead, more: &[u32], names: &mut Vec<u32>) -> Result<RungLead, Stopped>
    ensures start { IfOk result (λ lead. lead.start ≡ length names.old.items) }
    ensures end { IfOk result (λ lead. lead.end ≡ length names.new.items) }
    ensures names { IfOk result (λ _. names.new.items ≡ names.old.items ++ more.now) }
{
    let start = narrow(names.len())?;
    names.extend_from_slice(more)?;
    let end = narrow(names.len())?;
    Ok(RungLead {
        start,
        end,
        ..*rung
    })
}

// The names of a lead's rows, each once.
fn names_of(
    alloc: Global,
    cover: &[u32],
    representatives: &Representatives,
    lead: &[u32],
) -> Result<Vec<u32>, Stopped>
    requires { All (HasName cover.now representatives.now.places.items (length representatives.now.rows.items)) lead.now }
    ensures { IfOk result (λ names. AreSame (map (name_of cover.now representatives.now.places.items) lead.now) names.items) }
{
    let mut names = Vec::with_capacity(alloc, lead.len())?;
    for row in lead {
        add_once(
            &mut names,
            representatives.places[cover[*row as usize] as usize],
        )?;
    }
    Ok(names)
}

// Adds a name that is not there.
fn add_once(names: &mut Vec<u32>, name: u32) -> Result<(), Stopped>
    ensures { IfOk result (λ _. names.new.items ≡ names.old.items ++ cond (list_any (nat_eq name) names.old.items) [] (name ∷ [])) }
{
    if !names.contains(&name) {
        names.push(name)?;
    }
    Ok(())
}
