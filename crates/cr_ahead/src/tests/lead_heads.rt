//! Whether rows are lead heads that lead to one another.

ghost use Rattle.std.specs.Prelude.{◌≡◌, ℕ, ◌<◌, ◌≤◌, ◌*◌, ◌↔◌, List, [], length, get_or, All, IsTrue, IfOk};
ghost use Rattle.cr_model.specs.Problems.{ProblemParts};
ghost use Rattle.cr_model.specs.Callings.{changes_of};
ghost use Rattle.cr_model.specs.Levels.{head_from};
ghost use Rattle.cr_leads.specs.Tables.{lead_table};
ghost use Rattle.cr_ahead.specs.Outlooks.{AreLeadHeads, led_to};

use crate::moves::are_there;
use cr_leads::LeadTable;
use cr_model::Problem;
use cr_model::laws::a_lead_rung_from_a_row;
use cr_row::{NoMemory, Row, rounds_is_neutral};
use std::alloc::Global;

/// Whether these are some lead heads of a problem, and these the places of the heads that the steps lead to.
pub fn are_lead_heads(
    alloc: Global,
    problem: &Problem,
    heads: &[Row],
    next: &[u32],
) -> Result<bool, NoMemory>
    ensures { IfOk result (λ are. IsTrue are → AreLeadHeads problem.now heads.now next.now) }
{
    let leads = LeadTable::new(alloc, problem)?;
    if heads.len() > 1000 || next.len() != heads.len() * usize::from(leads.count()) {
        return Ok(false);
    }
    if !are_of_stage(&leads, heads) || !are_there(next, heads.len()) {
        return Ok(false);
    }
    Ok(all_lead(&leads, heads, next))
}

// Whether all heads are of the stage.
fn are_of_stage(leads: &LeadTable, heads: &[Row]) -> bool
    ensures { IsTrue result ↔ All (λ head. length head ≡ leads.now.stage) heads.now }
{
    heads.iter().all(|head| is_of_stage(leads, head))
}

fn is_of_stage(leads: &LeadTable, head: &Row) -> bool
    ensures { IsTrue result ↔ (length head.now ≡ leads.now.stage) }
{
    head.stage() == leads.stage()
}

// Whether each step leads from each head to the head at its place.
fn all_lead(leads: &LeadTable, heads: &[Row], next: &[u32]) -> bool
    requires staged { All (λ head. length head ≡ leads.now.stage) heads.now }
    requires there { All (λ place. place < length heads.now) next.now }
    requires counted { length next.now ≡ length heads.now * length leads.now.leads }
    ensures { IsTrue result → (p : ProblemParts) → leads.now ≡ lead_table p → (place step : ℕ) → place < length heads.now → step < length p.leads
        → get_or heads.now (led_to p next.now place step) [] ≡ head_from (get_or heads.now place []) (changes_of p step) }
{
    let steps = usize::from(leads.count());
    for entry in 0..next.len() {
        let step = (entry % steps) as u8;
        let head = &heads[entry / steps];
        let to = &heads[next[entry] as usize];
        if !leads_to(leads, head, step, to) {
            return false;
        }
    }
    true
}

// Whether a step leads from a head to another one.
fn leads_to(leads: &LeadTable, head: &Row, step: u8, to: &Row) -> bool
    requires step { step < length leads.now.leads }
    requires head { length head.now ≡ leads.now.stage }
    ensures { IsTrue result → (p : ProblemParts) → leads.now ≡ lead_table p → to.now ≡ head_from head.now (changes_of p step) }
{
    a_lead_rung_from_a_row();
    rounds_is_neutral();
    head.times(&leads.head_of(step)) == *to
}
