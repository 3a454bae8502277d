//! What is found of a problem once, for all of its nodes.

ghost use Rattle.std.specs.Prelude.{◌≡◌, ℕ, ◌<◌, false, not, nat_abs, nat_lt, [], ◌∷◌, length, get_or};
ghost use Rattle.cr_model.specs.Problems.{ProblemParts};
ghost use Rattle.cr_model.specs.Callings.{rows_of};
ghost use Rattle.cr_model.specs.Decided.{rows_differ};
ghost use Rattle.cr_leads.specs.Tables.{lead_table};
ghost use Rattle.cr_prune.specs.PruneLimits.{ArePruneLimits};

use crate::repeats::repeats;
use cr_leads::LeadTable;
use cr_model::{Problem, Query};
use cr_query::turn_free;

/// Numbers of a problem, and which of its leads are false in themselves.
#[derive(Clone, Copy)]
pub struct PruneLimits {
    pub cap: u64,
    pub part_cap: u64,
    pub shortest: u64,
    // Whether there are several parts.
    pub several: bool,
    // Whether all rotations of a calling meet the query, or none.
    pub turn_free: bool,
    // By step number, whether the lead has a row twice.
    pub false_leads: [bool; 24],
}

impl PruneLimits {
    /// The facts of a problem. It takes no memory.
    pub fn of(problem: &Problem, leads: &LeadTable) -> PruneLimits
        requires { leads.now ≡ lead_table problem.now }
        ensures { ArePruneLimits problem.now result }
    {
        let query = problem.query();
        PruneLimits {
            cap: problem.cap(),
            part_cap: problem.part_cap(),
            shortest: problem.shortest(),
            several: has_several_parts(query),
            turn_free: turn_free(query),
            false_leads: false_leads(leads),
        }
    }
}

// Whether a query asks for several parts.
fn has_several_parts(query: &Query) -> bool
    ensures { result ≡ nat_lt 1 (nat_abs query.now.parts) }
{
    query.parts.unsigned_abs() > 1
}

// Which leads have a row twice, by step number.
fn false_leads(leads: &LeadTable) -> [bool; 24]
    ensures steps { length result ≡ 24 }
    ensures leads { (p : ProblemParts) → leads.now ≡ lead_table p
        → (step : ℕ) → step < length p.leads → get_or result step false ≡ not (rows_differ (rows_of p (step ∷ []))) }
{
    let mut false_leads = [false; 24];
    for step in 0..leads.count() {
        false_leads[usize::from(step)] = repeats(leads.rows_of(step));
    }
    false_leads
}
