//! Lengths, in changes: of leads, of callings, and the greatest that a touch may have.

ghost use Rattle.std.specs.Prelude.{◌≡◌, ℕ, ◌<◌, ◌≤◌, List, length, map, All, min, nat_abs, sum_by};
ghost use Rattle.cr_model.specs.Callings.{least, changes_at};
ghost use Rattle.cr_model.specs.Limits.{most_lead_changes, most_leads};
ghost use Rattle.cr_model.specs.Queries.{extent};

use crate::lead::Lead;
use cr_row::Stage;

// How many rows there are on 0 to 16 bells.
const EXTENTS: [u64; 17] = [
    1,
    1,
    2,
    6,
    24,
    120,
    720,
    5040,
    40320,
    362880,
    3628800,
    39916800,
    479001600,
    6227020800,
    87178291200,
    1307674368000,
    20922789888000,
];

/// The greatest length of a touch: the query's, and no more than the extent.
pub fn greatest_length(stage: Stage, max: i64) -> u64
    ensures is { result ≡ min (nat_abs max) (extent stage) }
    ensures stage { (3 ≤ stage) × (stage ≤ 16) }
{
    max.unsigned_abs().min(EXTENTS[usize::from(stage.number())])
}

/// The number of changes of the lead at an index.
#[tactic(auto, using(crate::specs::Callings::changes_at_is))]
pub fn change_count(leads: &[Lead], index: usize) -> usize
    requires { index < length leads.now }
    ensures { result ≡ length (changes_at leads.now index) }
{
    let lead = &leads[index];
    lead.changes.len()
}

/// The number of changes of the shortest lead, 0 where there is none.
#[tactic(auto, using(crate::proofs::Measured::least_first))]
pub fn shortest_length(leads: &[Lead]) -> u64
    ensures { result ≡ least (map (λ lead. length lead.changes) leads.now) }
{
    if leads.is_empty() {
        return 0;
    }
    let mut shortest = change_count(leads, 0);
    for index in 1..leads.len() {
        shortest = shortest.min(change_count(leads, index));
    }
    shortest as u64
}

/// The number of changes of these steps.
pub fn total_length(leads: &[Lead], steps: &[u8]) -> u64
    requires few { length steps.now ≤ most_leads }
    requires known { All (λ step. step < length leads.now) steps.now }
    requires short { (i : ℕ) → i < length leads.now → length (changes_at leads.now i) ≤ most_lead_changes }
    ensures { result ≡ sum_by (λ step. length (changes_at leads.now step)) steps.now }
{
    let mut total = 0;
    for step in steps {
        total += change_count(leads, usize::from(*step)) as u64;
    }
    total
}
